//! The topics of a project and their comments.
ghost use Rattle.std.specs.Prelude.{◌≡◌, ◌<◌, ◌^◌, ◌++◌, ◌∷◌, [], ℕ, map, length, All, option_copied, is_ok, if◌then◌else◌, IfOk, OnOk, OnErr, MatchOption};
ghost use Rattle.bcf_topics.specs.Topics.{new_topic, topic_of, topics_put, topics_but, Rises};
ghost use Rattle.bcf_topics.specs.Comments.{comment_of, comments_on, comments_with, comments_put, comments_but};
ghost use Rattle.bcf_topics.specs.Discussions.{with_topics, with_comments, without_topic, topic_refusal, comment_refusal, answer_of, IsAnswer};

use crate::comment::{Comment, CommentBody};
use crate::comment_list;
use crate::topic::Topic;
use crate::topic_body::TopicBody;
use crate::topic_places::{self, is_topic};
use bim_model::{Author, Shared};
use std::alloc::{AllocError, Global};
use std::collections::BTreeMap;
use std::marker::Model;

/// Why a call is refused.
#[derive(Clone, Copy, Debug, PartialEq, Eq)]
pub enum TopicError {
    /// B1: there is no topic of that number.
    NoTopic,
    /// B2: the topic has no comment of that number.
    NoComment,
    Memory,
}

impl From<AllocError> for TopicError {
    ghost from_gives = { λ _ e. e ≡ Memory };

    ghost use Rattle.std.specs.Prelude.{◌≡◌};
    ghost use Rattle.bcf_topics.specs.declared.topics.TopicError.TheVariants.{Memory};

    fn from(_: AllocError) -> TopicError {
        TopicError::Memory
    }
}

/// The topics of a project and their comments. Contracts see them as two lists: the topics by rising serial
/// number, and the comments, each under its topic's serial number and its own, in the order of these.
#[derive(Drop)]
pub struct Topics {
    topics: Vec<Shared<Topic>>,
    comments: BTreeMap<(u64, u64), Comment>,
}

impl Model for Topics {
    ghost use Rattle.bcf_topics.specs.Discussions.{Discussion};
    ghost use Rattle.bcf_topics.specs.Topics.{Rises};

    ghost Value = { Discussion };

    ghost view = { λ t. record { topics = t.topics.items; comments = t.comments.entries } };

    ghost invariant = { λ t. Rises t.topics.items };
}

impl Topics {
    /// No topics.
    #[tactic(auto, unfolding(crate::specs::Topics::Rises))]
    pub fn new(alloc: Global) -> Topics
        ensures { result ≡ record { topics = []; comments = [] } }
    {
        Topics {
            topics: Vec::new(alloc),
            comments: BTreeMap::new(alloc),
        }
    }

    /// The topics by rising serial number, lent.
    pub fn topics(&self) -> &[Shared<Topic>]
        ensures same { result.now ≡ self.now.topics }
        ensures rises { Rises result.now }
    {
        self.topics.as_slice()
    }

    /// The topic of that serial number.
    pub fn topic(&self, serial: u64) -> Option<&Topic>
        ensures { option_copied result ≡ topic_of serial self.now.topics }
    {
        topic_places::find(&self.topics, serial)
    }

    /// The comment of that serial number on that topic.
    #[tactic(auto, unfolding(crate::specs::Comments::comment_of))]
    pub fn comment(&self, topic: u64, serial: u64) -> Option<&Comment>
        ensures { option_copied result ≡ comment_of topic serial self.now.comments }
    {
        self.comments.get(&(topic, serial))
    }

    /// The comments on a topic, by rising serial number; none where there is no such topic.
    pub fn comments(&self, topic: u64) -> Result<Vec<&Comment>, AllocError>
        requires { topic < 2 ^ 48 }
        ensures { IfOk result (λ list. map (λ c. c.now) list.items ≡ comments_on topic self.now.comments) }
    {
        let alloc = *self.topics.allocator();
        comment_list::list(alloc, &self.comments, topic)
    }

    /// How many comments there are on all topics.
    pub fn comment_count(&self) -> u64
        ensures { result ≡ length self.now.comments }
    {
        self.comments.len() as u64
    }

    /// Makes a topic, whose serial number is above those of the others. An `Err` leaves all as it was.
    pub fn post_topic(
        &mut self,
        serial: u64,
        body: TopicBody,
        author: Author,
    ) -> Result<(), AllocError>
        requires { All (λ t. t.serial < serial) self.old.topics }
        ensures ok { OnOk result (self.new
            ≡ with_topics (self.old.topics ++ new_topic serial body author ∷ []) self.old) }
        ensures err { OnErr result (self.new ≡ self.old) }
    {
        let topic = Topic {
            serial,
            body,
            created: author,
            modified: None,
        };
        let alloc = *self.topics.allocator();
        let topic = Shared::new(alloc, topic)?;
        topic_places::push(&mut self.topics, topic)
    }

    /// Puts another body in the place of a topic's whole body. B1 where there is no such topic. An `Err` leaves all as it
    /// was.
    pub fn put_topic(
        &mut self,
        serial: u64,
        body: TopicBody,
        author: Author,
    ) -> Result<(), TopicError>
        ensures answer { IsAnswer result (topic_refusal serial self.old) }
        ensures after { self.new
            ≡ (if is_ok result then with_topics (topics_put serial body author self.old.topics) self.old
            else self.old) }
    {
        match topic_places::replace(&mut self.topics, serial, body, author) {
            Ok(true) => Ok(()),
            Ok(false) => Err(TopicError::NoTopic),
            Err(_) => Err(TopicError::Memory),
        }
    }

    /// Deletes a topic with its comments. B1 where there is no such topic, and then all stays as it was.
    /// Takes no memory.
    pub fn delete_topic(&mut self, serial: u64) -> Result<(), TopicError>
        ensures answer { result ≡ answer_of (topic_refusal serial self.old) }
        ensures after { self.new ≡ (if is_ok result then without_topic serial self.old else self.old) }
    {
        if topic_places::remove(&mut self.topics, serial) {
            comment_list::remove_all(&mut self.comments, serial);
            Ok(())
        } else {
            Err(TopicError::NoTopic)
        }
    }

    /// Makes a comment on a topic. B1 where there is no such topic. An `Err` leaves all as it was.
    pub fn post_comment(
        &mut self,
        serial: u64,
        topic: u64,
        body: CommentBody,
        author: Author,
    ) -> Result<(), TopicError>
        ensures answer { IsAnswer result (topic_refusal topic self.old) }
        ensures after { self.new
            ≡ (if is_ok result
            then with_comments (comments_with topic serial body author self.old.comments) self.old
            else self.old) }
    {
        if !is_topic(&self.topics, topic) {
            return Err(TopicError::NoTopic);
        }
        comment_list::insert(&mut self.comments, topic, serial, body, author)?;
        Ok(())
    }

    /// Puts another body in the place of a comment's whole body. B1 where there is no such topic, then B2
    /// where it has no such comment, and then all stays as it was.
    pub fn put_comment(
        &mut self,
        topic: u64,
        serial: u64,
        body: CommentBody,
        author: Author,
    ) -> Result<(), TopicError>
        ensures answer { result ≡ answer_of (comment_refusal topic serial self.old) }
        ensures after { self.new
            ≡ (if is_ok result
            then with_comments (comments_put topic serial body author self.old.comments) self.old
            else self.old) }
    {
        if !is_topic(&self.topics, topic) {
            return Err(TopicError::NoTopic);
        }
        if comment_list::replace(&mut self.comments, topic, serial, body, author) {
            Ok(())
        } else {
            Err(TopicError::NoComment)
        }
    }

    /// Deletes a comment. B1 where there is no such topic, then B2 where it has no such comment, and then all
    /// stays as it was. Takes no memory.
    pub fn delete_comment(&mut self, topic: u64, serial: u64) -> Result<(), TopicError>
        ensures answer { result ≡ answer_of (comment_refusal topic serial self.old) }
        ensures after { self.new
            ≡ (if is_ok result then with_comments (comments_but topic serial self.old.comments) self.old
            else self.old) }
    {
        if !is_topic(&self.topics, topic) {
            return Err(TopicError::NoTopic);
        }
        if comment_list::remove(&mut self.comments, topic, serial) {
            Ok(())
        } else {
            Err(TopicError::NoComment)
        }
    }
}
