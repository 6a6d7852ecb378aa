//! Topics of a board.
ghost use Rattle.std.specs.Prelude.{◌≡◌, ◌<◌, ◌+◌, ◌^◌, ◌++◌, ◌∷◌, [], Some, All, option_map, IsSome, IfOk, OnOk, OnErr};
ghost use Rattle.bcf_topics.specs.Topics.{new_topic, topic_put};
ghost use Rattle.bcf_topics.specs.Discussions.{with_topics};
ghost use Rattle.book_topics.specs.Boards.{next_serial, topic_at, topic_added, topic_replaced, topic_removed};

use crate::board::Board;
use crate::pairs::two_of;
use bcf_topics::{Author, Topic, TopicBody, Topics};
use bim_model::{Duplicate, Items, Shared};
use std::alloc::{AllocError, Global};

// Makes a topic under this number, and tells it. An `Err` leaves the topics as they were.
pub(crate) fn add_topic(
    topics: &mut Topics,
    alloc: Global,
    serial: u64,
    body: &TopicBody,
    author: &Author,
) -> Result<Topic, AllocError>
    requires { All (λ t. t.serial < serial) topics.old.topics }
    ensures told { IfOk result (λ topic. topic ≡ new_topic serial body.now author.now) }
    ensures ok { OnOk result (topics.new
        ≡ with_topics (topics.old.topics ++ new_topic serial body.now author.now ∷ []) topics.old) }
    ensures err { OnErr result (topics.new ≡ topics.old) }
{
    let authors = two_of(alloc, author)?;
    let bodies = two_of(alloc, body)?;
    let (author, created) = authors;
    let (body, said) = bodies;
    topics.post_topic(serial, body, author)?;
    Ok(Topic {
        serial,
        body: said,
        created,
        modified: None,
    })
}

// A topic with another body in the place of its own, as it is told, and what of it is kept.
#[derive(Drop)]
struct Put {
    told: Topic,
    body: TopicBody,
    author: Author,
}

// .. of this topic.
fn put_in(
    alloc: Global,
    topic: &Topic,
    body: &TopicBody,
    author: &Author,
) -> Result<Put, AllocError>
    ensures told { IfOk result (λ put. put.told ≡ topic_put body.now author.now topic.now) }
    ensures body { IfOk result (λ put. put.body ≡ body.now) }
    ensures author { IfOk result (λ put. put.author ≡ author.now) }
{
    let created = topic.created.copy(alloc)?;
    let authors = two_of(alloc, author)?;
    let bodies = two_of(alloc, body)?;
    let (author, modified) = authors;
    let (body, said) = bodies;
    let told = Topic {
        serial: topic.serial,
        body: said,
        created,
        modified: Some(modified),
    };
    Ok(Put { told, body, author })
}

// The same topics, none of which is copied.
fn shared(alloc: Global, topics: &[Shared<Topic>]) -> Result<Items<Shared<Topic>>, AllocError>
    ensures { IfOk result (λ made. made ≡ topics.now) }
{
    let mut made = Vec::with_capacity(alloc, topics.len())?;
    for topic in topics {
        made.push(topic.share()?)?;
    }
    Ok(Items::from_vec(made))
}

impl Board {
    /// The topics by rising serial number, shared.
    pub fn topics(&self, alloc: Global) -> Result<Items<Shared<Topic>>, AllocError>
        ensures { IfOk result (λ list. list ≡ self.now.discussion.topics) }
    {
        shared(alloc, self.topics.topics())
    }

    /// Makes a topic, and tells it. An `Err` leaves all as it was.
    pub fn post_topic(
        &mut self,
        alloc: Global,
        body: &TopicBody,
        author: &Author,
    ) -> Result<Topic, AllocError>
        requires { self.old.made + 2 < 2 ^ 48 }
        ensures told { IfOk result (λ topic. topic ≡ new_topic (next_serial self.old) body.now author.now) }
        ensures ok { OnOk result (self.new ≡ topic_added self.old body.now author.now) }
        ensures err { OnErr result (self.new ≡ self.old) }
    {
        let serial = self.made + 1;
        let told = add_topic(&mut self.topics, alloc, serial, body, author)?;
        self.made = serial;
        Ok(told)
    }

    /// Puts another body in the place of a topic's whole body, and tells the topic. An `Err` leaves all as it was.
    pub fn put_topic(
        &mut self,
        alloc: Global,
        serial: u64,
        body: &TopicBody,
        author: &Author,
    ) -> Result<Topic, AllocError>
        requires { IsSome (topic_at self.old serial) }
        ensures told { IfOk result (λ topic. Some topic
            ≡ option_map (topic_put body.now author.now) (topic_at self.old serial)) }
        ensures ok { OnOk result (self.new ≡ topic_replaced self.old serial body.now author.now) }
        ensures err { OnErr result (self.new ≡ self.old) }
    {
        let Some(topic) = self.topics.topic(serial) else {
            unreachable!()
        };
        let put = put_in(alloc, topic, body, author)?;
        let Put { told, body, author } = put;
        let Ok(()) = self.topics.put_topic(serial, body, author) else {
            return Err(AllocError);
        };
        Ok(told)
    }

    /// Deletes a topic with its comments and viewpoints. Takes no memory.
    pub fn delete_topic(&mut self, serial: u64)
        requires { IsSome (topic_at self.old serial) }
        ensures { self.new ≡ topic_removed self.old serial }
    {
        let Ok(()) = self.topics.delete_topic(serial) else {
            unreachable!()
        };
        self.views.drop_topic(serial);
    }
}
