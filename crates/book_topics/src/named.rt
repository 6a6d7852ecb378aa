//! Topics, comments and viewpoints by their identifiers.
ghost use Rattle.std.specs.Prelude.{◌≡◌, ◌<◌, ◌^◌, IfSome, IsSome, IfOk, option_map};
ghost use Rattle.book_topics.specs.Boards.{topic_at, comment_at, view_at};
ghost use Rattle.book_topics.specs.TopicIdentifiers.{serial_of, topic_named, comment_named, view_named, comment_kept};

use crate::board::Board;
use bcf_topics::{CommentBody, CommentIn};
use bim_model::Duplicate;
use std::alloc::{AllocError, Global};

// The serial number that has the identifier in a project.
#[tactic(auto, unfolding(crate::specs::TopicIdentifiers::serial_of))]
fn serial_of(project: u32, id: u128) -> Option<u64>
    ensures is { result ≡ serial_of project id }
    ensures small { IfSome result (λ serial. serial < 2 ^ 48) }
{
    bim_model::serial_of(project, id)
}

impl Board {
    /// The serial number of the topic that has the identifier in the project of this number.
    #[tactic(auto, unfolding(crate::specs::TopicIdentifiers::topic_named))]
    pub fn topic_named(&self, project: u32, id: u128) -> Option<u64>
        ensures named { result ≡ topic_named project self.now id }
        ensures small { IfSome result (λ serial. serial < 2 ^ 48) }
        ensures there { IfSome result (λ serial. IsSome (topic_at self.now serial)) }
    {
        match serial_of(project, id) {
            Some(serial) => match self.topics.topic(serial) {
                Some(_) => Some(serial),
                None => None,
            },
            None => None,
        }
    }

    /// .. of the comment on a topic.
    #[tactic(auto, unfolding(crate::specs::TopicIdentifiers::comment_named))]
    pub fn comment_named(&self, project: u32, topic: u64, id: u128) -> Option<u64>
        ensures named { result ≡ comment_named project self.now topic id }
        ensures there { IfSome result (λ serial. IsSome (comment_at self.now topic serial)) }
    {
        match serial_of(project, id) {
            Some(serial) => match self.topics.comment(topic, serial) {
                Some(_) => Some(serial),
                None => None,
            },
            None => None,
        }
    }

    /// .. of the viewpoint of a topic.
    #[tactic(auto, unfolding(crate::specs::TopicIdentifiers::view_named))]
    pub fn view_named(&self, project: u32, topic: u64, id: u128) -> Option<u64>
        ensures named { result ≡ view_named project self.now topic id }
        ensures there { IfSome result (λ serial. IsSome (view_at self.now topic serial)) }
    {
        match serial_of(project, id) {
            Some(serial) => match self.views.get(topic, serial) {
                Some(_) => Some(serial),
                None => None,
            },
            None => None,
        }
    }

    /// A comment on a topic as it is kept, of what was sent: none where that names no viewpoint of the topic.
    #[tactic(auto, unfolding(crate::specs::TopicIdentifiers::comment_kept))]
    pub fn comment_kept(&self, project: u32, topic: u64, sent: CommentIn) -> Option<CommentBody>
        ensures { result ≡ comment_kept project self.now topic sent }
    {
        let CommentIn { comment, viewpoint } = sent;
        match viewpoint {
            None => Some(CommentBody {
                comment,
                viewpoint: None,
            }),
            Some(id) => match self.view_named(project, topic, id) {
                Some(serial) => Some(CommentBody {
                    comment,
                    viewpoint: Some(serial),
                }),
                None => None,
            },
        }
    }
}
