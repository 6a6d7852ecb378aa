//! Comments on the topics of a board.
ghost use Rattle.std.specs.Prelude.{◌≡◌, ◌<◌, ◌+◌, ◌^◌, Some, option_map, map, IsSome, IfOk, OnOk, OnErr};
ghost use Rattle.bcf_topics.specs.Topics.{topic_of};
ghost use Rattle.bcf_topics.specs.Comments.{new_comment, comment_put, comments_on, comments_with};
ghost use Rattle.bcf_topics.specs.Discussions.{with_comments};
ghost use Rattle.book_topics.specs.Boards.{next_serial, topic_at, comment_at, comment_added, comment_replaced, comment_removed};

use crate::board::Board;
use crate::pairs::two_of;
use bcf_topics::{Author, Comment, CommentBody, TopicError, Topics};
use bim_model::{Duplicate, Items};
use std::alloc::{AllocError, Global};

// Makes a comment on a topic under this number, and tells it. An `Err` leaves all as it was.
fn add_comment(
    topics: &mut Topics,
    alloc: Global,
    topic: u64,
    serial: u64,
    body: &CommentBody,
    author: &Author,
) -> Result<Comment, AllocError>
    requires { IsSome (topic_of topic topics.old.topics) }
    ensures told { IfOk result (λ comment. comment ≡ new_comment topic serial body.now author.now) }
    ensures ok { OnOk result (topics.new
        ≡ with_comments (comments_with topic serial body.now author.now topics.old.comments) topics.old) }
    ensures err { OnErr result (topics.new ≡ topics.old) }
{
    let authors = two_of(alloc, author)?;
    let bodies = two_of(alloc, body)?;
    let (author, created) = authors;
    let (body, said) = bodies;
    match topics.post_comment(serial, topic, body, author) {
        Ok(()) => Ok(Comment {
            serial,
            topic,
            body: said,
            created,
            modified: None,
        }),
        Err(TopicError::Memory) => Err(AllocError),
        Err(TopicError::NoTopic) => unreachable!(),
        Err(TopicError::NoComment) => unreachable!(),
    }
}

// A comment with another body in the place of its own, as it is told, and what of it is kept.
#[derive(Drop)]
struct Put {
    told: Comment,
    body: CommentBody,
    author: Author,
}

// .. of this comment.
fn put_in(
    alloc: Global,
    comment: &Comment,
    body: &CommentBody,
    author: &Author,
) -> Result<Put, AllocError>
    ensures told { IfOk result (λ put. put.told ≡ comment_put body.now author.now comment.now) }
    ensures body { IfOk result (λ put. put.body ≡ body.now) }
    ensures author { IfOk result (λ put. put.author ≡ author.now) }
{
    let created = comment.created.copy(alloc)?;
    let authors = two_of(alloc, author)?;
    let bodies = two_of(alloc, body)?;
    let (author, modified) = authors;
    let (body, said) = bodies;
    let told = Comment {
        serial: comment.serial,
        topic: comment.topic,
        body: said,
        created,
        modified: Some(modified),
    };
    Ok(Put { told, body, author })
}

// Comments equal to those that are lent.
fn copies(alloc: Global, comments: &[&Comment]) -> Result<Items<Comment>, AllocError>
    ensures { IfOk result (λ made. made ≡ map (λ c. c.now) comments.now) }
{
    let mut made = Items::new(alloc);
    for comment in comments {
        made.push(comment.copy(alloc)?)?;
    }
    Ok(made)
}

impl Board {
    /// The comments on a topic by rising serial number; none where there is no such topic.
    pub fn comments(&self, alloc: Global, topic: u64) -> Result<Items<Comment>, AllocError>
        requires { topic < 2 ^ 48 }
        ensures { IfOk result (λ list. list ≡ comments_on topic self.now.discussion.comments) }
    {
        let lent = self.topics.comments(topic)?;
        copies(alloc, lent.as_slice())
    }

    /// Makes a comment on a topic, and tells it. An `Err` leaves all as it was.
    pub fn post_comment(
        &mut self,
        alloc: Global,
        topic: u64,
        body: &CommentBody,
        author: &Author,
    ) -> Result<Comment, AllocError>
        requires there { IsSome (topic_at self.old topic) }
        requires room { self.old.made + 2 < 2 ^ 48 }
        ensures told { IfOk result (λ comment. comment
            ≡ new_comment topic (next_serial self.old) body.now author.now) }
        ensures ok { OnOk result (self.new ≡ comment_added self.old topic body.now author.now) }
        ensures err { OnErr result (self.new ≡ self.old) }
    {
        let serial = self.made + 1;
        let told = add_comment(&mut self.topics, alloc, topic, serial, body, author)?;
        self.made = serial;
        Ok(told)
    }

    /// Puts another body in the place of a comment's whole body, and tells the comment. An `Err` leaves all as it
    /// was.
    pub fn put_comment(
        &mut self,
        alloc: Global,
        topic: u64,
        serial: u64,
        body: &CommentBody,
        author: &Author,
    ) -> Result<Comment, AllocError>
        requires topic { IsSome (topic_at self.old topic) }
        requires there { IsSome (comment_at self.old topic serial) }
        ensures told { IfOk result (λ comment. Some comment
            ≡ option_map (comment_put body.now author.now) (comment_at self.old topic serial)) }
        ensures ok { OnOk result (self.new ≡ comment_replaced self.old topic serial body.now author.now) }
        ensures err { OnErr result (self.new ≡ self.old) }
    {
        let Some(comment) = self.topics.comment(topic, serial) else {
            unreachable!()
        };
        let put = put_in(alloc, comment, body, author)?;
        let Put { told, body, author } = put;
        let Ok(()) = self.topics.put_comment(topic, serial, body, author) else {
            unreachable!()
        };
        Ok(told)
    }

    /// Deletes a comment. Takes no memory.
    pub fn delete_comment(&mut self, topic: u64, serial: u64)
        requires topic { IsSome (topic_at self.old topic) }
        requires there { IsSome (comment_at self.old topic serial) }
        ensures { self.new ≡ comment_removed self.old topic serial }
    {
        let Ok(()) = self.topics.delete_comment(topic, serial) else {
            unreachable!()
        };
    }
}
