//! Comments on topics.
ghost use Rattle.std.specs.Prelude.{◌≡◌, IfOk};

use crate::topic::copy_author;
use bim_model::{Author, Duplicate, Text};
use std::alloc::{AllocError, Global};

/// What a client says in a comment, as it is kept.
#[derive(Drop)]
pub struct CommentBody {
    /// 1 to 8,192 bytes.
    pub comment: Text,
    /// The serial number of the viewpoint that it is about, if there is one. It stays where that is deleted.
    pub viewpoint: Option<u64>,
}

impl Duplicate for CommentBody {
    fn copy(&self, alloc: Global) -> Result<CommentBody, AllocError> {
        Ok(CommentBody {
            comment: self.comment.copy(alloc)?,
            viewpoint: self.viewpoint,
        })
    }
}

/// What a client says in a comment, as it is sent.
#[derive(Drop)]
pub struct CommentIn {
    /// 1 to 8,192 bytes.
    pub comment: Text,
    /// The identifier of the viewpoint that it is about.
    pub viewpoint: Option<u128>,
}

impl Duplicate for CommentIn {
    fn copy(&self, alloc: Global) -> Result<CommentIn, AllocError> {
        Ok(CommentIn {
            comment: self.comment.copy(alloc)?,
            viewpoint: self.viewpoint,
        })
    }
}

/// A comment on a topic.
#[derive(Drop)]
pub struct Comment {
    /// The number among the objects made in its project, from 1.
    pub serial: u64,
    /// The serial number of its topic.
    pub topic: u64,
    pub body: CommentBody,
    pub created: Author,
    /// Who replaced its body last, if anyone did.
    pub modified: Option<Author>,
}

impl Duplicate for Comment {
    fn copy(&self, alloc: Global) -> Result<Comment, AllocError> {
        Ok(Comment {
            serial: self.serial,
            topic: self.topic,
            body: self.body.copy(alloc)?,
            created: self.created.copy(alloc)?,
            modified: copy_author(alloc, &self.modified)?,
        })
    }
}
