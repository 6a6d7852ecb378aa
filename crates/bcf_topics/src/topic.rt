//! Topics.
ghost use Rattle.std.specs.Prelude.{◌≡◌, IfOk};

use crate::topic_body::TopicBody;
use bim_model::{Author, Duplicate};
use std::alloc::{AllocError, Global};

/// A topic of a project.
#[derive(Drop)]
pub struct Topic {
    /// The number among the objects made in its project, from 1.
    pub serial: u64,
    pub body: TopicBody,
    pub created: Author,
    /// Who replaced its body last, if anyone did.
    pub modified: Option<Author>,
}

/// Equal authors, or none.
pub fn copy_author(alloc: Global, author: &Option<Author>) -> Result<Option<Author>, AllocError>
    ensures { IfOk result (λ made. made ≡ author.now) }
{
    match author {
        Some(author) => Ok(Some(author.copy(alloc)?)),
        None => Ok(None),
    }
}

impl Duplicate for Topic {
    fn copy(&self, alloc: Global) -> Result<Topic, AllocError> {
        Ok(Topic {
            serial: self.serial,
            body: self.body.copy(alloc)?,
            created: self.created.copy(alloc)?,
            modified: copy_author(alloc, &self.modified)?,
        })
    }
}
