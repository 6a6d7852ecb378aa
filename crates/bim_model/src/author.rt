//! Who makes a change, and when (the authors of the BCF API 3.0, Topic Services).
ghost use Rattle.std.specs.Prelude.{◌≡◌, IfOk};

use crate::items::Duplicate;
use crate::moment::Moment;
use crate::text::Text;
use std::alloc::{AllocError, Global};

/// Who made a change, and when.
#[derive(Drop)]
pub struct Author {
    /// The user's name, as the front of the server gives it.
    pub user: Text,
    pub moment: Moment,
}

impl Duplicate for Author {
    fn copy(&self, alloc: Global) -> Result<Author, AllocError> {
        Ok(Author {
            user: self.user.copy(alloc)?,
            moment: self.moment,
        })
    }
}
