//! What is spelled in a frame.
ghost use Rattle.std.specs.Prelude.{◌≡◌, ◌++◌, List, ℕ, Option, OnOk};
ghost use Rattle.feed_frames.specs.inner.Readers.{Gives};

use crate::read_error::ReadError;
use crate::unread::Unread;
use std::alloc::{AllocError, Global};

/// A part of an entry that is spelled in a frame.
pub(crate) trait Field: Drop {
    /// The bytes that spell it.
    ghost spelling: { Self → List ℕ };

    /// What is read at the front of bytes.
    ghost reading: { List ℕ → Option (Self × List ℕ) };

    /// Writes it behind the bytes.
    fn write_to(&self, out: &mut Vec<u8>) -> Result<(), AllocError>
        ensures { OnOk result (out.new.items ≡ out.old.items ++ spelling self.now) };

    /// Reads it at the front of the bytes.
    fn read_from(alloc: Global, unread: &mut Unread) -> Result<Self, ReadError>
        ensures { Gives result unread.new (reading unread.old) };
}
