//! The list.
ghost use Rattle.std.specs.Prelude.{◌≡◌, ℕ, List, [], ◌++◌};
ghost use Rattle.std.specs.Borrow.{ftrue};

use std::marker::{Model, PhantomData};

/// Bytes that an object gave or took, oldest first. Contracts see them as `bytes`.
#[derive(Drop)]
pub struct GhostBytes {
    marker: PhantomData<u8>,
    pub ghost bytes: { List ℕ },
}

impl Model for GhostBytes {
    ghost also_owns = { λ _. ftrue };
}

// It owns nothing.
unsafe impl Send for GhostBytes {}

impl GhostBytes {
    /// No bytes.
    pub fn new() -> GhostBytes
        ensures { result.bytes ≡ [] }
    {
        GhostBytes {
            marker: PhantomData,
        }
    }

    /// These bytes come after those that are there.
    pub fn add(&mut self, _more: &[u8])
        ensures { self.new.bytes ≡ self.old.bytes ++ _more.now }
    {}
}
