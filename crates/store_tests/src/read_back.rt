//! A reader that keeps what it is told.
ghost use Rattle.std.specs.Prelude.{None};

use change_store::{ChangeReader, NotTaken};
use std::alloc::Global;

/// The turn, the project and the bytes of each change, up to a greatest turn.
#[derive(Drop)]
pub struct ReadBack {
    pub turns: Vec<u64>,
    pub projects: Vec<u32>,
    pub bytes: Vec<u8>,
    pub greatest: u64,
}

impl ReadBack {
    /// A reader that was given nothing.
    pub fn new(alloc: Global, greatest: u64) -> ReadBack {
        ReadBack {
            turns: Vec::new(alloc),
            projects: Vec::new(alloc),
            bytes: Vec::new(alloc),
            greatest,
        }
    }
}

impl ChangeReader for ReadBack {
    ghost taken = { λ _. None };

    fn take(&mut self, turn: u64, project: u32, bytes: &[u8]) -> Result<(), NotTaken> {
        if turn > self.greatest {
            return Err(NotTaken);
        }
        let kept = self.turns.push(turn).is_ok()
            && self.projects.push(project).is_ok()
            && self.bytes.extend_from_slice(bytes).is_ok();
        if kept { Ok(()) } else { Err(NotTaken) }
    }
}
