//! A part of a list.
ghost use Rattle.std.specs.Prelude.{◌≡◌, ◌≤◌, length, slice_range};

use bim_model::{Items, Shared};
use std::marker::Model;

/// Numbers that stand one after the other in a list, of which other parts share the rest.
#[derive(Drop)]
pub struct Part {
    list: Shared<Items<u32>>,
    start: usize,
    end: usize,
}

impl Model for Part {
    ghost use Rattle.std.specs.Prelude.{List, ℕ, ◌≤◌, length, slice_range};

    ghost Value = { List ℕ };

    ghost view = { λ p. slice_range p.list p.start p.end };

    ghost invariant = { λ p. (p.start ≤ p.end) × (p.end ≤ length p.list) };
}

impl Part {
    // What stands in the list from `start` to before `end`.
    pub(crate) fn of(list: Shared<Items<u32>>, start: usize, end: usize) -> Part
        requires order { start ≤ end }
        requires within { end ≤ length list }
        ensures { result ≡ slice_range list start end }
    {
        Part { list, start, end }
    }

    /// The numbers, lent.
    pub fn as_slice(&self) -> &[u32]
        ensures { result.now ≡ self.now }
    {
        &self.list.get().as_slice()[self.start..self.end]
    }
}
