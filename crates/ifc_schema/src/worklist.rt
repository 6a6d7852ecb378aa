//! Which instances were met, and whose rows are still to be followed.
ghost use Rattle.std.specs.Prelude.{◌≡◌, ◌<◌, ◌++◌, ◌∷◌, [], length, OnOk, nat_lt, slice_set, if◌then◌else◌, replicate, IfOk};
ghost use Rattle.ifc_schema.specs.InstanceMarks.{rank, rank_at, is_seen, is_mapped};

use std::alloc::{AllocError, Global};

/// How an instance was met.
#[derive(Clone, Copy)]
pub enum Mark {
    Unseen,
    /// It is used.
    Used,
    /// It is used, and is a representation that a representation map maps.
    Mapped,
}

impl Mark {
    fn rank(self) -> u8
        ensures { result ≡ rank self }
    {
        match self {
            Mark::Unseen => 0,
            Mark::Used => 1,
            Mark::Mapped => 2,
        }
    }

    /// Whether it was met.
    pub fn is_seen(self) -> bool
        ensures { result ≡ is_seen self }
    {
        !matches!(self, Mark::Unseen)
    }

    /// Whether it was seen as a mapped item.
    pub fn is_mapped(self) -> bool
        ensures { result ≡ is_mapped self }
    {
        matches!(self, Mark::Mapped)
    }
}

/// A mark for each place, and the places whose rows are still to be followed.
#[derive(Drop)]
pub struct Work {
    pub marks: Vec<Mark>,
    pub stack: Vec<usize>,
}

impl Work {
    /// Nothing is met yet.
    pub fn new(alloc: Global, places: usize) -> Result<Work, AllocError>
        ensures marks { IfOk result (λ work. work.marks.items ≡ replicate places Mark.Unseen) }
        ensures stack { IfOk result (λ work. work.stack.items ≡ []) }
    {
        let marks = vec![in alloc; Mark::Unseen; places]?;
        Ok(Work {
            marks,
            stack: Vec::new(alloc),
        })
    }

    /// Raises the mark of a place, and puts the place on the stack where the mark was lower.
    pub fn raise(&mut self, at: usize, mark: Mark) -> Result<(), AllocError>
        requires { at < length self.old.marks.items }
        ensures marks { OnOk result (self.new.marks.items
            ≡ (if nat_lt (rank_at self.old at) (rank mark)
            then slice_set self.old.marks.items at mark else self.old.marks.items)) }
        ensures stack { OnOk result (self.new.stack.items
            ≡ (if nat_lt (rank_at self.old at) (rank mark)
            then self.old.stack.items ++ at ∷ [] else self.old.stack.items)) }
    {
        if self.marks[at].rank() < mark.rank() {
            self.stack.push(at)?;
            self.marks[at] = mark;
        }
        Ok(())
    }
}
