//! Which storey each object is in.
ghost use Rattle.std.specs.Prelude.{◌≡◌, ◌<◌, ℕ, Some, length, Contains, IfOk, IsSortedByKey, slice_index};
ghost use Rattle.std.specs.List.Sorted.{IsStrictlyIncreasing};
ghost use Rattle.std.specs.Ordering.{nat_cmp};
ghost use Rattle.spatial_tree.specs.Placing.{ArePlaced};

use crate::mark::{Mark, mark_at};
use std::alloc::{AllocError, Global};

/// An object, and the first storey on its way up.
#[derive(Clone, Copy)]
pub struct Placed {
    pub object: u64,
    pub storey: u64,
}

/// The storeys of a file's objects. Contracts see it as the list of the objects that have one, rising by their numbers.
#[derive(Drop)]
pub struct Tree {
    placed: Vec<Placed>,
}

impl std::marker::Model for Tree {
    ghost use Rattle.std.specs.Prelude.{List, IsSortedByKey};
    ghost use Rattle.std.specs.Ordering.{nat_cmp};
    ghost use Rattle.spatial_tree.specs.declared.storey_tree.Placed.{Placed};

    ghost Value = { List Placed };

    ghost view = { λ t. t.placed.items };

    ghost invariant = { λ t. IsSortedByKey (λ (p : Placed). p.object) nat_cmp t.placed.items };
}

impl Tree {
    ghost use Rattle.std.specs.Prelude.{ℕ, Contains, MatchOption, IsSortedByKey};
    ghost use Rattle.std.specs.Ordering.{nat_cmp};
    ghost use Rattle.spatial_tree.specs.Placing.{placed};

    pub(crate) fn new(placed: Vec<Placed>) -> Tree
        requires { IsSortedByKey (λ p. p.object) nat_cmp placed.items }
        ensures { result ≡ placed.items }
    {
        Tree { placed }
    }

    /// The number of the first storey on the way up from the object of that number; none where the way ends without one. Takes no memory.
    pub fn storey_of(&self, id: u64) -> Option<u64>
        ensures { MatchOption result ((storey : ℕ) → Contains self.now (placed id storey) → ⊥)
            (λ storey. Contains self.now (placed id storey)) }
    {
        match self
            .placed
            .as_slice()
            .binary_search_by_key(&id, |placed| placed.object)
        {
            Ok(at) => Some(self.placed[at].storey),
            Err(_) => None,
        }
    }
}

/// The objects whose marks have a storey.
pub fn placed_by(alloc: Global, objects: &[u64], marks: &[Mark]) -> Result<Vec<Placed>, AllocError>
    requires { IsStrictlyIncreasing objects.now }
    ensures placed { IfOk result (λ list. ArePlaced objects.now marks.now (length objects.now) list.items) }
    ensures rises { IfOk result (λ list. IsSortedByKey (λ p. p.object) nat_cmp list.items) }
{
    let mut placed = Vec::new(alloc);
    for at in 0..objects.len() {
        if let Some(storey) = mark_at(marks, at).told() {
            placed.push(Placed {
                object: objects[at],
                storey,
            })?;
        }
    }
    Ok(placed)
}
