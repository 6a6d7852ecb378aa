//! Buckets that are being found.
ghost use Rattle.std.specs.Prelude.{◌≡◌, ◌++◌, [], map, length, IfOk, OnOk, All};
ghost use Rattle.bucket_grid.specs.inner.BucketSlots.{bucket_of, IsWithin};
ghost use Rattle.bucket_grid.specs.BucketTable.{if_bucket};

use crate::bucket_part::Part;
use crate::bucket_table::Bucket;
use crate::cell::Cell;
use bim_model::{Items, Shared};
use std::alloc::{AllocError, Global};
use std::marker::Model;

/// A cell, and where its members stand in the list of all members.
#[derive(Clone, Copy, Debug, PartialEq, Eq)]
pub struct Slot {
    pub cell: Cell,
    pub start: usize,
    pub end: usize,
}

/// Buckets whose members stand in one list.
#[derive(Drop)]
pub struct Buckets {
    slots: Vec<Slot>,
    members: Vec<u32>,
}

impl Model for Buckets {
    ghost use Rattle.std.specs.Prelude.{List, map, length, All};
    ghost use Rattle.bucket_grid.specs.declared.bucket_table.Bucket.{Bucket};
    ghost use Rattle.bucket_grid.specs.inner.BucketSlots.{bucket_of, IsWithin};

    ghost Value = { List Bucket };

    ghost view = { λ b. map (bucket_of b.members.items) b.slots.items };

    ghost invariant = { λ b. All (IsWithin (length b.members.items)) b.slots.items };
}

impl Buckets {
    /// No bucket, with room for so many members of all.
    pub fn with_room(alloc: Global, count: usize) -> Result<Buckets, AllocError>
        ensures { IfOk result (λ made. made ≡ []) }
    {
        Ok(Buckets {
            slots: Vec::new(alloc),
            members: Vec::with_capacity(alloc, count)?,
        })
    }

    /// Adds the cell, where it has two members or more.
    pub fn add(&mut self, cell: Cell, members: &[u32]) -> Result<(), AllocError>
        ensures { OnOk result (self.new ≡ self.old ++ if_bucket cell members.now) }
    {
        if members.len() < 2 {
            return Ok(());
        }
        let start = self.members.len();
        self.members.extend_from_slice(members)?;
        let end = self.members.len();
        self.slots.push(Slot { cell, start, end })?;
        Ok(())
    }

    /// Each bucket with its part of the one list.
    pub fn finish(self, alloc: Global) -> Result<Vec<Bucket>, AllocError>
        ensures { IfOk result (λ made. made.items ≡ self) }
    {
        let list = Shared::new(alloc, Items::from_vec(self.members))?;
        buckets_in(alloc, &self.slots, &list)
    }
}

// The buckets of these slots.
fn buckets_in(
    alloc: Global,
    slots: &[Slot],
    list: &Shared<Items<u32>>,
) -> Result<Vec<Bucket>, AllocError>
    requires { All (IsWithin (length list.now)) slots.now }
    ensures { IfOk result (λ made. made.items ≡ map (bucket_of list.now) slots.now) }
{
    let mut buckets = Vec::with_capacity(alloc, slots.len())?;
    for slot in slots {
        let members = Part::of(list.share()?, slot.start, slot.end);
        buckets.push(Bucket {
            cell: slot.cell,
            members,
        })?;
    }
    Ok(buckets)
}
