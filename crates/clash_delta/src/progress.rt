//! How far the check of a grid's buckets has come.
ghost use Rattle.std.specs.Prelude.{◌≡◌, ◌↔◌, ◌+◌, ◌<◌, ◌++◌, ◌∷◌, [], ℕ, length, map, IfOk, OnOk, IfSome, IsSome, IsTrue, MatchOption, slice_get, slice_index_or, Some, None};
ghost use Rattle.std.specs.Option.{unwrap_or};
ghost use Rattle.std.specs.List.{AllZip};
ghost use Rattle.bucket_grid.specs.Grids.{GridValue};
ghost use Rattle.bucket_grid.specs.declared.cell.Cell.{Cell};
ghost use Rattle.bucket_grid.specs.declared.bucket_table.Bucket.{Bucket};
ghost use Rattle.bucket_check.specs.ClashSets.{SetValue, IsSetOf};
ghost use Rattle.clash_delta.specs.BucketProgress.{undone_cells, filled, IsBucketOf, IsDone, IsOf};
ghost use Rattle.clash_delta.specs.BucketPlaces.{Rise, IsPlaceOf, undone_places};
ghost use Rattle.clash_delta.specs.declared.slot.Slot.{Slot};
ghost use Rattle.clash_delta.specs.declared.progress.PutAnswer.TheVariants.{Taken, AlreadyDone};

use crate::slot::Slot;
use bim_model::{Shared, know};
use bucket_check::BucketSet;
use bucket_grid::{Bucket, Cell, Grid};
use std::alloc::{AllocError, Global};
use std::marker::Model;

/// What became of a set.
#[derive(Clone, Copy, Debug, PartialEq, Eq)]
pub enum PutAnswer {
    /// Its bucket is done by it.
    Taken,
    /// Its bucket was done before, and keeps the set that it has.
    AlreadyDone,
}

/// How far the check of a grid's buckets has come: the buckets in the grid's order, each with its set where it is
/// done. Contracts see that list.
#[derive(Drop)]
pub struct Progress {
    slots: Vec<Slot>,
    // The places of the buckets that aren't done, falling: work is mostly given from the front, so that little
    // moves when one goes out.
    undone: Vec<usize>,
}

impl Model for Progress {
    ghost use Rattle.std.specs.Prelude.{List};
    ghost use Rattle.clash_delta.specs.declared.slot.Slot.{Slot};
    ghost use Rattle.clash_delta.specs.BucketPlaces.{IsProgress};

    ghost Value = { List Slot };

    ghost view = { λ p. p.slots.items };

    ghost invariant = { λ p. IsProgress p.slots.items p.undone.items };
}

impl Progress {
    /// The progress of a grid of which no bucket is done.
    pub fn fresh(alloc: Global, grid: &Grid) -> Result<Progress, AllocError>
        ensures of { IfOk result (λ made. IsOf grid.now made) }
        ensures none { IfOk result (λ made. (cell : Cell) → IsDone made cell → ⊥) }
        ensures left { IfOk result (λ made. length (undone_cells made) ≡ length grid.now.buckets) }
    {
        let mut slots = Vec::with_capacity(alloc, grid.buckets().len())?;
        for bucket in grid.buckets() {
            slots.push(Slot {
                cell: bucket.cell,
                set: None,
            })?;
        }
        Progress::of(alloc, slots)
    }
}

impl Progress {
    // The progress of these buckets.
    pub(crate) fn of(alloc: Global, slots: Vec<Slot>) -> Result<Progress, AllocError>
        requires { Rise slots.items }
        ensures { IfOk result (λ made. made ≡ slots.items) }
    {
        let undone = undone_places(alloc, &slots)?;
        Ok(Progress { slots, undone })
    }

    // The buckets, lent.
    pub(crate) fn slots(&self) -> &[Slot]
        ensures same { result.now ≡ self.now }
        ensures rising { Rise result.now }
    {
        self.slots.as_slice()
    }

    // The place of the bucket of a cell.
    fn place_of(&self, cell: Cell) -> Option<usize>
        ensures { MatchOption result (IsBucketOf self.now cell → ⊥) (IsPlaceOf self.now cell) }
    {
        match self.slots.binary_search_by_key(&cell, |slot| slot.cell) {
            Ok(place) => Some(place),
            Err(_) => None,
        }
    }

    // Gives its set to the bucket at a place, which has none.
    fn fill(&mut self, place: usize, set: Shared<BucketSet>)
        requires cell { IsPlaceOf self.old set.work.cell place }
        requires undone { (d : Slot) → (slice_index_or self.old place d).set ≡ None }
        ensures slots { self.new ≡ map (filled set) self.old }
        ensures left { length (undone_cells self.new) + 1 ≡ length (undone_cells self.old) }
    {
        self.slots[place].set = Some(set);
        let index = self.undone.binary_search_by(|other| place.cmp(other));
        if let Ok(index) = index {
            self.undone.remove(index);
        }
    }

    /// Takes the set of a bucket, unless the bucket is done. The condition is that the set's cell is one of the
    /// buckets'. Takes no memory.
    pub fn put(&mut self, set: Shared<BucketSet>) -> PutAnswer
        requires bucket { IsBucketOf self.old set.work.cell }
        ensures slots { self.new ≡ map (filled set) self.old }
        ensures already { (result ≡ AlreadyDone) ↔ IsDone self.old set.work.cell }
        ensures taken { (result ≡ Taken) ↔ (IsDone self.old set.work.cell → ⊥) }
        ensures left { result ≡ Taken → length (undone_cells self.new) + 1 ≡ length (undone_cells self.old) }
        ensures of { (grid : GridValue) → IsOf grid self.old → set.work.grid ≡ grid → IsOf grid self.new }
    {
        know(set.get().pairs());
        match self.place_of(set.get().work().cell) {
            Some(place) if self.slots[place].set.is_none() => {
                self.fill(place, set);
                PutAnswer::Taken
            }
            _ => PutAnswer::AlreadyDone,
        }
    }

    /// How many buckets aren't done. Takes no memory.
    pub fn left(&self) -> u64
        ensures { result ≡ length (undone_cells self.now) }
    {
        self.undone.len() as u64
    }

    /// Whether the cell is that of a bucket. Takes no memory.
    pub fn is_bucket(&self, cell: Cell) -> bool
        ensures { IsTrue result ↔ IsBucketOf self.now cell }
    {
        self.place_of(cell).is_some()
    }

    /// Whether the cell is that of a bucket that is done. Takes no memory.
    pub fn is_done(&self, cell: Cell) -> bool
        ensures { IsTrue result ↔ IsDone self.now cell }
    {
        match self.place_of(cell) {
            Some(place) => self.slots[place].set.is_some(),
            None => false,
        }
    }

    /// The cell at a place, from 0, among those of the buckets that aren't done, by rising cell. Takes no memory
    /// and the same short time at each place.
    pub fn undone(&self, place: u64) -> Option<Cell>
        ensures cell { result ≡ slice_get (undone_cells self.now) place }
        ensures bucket { IfSome result (IsBucketOf self.now) }
        ensures undone { IfSome result (λ cell. IsDone self.now cell → ⊥) }
    {
        let count = self.undone.len();
        if place as usize >= count {
            return None;
        }
        let slot = self.undone[count - 1 - place as usize];
        Some(self.slots[slot].cell)
    }

    /// The sets of all buckets, in the buckets' order. The condition is that all are done.
    pub fn sets(&self, alloc: Global) -> Result<Vec<Shared<BucketSet>>, AllocError>
        requires { length (undone_cells self.now) ≡ 0 }
        ensures sets { IfOk result (λ sets. map (λ (s : SetValue). Some s) sets.items
            ≡ map (λ (s : Slot). s.set) self.now) }
        ensures right { IfOk result (λ sets. (grid : GridValue) → IsOf grid self.now
            → AllZip (λ (b : Bucket) (s : SetValue). IsSetOf grid b.cell s) grid.buckets sets.items) }
    {
        let mut sets = Vec::with_capacity(alloc, self.slots.len())?;
        for slot in self.slots.as_slice() {
            add_set(slot, &mut sets)?;
        }
        Ok(sets)
    }
}

// Adds the set of a bucket.
fn add_set(slot: &Slot, sets: &mut Vec<Shared<BucketSet>>) -> Result<(), AllocError>
    requires { IsSome slot.now.set }
    ensures { OnOk result ((d : SetValue)
        → sets.new.items ≡ sets.old.items ++ unwrap_or slot.now.set d ∷ []) }
{
    match &slot.set {
        Some(set) => {
            sets.push(set.share()?)?;
            Ok(())
        }
        None => Ok(()),
    }
}

// The places of the buckets without a set, falling.
fn undone_places(alloc: Global, slots: &[Slot]) -> Result<Vec<usize>, AllocError>
    ensures { IfOk result (λ places. places.items ≡ undone_places slots.now) }
{
    let count = slots.len();
    let mut places = Vec::with_capacity(alloc, count)?;
    for step in 0..count {
        let place = count - 1 - step;
        if slots[place].set.is_none() {
            places.push(place)?;
        }
    }
    Ok(places)
}
