//! The buckets that are done since they were done in the version before.
ghost use Rattle.std.specs.Prelude.{◌≡◌, ◌↔◌, ◌<◌, ◌≤◌, ℕ, length, slice_index_or, IsTrue, IfOk, IfSome, Some, All};
ghost use Rattle.std.specs.declared.cmp.Ordering.TheVariants.{Less};
ghost use Rattle.bucket_grid.specs.declared.cell.Cell.{Cell};
ghost use Rattle.bucket_grid.specs.declared.bucket_table.Bucket.{Bucket};
ghost use Rattle.bucket_grid.specs.Cells.{cell_cmp, members};
ghost use Rattle.bucket_check.specs.declared.bucket_work.BucketWork.{BucketWork};
ghost use Rattle.bucket_check.specs.ClashSets.{IsUnmoved, IsSetOf};
ghost use Rattle.clash_delta.specs.inner.ElementNumbers.{subjects, AreNumbersBefore, AreFrom};
ghost use Rattle.clash_delta.specs.BucketProgress.{IsDone, IsOf};
ghost use Rattle.clash_delta.specs.Carried.{IsCarried, IsMoved, IsCarriedTo, IsUnmovedAt, IsReachedCell};
ghost use Rattle.clash_delta.specs.declared.slot.Slot.{Slot};

use crate::equal_rules::same_rules;
use crate::former_numbers::numbers_before;
use crate::progress::Progress;
use crate::slot::Slot;
use bim_model::{Shared, know};
use bucket_check::{BucketSet, BucketWork};
use bucket_grid::{Bucket, Cell, Grid};
use std::alloc::{AllocError, Global};

// From `place` on, the first bucket whose cell isn't before this one.
fn first_not_before(buckets: &[Bucket], place: usize, cell: Cell) -> usize
    requires within { place ≤ length buckets.now }
    requires below { (k : ℕ) (d : Bucket) → k < place
        → cell_cmp (slice_index_or buckets.now k d).cell cell ≡ Less }
    ensures { IsReachedCell buckets.now cell result }
{
    let mut place = place;
    while place < buckets.len() && buckets[place].cell.cmp(&cell).is_lt() {
        place += 1;
    }
    place
}

fn same_cell(a: Cell, b: Cell) -> bool
    ensures { IsTrue result ↔ (a ≡ b) }
{
    a.x == b.x && a.y == b.y && a.z == b.z
}

// Whether a number before is this one.
fn is_number(number: Option<u32>, old: u32) -> bool
    ensures { IsTrue result ↔ (number ≡ Some old) }
{
    match number {
        Some(number) => number == old,
        None => false,
    }
}

// Whether the new numbers had the old ones.
fn are_from(old: &[u32], new: &[u32], numbers: &[Option<u32>]) -> bool
    requires { All (λ n. n < length numbers.now) new.now }
    ensures { IsTrue result ↔ AreFrom numbers.now old.now new.now }
{
    if old.len() != new.len() {
        return false;
    }
    for place in 0..new.len() {
        if !is_number(numbers[new[place] as usize], old[place]) {
            return false;
        }
    }
    true
}

// Whether the bucket at a place before is that of a bucket's cell, with the same members, none of them changed.
fn is_unmoved(
    before: &Grid,
    place: usize,
    after: &Grid,
    bucket: &Bucket,
    numbers: &[Option<u32>],
) -> bool
    requires numbers { AreNumbersBefore (subjects before.now) (subjects after.now) numbers.now }
    requires members { bucket.now.members ≡ members after.now.boxes bucket.now.cell }
    ensures { IsTrue result ↔ IsUnmovedAt before.now after.now place bucket.now.cell }
{
    know(before.models());
    know(before.boxes());
    know(after.boxes());
    let buckets = before.buckets();
    if place >= buckets.len() {
        return false;
    }
    let old = &buckets[place];
    if !same_cell(old.cell, bucket.cell) {
        return false;
    }
    are_from(old.members.as_slice(), bucket.members.as_slice(), numbers)
}

// A set for the next version, with the pairs that it has.
fn moved(
    alloc: Global,
    set: &BucketSet,
    after: &Shared<Grid>,
    version: u64,
) -> Result<Shared<BucketSet>, AllocError>
    requires { IsUnmoved set.now.work.grid after.now set.now.work.cell }
    ensures work { IfOk result (λ made. made.work ≡ record {
      project = set.now.work.project;
      version = version;
      cell = set.now.work.cell;
      grid = after.now;
    }) }
    ensures pairs { IfOk result (λ made. made.pairs ≡ set.now.pairs) }
    ensures right { IfOk result (IsSetOf after.now set.now.work.cell) }
{
    let work = set.work();
    let grid = after.share()?;
    let moved = set.moved(BucketWork {
        project: work.project,
        version,
        cell: work.cell,
        grid,
    })?;
    Shared::new(alloc, moved)
}

// The set of the bucket at a place before, for the next version, where it has one.
fn moved_if_done(
    alloc: Global,
    done: &Progress,
    before: &Grid,
    place: usize,
    after: &Shared<Grid>,
    version: u64,
    cell: Cell,
) -> Result<Option<Shared<BucketSet>>, AllocError>
    requires of { IsOf before.now done.now }
    requires at { IsUnmovedAt before.now after.now place cell }
    requires unmoved { IsUnmoved before.now after.now cell }
    ensures { IfOk result (IsCarriedTo done.now before.now after.now version cell) }
{
    know(before.buckets());
    match &done.slots()[place].set {
        Some(set) => Ok(Some(moved(alloc, set.get(), after, version)?)),
        None => Ok(None),
    }
}

// The set that a bucket has from the version before, if it is carried.
fn carried_set(
    alloc: Global,
    done: &Progress,
    before: &Grid,
    place: usize,
    after: &Shared<Grid>,
    version: u64,
    bucket: &Bucket,
    numbers: &[Option<u32>],
) -> Result<Option<Shared<BucketSet>>, AllocError>
    requires of { IsOf before.now done.now }
    requires rules { before.now.version.rules ≡ after.now.version.rules }
    requires numbers { AreNumbersBefore (subjects before.now) (subjects after.now) numbers.now }
    requires members { bucket.now.members ≡ members after.now.boxes bucket.now.cell }
    requires reached { IsReachedCell before.now.buckets bucket.now.cell place }
    ensures { IfOk result (IsCarriedTo done.now before.now after.now version bucket.now.cell) }
{
    know(before.buckets());
    if is_unmoved(before, place, after.get(), bucket, numbers) {
        moved_if_done(alloc, done, before, place, after, version, bucket.cell)
    } else {
        Ok(None)
    }
}

/// The progress of a version's grid, from that of the version before. A bucket is done exactly where it was done
/// before, its members have the same keys, classes, storeys and triangles, and the rules are the same. Its set is
/// that from before, for this version and grid; the list of its pairs is shared. An error if memory runs out.
pub fn carry(
    alloc: Global,
    done: &Progress,
    before: &Grid,
    after: &Shared<Grid>,
    version: u64,
) -> Result<Progress, AllocError>
    requires { IsOf before.now done.now }
    ensures of { IfOk result (IsOf after.now) }
    ensures done { IfOk result (λ made. (cell : Cell)
        → IsDone made cell ↔ IsCarried done.now before.now after.now cell) }
    ensures sets { IfOk result (λ made.
        All (λ (s : Slot). IfSome s.set (IsMoved done.now after.now version s.cell)) made) }
{
    let grid = after.get();
    if !same_rules(before.rules(), grid.rules()) {
        return Progress::fresh(alloc, grid);
    }
    let numbers = numbers_before(alloc, before, grid)?;
    let mut slots = Vec::with_capacity(alloc, grid.buckets().len())?;
    let mut place = 0;
    for bucket in grid.buckets() {
        place = first_not_before(before.buckets(), place, bucket.cell);
        let set = carried_set(alloc, done, before, place, after, version, bucket, &numbers)?;
        slots.push(Slot {
            cell: bucket.cell,
            set,
        })?;
    }
    Progress::of(alloc, slots)
}
