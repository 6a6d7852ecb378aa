//! Every bucket of a version is checked.
ghost use Rattle.std.specs.Prelude.{◌≡◌, ◌<◌, ◌≤◌, ◌-◌, ◌^◌, length, min, IfOk, IfErr};
ghost use Rattle.bim_model.specs.Keys.{subjects_of};
ghost use Rattle.bucket_check.specs.ClashSets.{IsSetOf};
ghost use Rattle.clash_publish.specs.Merged.{AreSetsOf};
ghost use Rattle.clash_check.specs.VersionChecks.{element_count, IsChecked, IsVersionCause, of_grid};

use crate::version_fault::{MOST_VERSION_ELEMENTS, VersionError, VersionFault};
use bim_model::{NamedModel, Shared, Snapshot, Steps};
use bucket_check::{BucketSet, BucketWork, Room, check};
use bucket_grid::{Cell, Grid, GridError};
use clash_publish::Published;
use std::alloc::{AllocError, Global};
use std::marker::Brand;
use std::sync::ledger::{Blank, Ledger};

// How many elements these models have together, at most what 64 bits hold.
fn element_count(models: &[NamedModel]) -> u64
    ensures { result ≡ min (length (subjects_of models.now)) (2 ^ 64 - 1) }
{
    let mut count = 0u64;
    for model in models {
        count = count.saturating_add(model.model.get().elements().len() as u64);
    }
    count
}

// The set of one bucket.
fn set_of<L: Ledger>(
    alloc: Global,
    grid: &Shared<Grid>,
    cell: Cell,
    room: &mut Room,
    steps: &mut Steps<L>,
) -> Result<Shared<BucketSet>, AllocError>
    ensures { IfOk result (λ set. IsSetOf grid.now cell set) }
{
    let shared = grid.share()?;
    let work = BucketWork {
        project: 1,
        version: 1,
        cell,
        grid: shared,
    };
    let set = check(alloc, work, room, steps)?;
    let kept = Shared::new(alloc, set)?;
    Ok(kept)
}

// The sets of all buckets, in their order. One after the other is checked, in the same room.
fn sets_of<L: Ledger>(
    blank: Blank,
    alloc: Global,
    grid: &Shared<Grid>,
) -> Result<Vec<Shared<BucketSet>>, AllocError>
    requires name { blank.name ≡ L.name }
    requires parts { blank.parts ≡ L.parts }
    requires some { 0 < blank.parts }
    ensures { IfOk result (λ sets. AreSetsOf grid.now sets.items) }
{
    let mut steps = Steps::<L>::new(blank);
    let mut room = Room::new(alloc);
    let mut sets = Vec::new(alloc);
    let buckets = grid.get().buckets();
    for bucket in buckets {
        let set = set_of(alloc, grid, bucket.cell, &mut room, &mut steps)?;
        sets.push(set)?;
    }
    Ok(sets)
}

// The clashes of a version whose grid was made.
fn published(alloc: Global, grid: Grid) -> Result<Published, AllocError>
    ensures { IfOk result (λ made. made ≡ grid.version) }
{
    let shared = Shared::new(alloc, grid)?;
    let sets = sets_of::<Brand>(Blank::new(1), alloc, &shared)?;
    Published::of(alloc, shared, &sets)
}

// Why there is no grid, as an error of its version.
fn error_of(error: GridError) -> VersionError
    ensures { result ≡ of_grid error }
{
    match error {
        GridError::TooSpread { count } => VersionError::Fault(VersionFault::TooSpread { count }),
        GridError::Memory => VersionError::Memory,
    }
}

/// The clashes of a version. It is refused where it has over 100,000 elements, or else over 2,000,000 pairs
/// of a cell of its grid and a member. An error also if memory runs out.
pub fn clashes_of(alloc: Global, version: Shared<Snapshot>) -> Result<Published, VersionError>
    ensures version { IfOk result (λ made. made ≡ version) }
    ensures checked { IfOk result (λ _. IsChecked version) }
    ensures fault { IfErr result (IsVersionCause version) }
{
    let count = element_count(version.get().models());
    if count > MOST_VERSION_ELEMENTS {
        return Err(VersionError::Fault(VersionFault::ElementsFull { count }));
    }
    match Grid::of(alloc, version) {
        Ok(grid) => Ok(published(alloc, grid)?),
        Err(error) => Err(error_of(error)),
    }
}
