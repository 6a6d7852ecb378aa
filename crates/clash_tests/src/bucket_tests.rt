//! A bucket of two elements that clash, checked and moved to the next version.
ghost use Rattle.std.specs.Prelude.{◌≡◌, ◌<◌};

use crate::sample_pipes::{grid_of, two_pipes};
use bim_model::Steps;
use bucket_check::{BucketSet, BucketWork, Room, SetPair, check};
use bucket_grid::Cell;
use std::alloc::{AllocError, Global};
use std::marker::Brand;
use std::process::Abort;
use std::sync::ledger::{Blank, Ledger};
use std::test::Fail;

// The cell that owns the clash of two pipes.
fn work(rt: &impl Abort, alloc: Global) -> Result<BucketWork, Fail> {
    let grid = grid_of(rt, alloc, two_pipes(alloc)?)?;
    Ok(BucketWork {
        project: 0,
        version: 1,
        cell: Cell {
            x: -1,
            y: -1,
            z: -1,
        },
        grid,
    })
}

fn checked<L: Ledger>(
    blank: Blank,
    alloc: Global,
    work: BucketWork,
) -> Result<BucketSet, AllocError>
    requires name { blank.name ≡ L.name }
    requires parts { blank.parts ≡ L.parts }
    requires some { 0 < blank.parts }
{
    let mut steps = Steps::<L>::new(blank);
    let mut room = Room::new(alloc);
    check(alloc, work, &mut room, &mut steps)
}

// The same set for the next version, with the same grid.
fn again(set: &BucketSet) -> Result<BucketSet, AllocError> {
    let work = set.work();
    let grid = work.grid.share()?;
    set.moved(BucketWork {
        project: work.project,
        version: 2,
        cell: work.cell,
        grid,
    })
}

#[test]
fn a_bucket_is_checked_and_moved(rt: HostRuntime) -> Result<(), Fail> {
    let alloc = rt.alloc();
    let set = checked::<Brand>(Blank::new(1), alloc, work(&rt, alloc)?)?;
    let pair = SetPair {
        a: 0,
        b: 1,
        rule: 0,
    };
    assert_eq!(rt; set.pairs(), [pair].as_slice());
    let moved = again(&set)?;
    assert_eq!(rt; moved.work().version, 2);
    assert_eq!(rt; moved.pairs(), [pair].as_slice());
    Ok(())
}
