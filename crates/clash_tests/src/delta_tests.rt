//! Versions of few elements: what is done from the start, and what of it is carried to the next version.
ghost use Rattle.std.specs.Prelude.{◌≡◌, ◌<◌, OnOk, IfOk};
ghost use Rattle.bim_model.specs.Snapshots.{Version};
ghost use Rattle.clash_delta.specs.BucketProgress.{IsOf};

use crate::sample_pipes::{grid_of, named, pipe, rules};
use bim_model::{NamedModel, Shared, Snapshot, Steps};
use bucket_check::{BucketSet, BucketWork, Room, SetPair, check};
use bucket_grid::{Cell, Grid};
use clash_delta::{Progress, PutAnswer, carry};
use std::alloc::Global;
use std::marker::Brand;
use std::process::Abort;
use std::sync::ledger::{Blank, Ledger};
use std::test::Fail;

const NEAR: Cell = Cell { x: 0, y: 0, z: 0 };

const FAR: Cell = Cell { x: 2, y: 0, z: 0 };

const PAIR: SetPair = SetPair {
    a: 0,
    b: 1,
    rule: 0,
};

// A version: the distance of its rule, the height of the fourth element, and whether it has the other model.
#[derive(Clone, Copy)]
struct Scene {
    distance: u32,
    height: i32,
    with: bool,
}

const FIRST: Scene = Scene {
    distance: 50,
    height: 1700,
    with: false,
};

const MOVED: Scene = Scene {
    distance: 50,
    height: 1640,
    with: false,
};

const MORE: Scene = Scene {
    distance: 50,
    height: 1700,
    with: true,
};

const CLOSER: Scene = Scene {
    distance: 49,
    height: 1700,
    with: false,
};

// Two pairs of elements, of which the fourth is at this height.
fn four(alloc: Global, height: i32) -> Result<NamedModel, Fail> {
    let mut elements = Vec::new(alloc);
    elements.push(pipe(alloc, b"0000000000000000000011", 1500, 1500, 1500)?)?;
    elements.push(pipe(alloc, b"0000000000000000000012", 1500, 1500, 1550)?)?;
    elements.push(pipe(alloc, b"0000000000000000000013", 9500, 1500, 1500)?)?;
    elements.push(pipe(alloc, b"0000000000000000000014", 9500, 1500, height)?)?;
    named(alloc, "m", elements)
}

// One element in the cell of the first pair.
fn one(alloc: Global) -> Result<NamedModel, Fail> {
    let mut elements = Vec::new(alloc);
    elements.push(pipe(alloc, b"0000000000000000000002", 0, 0, 0)?)?;
    named(alloc, "a", elements)
}

// The grid of the four elements, and of the one before them by name where it is wanted.
fn grid(rt: &impl Abort, alloc: Global, scene: Scene) -> Result<Shared<Grid>, Fail>
    requires { scene.distance < 1000 }
{
    let empty = Snapshot::new(alloc, rules(alloc, scene.distance)?);
    let version = empty.with_model(alloc, four(alloc, scene.height)?)?;
    if scene.with {
        let more = version.with_model(alloc, one(alloc)?)?;
        grid_of(rt, alloc, more)
    } else {
        grid_of(rt, alloc, version)
    }
}

// Whether so many buckets are left, the two are done or not, and which comes next.
fn is_at(progress: &Progress, left: u64, near: bool, far: bool, next: Option<Cell>) -> bool {
    progress.left() == left
        && progress.is_done(NEAR) == near
        && progress.is_done(FAR) == far
        && progress.undone(0) == next
}

// Checks a bucket and takes its set.
fn put<L: Ledger>(
    rt: &impl Abort,
    alloc: Global,
    progress: &mut Progress,
    grid: &Shared<Grid>,
    cell: Cell,
    steps: &mut Steps<L>,
) -> Result<PutAnswer, Fail>
    requires { IsOf grid.now progress.old }
    ensures { OnOk result (IsOf grid.now progress.new) }
{
    assert!(rt; progress.is_bucket(cell));
    let work = BucketWork {
        project: 7,
        version: 2,
        cell,
        grid: grid.share()?,
    };
    let set = check(alloc, work, &mut Room::new(alloc), steps)?;
    Ok(progress.put(Shared::new(alloc, set)?))
}

// The progress of a grid of two buckets of which the nearer is done.
fn near_done<L: Ledger>(
    rt: &impl Abort,
    alloc: Global,
    grid: &Shared<Grid>,
    steps: &mut Steps<L>,
) -> Result<Progress, Fail>
    ensures { IfOk result (IsOf grid.now) }
{
    let mut progress = Progress::fresh(alloc, grid.get())?;
    assert!(rt; is_at(&progress, 2, false, false, Some(NEAR)));
    assert!(rt; progress.undone(1) == Some(FAR));
    let answer = put(rt, alloc, &mut progress, grid, NEAR, steps)?;
    assert!(rt; answer == PutAnswer::Taken);
    assert!(rt; is_at(&progress, 1, true, false, Some(FAR)));
    Ok(progress)
}

// .. of which both are done.
fn all_done<L: Ledger>(
    rt: &impl Abort,
    alloc: Global,
    grid: &Shared<Grid>,
    steps: &mut Steps<L>,
) -> Result<Progress, Fail>
    ensures { IfOk result (IsOf grid.now) }
{
    let mut progress = near_done(rt, alloc, grid, steps)?;
    let again = put(rt, alloc, &mut progress, grid, NEAR, steps)?;
    assert!(rt; again == PutAnswer::AlreadyDone);
    assert!(rt; is_at(&progress, 1, true, false, Some(FAR)));
    put(rt, alloc, &mut progress, grid, FAR, steps)?;
    assert!(rt; is_at(&progress, 0, true, true, None));
    Ok(progress)
}

// The first of two sets has one pair, the second none; they are of this version.
fn are_sets(sets: &[Shared<BucketSet>], version: u64) -> bool {
    match sets {
        [near, far] => {
            near.get().pairs() == [PAIR].as_slice()
                && far.get().pairs().is_empty()
                && far.get().work().version == version
                && far.get().work().project == 7
        }
        _ => false,
    }
}

fn has_sets(rt: &impl Abort, alloc: Global, progress: &Progress, version: u64) -> Result<(), Fail> {
    assert!(rt; progress.left() == 0);
    let sets = progress.sets(alloc)?;
    assert!(rt; are_sets(&sets, version));
    Ok(())
}

// What is carried to a grid where the rules and the models are these.
fn carried(
    rt: &impl Abort,
    alloc: Global,
    done: &Progress,
    before: &Grid,
    scene: Scene,
) -> Result<Progress, Fail>
    requires of { IsOf before.now done.now }
    requires distance { scene.distance < 1000 }
{
    let after = grid(rt, alloc, scene)?;
    Ok(carry(alloc, done, before, &after, 3)?)
}

// One element moved, a model before by name, and the rules set anew and to another distance.
fn runs<L: Ledger>(rt: &impl Abort, alloc: Global, blank: Blank) -> Result<(), Fail>
    requires name { blank.name ≡ L.name }
    requires parts { blank.parts ≡ L.parts }
    requires some { 0 < blank.parts }
{
    let mut steps = Steps::<L>::new(blank);
    let first = grid(rt, alloc, FIRST)?;
    let done = all_done(rt, alloc, &first, &mut steps)?;
    has_sets(rt, alloc, &done, 2)?;
    let moved = carried(rt, alloc, &done, first.get(), MOVED)?;
    assert!(rt; is_at(&moved, 1, true, false, Some(FAR)));
    let more = carried(rt, alloc, &done, first.get(), MORE)?;
    assert!(rt; is_at(&more, 1, false, true, Some(NEAR)));
    let again = carried(rt, alloc, &done, first.get(), FIRST)?;
    has_sets(rt, alloc, &again, 3)?;
    let other = carried(rt, alloc, &done, first.get(), CLOSER)?;
    assert!(rt; is_at(&other, 2, false, false, Some(NEAR)));
    Ok(())
}

#[test]
fn unchanged_buckets_are_carried(rt: HostRuntime) -> Result<(), Fail> {
    runs::<Brand>(&rt, rt.alloc(), Blank::new(1))
}
