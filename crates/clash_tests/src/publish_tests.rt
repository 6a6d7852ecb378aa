//! Versions of a few elements, their clashes, and a shelf.
ghost use Rattle.std.specs.Prelude.{◌≡◌, ◌<◌, IfOk};
ghost use Rattle.clash_publish.specs.Merged.{AreSetsOf};

use crate::sample_pipes::{grid_of, named, pipe, rules};
use bim_model::{Element, NamedModel, Shared, Snapshot, Steps};
use bucket_check::{BucketSet, BucketWork, Room, SetPair, check};
use bucket_grid::Grid;
use clash_publish::{Horizon, Published, Shelf, clashes_are_listed, clashes_are_listed_by_keys};
use std::alloc::{AllocError, Global};
use std::marker::Brand;
use std::process::Abort;
use std::sync::ledger::{Blank, Ledger};
use std::test::Fail;

/// Models by rising name, each with the low corners of its elements in millimetres, by rising identifier.
type Corners<'a> = &'a [(&'a str, &'a [[i32; 3]])];

fn element(alloc: Global, place: usize, low: [i32; 3]) -> Result<Element, Fail> {
    let guid = format!(in alloc; "{place:022}")?;
    pipe(alloc, guid.as_bytes(), low[0], low[1], low[2])
}

fn model(alloc: Global, name: &str, corners: &[[i32; 3]]) -> Result<NamedModel, Fail> {
    let mut elements = Vec::new(alloc);
    for (place, low) in corners.iter().enumerate() {
        elements.push(element(alloc, place, *low)?)?;
    }
    named(alloc, name, elements)
}

fn version(alloc: Global, models: Corners) -> Result<Snapshot, Fail> {
    let mut version = Snapshot::new(alloc, rules(alloc, 50)?);
    for (name, corners) in models {
        version = version.with_model(alloc, model(alloc, *name, *corners)?)?;
    }
    Ok(version)
}

/// The sets of all buckets of a grid.
fn sets<L: Ledger>(
    blank: Blank,
    alloc: Global,
    grid: &Shared<Grid>,
) -> Result<Vec<Shared<BucketSet>>, AllocError>
    requires name { blank.name ≡ L.name }
    requires parts { blank.parts ≡ L.parts }
    requires some { 0 < blank.parts }
    ensures { IfOk result (λ made. AreSetsOf grid.now made.items) }
{
    let mut steps = Steps::<L>::new(blank);
    let mut room = Room::new(alloc);
    let mut sets = Vec::new(alloc);
    let buckets = grid.get().buckets();
    for bucket in buckets {
        let shared = grid.share()?;
        let work = BucketWork {
            project: 1,
            version: 1,
            cell: bucket.cell,
            grid: shared,
        };
        let set = check(alloc, work, &mut room, &mut steps)?;
        let kept = Shared::new(alloc, set)?;
        sets.push(kept)?;
    }
    Ok(sets)
}

fn published(rt: &impl Abort, alloc: Global, models: Corners) -> Result<Published, Fail> {
    let shared = grid_of(rt, alloc, version(alloc, models)?)?;
    let sets = sets::<Brand>(Blank::new(1), alloc, &shared)?;
    let set = Published::of(alloc, shared, &sets)?;
    Ok(set)
}

fn pair(a: u32, b: u32) -> SetPair {
    SetPair { a, b, rule: 0 }
}

/// Two decimetres of beam, one 50 millimetres above the other, and two that are further apart, in another cell.
static APART: [[i32; 3]; 4] = [
    [1500, 1500, 1500],
    [1500, 1500, 1550],
    [9500, 1500, 1500],
    [9500, 1500, 1700],
];

/// Two beside an edge of a cell, so that they are members of four.
static BESIDE: [[i32; 3]; 2] = [[3950, 3950, 1500], [3950, 3950, 1510]];

/// Three at one place, and one that comes near to the third alone; the cells that own them don't rise as they do.
static LOW: [[i32; 3]; 3] = [[5000, 0, 0], [1500, 0, 0], [5000, 0, 40]];

static HIGH: [[i32; 3]; 2] = [[1500, 0, 20], [5000, 0, 20]];

/// The clashes of these models are exactly these pairs.
fn has_clashes(
    rt: &impl Abort,
    alloc: Global,
    models: Corners,
    clashes: &[SetPair],
) -> Result<(), Fail> {
    let set = published(rt, alloc, models)?;
    assert_eq!(rt; set.pairs(), clashes);
    assert_eq!(rt; set.total(), clashes.len() as u64);
    assert_eq!(rt; set.pair(0), clashes.first().copied());
    Ok(())
}

#[test]
fn clashes_are_listed_once(rt: HostRuntime) -> Result<(), Fail> {
    let alloc = rt.alloc();
    let four = [pair(0, 2), pair(0, 4), pair(1, 3), pair(2, 4)];
    has_clashes(&rt, alloc, &[], &[])?;
    has_clashes(&rt, alloc, &[("m", &APART)], &[pair(0, 1)])?;
    has_clashes(&rt, alloc, &[("m", &BESIDE)], &[pair(0, 1)])?;
    has_clashes(&rt, alloc, &[("a", &LOW), ("b", &HIGH)], &four)?;
    clashes_are_listed();
    clashes_are_listed_by_keys();
    Ok(())
}

#[test]
fn pages_and_keys_are_told(rt: HostRuntime) -> Result<(), Fail> {
    let alloc = rt.alloc();
    let set = published(&rt, alloc, &[("a", &LOW), ("b", &HIGH)])?;
    let middle = [pair(0, 4), pair(1, 3)];
    let last = [pair(2, 4)];
    assert_eq!(rt; set.page(1, 2), middle.as_slice());
    assert_eq!(rt; set.page(3, u64::MAX), last.as_slice());
    assert!(rt; set.page(4, 1).is_empty());
    assert!(rt; set.page(u64::MAX, u64::MAX).is_empty());
    assert_eq!(rt; set.pair(4), None);
    let Some(third) = set.pair(2) else {
        return Err(Fail::from("no third clash"));
    };
    assert_eq!(rt; set.model_name(third.a), "a");
    assert_eq!(rt; set.model_name(third.b), "b");
    assert_eq!(rt; set.element(third.a).guid.chars, *b"0000000000000000000001");
    assert_eq!(rt; set.element(third.b).guid.chars, *b"0000000000000000000000");
    let distance = set.distance(third.rule).ok_or("a distance")?;
    assert_eq!(rt; distance.millimetres(), 50);
    assert_eq!(rt; set.distance(1).is_none(), true);
    assert_eq!(rt; set.snapshot().models().len(), 2);
    Ok(())
}

fn has(shelf: &Shelf, project: u32, version: u64) -> Option<u64> {
    let set = shelf.get(project, version)?;
    Some(set.get().total())
}

#[test]
fn live_versions_are_kept(rt: HostRuntime) -> Result<(), Fail> {
    let alloc = rt.alloc();
    let one = Shared::new(alloc, published(&rt, alloc, &[("m", &APART)])?)?;
    let none = Shared::new(alloc, published(&rt, alloc, &[])?)?;
    let mut shelf = Shelf::new(alloc);
    shelf.put(1, 1, none.share()?)?;
    shelf.put(1, 2, one.share()?)?;
    shelf.put(2, 1, one.share()?)?;
    shelf.put(9, 0, one.share()?)?;
    assert_eq!(rt; (has(&shelf, 1, 1), has(&shelf, 2, 1)), (Some(0), Some(1)));
    shelf.put(1, 1, one)?;
    assert_eq!(rt; (has(&shelf, 1, 1), has(&shelf, 2, 2)), (Some(1), None));
    let mut horizon = Horizon { newest: [0; 8] };
    horizon.newest[0] = 16;
    horizon.newest[7] = 3;
    shelf.keep(&horizon);
    assert_eq!(rt; (has(&shelf, 1, 1), has(&shelf, 1, 2)), (Some(1), Some(1)));
    horizon.newest[0] = 17;
    shelf.keep(&horizon);
    assert_eq!(rt; (has(&shelf, 1, 1), has(&shelf, 1, 2)), (None, Some(1)));
    assert_eq!(rt; (has(&shelf, 2, 1), has(&shelf, 9, 0)), (Some(1), Some(1)));
    assert_eq!(rt;
        (
            horizon.newest_of(0),
            horizon.newest_of(8),
            horizon.newest_of(9)
        ),
        (0, 3, 0)
    );
    Ok(())
}
