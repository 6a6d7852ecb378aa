//! Rows worked by hand, each by the table and by the plain filter.
ghost use Rattle.std.specs.Prelude.{◌<◌, ◌^◌, length};

use bim_model::{Extent, Point};
use box_lanes::{BoxTable, places_within};
use std::alloc::Global;
use std::process::Abort;
use std::test::Fail;

const MAX: i32 = i32::MAX;

const MIN: i32 = i32::MIN;

fn point(x: i32, y: i32, z: i32) -> Point {
    Point { x, y, z }
}

fn extent(s: [i32; 6]) -> Extent {
    Extent {
        low: point(s[0], s[1], s[2]),
        high: point(s[3], s[4], s[5]),
    }
}

/// The table of the boxes and the plain filter give these places.
fn finds(
    rt: &impl Abort,
    alloc: Global,
    boxes: &[[i32; 6]],
    probe: [i32; 6],
    grow: u32,
    wanted: &[u32],
) -> Result<(), Fail>
    requires { length boxes.now < 2 ^ 32 }
{
    let extents: Vec<Extent> = boxes.iter().map(|sides| extent(*sides)).collect(alloc)?;
    let table = BoxTable::of(alloc, &extents)?;
    let found = table.within(alloc, &extent(probe), grow)?;
    assert_eq!(rt; found.as_slice(), wanted, "{probe:?} {grow}");
    let plain = places_within(alloc, &extents, &extent(probe), grow)?;
    assert_eq!(rt; plain.as_slice(), wanted, "plainly, {probe:?} {grow}");
    Ok(())
}

/// Three boxes apart on one axis each; two boxes beyond each side of a probe, the second a grid number farther; boxes
/// at the ends of the coordinates, in a block of eight and after it.
#[test]
fn boxes_by_hand_are_found(rt: HostRuntime) -> Result<(), Fail> {
    let three = [[0, 0, 0, 1, 1, 1], [5, 0, 0, 6, 1, 1], [0, 0, 9, 1, 1, 10]];
    let around = [
        [150, 0, 0, 160, 9, 9],
        [151, 0, 0, 160, 9, 9],
        [-60, 0, 0, -50, 9, 9],
        [-60, 0, 0, -51, 9, 9],
        [0, 150, 0, 9, 160, 9],
        [0, 151, 0, 9, 160, 9],
        [0, -60, 0, 9, -50, 9],
        [0, -60, 0, 9, -51, 9],
        [0, 0, 150, 9, 9, 160],
        [0, 0, 151, 9, 9, 160],
        [0, 0, -60, 9, 9, -50],
        [0, 0, -60, 9, 9, -51],
    ];
    let limits = [
        [8_000_000; 6],
        [-8_000_000; 6],
        [MAX; 6],
        [MIN; 6],
        [MIN, MIN, MIN, MAX, MAX, MAX],
        [8_000_000; 6],
        [-8_000_000; 6],
        [MAX; 6],
        [MIN; 6],
        [8_000_000; 6],
    ];
    let cube = [0, 0, 0, 100, 100, 100];
    let rows: [(&[[i32; 6]], [i32; 6], u32, &[u32]); 14] = [
        (&three, [0, 0, 0, 1, 1, 1], 0, &[0]),
        (&three, [0, 0, 0, 1, 1, 1], 3, &[0]),
        (&three, [0, 0, 0, 1, 1, 1], 4, &[0, 1]),
        (&three, [0, 0, 0, 1, 1, 1], 7, &[0, 1]),
        (&three, [0, 0, 0, 1, 1, 1], 8, &[0, 1, 2]),
        (&around, cube, 49, &[]),
        (&around, cube, 50, &[0, 2, 4, 6, 8, 10]),
        (&around, cube, 51, &[0, 1, 2, 3, 4, 5, 6, 7, 8, 9, 10, 11]),
        (&limits, [8_000_000; 6], 10_000, &[0, 4, 5, 9]),
        (&limits, [8_000_000; 6], 15_999_999, &[0, 4, 5, 9]),
        (&limits, [8_000_000; 6], 16_000_000, &[0, 1, 4, 5, 6, 9]),
        (&limits, [MAX; 6], 0, &[2, 4, 7]),
        (&limits, [MAX; 6], u32::MAX - 1, &[0, 1, 2, 4, 5, 6, 7, 9]),
        (&limits, [MIN; 6], u32::MAX, &[0, 1, 2, 3, 4, 5, 6, 7, 8, 9]),
    ];
    for (boxes, probe, grow, wanted) in rows {
        finds(&rt, rt.alloc(), boxes, probe, grow, wanted)?;
    }
    Ok(())
}

/// Every length from 0 to 17, where the boxes at even places are found.
#[test]
fn boxes_of_each_number_are_found(rt: HostRuntime) -> Result<(), Fail> {
    let near = [3, 3, 3, 4, 4, 4];
    let far = [3, 3, 90, 4, 4, 91];
    let boxes = [
        near, far, near, far, near, far, near, far, near, far, near, far, near, far, near, far,
        near,
    ];
    let even = [0_u32, 2, 4, 6, 8, 10, 12, 14, 16];
    for length in 0..18_usize {
        let found = length.div_ceil(2);
        finds(
            &rt,
            rt.alloc(),
            &boxes[..length],
            [0, 0, 0, 1, 1, 1],
            2,
            &even[..found],
        )?;
    }
    Ok(())
}

/// A table that is filled again, by places, and asked for the boxes after one of them alone, all and those that begin
/// at a start.
#[test]
fn a_table_is_filled_again(rt: HostRuntime) -> Result<(), Fail> {
    let boxes = [
        extent([0, 0, 0, 1, 1, 1]),
        extent([5, 0, 0, 6, 1, 1]),
        extent([0, 0, 9, 1, 1, 10]),
    ];
    let mut table = BoxTable::new(rt.alloc());
    let mut places = Vec::new(rt.alloc());
    let all = point(MIN, MIN, MIN);
    table.refill(&boxes, &[2, 0, 1, 0])?;
    table.later_within(1, &boxes[0], 4, &all, &mut places)?;
    assert_eq!(rt; places.as_slice(), [2, 3].as_slice());
    table.later_within(0, &boxes[0], 4, &point(1, 0, 0), &mut places)?;
    assert_eq!(rt; places.as_slice(), [2].as_slice());
    table.later_within(3, &boxes[0], 4, &all, &mut places)?;
    assert_eq!(rt; places.len(), 0);
    table.refill(&boxes, &[1])?;
    let found = table.within(rt.alloc(), &boxes[0], 4)?;
    assert_eq!(rt; found.as_slice(), [0].as_slice());
    Ok(())
}
