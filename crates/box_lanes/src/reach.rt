//! What boxes are compared with.
ghost use Rattle.std.specs.Prelude.{◌≡◌, cond, ◌+ℤ◌, ◌-ℤ◌, pos, int_lt};
ghost use Rattle.std.specs.Int.{saturate_signed, w32};
ghost use Rattle.bim_model.specs.declared.geometry.Extent.{Extent};
ghost use Rattle.box_lanes.specs.BoxPlaces.{is_within_from};
ghost use Rattle.box_lanes.specs.CoarseBoxes.{meets, IsRough, Fits32};

use crate::blocks::{LANES, coarse_of};
use bim_model::{Extent, Point};

/// What a box is compared with: on each axis its low side with a high end, and with a low end its high side, or its
/// low side too where it has to begin there or later.
#[derive(Clone, Copy)]
pub struct Reach {
    pub low: Point,
    pub high: Point,
    pub later_x: bool,
    pub later_y: bool,
    pub later_z: bool,
}

/// A reach in steps of 256, and for each axis the number of the list of sides that is compared with its low end.
#[derive(Clone, Copy)]
pub struct Rough {
    pub sides: [i16; LANES],
    pub far_x: usize,
    pub far_y: usize,
    pub far_z: usize,
}

// A high side and `grow`, as far as 32 bits go. It takes half the steps of an addition that watches for overflow.
#[inline(always)]
fn raised(side: i32, grow: u32) -> i32
    ensures { result ≡ saturate_signed w32 (side +ℤ pos grow) }
{
    let greatest = i64::from(side) + i64::from(grow);
    if greatest > i64::from(i32::MAX) {
        i32::MAX
    } else {
        greatest as i32
    }
}

// The start, where a low side lies before it; else the side less `grow`, as far as 32 bits go.
#[inline(always)]
fn lowered(side: i32, grow: u32, start: i32) -> i32
    ensures { result ≡ cond (int_lt side start) start (saturate_signed w32 (side -ℤ pos grow)) }
{
    if side < start {
        return start;
    }
    let least = i64::from(side) - i64::from(grow);
    if least < i64::from(i32::MIN) {
        i32::MIN
    } else {
        least as i32
    }
}

/// The reach of the boxes within `grow` of the probe, of which on each axis one of the two begins at `start` or
/// later.
pub fn reach_of(probe: &Extent, grow: u32, start: &Point) -> Reach
    ensures meets { (box : Extent) → Fits32 box
        → meets result box ≡ is_within_from start.now grow probe.now box }
    ensures fits { Fits32 probe.now }
{
    Reach {
        low: Point {
            x: lowered(probe.low.x, grow, start.x),
            y: lowered(probe.low.y, grow, start.y),
            z: lowered(probe.low.z, grow, start.z),
        },
        high: Point {
            x: raised(probe.high.x, grow),
            y: raised(probe.high.y, grow),
            z: raised(probe.high.z, grow),
        },
        later_x: probe.low.x < start.x,
        later_y: probe.low.y < start.y,
        later_z: probe.low.z < start.z,
    }
}

// The number of a list of sides: of low ones where a box has to begin later, else of high ones.
#[inline(always)]
fn far_of(later: bool, low: usize, high: usize) -> usize
    ensures { result ≡ cond later low high }
{
    if later { low } else { high }
}

/// The reach in steps.
#[inline(always)]
pub fn rough_of(reach: &Reach) -> Rough
    ensures { IsRough reach.now result }
{
    Rough {
        sides: coarse_of(
            reach.low.x,
            reach.low.y,
            reach.low.z,
            reach.high.x,
            reach.high.y,
            reach.high.z,
            0,
            0,
        ),
        far_x: far_of(reach.later_x, 0, 3),
        far_y: far_of(reach.later_y, 1, 4),
        far_z: far_of(reach.later_z, 2, 5),
    }
}
