//! Directions in which two lists of triangles may lie apart: across their edges, and from box to box.
// Directions across which two lists of triangles may have a gap. Any direction serves: these are the likely ones.
ghost use Rattle.std.specs.Prelude.{◌≤◌, unsigned_abs, All};
ghost use Rattle.bim_model.specs.Points.{IsInGrid, step_limit};
ghost use Rattle.clearance.specs.inner.BoxContainment.{IsExtent};

use crate::apart::{longer, longest_edge};
use crate::corner_vectors::corners_of;
use crate::triangle_runs::RUN;
use bim_model::{Extent, Triangle};
use tri_exact::products::normal_to;
use tri_exact::{Normal, V3};

/// The greatest difference of two coordinates.
const STEP: i64 = 16_000_000;

/// A number, or the greatest difference where it is beyond.
#[inline(always)]
fn in_step(x: i64) -> i64
    ensures { unsigned_abs result ≤ step_limit }
{
    if x > STEP {
        return STEP;
    }
    if x < -STEP {
        return -STEP;
    }
    x
}

/// The edge from a point to itself.
#[inline(always)]
fn no_edge() -> V3 {
    V3 {
        x: in_step(0),
        y: in_step(0),
        z: in_step(0),
    }
}

/// The longest edge of every sixteenth triangle.
pub fn sampled_edge(ts: &[Triangle]) -> V3
    requires { All IsInGrid ts.now }
{
    let mut found = no_edge();
    for k in 0..ts.len() / RUN {
        found = longer(found, longest_edge(corners_of(&ts[RUN * k])));
    }
    found
}

/// One part of so many of a number.
#[inline(always)]
fn part(x: i64, divisor: i64) -> i64
    ensures { unsigned_abs result ≤ step_limit }
{
    in_step(x.checked_div(divisor).unwrap_or(0))
}

/// A vector along a product, short enough to be multiplied again.
fn shortened(n: Normal) -> V3 {
    let most = n.x.abs().max(n.y.abs()).max(n.z.abs());
    let divisor = (most / STEP).saturating_add(1);
    V3 {
        x: part(n.x, divisor),
        y: part(n.y, divisor),
        z: part(n.z, divisor),
    }
}

/// The way from the middle of one span of an axis to that of another.
#[inline(always)]
fn middle_step(low: i32, high: i32, other_low: i32, other_high: i32) -> i64
    ensures { unsigned_abs result ≤ step_limit }
{
    let from = low as i64 + high as i64;
    let to = other_low as i64 + other_high as i64;
    in_step(to.saturating_sub(from) / 2)
}

/// The way from the middle of one box to that of another.
pub fn way_between(first: Extent, second: Extent) -> V3
    requires first_in { IsExtent first }
    requires second_in { IsExtent second }
{
    V3 {
        x: middle_step(first.low.x, first.high.x, second.low.x, second.high.x),
        y: middle_step(first.low.y, first.high.y, second.low.y, second.high.y),
        z: middle_step(first.low.z, first.high.z, second.low.z, second.high.z),
    }
}

/// The direction across an edge that leads the way.
pub fn across_edge(edge: V3, way: V3) -> Normal {
    normal_to(edge, shortened(normal_to(edge, way)))
}
