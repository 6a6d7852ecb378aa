//! Lists of triangles projected on a direction, and whether a gap lies between two of them.
// Triangles projected on a direction, and gaps between all of one list and all of another.
ghost use Rattle.std.specs.Prelude.{◌≤◌, ◌≤ℤ◌, unsigned_abs, IsTrue, IfSome, All};
ghost use Rattle.tri_exact.specs.ProductLimits.{height_limit, distance_limit};
ghost use Rattle.tri_exact.specs.GridVectors.{at, straight, IsPoint};
ghost use Rattle.bim_model.specs.Points.{IsInGrid, shape_of};
ghost use Rattle.clearance.specs.Near.{ListsNear};
ghost use Rattle.clearance.specs.inner.BoxContainment.{IsExtent};
ghost use Rattle.clearance.specs.inner.TriangleRuns.{AllIn, AllReach};
ghost use Rattle.clearance.specs.inner.Projections.{InInterval, IsInterval, Longer, ProjectsIn, AllProjectIn};

use crate::apart::{HEIGHT, highest, is_gap, lowest};
use crate::boxes::{extent_of, is_off};
use crate::corner_vectors::{corners_of, vector_at};
use crate::directions::{across_edge, sampled_edge, way_between};
use crate::planes::lesser;
use crate::triangle_runs::RUN;
use bim_model::{Extent, Triangle};
use tri_exact::products::{difference, height, normal_to, square};
use tri_exact::{Normal, V3};

/// From the lowest to the highest place across a direction.
#[derive(Clone, Copy)]
pub struct Interval {
    pub low: i128,
    pub high: i128,
}

/// An interval that nothing lies in, and that `join` lets go.
#[inline(always)]
fn no_interval() -> Interval
    ensures { IsInterval result }
{
    Interval {
        low: HEIGHT,
        high: -HEIGHT,
    }
}

/// The places of t across a direction, from a point on.
#[inline(always)]
fn interval_of(t: &Triangle, base: V3, across: Normal) -> Interval
    requires t_in { IsInGrid t.now }
    requires base_in { IsPoint base }
    ensures inside { InInterval (at base) (straight across) result (shape_of t.now) }
    ensures small { IsInterval result }
{
    let corners = corners_of(t);
    let a = height(difference(corners.a, base), across);
    let b = height(difference(corners.b, base), across);
    let c = height(difference(corners.c, base), across);
    Interval {
        low: lowest(a, b, c),
        high: highest(a, b, c),
    }
}

/// The greater of two places.
#[inline(always)]
fn higher(a: i128, b: i128) -> i128
    requires a_in { unsigned_abs a ≤ height_limit }
    requires b_in { unsigned_abs b ≤ height_limit }
    ensures a { a ≤ℤ result }
    ensures b { b ≤ℤ result }
    ensures small { unsigned_abs result ≤ height_limit }
{
    if a <= b { b } else { a }
}

/// The least interval with two intervals in it.
#[inline(always)]
fn join(first: Interval, second: Interval) -> Interval
    requires first_in { IsInterval first }
    requires second_in { IsInterval second }
    ensures first { Longer first result }
    ensures second { Longer second result }
    ensures small { IsInterval result }
{
    Interval {
        low: lesser(first.low, second.low),
        high: higher(first.high, second.high),
    }
}

/// Whether two intervals have a common place.
#[inline(always)]
fn meets(first: Interval, second: Interval) -> bool {
    first.low <= second.high && second.low <= first.high
}

/// The interval of one triangle more, if it reaches the box `around`.
#[inline(always)]
fn join_projected(
    found: Interval,
    t: &Triangle,
    around: Extent,
    base: V3,
    across: Normal,
    d: u32,
) -> Interval
    requires found_in { IsInterval found }
    requires t_in { IsInGrid t.now }
    requires around_in { IsExtent around }
    requires base_in { IsPoint base }
    requires d_in { d ≤ distance_limit }
    ensures found { Longer found result }
    ensures reached { ProjectsIn around d (at base) (straight across) result t.now }
    ensures small { IsInterval result }
{
    if is_off(around, extent_of(t), d) {
        return found;
    }
    join(found, interval_of(t, base, across))
}

/// The interval of every sixteenth triangle, if it reaches the box `around`.
fn sampled_interval(ts: &[Triangle], around: Extent, base: V3, across: Normal, d: u32) -> Interval
    requires ts_in { All IsInGrid ts.now }
    requires around_in { IsExtent around }
    requires base_in { IsPoint base }
    requires d_in { d ≤ distance_limit }
{
    let mut found = no_interval();
    for k in 0..ts.len() / RUN {
        found = join_projected(found, &ts[RUN * k], around, base, across, d);
    }
    found
}

/// The interval of those triangles that reach the box `around`; none as soon as it meets another interval.
fn clear_interval(
    ts: &[Triangle],
    around: Extent,
    other: Interval,
    base: V3,
    across: Normal,
    d: u32,
) -> Option<Interval>
    requires ts_in { All IsInGrid ts.now }
    requires around_in { IsExtent around }
    requires base_in { IsPoint base }
    requires d_in { d ≤ distance_limit }
    ensures all { IfSome result (λ k. AllProjectIn around d (at base) (straight across) k ts.now) }
    ensures small { IfSome result IsInterval }
{
    let mut found = no_interval();
    for t in ts {
        found = join_projected(found, t, around, base, across, d);
        if meets(found, other) {
            return None;
        }
    }
    Some(found)
}

/// Whether two lists, the first of which lies in the box `around` and the second of which reaches it in the box
/// `reached`, are known not to be near by a gap across a direction; a `false` says nothing.
fn are_parted(
    ps: &[Triangle],
    qs: &[Triangle],
    around: Extent,
    reached: Extent,
    across: Normal,
    d: u32,
) -> bool
    requires ps_in { All IsInGrid ps.now }
    requires inside { AllIn around ps.now }
    requires around_in { IsExtent around }
    requires qs_in { All IsInGrid qs.now }
    requires reached_by { AllReach around d reached qs.now }
    requires reached_in { IsExtent reached }
    requires d_in { d ≤ distance_limit }
    ensures { IsTrue result → ListsNear ps.now qs.now d → ⊥ }
{
    let base = vector_at(around.low);
    let sample = sampled_interval(ps, reached, base, across, d);
    let Some(second) = clear_interval(qs, around, sample, base, across, d) else {
        return false;
    };
    let Some(first) = clear_interval(ps, reached, second, base, across, d) else {
        return false;
    };
    let square = square(across);
    if is_gap(first.high, second.low, square, d) {
        return true;
    }
    is_gap(second.high, first.low, square, d)
}

/// Whether such lists are known not to be near by a gap across one of three directions: across the longest edges of
/// both, and across that of each towards the other's box; a `false` says nothing.
pub fn lists_apart(
    ps: &[Triangle],
    qs: &[Triangle],
    around: Extent,
    reached: Extent,
    d: u32,
) -> bool
    requires ps_in { All IsInGrid ps.now }
    requires inside { AllIn around ps.now }
    requires around_in { IsExtent around }
    requires qs_in { All IsInGrid qs.now }
    requires reached_by { AllReach around d reached qs.now }
    requires reached_in { IsExtent reached }
    requires d_in { d ≤ distance_limit }
    ensures { IsTrue result → ListsNear ps.now qs.now d → ⊥ }
{
    let first = sampled_edge(ps);
    let second = sampled_edge(qs);
    if are_parted(ps, qs, around, reached, normal_to(first, second), d) {
        return true;
    }
    let way = way_between(around, reached);
    if are_parted(ps, qs, around, reached, across_edge(first, way), d) {
        return true;
    }
    are_parted(ps, qs, around, reached, across_edge(second, way), d)
}
