//! Boxes round triangles, and whether two lie apart by more than a distance.
// Boxes along the axes.
ghost use Rattle.std.specs.Prelude.{◌≤◌, ◌<◌, pos, ◌+ℤ◌, ◌≤ℤ◌, ◌<ℤ◌, ◌↔◌, unsigned_abs, IsTrue, All};
ghost use Rattle.tri_exact.specs.ProductLimits.{distance_limit};
ghost use Rattle.bim_model.specs.Points.{grid_limit, IsInGrid, shape_of};
ghost use Rattle.bim_model.specs.Gaps.{gap};
ghost use Rattle.clearance.specs.inner.BoxContainment.{InExtent, IsExtent, Wider, IsOff};

use bim_model::{Extent, GRID_LIMIT, Point, Triangle};

/// The lesser of two coordinates.
#[inline(always)]
fn lower(a: i32, b: i32) -> i32
    requires a_in { unsigned_abs a ≤ grid_limit }
    requires b_in { unsigned_abs b ≤ grid_limit }
    ensures a { result ≤ℤ a }
    ensures b { result ≤ℤ b }
    ensures small { unsigned_abs result ≤ grid_limit }
{
    if a <= b { a } else { b }
}

/// The greater of two coordinates.
#[inline(always)]
fn higher(a: i32, b: i32) -> i32
    requires a_in { unsigned_abs a ≤ grid_limit }
    requires b_in { unsigned_abs b ≤ grid_limit }
    ensures a { a ≤ℤ result }
    ensures b { b ≤ℤ result }
    ensures small { unsigned_abs result ≤ grid_limit }
{
    if a <= b { b } else { a }
}

/// The least of three coordinates.
#[inline(always)]
fn least(a: i32, b: i32, c: i32) -> i32
    requires a_in { unsigned_abs a ≤ grid_limit }
    requires b_in { unsigned_abs b ≤ grid_limit }
    requires c_in { unsigned_abs c ≤ grid_limit }
    ensures a { result ≤ℤ a }
    ensures b { result ≤ℤ b }
    ensures c { result ≤ℤ c }
    ensures small { unsigned_abs result ≤ grid_limit }
{
    if a <= b {
        if a <= c { a } else { c }
    } else if b <= c {
        b
    } else {
        c
    }
}

/// The greatest of three coordinates.
#[inline(always)]
fn greatest(a: i32, b: i32, c: i32) -> i32
    requires a_in { unsigned_abs a ≤ grid_limit }
    requires b_in { unsigned_abs b ≤ grid_limit }
    requires c_in { unsigned_abs c ≤ grid_limit }
    ensures a { a ≤ℤ result }
    ensures b { b ≤ℤ result }
    ensures c { c ≤ℤ result }
    ensures small { unsigned_abs result ≤ grid_limit }
{
    if a <= b {
        if b <= c { c } else { b }
    } else if a <= c {
        c
    } else {
        a
    }
}

/// The box of t.
#[inline(always)]
pub fn extent_of(t: &Triangle) -> Extent
    requires { IsInGrid t.now }
    ensures inside { InExtent result (shape_of t.now) }
    ensures small { IsExtent result }
{
    Extent {
        low: Point {
            x: least(t.a.x, t.b.x, t.c.x),
            y: least(t.a.y, t.b.y, t.c.y),
            z: least(t.a.z, t.b.z, t.c.z),
        },
        high: Point {
            x: greatest(t.a.x, t.b.x, t.c.x),
            y: greatest(t.a.y, t.b.y, t.c.y),
            z: greatest(t.a.z, t.b.z, t.c.z),
        },
    }
}

/// Whether a coordinate is more than d above another.
#[inline(always)]
fn is_past(high: i32, low: i32, d: u32) -> bool
    requires high_in { unsigned_abs high ≤ grid_limit }
    requires low_in { unsigned_abs low ≤ grid_limit }
    requires d_in { d ≤ distance_limit }
    ensures { IsTrue result ↔ (high +ℤ pos d) <ℤ low }
{
    high + (d as i32) < low
}

/// Whether the gap of two spans of an axis is more than d.
#[inline(always)]
fn is_span_off(low: i32, high: i32, other_low: i32, other_high: i32, d: u32) -> bool
    requires low_in { unsigned_abs low ≤ grid_limit }
    requires high_in { unsigned_abs high ≤ grid_limit }
    requires other_low_in { unsigned_abs other_low ≤ grid_limit }
    requires other_high_in { unsigned_abs other_high ≤ grid_limit }
    requires d_in { d ≤ distance_limit }
    ensures { IsTrue result ↔ d < gap low high other_low other_high }
{
    if is_past(high, other_low, d) {
        return true;
    }
    is_past(other_high, low, d)
}

/// Whether two boxes have a gap of more than d on an axis.
#[inline(always)]
pub fn is_off(first: Extent, second: Extent, d: u32) -> bool
    requires first_in { IsExtent first }
    requires second_in { IsExtent second }
    requires d_in { d ≤ distance_limit }
    ensures { IsTrue result ↔ IsOff first second d }
{
    let (low, high) = (first.low, first.high);
    if is_span_off(low.x, high.x, second.low.x, second.high.x, d) {
        return true;
    }
    if is_span_off(low.y, high.y, second.low.y, second.high.y, d) {
        return true;
    }
    is_span_off(low.z, high.z, second.low.z, second.high.z, d)
}

/// The least box with two boxes in it.
#[inline(always)]
pub fn join(first: Extent, second: Extent) -> Extent
    requires first_in { IsExtent first }
    requires second_in { IsExtent second }
    ensures first { Wider first result }
    ensures second { Wider second result }
    ensures small { IsExtent result }
{
    Extent {
        low: Point {
            x: lower(first.low.x, second.low.x),
            y: lower(first.low.y, second.low.y),
            z: lower(first.low.z, second.low.z),
        },
        high: Point {
            x: higher(first.high.x, second.high.x),
            y: higher(first.high.y, second.high.y),
            z: higher(first.high.z, second.high.z),
        },
    }
}

/// A box that nothing lies in, and that `join` lets go: its low corner is the grid's highest.
#[inline(always)]
pub fn no_extent() -> Extent
    ensures { IsExtent result }
{
    Extent {
        low: Point {
            x: GRID_LIMIT,
            y: GRID_LIMIT,
            z: GRID_LIMIT,
        },
        high: Point {
            x: -GRID_LIMIT,
            y: -GRID_LIMIT,
            z: -GRID_LIMIT,
        },
    }
}

/// A box with all of the triangles in it.
pub fn extent_of_all(ts: &[Triangle]) -> Extent
    requires { All IsInGrid ts.now }
    ensures inside { All (λ t. InExtent result (shape_of t)) ts.now }
    ensures small { IsExtent result }
{
    let mut found = no_extent();
    for t in ts {
        found = join(found, extent_of(t));
    }
    found
}
