//! Directions in which two triangles lie apart by more than a distance.
// A gap between two triangles across a direction.
ghost use Rattle.std.specs.Prelude.{◌*◌, ◌≤◌, pos, ◌-ℤ◌, ◌≤ℤ◌, ◌<ℤ◌, unsigned_abs, IsTrue};
ghost use Rattle.tri_exact.specs.ProductLimits.{height_limit, square_limit, distance_limit};
ghost use Rattle.clearance.specs.Near.{FacesNear};
ghost use Rattle.clearance.specs.inner.TriangleCorners.{face_of, InGrid};
ghost use Rattle.clearance.specs.inner.Apart.{Apart};

use crate::corner_vectors::Corners;
use tri_exact::products::{difference, height, is_low, normal_to, scalar, square};
use tri_exact::{Normal, V3};

/// The longer of two edges.
#[inline(always)]
pub fn longer(a: V3, b: V3) -> V3 {
    if scalar(a, a) < scalar(b, b) { b } else { a }
}

/// The longest edge of t.
#[inline(always)]
pub fn longest_edge(t: Corners) -> V3
    requires { InGrid t }
{
    let first = longer(difference(t.b, t.a), difference(t.c, t.b));
    longer(first, difference(t.a, t.c))
}

/// The lowest of three places across a direction.
#[inline(always)]
pub fn lowest(a: i128, b: i128, c: i128) -> i128
    requires a_in { unsigned_abs a ≤ height_limit }
    requires b_in { unsigned_abs b ≤ height_limit }
    requires c_in { unsigned_abs c ≤ height_limit }
    ensures a { result ≤ℤ a }
    ensures b { result ≤ℤ b }
    ensures c { result ≤ℤ c }
    ensures small { unsigned_abs result ≤ height_limit }
{
    if a <= b {
        if a <= c { a } else { c }
    } else if b <= c {
        b
    } else {
        c
    }
}

/// The highest of three places across a direction.
#[inline(always)]
pub fn highest(a: i128, b: i128, c: i128) -> i128
    requires a_in { unsigned_abs a ≤ height_limit }
    requires b_in { unsigned_abs b ≤ height_limit }
    requires c_in { unsigned_abs c ≤ height_limit }
    ensures a { a ≤ℤ result }
    ensures b { b ≤ℤ result }
    ensures c { c ≤ℤ result }
    ensures small { unsigned_abs result ≤ height_limit }
{
    if a <= b {
        if b <= c { c } else { b }
    } else if a <= c {
        c
    } else {
        a
    }
}

/// The greatest height that is asked for.
pub const HEIGHT: i128 = 24576000000000000000000;

/// A gap, or the limit.
#[inline(always)]
fn capped(gap: i128) -> i128
    requires gap_in { unsigned_abs gap ≤ 2 * height_limit }
    requires some { pos 0 <ℤ gap }
    ensures at_most { result ≤ℤ gap }
    ensures some { pos 0 <ℤ result }
    ensures small { unsigned_abs result ≤ height_limit }
{
    if gap <= HEIGHT { gap } else { HEIGHT }
}

/// Whether three places are more than d above three others; a `false` says nothing.
#[inline(always)]
pub fn is_gap(high: i128, low: i128, square: i128, d: u32) -> bool
    requires high_in { unsigned_abs high ≤ height_limit }
    requires low_in { unsigned_abs low ≤ height_limit }
    requires square_in { unsigned_abs square ≤ square_limit }
    requires d_in { d ≤ distance_limit }
    ensures { IsTrue result → Apart high low square d }
{
    let gap = low - high;
    if gap <= 0 {
        return false;
    }
    if is_low(capped(gap), square, d) {
        return false;
    }
    true
}

/// Whether two triangles are known not to be near by a gap across a direction; a `false` says nothing.
#[inline(always)]
fn is_parted(t: Corners, s: Corners, across: Normal, d: u32) -> bool
    requires t_in { InGrid t }
    requires s_in { InGrid s }
    requires d_in { d ≤ distance_limit }
    ensures { IsTrue result → FacesNear (face_of t) (face_of s) d → ⊥ }
{
    let a = height(difference(t.a, t.a), across);
    let b = height(difference(t.b, t.a), across);
    let c = height(difference(t.c, t.a), across);
    let p = height(difference(s.a, t.a), across);
    let q = height(difference(s.b, t.a), across);
    let r = height(difference(s.c, t.a), across);
    let square = square(across);
    let top = highest(a, b, c);
    let bottom = lowest(p, q, r);
    if is_gap(top, bottom, square, d) {
        return true;
    }
    let high = highest(p, q, r);
    let low = lowest(a, b, c);
    is_gap(high, low, square, d)
}

/// Whether two triangles are known not to be near by a gap across the longest edges of both; a `false` says nothing.
#[inline(always)]
pub fn is_apart(t: Corners, s: Corners, d: u32) -> bool
    requires t_in { InGrid t }
    requires s_in { InGrid s }
    requires d_in { d ≤ distance_limit }
    ensures { IsTrue result → FacesNear (face_of t) (face_of s) d → ⊥ }
{
    is_parted(t, s, normal_to(longest_edge(t), longest_edge(s)), d)
}
