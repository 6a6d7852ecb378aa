//! Heights of a triangle's corners over the plane of another, and on which sides of it they are.
// Heights over a plane, each times the length of the plane's normal.
ghost use Rattle.std.specs.Prelude.{pos, ◌≤◌, ◌≤ℤ◌, ◌<ℤ◌, ◌↔◌, unsigned_abs, IsTrue};
ghost use Rattle.tri_exact.specs.ProductLimits.{height_limit};
ghost use Rattle.tri_pierce.specs.inner.LoneCorners.{face_of, InGrid, AreHeights, AreTall, SomeAbove, SomeBelow, Split, Lone};

use crate::face_corners::Corners;
use tri_exact::products::{difference, height, normal_to};

/// The heights of three corners over a plane, each times the length of the plane's normal.
#[derive(Clone, Copy)]
pub struct Heights {
    pub a: i128,
    pub b: i128,
    pub c: i128,
}

/// The heights of the corners of s over the plane of t.
#[inline(always)]
pub fn heights_over(t: Corners, s: Corners) -> Heights
    requires t_in { InGrid t }
    requires s_in { InGrid s }
    ensures value { AreHeights result (face_of t) (face_of s) }
    ensures tall { AreTall result }
{
    let edge = difference(t.b, t.a);
    let side = difference(t.c, t.a);
    let normal = normal_to(edge, side);
    let a = difference(s.a, t.a);
    let b = difference(s.b, t.a);
    let c = difference(s.c, t.a);
    Heights {
        a: height(a, normal),
        b: height(b, normal),
        c: height(c, normal),
    }
}

/// Whether a height is above 0.
#[inline(always)]
pub fn is_above(h: i128) -> bool
    requires { unsigned_abs h ≤ height_limit }
    ensures { IsTrue result ↔ (pos 0 <ℤ h) }
{
    h > 0
}

/// Whether a height is below 0.
#[inline(always)]
fn is_below(h: i128) -> bool
    requires { unsigned_abs h ≤ height_limit }
    ensures { IsTrue result ↔ (h <ℤ pos 0) }
{
    h < 0
}

/// Whether one of three heights is above 0.
#[inline(always)]
fn has_above(h: Heights) -> bool
    requires { AreTall h }
    ensures { IsTrue result ↔ SomeAbove h.a h.b h.c }
{
    if is_above(h.a) {
        return true;
    }
    if is_above(h.b) {
        return true;
    }
    is_above(h.c)
}

/// Whether one of three heights is below 0.
#[inline(always)]
fn has_below(h: Heights) -> bool
    requires { AreTall h }
    ensures { IsTrue result ↔ SomeBelow h.a h.b h.c }
{
    if is_below(h.a) {
        return true;
    }
    if is_below(h.b) {
        return true;
    }
    is_below(h.c)
}

/// Whether three heights are on both sides of 0.
#[inline(always)]
pub fn is_split(h: Heights) -> bool
    requires { AreTall h }
    ensures { IsTrue result ↔ Split h.a h.b h.c }
{
    if has_above(h) {
        return has_below(h);
    }
    false
}

/// Whether neither of two heights is above 0.
#[inline(always)]
fn none_above(b: i128, c: i128) -> bool
    requires b_in { unsigned_abs b ≤ height_limit }
    requires c_in { unsigned_abs c ≤ height_limit }
    ensures { IsTrue result ↔ ((b ≤ℤ pos 0) × (c ≤ℤ pos 0)) }
{
    if b > 0 {
        return false;
    }
    c <= 0
}

/// Whether neither of two heights is below 0.
#[inline(always)]
fn none_below(b: i128, c: i128) -> bool
    requires b_in { unsigned_abs b ≤ height_limit }
    requires c_in { unsigned_abs c ≤ height_limit }
    ensures { IsTrue result ↔ ((pos 0 ≤ℤ b) × (pos 0 ≤ℤ c)) }
{
    if b < 0 {
        return false;
    }
    c >= 0
}

/// Whether the first of three heights on both sides of 0 is alone on its side.
#[inline(always)]
pub fn is_lone(a: i128, b: i128, c: i128) -> bool
    requires a_in { unsigned_abs a ≤ height_limit }
    requires b_in { unsigned_abs b ≤ height_limit }
    requires c_in { unsigned_abs c ≤ height_limit }
    requires split { Split a b c }
    ensures { IsTrue result ↔ Lone a b c }
{
    if is_above(a) {
        return none_above(b, c);
    }
    if is_below(a) {
        return none_below(b, c);
    }
    false
}
