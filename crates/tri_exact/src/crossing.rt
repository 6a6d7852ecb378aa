//! Whether a segment goes through a triangle.
// Segments and triangles.
ghost use Rattle.std.specs.Prelude.{◌≡◌, ◌≤◌, ◌↔◌, ◌⊎◌, unsigned_abs, IsTrue};
ghost use Rattle.tri_exact.specs.ProductLimits.{height_limit};
ghost use Rattle.exact_arith.specs.Space.{dot_of, minus, normal};
ghost use Rattle.tri_exact.specs.GridVectors.{at, face_at, IsPoint};
ghost use Rattle.tri_exact.specs.Within.{HasArea, Meets};
ghost use Rattle.tri_exact.specs.Pierce.{Rises, PiercesFace, weight_a, weight_b, weight_c};

use crate::V3;
use crate::edges::edge_edge_within;
use crate::point_face::point_face_within;
use crate::products::{difference, height, normal_to, orient};

/// Whether the segment pq goes up through the triangle abc, the ends' heights being known.
#[inline(always)]
fn rises(p: V3, q: V3, a: V3, b: V3, c: V3, from: i128, to: i128) -> bool
    requires p_in { IsPoint p }
    requires q_in { IsPoint q }
    requires a_in { IsPoint a }
    requires b_in { IsPoint b }
    requires c_in { IsPoint c }
    requires from_in { unsigned_abs from ≤ height_limit }
    requires to_in { unsigned_abs to ≤ height_limit }
    ensures { IsTrue result ↔ Rises from to (weight_a (at p) (at q) (face_at a b c))
        (weight_b (at p) (at q) (face_at a b c)) (weight_c (at p) (at q) (face_at a b c)) }
{
    if from > 0 {
        return false;
    }
    if to < 0 {
        return false;
    }
    if to <= from {
        return false;
    }
    let u = orient(p, b, c, q);
    if u < 0 {
        return false;
    }
    let v = orient(p, c, a, q);
    if v < 0 {
        return false;
    }
    let w = orient(p, a, b, q);
    w >= 0
}

/// Whether the segment pq meets the triangle abc and isn't parallel to its plane, the ends' heights being known.
#[inline(always)]
pub fn edge_pierces(p: V3, q: V3, a: V3, b: V3, c: V3, from: i128, to: i128) -> bool
    requires p_in { IsPoint p }
    requires q_in { IsPoint q }
    requires a_in { IsPoint a }
    requires b_in { IsPoint b }
    requires c_in { IsPoint c }
    requires from_is { from ≡ dot_of (minus (at p) (at a)) (normal (face_at a b c)) }
    requires to_is { to ≡ dot_of (minus (at q) (at a)) (normal (face_at a b c)) }
    requires from_in { unsigned_abs from ≤ height_limit }
    requires to_in { unsigned_abs to ≤ height_limit }
    ensures { IsTrue result ↔ PiercesFace (at p) (at q) (face_at a b c) }
{
    if rises(p, q, a, b, c, from, to) {
        return true;
    }
    rises(q, p, a, b, c, to, from)
}

/// Whether one of three holds.
fn any_of(first: bool, second: bool, third: bool) -> bool
    ensures { IsTrue result ↔ (IsTrue first ⊎ (IsTrue second ⊎ IsTrue third)) }
{
    if first {
        return true;
    }
    if second {
        return true;
    }
    third
}

/// Whether the closed segment pq and the closed triangle abc, whose area is above zero, have a common point.
pub fn segment_crosses(p: V3, q: V3, a: V3, b: V3, c: V3) -> bool
    requires p_in { IsPoint p }
    requires q_in { IsPoint q }
    requires a_in { IsPoint a }
    requires b_in { IsPoint b }
    requires c_in { IsPoint c }
    requires area { HasArea (face_at a b c) }
    ensures { IsTrue result ↔ Meets (at p) (at q) (face_at a b c) }
{
    let normal = normal_to(difference(b, a), difference(c, a));
    let from = height(difference(p, a), normal);
    let to = height(difference(q, a), normal);
    if edge_pierces(p, q, a, b, c, from, to) {
        return true;
    }
    if point_face_within(p, a, b, c, 0) {
        return true;
    }
    if point_face_within(q, a, b, c, 0) {
        return true;
    }
    let first = edge_edge_within(a, b, p, q, 0);
    let second = edge_edge_within(b, c, p, q, 0);
    let third = edge_edge_within(c, a, p, q, 0);
    any_of(first, second, third)
}
