//! Planes of triangles, and heights of corners over them.
// A triangle's plane, and the heights of another triangle's corners over it.
ghost use Rattle.std.specs.Prelude.{ℕ, ◌≤◌, ℤ, ◌≤ℤ◌, unsigned_abs, IsTrue};
ghost use Rattle.tri_exact.specs.ProductLimits.{height_limit, square_limit, distance_limit};
ghost use Rattle.clearance.specs.inner.TriangleCorners.{face_of, InGrid};
ghost use Rattle.clearance.specs.inner.Planes.{IsPlane, IsOver, IsTall, Clear, IsClear};

use crate::corner_vectors::Corners;
use tri_exact::products::{difference, height, is_low, normal_to, square};
use tri_exact::{Normal, V3};

/// The plane of a triangle: two edges, their vector product and its square.
#[derive(Clone, Copy)]
pub struct Plane {
    pub edge: V3,
    pub side: V3,
    pub normal: Normal,
    pub square: i128,
}

/// The heights of three corners over a plane, each times the length of the plane's normal.
#[derive(Clone, Copy)]
pub struct Heights {
    pub a: i128,
    pub b: i128,
    pub c: i128,
}

/// The plane of t.
#[inline(always)]
pub fn plane_of(t: Corners) -> Plane
    requires { InGrid t }
    ensures { IsPlane result (face_of t) }
{
    let edge = difference(t.b, t.a);
    let side = difference(t.c, t.a);
    let normal = normal_to(edge, side);
    Plane {
        edge,
        side,
        normal,
        square: square(normal),
    }
}

/// The heights of the corners of s over the plane of t.
#[inline(always)]
pub fn heights_over(plane: Plane, t: Corners, s: Corners) -> Heights
    requires plane_is { IsPlane plane (face_of t) }
    requires t_in { InGrid t }
    requires s_in { InGrid s }
    ensures over { IsOver result (face_of t) (face_of s) }
    ensures tall { IsTall result }
{
    let a = difference(s.a, t.a);
    let b = difference(s.b, t.a);
    let c = difference(s.c, t.a);
    Heights {
        a: height(a, plane.normal),
        b: height(b, plane.normal),
        c: height(c, plane.normal),
    }
}

/// The lesser of two heights.
#[inline(always)]
pub fn lesser(a: i128, b: i128) -> i128
    requires a_in { unsigned_abs a ≤ height_limit }
    requires b_in { unsigned_abs b ≤ height_limit }
    ensures a { result ≤ℤ a }
    ensures b { result ≤ℤ b }
    ensures small { unsigned_abs result ≤ height_limit }
{
    if a <= b { a } else { b }
}

/// Whether three heights are above 0 and none of them is low; a `false` says nothing.
#[inline(always)]
fn is_clear(a: i128, b: i128, c: i128, square: i128, d: u32) -> bool
    requires a_in { unsigned_abs a ≤ height_limit }
    requires b_in { unsigned_abs b ≤ height_limit }
    requires c_in { unsigned_abs c ≤ height_limit }
    requires square_in { unsigned_abs square ≤ square_limit }
    requires d_in { d ≤ distance_limit }
    ensures { IsTrue result → Clear a b c square d }
{
    let lower = lesser(a, b);
    let least = lesser(lower, c);
    if least <= 0 {
        return false;
    }
    if is_low(least, square, d) {
        return false;
    }
    true
}

/// Whether three corners are on one side of a plane, and none of them is low; a `false` says nothing.
#[inline(always)]
pub fn is_beyond(plane: Plane, over: Heights, d: u32) -> bool
    requires square_in { unsigned_abs plane.square ≤ square_limit }
    requires tall { IsTall over }
    requires d_in { d ≤ distance_limit }
    ensures { IsTrue result → IsClear over.a over.b over.c plane.square d }
{
    if is_clear(over.a, over.b, over.c, plane.square, d) {
        return true;
    }
    let a = 0 - over.a;
    let b = 0 - over.b;
    let c = 0 - over.c;
    is_clear(a, b, c, plane.square, d)
}
