//! Whether a triangle's corners come near the face of another.
// A triangle with an area, and the corners and edges of another.
ghost use Rattle.std.specs.Prelude.{◌≡◌, ◌≤◌, ◌↔◌, unsigned_abs, IsTrue};
ghost use Rattle.tri_exact.specs.ProductLimits.{height_limit, distance_limit};
ghost use Rattle.exact_arith.specs.Space.{dot_of, minus, normal};
ghost use Rattle.tri_exact.specs.GridVectors.{at, IsPoint};
ghost use Rattle.tri_exact.specs.Within.{HasArea, FootWithin};
ghost use Rattle.clearance.specs.inner.TriangleCorners.{face_of, InGrid};
ghost use Rattle.clearance.specs.inner.Planes.{IsPlane, IsOver, IsTall, SideNear};

use crate::corner_vectors::Corners;
use crate::planes::{Heights, Plane};
use tri_exact::products::{difference, is_low};
use tri_exact::{V3, edge_pierces, is_inside};

/// Whether the foot of p on the plane of t lies in t, and is at most d from p, whose height is known.
#[inline(always)]
fn foot_near(p: V3, t: Corners, plane: Plane, height: i128, d: u32) -> bool
    requires p_in { IsPoint p }
    requires t_in { InGrid t }
    requires area { HasArea (face_of t) }
    requires plane_is { IsPlane plane (face_of t) }
    requires height_is { height ≡ dot_of (minus (at p) (at t.a)) (normal (face_of t)) }
    requires height_in { unsigned_abs height ≤ height_limit }
    requires d_in { d ≤ distance_limit }
    ensures { IsTrue result ↔ FootWithin (at p) (face_of t) d }
{
    if is_low(height, plane.square, d) {
        return is_inside(plane.edge, plane.side, difference(p, t.a), plane.square);
    }
    false
}

/// Whether t has an area, and a corner of s is over it and at most d from it, or an edge of s goes through it.
pub fn side_near(t: Corners, plane: Plane, s: Corners, over: Heights, d: u32) -> bool
    requires t_in { InGrid t }
    requires s_in { InGrid s }
    requires plane_is { IsPlane plane (face_of t) }
    requires over_is { IsOver over (face_of t) (face_of s) }
    requires tall { IsTall over }
    requires d_in { d ≤ distance_limit }
    ensures { IsTrue result ↔ (HasArea (face_of t) × SideNear (face_of t) (face_of s) d) }
{
    if plane.square <= 0 {
        return false;
    }
    if edge_pierces(s.a, s.b, t.a, t.b, t.c, over.a, over.b) {
        return true;
    }
    if edge_pierces(s.b, s.c, t.a, t.b, t.c, over.b, over.c) {
        return true;
    }
    if edge_pierces(s.c, s.a, t.a, t.b, t.c, over.c, over.a) {
        return true;
    }
    if foot_near(s.a, t, plane, over.a, d) {
        return true;
    }
    if foot_near(s.b, t, plane, over.b, d) {
        return true;
    }
    foot_near(s.c, t, plane, over.c, d)
}
