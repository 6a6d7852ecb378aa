//! Whether a point comes within a distance of a triangle's inside.
// Points and triangles.
ghost use Rattle.std.specs.Prelude.{◌≡◌, ◌≤◌, ◌↔◌, unsigned_abs, IsTrue};
ghost use Rattle.tri_exact.specs.ProductLimits.{square_limit, distance_limit};
ghost use Rattle.tri_exact.specs.GridVectors.{at, face_at, IsPoint};
ghost use Rattle.tri_exact.specs.Within.{HasArea, FootWithin};
ghost use Rattle.tri_exact.specs.Foot.{square_of, Inside};

use crate::V3;
use crate::products::{difference, height, is_low, minor, normal_to, scalar, square};

/// Whether the foot of a point lies in a triangle that has an area: by its edges from one corner, the way
/// from that corner to the point, and the square of the edges' vector product.
#[inline(always)]
pub fn is_inside(edge: V3, side: V3, way: V3, square: i128) -> bool
    requires square_is { square ≡ square_of (at edge) (at side) }
    requires square_in { unsigned_abs square ≤ square_limit }
    ensures { IsTrue result ↔ Inside (at edge) (at side) (at way) }
{
    let length = scalar(edge, edge);
    let span = scalar(side, side);
    let slant = scalar(edge, side);
    let share = scalar(way, edge);
    let part = scalar(way, side);
    let along = minor(share, span, part, slant);
    if along < 0 {
        return false;
    }
    let across = minor(part, length, share, slant);
    if across < 0 {
        return false;
    }
    along + across <= square
}

/// Whether the foot of p lies in the closed triangle abc, whose area is above zero, and is at most d from p.
pub fn point_face_within(p: V3, a: V3, b: V3, c: V3, d: u32) -> bool
    requires p_in { IsPoint p }
    requires a_in { IsPoint a }
    requires b_in { IsPoint b }
    requires c_in { IsPoint c }
    requires area { HasArea (face_at a b c) }
    requires d_in { d ≤ distance_limit }
    ensures { IsTrue result ↔ FootWithin (at p) (face_at a b c) d }
{
    let edge = difference(b, a);
    let side = difference(c, a);
    let way = difference(p, a);
    let normal = normal_to(edge, side);
    let square = square(normal);
    if is_low(height(way, normal), square, d) {
        return is_inside(edge, side, way, square);
    }
    false
}
