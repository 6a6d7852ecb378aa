//! Whether an edge of one triangle comes near another's edges.
// The edges of two triangles: for each pair of corners the edges that start there.
ghost use Rattle.std.specs.Prelude.{◌≡◌, ◌≤◌, ◌↔◌, unsigned_abs, IsTrue};
ghost use Rattle.tri_exact.specs.ProductLimits.{product_limit, distance_limit};
ghost use Rattle.exact_arith.specs.Space.{dot_of, minus};
ghost use Rattle.tri_exact.specs.GridVectors.{at, IsPoint};
ghost use Rattle.clearance.specs.inner.TriangleCorners.{face_of, InGrid};
ghost use Rattle.clearance.specs.inner.EdgePairs.{CornerNear, RowNear, EdgesNear};

use crate::corner_vectors::Corners;
use tri_exact::products::{difference, scalar};
use tri_exact::{V3, is_beside, is_crossing};

/// Whether the edges ab and pq are near at their starts, at one's start and the other's inside, or inside of
/// both. The ends are starts of other edges.
#[inline(always)]
fn corner_near(a: V3, b: V3, edge: V3, length: i64, p: V3, q: V3, d: u32) -> bool
    requires a_in { IsPoint a }
    requires b_in { IsPoint b }
    requires edge_is { at edge ≡ minus (at b) (at a) }
    requires length_is { length ≡ dot_of (at edge) (at edge) }
    requires length_in { unsigned_abs length ≤ product_limit }
    requires p_in { IsPoint p }
    requires q_in { IsPoint q }
    requires d_in { d ≤ distance_limit }
    ensures { IsTrue result ↔ CornerNear (at a) (at b) (at p) (at q) d }
{
    let way = difference(p, a);
    let gap = scalar(way, way);
    if gap <= d as i64 * d as i64 {
        return true;
    }
    let side = difference(q, p);
    let span = scalar(side, side);
    let part = scalar(way, side);
    let back = 0 - part;
    if is_beside(span, gap, back, d) {
        return true;
    }
    let share = scalar(way, edge);
    if is_beside(length, gap, share, d) {
        return true;
    }
    is_crossing(edge, side, way, length, span, share, part, d)
}

/// Whether the edge ab is near to one of s, in the sense of `corner_near`.
#[inline(always)]
fn row_near(a: V3, b: V3, s: Corners, d: u32) -> bool
    requires a_in { IsPoint a }
    requires b_in { IsPoint b }
    requires s_in { InGrid s }
    requires d_in { d ≤ distance_limit }
    ensures { IsTrue result ↔ RowNear (at a) (at b) (face_of s) d }
{
    let edge = difference(b, a);
    let length = scalar(edge, edge);
    if corner_near(a, b, edge, length, s.a, s.b, d) {
        return true;
    }
    if corner_near(a, b, edge, length, s.b, s.c, d) {
        return true;
    }
    corner_near(a, b, edge, length, s.c, s.a, d)
}

/// Whether an edge of t and one of s come within d.
pub fn edges_near(t: Corners, s: Corners, d: u32) -> bool
    requires t_in { InGrid t }
    requires s_in { InGrid s }
    requires d_in { d ≤ distance_limit }
    ensures { IsTrue result ↔ EdgesNear (face_of t) (face_of s) d }
{
    if row_near(t.a, t.b, s, d) {
        return true;
    }
    if row_near(t.b, t.c, s, d) {
        return true;
    }
    row_near(t.c, t.a, s, d)
}
