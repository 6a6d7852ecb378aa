//! Whether a point or a segment comes within a distance of a segment.
// Points and edges, and two edges.
ghost use Rattle.std.specs.Prelude.{ℕ, ◌≡◌, ◌≤◌, ℤ, pos, ◌*ℤ◌, ◌↔◌, unsigned_abs, IsTrue};
ghost use Rattle.tri_exact.specs.ProductLimits.{product_limit, distance_limit};
ghost use Rattle.exact_arith.specs.Space.{dot_of};
ghost use Rattle.tri_exact.specs.GridVectors.{at, IsPoint};
ghost use Rattle.tri_exact.specs.Within.{PointEdgeWithin, EdgesWithin};
ghost use Rattle.tri_exact.specs.Edges.{Beside, Crosses, LinesClose};

use crate::V3;
use crate::products::{difference, height, is_low, minor, normal_to, scalar};

/// Whether a point is over the inside of an edge and at most d from it, by the edge's square, the square of
/// the way from its start to the point, and the product of the two.
#[inline(always)]
pub fn is_beside(length: i64, gap: i64, share: i64, d: u32) -> bool
    requires length_in { unsigned_abs length ≤ product_limit }
    requires gap_in { unsigned_abs gap ≤ product_limit }
    requires share_in { unsigned_abs share ≤ product_limit }
    requires d_in { d ≤ distance_limit }
    ensures { IsTrue result ↔ Beside length gap share (pos d *ℤ pos d) }
{
    if share <= 0 {
        return false;
    }
    if length <= share {
        return false;
    }
    let bound = d as i64 * d as i64;
    minor(length, gap, share, share) <= bound as i128 * length as i128
}

/// Whether the point p is at most d from the closed segment ab.
pub fn point_edge_within(p: V3, a: V3, b: V3, d: u32) -> bool
    requires p_in { IsPoint p }
    requires a_in { IsPoint a }
    requires b_in { IsPoint b }
    requires d_in { d ≤ distance_limit }
    ensures { IsTrue result ↔ PointEdgeWithin (at p) (at a) (at b) d }
{
    let edge = difference(b, a);
    let way = difference(p, a);
    let share = scalar(way, edge);
    let length = scalar(edge, edge);
    let gap = scalar(way, way);
    let bound = d as i64 * d as i64;
    if share <= 0 {
        return gap <= bound;
    }
    if length <= share {
        return gap - 2 * share + length <= bound;
    }
    is_beside(length, gap, share, d)
}

/// Whether the least distance of two lines that aren't parallel lies between the ends, and is at most d: by
/// their directions and the way between their starts, and the products of these.
#[inline(always)]
pub fn is_crossing(
    edge: V3,
    side: V3,
    way: V3,
    length: i64,
    span: i64,
    share: i64,
    part: i64,
    d: u32,
) -> bool
    requires length_is { length ≡ dot_of (at edge) (at edge) }
    requires span_is { span ≡ dot_of (at side) (at side) }
    requires share_is { share ≡ dot_of (at way) (at edge) }
    requires part_is { part ≡ dot_of (at way) (at side) }
    requires length_in { unsigned_abs length ≤ product_limit }
    requires span_in { unsigned_abs span ≤ product_limit }
    requires share_in { unsigned_abs share ≤ product_limit }
    requires part_in { unsigned_abs part ≤ product_limit }
    requires d_in { d ≤ distance_limit }
    ensures { IsTrue result ↔ Crosses (at edge) (at side) (at way) (pos d *ℤ pos d) }
{
    let slant = scalar(edge, side);
    let square = minor(length, span, slant, slant);
    if square <= 0 {
        return false;
    }
    let along = minor(share, span, part, slant);
    if along < 0 {
        return false;
    }
    if square < along {
        return false;
    }
    let across = minor(part, length, share, slant);
    if across > 0 {
        return false;
    }
    if square + across < 0 {
        return false;
    }
    is_low(height(way, normal_to(edge, side)), square, d)
}

/// Whether the least distance of the lines ab and pq, if they aren't parallel, lies between the ends and is at most d.
fn lines_within(a: V3, b: V3, p: V3, q: V3, d: u32) -> bool
    requires a_in { IsPoint a }
    requires b_in { IsPoint b }
    requires p_in { IsPoint p }
    requires q_in { IsPoint q }
    requires d_in { d ≤ distance_limit }
    ensures { IsTrue result ↔ LinesClose (at a) (at b) (at p) (at q) (pos d *ℤ pos d) }
{
    let edge = difference(b, a);
    let side = difference(q, p);
    let way = difference(p, a);
    let length = scalar(edge, edge);
    let span = scalar(side, side);
    let share = scalar(way, edge);
    let part = scalar(way, side);
    is_crossing(edge, side, way, length, span, share, part, d)
}

/// Whether the closed segments ab and pq come within d.
pub fn edge_edge_within(a: V3, b: V3, p: V3, q: V3, d: u32) -> bool
    requires a_in { IsPoint a }
    requires b_in { IsPoint b }
    requires p_in { IsPoint p }
    requires q_in { IsPoint q }
    requires d_in { d ≤ distance_limit }
    ensures { IsTrue result ↔ EdgesWithin (at a) (at b) (at p) (at q) d }
{
    if point_edge_within(a, p, q, d) {
        return true;
    }
    if point_edge_within(b, p, q, d) {
        return true;
    }
    if point_edge_within(p, a, b, d) {
        return true;
    }
    if point_edge_within(q, a, b, d) {
        return true;
    }
    lines_within(a, b, p, q, d)
}
