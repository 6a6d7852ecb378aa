//! Whether two segments of a view meet in a point that is not an end of both.
ghost use Rattle.std.specs.Prelude.{◌≡◌};
ghost use Rattle.ear_cut.specs.PolygonViews.{area, same_spot};
ghost use Rattle.ear_cut.specs.Registers.{as_spot};
ghost use Rattle.void_bridge.specs.inner.Barriers.{as_segment};
ghost use Rattle.void_bridge.specs.LoopEdges.{is_between, is_end, is_on, is_inside, are_opposite, cross, collide};

use crate::barriers::Edge;
use ear_cut::{Flat, View, area};

/// Whether two spots are one.
#[inline(always)]
pub fn is_same_spot(a: Flat, b: Flat) -> bool
    ensures { result ≡ same_spot (as_spot a) (as_spot b) }
{
    a.u == b.u && a.v == b.v
}

/// Whether p's first coordinate lies between those of the edge's ends or is one of them.
#[inline(always)]
fn spans_u(edge: Edge, p: Flat) -> bool
    ensures { result ≡ is_between edge.a.u edge.b.u p.u }
{
    edge.a.u <= p.u && p.u <= edge.b.u || (edge.b.u <= p.u && p.u <= edge.a.u)
}

/// Whether p's second coordinate lies between those of the edge's ends or is one of them.
#[inline(always)]
fn spans_v(edge: Edge, p: Flat) -> bool
    ensures { result ≡ is_between edge.a.v edge.b.v p.v }
{
    edge.a.v <= p.v && p.v <= edge.b.v || (edge.b.v <= p.v && p.v <= edge.a.v)
}

/// Whether p is an end of the edge.
#[inline(always)]
fn is_end(edge: Edge, p: Flat) -> bool
    ensures { result ≡ is_end (as_segment edge) (as_spot p) }
{
    is_same_spot(p, edge.a) || is_same_spot(p, edge.b)
}

/// Whether p lies on the edge.
#[inline(always)]
fn is_on(view: View, edge: Edge, p: Flat) -> bool
    ensures { result ≡ is_on view (as_segment edge) (as_spot p) }
{
    area(view, edge.a, edge.b, p) == 0 && (spans_u(edge, p) && spans_v(edge, p))
}

/// Whether p lies on the edge and is no end of it.
#[inline(always)]
fn is_inside(view: View, edge: Edge, p: Flat) -> bool
    ensures { result ≡ is_inside view (as_segment edge) (as_spot p) }
{
    is_on(view, edge, p) && !is_end(edge, p)
}

/// Whether one number is below zero and the other above.
#[inline(always)]
fn are_opposite(x: i64, y: i64) -> bool
    ensures { result ≡ are_opposite x y }
{
    x < 0 && 0 < y || (y < 0 && 0 < x)
}

/// Whether p and q lie on both sides of the edge.
#[inline(always)]
fn divides(view: View, edge: Edge, p: Flat, q: Flat) -> bool
    ensures { result ≡ are_opposite (area view (as_spot edge.a) (as_spot edge.b) (as_spot p))
        (area view (as_spot edge.a) (as_spot edge.b) (as_spot q)) }
{
    are_opposite(area(view, edge.a, edge.b, p), area(view, edge.a, edge.b, q))
}

/// Whether the ends of each edge lie on both sides of the other.
#[inline(always)]
fn cross(view: View, s: Edge, t: Edge) -> bool
    ensures { result ≡ cross view (as_segment s) (as_segment t) }
{
    divides(view, s, t.a, t.b) && divides(view, t, s.a, s.b)
}

/// Whether two edges meet in a point that is not an end of both.
#[inline(always)]
pub fn collide(view: View, s: Edge, t: Edge) -> bool
    ensures { result ≡ collide view (as_segment s) (as_segment t) }
{
    if cross(view, s, t) {
        return true;
    }
    if is_inside(view, t, s.a) {
        return true;
    }
    if is_inside(view, t, s.b) {
        return true;
    }
    if is_inside(view, s, t.a) {
        return true;
    }
    if is_inside(view, s, t.b) {
        return true;
    }
    is_end(t, s.a) && is_end(t, s.b)
}
