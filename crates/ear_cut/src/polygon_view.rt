//! A polygon seen along an axis: points, areas, and whether a triangle holds a point.
// The view in which a polygon is cut.
ghost use Rattle.std.specs.Prelude.{◌≡◌, ◌≤◌, pos, int_lt, unsigned_abs};
ghost use Rattle.bim_model.specs.Points.{IsGridPoint, cross_limit};
ghost use Rattle.exact_arith.specs.Space.{is_nowhere};
ghost use Rattle.ear_cut.specs.PolygonViews.{axis_of, component, view_of, seen, bend, area, same_spot, is_corner, holds};
ghost use Rattle.ear_cut.specs.Registers.{as_vector, as_spot};

use crate::coordinates::{Flat, Shape};
use crate::normals::Normal;
use bim_model::Point;

/// An axis of space.
#[derive(Clone, Copy)]
pub enum Axis {
    X,
    Y,
    Z,
}

/// A look along an axis, against it or with it.
#[derive(Clone, Copy)]
pub struct View {
    /// The axis that is dropped.
    pub axis: Axis,
    /// Whether the normal's component along it is below zero.
    pub reversed: bool,
}

/// The axis of the greatest component by size, the first on a tie.
fn axis_of(n: Normal) -> Axis
    ensures { result ≡ axis_of (as_vector n) }
{
    let x = n.x.unsigned_abs();
    let y = n.y.unsigned_abs();
    let z = n.z.unsigned_abs();
    if y <= x && z <= x {
        return Axis::X;
    }
    if z <= y { Axis::Y } else { Axis::Z }
}

/// The component along an axis.
pub fn component(axis: Axis, n: Normal) -> i64
    ensures { result ≡ component axis (as_vector n) }
{
    match axis {
        Axis::X => n.x,
        Axis::Y => n.y,
        Axis::Z => n.z,
    }
}

/// Whether the vector is zero.
pub fn is_zero(n: Normal) -> bool
    ensures { result ≡ is_nowhere (as_vector n) }
{
    n.x == 0 && n.y == 0 && n.z == 0
}

/// The view along the normal's greatest component; none where the normal is zero.
pub fn view_of(n: Normal) -> Option<View>
    ensures { result ≡ view_of (as_vector n) }
{
    if is_zero(n) {
        return None;
    }
    let axis = axis_of(n);
    Some(View {
        axis,
        reversed: component(axis, n) < 0,
    })
}

/// A point as the view along an axis shows it.
#[inline(always)]
pub fn seen(axis: Axis, p: Point) -> Flat
    requires { IsGridPoint p }
    ensures { as_spot result ≡ seen axis p }
{
    let (u, v) = match axis {
        Axis::X => (p.y, p.z),
        Axis::Y => (p.z, p.x),
        Axis::Z => (p.x, p.y),
    };
    Flat {
        u: i64::from(u),
        v: i64::from(v),
    }
}

/// The cross product of the steps from a to b and from b to c.
#[inline(always)]
fn bend(a: Flat, b: Flat, c: Flat) -> i64
    ensures value { result ≡ bend (as_spot a) (as_spot b) (as_spot c) }
    ensures small { unsigned_abs result ≤ cross_limit }
{
    (b.u - a.u) * (c.v - b.v) - (b.v - a.v) * (c.u - b.u)
}

/// Twice the area of the triangle abc, above zero where it turns as the whole polygon does.
#[inline(always)]
pub fn area(view: View, a: Flat, b: Flat, c: Flat) -> i64
    ensures { result ≡ area view (as_spot a) (as_spot b) (as_spot c) }
{
    let bend = bend(a, b, c);
    if view.reversed { 0 - bend } else { bend }
}

/// Whether two points are shown at one place.
#[inline(always)]
fn is_same(a: Flat, b: Flat) -> bool
    ensures { result ≡ same_spot (as_spot a) (as_spot b) }
{
    a.u == b.u && a.v == b.v
}

/// Whether an area is below zero: the point is on the outer side of the edge.
#[inline(always)]
fn is_outside(area: i64) -> bool
    ensures { result ≡ int_lt area (pos 0) }
{
    area < 0
}

/// Whether p lies in the closed triangle, whose area is positive, and at none of its corners.
#[inline(always)]
pub fn holds(view: View, t: Shape, p: Flat) -> bool
    ensures { result ≡ holds view (as_spot t.a) (as_spot t.b) (as_spot t.c) (as_spot p) }
{
    if is_outside(area(view, t.a, t.b, p)) {
        return false;
    }
    if is_outside(area(view, t.b, t.c, p)) {
        return false;
    }
    if is_outside(area(view, t.c, t.a, p)) {
        return false;
    }
    !is_corner(t, p)
}

/// Whether p is shown at a corner of the triangle.
#[inline(always)]
fn is_corner(t: Shape, p: Flat) -> bool
    ensures { result ≡ is_corner (as_spot t.a) (as_spot t.b) (as_spot t.c) (as_spot p) }
{
    if is_same(p, t.a) {
        return true;
    }
    if is_same(p, t.b) {
        return true;
    }
    is_same(p, t.c)
}
