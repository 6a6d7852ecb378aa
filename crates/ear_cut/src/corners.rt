//! The corners that are left of a polygon, and the angle at each.
// The corners of a polygon that remain.
ghost use Rattle.std.specs.Prelude.{◌≡◌, ◌≤◌, ◌<◌, length, All, IfOk};
ghost use Rattle.bim_model.specs.Points.{IsGridPoint, step};
ghost use Rattle.exact_arith.specs.Space.{is_nowhere, cross_of};
ghost use Rattle.ear_cut.specs.OutlineLimits.{most_corners};
ghost use Rattle.ear_cut.specs.Corners.{corners_from, previous, next, turn_at, angle_of, by_sign, InGrid};

use crate::normals::{cross, step};
use crate::polygon_view::{View, area, is_zero, seen};
use bim_model::Point;
use std::alloc::{AllocError, Global};

/// A corner of a polygon, with its place in the list.
#[derive(Clone, Copy)]
pub struct Corner {
    pub place: u32,
    pub point: Point,
}

/// A corner between its neighbours.
#[derive(Clone, Copy)]
pub struct Turn {
    pub before: Corner,
    pub corner: Corner,
    pub after: Corner,
}

/// What a polygon does at a corner, by the area of the triangle with its neighbours.
#[derive(Clone, Copy)]
pub enum Angle {
    /// Zero area.
    Straight,
    /// Positive area.
    Convex,
    /// Neither.
    Reflex,
}

/// The corners with their places.
pub fn corners_of(alloc: Global, points: &[Point]) -> Result<Vec<Corner>, AllocError>
    requires { length points.now ≤ most_corners }
    ensures { IfOk result (λ made. made.items ≡ corners_from 0 points.now) }
{
    let mut corners = Vec::with_capacity(alloc, points.len())?;
    for (place, point) in points.iter().enumerate() {
        corners.push(Corner {
            place: place as u32,
            point: *point,
        })?;
    }
    Ok(corners)
}

/// The place before the i-th of n in a closed list.
#[inline(always)]
pub fn previous(n: usize, i: usize) -> usize
    requires { i < n }
    ensures value { result ≡ previous n i }
    ensures within { result < n }
{
    if i == 0 { n - 1 } else { i - 1 }
}

/// The place after the i-th of n in a closed list.
#[inline(always)]
pub fn next(n: usize, i: usize) -> usize
    requires { i < n }
    ensures value { result ≡ next n i }
    ensures within { result < n }
{
    if i + 1 == n { 0 } else { i + 1 }
}

/// The i-th corner between its neighbours.
#[inline(always)]
pub fn turn_at(left: &[Corner], i: usize) -> Turn
    requires { i < length left.now }
    ensures { result ≡ turn_at left.now i }
{
    Turn {
        before: left[previous(left.len(), i)],
        corner: left[i],
        after: left[next(left.len(), i)],
    }
}

/// Whether three points lie on one line.
fn is_line(a: Point, b: Point, c: Point) -> bool
    requires a_in { IsGridPoint a }
    requires b_in { IsGridPoint b }
    requires c_in { IsGridPoint c }
    ensures { result ≡ is_nowhere (cross_of (step a b) (step b c)) }
{
    is_zero(cross(step(a, b), step(b, c)))
}

/// What the polygon does at a corner.
pub fn angle_of(view: Option<View>, t: Turn) -> Angle
    requires { InGrid t }
    ensures { result ≡ angle_of view t }
{
    let (a, b, c) = (t.before.point, t.corner.point, t.after.point);
    match view {
        None => {
            if is_line(a, b, c) {
                Angle::Straight
            } else {
                Angle::Reflex
            }
        }
        Some(view) => by_sign(area(
            view,
            seen(view.axis, a),
            seen(view.axis, b),
            seen(view.axis, c),
        )),
    }
}

/// What a polygon does at a corner of this area.
fn by_sign(area: i64) -> Angle
    ensures { result ≡ by_sign area }
{
    if area == 0 {
        Angle::Straight
    } else if area < 0 {
        Angle::Reflex
    } else {
        Angle::Convex
    }
}
