//! The inner loops with their places, each gone round against the outer one.
ghost use Rattle.std.specs.Prelude.{◌≡◌, ◌≤◌, ◌<◌, ◌+◌, pos, int_lt, length, map, All, IfOk};
ghost use Rattle.bim_model.specs.Points.{IsGridPoint};
ghost use Rattle.ear_cut.specs.Corners.{corners_from};
ghost use Rattle.void_bridge.specs.HoleLoops.{loops_from, corner_count, area_of, backwards, oriented, AreLoops};

use bim_model::Point;
use ear_cut::{Corner, View, component, normal_of};
use std::alloc::{AllocError, Global};

/// The most corners that the loops of a face may have in all.
pub const MOST_LOOP_CORNERS: usize = 32_768;

/// Points with their places, counted from `first` on.
fn corners_after(alloc: Global, first: usize, points: &[Point]) -> Result<Vec<Corner>, AllocError>
    requires { first + length points.now ≤ MOST_LOOP_CORNERS }
    ensures { IfOk result (λ made. made.items ≡ corners_from first points.now) }
{
    let mut corners = Vec::with_capacity(alloc, points.len())?;
    for (i, point) in points.iter().enumerate() {
        corners.push(Corner {
            place: (first + i) as u32,
            point: *point,
        })?;
    }
    Ok(corners)
}

/// Whether the loop's area in the view is above zero: it turns as the outer one does.
fn turns_as_outer(view: View, points: &[Point]) -> bool
    requires some { 0 < length points.now }
    requires few { length points.now ≤ MOST_LOOP_CORNERS }
    requires in_grid { All IsGridPoint points.now }
    ensures { result ≡ int_lt (pos 0) (area_of view points.now) }
{
    let area = component(view.axis, normal_of(points));
    if view.reversed { area < 0 } else { 0 < area }
}

/// Turns the loop round: it is gone round the other way from the same first corner.
fn turn_round(corners: &mut [Corner])
    requires { 0 < length corners.old }
    ensures { corners.new ≡ backwards corners.old }
{
    corners[1..].reverse();
}

/// An inner loop as it is joined, with places from `first` on.
fn hole_of(
    alloc: Global,
    view: View,
    first: usize,
    points: &[Point],
) -> Result<Vec<Corner>, AllocError>
    requires some { 0 < length points.now }
    requires few { first + length points.now ≤ MOST_LOOP_CORNERS }
    requires in_grid { All IsGridPoint points.now }
    ensures { IfOk result (λ made. made.items ≡ oriented view (corners_from first points.now)) }
{
    let mut corners = corners_after(alloc, first, points)?;
    if !turns_as_outer(view, points) {
        return Ok(corners);
    }
    turn_round(&mut corners);
    Ok(corners)
}

/// The inner loops as they are joined, with places from `first` on.
pub fn holes_of(
    alloc: Global,
    view: View,
    first: usize,
    inner: &[Vec<Point>],
) -> Result<Vec<Vec<Corner>>, AllocError>
    requires few { first + corner_count (map (λ loop. loop.items) inner.now) ≤ MOST_LOOP_CORNERS }
    requires loops { AreLoops (map (λ loop. loop.items) inner.now) }
    ensures { IfOk result (λ made. map (λ hole. hole.items) made.items
        ≡ map (oriented view) (loops_from first (map (λ loop. loop.items) inner.now))) }
{
    let mut holes = Vec::with_capacity(alloc, inner.len())?;
    let mut next = first;
    for points in inner {
        holes.push(hole_of(alloc, view, next, points)?)?;
        next += points.len();
    }
    Ok(holes)
}
