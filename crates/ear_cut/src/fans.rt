//! Polygons whose triangles all share the first corner, cut at once.
// Convex polygons: all triangles but the last stand at the last corner.
ghost use Rattle.std.specs.Prelude.{◌≡◌, ◌<◌, ◌+◌, ◌-◌, length, IfOk, IfSome, Some};
ghost use Rattle.std.specs.Bool.{OnTrue};
ghost use Rattle.ear_cut.specs.Corners.{AreInGrid};
ghost use Rattle.ear_cut.specs.Removal.{cut_by};
ghost use Rattle.ear_cut.specs.Registers.{as_spot};
ghost use Rattle.ear_cut.specs.inner.Fans.{spot_at, area_at, IsFanAt, IsFan};

use crate::coordinates::Flat;
use crate::corners::{Corner, Turn};
use crate::ears::{Ear, ear_of};
use crate::polygon_view::{View, area, seen};
use std::alloc::{AllocError, Global};

/// The i-th corner as the view shows it.
#[inline(always)]
fn spot_at(view: View, left: &[Corner], i: usize) -> Flat
    requires i_in { i < length left.now }
    requires left_in { AreInGrid left.now }
    ensures { as_spot result ≡ spot_at view left.now i }
{
    seen(view.axis, left[i].point)
}

/// Twice the area of the triangle of three corners.
#[inline(always)]
fn area_at(view: View, left: &[Corner], i: usize, j: usize, k: usize) -> i64
    requires i_in { i < length left.now }
    requires j_in { j < length left.now }
    requires k_in { k < length left.now }
    requires left_in { AreInGrid left.now }
    ensures { result ≡ area_at view left.now i j k }
{
    area(
        view,
        spot_at(view, left, i),
        spot_at(view, left, j),
        spot_at(view, left, k),
    )
}

/// Whether a corner is after the one before it round the last corner, less than half a turn after the first, and
/// convex; a `false` says nothing.
fn is_fan_at(view: View, left: &[Corner], i: usize) -> bool
    requires some { 0 < i }
    requires i_in { i + 1 < length left.now }
    requires left_in { AreInGrid left.now }
    ensures { OnTrue result (IsFanAt view left.now i) }
{
    let last = left.len() - 1;
    if area_at(view, left, last, i - 1, i) <= 0 {
        return false;
    }
    if area_at(view, left, last, 0, i) <= 0 {
        return false;
    }
    if area_at(view, left, i - 1, i, i + 1) <= 0 {
        return false;
    }
    true
}

/// Whether all corners lie round the last one, in their order; a `false` says nothing.
fn is_fan(view: View, left: &[Corner]) -> bool
    requires many { 2 < length left.now }
    requires left_in { AreInGrid left.now }
    ensures { OnTrue result (IsFan view left.now) }
{
    for i in 1..left.len() - 1 {
        if !is_fan_at(view, left, i) {
            return false;
        }
    }
    true
}

/// The triangles of a convex polygon; a `None` says nothing.
fn fan_of(alloc: Global, view: View, left: &[Corner]) -> Result<Option<Vec<Ear>>, AllocError>
    requires many { 2 < length left.now }
    requires left_in { AreInGrid left.now }
    ensures { IfOk result (λ found. IfSome found
        (λ ears. cut_by (Some view) (length left.now - 3) left.now ≡ Some ears.items)) }
{
    if !is_fan(view, left) {
        return Ok(None);
    }
    let last = left.len() - 1;
    let mut ears = Vec::with_capacity(alloc, last - 1)?;
    for i in 0..last - 2 {
        ears.push(ear_of(Turn {
            before: left[last],
            corner: left[i],
            after: left[i + 1],
        }))?;
    }
    ears.push(ear_of(Turn {
        before: left[last - 2],
        corner: left[last - 1],
        after: left[last],
    }))?;
    Ok(Some(ears))
}

/// The triangles of a polygon that the view shows convex; a `None` says nothing.
pub fn fan_seen(
    alloc: Global,
    view: Option<View>,
    left: &[Corner],
) -> Result<Option<Vec<Ear>>, AllocError>
    requires many { 2 < length left.now }
    requires left_in { AreInGrid left.now }
    ensures { IfOk result (λ found. IfSome found
        (λ ears. cut_by view (length left.now - 3) left.now ≡ Some ears.items)) }
{
    match view {
        None => Ok(None),
        Some(view) => fan_of(alloc, view, left),
    }
}
