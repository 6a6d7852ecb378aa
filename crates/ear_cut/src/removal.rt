//! Ears cut off one by one, until no polygon is left or none can be cut.
// Polygons cut into triangles by the removal of their corners.
ghost use Rattle.std.specs.Prelude.{◌≡◌, ◌≤◌, ◌<◌, ◌+◌, ◌-◌, length, All, IfOk, IfErr, MatchOption, None, Some};
ghost use Rattle.bim_model.specs.Points.{IsGridPoint};
ghost use Rattle.bim_model.specs.Polygons.{normal_of};
ghost use Rattle.ear_cut.specs.OutlineLimits.{most_corners};
ghost use Rattle.ear_cut.specs.Corners.{AreInGrid};
ghost use Rattle.ear_cut.specs.Removal.{is_turned_over, cut_by, cut_of};
ghost use Rattle.ear_cut.specs.Areas.{area_of_ears};

use crate::corner_frames::frames_of;
use crate::corner_notes::{notes_of, take_next};
use crate::corners::{Angle, Corner, angle_of, corners_of, turn_at};
use crate::ears::{Ear, ear_of};
use crate::fans::fan_seen;
use crate::normals::normal_of;
use crate::polygon_view::{View, view_of};
use bim_model::Point;
use std::alloc::{AllocError, Global};

/// The greatest number of corners of a polygon that is cut.
pub const MOST_CORNERS: usize = 65_536;

/// Why a polygon was not cut.
#[derive(Clone, Copy, Debug, PartialEq, Eq, Drop)]
pub enum CutFault {
    /// No corner may be removed, or the last triangle is turned over.
    Stuck,
    /// Memory was refused.
    Memory,
}

/// Whether the area at a corner is below zero in the view.
fn is_turned_over(view: Option<View>, angle: Angle) -> bool
    ensures { result ≡ is_turned_over view angle }
{
    match (view, angle) {
        (Some(_), Angle::Reflex) => true,
        _ => false,
    }
}

/// The triangles of the corners, in the order of their removal; none where the rule is stuck.
fn clipped(
    alloc: Global,
    view: Option<View>,
    mut left: Vec<Corner>,
) -> Result<Option<Vec<Ear>>, AllocError>
    requires many { 2 < length left.items }
    requires left_in { AreInGrid left.items }
    ensures { IfOk result (λ found. MatchOption found (cut_by view (length left.items - 3) left.items ≡ None)
        (λ ears. cut_by view (length left.items - 3) left.items ≡ Some ears.items)) }
{
    let mut notes = notes_of(alloc, view, &left)?;
    let mut frames = frames_of(alloc, view, &left)?;
    let n = left.len();
    let mut ears = Vec::with_capacity(alloc, n - 2)?;
    for step in 3..n {
        match take_next(view, &mut left, &mut frames, &mut notes) {
            None => return Ok(None),
            Some(t) => ears.push(ear_of(t))?,
        }
    }
    let last = turn_at(&left, 1);
    if is_turned_over(view, angle_of(view, last)) {
        return Ok(None);
    }
    ears.push(ear_of(last))?;
    Ok(Some(ears))
}

/// The triangles of a polygon; none where the rule is stuck.
fn triangles_of(alloc: Global, corners: &[Point]) -> Result<Option<Vec<Ear>>, AllocError>
    requires three { 3 ≤ length corners.now }
    requires few { length corners.now ≤ most_corners }
    requires in_grid { All IsGridPoint corners.now }
    ensures { IfOk result (λ found. MatchOption found (cut_of corners.now ≡ None)
        (λ ears. cut_of corners.now ≡ Some ears.items)) }
{
    let view = view_of(normal_of(corners));
    let left = corners_of(alloc, corners)?;
    match fan_seen(alloc, view, &left)? {
        Some(ears) => Ok(Some(ears)),
        None => clipped(alloc, view, left),
    }
}

/// The triangles of a closed polygon of three or more corners, at most 65,536, each coordinate within 8,000,000
/// grid numbers. The list and its order are fixed: the corners are removed one by one (ear clipping), in the view
/// along the greatest component of the polygon's normal. A polygon of n corners gives n - 2 triangles.
///
/// `CutFault::Stuck` comes exactly where no corner may be removed or the last triangle is turned over, as in a
/// polygon that crosses itself; `CutFault::Memory` where memory was refused.
pub fn cut(alloc: Global, corners: &[Point]) -> Result<Vec<Ear>, CutFault>
    requires three { 3 ≤ length corners.now }
    requires few { length corners.now ≤ most_corners }
    requires in_grid { All IsGridPoint corners.now }
    ensures triangles { IfOk result (λ ears. cut_of corners.now ≡ Some ears.items) }
    ensures stuck { IfErr result (λ fault. fault ≡ CutFault.Stuck → cut_of corners.now ≡ None) }
    ensures count { IfOk result (λ ears. length ears.items + 2 ≡ length corners.now) }
    ensures areas { IfOk result (λ ears. area_of_ears corners.now ears.items ≡ normal_of corners.now) }
{
    match triangles_of(alloc, corners) {
        Ok(Some(ears)) => Ok(ears),
        Ok(None) => Err(CutFault::Stuck),
        Err(_) => Err(CutFault::Memory),
    }
}
