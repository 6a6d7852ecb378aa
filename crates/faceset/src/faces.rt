//! Faces cut into triangles.
ghost use Rattle.std.specs.Prelude.{◌≡◌, ◌<◌, length, map, All, Any, IfOk, MatchOption, option_copied};
ghost use Rattle.std.specs.List.{AllZip};
ghost use Rattle.bim_model.specs.Points.{IsGridPoint};
ghost use Rattle.p21_values.specs.Attributes.{items_in};
ghost use Rattle.void_bridge.specs.HoleLoops.{IsLoop, AreLoops};
ghost use Rattle.faceset.specs.FacePolygons.{face_points};
ghost use Rattle.faceset.specs.FaceSets.{AreCorners, triangle_of, IsMisnamed};
ghost use Rattle.faceset.specs.inner.Cuts.{IsOutcome, IsCounted, IsUnread, AreRead};

use crate::loop_corners::has_many_corners;
use crate::naming::corner;
use crate::polygons::{LoopsCut, add_loops, cut_loops, point_at};
use crate::sets::{outline, spelled_loops};
use bim_model::{Point, Triangle};
use ear_cut::Ear;
use p21_table::{InstanceRef, ValueRef, Values};
use std::alloc::{AllocError, Global};

/// What comes of a face.
#[derive(Drop)]
pub enum Outcome {
    /// It is cut into these triangles.
    Cut(Vec<Triangle>),
    /// Its polygon can't be cut.
    Stuck,
    /// Its loops can't be joined.
    Unbridged,
    /// A loop has too few corners or all together too many, or an index names no point. An earlier check names its fault.
    Unready,
}

/// The points of the loops of a face.
#[derive(Drop)]
pub struct FaceLoops {
    pub outer: Vec<Point>,
    pub inner: Vec<Vec<Point>>,
}

/// The corners that indexes name, in their order. None where one names no point.
fn corners_of(
    alloc: Global,
    numbers: Option<&[ValueRef<'_>]>,
    indexes: &Values<'_>,
    points: &[Point],
) -> Result<Option<Vec<Point>>, AllocError>
    requires { All IsGridPoint points.now }
    ensures { IfOk result (λ found. MatchOption found
        (Any (IsMisnamed (option_copied numbers.entry) (length points.now)) indexes.now)
        (λ made. AreCorners (option_copied numbers.entry) points.now indexes.now made.items
        × All IsGridPoint made.items)) }
{
    let mut made = Vec::with_capacity(alloc, indexes.len())?;
    for value in indexes.iter() {
        match corner(&value, numbers, points) {
            Some(point) => made.push(point)?,
            None => return Ok(None),
        }
    }
    Ok(Some(made))
}

/// The corners of a loop. None where it has fewer than three, or an index names no point.
fn loop_of(
    alloc: Global,
    numbers: Option<&[ValueRef<'_>]>,
    indexes: &Values<'_>,
    points: &[Point],
) -> Result<Option<Vec<Point>>, AllocError>
    requires { All IsGridPoint points.now }
    ensures { IfOk result (λ found. MatchOption found
        (IsUnread (option_copied numbers.entry) points.now indexes.now)
        (λ made. AreCorners (option_copied numbers.entry) points.now indexes.now made.items
        × IsLoop made.items)) }
{
    if indexes.len() < 3 {
        return Ok(None);
    }
    corners_of(alloc, numbers, indexes, points)
}

/// The corners of loops. None where one has fewer than three, or an index names no point.
fn loops_among(
    alloc: Global,
    numbers: Option<&[ValueRef<'_>]>,
    rows: &Values<'_>,
    points: &[Point],
) -> Result<Option<Vec<Vec<Point>>>, AllocError>
    requires { All IsGridPoint points.now }
    ensures { IfOk result (λ found. MatchOption found
        (Any (IsUnread (option_copied numbers.entry) points.now) (map items_in rows.now))
        (λ made. AllZip (AreCorners (option_copied numbers.entry) points.now) (map items_in rows.now)
        (map (λ ring. ring.items) made.items) × AreLoops (map (λ ring. ring.items) made.items))) }
{
    let mut made = Vec::new(alloc);
    for row in rows.iter() {
        match loop_of(alloc, numbers, &row.items_in(), points)? {
            Some(corners) => made.push(corners)?,
            None => return Ok(None),
        }
    }
    Ok(Some(made))
}

/// The points of the loops of a face. None where a loop has fewer than three corners, or an index names no point.
fn loops_of(
    alloc: Global,
    numbers: Option<&[ValueRef<'_>]>,
    points: &[Point],
    face: &InstanceRef<'_>,
) -> Result<Option<FaceLoops>, AllocError>
    requires { All IsGridPoint points.now }
    ensures { IfOk result (AreRead (option_copied numbers.entry) points.now face.now) }
{
    let Some(outer) = loop_of(alloc, numbers, &outline(face), points)? else {
        return Ok(None);
    };
    match loops_among(alloc, numbers, &spelled_loops(face), points)? {
        Some(inner) => Ok(Some(FaceLoops { outer, inner })),
        None => Ok(None),
    }
}

fn triangle_of(corners: &[Point], ear: Ear) -> Triangle
    ensures { result ≡ triangle_of corners.now ear }
{
    Triangle {
        a: point_at(corners, ear.a),
        b: point_at(corners, ear.b),
        c: point_at(corners, ear.c),
    }
}

fn triangles_of(alloc: Global, corners: &[Point], ears: &[Ear]) -> Result<Vec<Triangle>, AllocError>
    ensures { IfOk result (λ made. made.items ≡ map (triangle_of corners.now) ears.now) }
{
    let mut made = Vec::with_capacity(alloc, ears.len())?;
    for ear in ears {
        made.push(triangle_of(corners, *ear))?;
    }
    Ok(made)
}

/// The triangles of a face, by the places of their corners among those of its loops.
fn made_of(alloc: Global, loops: FaceLoops, ears: &[Ear]) -> Result<Vec<Triangle>, AllocError>
    ensures { IfOk result (λ made. made.items ≡ map (triangle_of
        (face_points loops.outer.items (map (λ ring. ring.items) loops.inner.items))) ears.now) }
{
    let FaceLoops { outer, inner } = loops;
    let mut corners = outer;
    add_loops(&mut corners, &inner)?;
    triangles_of(alloc, &corners, ears)
}

/// What comes of a face of a set with these numbers of points and these points.
pub fn cut_face(
    alloc: Global,
    numbers: Option<&[ValueRef<'_>]>,
    points: &[Point],
    face: &InstanceRef<'_>,
) -> Result<Outcome, AllocError>
    requires { All IsGridPoint points.now }
    ensures outcome { IfOk result (IsOutcome (option_copied numbers.entry) points.now face.now) }
    ensures count { IfOk result (IsCounted face.now) }
{
    if has_many_corners(face) {
        return Ok(Outcome::Unready);
    }
    let Some(loops) = loops_of(alloc, numbers, points, face)? else {
        return Ok(Outcome::Unready);
    };
    match cut_loops(alloc, &loops.outer, &loops.inner)? {
        LoopsCut::Cut(ears) => Ok(Outcome::Cut(made_of(alloc, loops, &ears)?)),
        LoopsCut::Stuck => Ok(Outcome::Stuck),
        LoopsCut::Apart => Ok(Outcome::Unbridged),
    }
}
