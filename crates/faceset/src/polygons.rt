//! The loops of a face as one polygon, cut into triangles.
ghost use Rattle.std.specs.Prelude.{◌≡◌, ◌<◌, ◌≤◌, ◌+◌, ◌++◌, [], length, map, All, IfOk, OnOk, MatchOption, None, Some, slice_index_or};
ghost use Rattle.std.specs.List.{flat_map};
ghost use Rattle.bim_model.specs.Points.{IsGridPoint};
ghost use Rattle.ear_cut.specs.Areas.{point_at};
ghost use Rattle.ear_cut.specs.Removal.{cut_of};
ghost use Rattle.void_bridge.specs.HoleLoops.{corner_count, IsLoop, AreLoops};
ghost use Rattle.void_bridge.specs.Bridges.{joined_of};
ghost use Rattle.faceset.specs.FacePolygons.{face_points, ear_by, ears_by, IsLoopsCut};
ghost use Rattle.faceset.specs.FaceSets.{most_corners};
ghost use Rattle.faceset.specs.inner.Cuts.{polygon_limit};

use bim_model::Point;
use ear_cut::{CutFault, Ear, cut};
use std::alloc::{AllocError, Global};
use void_bridge::{BridgeError, join_loops};

/// What comes of the loops of a face.
#[derive(Drop)]
pub enum LoopsCut {
    /// The triangles, by the places of their corners among those of all loops, from 0.
    Cut(Vec<Ear>),
    /// The polygon can't be cut.
    Stuck,
    /// The inner loops can't be joined to the outline.
    Apart,
}

/// The point at a place.
pub fn point_at(points: &[Point], place: u32) -> Point
    ensures { result ≡ point_at points.now place }
{
    match points.get(place as usize) {
        Some(point) => *point,
        None => Point { x: 0, y: 0, z: 0 },
    }
}

/// The points at these places.
pub fn points_at(alloc: Global, points: &[Point], places: &[u32]) -> Result<Vec<Point>, AllocError>
    ensures { IfOk result (λ made. made.items ≡ map (point_at points.now) places.now) }
{
    let mut made = Vec::with_capacity(alloc, places.len())?;
    for place in places {
        made.push(point_at(points, *place))?;
    }
    Ok(made)
}

/// Adds the corners of the inner loops of a face, one loop after another, to those of its outline.
pub fn add_loops(all: &mut Vec<Point>, inner: &[Vec<Point>]) -> Result<(), AllocError>
    ensures { OnOk result (all.new.items ≡ all.old.items
        ++ flat_map (λ loop. loop) (map (λ loop. loop.items) inner.now)) }
{
    for ring in inner {
        all.extend_from_slice(ring)?;
    }
    Ok(())
}

/// The place that stands there.
fn place_in(list: &[u32], at: u32) -> u32
    ensures { result ≡ slice_index_or list.now at 0 }
{
    match list.get(at as usize) {
        Some(place) => *place,
        None => 0,
    }
}

/// A triangle of the list, by the places that stand there.
fn ear_by(list: &[u32], ear: Ear) -> Ear
    ensures { result ≡ ear_by list.now ear }
{
    Ear {
        a: place_in(list, ear.a),
        b: place_in(list, ear.b),
        c: place_in(list, ear.c),
    }
}

/// Triangles of the list, by the places that stand there.
fn ears_placed(alloc: Global, list: &[u32], ears: &[Ear]) -> Result<Vec<Ear>, AllocError>
    ensures { IfOk result (λ made. made.items ≡ map (ear_by list.now) ears.now) }
{
    let mut made = Vec::with_capacity(alloc, ears.len())?;
    for ear in ears {
        made.push(ear_by(list, *ear))?;
    }
    Ok(made)
}

/// The triangles of a polygon. None where it can't be cut.
fn ears_of_polygon(alloc: Global, corners: &[Point]) -> Result<Option<Vec<Ear>>, AllocError>
    requires three { 3 ≤ length corners.now }
    requires few { length corners.now ≤ polygon_limit }
    requires in_grid { All IsGridPoint corners.now }
    ensures { IfOk result (λ found. MatchOption found (cut_of corners.now ≡ None)
        (λ ears. cut_of corners.now ≡ Some ears.items)) }
{
    match cut(alloc, corners) {
        Ok(ears) => Ok(Some(ears)),
        Err(CutFault::Stuck) => Ok(None),
        Err(CutFault::Memory) => Err(AllocError),
    }
}

/// The list to which bridges join the loops of a face. None where they can't be joined.
fn list_of(
    alloc: Global,
    outer: &[Point],
    inner: &[Vec<Point>],
) -> Result<Option<Vec<u32>>, AllocError>
    requires outer_is { IsLoop outer.now }
    requires inner_are { AreLoops (map (λ loop. loop.items) inner.now) }
    requires few { length outer.now + corner_count (map (λ loop. loop.items) inner.now) ≤ most_corners }
    ensures { IfOk result (λ found.
        let joined = joined_of outer.now (map (λ loop. loop.items) inner.now) in
        MatchOption found (joined ≡ None) (λ list. joined ≡ Some list.items)) }
{
    match join_loops(alloc, outer, inner) {
        Ok(list) => Ok(Some(list)),
        Err(BridgeError::Stuck) => Ok(None),
        Err(BridgeError::Memory) => Err(AllocError),
    }
}

/// The points of a joined list.
fn joined_points(
    alloc: Global,
    outer: &[Point],
    inner: &[Vec<Point>],
    list: &[u32],
) -> Result<Vec<Point>, AllocError>
    ensures { IfOk result (λ made. made.items ≡ map
        (point_at (face_points outer.now (map (λ loop. loop.items) inner.now))) list.now) }
{
    let mut all = Vec::new(alloc);
    all.extend_from_slice(outer)?;
    add_loops(&mut all, inner)?;
    points_at(alloc, &all, list)
}

/// The triangles of the loops of a face as they are joined. None where their polygon can't be cut.
fn joined_ears(
    alloc: Global,
    outer: &[Point],
    inner: &[Vec<Point>],
    list: &[u32],
) -> Result<Option<Vec<Ear>>, AllocError>
    requires outer_is { IsLoop outer.now }
    requires inner_are { AreLoops (map (λ loop. loop.items) inner.now) }
    requires few { length outer.now + corner_count (map (λ loop. loop.items) inner.now) ≤ most_corners }
    requires joined { joined_of outer.now (map (λ loop. loop.items) inner.now) ≡ Some list.now }
    ensures { IfOk result (λ found.
        let ears = ears_by outer.now (map (λ loop. loop.items) inner.now) list.now in
        MatchOption found (ears ≡ None) (λ made. ears ≡ Some made.items)) }
{
    let corners = joined_points(alloc, outer, inner, list)?;
    match ears_of_polygon(alloc, &corners)? {
        Some(ears) => Ok(Some(ears_placed(alloc, list, &ears)?)),
        None => Ok(None),
    }
}

/// What comes of a face without inner loops.
fn cut_outline(alloc: Global, outer: &[Point]) -> Result<LoopsCut, AllocError>
    requires outer_is { IsLoop outer.now }
    requires few { length outer.now ≤ most_corners }
    ensures { IfOk result (IsLoopsCut outer.now []) }
{
    match ears_of_polygon(alloc, outer)? {
        Some(ears) => Ok(LoopsCut::Cut(ears)),
        None => Ok(LoopsCut::Stuck),
    }
}

/// What comes of the loops of a face as they are joined.
fn cut_list(
    alloc: Global,
    outer: &[Point],
    inner: &[Vec<Point>],
    list: &[u32],
) -> Result<LoopsCut, AllocError>
    requires outer_is { IsLoop outer.now }
    requires inner_are { AreLoops (map (λ loop. loop.items) inner.now) }
    requires few { length outer.now + corner_count (map (λ loop. loop.items) inner.now) ≤ most_corners }
    requires some { 0 < length inner.now }
    requires joined { joined_of outer.now (map (λ loop. loop.items) inner.now) ≡ Some list.now }
    ensures { IfOk result (IsLoopsCut outer.now (map (λ loop. loop.items) inner.now)) }
{
    match joined_ears(alloc, outer, inner, list)? {
        Some(ears) => Ok(LoopsCut::Cut(ears)),
        None => Ok(LoopsCut::Stuck),
    }
}

/// What comes of the loops of a face that has inner ones.
fn cut_joined(alloc: Global, outer: &[Point], inner: &[Vec<Point>]) -> Result<LoopsCut, AllocError>
    requires outer_is { IsLoop outer.now }
    requires inner_are { AreLoops (map (λ loop. loop.items) inner.now) }
    requires few { length outer.now + corner_count (map (λ loop. loop.items) inner.now) ≤ most_corners }
    requires some { 0 < length inner.now }
    ensures { IfOk result (IsLoopsCut outer.now (map (λ loop. loop.items) inner.now)) }
{
    match list_of(alloc, outer, inner)? {
        Some(list) => cut_list(alloc, outer, inner, &list),
        None => Ok(LoopsCut::Apart),
    }
}

/// The triangles of a face by the points of its loops, each of three corners or more: those of its outline or, where it
/// has inner loops, of the list to which bridges join them (IFC4 ADD2 TC1, IfcIndexedPolygonalFaceWithVoids).
pub fn cut_loops(
    alloc: Global,
    outer: &[Point],
    inner: &[Vec<Point>],
) -> Result<LoopsCut, AllocError>
    requires outer_is { IsLoop outer.now }
    requires inner_are { AreLoops (map (λ loop. loop.items) inner.now) }
    requires few { length outer.now + corner_count (map (λ loop. loop.items) inner.now) ≤ most_corners }
    ensures { IfOk result (IsLoopsCut outer.now (map (λ loop. loop.items) inner.now)) }
{
    if inner.len() == 0 {
        cut_outline(alloc, outer)
    } else {
        cut_joined(alloc, outer, inner)
    }
}
