//! The loops of a face joined to one list of corners.
ghost use Rattle.std.specs.Prelude.{◌≡◌, ◌≤◌, ◌<◌, ◌+◌, ◌*◌, ◌++◌, ◌∷◌, [], length, map, All, IfOk, IfErr, MatchOption, None, Some, OnOk};
ghost use Rattle.bim_model.specs.Points.{IsGridPoint};
ghost use Rattle.ear_cut.specs.Corners.{AreInGrid};
ghost use Rattle.void_bridge.specs.HoleLoops.{corner_count, IsLoop, AreLoops};
ghost use Rattle.void_bridge.specs.LoopEdges.{segment, spot_of, edges_round, all_edges};
ghost use Rattle.void_bridge.specs.Bridges.{joined_at, joined_in, joined_of, IsAreaSum};
ghost use Rattle.void_bridge.specs.inner.Barriers.{segments_of, AreBarriers};

use crate::barriers::{Barriers, Edge, add_edge, no_barriers};
use crate::blockers::no_hints;
use crate::bridges::first_bridge;
use crate::hole_loops::{MOST_LOOP_CORNERS, holes_of};
use crate::tried::counts_after;
use bim_model::Point;
use ear_cut::{Corner, View, corners_of, normal_of, seen, view_of};
use std::alloc::{AllocError, Global};

/// Why loops were not joined.
#[derive(Clone, Copy, Debug, PartialEq, Eq, Drop)]
pub enum BridgeError {
    /// There is no free bridge to a loop that is left, or the outer loop has no area.
    Stuck,
    /// Memory was refused.
    Memory,
}

/// Adds the edges of a loop.
fn add_loop(barriers: &mut Barriers, view: View, corners: &[Corner]) -> Result<(), AllocError>
    requires some { 0 < length corners.now }
    requires in_grid { AreInGrid corners.now }
    requires framed { AreBarriers barriers.old }
    ensures edges { OnOk result (segments_of barriers.new
        ≡ segments_of barriers.old ++ edges_round view corners.now) }
    ensures framed { OnOk result (AreBarriers barriers.new) }
{
    let first = seen(view.axis, corners[0].point);
    let mut previous = first;
    for i in 1..corners.len() {
        let next = seen(view.axis, corners[i].point);
        add_edge(
            barriers,
            Edge {
                a: previous,
                b: next,
            },
        )?;
        previous = next;
    }
    add_edge(
        barriers,
        Edge {
            a: previous,
            b: first,
        },
    )
}

/// The edges of the outer loop and of the inner ones.
fn barriers_of(
    alloc: Global,
    view: View,
    outer: &[Corner],
    holes: &[Vec<Corner>],
) -> Result<Barriers, AllocError>
    requires outer_some { 0 < length outer.now }
    requires outer_in { AreInGrid outer.now }
    requires holes_some { All (λ hole. 0 < length hole) (map (λ hole. hole.items) holes.now) }
    requires holes_in { All AreInGrid (map (λ hole. hole.items) holes.now) }
    ensures edges { IfOk result (λ barriers. segments_of barriers
        ≡ all_edges view outer.now (map (λ hole. hole.items) holes.now)) }
    ensures framed { IfOk result AreBarriers }
{
    let mut barriers = no_barriers(alloc);
    add_loop(&mut barriers, view, outer)?;
    for hole in holes {
        add_loop(&mut barriers, view, hole)?;
    }
    Ok(barriers)
}

/// Adds a bridge, there and back.
fn add_bridge(
    barriers: &mut Barriers,
    view: View,
    from: Corner,
    to: Corner,
) -> Result<(), AllocError>
    requires from_in { IsGridPoint from.point }
    requires to_in { IsGridPoint to.point }
    requires framed { AreBarriers barriers.old }
    ensures edges { OnOk result (segments_of barriers.new
        ≡ (segments_of barriers.old ++ segment (spot_of view from) (spot_of view to) ∷ [])
        ++ segment (spot_of view to) (spot_of view from) ∷ []) }
    ensures framed { OnOk result (AreBarriers barriers.new) }
{
    let a = seen(view.axis, from.point);
    let b = seen(view.axis, to.point);
    add_edge(barriers, Edge { a, b })?;
    add_edge(barriers, Edge { a: b, b: a })
}

/// The list with a loop put in behind its i-th corner, from the loop's j-th corner round to it again.
fn joined_at(
    alloc: Global,
    current: &[Corner],
    i: usize,
    hole: &[Corner],
    j: usize,
) -> Result<Vec<Corner>, AllocError>
    requires i_in { i < length current.now }
    requires j_in { j < length hole.now }
    ensures { IfOk result (λ list. list.items ≡ joined_at current.now i hole.now j) }
{
    let mut list = Vec::new(alloc);
    list.extend_from_slice(&current[..i + 1])?;
    list.extend_from_slice(&hole[j..])?;
    list.extend_from_slice(&hole[..j])?;
    list.push(hole[j])?;
    list.push(current[i])?;
    list.extend_from_slice(&current[i + 1..])?;
    Ok(list)
}

/// The loops joined to one list of corners; none if there is no free bridge.
fn joined_in(
    alloc: Global,
    view: View,
    outer: &[Point],
    inner: &[Vec<Point>],
) -> Result<Option<Vec<Corner>>, AllocError>
    requires outer_is { IsLoop outer.now }
    requires inner_are { AreLoops (map (λ loop. loop.items) inner.now) }
    requires few { length outer.now + corner_count (map (λ loop. loop.items) inner.now) ≤ MOST_LOOP_CORNERS }
    ensures { IfOk result (λ found.
        let joined = joined_in view outer.now (map (λ loop. loop.items) inner.now) in
        MatchOption found (joined ≡ None) (λ list. joined ≡ Some list.items)) }
{
    let mut current = corners_of(alloc, outer)?;
    let mut holes = holes_of(alloc, view, outer.len(), inner)?;
    let mut barriers = barriers_of(alloc, view, &current, &holes)?;
    let mut hints = no_hints(alloc, barriers.edges.len())?;
    let mut tried = Vec::new(alloc);
    for step in 0..inner.len() {
        let Some(bridge) = first_bridge(view, &current, &holes, &tried, &barriers, &mut hints)
        else {
            return Ok(None);
        };
        let hole = holes.remove(bridge.hole);
        add_bridge(&mut barriers, view, current[bridge.from], hole[bridge.to])?;
        current = joined_at(alloc, &current, bridge.from, &hole, bridge.to)?;
        let more = hole.len() + 2;
        tried = counts_after(alloc, &tried, current.len(), bridge.from, more, bridge.hole)?;
    }
    Ok(Some(current))
}

/// The places of corners.
fn places_of(alloc: Global, corners: &[Corner]) -> Result<Vec<u32>, AllocError>
    ensures { IfOk result (λ places. places.items ≡ map (λ (c : Corner). c.place) corners.now) }
{
    corners.iter().map(|c| c.place).collect(alloc)
}

/// The places of the joined list; none where the outer loop has no view, or where there is no free bridge.
fn list_of(
    alloc: Global,
    outer: &[Point],
    inner: &[Vec<Point>],
) -> Result<Option<Vec<u32>>, AllocError>
    requires outer_is { IsLoop outer.now }
    requires inner_are { AreLoops (map (λ loop. loop.items) inner.now) }
    requires few { length outer.now + corner_count (map (λ loop. loop.items) inner.now) ≤ MOST_LOOP_CORNERS }
    ensures { IfOk result (λ found.
        let joined = joined_of outer.now (map (λ loop. loop.items) inner.now) in
        MatchOption found (joined ≡ None) (λ list. joined ≡ Some list.items)) }
{
    let Some(view) = view_of(normal_of(outer)) else {
        return Ok(None);
    };
    match joined_in(alloc, view, outer, inner)? {
        None => Ok(None),
        Some(corners) => Ok(Some(places_of(alloc, &corners)?)),
    }
}

/// The loops of a face joined to one list: places of corners, counted from 0 through the outer loop and then through
/// each inner one. An inner loop that turns as the outer one does is gone round the other way. One loop after another
/// is put in by a bridge, which stands in the list there and back: n corners in h inner loops give n + 2 h places.
///
/// `BridgeError::Stuck` comes exactly where a loop is left to which there is no free bridge, or where the outer loop
/// has no area; `BridgeError::Memory` where memory was refused.
pub fn join_loops(
    alloc: Global,
    outer: &[Point],
    inner: &[Vec<Point>],
) -> Result<Vec<u32>, BridgeError>
    requires outer_is { IsLoop outer.now }
    requires inner_are { AreLoops (map (λ loop. loop.items) inner.now) }
    requires few { length outer.now + corner_count (map (λ loop. loop.items) inner.now) ≤ MOST_LOOP_CORNERS }
    ensures list { IfOk result (λ list.
        joined_of outer.now (map (λ loop. loop.items) inner.now) ≡ Some list.items) }
    ensures stuck { IfErr result (λ fault. fault ≡ BridgeError.Stuck
        → joined_of outer.now (map (λ loop. loop.items) inner.now) ≡ None) }
    ensures count { IfOk result (λ list. length list.items
        ≡ length outer.now + corner_count (map (λ loop. loop.items) inner.now) + 2 * length inner.now) }
    ensures areas { IfOk result (λ list.
        IsAreaSum outer.now (map (λ loop. loop.items) inner.now) list.items) }
{
    match list_of(alloc, outer, inner) {
        Ok(Some(list)) => Ok(list),
        Ok(None) => Err(BridgeError::Stuck),
        Err(_) => Err(BridgeError::Memory),
    }
}
