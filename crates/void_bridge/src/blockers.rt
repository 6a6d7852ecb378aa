//! The search for an edge that a bridge collides with.
ghost use Rattle.std.specs.Prelude.{◌≡◌, ◌≤◌, ◌<◌, ◌+◌, ℕ, OnSome, MatchOption, true, is_some, length, map};
ghost use Rattle.std.specs.List.{list_any};
ghost use Rattle.void_bridge.specs.LoopEdges.{collide};
ghost use Rattle.void_bridge.specs.inner.Barriers.{as_segment, segments_of, run, AreBarriers, IsPassed};

use crate::barriers::{Barriers, Edge, RUN, are_apart, frame_of};
use crate::collisions::collide;
use ear_cut::View;
use std::alloc::{AllocError, Global};

/// Where to look first: the edge that was found last, and the one that was found last for each place.
#[derive(Drop)]
pub struct Hints {
    last: usize,
    of_place: Vec<usize>,
}

/// No hints yet for so many places.
pub fn no_hints(alloc: Global, places: usize) -> Result<Hints, AllocError> {
    let mut of_place = Vec::with_capacity(alloc, places)?;
    for _place in 0..places {
        of_place.push(0)?;
    }
    Ok(Hints { last: 0, of_place })
}

/// Notes the edge that was found for a place.
fn note(hints: &mut Hints, place: usize, at: usize) {
    hints.last = at;
    if place < hints.of_place.len() {
        hints.of_place[place] = at;
    }
}

/// The edge that was found last for a place.
fn hint_of(hints: &Hints, place: usize) -> usize {
    if place < hints.of_place.len() {
        hints.of_place[place]
    } else {
        0
    }
}

/// Whether the bridge collides with the edge at an index; a `false` says nothing.
#[inline(always)]
fn is_blocked_at(view: View, bridge: Edge, barriers: &Barriers, at: usize) -> bool
    ensures { result ≡ true → list_any (collide view (as_segment bridge)) (segments_of barriers.now) ≡ true }
{
    if at < barriers.edges.len() {
        collide(view, bridge, barriers.edges[at])
    } else {
        false
    }
}

/// The index, at a hint or beside it, of an edge with which the bridge collides; a `None` says nothing.
fn blocker_near(view: View, bridge: Edge, barriers: &Barriers, hint: usize) -> Option<usize>
    ensures { OnSome result (list_any (collide view (as_segment bridge)) (segments_of barriers.now) ≡ true) }
{
    if is_blocked_at(view, bridge, barriers, hint) {
        return Some(hint);
    }
    if hint < usize::MAX && is_blocked_at(view, bridge, barriers, hint + 1) {
        return Some(hint + 1);
    }
    if 0 < hint && is_blocked_at(view, bridge, barriers, hint - 1) {
        return Some(hint - 1);
    }
    None
}

/// The first edge, from one index up to another, with which the bridge collides.
fn blocker_in(view: View, bridge: Edge, edges: &[Edge], start: usize, end: usize) -> Option<usize>
    requires order { start ≤ end }
    requires end_in { end ≤ length edges.now }
    ensures { MatchOption result
        ((k : ℕ) → start ≤ k → k < end
        → IsPassed view (as_segment bridge) (map as_segment edges.now) k)
        (λ i. list_any (collide view (as_segment bridge)) (map as_segment edges.now) ≡ true) }
{
    for i in start..end {
        if collide(view, bridge, edges[i]) {
            return Some(i);
        }
    }
    None
}

/// Where a run ends of n edges that begins with one of them.
#[inline(always)]
fn run_end(n: usize, start: usize) -> usize
    requires { start ≤ n }
    ensures within { result ≤ n }
    ensures behind { start ≤ result }
    ensures all { (k : ℕ) → k < n → k < start + run → k < result }
{
    if n - start < RUN { n } else { start + RUN }
}

/// An edge with which the bridge collides. Only those runs are asked whose frames the bridge's own meets.
fn blocker_of(view: View, bridge: Edge, barriers: &Barriers) -> Option<usize>
    requires { AreBarriers barriers.now }
    ensures { is_some result ≡ list_any (collide view (as_segment bridge)) (segments_of barriers.now) }
{
    let around = frame_of(bridge);
    for b in 0..barriers.frames.len() {
        if are_apart(barriers.frames[b], around) {
            continue;
        }
        let start = RUN * b;
        let end = run_end(barriers.edges.len(), start);
        if let Some(i) = blocker_in(view, bridge, &barriers.edges, start, end) {
            return Some(i);
        }
    }
    None
}

/// Whether the bridge collides with an edge; the hints are asked first.
pub fn is_blocked(
    view: View,
    bridge: Edge,
    barriers: &Barriers,
    place: usize,
    hints: &mut Hints,
) -> bool
    requires { AreBarriers barriers.now }
    ensures { result ≡ list_any (collide view (as_segment bridge)) (segments_of barriers.now) }
{
    let last = hints.last;
    if let Some(at) = blocker_near(view, bridge, barriers, last) {
        note(hints, place, at);
        return true;
    }
    let hint = hint_of(hints, place);
    if let Some(at) = blocker_near(view, bridge, barriers, hint) {
        note(hints, place, at);
        return true;
    }
    match blocker_of(view, bridge, barriers) {
        Some(at) => {
            note(hints, place, at);
            true
        }
        None => false,
    }
}
