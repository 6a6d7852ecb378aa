//! The search for the first bridge from the current list to a loop that is left.
ghost use Rattle.std.specs.Prelude.{◌≡◌, ◌<◌, length, map, IfSome, slice_index_or, All};
ghost use Rattle.bim_model.specs.Points.{IsGridPoint};
ghost use Rattle.ear_cut.specs.Corners.{nobody, turn_at, InGrid, AreInGrid};
ghost use Rattle.ear_cut.specs.Registers.{as_spot};
ghost use Rattle.ear_cut.specs.inner.EarNotes.{IsFirst};
ghost use Rattle.void_bridge.specs.Bridges.{is_left, leads_inside, is_free, first_found, bridge_from, bridge_by, IsBridge, IsBridgeIn};
ghost use Rattle.void_bridge.specs.inner.Barriers.{segments_of, AreBarriers};
ghost use Rattle.void_bridge.specs.inner.Tried.{IsTried, AreTried, ArePassed};

use crate::barriers::{Barriers, Edge};
use crate::blockers::{Hints, is_blocked};
use crate::collisions::is_same_spot;
use crate::tried::is_tried;
use ear_cut::{Corner, Flat, Turn, View, area, seen, turn_at};

/// A bridge from a corner of the current list to a corner of a loop that is left, by their indexes.
#[derive(Clone, Copy)]
pub struct Bridge {
    pub hole: usize,
    pub from: usize,
    pub to: usize,
}

/// Whether the way from b to q is left of the way from a to b.
#[inline(always)]
fn is_left(view: View, a: Flat, b: Flat, q: Flat) -> bool
    ensures { result ≡ is_left view (as_spot a) (as_spot b) (as_spot q) }
{
    0 < area(view, a, b, q)
}

/// Whether the way from b to q lies within the angle at b between a and c.
#[inline(always)]
fn leads_inside(view: View, a: Flat, b: Flat, c: Flat, q: Flat) -> bool
    ensures { result ≡ leads_inside view (as_spot a) (as_spot b) (as_spot c) (as_spot q) }
{
    if is_left(view, a, b, c) {
        is_left(view, a, b, q) && is_left(view, b, c, q)
    } else {
        is_left(view, a, b, q) || is_left(view, b, c, q)
    }
}

/// Whether the bridge from the corner of a turn to another corner is free.
fn is_free(view: View, t: Turn, c: Corner, barriers: &Barriers, hints: &mut Hints) -> bool
    requires t_in { InGrid t }
    requires c_in { IsGridPoint c.point }
    requires kept { AreBarriers barriers.now }
    ensures { result ≡ is_free view (segments_of barriers.now) t c }
{
    let corner = seen(view.axis, t.corner.point);
    let end = seen(view.axis, c.point);
    if is_same_spot(corner, end) {
        return false;
    }
    let before = seen(view.axis, t.before.point);
    let after = seen(view.axis, t.after.point);
    if !leads_inside(view, before, corner, after, end) {
        return false;
    }
    let bridge = Edge { a: corner, b: end };
    !is_blocked(view, bridge, barriers, c.place as usize, hints)
}

/// The first corner of a loop to which there is a free bridge from the corner of a turn.
fn first_end(
    view: View,
    t: Turn,
    hole: &[Corner],
    barriers: &Barriers,
    hints: &mut Hints,
) -> Option<usize>
    requires t_in { InGrid t }
    requires hole_in { AreInGrid hole.now }
    requires kept { AreBarriers barriers.now }
    ensures { IsFirst (λ j. is_free view (segments_of barriers.now) t (slice_index_or hole.now j nobody))
        (length hole.now) result }
{
    for j in 0..hole.len() {
        if is_free(view, t, hole[j], barriers, hints) {
            return Some(j);
        }
    }
    None
}

/// The first free bridge to a loop.
fn bridge_to(
    view: View,
    current: &[Corner],
    hole: &[Corner],
    k: usize,
    tried: &[usize],
    barriers: &Barriers,
    hints: &mut Hints,
) -> Option<Bridge>
    requires current_in { AreInGrid current.now }
    requires hole_in { AreInGrid hole.now }
    requires kept { AreBarriers barriers.now }
    requires tried { IsTried view (segments_of barriers.now) current.now hole.now k tried.now }
    ensures first { result ≡ first_found (bridge_from view (segments_of barriers.now) current.now hole.now k)
        0 (length current.now) }
    ensures within { IfSome result (λ b. IsBridge current.now hole.now k b) }
{
    for i in 0..current.len() {
        if is_tried(tried, i, k) {
            continue;
        }
        if let Some(j) = first_end(view, turn_at(current, i), hole, barriers, hints) {
            return Some(Bridge {
                hole: k,
                from: i,
                to: j,
            });
        }
    }
    None
}

/// The first free bridge to a loop that is left. What is known not to be free isn't tried again.
pub fn first_bridge(
    view: View,
    current: &[Corner],
    holes: &[Vec<Corner>],
    tried: &[usize],
    barriers: &Barriers,
    hints: &mut Hints,
) -> Option<Bridge>
    requires current_in { AreInGrid current.now }
    requires holes_in { All AreInGrid (map (λ hole. hole.items) holes.now) }
    requires kept { AreBarriers barriers.now }
    requires tried { AreTried view (segments_of barriers.now) current.now
        (map (λ hole. hole.items) holes.now) tried.now }
    ensures passed { IfSome result (λ b. ArePassed view (segments_of barriers.now) current.now
        (map (λ hole. hole.items) holes.now) b.hole) }
    ensures first { result
        ≡ bridge_by view (segments_of barriers.now) current.now (map (λ hole. hole.items) holes.now) }
    ensures within { IfSome result (IsBridgeIn current.now (map (λ hole. hole.items) holes.now)) }
{
    for k in 0..holes.len() {
        if let Some(bridge) = bridge_to(view, current, &holes[k], k, tried, barriers, hints) {
            return Some(bridge);
        }
    }
    None
}
