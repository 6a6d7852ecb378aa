//! The edges that no bridge may cross, in runs with a frame round each.
ghost use Rattle.std.specs.Prelude.{◌≡◌, ◌≤◌, ◌*◌, ◌++◌, ◌∷◌, [], List, length, OnOk};
ghost use Rattle.ear_cut.specs.PolygonViews.{Spot};
ghost use Rattle.ear_cut.specs.Registers.{as_spot};
ghost use Rattle.void_bridge.specs.LoopEdges.{Segment};
ghost use Rattle.void_bridge.specs.inner.Barriers.{as_segment, segments_of, run, IsInFrame, IsFramed, are_apart, AreFramed, AreBarriers};

use ear_cut::Flat;
use std::alloc::{AllocError, Global};

/// The number of edges of a run.
pub const RUN: usize = 16;

/// An edge as a view shows it.
#[derive(Clone, Copy)]
pub struct Edge {
    pub a: Flat,
    pub b: Flat,
}

/// A rectangle of a view.
#[derive(Clone, Copy)]
pub struct Frame {
    pub low_u: i64,
    pub high_u: i64,
    pub low_v: i64,
    pub high_v: i64,
}

/// Edges, with a frame round each run of them.
#[derive(Drop)]
pub struct Barriers {
    pub edges: Vec<Edge>,
    pub frames: Vec<Frame>,
}

/// The frame of a single spot.
#[inline(always)]
fn frame_at(p: Flat) -> Frame
    ensures { IsInFrame result (as_spot p) }
{
    Frame {
        low_u: p.u,
        high_u: p.u,
        low_v: p.v,
        high_v: p.v,
    }
}

/// The frame widened to a spot.
#[inline(always)]
fn widened(frame: Frame, p: Flat) -> Frame
    ensures holds { IsInFrame result (as_spot p) }
    ensures kept { (q : Spot) → IsInFrame frame q → IsInFrame result q }
{
    Frame {
        low_u: frame.low_u.min(p.u),
        high_u: frame.high_u.max(p.u),
        low_v: frame.low_v.min(p.v),
        high_v: frame.high_v.max(p.v),
    }
}

/// The frame of an edge.
#[inline(always)]
pub fn frame_of(edge: Edge) -> Frame
    ensures { IsFramed result (as_segment edge) }
{
    widened(frame_at(edge.a), edge.b)
}

/// The frame widened to an edge.
#[inline(always)]
fn widened_to(frame: Frame, edge: Edge) -> Frame
    ensures holds { IsFramed result (as_segment edge) }
    ensures kept { (q : Spot) → IsInFrame frame q → IsInFrame result q }
{
    widened(widened(frame, edge.a), edge.b)
}

/// Whether one of the frames ends before the other begins.
#[inline(always)]
pub fn are_apart(f: Frame, g: Frame) -> bool
    ensures { result ≡ are_apart f g }
{
    f.high_u < g.low_u || (g.high_u < f.low_u || (f.high_v < g.low_v || g.high_v < f.low_v))
}

/// No edges.
pub fn no_barriers(alloc: Global) -> Barriers
    ensures none { segments_of result ≡ [] }
    ensures framed { AreBarriers result }
{
    Barriers {
        edges: Vec::new(alloc),
        frames: Vec::new(alloc),
    }
}

/// Frames one more edge behind so many others: widens the frame of the last run, or begins a run with the edge.
fn frame_one_more(frames: &mut Vec<Frame>, count: usize, edge: Edge) -> Result<(), AllocError>
    requires { count ≤ run * length frames.old.items }
    ensures { OnOk result ((edges : List Segment) → length edges ≡ count
        → AreFramed frames.old.items edges → AreFramed frames.new.items (edges ++ as_segment edge ∷ [])) }
{
    if count % RUN == 0 {
        frames.push(frame_of(edge))?;
        return Ok(());
    }
    let frame = widened_to(frames[count / RUN], edge);
    frames[count / RUN] = frame;
    Ok(())
}

/// One more edge.
pub fn add_edge(barriers: &mut Barriers, edge: Edge) -> Result<(), AllocError>
    requires { AreBarriers barriers.old }
    ensures edges { OnOk result
        (segments_of barriers.new ≡ segments_of barriers.old ++ as_segment edge ∷ []) }
    ensures framed { OnOk result (AreBarriers barriers.new) }
{
    let count = barriers.edges.len();
    frame_one_more(&mut barriers.frames, count, edge)?;
    barriers.edges.push(edge)?;
    Ok(())
}
