//! Frames round runs of corners, so that far corners are left out of a search.
// Frames round runs of corners, so that a triangle is asked only of the runs that may reach into it.
ghost use Rattle.std.specs.Prelude.{◌≡◌, ◌≤◌, ◌<◌, ◌+◌, ◌*◌, ℕ, length, IfOk, int_lt};
ghost use Rattle.ear_cut.specs.Corners.{AreInGrid};
ghost use Rattle.ear_cut.specs.Registers.{as_spot};
ghost use Rattle.ear_cut.specs.PolygonViews.{Spot};
ghost use Rattle.ear_cut.specs.inner.CornerFrames.{run, IsIn, is_apart, IsRound, AreRound, AreFrames, AreFramesIn, AreFramesBefore};

use crate::coordinates::{Flat, Shape};
use crate::corners::Corner;
use crate::polygon_view::{View, seen};
use std::alloc::{AllocError, Global};

/// The number of corners of a run.
pub const RUN: usize = 16;

/// A rectangle of a view.
#[derive(Clone, Copy)]
pub struct Frame {
    pub low_u: i64,
    pub high_u: i64,
    pub low_v: i64,
    pub high_v: i64,
}

/// A frame for each run of corners, and how many corners were taken out since they were made.
#[derive(Drop)]
pub struct Frames {
    /// Each was round its run and the one after it.
    pub runs: Vec<Frame>,
    pub gone: usize,
}

/// The frame of a single point.
#[inline(always)]
fn frame_at(p: Flat) -> Frame
    ensures { IsIn result (as_spot p) }
{
    Frame {
        low_u: p.u,
        high_u: p.u,
        low_v: p.v,
        high_v: p.v,
    }
}

/// The frame widened to a point.
#[inline(always)]
fn widened(frame: Frame, p: Flat) -> Frame
    ensures holds { IsIn result (as_spot p) }
    ensures kept { (q : Spot) → IsIn frame q → IsIn result q }
{
    Frame {
        low_u: frame.low_u.min(p.u),
        high_u: frame.high_u.max(p.u),
        low_v: frame.low_v.min(p.v),
        high_v: frame.high_v.max(p.v),
    }
}

/// The frame of a triangle.
#[inline(always)]
pub fn frame_of(t: Shape) -> Frame
    ensures a_in { IsIn result (as_spot t.a) }
    ensures b_in { IsIn result (as_spot t.b) }
    ensures c_in { IsIn result (as_spot t.c) }
{
    widened(widened(frame_at(t.a), t.b), t.c)
}

/// Whether a frame ends on the left of where the other begins.
#[inline(always)]
fn is_left(a: Frame, b: Frame) -> bool
    ensures { result ≡ int_lt a.high_u b.low_u }
{
    a.high_u < b.low_u
}

/// Whether a frame ends below where the other begins.
#[inline(always)]
fn is_below(a: Frame, b: Frame) -> bool
    ensures { result ≡ int_lt a.high_v b.low_v }
{
    a.high_v < b.low_v
}

/// Whether one of the frames ends before the other begins.
#[inline(always)]
pub fn is_apart(a: Frame, b: Frame) -> bool
    ensures { result ≡ is_apart a b }
{
    if is_left(a, b) {
        return true;
    }
    if is_left(b, a) {
        return true;
    }
    if is_below(a, b) {
        return true;
    }
    is_below(b, a)
}

/// The number of runs of n corners.
#[inline(always)]
pub fn runs_of(n: usize) -> usize
    ensures enough { n ≤ run * result }
    ensures least { run * result < n + run }
{
    let whole = n / RUN;
    if n % RUN == 0 { whole } else { whole + 1 }
}

/// Where the corners end that begin at a place, `count` of them or as many as there are of n.
#[inline(always)]
pub fn end_of(n: usize, start: usize, count: usize) -> usize
    requires { start ≤ n }
    ensures within { result ≤ n }
    ensures behind { start ≤ result }
    ensures most { result ≤ start + count }
    ensures all { (k : ℕ) → k < n → k < start + count → k < result }
{
    if n - start < count { n } else { start + count }
}

/// The frame round a run and the one after it.
fn frame_round(view: View, left: &[Corner], b: usize) -> Frame
    requires b_in { run * b < length left.now }
    requires left_in { AreInGrid left.now }
    ensures { IsRound view left.now result (run * b) (run * b + (run + run)) }
{
    let start = RUN * b;
    let mut frame = frame_at(seen(view.axis, left[start].point));
    for i in start..end_of(left.len(), start, RUN + RUN) {
        frame = widened(frame, seen(view.axis, left[i].point));
    }
    frame
}

/// The frames of all runs.
fn frames_seen(alloc: Global, view: View, left: &[Corner]) -> Result<Frames, AllocError>
    requires { AreInGrid left.now }
    ensures { IfOk result (λ frames. AreFrames view left.now frames) }
{
    let count = runs_of(left.len());
    let mut runs = Vec::with_capacity(alloc, count)?;
    for b in 0..count {
        runs.push(frame_round(view, left, b))?;
    }
    Ok(Frames { runs, gone: 0 })
}

/// The frames of all runs; without a view there are none.
pub fn frames_of(alloc: Global, view: Option<View>, left: &[Corner]) -> Result<Frames, AllocError>
    requires { AreInGrid left.now }
    ensures { IfOk result (λ frames. AreFramesIn view left.now frames) }
{
    match view {
        None => Ok(Frames {
            runs: Vec::new(alloc),
            gone: 0,
        }),
        Some(view) => frames_seen(alloc, view, left),
    }
}

/// Makes the frames anew.
fn renew_frames(view: View, left: &[Corner], runs: &mut [Frame])
    requires left_in { AreInGrid left.now }
    requires count { length left.now ≤ run * length runs.old }
    ensures { AreRound view left.now runs.new 0 }
{
    for b in 0..runs_of(left.len()) {
        runs[b] = frame_round(view, left, b);
    }
}

/// Brings the frames up to date where a corner was taken out: they are made anew once for each run of removals.
fn follow_seen(view: View, left: &[Corner], frames: &mut Frames)
    requires left_in { AreInGrid left.now }
    requires round { AreRound view left.now frames.old.runs.items (frames.old.gone + 1) }
    requires few { frames.old.gone ≤ run }
    ensures { AreFrames view left.now frames.new }
{
    if frames.gone < RUN {
        frames.gone += 1;
    } else {
        renew_frames(view, left, &mut frames.runs);
        frames.gone = 0;
    }
}

/// Brings the frames up to date where a corner was taken out.
pub fn follow(view: Option<View>, left: &[Corner], frames: &mut Frames)
    requires left_in { AreInGrid left.now }
    requires before { AreFramesBefore view left.now frames.old }
    ensures { AreFramesIn view left.now frames.new }
{
    match view {
        None => {}
        Some(view) => follow_seen(view, left, frames),
    }
}
