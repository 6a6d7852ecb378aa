//! Which places come again on their own way up, and which storey is first on the way of the others.
ghost use Rattle.std.specs.Prelude.{◌≡◌, ◌≢◌, ◌<◌, ℕ, [], length, IfOk, OnOk, MatchOption, slice_set};
ghost use Rattle.spatial_tree.specs.inner.UpwardSteps.{AreWithin, IsRound, Goes, up_of, storey_at};
ghost use Rattle.spatial_tree.specs.inner.StoreyMarks.{mark_at, told_by, AreRight, AreIdle, Climbed, Rounded, Known, Settling, Answers, KeepsSeen, IsSurveyed, IsDone};

use crate::step::Step;
use std::alloc::{AllocError, Global};

/// What is known of a place.
#[derive(Clone, Copy)]
pub enum Mark {
    Unseen,
    /// It is on the way that is being followed.
    OnWay,
    /// It comes again on its own way up.
    Looped,
    /// It doesn't; and the first storey on the way up.
    Settled(Option<u64>),
}

impl Mark {
    /// The storey that it tells.
    pub fn told(self) -> Option<u64>
        ensures { result ≡ told_by self }
    {
        match self {
            Mark::Settled(storey) => storey,
            _ => None,
        }
    }
}

/// The next place up.
fn up_of(steps: &[Step], at: usize) -> Option<usize>
    ensures { result ≡ up_of steps.now at }
{
    match steps.get(at) {
        Some(step) => step.up,
        None => None,
    }
}

/// The next object up, where it is a storey.
fn storey_at(steps: &[Step], at: usize) -> Option<u64>
    ensures { result ≡ storey_at steps.now at }
{
    match steps.get(at) {
        Some(step) => step.storey,
        None => None,
    }
}

/// The mark of a place.
pub fn mark_at(marks: &[Mark], at: usize) -> Mark
    ensures { result ≡ mark_at marks.now at }
{
    match marks.get(at) {
        Some(mark) => *mark,
        None => Mark::Unseen,
    }
}

fn set_mark(marks: &mut [Mark], at: usize, mark: Mark)
    requires { at < length marks.old }
    ensures { marks.new ≡ slice_set marks.old at mark }
{
    marks[at] = mark;
}

/// The next place up, where it wasn't seen yet.
fn unseen_above(steps: &[Step], marks: &[Mark], at: usize) -> Option<usize>
    ensures { MatchOption result ((up : ℕ) → Goes steps.now at up → mark_at marks.now up ≢ Mark.Unseen)
        (λ up. Goes steps.now at up × (mark_at marks.now up ≡ Mark.Unseen)) }
{
    let up = up_of(steps, at)?;
    match mark_at(marks, up) {
        Mark::Unseen => Some(up),
        _ => None,
    }
}

/// The next place up, where it isn't known to be on a loop.
fn unlooped_above(steps: &[Step], marks: &[Mark], at: usize) -> Option<usize>
    ensures { MatchOption result ((up : ℕ) → Goes steps.now at up → mark_at marks.now up ≡ Mark.Looped)
        (λ up. Goes steps.now at up × (mark_at marks.now up ≢ Mark.Looped)) }
{
    let up = up_of(steps, at)?;
    match mark_at(marks, up) {
        Mark::Looped => None,
        _ => Some(up),
    }
}

/// Follows the way up to its end, or to a place that was seen.
fn climb(
    steps: &[Step],
    marks: &mut [Mark],
    way: &mut Vec<usize>,
    start: usize,
) -> Result<(), AllocError>
    requires within { AreWithin steps.now }
    requires size { length marks.old ≡ length steps.now }
    requires place { start < length steps.now }
    requires unseen { mark_at marks.old start ≡ Mark.Unseen }
    requires empty { way.old.items ≡ [] }
    ensures climbed { OnOk result (Climbed steps.now marks.old marks.new way.new.items) }
    ensures started { OnOk result (mark_at marks.new start ≢ Mark.Unseen) }
{
    let mut next = Some(start);
    while let Some(at) = next {
        way.push(at)?;
        marks[at] = Mark::OnWay;
        next = unseen_above(steps, marks, at);
    }
    Ok(())
}

/// Marks the loop that a place is on.
fn mark_loop(steps: &[Step], marks: &mut [Mark], start: usize)
    requires within { AreWithin steps.now }
    requires size { length marks.old ≡ length steps.now }
    requires right { AreRight steps.now marks.old }
    requires on_way { mark_at marks.old start ≡ Mark.OnWay }
    requires round { IsRound steps.now start }
    ensures { Rounded steps.now marks.old marks.new start }
{
    let mut next = Some(start);
    while let Some(at) = next {
        marks[at] = Mark::Looped;
        next = unlooped_above(steps, marks, at);
    }
}

/// Where the way came to itself, marks its loop.
fn close(steps: &[Step], marks: &mut [Mark], way: &[usize])
    requires within { AreWithin steps.now }
    requires size { length marks.old ≡ length steps.now }
    requires right { AreRight steps.now marks.old }
    requires known { Known steps.now marks.old way.now }
    ensures settling { Settling steps.now marks.new way.now }
    ensures seen { KeepsSeen marks.old marks.new }
{
    let Some(top) = way.last() else {
        return;
    };
    let Some(up) = up_of(steps, *top) else {
        return;
    };
    if matches!(mark_at(marks, up), Mark::OnWay) {
        mark_loop(steps, marks, up);
    }
}

/// The first storey on the way up from a place, where the next place is done.
fn answer(steps: &[Step], marks: &[Mark], at: usize) -> Option<u64>
    requires right { AreRight steps.now marks.now }
    requires done { (up : ℕ) → Goes steps.now at up → IsDone (mark_at marks.now up) }
    ensures { Answers steps.now at result }
{
    if let Some(storey) = storey_at(steps, at) {
        return Some(storey);
    }
    let Some(up) = up_of(steps, at) else {
        return None;
    };
    match mark_at(marks, up) {
        Mark::Settled(storey) => storey,
        _ => None,
    }
}

/// Marks all places of the way, the last first.
fn settle(steps: &[Step], marks: &mut [Mark], way: &mut Vec<usize>)
    requires within { AreWithin steps.now }
    requires settling { Settling steps.now marks.old way.old.items }
    ensures right { AreRight steps.now marks.new }
    ensures idle { AreIdle marks.new }
    ensures seen { KeepsSeen marks.old marks.new }
    ensures empty { way.new.items ≡ [] }
{
    while let Some(at) = way.pop() {
        if !matches!(mark_at(marks, at), Mark::Looped) {
            let storey = answer(steps, marks, at);
            set_mark(marks, at, Mark::Settled(storey));
        }
    }
}

/// Marks a place, and all that its way up comes to.
fn visit(
    steps: &[Step],
    marks: &mut [Mark],
    way: &mut Vec<usize>,
    start: usize,
) -> Result<(), AllocError>
    requires within { AreWithin steps.now }
    requires right { AreRight steps.now marks.old }
    requires idle { AreIdle marks.old }
    requires empty { way.old.items ≡ [] }
    requires place { start < length steps.now }
    ensures right { OnOk result (AreRight steps.now marks.new) }
    ensures idle { OnOk result (AreIdle marks.new) }
    ensures empty { OnOk result (way.new.items ≡ []) }
    ensures seen { OnOk result (KeepsSeen marks.old marks.new) }
    ensures started { OnOk result (mark_at marks.new start ≢ Mark.Unseen) }
{
    if !matches!(mark_at(marks, start), Mark::Unseen) {
        return Ok(());
    }
    climb(steps, marks, way, start)?;
    close(steps, marks, way);
    settle(steps, marks, way);
    Ok(())
}

/// What is known of each place, once all ways are followed.
pub fn survey(alloc: Global, steps: &[Step]) -> Result<Vec<Mark>, AllocError>
    requires within { AreWithin steps.now }
    ensures { IfOk result (λ marks. IsSurveyed steps.now marks.items) }
{
    let mut marks = vec![in alloc; Mark::Unseen; steps.len()]?;
    let mut way = Vec::with_capacity(alloc, steps.len())?;
    for start in 0..steps.len() {
        visit(steps, &mut marks, &mut way, start)?;
    }
    Ok(marks)
}
