//! Lists of triangles in runs with a box each, of which only those are tested that come near.
// Lists of triangles in runs of sixteen, each run with its box, so that most runs are passed over at once.
// The boxes of up to 512 triangles lie on the stack.
ghost use Rattle.std.specs.Prelude.{false, ◌≡◌, ◌<◌, ◌≤◌, ◌↔◌, ◌⊎◌, IsTrue, All, length, take, drop};
ghost use Rattle.tri_exact.specs.ProductLimits.{distance_limit};
ghost use Rattle.bim_model.specs.Points.{IsInGrid, shape_of};
ghost use Rattle.clearance.specs.Near.{Near, NearAny, ListsNear};
ghost use Rattle.clearance.specs.inner.BoxContainment.{InExtent, IsExtent, Wider, IsOff};
ghost use Rattle.clearance.specs.inner.TriangleRuns.{AllIn, AllReach, RunsIn, NoneInRow};

use crate::boxes::{extent_of, extent_of_all, is_off, join, no_extent};
use crate::projections::lists_apart;
use crate::triangles::test_near;
use bim_model::{Extent, Triangle};

/// How many triangles share a box.
pub const RUN: usize = 16;
/// How many boxes there is room for.
const RUNS: usize = 32;
/// How many triangles these boxes are for.
pub const BLOCK: usize = 512;

/// The first n triangles of a list, and those after them.
#[inline(always)]
pub fn split_front(ts: &[Triangle], n: usize) -> (&[Triangle], &[Triangle])
    ensures front { result.0.now ≡ take n ts.now }
    ensures behind { result.1.now ≡ drop n ts.now }
{
    if n < ts.len() {
        ts.split_at(n)
    } else {
        ts.split_at(ts.len())
    }
}

/// Whether p, whose box is known, is near to q.
#[inline(always)]
fn pair_near(p: &Triangle, extent: Extent, q: &Triangle, d: u32) -> bool
    requires p_in { IsInGrid p.now }
    requires inside { InExtent extent (shape_of p.now) }
    requires small { IsExtent extent }
    requires q_in { IsInGrid q.now }
    requires d_in { d ≤ distance_limit }
    ensures { IsTrue result ↔ Near p.now q.now d }
{
    if is_off(extent, extent_of(q), d) {
        return false;
    }
    test_near(p, q, d)
}

/// Whether a triangle of the list is near to p, whose box is known.
#[inline(always)]
fn list_near(p: &Triangle, extent: Extent, qs: &[Triangle], d: u32) -> bool
    requires p_in { IsInGrid p.now }
    requires inside { InExtent extent (shape_of p.now) }
    requires small { IsExtent extent }
    requires qs_in { All IsInGrid qs.now }
    requires d_in { d ≤ distance_limit }
    ensures { IsTrue result ↔ NearAny p.now qs.now d }
{
    for q in qs {
        if pair_near(p, extent, q, d) {
            return true;
        }
    }
    false
}

/// Whether a triangle of the list, which lies in the box, is near to p.
#[inline(always)]
fn any_near(p: &Triangle, qs: &[Triangle], around: Extent, d: u32) -> bool
    requires p_in { IsInGrid p.now }
    requires qs_in { All IsInGrid qs.now }
    requires inside { AllIn around qs.now }
    requires small { IsExtent around }
    requires d_in { d ≤ distance_limit }
    ensures { IsTrue result ↔ NearAny p.now qs.now d }
{
    let extent = extent_of(p);
    if is_off(around, extent, d) {
        return false;
    }
    list_near(p, extent, qs, d)
}

/// Whether a triangle of one list and one of the other, which lies in the box, are near.
#[inline(never)]
pub fn pairs_near(ps: &[Triangle], qs: &[Triangle], around: Extent, d: u32) -> bool
    requires ps_in { All IsInGrid ps.now }
    requires qs_in { All IsInGrid qs.now }
    requires inside { AllIn around qs.now }
    requires small { IsExtent around }
    requires d_in { d ≤ distance_limit }
    ensures { IsTrue result ↔ ListsNear ps.now qs.now d }
{
    for p in ps {
        if any_near(p, qs, around, d) {
            return true;
        }
    }
    false
}

/// The box of one triangle more, if it reaches the box `around`.
#[inline(always)]
fn join_reached(found: Extent, extent: Extent, around: Extent, d: u32) -> Extent
    requires found_in { IsExtent found }
    requires extent_in { IsExtent extent }
    requires around_in { IsExtent around }
    requires d_in { d ≤ distance_limit }
    ensures found { Wider found result }
    ensures reached { IsOff around extent d ⊎ Wider extent result }
    ensures small { IsExtent result }
{
    if is_off(around, extent, d) {
        return found;
    }
    join(found, extent)
}

/// A box with those triangles in it that reach the box `around`.
fn reached_extent(ts: &[Triangle], around: Extent, d: u32) -> Extent
    requires ts_in { All IsInGrid ts.now }
    requires around_in { IsExtent around }
    requires d_in { d ≤ distance_limit }
    ensures reached { AllReach around d result ts.now }
    ensures small { IsExtent result }
{
    let mut found = no_extent();
    for t in ts {
        found = join_reached(found, extent_of(t), around, d);
    }
    found
}

/// Whether a triangle of the list is near to p, which lies in the box `around`; the box k is for the list.
#[inline(always)]
fn run_near(
    p: &Triangle,
    extent: Extent,
    qs: &[Triangle],
    k: Extent,
    around: Extent,
    d: u32,
) -> bool
    requires p_in { IsInGrid p.now }
    requires inside { InExtent extent (shape_of p.now) }
    requires small { IsExtent extent }
    requires inside_around { InExtent around (shape_of p.now) }
    requires qs_in { All IsInGrid qs.now }
    requires reached { AllReach around d k qs.now }
    requires small_k { IsExtent k }
    requires d_in { d ≤ distance_limit }
    ensures { IsTrue result ↔ NearAny p.now qs.now d }
{
    if is_off(k, extent, d) {
        return false;
    }
    list_near(p, extent, qs, d)
}

/// Whether a triangle of qs is near to p, which lies in the box `around`; the boxes are for qs and its runs.
fn runs_near(
    p: &Triangle,
    qs: &[Triangle],
    runs: &[Extent],
    reached: Extent,
    around: Extent,
    d: u32,
) -> bool
    requires p_in { IsInGrid p.now }
    requires inside { InExtent around (shape_of p.now) }
    requires qs_in { All IsInGrid qs.now }
    requires runs_in { RunsIn around d runs.now qs.now }
    requires reached_in { AllReach around d reached qs.now }
    requires small { IsExtent reached }
    requires d_in { d ≤ distance_limit }
    ensures { IsTrue result ↔ NearAny p.now qs.now d }
{
    let extent = extent_of(p);
    if is_off(reached, extent, d) {
        return false;
    }
    let mut rest = qs;
    for run in runs {
        if rest.is_empty() {
            return false;
        }
        let (front, behind) = split_front(rest, RUN);
        if run_near(p, extent, front, *run, around, d) {
            return true;
        }
        rest = behind;
    }
    false
}

/// The boxes of the runs of a list.
fn run_extents(qs: &[Triangle], around: Extent, d: u32) -> [Extent; RUNS]
    requires qs_in { All IsInGrid qs.now }
    requires few { length qs.now ≤ 512 }
    requires around_in { IsExtent around }
    requires d_in { d ≤ distance_limit }
    ensures { RunsIn around d result qs.now }
{
    let mut runs = [no_extent(); RUNS];
    let mut rest = qs;
    for k in 0..RUNS {
        let (front, behind) = split_front(rest, RUN);
        runs[k] = reached_extent(front, around, d);
        rest = behind;
    }
    runs
}

/// Whether one of the triangles of ps at a place, sixteen on and so on, and one of qs are near. A `false` speaks of
/// these alone; ps lie in the box `around`, and the boxes are for qs and its runs.
fn row_near(
    ps: &[Triangle],
    start: usize,
    qs: &[Triangle],
    runs: &[Extent],
    reached: Extent,
    around: Extent,
    d: u32,
) -> bool
    requires ps_in { All IsInGrid ps.now }
    requires start_in { start < 16 }
    requires inside { AllIn around ps.now }
    requires qs_in { All IsInGrid qs.now }
    requires runs_in { RunsIn around d runs.now qs.now }
    requires reached_in { AllReach around d reached qs.now }
    requires small { IsExtent reached }
    requires d_in { d ≤ distance_limit }
    ensures near { IsTrue result → ListsNear ps.now qs.now d }
    ensures far { result ≡ false → NoneInRow ps.now start qs.now d }
{
    for j in 0..ps.len() / RUN + 1 {
        let at = RUN * j + start;
        if at >= ps.len() {
            return false;
        }
        if runs_near(&ps[at], qs, runs, reached, around, d) {
            return true;
        }
    }
    false
}

/// Whether a triangle of ps, which lie in the box `around`, and one of qs are near; the boxes are for qs and its runs.
/// Neighbours in a list mostly lie near each other, so that every sixteenth is asked first.
fn all_near(
    ps: &[Triangle],
    qs: &[Triangle],
    runs: &[Extent],
    reached: Extent,
    around: Extent,
    d: u32,
) -> bool
    requires ps_in { All IsInGrid ps.now }
    requires inside { AllIn around ps.now }
    requires qs_in { All IsInGrid qs.now }
    requires runs_in { RunsIn around d runs.now qs.now }
    requires reached_in { AllReach around d reached qs.now }
    requires small { IsExtent reached }
    requires d_in { d ≤ distance_limit }
    ensures { IsTrue result ↔ ListsNear ps.now qs.now d }
{
    for start in 0..RUN {
        if row_near(ps, start, qs, runs, reached, around, d) {
            return true;
        }
    }
    false
}

/// Whether a triangle of ps and one of qs, of which there are few, are near.
pub fn block_near(ps: &[Triangle], qs: &[Triangle], d: u32) -> bool
    requires ps_in { All IsInGrid ps.now }
    requires qs_in { All IsInGrid qs.now }
    requires few { length qs.now ≤ 512 }
    requires d_in { d ≤ distance_limit }
    ensures { IsTrue result ↔ ListsNear ps.now qs.now d }
{
    let around = extent_of_all(ps);
    let reached = reached_extent(qs, around, d);
    if is_off(around, reached, d) {
        return false;
    }
    if lists_apart(ps, qs, around, reached, d) {
        return false;
    }
    let runs = run_extents(qs, around, d);
    all_near(ps, qs, &runs, reached, around, d)
}
