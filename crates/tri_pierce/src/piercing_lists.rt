//! Whether two elements pierce each other.
// Lists of triangles, and elements.
ghost use Rattle.std.specs.Prelude.{◌≡◌, ◌+◌, ◌<◌, ◌↔◌, IsTrue, All, length, take, drop};
ghost use Rattle.bim_model.specs.Points.{IsInGrid};
ghost use Rattle.bim_model.specs.Boxes.{IsExtentOf};
ghost use Rattle.clearance.specs.Near.{ElementInGrid};
ghost use Rattle.tri_pierce.specs.Piercing.{PiercesAny, ListsPierce, ElementsPierce};
ghost use Rattle.tri_pierce.specs.PiercingSigns.{is_piercing_lists, is_piercing};

use crate::piercing::pierces;
use crate::touching_boxes::{are_apart, is_outside};
use bim_model::{Element, Extent, Steps, Triangle, extent_of};
use std::sync::ledger::Ledger;

/// How many triangles of a list share a box.
const RUN: usize = 16;

/// Whether p and a triangle of the list pierce.
#[inline(always)]
fn pierces_any(p: &Triangle, qs: &[Triangle]) -> bool
    requires p_in { IsInGrid p.now }
    requires qs_in { All IsInGrid qs.now }
    ensures { IsTrue result ↔ PiercesAny p.now qs.now }
{
    for q in qs {
        if pierces(p, q) {
            return true;
        }
    }
    false
}

/// The same, the box round the list being known.
#[inline(always)]
fn row_pierces(p: &Triangle, qs: &[Triangle], around: Extent) -> bool
    requires p_in { IsInGrid p.now }
    requires qs_in { All IsInGrid qs.now }
    requires around_is { IsExtentOf qs.now around }
    ensures { IsTrue result ↔ PiercesAny p.now qs.now }
{
    if is_outside(p, around) {
        return false;
    }
    pierces_any(p, qs)
}

/// Whether a triangle of ps and one of qs pierce, the box round qs being known.
fn rows_pierce(ps: &[Triangle], qs: &[Triangle], around: Extent) -> bool
    requires ps_in { All IsInGrid ps.now }
    requires qs_in { All IsInGrid qs.now }
    requires around_is { IsExtentOf qs.now around }
    ensures { IsTrue result ↔ ListsPierce ps.now qs.now }
{
    for p in ps {
        if row_pierces(p, qs, around) {
            return true;
        }
    }
    false
}

/// The same of a few triangles, whose own box is asked first.
fn run_pierces(run: &[Triangle], qs: &[Triangle], around: Extent) -> bool
    requires run_in { All IsInGrid run.now }
    requires some { 0 < length run.now }
    requires qs_in { All IsInGrid qs.now }
    requires around_is { IsExtentOf qs.now around }
    ensures { IsTrue result ↔ ListsPierce run.now qs.now }
{
    let own = extent_of(run);
    if are_apart(own, around) {
        return false;
    }
    rows_pierce(qs, run, own)
}

/// The first triangles of a list, as many as share a box, and those after them.
#[inline(always)]
fn split_run(ts: &[Triangle]) -> (&[Triangle], &[Triangle])
    ensures front { result.0.now ≡ take 16 ts.now }
    ensures behind { result.1.now ≡ drop 16 ts.now }
{
    if RUN < ts.len() {
        ts.split_at(RUN)
    } else {
        ts.split_at(ts.len())
    }
}

/// Whether a triangle of one list and a triangle of the other pierce. It takes no memory.
pub fn lists_pierce(ps: &[Triangle], qs: &[Triangle]) -> bool
    requires ps_in { All IsInGrid ps.now }
    requires qs_in { All IsInGrid qs.now }
    ensures pierce { IsTrue result ↔ ListsPierce ps.now qs.now }
    ensures value { result ≡ is_piercing_lists ps.now qs.now }
{
    if qs.is_empty() {
        return false;
    }
    let around = extent_of(qs);
    let mut rest = ps;
    while !rest.is_empty() {
        let (front, behind) = split_run(rest);
        if run_pierces(front, qs, around) {
            return true;
        }
        rest = behind;
    }
    false
}

/// Whether two elements pierce: whether a triangle of the one and a triangle of the other do. It takes no memory, and
/// exactly one step.
pub fn solids_pierce<L: Ledger>(a: &Element, b: &Element, steps: &mut Steps<L>) -> bool
    requires a_in { ElementInGrid a.now }
    requires b_in { ElementInGrid b.now }
    ensures pierce { IsTrue result ↔ ElementsPierce a.now b.now }
    ensures value { result ≡ is_piercing a.now b.now }
    ensures step { steps.new ≡ steps.old + 1 }
{
    steps.tick();
    lists_pierce(a.triangles.as_slice(), b.triangles.as_slice())
}
