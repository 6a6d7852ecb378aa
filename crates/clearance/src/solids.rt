//! Whether two elements come within a distance.
// Two elements.
ghost use Rattle.std.specs.Prelude.{◌≡◌, ◌+◌, ◌≤◌, ◌↔◌, IsTrue, All};
ghost use Rattle.tri_exact.specs.ProductLimits.{distance_limit};
ghost use Rattle.bim_model.specs.Points.{IsInGrid};
ghost use Rattle.clearance.specs.Near.{ListsNear, ElementsNear, ElementInGrid};
ghost use Rattle.clearance.specs.Decided.{is_near_lists, is_near};

use crate::boxes::extent_of_all;
use crate::triangle_runs::{BLOCK, RUN, block_near, pairs_near, split_front};
use bim_model::{Element, Steps, Triangle};
use std::sync::ledger::Ledger;

/// Whether a triangle of one list and one of the other come within d, in grid numbers. It takes no memory.
pub fn lists_near(ps: &[Triangle], qs: &[Triangle], d: u32) -> bool
    requires ps_in { All IsInGrid ps.now }
    requires qs_in { All IsInGrid qs.now }
    requires d_in { d ≤ distance_limit }
    ensures near { IsTrue result ↔ ListsNear ps.now qs.now d }
    ensures value { result ≡ is_near_lists ps.now qs.now d }
{
    if qs.len() <= RUN {
        return pairs_near(ps, qs, extent_of_all(qs), d);
    }
    let mut rest = qs;
    while !rest.is_empty() {
        let (front, behind) = split_front(rest, BLOCK);
        if block_near(ps, front, d) {
            return true;
        }
        rest = behind;
    }
    false
}

/// Whether two elements are near: whether a triangle of the one and a triangle of the other come within d, in
/// grid numbers. It takes no memory, and exactly one step.
pub fn solids_near<L: Ledger>(a: &Element, b: &Element, d: u32, steps: &mut Steps<L>) -> bool
    requires a_in { ElementInGrid a.now }
    requires b_in { ElementInGrid b.now }
    requires d_in { d ≤ distance_limit }
    ensures near { IsTrue result ↔ ElementsNear a.now b.now d }
    ensures value { result ≡ is_near a.now b.now d }
    ensures step { steps.new ≡ steps.old + 1 }
{
    steps.tick();
    lists_near(a.triangles.as_slice(), b.triangles.as_slice(), d)
}
