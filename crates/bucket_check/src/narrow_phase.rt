//! The clashes among the members of a bucket.
ghost use Rattle.std.specs.Prelude.{◌≡◌, ℕ, ◌+◌, ◌-◌, ◌*◌, ◌<◌, ◌≤◌, ◌++◌, length, map, All, IfOk, OnOk};
ghost use Rattle.std.specs.List.{flat_map};
ghost use Rattle.bim_model.specs.Models.{IsModelled};
ghost use Rattle.bim_model.specs.Distances.{in_grid_numbers};
ghost use Rattle.bim_model.specs.Rules.{greatest_distance};
ghost use Rattle.bim_model.specs.Keys.{subjects_of};
ghost use Rattle.box_lanes.specs.BoxPlaces.{box_at};
ghost use Rattle.bucket_grid.specs.Cells.{owner_of, start_of, members};
ghost use Rattle.bucket_grid.specs.Subjects.{subject_at};
ghost use Rattle.bucket_grid.specs.declared.grid.TheConstants.{MOST_ELEMENTS};
ghost use Rattle.bucket_check.specs.Clashes.{meet_by, clash_by, clash_of, is_cell, pair_if, row_by};
ghost use Rattle.bucket_check.specs.ClashSets.{own_rule, rule_at, found_among, own_places};

use crate::bucket_work::BucketWork;
use crate::pair::SetPair;
use crate::room::Room;
use crate::set::BucketSet;
use bim_model::{
    Element, Found, Items, Meeting, Point, Shared, Steps, greatest_distance, know, rule_of,
};
use bucket_grid::{Cell, Grid, owner_of, start_of};
use clearance::solids_near;
use std::alloc::{AllocError, Global};
use std::sync::ledger::Ledger;
use tri_pierce::solids_pierce;

fn is_cell(a: Cell, b: Cell) -> bool
    ensures { result ≡ is_cell a b }
{
    a.x == b.x && a.y == b.y && a.z == b.z
}

// Whether the cell owns two elements.
fn owns(grid: &Grid, cell: Cell, a: u32, b: u32) -> bool
    requires a_in { a < length grid.now.boxes }
    requires b_in { b < length grid.now.boxes }
    ensures { result ≡ is_cell (owner_of (box_at grid.now.boxes a) (box_at grid.now.boxes b)) cell }
{
    let boxes = grid.boxes();
    is_cell(owner_of(&boxes[a as usize], &boxes[b as usize]), cell)
}

// Whether two elements meet as a rule asks.
fn meet<L: Ledger>(found: Found, a: &Element, b: &Element, steps: &mut Steps<L>) -> bool
    requires a_in { IsModelled a.now }
    requires b_in { IsModelled b.now }
    ensures is { result ≡ meet_by found.meeting found.distance a.now b.now }
    ensures steps { steps.new ≤ steps.old + 1 }
{
    match found.meeting {
        Meeting::Within => solids_near(a, b, found.distance.in_grid_numbers(), steps),
        Meeting::Through => solids_pierce(a, b, steps),
    }
}

// The number of a rule that decides for two elements, where they meet as it asks.
fn rule_if_met<L: Ledger>(
    found: Found,
    a: &Element,
    b: &Element,
    steps: &mut Steps<L>,
) -> Option<u32>
    requires a_in { IsModelled a.now }
    requires b_in { IsModelled b.now }
    ensures rule { result ≡ clash_by (Some found) a.now b.now }
    ensures steps { steps.new ≤ steps.old + 1 }
{
    let rule = found.rule;
    if meet(found, a, b, steps) {
        Some(rule)
    } else {
        None
    }
}

// The rule by which two elements clash.
fn clash_of<L: Ledger>(grid: &Grid, a: u32, b: u32, steps: &mut Steps<L>) -> Option<u32>
    requires a_in { a < length grid.now.boxes }
    requires b_in { b < length grid.now.boxes }
    ensures rule { let subjects = subjects_of grid.now.version.models in
        result ≡ clash_of grid.now.version.rules (subject_at subjects a) (subject_at subjects b) }
    ensures steps { steps.new ≤ steps.old + 1 }
{
    know(grid.boxes());
    let first = grid.element(a as usize);
    let second = grid.element(b as usize);
    let same_model = grid.same_model(a as usize, b as usize);
    let rules = grid.rules();
    match rule_of(rules, first, second, same_model) {
        None => None,
        Some(found) => rule_if_met(found, first, second, steps),
    }
}

// The rule by which two elements clash, where the cell owns them.
fn own_rule<L: Ledger>(grid: &Grid, cell: Cell, a: u32, b: u32, steps: &mut Steps<L>) -> Option<u32>
    requires a_in { a < length grid.now.boxes }
    requires b_in { b < length grid.now.boxes }
    ensures rule { result ≡ own_rule grid.now.version grid.now.boxes cell a b }
    ensures steps { steps.new ≤ steps.old + 1 }
{
    if owns(grid, cell, a, b) {
        clash_of(grid, a, b, steps)
    } else {
        None
    }
}

// Adds the pair of two members by their places, where the cell owns it and they clash.
fn add_pair<L: Ledger>(
    grid: &Grid,
    cell: Cell,
    members: &[u32],
    first: usize,
    second: u32,
    pairs: &mut Vec<SetPair>,
    steps: &mut Steps<L>,
) -> Result<(), AllocError>
    requires first_in { first < length members.now }
    requires second_in { second < length members.now }
    requires few { length members.now ≤ MOST_ELEMENTS }
    requires members_in { All (λ n. n < length grid.now.boxes) members.now }
    ensures pairs { OnOk result (pairs.new.items ≡ pairs.old.items
        ++ pair_if first second (rule_at grid.now.version grid.now.boxes cell members.now first second)) }
    ensures steps { steps.new ≤ steps.old + 1 }
{
    match own_rule(grid, cell, members[first], members[second as usize], steps) {
        None => Ok(()),
        Some(rule) => {
            pairs.push(SetPair {
                a: first as u32,
                b: second,
                rule,
            })?;
            Ok(())
        }
    }
}

// Adds the pairs of one member with those at the places. Most rows have none, and aren't worth a call.
#[inline(always)]
fn add_row<L: Ledger>(
    grid: &Grid,
    cell: Cell,
    members: &[u32],
    first: usize,
    places: &[u32],
    pairs: &mut Vec<SetPair>,
    steps: &mut Steps<L>,
) -> Result<(), AllocError>
    requires first_in { first < length members.now }
    requires places_in { All (λ k. k < length members.now) places.now }
    requires few { length members.now ≤ MOST_ELEMENTS }
    requires members_in { All (λ n. n < length grid.now.boxes) members.now }
    ensures pairs { OnOk result (pairs.new.items ≡ pairs.old.items
        ++ flat_map (λ j.
        pair_if first j (rule_at grid.now.version grid.now.boxes cell members.now first j)) places.now) }
    ensures steps { steps.new ≤ steps.old + length places.now }
{
    for place in places {
        add_pair(grid, cell, members, first, *place, pairs, steps)?;
    }
    Ok(())
}

// Adds the pairs of one member with the later ones, whose boxes stand in the room's table. Where the cell owns a pair,
// on each axis one of the two begins where the cell's own boxes do.
fn add_later<L: Ledger>(
    grid: &Grid,
    cell: Cell,
    members: &[u32],
    first: usize,
    greatest: u32,
    start: &Point,
    room: &mut Room,
    pairs: &mut Vec<SetPair>,
    steps: &mut Steps<L>,
) -> Result<(), AllocError>
    requires first_in { first < length members.now }
    requires few { length members.now ≤ MOST_ELEMENTS }
    requires members_in { All (λ n. n < length grid.now.boxes) members.now }
    requires greatest { greatest ≡ in_grid_numbers (greatest_distance grid.now.version.rules) }
    requires start { start.now ≡ start_of cell }
    requires table { room.old.table ≡ map (box_at grid.now.boxes) members.now }
    ensures table { room.new.table ≡ room.old.table }
    ensures pairs { OnOk result (pairs.new.items ≡ pairs.old.items
        ++ row_by (length members.now) (rule_at grid.now.version grid.now.boxes cell members.now) first) }
    ensures steps { steps.new ≤ steps.old + (length members.now - (first + 1)) }
{
    let boxes = grid.boxes();
    let probe = &boxes[members[first] as usize];
    room.table
        .later_within(first, probe, greatest, start, &mut room.places)?;
    add_row(grid, cell, members, first, &room.places, pairs, steps)?;
    Ok(())
}

// The clashes among these members that the cell owns, by their places.
fn found_among<L: Ledger>(
    alloc: Global,
    grid: &Grid,
    cell: Cell,
    members: &[u32],
    room: &mut Room,
    steps: &mut Steps<L>,
) -> Result<Vec<SetPair>, AllocError>
    requires few { length members.now ≤ MOST_ELEMENTS }
    requires members_in { All (λ n. n < length grid.now.boxes) members.now }
    ensures pairs { IfOk result
        (λ pairs. pairs.items ≡ found_among grid.now.version grid.now.boxes cell members.now) }
    ensures steps { 2 * steps.new ≤ 2 * steps.old + length members.now * (length members.now - 1) }
{
    let greatest = greatest_distance(grid.rules()).in_grid_numbers();
    let start = start_of(cell);
    room.table.refill(grid.boxes(), members)?;
    let mut pairs = Vec::new(alloc);
    for first in 0..members.len() {
        add_later(
            grid, cell, members, first, greatest, &start, room, &mut pairs, steps,
        )?;
    }
    Ok(pairs)
}

// The clashes that the cell owns, by places among its members.
fn own_places<L: Ledger>(
    alloc: Global,
    grid: &Grid,
    cell: Cell,
    room: &mut Room,
    steps: &mut Steps<L>,
) -> Result<Vec<SetPair>, AllocError>
    ensures pairs { IfOk result (λ pairs. pairs.items ≡ own_places grid.now cell) }
    ensures steps { let m = length (members grid.now.boxes cell) in
        2 * steps.new ≤ 2 * steps.old + m * (m - 1) }
{
    know(grid.boxes());
    let members = grid.members_in_turn(cell, &mut room.next);
    found_among(alloc, grid, cell, members, room, steps)
}

// The pairs as a list that several owners hold.
fn shared(
    alloc: Global,
    pairs: Vec<SetPair>,
    room: &mut Room,
) -> Result<Shared<Items<SetPair>>, AllocError>
    ensures { IfOk result (λ list. list ≡ pairs.items) }
{
    if pairs.is_empty() {
        return room.no_pairs(alloc);
    }
    Shared::new(alloc, Items::from_vec(pairs))
}

/// Checks a bucket: the set has exactly the clashes of the version that the bucket owns, in the order of
/// keys. Of m members at most m(m - 1)/2 pairs are tested exactly, each in one step. An error where memory is
/// wanting. The room may be used again for any bucket.
pub fn check<L: Ledger>(
    alloc: Global,
    work: BucketWork,
    room: &mut Room,
    steps: &mut Steps<L>,
) -> Result<BucketSet, AllocError>
    ensures work { IfOk result (λ set. set.work ≡ work) }
    ensures pairs { IfOk result (λ set. set.pairs ≡ own_places work.grid work.cell) }
    ensures steps { let m = length (members work.grid.boxes work.cell) in
        2 * steps.new ≤ 2 * steps.old + m * (m - 1) }
{
    let pairs = own_places(alloc, work.grid.get(), work.cell, room, steps)?;
    let pairs = shared(alloc, pairs, room)?;
    Ok(BucketSet::of(work, pairs))
}
