//! From which count on the indexes of faces count something.
ghost use Rattle.std.specs.Prelude.{◌≡◌, ◌<◌, ◌≤◌, ◌^◌, ℕ, None, All, Any, map, OnOk, MatchOption};
ghost use Rattle.std.specs.List.{flat_map};
ghost use Rattle.std.specs.Bool.{MatchBool, ⊤};
ghost use Rattle.p21_values.specs.Attributes.{items_in};
ghost use Rattle.faceset.specs.FaceSets.{all_corners};
ghost use Rattle.faceset.specs.Indexes.{PointsNowhere};
ghost use Rattle.faceset.specs.Reaches.{CountsFrom, PutsKept, IsWithin, kept_in};

use crate::indexes::place_of;
use crate::sets::{outline, spelled_loops};
use p21_table::{InstanceRef, Values};
use std::alloc::{AllocError, Global};
use std::collections::BTreeMap;
use std::marker::Model;

/// The greater of two counts.
fn greater(a: usize, b: usize) -> usize
    ensures first { a ≤ result }
    ensures second { b ≤ result }
    ensures within { (bound : ℕ) → a ≤ bound → b ≤ bound → result ≤ bound }
{
    if a < b { b } else { a }
}

/// A count from which on each of the values counts something. None where one of them counts none of so many things.
fn reach_of(values: &Values<'_>, count: usize) -> Option<usize>
    requires { count < 2 ^ 63 }
    ensures { MatchOption result (Any (PointsNowhere count) values.now)
        (λ reach. All (CountsFrom reach) values.now × (reach ≤ count)) }
{
    let mut reach = 0;
    for value in values.iter() {
        let Some(place) = place_of(&value, count) else {
            return None;
        };
        reach = greater(reach, place + 1);
    }
    Some(reach)
}

/// The same of the values of rows.
fn reach_of_rows(rows: &Values<'_>, count: usize) -> Option<usize>
    requires { count < 2 ^ 63 }
    ensures { MatchOption result
        (Any (PointsNowhere count) (flat_map (λ loop. loop) (map items_in rows.now)))
        (λ reach. All (CountsFrom reach) (flat_map (λ loop. loop) (map items_in rows.now))
        × (reach ≤ count)) }
{
    let mut reach = 0;
    for row in rows.iter() {
        let Some(here) = reach_of(&row.items_in(), count) else {
            return None;
        };
        reach = greater(reach, here);
    }
    Some(reach)
}

/// The same of all indexes of a face.
pub fn reach_of_face(face: &InstanceRef<'_>, count: usize) -> Option<usize>
    requires { count < 2 ^ 63 }
    ensures { MatchOption result (Any (PointsNowhere count) (all_corners face.now))
        (λ reach. All (CountsFrom reach) (all_corners face.now) × (reach ≤ count)) }
{
    let Some(outer) = reach_of(&outline(face), count) else {
        return None;
    };
    match reach_of_rows(&spelled_loops(face), count) {
        Some(inner) => Some(greater(outer, inner)),
        None => None,
    }
}

/// The counts from which on the indexes of faces count something, by the numbers of the faces, so that a face is looked at once, however often
/// it is listed and by however many sets. Contracts see the list of the numbers and the counts.
#[derive(Drop)]
pub struct FaceReaches {
    reaches: BTreeMap<u64, usize>,
}

impl Model for FaceReaches {
    ghost use Rattle.std.specs.Prelude.{ℕ, List};

    ghost Value = { List (ℕ × ℕ) };

    ghost view = { λ r. r.reaches.entries };
}

impl FaceReaches {
    /// None as yet. Takes no memory.
    pub fn new(alloc: Global) -> FaceReaches
        ensures { (id : ℕ) → kept_in result id ≡ None }
    {
        FaceReaches {
            reaches: BTreeMap::new(alloc),
        }
    }

    /// Whether it is known that each index of the face of that number counts one of so many things.
    pub(crate) fn is_within(&self, id: u64, count: usize) -> bool
        ensures { MatchBool result (IsWithin self.now id count) ⊤ }
    {
        let Some(reach) = self.reaches.get(&id) else {
            return false;
        };
        if *reach <= count {
            return true;
        }
        false
    }

    pub(crate) fn put(&mut self, id: u64, reach: usize) -> Result<(), AllocError>
        ensures { OnOk result (PutsKept (kept_in self.old) (kept_in self.new) id reach) }
    {
        self.reaches.insert(id, reach)?;
        Ok(())
    }
}
