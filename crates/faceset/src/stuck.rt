//! Faces that can't be cut.
ghost use Rattle.std.specs.Prelude.{◌≡◌, ◌<◌, ℕ, Some, All, Contains, filter_map, IfOk, MatchOption, option_copied};
ghost use Rattle.std.specs.Bool.{MatchBool};
ghost use Rattle.std.specs.List.Sorted.{IsStrictlyIncreasing};
ghost use Rattle.bim_model.specs.Points.{IsGridPoint};
ghost use Rattle.faceset.specs.FaceSets.{HasStuck, HasUnbridged};
ghost use Rattle.p21_values.specs.Values.{reference_of};
ghost use Rattle.ifc_instances.specs.inner.Least.{LeastOf};
ghost use Rattle.faceset.specs.inner.FaceNumbers.{IsStuckFace, IsStuckIn, IsApartFace};

use crate::faces::{Outcome, cut_face};
use crate::numbers::distinct_numbers;
use crate::sets::{is_polygonal, placed_numbering};
use bim_model::Point;
use p21_table::{Exchange, InstanceRef, ValueRef, Values};
use std::alloc::{AllocError, Global};

/// Whether the face of that number can't be cut.
fn is_stuck(
    alloc: Global,
    exchange: &Exchange,
    numbers: Option<&[ValueRef<'_>]>,
    points: &[Point],
    id: u64,
) -> Result<bool, AllocError>
    requires { All IsGridPoint points.now }
    ensures { IfOk result (λ stuck. MatchBool stuck
        (IsStuckFace exchange.now (option_copied numbers.entry) points.now id)
        (IsStuckFace exchange.now (option_copied numbers.entry) points.now id → ⊥)) }
{
    let Some(face) = exchange.look(id) else {
        return Ok(false);
    };
    match cut_face(alloc, numbers, points, &face)? {
        Outcome::Cut(_triangles) => Ok(false),
        Outcome::Stuck => Ok(true),
        Outcome::Unbridged => Ok(true),
        Outcome::Unready => Ok(false),
    }
}

/// The first of the faces of these numbers, which rise, that can't be cut.
fn first_in(
    alloc: Global,
    exchange: &Exchange,
    numbers: Option<&[ValueRef<'_>]>,
    points: &[Point],
    ids: &[u64],
) -> Result<Option<u64>, AllocError>
    requires in_grid { All IsGridPoint points.now }
    requires rises { IsStrictlyIncreasing ids.now }
    ensures { IfOk result (LeastOf
        (IsStuckIn exchange.now (option_copied numbers.entry) points.now ids.now)) }
{
    for id in ids {
        let stuck = is_stuck(alloc, exchange, numbers, points, *id)?;
        if stuck {
            return Ok(Some(*id));
        }
    }
    Ok(None)
}

/// The least number of a face of the set that can't be cut, where the points are those of its list. None where there is none. A face that is
/// listed many times is cut once.
pub fn least_stuck(
    alloc: Global,
    exchange: &Exchange,
    points: &[Point],
    set: &InstanceRef<'_>,
) -> Result<Option<u64>, AllocError>
    requires { All IsGridPoint points.now }
    ensures { IfOk result (λ found. MatchOption found
        ((id : ℕ) → HasStuck exchange.now points.now set.now id → ⊥)
        (λ id. HasStuck exchange.now points.now set.now id
        × ((k : ℕ) → k < id → HasStuck exchange.now points.now set.now k → ⊥))) }
{
    if !is_polygonal(set) {
        return Ok(None);
    }
    let ids = distinct_numbers(alloc, &set.listed(2))?;
    let numbers = placed_numbering(alloc, set)?;
    first_in(alloc, exchange, numbers.as_deref(), points, &ids)
}

/// Whether the value refers to that number.
fn refers_to(value: &ValueRef<'_>, id: u64) -> bool
    ensures { MatchBool result (reference_of value.now ≡ Some id) (reference_of value.now ≡ Some id → ⊥) }
{
    match value.reference() {
        Some(named) => named == id,
        None => false,
    }
}

/// Whether one of the values refers to that number.
fn is_named(values: &Values<'_>, id: u64) -> bool
    ensures { MatchBool result (Contains (filter_map reference_of values.now) id)
        (Contains (filter_map reference_of values.now) id → ⊥) }
{
    for value in values.iter() {
        if refers_to(&value, id) {
            return true;
        }
    }
    false
}

/// Whether the loops of that face can't be joined.
fn is_apart(
    alloc: Global,
    exchange: &Exchange,
    numbers: Option<&[ValueRef<'_>]>,
    points: &[Point],
    id: u64,
) -> Result<bool, AllocError>
    requires { All IsGridPoint points.now }
    ensures { IfOk result (λ apart. MatchBool apart
        (IsApartFace exchange.now (option_copied numbers.entry) points.now id)
        (IsApartFace exchange.now (option_copied numbers.entry) points.now id → ⊥)) }
{
    let Some(face) = exchange.look(id) else {
        return Ok(false);
    };
    match cut_face(alloc, numbers, points, &face)? {
        Outcome::Cut(_triangles) => Ok(false),
        Outcome::Stuck => Ok(false),
        Outcome::Unbridged => Ok(true),
        Outcome::Unready => Ok(false),
    }
}

/// Whether the face of that number is one of the set's, and its loops can't be joined, where the points are those of the
/// set's list.
pub fn has_unbridged(
    alloc: Global,
    exchange: &Exchange,
    points: &[Point],
    set: &InstanceRef<'_>,
    id: u64,
) -> Result<bool, AllocError>
    requires { All IsGridPoint points.now }
    ensures { IfOk result (λ found. MatchBool found (HasUnbridged exchange.now points.now set.now id)
        (HasUnbridged exchange.now points.now set.now id → ⊥)) }
{
    if !is_polygonal(set) {
        return Ok(false);
    }
    if !is_named(&set.listed(2), id) {
        return Ok(false);
    }
    let numbers = placed_numbering(alloc, set)?;
    is_apart(alloc, exchange, numbers.as_deref(), points, id)
}
