//! Indexes that name nothing.
ghost use Rattle.std.specs.Prelude.{◌≡◌, ◌<◌, ◌^◌, ◌∷◌, [], map, Any, IfOk, OnOk};
ghost use Rattle.std.specs.Bool.{MatchBool};
ghost use Rattle.faceset.specs.Indexes.{PointsNowhere};
ghost use Rattle.p21_values.specs.Attributes.{items_in, led_to};
ghost use Rattle.faceset.specs.FaceSets.{all_corners, rows_of, HasBadNumber, HasBadIndex, counted_by};
ghost use Rattle.faceset.specs.Reaches.{AreReaches};
ghost use Rattle.faceset.specs.Learnt.{IsLearnt};

use crate::indexes::place_of;
use crate::learnt::Learnt;
use crate::reaches::{FaceReaches, reach_of_face};
use crate::sets::{is_polygonal, numbering};
use p21_table::{Exchange, InstanceRef, ValueRef, Values};
use std::alloc::AllocError;

/// Whether one of the values counts none of so many things.
fn has_bad_item(values: &Values<'_>, count: usize) -> bool
    requires { count < 2 ^ 63 }
    ensures { MatchBool result (Any (PointsNowhere count) values.now)
        (Any (PointsNowhere count) values.now → ⊥) }
{
    for value in values.iter() {
        if place_of(&value, count).is_none() {
            return true;
        }
    }
    false
}

/// Whether an index of the rows counts none of so many things.
fn has_bad_row(rows: &Values<'_>, count: usize) -> bool
    requires { count < 2 ^ 63 }
    ensures { MatchBool result (Any (Any (PointsNowhere count)) (map items_in rows.now))
        (Any (Any (PointsNowhere count)) (map items_in rows.now) → ⊥) }
{
    for row in rows.iter() {
        if has_bad_item(&row.items_in(), count) {
            return true;
        }
    }
    false
}

/// Whether the value refers to a face of which an index counts none of so many things. A face that is known not to have one isn't looked at
/// again.
#[tactic(auto, using(ifc_instances::proofs::LedTo::led_none, ifc_instances::proofs::LedTo::led_nowhere, ifc_instances::proofs::LedTo::led_one))]
fn is_bad_face(
    exchange: &Exchange,
    reaches: &mut FaceReaches,
    value: &ValueRef<'_>,
    count: usize,
) -> Result<bool, AllocError>
    requires few { count < 2 ^ 63 }
    requires known { AreReaches exchange.now reaches.old }
    ensures bad { IfOk result (λ bad. MatchBool bad
        (Any (Any (PointsNowhere count)) (map all_corners (led_to exchange.now (value.now ∷ []))))
        (Any (Any (PointsNowhere count)) (map all_corners (led_to exchange.now (value.now ∷ []))) → ⊥)) }
    ensures kept { OnOk result (AreReaches exchange.now reaches.new) }
{
    let Some(id) = value.reference() else {
        return Ok(false);
    };
    let Some(face) = exchange.look(id) else {
        return Ok(false);
    };
    if reaches.is_within(id, count) {
        return Ok(false);
    }
    let Some(reach) = reach_of_face(&face, count) else {
        return Ok(true);
    };
    reaches.put(id, reach)?;
    Ok(false)
}

/// Whether an index of the faces that the values refer to counts none of so many things.
fn has_bad_face(
    exchange: &Exchange,
    reaches: &mut FaceReaches,
    values: &Values<'_>,
    count: usize,
) -> Result<bool, AllocError>
    requires few { count < 2 ^ 63 }
    requires known { AreReaches exchange.now reaches.old }
    ensures bad { IfOk result (λ bad. MatchBool bad
        (Any (Any (PointsNowhere count)) (map all_corners (led_to exchange.now values.now)))
        (Any (Any (PointsNowhere count)) (map all_corners (led_to exchange.now values.now)) → ⊥)) }
    ensures kept { OnOk result (AreReaches exchange.now reaches.new) }
{
    for value in values.iter() {
        let bad = is_bad_face(exchange, reaches, &value, count)?;
        if bad {
            return Ok(true);
        }
    }
    Ok(false)
}

/// Whether an index of the set's rows or faces counts none of so many things.
fn has_bad_rows(
    exchange: &Exchange,
    reaches: &mut FaceReaches,
    set: &InstanceRef<'_>,
    count: usize,
) -> Result<bool, AllocError>
    requires few { count < 2 ^ 63 }
    requires known { AreReaches exchange.now reaches.old }
    ensures bad { IfOk result (λ bad. MatchBool bad
        (Any (Any (PointsNowhere count)) (rows_of exchange.now set.now))
        (Any (Any (PointsNowhere count)) (rows_of exchange.now set.now) → ⊥)) }
    ensures kept { OnOk result (AreReaches exchange.now reaches.new) }
{
    if !is_polygonal(set) {
        return Ok(has_bad_row(&set.listed(3), count));
    }
    has_bad_face(exchange, reaches, &set.listed(2), count)
}

/// Whether a number of the set's PnIndex, where it has one, names none of so many points.
fn has_bad_number(numbers: &Option<Values<'_>>, count: usize) -> bool
    requires { count < 2 ^ 63 }
    ensures { MatchBool result (HasBadNumber numbers.now count)
        (HasBadNumber numbers.now count → ⊥) }
{
    match numbers {
        Some(numbers) => has_bad_item(numbers, count),
        None => false,
    }
}

/// How many things the indexes of a set count.
fn counted_by(numbers: &Option<Values<'_>>, count: usize) -> usize
    requires { count < 2 ^ 63 }
    ensures value { result ≡ counted_by numbers.now count }
    ensures small { result < 2 ^ 63 }
{
    match numbers {
        Some(numbers) => numbers.len(),
        None => count,
    }
}

/// Whether an index of the set or of its faces counts nothing, or a number in its PnIndex names no point (IFC4 ADD2 TC1,
/// IfcTriangulatedFaceSet, IfcPolygonalFaceSet). What it learns of the faces and of the list of points is kept, so that each is looked at
/// once by the calls for many sets of one file.
pub fn has_bad_index(
    exchange: &Exchange,
    learnt: &mut Learnt,
    set: &InstanceRef<'_>,
) -> Result<bool, AllocError>
    requires { IsLearnt exchange.now learnt.old }
    ensures bad { IfOk result (λ bad. MatchBool bad (HasBadIndex exchange.now set.now)
        (HasBadIndex exchange.now set.now → ⊥)) }
    ensures kept { OnOk result (IsLearnt exchange.now learnt.new) }
{
    let numbers = numbering(set);
    let count = learnt.lists.of(exchange, set)?;
    if has_bad_number(&numbers, count) {
        return Ok(true);
    }
    has_bad_rows(
        exchange,
        &mut learnt.faces,
        set,
        counted_by(&numbers, count),
    )
}
