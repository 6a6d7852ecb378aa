//! The least of the instances that are used that has a fault.
ghost use Rattle.std.specs.Prelude.{ℕ, MatchOption, Contains, IfOk, OnOk};
ghost use Rattle.std.specs.Bool.{MatchBool};
ghost use Rattle.std.specs.List.Sorted.{IsStrictlyIncreasing};
ghost use Rattle.placement.specs.Directions.{HasDirections};
ghost use Rattle.placement.specs.Operators.{HasOperatorDirections};
ghost use Rattle.faceset.specs.Learnt.{IsLearnt};
ghost use Rattle.model_build.specs.FaultyInstances.{IsLeastOf, NoneOf, IsBadSet, IsAxisPlacement, IsOperator, IsOblique};

use faceset::{Learnt, has_bad_index, is_set};
use ifc_instances::Entity;
use p21_table::Exchange;
use placement::{axes_of, operator_axes};
use std::alloc::{AllocError, Global};

fn is_bad_set(exchange: &Exchange, learnt: &mut Learnt, id: u64) -> Result<bool, AllocError>
    requires { IsLearnt exchange.now learnt.old }
    ensures bad { IfOk result (λ bad. MatchBool bad (IsBadSet exchange.now id)
        (IsBadSet exchange.now id → ⊥)) }
    ensures kept { OnOk result (IsLearnt exchange.now learnt.new) }
{
    let Some(set) = exchange.look(id) else {
        return Ok(false);
    };
    if !is_set(&set) {
        return Ok(false);
    }
    has_bad_index(exchange, learnt, &set)
}

/// The least of these instances that is a face set with an index that counts nothing (IFC4 ADD2 TC1, IfcTriangulatedFaceSet,
/// IfcPolygonalFaceSet, CoordIndex, PnIndex).
pub fn first_bad_index(
    alloc: Global,
    exchange: &Exchange,
    used: &[u64],
) -> Result<Option<u64>, AllocError>
    requires { IsStrictlyIncreasing used.now }
    ensures { IfOk result (λ found. MatchOption found (NoneOf used.now (IsBadSet exchange.now))
        (IsLeastOf used.now (IsBadSet exchange.now))) }
{
    let mut learnt = Learnt::new(alloc);
    for id in used {
        let bad = is_bad_set(exchange, &mut learnt, *id)?;
        if bad {
            return Ok(Some(*id));
        }
    }
    Ok(None)
}

fn is_axis_placement(exchange: &Exchange, id: u64) -> bool
    ensures { MatchBool result (IsAxisPlacement exchange.now id) (IsAxisPlacement exchange.now id → ⊥) }
{
    match exchange.look(id) {
        Some(instance) => Entity::AxisPlacement.includes(&instance),
        None => false,
    }
}

fn is_operator(exchange: &Exchange, id: u64) -> bool
    ensures { MatchBool result (IsOperator exchange.now id) (IsOperator exchange.now id → ⊥) }
{
    match exchange.look(id) {
        Some(instance) => Entity::Operator.includes(&instance),
        None => false,
    }
}

fn is_oblique(exchange: &Exchange, id: u64) -> bool
    requires placement { IsAxisPlacement exchange.now id → HasDirections exchange.now id }
    requires operator { IsOperator exchange.now id → HasOperatorDirections exchange.now id }
    ensures { MatchBool result (IsOblique exchange.now id) (IsOblique exchange.now id → ⊥) }
{
    if is_axis_placement(exchange, id) {
        return axes_of(exchange, id).is_none();
    }
    if is_operator(exchange, id) {
        return operator_axes(exchange, id).is_none();
    }
    false
}

/// The least of these instances that is an axis placement or an operator whose axes don't lie along the grid's. The directions of them all
/// can be read.
pub fn first_oblique(exchange: &Exchange, used: &[u64]) -> Option<u64>
    requires rises { IsStrictlyIncreasing used.now }
    requires placements { (id : ℕ) → Contains used.now id → IsAxisPlacement exchange.now id
        → HasDirections exchange.now id }
    requires operators { (id : ℕ) → Contains used.now id → IsOperator exchange.now id
        → HasOperatorDirections exchange.now id }
    ensures { MatchOption result (NoneOf used.now (IsOblique exchange.now))
        (IsLeastOf used.now (IsOblique exchange.now)) }
{
    for id in used {
        if is_oblique(exchange, *id) {
            return Some(*id);
        }
    }
    None
}
