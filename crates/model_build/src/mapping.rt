//! Ways of mapping that aren't read (IFC4 ADD2 TC1, IfcMappedItem, IfcRepresentationMap, IfcCartesianTransformationOperator3D).
ghost use Rattle.std.specs.Prelude.{◌≡◌, ℕ, MatchOption};
ghost use Rattle.std.specs.Bool.{MatchBool};
ghost use Rattle.ifc_instances.specs.inner.Least.{LeastOf};
ghost use Rattle.model_build.specs.FaultyInstances.{ShownBy};
ghost use Rattle.model_build.specs.Unsupported.{IsNotOne, IsNoTarget, IsAway, IsAwayValue, IsTurned, IsOtherOrigin};
ghost use Rattle.model_build.specs.inner.Showing.{ItemShows, NamesNoTarget, HasPlace, are_away};

use crate::unsupported::lesser;
use bim_model::Mode;
use faceset::place_of;
use ifc_elements::is_mapped_item;
use ifc_instances::Entity;
use ifc_units::{GridFault, LengthError, Scale, length};
use p21_table::{Exchange, InstanceRef, ValueRef};
use placement::{Axes, Axis, axes_of};

/// The axes of the grid.
const PLAIN: Axes = Axes {
    x: Axis {
        direction: 0,
        negative: false,
    },
    y: Axis {
        direction: 1,
        negative: false,
    },
    z: Axis {
        direction: 2,
        negative: false,
    },
};

/// Where a length lies: at zero, off zero, or between two grid numbers, as one that is no number does too.
#[derive(Clone, Copy)]
pub enum Lies {
    AtZero,
    OffZero,
    Between,
}

/// Whether a value is a number other than 1.
fn is_not_one(value: &ValueRef<'_>) -> bool
    ensures { MatchBool result (IsNotOne value.now) (IsNotOne value.now → ⊥) }
{
    value.number().is_some() && place_of(value, 1).is_none()
}

/// Whether it is no operator, or one with a scale other than 1.
fn is_no_target(instance: &InstanceRef<'_>) -> bool
    ensures { MatchBool result (IsNoTarget instance.now) (IsNoTarget instance.now → ⊥) }
{
    if !Entity::Operator.includes(instance) {
        return true;
    }
    match instance.attribute(3) {
        Some(scale) => is_not_one(&scale),
        None => false,
    }
}

/// The number of the instance by which an item is mapped, where that is no operator, or one with a scale other than 1.
fn other_target(exchange: &Exchange, item: &InstanceRef<'_>) -> Option<u64>
    ensures { MatchOption result ((id : ℕ) → NamesNoTarget exchange.now item.now id → ⊥)
        (NamesNoTarget exchange.now item.now) }
{
    let id = item.reference_at(1)?;
    let target = exchange.look(id)?;
    if is_no_target(&target) {
        Some(id)
    } else {
        None
    }
}

fn where_it_lies(value: &ValueRef<'_>, scale: Scale, mode: Mode) -> Lies
    ensures { HasPlace scale mode value.now result }
{
    match length(value, scale, mode) {
        Ok(length) => {
            if length == 0 {
                Lies::AtZero
            } else {
                Lies::OffZero
            }
        }
        Err(LengthError::Refused(GridFault::TooFar)) => Lies::OffZero,
        Err(LengthError::Refused(GridFault::OffGrid)) => Lies::Between,
        Err(LengthError::Unread) => Lies::Between,
    }
}

/// Whether three lengths have grid numbers that aren't all 0.
fn are_away(a: Lies, b: Lies, c: Lies) -> bool
    ensures { result ≡ are_away a b c }
{
    match (a, b, c) {
        (Lies::Between, _, _) => false,
        (_, Lies::Between, _) => false,
        (_, _, Lies::Between) => false,
        (Lies::AtZero, Lies::AtZero, Lies::AtZero) => false,
        _ => true,
    }
}

/// Whether a value is three lengths with grid numbers that aren't all 0.
fn is_away_value(value: &ValueRef<'_>, scale: Scale, mode: Mode) -> bool
    ensures { MatchBool result (IsAwayValue scale mode value.now) (IsAwayValue scale mode value.now → ⊥) }
{
    let Some(items) = value.items() else {
        return false;
    };
    match items.three() {
        Some(found) => are_away(
            where_it_lies(&found.x, scale, mode),
            where_it_lies(&found.y, scale, mode),
            where_it_lies(&found.z, scale, mode),
        ),
        None => false,
    }
}

/// Whether the location of the axis placement of that number has three grid numbers that aren't all 0.
fn is_away(exchange: &Exchange, id: u64, scale: Scale, mode: Mode) -> bool
    ensures { MatchBool result (IsAway exchange.now scale mode id) (IsAway exchange.now scale mode id → ⊥) }
{
    let Some(to) = exchange.referred_at(id, 0) else {
        return false;
    };
    match exchange.value_at(to, 0) {
        Some(value) => is_away_value(&value, scale, mode),
        None => false,
    }
}

/// Whether the axes of the axis placement of that number aren't those of the grid.
fn is_turned(exchange: &Exchange, id: u64) -> bool
    ensures { MatchBool result (IsTurned exchange.now id) (IsTurned exchange.now id → ⊥) }
{
    match axes_of(exchange, id) {
        Some(axes) => axes != PLAIN,
        None => true,
    }
}

/// Whether the mapping origin of an item isn't the identity.
fn is_shifted(exchange: &Exchange, id: u64, scale: Scale, mode: Mode) -> bool
    ensures { MatchBool result (IsOtherOrigin exchange.now scale mode id)
        (IsOtherOrigin exchange.now scale mode id → ⊥) }
{
    let Some(map) = exchange.referred_at(id, 0) else {
        return false;
    };
    let Some(origin) = exchange.referred_at(map, 0) else {
        return false;
    };
    is_turned(exchange, origin) || is_away(exchange, origin, scale, mode)
}

/// The number of a mapped item, where its mapping origin isn't the identity.
fn other_origin(exchange: &Exchange, id: u64, scale: Scale, mode: Mode) -> Option<u64>
    ensures { LeastOf (λ own. (id ≡ own) × IsOtherOrigin exchange.now scale mode id) result }
{
    if is_shifted(exchange, id, scale, mode) {
        Some(id)
    } else {
        None
    }
}

/// The least number that the instance of that number, where it is a mapped item, shows to be unsupported: its target or itself.
fn other_mapping(exchange: &Exchange, id: u64, scale: Scale, mode: Mode) -> Option<u64>
    ensures { LeastOf (ItemShows exchange.now scale mode id) result }
{
    let item = exchange.look(id)?;
    if !is_mapped_item(&item) {
        return None;
    }
    let own = other_origin(exchange, id, scale, mode);
    lesser(own, other_target(exchange, &item))
}

/// The least of those, of the instances of these numbers.
pub fn least_mapping(exchange: &Exchange, ids: &[u64], scale: Scale, mode: Mode) -> Option<u64>
    ensures { LeastOf (ShownBy (ItemShows exchange.now scale mode) ids.now) result }
{
    let mut least = None;
    for id in ids {
        least = lesser(least, other_mapping(exchange, *id, scale, mode));
    }
    least
}
