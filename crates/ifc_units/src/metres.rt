//! Metres with a prefix as units of length.
ghost use Rattle.std.specs.Prelude.{◌≡◌, ◌≤ℤ◌, Some, IfSome};
ghost use Rattle.ifc_units.specs.Metres.{prefix_power, power_with, unit_power, metric_power, IsNear};

use ifc_instances::{Entity, says};
use p21_table::{InstanceRef, ValueRef};

#[tactic(auto, unfolding(crate::specs::Metres::prefix_power))]
fn prefix_power(prefix: &[u8]) -> Option<i32>
    ensures is { result ≡ prefix_power prefix.now }
    ensures near { IfSome result IsNear }
{
    if prefix == "KILO".as_bytes() {
        return Some(6);
    }
    if prefix == "HECTO".as_bytes() {
        return Some(5);
    }
    if prefix == "DECA".as_bytes() {
        return Some(4);
    }
    if prefix == "DECI".as_bytes() {
        return Some(2);
    }
    if prefix == "CENTI".as_bytes() {
        return Some(1);
    }
    if prefix == "MILLI".as_bytes() {
        return Some(0);
    }
    if prefix == "MICRO".as_bytes() {
        return Some(-3);
    }
    None
}

// The power of ten of a millimetre that a metre is with a prefix.
fn power_with(prefix: &ValueRef<'_>) -> Option<i32>
    ensures is { result ≡ power_with (Some prefix.now) }
    ensures near { IfSome result IsNear }
{
    if prefix.is_absent() {
        return Some(3);
    }
    match prefix.enumeration() {
        Some(letters) => prefix_power(letters),
        None => None,
    }
}

// The power of ten of a millimetre that a unit is.
#[tactic(auto, unfolding(crate::specs::Metres::unit_power))]
fn unit_power(unit: &InstanceRef<'_>) -> Option<i32>
    ensures is { result ≡ unit_power unit.now }
    ensures near { IfSome result IsNear }
{
    if !says("METRE", unit, 3) {
        return None;
    }
    match unit.attribute(2) {
        Some(prefix) => power_with(&prefix),
        None => None,
    }
}

/// The power of ten of a millimetre that a unit is, where it is a metre with a prefix as a unit of length (IFC4 ADD2 TC1, IfcSIUnit).
#[tactic(auto, unfolding(crate::specs::Metres::metric_power))]
pub fn metric_power(unit: &InstanceRef<'_>) -> Option<i32>
    ensures is { result ≡ metric_power unit.now }
    ensures near { IfSome result IsNear }
{
    if Entity::SiUnit.includes(unit) && says("LENGTHUNIT", unit, 1) {
        unit_power(unit)
    } else {
        None
    }
}
