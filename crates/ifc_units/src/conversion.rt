//! Units that are converted to one of the international system.
ghost use Rattle.std.specs.Prelude.{◌≡◌, ◌*◌, ◌%◌, ◌<◌, ◌≤◌, ◌≤ℤ◌, pos, negsuc, Some, None, IfSome, IfNone, MatchOption};
ghost use Rattle.bim_text.specs.ScaledNumbers.{Scaled, raised};
ghost use Rattle.bim_text.specs.Decimals.{value_of};
ghost use Rattle.ifc_units.specs.Metres.{IsNear};
ghost use Rattle.ifc_units.specs.Conversions.{is_about, tenths_of, IsMeasure};
ghost use Rattle.ifc_units.specs.Units.{IsConverted};

use crate::metres::metric_power;
use crate::scale::Scale;
use bim_text::Decimal;
use ifc_instances::Entity;
use p21_table::{Exchange, InstanceRef};
use std::cmp::Ordering;

/// How many tenths of a millimetre an inch is.
pub const INCH: u64 = 254;

/// How many tenths of a millimetre a foot is.
pub const FOOT: u64 = 3_048;

/// A number times ten to a power.
#[derive(Clone, Copy)]
struct Measured {
    number: Decimal,
    power: i32,
}

// Whether a length in millimetres lies less than a millionth from so many millionths.
fn is_about(millionths: u64, length: Measured) -> bool
    requires some { 0 < millionths }
    requires few { millionths < 1000000000 }
    requires tens { millionths % 10 ≡ 0 }
    requires near { IsNear length.power }
    ensures { result ≡ is_about millionths (raised (value_of length.number) length.power) }
{
    if length.number.negative {
        return false;
    }
    let below = Decimal {
        negative: false,
        digits: (millionths - 1) as u128,
        exp: -6,
    };
    let above = Decimal {
        negative: false,
        digits: (millionths + 1) as u128,
        exp: -6,
    };
    length.number.compare_size(&below, length.power) == Ordering::Greater
        && length.number.compare_size(&above, length.power) == Ordering::Less
}

// How many tenths of a millimetre a converted unit of that length is.
#[tactic(auto, unfolding(crate::specs::Conversions::tenths_of))]
fn tenths_of(length: Measured) -> Option<u64>
    requires near { IsNear length.power }
    ensures is { result ≡ tenths_of (raised (value_of length.number) length.power) }
    ensures small { IfSome result (λ factor. factor ≤ 3048) }
{
    if is_about(INCH * 100_000, length) {
        return Some(INCH);
    }
    if is_about(FOOT * 100_000, length) {
        return Some(FOOT);
    }
    None
}

// The length in millimetres that an instance is, where it is a measure in a metre with a prefix.
fn measured_length(exchange: &Exchange, measure: &InstanceRef<'_>) -> Option<Measured>
    ensures near { IfSome result (λ m. IsNear m.power) }
    ensures some { IfSome result (λ m. IsMeasure exchange.now measure.now
        (raised (value_of m.number) m.power)) }
    ensures none { IfNone result ((length : Scaled) → IsMeasure exchange.now measure.now length → ⊥) }
{
    if !Entity::Measure.includes(measure) {
        return None;
    }
    let Some(value) = measure.attribute(0) else {
        return None;
    };
    let Some(bytes) = value.measure() else {
        return None;
    };
    let Some(number) = Decimal::read(bytes) else {
        return None;
    };
    let Some(base) = exchange.target_at(measure, 1) else {
        return None;
    };
    match metric_power(&base) {
        Some(power) => Some(Measured { number, power }),
        None => None,
    }
}

/// The scale that a converted unit makes: that of the inch or of the foot (IFC4 ADD2 TC1, IfcConversionBasedUnit).
pub fn converted_scale(exchange: &Exchange, unit: &InstanceRef<'_>) -> Option<Scale>
    ensures some { IfSome result (IsConverted exchange.now unit.now) }
    ensures none { IfNone result ((scale : Scale) → IsConverted exchange.now unit.now scale → ⊥) }
{
    let Some(measure) = exchange.target_at(unit, 3) else {
        return None;
    };
    let Some(length) = measured_length(exchange, &measure) else {
        return None;
    };
    match tenths_of(length) {
        Some(factor) => Some(Scale { factor, power: -1 }),
        None => None,
    }
}
