//! Lengths on the grid.
ghost use Rattle.std.specs.Prelude.{◌≡◌, ℕ, ◌^◌, ◌<◌, ◌≤◌, ℤ, ◌+ℤ◌, unsigned_abs, IfOk, IfErr, Err};
ghost use Rattle.bim_text.specs.ScaledNumbers.{signed};
ghost use Rattle.ifc_units.specs.Grid.{IsGridNumber, length_of};
ghost use Rattle.ifc_units.specs.Lengths.{units, reach};
ghost use Rattle.ifc_units.specs.inner.RoundedLengths.{IsSizeOf};

use crate::length_error::GridFault;
use crate::scale::Scale;
use crate::sizes::{MOST, MOST_COUNT, part_size, whole_size};
use bim_model::Mode;
use bim_text::Decimal;

/// The grid number of a length. Exact mode wants one less than a thousandth of a millimetre away, snap mode rounds, and a half away
/// from zero. Takes no memory.
pub fn to_grid(number: Decimal, scale: Scale, mode: Mode) -> Result<i32, GridFault>
    ensures ok { IfOk result (λ g. IsGridNumber mode units (length_of number scale) g) }
    ensures within { IfOk result (λ g. unsigned_abs g ≤ reach) }
    ensures off_grid { result ≡ Err GridFault.OffGrid → (g : ℤ)
        → IsGridNumber mode units (length_of number scale) g → ⊥ }
    ensures too_far { result ≡ Err GridFault.TooFar
        → (g : ℤ) × IsGridNumber mode units (length_of number scale) g × (reach < unsigned_abs g) }
{
    let count = scale.factor as u128 * number.digits;
    let power = number.exp as i64 + scale.power as i64;
    match size_of(count, power, mode) {
        Ok(size) => Ok(with_sign(number.negative, size)),
        Err(fault) => Err(fault),
    }
}

/// A number of the grid, or its negative.
pub(crate) fn with_sign(negative: bool, size: u128) -> i32
    requires { size ≤ MOST }
    ensures { result ≡ signed negative size }
{
    if negative {
        -(size as i32)
    } else {
        size as i32
    }
}

/// The size of the grid number of digits times a power of ten.
pub(crate) fn size_of(digits: u128, power: i64, mode: Mode) -> Result<u128, GridFault>
    requires { digits ≤ MOST_COUNT }
    ensures ok { IfOk result (λ g. IsSizeOf mode power digits g) }
    ensures within { IfOk result (λ g. g ≤ MOST) }
    ensures exact { result ≡ Err GridFault.OffGrid → mode ≡ Mode.Exact }
    ensures off_grid { result ≡ Err GridFault.OffGrid → (g : ℕ) → IsSizeOf mode power digits g → ⊥ }
    ensures too_far { result ≡ Err GridFault.TooFar → (g : ℕ) × IsSizeOf mode power digits g × (MOST < g) }
{
    let places = power.unsigned_abs();
    if power >= 0 {
        match whole_size(digits, places) {
            Some(size) => Ok(size),
            None => Err(GridFault::TooFar),
        }
    } else {
        match part_size(digits, places, mode) {
            Some(size) => near(size),
            None => Err(GridFault::OffGrid),
        }
    }
}

/// The size, unless it is too far.
fn near(size: u128) -> Result<u128, GridFault>
    ensures ok { IfOk result (λ g. g ≡ size × g ≤ MOST) }
    ensures err { IfErr result (λ fault. fault ≡ GridFault.TooFar × (MOST < size)) }
{
    if size <= MOST {
        Ok(size)
    } else {
        Err(GridFault::TooFar)
    }
}
