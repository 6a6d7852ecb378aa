//! The indexes of face sets.
ghost use Rattle.std.specs.Prelude.{◌<◌, ◌^◌, ℕ, suc, pos, IfSome, IfNone};
ghost use Rattle.bim_text.specs.ScaledNumbers.{whole, SameValue};
ghost use Rattle.bim_text.specs.Decimals.{value_of, WritesWhole};
ghost use Rattle.faceset.specs.Indexes.{PointsAt, PointsNowhere};

use bim_text::{Decimal, small_whole};
use p21_table::ValueRef;

const LIMIT: u128 = 10_000_000_000_000_000_000;

/// The whole number that a decimal is. None where it is none from 0 to below 10^19.
fn small_number(decimal: Decimal) -> Option<u64>
    ensures some { IfSome result (λ n. SameValue (value_of decimal) (whole (pos n))) }
    ensures none { IfNone result ((n : ℕ) → n < 10 ^ 19 → SameValue (value_of decimal) (whole (pos n)) → ⊥) }
{
    if decimal.negative {
        return None;
    }
    if decimal.exp < 0 {
        return None;
    }
    if decimal.exp > 18 {
        return None;
    }
    if decimal.digits >= LIMIT {
        return None;
    }
    let number = decimal.digits * 10_u128.pow(decimal.exp as u32);
    if number < LIMIT {
        Some(number as u64)
    } else {
        None
    }
}

/// The number that spelled bytes write. None where it is none from 0 to below 10^19.
fn number_written(bytes: &[u8]) -> Option<u64>
    ensures some { IfSome result (λ n. WritesWhole bytes.now (pos n)) }
    ensures none { IfNone result ((n : ℕ) → n < 10 ^ 19 → WritesWhole bytes.now (pos n) → ⊥) }
{
    match Decimal::read(bytes) {
        Some(decimal) => small_number(decimal),
        None => None,
    }
}

/// The same, in 64 bits where the bytes are few digits.
fn index_written(bytes: &[u8]) -> Option<u64>
    ensures some { IfSome result (λ n. WritesWhole bytes.now (pos n)) }
    ensures none { IfNone result ((n : ℕ) → n < 10 ^ 19 → WritesWhole bytes.now (pos n) → ⊥) }
{
    match small_whole(bytes) {
        Some(number) => Some(number),
        None => number_written(bytes),
    }
}

// Which of so many points the spelled index names, counted from 0.
fn place_among(bytes: &[u8], count: usize) -> Option<usize>
    requires { count < 2 ^ 63 }
    ensures some { IfSome result (λ k. (k < count) × WritesWhole bytes.now (pos (suc k))) }
    ensures none { IfNone result ((k : ℕ) → k < count → WritesWhole bytes.now (pos (suc k)) → ⊥) }
{
    match index_written(bytes) {
        None => None,
        Some(0) => None,
        Some(index) => {
            if index <= count as u64 {
                Some(index as usize - 1)
            } else {
                None
            }
        }
    }
}

/// Which of so many points, counted from 0, the value is the index of.
pub fn place_of(value: &ValueRef<'_>, count: usize) -> Option<usize>
    requires { count < 2 ^ 63 }
    ensures some { IfSome result (PointsAt count value.now) }
    ensures none { IfNone result (PointsNowhere count value.now) }
{
    match value.number() {
        Some(bytes) => place_among(bytes, count),
        None => None,
    }
}
