//! Decimals: their exact values, without floats.
ghost use Rattle.std.specs.Prelude.{◌≡◌, ◌≢◌, ◌^◌, ◌%◌, ◌<◌, pos, false};
ghost use Rattle.bim_text.specs.declared.limits.TheConstants.{MOST_DIGITS};

use crate::digits::{Digits, scan};
use crate::number_parts::{is_minus_at, scan_exponent, scan_fraction, sign_end};
use crate::raised_order::order_raised;
use bim_model::MOST_UPLOAD;
use std::cmp::Ordering;

/// An exact decimal number: `digits` times ten to `exp`, or the negative of that. Each value has one form: the digits don't end in
/// 0 unless they are 0, and zero is positive and has the exponent 0.
#[derive(Clone, Copy, Debug, PartialEq, Eq)]
pub struct Decimal {
    /// Whether it is below zero.
    pub negative: bool,
    /// The digits as a whole number, below 10^34.
    pub digits: u128,
    /// The power of ten.
    pub exp: i32,
    ghost bounded: { digits < 10 ^ MOST_DIGITS },
    ghost stripped: { digits ≢ 0 → digits % 10 ≢ 0 },
    ghost zero_exp: { digits ≡ 0 → exp ≡ pos 0 },
    ghost zero_sign: { digits ≡ 0 → negative ≡ false },
}

impl Decimal {
    ghost use Rattle.std.specs.Prelude.{◌*◌, ◌≤◌, ◌≤ℤ◌, negsuc, IfSome, IfNone};
    ghost use Rattle.bim_text.specs.ScaledNumbers.{signed, SameValue, raised, size_order};
    ghost use Rattle.bim_text.specs.NumberSpellings.{Spelling, IsRead};
    ghost use Rattle.bim_text.specs.Decimals.{Reads, value_of};
    ghost use Rattle.bim_model.specs.declared.limits.TheConstants.{MOST_UPLOAD};
    ghost use Rattle.bim_text.specs.declared.limits.TheConstants.{MOST_DIGITS, MOST_EXPONENT};

    /// The number that the bytes spell (ISO 10303-21, section 6). There is none for other bytes, and none for a spelling that is too
    /// much for a model: more than 33,554,432 bytes, 34 digits that count, or a power of ten beyond 400 either way. Takes no memory.
    pub fn read(text: &[u8]) -> Option<Decimal>
        ensures value { IfSome result (Reads text.now) }
        ensures none { IfNone result ((s : Spelling) → IsRead s text.now → ⊥) }
    {
        if text.len() > MOST_UPLOAD {
            return None;
        }
        let from = sign_end(text, 0);
        let whole = scan(text, from, Digits::NONE)?;
        if whole.end == from {
            return None;
        }
        let fraction = scan_fraction(text, whole)?;
        let exponent = scan_exponent(text, fraction.end)?;
        Some(Decimal::of(
            is_minus_at(text, 0),
            fraction.digits,
            exponent - fraction.count as i32,
        ))
    }

    /// The order of |self| times ten to `shift` and |other|.
    pub fn compare_size(&self, other: &Decimal, shift: i32) -> Ordering
        requires low { negsuc 9 ≤ℤ shift }
        requires high { shift ≤ℤ pos 10 }
        ensures { result ≡ size_order (raised (value_of self.now) shift) (value_of other.now) }
    {
        if self.digits == 0 || other.digits == 0 {
            return self.digits.cmp(&other.digits);
        }
        let difference = self.exp as i64 + shift as i64 - other.exp as i64;
        let zeros = difference.unsigned_abs();
        if difference >= 0 {
            order_raised(self.digits, zeros, other.digits)
        } else {
            order_raised(other.digits, zeros, self.digits).reverse()
        }
    }

    /// The decimal of digits times ten to a power.
    fn of(negative: bool, digits: Digits, power: i32) -> Decimal
        requires bounded { digits.significand < 10 ^ MOST_DIGITS }
        requires stripped { 0 < digits.significand → 0 < digits.significand % 10 }
        requires low { negsuc 99999999 ≤ℤ power }
        requires high { power ≤ℤ pos MOST_EXPONENT }
        requires zeros { digits.zeros ≤ MOST_UPLOAD }
        ensures { SameValue (value_of result)
            (record { number = signed negative (digits.significand * 10 ^ digits.zeros); power = power }) }
    {
        if digits.significand == 0 {
            return Decimal {
                negative: false,
                digits: 0,
                exp: 0,
            };
        }
        Decimal {
            negative,
            digits: digits.significand,
            exp: power + digits.zeros as i32,
        }
    }
}
