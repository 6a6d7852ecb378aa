//! The parts of a number as it is spelled (ISO 10303-21, section 6).
ghost use Rattle.std.specs.Prelude.{◌≡◌, ◌+◌, ◌^◌, ◌<◌, ◌≤◌, ◌≤ℤ◌, pos, neg_ℤ, option_map, IfSome, IfNone, length, drop};
ghost use Rattle.bim_text.specs.NumberSpellings.{sign_bytes, is_minus, fraction_bytes, fraction_digits, IsExponent, exponent_of};
ghost use Rattle.bim_text.specs.inner.NumberScanning.{sign_at, fraction_at, exponent_at, kept_after};
ghost use Rattle.bim_model.specs.declared.limits.TheConstants.{MOST_UPLOAD};
ghost use Rattle.bim_text.specs.declared.limits.TheConstants.{MOST_DIGITS, MOST_EXPONENT};

use crate::digits::{Digits, Scanned, exponent_size, scan};

/// The end of a sign, or the place itself where none stands.
#[tactic(auto, using(crate::proofs::Fronts::signs))]
pub fn sign_end(text: &[u8], from: usize) -> usize
    requires { from ≤ length text.now }
    ensures end { result ≡ from + length (sign_bytes (sign_at (drop from text.now))) }
    ensures within { result ≤ length text.now }
{
    if from < text.len() && (text[from] == b'+' || text[from] == b'-') {
        from + 1
    } else {
        from
    }
}

/// Whether a minus stands at the place.
#[tactic(auto, using(crate::proofs::Fronts::signs))]
pub fn is_minus_at(text: &[u8], from: usize) -> bool
    requires { from ≤ length text.now }
    ensures { result ≡ is_minus (sign_at (drop from text.now)) }
{
    from < text.len() && text[from] == b'-'
}

/// Digits with those after a point, how many of these there are, and where they end.
#[derive(Clone, Copy)]
pub struct Fraction {
    pub digits: Digits,
    pub count: usize,
    pub end: usize,
}

/// The point and its digits, where one stands behind the digits. None where they are too many.
#[tactic(auto, using(crate::proofs::Fronts::points))]
pub fn scan_fraction(text: &[u8], whole: Scanned) -> Option<Fraction>
    requires place { whole.end ≤ length text.now }
    requires short { length text.now ≤ MOST_UPLOAD }
    requires zeros { whole.digits.zeros ≤ whole.end }
    requires fits { whole.digits.all < 10 ^ MOST_DIGITS }
    ensures kept { option_map (λ f. f.digits) result
        ≡ kept_after whole.digits (fraction_digits (fraction_at (drop whole.end text.now))) }
    ensures count { IfSome result (λ f. f.count
        ≡ length (fraction_digits (fraction_at (drop whole.end text.now)))) }
    ensures end { IfSome result (λ f. f.end
        ≡ whole.end + length (fraction_bytes (fraction_at (drop whole.end text.now)))) }
    ensures within { IfSome result (λ f. f.end ≤ length text.now) }
    ensures few { IfSome result (λ f. f.count ≤ f.end) }
    ensures zeros { IfSome result (λ f. f.digits.zeros ≤ f.end) }
{
    let from = whole.end;
    if from < text.len() && text[from] == b'.' {
        let Scanned { digits, end } = scan(text, from + 1, whole.digits)?;
        Some(Fraction {
            digits,
            count: end - (from + 1),
            end,
        })
    } else {
        Some(Fraction {
            digits: whole.digits,
            count: 0,
            end: from,
        })
    }
}

/// The exponent that all bytes from a place on are, 0 where there are none. None where they are none, or where it is beyond the greatest
/// one, of either sign.
#[tactic(auto, using(crate::proofs::Fronts::exponents))]
pub fn scan_exponent(text: &[u8], from: usize) -> Option<i32>
    requires { from ≤ length text.now }
    ensures is { IfSome result (λ n. IsExponent (exponent_at (drop from text.now))) }
    ensures value { IfSome result (λ n. n ≡ exponent_of (exponent_at (drop from text.now))) }
    ensures low { IfSome result (λ n. neg_ℤ (pos MOST_EXPONENT) ≤ℤ n) }
    ensures high { IfSome result (λ n. n ≤ℤ pos MOST_EXPONENT) }
    ensures none { IfNone result (IsExponent (exponent_at (drop from text.now))
        → neg_ℤ (pos MOST_EXPONENT) ≤ℤ exponent_of (exponent_at (drop from text.now))
        → exponent_of (exponent_at (drop from text.now)) ≤ℤ pos MOST_EXPONENT → ⊥) }
{
    if from == text.len() {
        return Some(0);
    }
    if text[from] != b'E' && text[from] != b'e' {
        return None;
    }
    let digits = sign_end(text, from + 1);
    let size = exponent_size(&text[digits..])? as i32;
    if is_minus_at(text, from + 1) {
        Some(-size)
    } else {
        Some(size)
    }
}
