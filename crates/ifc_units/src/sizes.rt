//! Lengths without their signs, brought to the grid.
ghost use Rattle.std.specs.Prelude.{◌≡◌, ℕ, ◌+◌, ◌*◌, ◌^◌, ◌<◌, ◌≤◌, IfSome, IfNone};
ghost use Rattle.ifc_units.specs.inner.RoundedLengths.{IsSize};

use bim_model::{FARTHEST, Mode, PER_MM};

/// The least number of more than 18 digits.
const FEW: u128 = 1_000_000_000_000_000_000;

/// Grid numbers in a millimetre.
pub const UNITS: u128 = PER_MM as u128;

/// The same in 64 bits.
const FEW_UNITS: u64 = PER_MM as u64;

/// The greatest size of a grid number.
pub const MOST: u128 = FARTHEST as u128;

/// The most that 34 digits come to in the largest unit: 3,048 times 10^34.
pub const MOST_COUNT: u128 = 30_480_000_000_000_000_000_000_000_000_000_000_000;

/// The size for a fraction of a grid number, by its numerator and its denominator. None where it lies between two.
#[tactic(auto, using(crate::proofs::Rounding::roundings))]
pub fn round(count: u128, parts: u128, mode: Mode) -> Option<u128>
    requires some { 0 < parts }
    requires parts { parts ≤ 10 ^ 38 }
    ensures size { IfSome result (λ g. IsSize mode UNITS count parts g) }
    ensures none { IfNone result ((g : ℕ) → IsSize mode UNITS count parts g → ⊥) }
    ensures exact { IfNone result (mode ≡ Mode.Exact) }
{
    let whole = count / parts;
    let below = count % parts;
    let above = parts - below;
    match mode {
        Mode::Snap => Some(if below < above { whole } else { whole + 1 }),
        Mode::Exact => {
            let tolerance = parts.div_ceil(1000 / UNITS);
            if below < tolerance {
                Some(whole)
            } else if above < tolerance {
                Some(whole + 1)
            } else {
                None
            }
        }
    }
}

/// The same in 64 bits.
#[tactic(auto, using(crate::proofs::Rounding::roundings))]
fn round_few(count: u64, parts: u64, mode: Mode) -> Option<u64>
    requires some { 0 < parts }
    requires parts { parts ≤ 10 ^ 15 }
    requires count { count ≤ 10 ^ 19 }
    ensures size { IfSome result (λ g. IsSize mode UNITS count parts g) }
    ensures none { IfNone result ((g : ℕ) → IsSize mode UNITS count parts g → ⊥) }
    ensures exact { IfNone result (mode ≡ Mode.Exact) }
{
    let whole = count / parts;
    let under = count % parts;
    let over = parts - under;
    match mode {
        Mode::Snap => Some(if under < over { whole } else { whole + 1 }),
        Mode::Exact => {
            let tolerance = (FEW_UNITS * parts + 999) / 1000;
            if under < tolerance {
                Some(whole)
            } else if over < tolerance {
                Some(whole + 1)
            } else {
                None
            }
        }
    }
}

/// The size for so many digits with zeros after them. None where it is beyond the greatest.
#[tactic(auto, using(crate::proofs::Rounding::whole_sizes))]
pub fn whole_size(digits: u128, zeros: u64) -> Option<u128>
    ensures size { IfSome result (λ g. g ≡ UNITS * (digits * 10 ^ zeros)) }
    ensures within { IfSome result (λ g. g ≤ MOST) }
    ensures none { IfNone result (MOST < UNITS * (digits * 10 ^ zeros)) }
{
    if digits == 0 {
        return Some(0);
    }
    if digits > MOST {
        return None;
    }
    if zeros > 7 {
        return None;
    }
    let size = UNITS * (digits * 10u128.pow(zeros as u32));
    if size <= MOST { Some(size) } else { None }
}

/// The same of at most 18 digits and 15 places, in 64 bits.
#[tactic(auto, using(crate::proofs::Rounding::part_sizes))]
fn part_size_few(digits: u64, places: u64, mode: Mode) -> Option<u128>
    requires digits { digits < 10 ^ 18 }
    requires places { places ≤ 15 }
    ensures size { IfSome result (λ g. IsSize mode UNITS (UNITS * digits) (10 ^ places) g) }
    ensures none { IfNone result ((g : ℕ) → IsSize mode UNITS (UNITS * digits) (10 ^ places) g → ⊥) }
    ensures exact { IfNone result (mode ≡ Mode.Exact) }
{
    match round_few(FEW_UNITS * digits, 10u64.pow(places as u32), mode) {
        Some(size) => Some(size as u128),
        None => None,
    }
}

/// The same of more places than 38, of which a fraction of a third of a grid number is left at most.
#[tactic(auto, using(crate::proofs::Rounding::part_sizes))]
fn tiny_size(digits: u128, places: u64, mode: Mode) -> Option<u128>
    requires digits { digits ≤ MOST_COUNT }
    requires places { 38 < places }
    ensures size { IfSome result (λ g. IsSize mode UNITS (UNITS * digits) (10 ^ places) g) }
    ensures none { IfNone result ((g : ℕ) → IsSize mode UNITS (UNITS * digits) (10 ^ places) g → ⊥) }
    ensures exact { IfNone result (mode ≡ Mode.Exact) }
{
    if mode == Mode::Snap || places > 40 || digits < 10u128.pow((places - 3) as u32) {
        return Some(0);
    }
    None
}

/// The size for so many digits of which the last `places` stand after the point. None where it lies between two grid numbers.
#[tactic(auto, using(crate::proofs::Rounding::part_sizes))]
pub fn part_size(digits: u128, places: u64, mode: Mode) -> Option<u128>
    requires { digits ≤ MOST_COUNT }
    ensures size { IfSome result (λ g. IsSize mode UNITS (UNITS * digits) (10 ^ places) g) }
    ensures none { IfNone result ((g : ℕ) → IsSize mode UNITS (UNITS * digits) (10 ^ places) g → ⊥) }
    ensures exact { IfNone result (mode ≡ Mode.Exact) }
{
    if places <= 15 && digits < FEW {
        return part_size_few(digits as u64, places, mode);
    }
    if places > 38 {
        return tiny_size(digits, places, mode);
    }
    round(UNITS * digits, 10u128.pow(places as u32), mode)
}
