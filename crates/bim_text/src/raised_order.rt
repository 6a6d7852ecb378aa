//! The order of numbers with zeros after them.
ghost use Rattle.std.specs.Prelude.{◌≡◌, ◌*◌, ◌^◌, ◌<◌};
ghost use Rattle.std.specs.Ordering.{nat_cmp};
ghost use Rattle.bim_text.specs.declared.limits.TheConstants.{MOST_DIGITS};

use crate::limits::MOST_DIGITS;
use std::cmp::Ordering;

/// The order of a number with so many zeros after it and another, which doesn't have too many digits.
#[tactic(auto, using(crate::proofs::Quotients::quotients))]
pub fn order_raised(digits: u128, zeros: u64, other: u128) -> Ordering
    requires some { 0 < digits }
    requires few { other < 10 ^ MOST_DIGITS }
    ensures { result ≡ nat_cmp (digits * 10 ^ zeros) other }
{
    if zeros > MOST_DIGITS as u64 {
        return Ordering::Greater;
    }
    let scale = 10u128.pow(zeros as u32);
    let quotient = other / scale;
    if digits != quotient {
        return digits.cmp(&quotient);
    }
    if other % scale == 0 {
        Ordering::Equal
    } else {
        Ordering::Less
    }
}
