//! Decimal digits, read one after another.
ghost use Rattle.std.specs.Prelude.{◌≡◌, ◌+◌, ◌-◌, ◌^◌, ◌<◌, ◌≤◌, Some, option_map, IfSome, IfNone, length, drop, ℕ, true};
ghost use Rattle.bim_text.specs.NumberSpellings.{AreDigits};
ghost use Rattle.p21_lexer.specs.Spelling.{is_digit, value_after};
ghost use Rattle.bim_text.specs.inner.NumberScanning.{front, kept_step, kept_after, wide};
ghost use Rattle.bim_model.specs.declared.limits.TheConstants.{MOST_UPLOAD};
ghost use Rattle.bim_text.specs.declared.limits.TheConstants.{MOST_DIGITS, MOST_EXPONENT};

use crate::limits::MOST_EXPONENT;

/// What is kept of digits.
#[derive(Clone, Copy)]
pub struct Digits {
    /// All of them as one number, as long as it doesn't have too many digits.
    pub all: u128,
    /// The number that they write up to the last that isn't 0.
    pub significand: u128,
    /// How many zeros stand after that one.
    pub zeros: u32,
}

/// The least number of as many digits as may count.
const FULL: u128 = 1_000_000_000_000_000_000_000_000_000_000_000;

/// Digits, and where they end.
#[derive(Clone, Copy)]
pub struct Scanned {
    pub digits: Digits,
    pub end: usize,
}

/// Whether a byte is a decimal digit.
pub fn is_digit(byte: u8) -> bool
    ensures { result ≡ is_digit byte }
{
    byte >= b'0' && byte <= b'9'
}

impl Digits {
    /// No digits.
    pub const NONE: Digits = Digits {
        all: 0,
        significand: 0,
        zeros: 0,
    };

    /// One more digit. None where there are too many from the first to the last that isn't 0.
    fn with(self, digit: u8) -> Option<Digits>
        requires digit { is_digit digit ≡ true }
        requires room { self.zeros + 1 < 2 ^ 32 }
        requires fits { self.all < 10 ^ MOST_DIGITS }
        ensures step { result ≡ kept_step self digit }
        ensures fits { IfSome result (λ next. next.all < 10 ^ MOST_DIGITS) }
        ensures zeros { IfSome result (λ next. next.zeros ≤ self.zeros + 1) }
    {
        if digit == b'0' {
            let all = if self.all < FULL {
                self.all * 10
            } else {
                self.all
            };
            Some(Digits {
                all,
                significand: self.significand,
                zeros: self.zeros + 1,
            })
        } else if self.all < FULL {
            let all = self.all * 10 + (digit - b'0') as u128;
            Some(Digits {
                all,
                significand: all,
                zeros: 0,
            })
        } else {
            None
        }
    }
}

/// What is kept of digits that fit 64 bits.
#[derive(Clone, Copy)]
pub struct Few {
    pub all: u64,
    pub significand: u64,
    pub zeros: u32,
}

/// From here on digits are put after one another in 128 bits.
const MANY: u64 = 1_000_000_000_000_000_000;

/// Few digits, and the place of the next byte.
#[derive(Clone, Copy)]
struct FewScanned {
    digits: Few,
    end: usize,
}

impl Few {
    /// The same in 128 bits.
    fn wide(self) -> Digits
        ensures { result ≡ wide self }
    {
        Digits {
            all: self.all as u128,
            significand: self.significand as u128,
            zeros: self.zeros,
        }
    }

    /// One more digit.
    fn with(self, digit: u8) -> Few
        requires digit { is_digit digit ≡ true }
        requires room { self.zeros + 1 < 2 ^ 32 }
        requires fits { self.all < 10 ^ 18 }
        ensures step { kept_step (wide self) digit ≡ Some (wide result) }
        ensures zeros { result.zeros ≤ self.zeros + 1 }
    {
        let all = self.all * 10 + (digit - b'0') as u64;
        if digit != b'0' {
            Few {
                all,
                significand: all,
                zeros: 0,
            }
        } else {
            Few {
                all,
                significand: self.significand,
                zeros: self.zeros + 1,
            }
        }
    }
}

/// The digits from a place on, after few others, as far as they fit 64 bits.
#[tactic(auto, using(crate::proofs::Fronts::fronts))]
fn scan_few(text: &[u8], from: usize, before: Few) -> FewScanned
    requires place { from ≤ length text.now }
    requires short { length text.now ≤ MOST_UPLOAD }
    requires zeros { before.zeros ≤ from }
    ensures kept { kept_after (wide before) (front (drop from text.now))
        ≡ kept_after (wide result.digits) (front (drop result.end text.now)) }
    ensures end { from + length (front (drop from text.now))
        ≡ result.end + length (front (drop result.end text.now)) }
    ensures within { result.end ≤ length text.now }
    ensures zeros { result.digits.zeros ≤ result.end }
{
    let mut digits = before;
    let mut at = from;
    while at < text.len() && digits.all < MANY && is_digit(text[at]) {
        digits = digits.with(text[at]);
        at += 1;
    }
    FewScanned { digits, end: at }
}

/// The digits from a place on, after others. None where they are too many. As long as they fit, they are put together in 64 bits.
pub fn scan(text: &[u8], from: usize, before: Digits) -> Option<Scanned>
    requires place { from ≤ length text.now }
    requires short { length text.now ≤ MOST_UPLOAD }
    requires zeros { before.zeros ≤ from }
    requires fits { before.all < 10 ^ MOST_DIGITS }
    ensures kept { option_map (λ s. s.digits) result ≡ kept_after before (front (drop from text.now)) }
    ensures end { IfSome result (λ s. s.end ≡ from + length (front (drop from text.now))) }
    ensures within { IfSome result (λ s. s.end ≤ length text.now) }
    ensures fits { IfSome result (λ s. s.digits.all < 10 ^ MOST_DIGITS) }
    ensures zeros { IfSome result (λ s. s.digits.zeros ≤ s.end) }
{
    if before.all >= MANY as u128 || before.significand >= MANY as u128 {
        return scan_many(text, from, before);
    }
    let few = scan_few(
        text,
        from,
        Few {
            all: before.all as u64,
            significand: before.significand as u64,
            zeros: before.zeros,
        },
    );
    scan_many(text, few.end, few.digits.wide())
}

/// The same in 128 bits.
#[tactic(auto, using(crate::proofs::Fronts::fronts))]
fn scan_many(text: &[u8], from: usize, before: Digits) -> Option<Scanned>
    requires place { from ≤ length text.now }
    requires short { length text.now ≤ MOST_UPLOAD }
    requires zeros { before.zeros ≤ from }
    requires fits { before.all < 10 ^ MOST_DIGITS }
    ensures kept { option_map (λ s. s.digits) result ≡ kept_after before (front (drop from text.now)) }
    ensures end { IfSome result (λ s. s.end ≡ from + length (front (drop from text.now))) }
    ensures within { IfSome result (λ s. s.end ≤ length text.now) }
    ensures fits { IfSome result (λ s. s.digits.all < 10 ^ MOST_DIGITS) }
    ensures zeros { IfSome result (λ s. s.digits.zeros ≤ s.end) }
{
    let mut digits = before;
    let mut at = from;
    while at < text.len() && is_digit(text[at]) {
        digits = digits.with(text[at])?;
        at += 1;
    }
    Some(Scanned { digits, end: at })
}

/// The number that digits write. None where there are none or other bytes, or where it is beyond the greatest exponent.
#[tactic(auto, using(crate::proofs::Fronts::writings))]
pub fn exponent_size(digits: &[u8]) -> Option<u32>
    ensures some { IfSome result (λ n. (0 < length digits.now) × AreDigits digits.now) }
    ensures value { IfSome result (λ n. n ≡ value_after 0 digits.now) }
    ensures small { IfSome result (λ n. n ≤ MOST_EXPONENT) }
    ensures none { IfNone result (0 < length digits.now → AreDigits digits.now
        → value_after 0 digits.now ≤ MOST_EXPONENT → ⊥) }
{
    if digits.is_empty() {
        return None;
    }
    let mut value: u32 = 0;
    for digit in digits {
        if !is_digit(*digit) {
            return None;
        }
        value = value * 10 + (*digit - b'0') as u32;
        if value > MOST_EXPONENT {
            return None;
        }
    }
    Some(value)
}
