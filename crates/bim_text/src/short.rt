//! Short numbers where they stand among other bytes, each read in one loop.
ghost use Rattle.std.specs.Prelude.{◌≡◌, ◌+◌, ◌-◌, ◌^◌, ◌<◌, ◌≤◌, ◌++◌, length, drop, IfSome};
ghost use Rattle.std.specs.Bool.{OnTrue};
ghost use Rattle.p21_lexer.specs.Spelling.{value_after};
ghost use Rattle.bim_text.specs.NumberSpellings.{sign_bytes};
ghost use Rattle.bim_text.specs.inner.NumberScanning.{front, HasRoom};
ghost use Rattle.bim_text.specs.Short.{EndsAt, IsShortAt, IsRowAt, sign_of};

use crate::digits::is_digit;

/// A number of few digits without exponent: its digits as one whole number, how many of them stand after the point, and where it ends.
#[derive(Clone, Copy)]
pub struct Short {
    /// Whether a minus stands before it.
    pub negative: bool,
    /// All its digits, below 10^15.
    pub digits: u64,
    /// How many of them stand after the point, at most 15.
    pub places: u32,
    /// The place after it.
    pub end: usize,
}

/// Three such numbers between parentheses, and the place after the closing one.
#[derive(Clone, Copy)]
pub struct ShortRow {
    pub x: Short,
    pub y: Short,
    pub z: Short,
    pub end: usize,
}

/// Digits after others, and where they end.
#[derive(Clone, Copy)]
struct Run {
    value: u64,
    end: usize,
}

/// A sign that was read, and the place after it.
#[derive(Clone, Copy)]
struct Signed {
    negative: bool,
    end: usize,
}

/// The digits that stand there, after others, up to a limit.
#[inline(always)]
#[tactic(auto, using(crate::proofs::Rooms::digits))]
fn run_from(bytes: &[u8], from: usize, limit: usize, before: u64) -> Run
    requires place { from ≤ length bytes.now }
    requires near { from ≤ limit }
    requires room { HasRoom before (limit - from) }
    ensures value { value_after before (front (drop from bytes.now))
        ≡ value_after result.value (front (drop result.end bytes.now)) }
    ensures end { from + length (front (drop from bytes.now))
        ≡ result.end + length (front (drop result.end bytes.now)) }
    ensures on { from ≤ result.end }
    ensures within { result.end ≤ length bytes.now }
    ensures few { result.end ≤ limit }
    ensures room { HasRoom result.value (limit - result.end) }
{
    let most = bytes.len().min(limit);
    let mut at = from;
    let mut value = before;
    while at < most && is_digit(bytes[at]) {
        value = value * 10 + (bytes[at] - b'0') as u64;
        at += 1;
    }
    Run { value, end: at }
}

/// The place after which no digit of a fraction is read, so that it has 15 with those of the whole part, which don't count where that is 0.
#[inline(always)]
#[tactic(auto, using(crate::proofs::Rooms::rooms))]
fn fraction_limit(from: usize, whole: Run) -> usize
    requires on { from ≤ whole.end }
    requires few { whole.end ≤ from + 15 }
    requires fits { whole.end + 16 < 2 ^ 64 }
    requires room { HasRoom whole.value (from + 15 - whole.end) }
    ensures near { whole.end + 1 ≤ result }
    ensures few { result ≤ whole.end + 16 }
    ensures room { HasRoom whole.value (result - (whole.end + 1)) }
{
    if whole.value == 0 {
        return whole.end + 16;
    }
    from + 16
}

/// Whether a comma or a closing parenthesis stands there.
#[inline(always)]
fn ends_there(bytes: &[u8], at: usize) -> bool
    ensures { OnTrue result (EndsAt bytes.now at) }
{
    if at >= bytes.len() {
        return false;
    }
    bytes[at] == b',' || bytes[at] == b')'
}

/// The minus that stands there, or none.
#[inline(always)]
fn minus_there(bytes: &[u8], from: usize) -> Signed
    requires { from ≤ length bytes.now }
    ensures sign { drop from bytes.now ≡ sign_bytes (sign_of result.negative) ++ drop result.end bytes.now }
    ensures within { result.end ≤ length bytes.now }
    ensures near { result.end ≡ from + length (sign_bytes (sign_of result.negative)) }
{
    if from < bytes.len() {
        if bytes[from] == b'-' {
            return Signed {
                negative: true,
                end: from + 1,
            };
        }
    }
    Signed {
        negative: false,
        end: from,
    }
}

/// The number that stands there, where it is short and a comma or a closing parenthesis stands right after it. None says nothing.
#[inline(always)]
#[tactic(auto, using(crate::proofs::Rooms::rooms))]
pub fn short_at(bytes: &[u8], from: usize) -> Option<Short>
    requires { from ≤ length bytes.now }
    ensures { IfSome result (IsShortAt bytes.now from) }
{
    let sign = minus_there(bytes, from);
    let whole = run_from(bytes, sign.end, sign.end + 15, 0);
    if whole.end == sign.end {
        return None;
    }
    if ends_there(bytes, whole.end) {
        return Some(Short {
            negative: sign.negative,
            digits: whole.value,
            places: 0,
            end: whole.end,
        });
    }
    if whole.end >= bytes.len() {
        return None;
    }
    if bytes[whole.end] != b'.' {
        return None;
    }
    let point = whole.end + 1;
    let fraction = run_from(bytes, point, fraction_limit(sign.end, whole), whole.value);
    if !ends_there(bytes, fraction.end) {
        return None;
    }
    Some(Short {
        negative: sign.negative,
        digits: fraction.value,
        places: (fraction.end - point) as u32,
        end: fraction.end,
    })
}

/// The row of three short numbers that stands there, without blanks. None says nothing.
#[inline(always)]
pub fn short_row(bytes: &[u8], from: usize) -> Option<ShortRow>
    requires { from ≤ length bytes.now }
    ensures { IfSome result (IsRowAt bytes.now from) }
{
    if from >= bytes.len() {
        return None;
    }
    if bytes[from] != b'(' {
        return None;
    }
    let x = short_at(bytes, from + 1)?;
    if bytes[x.end] != b',' {
        return None;
    }
    let y = short_at(bytes, x.end + 1)?;
    if bytes[y.end] != b',' {
        return None;
    }
    let z = short_at(bytes, y.end + 1)?;
    if bytes[z.end] != b')' {
        return None;
    }
    Some(ShortRow {
        x,
        y,
        z,
        end: z.end + 1,
    })
}
