//! Whole numbers of few digits, in 64 bits.
ghost use Rattle.std.specs.Prelude.{◌≡◌, ◌<◌, ◌≤◌, ◌^◌, IfSome, length, pos};
ghost use Rattle.p21_lexer.specs.Spelling.{value_after};
ghost use Rattle.bim_text.specs.inner.NumberScanning.{front};
ghost use Rattle.bim_text.specs.Decimals.{WritesWhole};

use crate::digits::is_digit;

/// The digits at the front as a number, and how many they are.
#[derive(Clone, Copy)]
struct Small {
    value: u64,
    end: usize,
}

/// The digits at the front. None where they are more than 34, or more than 15 after zeros.
#[tactic(auto, using(crate::proofs::Fronts::fronts))]
fn small_digits(text: &[u8]) -> Option<Small>
    ensures value { IfSome result (λ s. s.value ≡ value_after 0 (front text.now)) }
    ensures end { IfSome result (λ s. s.end ≡ length (front text.now)) }
    ensures few { IfSome result (λ s. s.end ≤ 34) }
    ensures small { IfSome result (λ s. s.value < 10 ^ 15) }
{
    let mut at = 0;
    let mut value: u64 = 0;
    while at < text.len() && is_digit(text[at]) {
        if at == 34 || value >= 100_000_000_000_000 {
            return None;
        }
        value = value * 10 + (text[at] - b'0') as u64;
        at += 1;
    }
    Some(Small { value, end: at })
}

/// The whole number that bytes spell by digits alone, or by digits with a point after them. None says nothing: the bytes may spell any
/// number.
pub fn small_whole(text: &[u8]) -> Option<u64>
    ensures writes { IfSome result (λ n. WritesWhole text.now (pos n)) }
    ensures small { IfSome result (λ n. n < 10 ^ 15) }
{
    let front = small_digits(text)?;
    if front.end == 0 {
        return None;
    }
    if front.end == text.len() {
        return Some(front.value);
    }
    if front.end + 1 == text.len() && text[front.end] == b'.' {
        return Some(front.value);
    }
    None
}
