//! Runs of bytes of one class.
ghost use Rattle.std.specs.Prelude.{◌≡◌, ◌+◌, ◌≤◌, ◌==◌, length, drop};
ghost use Rattle.p21_lexer.specs.inner.TokenSpans.{one};
ghost use Rattle.p21_lexer.specs.Spelling.{run, is_digit, is_letter_or_digit, is_hexadecimal, is_word_byte};

use crate::class::{is_digit, is_enumeration_byte, is_hexadecimal, is_word_byte};

/// The end of the decimal digits that begin at `from`.
#[tactic(auto, using(crate::proofs::RunLemmas::heads))]
pub fn digits_end(bytes: &[u8], from: usize) -> usize
    requires { from ≤ length bytes.now }
    ensures run { result ≡ from + run is_digit (drop from bytes.now) }
    ensures within { result ≤ length bytes.now }
{
    let mut at = from;
    while at < bytes.len() && is_digit(bytes[at]) {
        at += 1;
    }
    at
}

/// The end of a word's letters, digits, underscores and hyphens that begin at `from`.
#[tactic(auto, using(crate::proofs::RunLemmas::heads))]
pub fn word_bytes_end(bytes: &[u8], from: usize) -> usize
    requires { from ≤ length bytes.now }
    ensures run { result ≡ from + run is_word_byte (drop from bytes.now) }
    ensures within { result ≤ length bytes.now }
{
    let mut at = from;
    while at < bytes.len() && is_word_byte(bytes[at]) {
        at += 1;
    }
    at
}

/// The end of an enumeration's letters, digits and underscores that begin at `from`.
#[tactic(auto, using(crate::proofs::RunLemmas::heads))]
pub fn enumeration_bytes_end(bytes: &[u8], from: usize) -> usize
    requires { from ≤ length bytes.now }
    ensures run { result ≡ from + run is_letter_or_digit (drop from bytes.now) }
    ensures within { result ≤ length bytes.now }
{
    let mut at = from;
    while at < bytes.len() && is_enumeration_byte(bytes[at]) {
        at += 1;
    }
    at
}

/// The end of the hexadecimal digits that begin at `from`.
#[tactic(auto, using(crate::proofs::RunLemmas::heads))]
pub fn hexadecimals_end(bytes: &[u8], from: usize) -> usize
    requires { from ≤ length bytes.now }
    ensures run { result ≡ from + run is_hexadecimal (drop from bytes.now) }
    ensures within { result ≤ length bytes.now }
{
    let mut at = from;
    while at < bytes.len() && is_hexadecimal(bytes[at]) {
        at += 1;
    }
    at
}

/// How many bytes at `from` are this one: none or one.
#[tactic(auto, using(crate::proofs::RunLemmas::heads))]
pub fn counts_one(bytes: &[u8], from: usize, byte: u8) -> usize
    requires { from ≤ length bytes.now }
    ensures one { result ≡ one (λ b. b == byte) (drop from bytes.now) }
    ensures within { from + result ≤ length bytes.now }
{
    if from < bytes.len() && bytes[from] == byte {
        1
    } else {
        0
    }
}
