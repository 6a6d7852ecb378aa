//! Where words, names, numbers, texts, enumerations and bits end.
ghost use Rattle.std.specs.Prelude.{◌≡◌, ◌+◌, ◌<◌, ◌≤◌, length, drop, slice_index, option_map, IfSome};
ghost use Rattle.p21_lexer.specs.inner.TokenSpans.{word_span, enumeration_span, bits_span, fraction_span, exponent_span, signed_span, number_span, name_span, name_run, text_span};

use crate::class::{is_digit, is_letter, is_sign};
use crate::limits::GREATEST_NAME;
use crate::runs::{
    counts_one, digits_end, enumeration_bytes_end, hexadecimals_end, word_bytes_end,
};

/// The end of a word that begins at `from`.
#[tactic(auto, using(crate::proofs::RunLemmas::heads), unfolding(crate::specs::inner::TokenSpans::word_span))]
pub fn word_end(bytes: &[u8], from: usize) -> Option<usize>
    requires { from ≤ length bytes.now }
    ensures span { result ≡ option_map (λ n. from + n) (word_span (drop from bytes.now)) }
    ensures within { IfSome result (λ end. end ≤ length bytes.now) }
{
    let at = from + counts_one(bytes, from, b'!');
    if at < bytes.len() && is_letter(bytes[at]) {
        Some(word_bytes_end(bytes, at + 1))
    } else {
        None
    }
}

/// The end of the digits from `from` on that keep a name's value within its bound. A value of at most (bound - 9) / 10 takes any
/// digit, so few digits cost a division.
#[tactic(auto, using(crate::proofs::RunLemmas::names))]
fn name_digits_end(bytes: &[u8], from: usize) -> usize
    requires { from ≤ length bytes.now }
    ensures span { result ≡ from + name_run 0 (drop from bytes.now) }
    ensures within { result ≤ length bytes.now }
{
    let mut at = from;
    let mut value: u64 = 0;
    while at < bytes.len() && is_digit(bytes[at]) {
        let digit = (bytes[at] - b'0') as u64;
        if value > (GREATEST_NAME - 9) / 10 && value > (GREATEST_NAME - digit) / 10 {
            return at;
        }
        value = value * 10 + digit;
        at += 1;
    }
    at
}

/// The end of an instance name, from after its number sign.
pub fn name_end(bytes: &[u8], from: usize) -> Option<usize>
    requires { from ≤ length bytes.now }
    ensures span { result ≡ option_map (λ n. from + n) (name_span (drop from bytes.now)) }
    ensures within { IfSome result (λ end. end ≤ length bytes.now) }
{
    let end = name_digits_end(bytes, from);
    if end > from { Some(end) } else { None }
}

/// The end of an optional sign and the digits after it.
#[tactic(auto, using(crate::proofs::RunLemmas::heads), unfolding(crate::specs::inner::TokenSpans::signed_span))]
fn signed_end(bytes: &[u8], from: usize) -> Option<usize>
    requires { from ≤ length bytes.now }
    ensures span { result ≡ option_map (λ n. from + n) (signed_span (drop from bytes.now)) }
    ensures within { IfSome result (λ end. end ≤ length bytes.now) }
{
    let at = if from < bytes.len() && is_sign(bytes[from]) {
        from + 1
    } else {
        from
    };
    let end = digits_end(bytes, at);
    if end > at { Some(end) } else { None }
}

/// The end of a point and its digits, or `from` where no point stands.
#[tactic(auto, using(crate::proofs::RunLemmas::heads), unfolding(crate::specs::inner::TokenSpans::fraction_span))]
fn fraction_end(bytes: &[u8], from: usize) -> usize
    requires { from ≤ length bytes.now }
    ensures span { result ≡ from + fraction_span (drop from bytes.now) }
    ensures within { result ≤ length bytes.now }
{
    if from < bytes.len() && bytes[from] == b'.' {
        digits_end(bytes, from + 1)
    } else {
        from
    }
}

/// The end of an exponent, or `from` where no whole one stands.
#[tactic(auto, using(crate::proofs::RunLemmas::heads), unfolding(crate::specs::inner::TokenSpans::exponent_span))]
fn exponent_end(bytes: &[u8], from: usize) -> usize
    requires { from ≤ length bytes.now }
    ensures span { result ≡ from + exponent_span (drop from bytes.now) }
    ensures within { result ≤ length bytes.now }
{
    if from < bytes.len() && (bytes[from] == b'E' || bytes[from] == b'e') {
        match signed_end(bytes, from + 1) {
            Some(end) => return end,
            None => return from,
        }
    }
    from
}

/// The end of a number that begins at `from`.
#[tactic(auto, using(crate::proofs::RunLemmas::heads), unfolding(crate::specs::inner::TokenSpans::number_span))]
pub fn number_end(bytes: &[u8], from: usize) -> Option<usize>
    requires { from ≤ length bytes.now }
    ensures span { result ≡ option_map (λ n. from + n) (number_span (drop from bytes.now)) }
    ensures within { IfSome result (λ end. end ≤ length bytes.now) }
{
    match signed_end(bytes, from) {
        Some(end) => Some(exponent_end(bytes, fraction_end(bytes, end))),
        None => None,
    }
}

/// The first apostrophe from a place on, or the end of the bytes: a text that goes on at the place ends where it does from there.
#[inline(always)]
fn quote_from(bytes: &[u8], from: usize) -> usize
    requires { from ≤ length bytes.now }
    ensures span { option_map (λ n. from + n) (text_span (drop from bytes.now))
        ≡ option_map (λ n. result + n) (text_span (drop result bytes.now)) }
    ensures within { result ≤ length bytes.now }
    ensures quote { result < length bytes.now → slice_index bytes.now result ≡ 39 }
{
    let mut at = from;
    while at < bytes.len() && bytes[at] != b'\'' {
        at += 1;
    }
    at
}

/// The end of a text in which two apostrophes may stand side by side, from after its first apostrophe.
fn long_text_end(bytes: &[u8], from: usize) -> Option<usize>
    requires { from ≤ length bytes.now }
    ensures span { result ≡ option_map (λ n. from + n) (text_span (drop from bytes.now)) }
    ensures within { IfSome result (λ end. end ≤ length bytes.now) }
{
    let mut found = None;
    let mut at = from;
    while at < bytes.len() {
        if bytes[at] != b'\'' {
            at += 1;
        } else if at + 1 < bytes.len() && bytes[at + 1] == b'\'' {
            found = Some(at + 1);
            at += 2;
        } else {
            return Some(at + 1);
        }
    }
    found
}

/// The end of a text, from after its first apostrophe. Two apostrophes stand for one; where nothing closes the text, it ends
/// at the first of the last two.
pub fn text_end(bytes: &[u8], from: usize) -> Option<usize>
    requires { from ≤ length bytes.now }
    ensures span { result ≡ option_map (λ n. from + n) (text_span (drop from bytes.now)) }
    ensures within { IfSome result (λ end. end ≤ length bytes.now) }
{
    let quote = quote_from(bytes, from);
    if quote >= bytes.len() {
        return None;
    }
    if quote + 1 < bytes.len() && bytes[quote + 1] == b'\'' {
        return long_text_end(bytes, from);
    }
    Some(quote + 1)
}

/// The end of an enumeration, from after its first point.
#[tactic(auto, using(crate::proofs::RunLemmas::heads), unfolding(crate::specs::inner::TokenSpans::enumeration_span))]
pub fn enumeration_end(bytes: &[u8], from: usize) -> Option<usize>
    requires { from ≤ length bytes.now }
    ensures span { result ≡ option_map (λ n. from + n) (enumeration_span (drop from bytes.now)) }
    ensures within { IfSome result (λ end. end ≤ length bytes.now) }
{
    if from < bytes.len() && is_letter(bytes[from]) {
        let end = enumeration_bytes_end(bytes, from);
        if end < bytes.len() && bytes[end] == b'.' {
            return Some(end + 1);
        }
    }
    None
}

/// The end of a binary, from after its first quotation mark.
#[tactic(auto, using(crate::proofs::RunLemmas::heads), unfolding(crate::specs::inner::TokenSpans::bits_span))]
pub fn bits_end(bytes: &[u8], from: usize) -> Option<usize>
    requires { from ≤ length bytes.now }
    ensures span { result ≡ option_map (λ n. from + n) (bits_span (drop from bytes.now)) }
    ensures within { IfSome result (λ end. end ≤ length bytes.now) }
{
    let end = hexadecimals_end(bytes, from);
    if end > from && end < bytes.len() && bytes[end] == b'"' {
        return Some(end + 1);
    }
    None
}
