//! The literals of filters.
ghost use Rattle.std.specs.Prelude.{◌≡◌, false, IfOk};
ghost use Rattle.std.specs.List.{list_all};
ghost use Rattle.std.specs.Char.{is_ascii_digit};
ghost use Rattle.std.specs.Str.Parse.{without_leading_sign};
ghost use Rattle.odata_filter.specs.FilterLiterals.{unquoted, is_digits, number_in, second_of, date_in};

use bim_model::{Bytes, Moment};
use jiff_fmt::temporal::parse_timestamp;
use std::alloc::{AllocError, Global};
use std::str;

/// The bytes between the apostrophes of a text, with one apostrophe for each two.
#[tactic(auto, using(crate::proofs::Scans::quotes))]
pub fn unquoted(alloc: Global, inside: &[u8]) -> Result<Bytes, AllocError>
    ensures { IfOk result (λ made. made ≡ unquoted false inside.now) }
{
    let mut made = Vec::new(alloc);
    let mut after = false;
    for byte in inside {
        let b = *byte;
        after = b == b'\'' && !after;
        if b != b'\'' || after {
            made.push(b)?;
        }
    }
    Bytes::of(alloc, &made)
}

// A word without its sign.
fn without_sign(word: &[u8]) -> &[u8]
    ensures { result.now ≡ without_leading_sign word.now }
{
    if !word.is_empty() && (word[0] == b'-' || word[0] == b'+') {
        return &word[1..];
    }
    word
}

fn are_digits(text: &[u8]) -> bool
    ensures { result ≡ list_all is_ascii_digit text.now }
{
    text.iter().all(|b| b.is_ascii_digit())
}

// Whether a text is one digit or more.
fn is_digits(text: &[u8]) -> bool
    ensures { result ≡ is_digits text.now }
{
    0 < text.len() && are_digits(text)
}

/// The whole number of 32 bits that a word spells: digits with `+`, `-` or nothing before them.
#[tactic(auto, unfolding(crate::specs::FilterLiterals::number_in))]
pub fn number_in(word: &[u8]) -> Option<i32>
    ensures { result ≡ number_in word.now }
{
    if !is_digits(without_sign(word)) {
        return None;
    }
    match str::from_utf8(word) {
        Ok(text) => match text.parse::<i32>() {
            Ok(number) => Some(number),
            Err(_) => None,
        },
        Err(_) => None,
    }
}

// The second of 1970 or later in which so many nanoseconds since 1970 lie.
fn second_of(nanos: i128) -> Option<Moment>
    ensures { result ≡ second_of nanos }
{
    if nanos < 0 {
        return None;
    }
    let second = nanos as u128 / 1_000_000_000;
    if second <= Moment::LAST as u128 {
        Some(Moment::new(second as u64))
    } else {
        None
    }
}

/// The moment that a word spells, as jiff reads instants, without its fraction.
#[tactic(auto, unfolding(crate::specs::FilterLiterals::date_in))]
pub fn date_in(word: &[u8]) -> Option<Moment>
    ensures { result ≡ date_in word.now }
{
    match parse_timestamp(word) {
        Ok(instant) => second_of(instant.nanosecond),
        Err(_) => None,
    }
}
