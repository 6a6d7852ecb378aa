//! The rows of the table of texts: what each gives, and how many bytes it is.
ghost use Rattle.std.specs.Prelude.{◌≡◌, ◌+◌, ◌++◌, ◌^◌, ◌<◌, ◌≤◌, ◌⊎◌, IsTrue, IfSome, IfNone, encode_utf8, IfOk, OnOk, slice_index, drop, length, string_bytes};
ghost use Rattle.bim_text.specs.TextSpellings.{is_code, is_wide, is_shifted, is_page, character, wide_row, escape_row, high_row, row_of, sequence_len};

use crate::byte_classes::{byte_at, count_hexadecimals, group_digits, is_hexadecimal, two_digits};
use std::alloc::AllocError;

/// Whether the bytes begin as `\X\hh`, their first being a backslash.
#[tactic(auto, unfolding(crate::specs::TextSpellings::is_code))]
fn is_code(rest: &[u8]) -> bool
    ensures { result ≡ is_code rest.now }
{
    byte_at(rest, 1) == b'X'
        && byte_at(rest, 2) == b'\\'
        && is_hexadecimal(byte_at(rest, 3))
        && is_hexadecimal(byte_at(rest, 4))
}

/// Whether the bytes begin as `\X2\` or `\X4\`, whole groups of that many hexadecimal digits, `\X0\`.
#[tactic(auto, unfolding(crate::specs::TextSpellings::is_wide))]
fn is_wide(rest: &[u8], mark: u8, width: usize) -> bool
    requires width { width ≡ 4 ⊎ width ≡ 8 }
    requires short { length rest.now < 2 ^ 63 }
    ensures { result ≡ is_wide mark width rest.now }
{
    let digits = count_hexadecimals(rest, 4);
    byte_at(rest, 1) == b'X'
        && byte_at(rest, 2) == mark
        && byte_at(rest, 3) == b'\\'
        && 0 < digits
        && digits % width == 0
        && byte_at(rest, digits + 4) == b'\\'
        && byte_at(rest, digits + 5) == b'X'
        && byte_at(rest, digits + 6) == b'0'
        && byte_at(rest, digits + 7) == b'\\'
}

/// Whether the bytes begin as `\S\c`.
#[tactic(auto, unfolding(crate::specs::TextSpellings::is_shifted))]
fn is_shifted(rest: &[u8]) -> bool
    ensures is { result ≡ is_shifted rest.now }
    ensures small { IsTrue result → slice_index rest.now 3 < 128 }
{
    byte_at(rest, 1) == b'S'
        && byte_at(rest, 2) == b'\\'
        && 32 <= byte_at(rest, 3)
        && byte_at(rest, 3) <= 126
}

/// Whether the bytes begin as `\PA\`, with a letter from A to I.
#[tactic(auto, unfolding(crate::specs::TextSpellings::is_page))]
fn is_page(rest: &[u8]) -> bool
    ensures { result ≡ is_page rest.now }
{
    byte_at(rest, 1) == b'P'
        && b'A' <= byte_at(rest, 2)
        && byte_at(rest, 2) <= b'I'
        && byte_at(rest, 3) == b'\\'
}

/// The character of a code; U+FFFD where it has none.
#[tactic(auto, unfolding(crate::specs::TextSpellings::character))]
pub fn character(code: u32) -> char
    ensures { result ≡ character code }
{
    char::from_u32(code).unwrap_or('\u{FFFD}')
}

/// Appends the characters of the groups that follow `\X2\` or `\X4\`.
#[tactic(auto, using(crate::proofs::RowLemmas::steps), unfolding(crate::specs::TextSpellings::wide_row))]
fn push_groups(out: &mut String, rest: &[u8], width: usize) -> Result<usize, AllocError>
    requires width { width ≡ 4 ⊎ width ≡ 8 }
    requires short { length rest.now < 2 ^ 63 }
    ensures bytes { OnOk result (string_bytes out.new
        ≡ string_bytes out.old ++ (wide_row width rest.now).gives) }
    ensures size { IfOk result (λ n. n ≡ (wide_row width rest.now).size) }
{
    let digits = count_hexadecimals(rest, 4);
    let mut left = digits / width;
    let mut at = 4;
    while left > 0 {
        out.push(character(group_digits(rest, at, width)))?;
        at += width;
        left -= 1;
    }
    Ok(digits + 8)
}

/// Appends what the row of a backslash gives, and tells its size.
#[tactic(auto, unfolding(crate::specs::TextSpellings::escape_row))]
fn push_escape(out: &mut String, rest: &[u8]) -> Result<usize, AllocError>
    requires { length rest.now < 2 ^ 63 }
    ensures bytes { OnOk result (string_bytes out.new ≡ string_bytes out.old ++ (escape_row rest.now).gives) }
    ensures size { IfOk result (λ n. n ≡ (escape_row rest.now).size) }
{
    if byte_at(rest, 1) == b'\\' {
        out.push('\\')?;
        return Ok(2);
    }
    if is_code(rest) {
        out.push(two_digits(rest, 3) as u8 as char)?;
        return Ok(5);
    }
    if is_wide(rest, b'2', 4) {
        return push_groups(out, rest, 4);
    }
    if is_wide(rest, b'4', 8) {
        return push_groups(out, rest, 8);
    }
    if is_shifted(rest) {
        out.push((byte_at(rest, 3) + 128) as char)?;
        return Ok(4);
    }
    if is_page(rest) {
        return Ok(4);
    }
    out.push('\\')?;
    Ok(1)
}

/// How many bytes a UTF-8 sequence has that begins with this byte.
pub fn sequence_len(first: u8) -> usize
    ensures { result ≡ sequence_len first }
{
    if first < 224 {
        2
    } else if first < 240 {
        3
    } else {
        4
    }
}

/// The character at the front, as a UTF-8 sequence of more than one byte.
#[tactic(auto, using(crate::proofs::RowLemmas::sequences))]
fn sequence(rest: &[u8]) -> Option<&str>
    requires { 0 < length rest.now }
    ensures some { IfSome result (λ s. high_row rest.now ≡ record { gives = s.now; size = length s.now }) }
    ensures none { IfNone result (high_row rest.now
        ≡ record { gives = encode_utf8 (slice_index rest.now 0); size = 1 }) }
{
    let size = sequence_len(rest[0]);
    if size > rest.len() {
        return None;
    }
    str::from_utf8(&rest[..size]).ok()
}

/// Appends the character that a byte from 128 on begins or is, and says how many bytes it takes.
fn push_high(out: &mut String, rest: &[u8]) -> Result<usize, AllocError>
    requires { 0 < length rest.now }
    ensures bytes { OnOk result (string_bytes out.new ≡ string_bytes out.old ++ (high_row rest.now).gives) }
    ensures size { IfOk result (λ n. n ≡ (high_row rest.now).size) }
{
    match sequence(rest) {
        Some(sequence) => {
            out.push_str(sequence)?;
            Ok(sequence.len())
        }
        None => {
            out.push(rest[0] as char)?;
            Ok(1)
        }
    }
}

/// Appends what the row at the front gives, and says how many bytes it is.
#[tactic(auto, unfolding(crate::specs::TextSpellings::row_of))]
pub fn push_row(out: &mut String, rest: &[u8]) -> Result<usize, AllocError>
    requires some { 0 < length rest.now }
    requires short { length rest.now < 2 ^ 63 }
    ensures bytes { OnOk result (string_bytes out.new ≡ string_bytes out.old ++ (row_of rest.now).gives) }
    ensures size { IfOk result (λ n. n ≡ (row_of rest.now).size) }
{
    if rest[0] == b'\\' {
        return push_escape(out, rest);
    }
    if rest[0] < 128 {
        out.push(rest[0] as char)?;
        return Ok(1);
    }
    push_high(out, rest)
}
