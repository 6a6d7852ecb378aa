//! Tokens that stand right at a place, without a gap before them, for those who pass over many of them. What is told is what `cut` would tell.
ghost use Rattle.std.specs.Prelude.{◌≡◌, ◌<◌, Some, IfSome, length, slice_index};
ghost use Rattle.p21_lexer.specs.inner.Kinds.{kind_of};
ghost use Rattle.p21_lexer.specs.There.{StandsThere, IsValueThere, IsNameThere};

use crate::class::{is_digit, is_letter};
use crate::cutting::end_of;
use crate::limits::GREATEST_NAME;
use crate::token::TokenKind;

/// An instance name that stands right at a place.
#[derive(Clone, Copy)]
pub struct NameThere {
    /// Its number.
    pub id: u64,
    /// The place after it.
    pub end: usize,
}

/// The end of the token that stands right there, whose first byte is one of that kind's. None where no token does.
#[inline(always)]
fn end_there(kind: TokenKind, bytes: &[u8], at: usize) -> Option<usize>
    requires within { at < length bytes.now }
    requires first { kind_of (slice_index bytes.now at) ≡ Some kind }
    ensures { IfSome result (StandsThere bytes.now at kind) }
{
    end_of(kind, bytes, at)
}

/// The end of the value of one token that stands right there: a number, a text, a name, an enumeration, `$` or `*`. None says nothing.
#[inline(always)]
pub fn value_there(bytes: &[u8], at: usize) -> Option<usize>
    ensures { IfSome result (IsValueThere bytes.now at) }
{
    if at >= bytes.len() {
        return None;
    }
    match bytes[at] {
        b'$' | b'*' => end_there(TokenKind::Single, bytes, at),
        b'#' => end_there(TokenKind::Name, bytes, at),
        b'\'' => end_there(TokenKind::Words, bytes, at),
        b'.' => end_there(TokenKind::Enumeration, bytes, at),
        b'0'..=b'9' | b'+' | b'-' => end_there(TokenKind::Number, bytes, at),
        _ => None,
    }
}

/// The end of the number that stands right there. None says nothing.
#[inline(always)]
pub fn number_there(bytes: &[u8], at: usize) -> Option<usize>
    ensures { IfSome result (StandsThere bytes.now at TokenKind.Number) }
{
    if at >= bytes.len() {
        return None;
    }
    match bytes[at] {
        b'0'..=b'9' | b'+' | b'-' => end_there(TokenKind::Number, bytes, at),
        _ => None,
    }
}

/// The end of the word that stands right there, where it begins with a letter. None says nothing.
#[inline(always)]
pub fn word_there(bytes: &[u8], at: usize) -> Option<usize>
    ensures { IfSome result (StandsThere bytes.now at TokenKind.Word) }
{
    if at >= bytes.len() {
        return None;
    }
    if !is_letter(bytes[at]) {
        return None;
    }
    end_there(TokenKind::Word, bytes, at)
}

/// The instance name that stands right there, read in one loop. None says nothing.
#[inline(always)]
pub fn name_there(bytes: &[u8], at: usize) -> Option<NameThere>
    ensures { IfSome result (IsNameThere bytes.now at) }
{
    if at >= bytes.len() {
        return None;
    }
    if bytes[at] != b'#' {
        return None;
    }
    let from = at + 1;
    let mut end = from;
    let mut id: u64 = 0;
    while end < bytes.len() && is_digit(bytes[end]) {
        if id > (GREATEST_NAME - 9) / 10 {
            return None;
        }
        id = id * 10 + (bytes[end] - b'0') as u64;
        end += 1;
    }
    if end == from {
        return None;
    }
    Some(NameThere { id, end })
}
