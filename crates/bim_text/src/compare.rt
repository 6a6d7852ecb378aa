//! What a spelled text says, told without memory: it is decoded piece by piece, and each piece is tested.
ghost use Rattle.std.specs.Prelude.{◌≡◌, ◌≢◌, ◌+◌, ◌++◌, ◌^◌, ◌<◌, ◌≤◌, ◌⊎◌, [], ℕ, List, MatchOption, IfSome, IfNone, encode_utf8, slice_index, take, drop, length};
ghost use Rattle.std.specs.Str.{bytes_eq};
ghost use Rattle.bim_text.specs.TextSpellings.{Row, cleaned, wide_row, escape_row, high_row, row_of, text_of_spelling};
ghost use Rattle.bim_text.specs.Says.{is_guid, is_text, ends_guid, accepts, Leaves, Lacks};

use crate::byte_classes::are_guid_chars;
use crate::cursor::{has_kept, kept_at, skip};
use crate::escapes::{
    group_digits, is_code, is_page, is_shifted, is_wide, two_digits, wide_digits,
};
use crate::rows::{character, sequence_len};
use crate::spelled_text::are_plain;

/// What a text is to be, or its end.
#[derive(Clone, Copy)]
pub enum Wanted<'a> {
    /// These bytes.
    Text(&'a [u8]),
    /// The end of a globally unique identifier, after so many of its characters.
    Guid(usize),
}

/// What is left of a text after a piece. None where it doesn't begin with it.
#[tactic(auto, using(crate::proofs::Saying::pieces))]
fn text_after<'a>(text: &'a [u8], piece: &[u8]) -> Option<&'a [u8]>
    ensures { MatchOption result (Lacks (is_text text.now) piece.now)
        (λ left. Leaves (is_text text.now) piece.now (is_text left.now)) }
{
    if text.starts_with(piece) {
        Some(&text[piece.len()..])
    } else {
        None
    }
}

/// How many characters of an identifier there are with those of a piece. None where it is too long or one of its bytes stands in none.
#[tactic(auto, using(crate::proofs::Saying::guids))]
fn guid_after(before: usize, piece: &[u8]) -> Option<usize>
    ensures { MatchOption result (Lacks (ends_guid before) piece.now)
        (λ now. Leaves (ends_guid before) piece.now (ends_guid now)) }
{
    if before > 22 || piece.len() > 22 - before {
        return None;
    }
    if !are_guid_chars(piece) {
        return None;
    }
    Some(before + piece.len())
}

/// What is wanted after a piece.
fn after<'a>(wanted: Wanted<'a>, piece: &[u8]) -> Option<Wanted<'a>>
    ensures { MatchOption result (Lacks (accepts wanted.entry) piece.now)
        (λ left. Leaves (accepts wanted.entry) piece.now (accepts left)) }
{
    match wanted {
        Wanted::Text(text) => match text_after(text, piece) {
            Some(left) => Some(Wanted::Text(left)),
            None => None,
        },
        Wanted::Guid(before) => match guid_after(before, piece) {
            Some(now) => Some(Wanted::Guid(now)),
            None => None,
        },
    }
}

/// What is wanted after a character.
fn after_char(wanted: Wanted<'_>, character: char) -> Option<Wanted<'_>>
    ensures { MatchOption result (Lacks (accepts wanted.entry) (encode_utf8 character))
        (λ left. Leaves (accepts wanted.entry) (encode_utf8 character) (accepts left)) }
{
    let mut buffer = [0; 4];
    let piece = character.encode_utf8(&mut buffer);
    after(wanted, piece.as_bytes())
}

/// Whether the end may stand.
#[tactic(auto, using(crate::proofs::Saying::empties))]
fn is_done(wanted: Wanted<'_>) -> bool
    ensures { result ≡ accepts wanted.entry [] }
{
    match wanted {
        Wanted::Text(text) => text.is_empty(),
        Wanted::Guid(before) => before == 22,
    }
}

/// What is left of a spelled text after its first row, and what is wanted of that.
#[derive(Clone, Copy)]
struct Step<'a> {
    spelled: &'a [u8],
    wanted: Wanted<'a>,
}

/// The step over so many bytes that give a piece.
fn piece_step<'a>(
    spelled: &'a [u8],
    size: usize,
    wanted: Wanted<'a>,
    piece: &[u8],
) -> Option<Step<'a>>
    ensures text { MatchOption result (Lacks (accepts wanted.entry) piece.now)
        (λ s. Leaves (accepts wanted.entry) piece.now (accepts s.wanted)) }
    ensures rest { IfSome result (λ s. cleaned s.spelled.now ≡ drop size (cleaned spelled.now)) }
{
    match after(wanted, piece) {
        Some(wanted) => Some(Step {
            spelled: skip(spelled, size),
            wanted,
        }),
        None => None,
    }
}

/// The step over so many bytes that give a character.
fn char_step<'a>(
    spelled: &'a [u8],
    size: usize,
    wanted: Wanted<'a>,
    character: char,
) -> Option<Step<'a>>
    ensures text { MatchOption result (Lacks (accepts wanted.entry) (encode_utf8 character))
        (λ s. Leaves (accepts wanted.entry) (encode_utf8 character) (accepts s.wanted)) }
    ensures rest { IfSome result (λ s. cleaned s.spelled.now ≡ drop size (cleaned spelled.now)) }
{
    match after_char(wanted, character) {
        Some(wanted) => Some(Step {
            spelled: skip(spelled, size),
            wanted,
        }),
        None => None,
    }
}

/// What is wanted after the characters of the groups that follow `\X2\` or `\X4\`.
fn after_groups<'a>(spelled: &[u8], wanted: Wanted<'a>, width: usize) -> Option<Wanted<'a>>
    requires width { width ≡ 4 ⊎ width ≡ 8 }
    ensures { MatchOption result (Lacks (accepts wanted.entry) (wide_row width (cleaned spelled.now)).gives)
        (λ left. Leaves (accepts wanted.entry) (wide_row width (cleaned spelled.now)).gives (accepts left)) }
{
    let digits = wide_digits(spelled);
    let mut rest = wanted;
    let mut left = digits / width;
    let mut at = 4;
    while left > 0 {
        match after_char(rest, character(group_digits(spelled, at, width))) {
            Some(behind) => rest = behind,
            None => return None,
        }
        at += width;
        left -= 1;
    }
    Some(rest)
}

/// The step over `\X2\` or `\X4\` and its groups.
#[tactic(auto, unfolding(crate::specs::TextSpellings::wide_row))]
fn wide_step<'a>(spelled: &'a [u8], wanted: Wanted<'a>, width: usize) -> Option<Step<'a>>
    requires width { width ≡ 4 ⊎ width ≡ 8 }
    ensures text { MatchOption result
        (Lacks (accepts wanted.entry) (wide_row width (cleaned spelled.now)).gives)
        (λ s. Leaves (accepts wanted.entry) (wide_row width (cleaned spelled.now)).gives (accepts s.wanted)) }
    ensures rest { IfSome result (λ s. cleaned s.spelled.now
        ≡ drop (wide_row width (cleaned spelled.now)).size (cleaned spelled.now)) }
{
    match after_groups(spelled, wanted, width) {
        Some(wanted) => Some(Step {
            spelled: skip(spelled, wide_digits(spelled) + 8),
            wanted,
        }),
        None => None,
    }
}

/// The step over the row of a backslash.
#[tactic(auto, using(crate::proofs::Saying::leaves_none), unfolding(crate::specs::TextSpellings::escape_row))]
fn escape_step<'a>(spelled: &'a [u8], wanted: Wanted<'a>) -> Option<Step<'a>>
    ensures text { MatchOption result (Lacks (accepts wanted.entry) (escape_row (cleaned spelled.now)).gives)
        (λ s. Leaves (accepts wanted.entry) (escape_row (cleaned spelled.now)).gives (accepts s.wanted)) }
    ensures rest { IfSome result (λ s. cleaned s.spelled.now
        ≡ drop (escape_row (cleaned spelled.now)).size (cleaned spelled.now)) }
{
    if kept_at(spelled, 1) == b'\\' {
        return piece_step(spelled, 2, wanted, b"\\");
    }
    if is_code(spelled) {
        return char_step(spelled, 5, wanted, two_digits(spelled, 3) as u8 as char);
    }
    if is_wide(spelled, b'2', 4) {
        return wide_step(spelled, wanted, 4);
    }
    if is_wide(spelled, b'4', 8) {
        return wide_step(spelled, wanted, 8);
    }
    if is_shifted(spelled) {
        return char_step(spelled, 4, wanted, (kept_at(spelled, 3) + 128) as char);
    }
    if is_page(spelled) {
        return Some(Step {
            spelled: skip(spelled, 4),
            wanted,
        });
    }
    piece_step(spelled, 1, wanted, b"\\")
}

/// The first four bytes that are kept, 0 in place of those that are wanting.
#[tactic(auto, using(crate::proofs::Keeping::fronts))]
fn front_of(spelled: &[u8]) -> [u8; 4]
    ensures { (n : ℕ) → n ≤ 4 → n ≤ length (cleaned spelled.now)
        → take n result ≡ take n (cleaned spelled.now) }
{
    [
        kept_at(spelled, 0),
        kept_at(spelled, 1),
        kept_at(spelled, 2),
        kept_at(spelled, 3),
    ]
}

/// How many bytes the character has that begins at the front, where UTF-8 begins one there.
#[tactic(auto, using(crate::proofs::RowLemmas::sequences))]
fn sequence_size(spelled: &[u8]) -> Option<usize>
    requires { 0 < length (cleaned spelled.now) }
    ensures some { IfSome result (λ n. high_row (cleaned spelled.now)
        ≡ record { gives = take n (cleaned spelled.now); size = n }) }
    ensures within { IfSome result (λ n. n ≤ length (cleaned spelled.now)) }
    ensures few { IfSome result (λ n. n ≤ 4) }
    ensures none { IfNone result (high_row (cleaned spelled.now)
        ≡ record { gives = encode_utf8 (slice_index (cleaned spelled.now) 0); size = 1 }) }
{
    let size = sequence_len(kept_at(spelled, 0));
    if !has_kept(spelled, size - 1) {
        return None;
    }
    let bytes = front_of(spelled);
    match str::from_utf8(&bytes[..size]) {
        Ok(_) => Some(size),
        Err(_) => None,
    }
}

/// The step over a byte from 128 on, or over the character that it begins.
fn high_step<'a>(spelled: &'a [u8], wanted: Wanted<'a>) -> Option<Step<'a>>
    requires { 0 < length (cleaned spelled.now) }
    ensures text { MatchOption result (Lacks (accepts wanted.entry) (high_row (cleaned spelled.now)).gives)
        (λ s. Leaves (accepts wanted.entry) (high_row (cleaned spelled.now)).gives (accepts s.wanted)) }
    ensures rest { IfSome result (λ s. cleaned s.spelled.now
        ≡ drop (high_row (cleaned spelled.now)).size (cleaned spelled.now)) }
{
    match sequence_size(spelled) {
        Some(size) => {
            let bytes = front_of(spelled);
            piece_step(spelled, size, wanted, &bytes[..size])
        }
        None => char_step(spelled, 1, wanted, kept_at(spelled, 0) as char),
    }
}

/// The step over the row at the front.
#[tactic(auto, unfolding(crate::specs::TextSpellings::row_of))]
fn row_step<'a>(spelled: &'a [u8], wanted: Wanted<'a>) -> Option<Step<'a>>
    requires some { 0 < length (cleaned spelled.now) }
    ensures text { MatchOption result (Lacks (accepts wanted.entry) (row_of (cleaned spelled.now)).gives)
        (λ s. Leaves (accepts wanted.entry) (row_of (cleaned spelled.now)).gives (accepts s.wanted)) }
    ensures rest { IfSome result (λ s. cleaned s.spelled.now
        ≡ drop (row_of (cleaned spelled.now)).size (cleaned spelled.now)) }
{
    let first = kept_at(spelled, 0);
    if first == b'\\' {
        return escape_step(spelled, wanted);
    }
    if first < 128 {
        return char_step(spelled, 1, wanted, first as char);
    }
    high_step(spelled, wanted)
}

/// Whether all rows together give what is wanted.
#[tactic(auto, using(crate::proofs::Saying::steps))]
fn goes_as(spelled: &[u8], wanted: Wanted<'_>) -> bool
    ensures { result ≡ accepts wanted.entry (text_of_spelling spelled.now) }
{
    let mut rest = spelled;
    let mut left = wanted;
    while has_kept(rest, 0) {
        match row_step(rest, left) {
            Some(step) => {
                rest = step.spelled;
                left = step.wanted;
            }
            None => return false,
        }
    }
    is_done(left)
}

/// Whether the text that the bytes between two apostrophes of a file stand for is this one.
#[tactic(auto, using(crate::proofs::AllRows::whole), unfolding(crate::specs::Says::is_text))]
pub fn says(spelled: &[u8], text: &str) -> bool
    ensures { result ≡ bytes_eq (text_of_spelling spelled.now) text.now }
{
    if are_plain(spelled) {
        return spelled == text.as_bytes();
    }
    goes_as(spelled, Wanted::Text(text.as_bytes()))
}

/// Whether that text is a globally unique identifier (IFC4 ADD2 TC1, IfcGloballyUniqueId).
#[tactic(auto, using(crate::proofs::PlainGuids::guids), unfolding(crate::specs::Says::ends_guid))]
pub fn says_guid(spelled: &[u8]) -> bool
    ensures { result ≡ is_guid (text_of_spelling spelled.now) }
{
    if spelled.len() == 22 && are_guid_chars(spelled) {
        return true;
    }
    goes_as(spelled, Wanted::Guid(0))
}
