//! What the first byte of a value tells, where no gap stands before it: most questions need no more. None says nothing.
ghost use Rattle.std.specs.Prelude.{◌≡◌, ◌≤◌, List, length, Some, None, true, IfSome, MatchOption, option_copied, is_some};
ghost use Rattle.std.specs.List.{list_all};
ghost use Rattle.bim_model.specs.Guids.{is_guid_char, IsGuid};
ghost use Rattle.bim_text.specs.TextSpellings.{is_plain};
ghost use Rattle.p21_values.specs.declared.value.Value21.{Value21};
ghost use Rattle.p21_values.specs.Values.{words_of, reference_of, items_of, is_absent};
ghost use Rattle.p21_values.specs.Standing.{Stands, StandInside};
ghost use Rattle.p21_table.specs.inner.FirstBytes.{BeginsToken, LeavesBehind};

use crate::simple::inner;
use crate::standing::sign_behind;
use p21_lexer::{name_there, value_there};

/// The byte that a token begins with right there: neither a blank nor what may begin a comment.
#[inline(always)]
fn token_byte(bytes: &[u8], at: usize) -> Option<u8>
    ensures { IfSome result (BeginsToken bytes.now at) }
{
    if at >= bytes.len() {
        return None;
    }
    let byte = bytes[at];
    if byte > b' ' && byte != b'/' {
        Some(byte)
    } else {
        None
    }
}

/// Whether the value is `$` or `*`.
#[inline(always)]
pub fn absent_by_byte(bytes: &[u8], at: usize) -> Option<bool>
    ensures { IfSome result (λ answer. (v : Value21) → Stands bytes.now at v → answer ≡ is_absent v) }
{
    let byte = token_byte(bytes, at)?;
    Some(byte == b'$' || byte == b'*')
}

/// The number of the instance that the reference names; none where the value is no reference.
#[inline(always)]
pub fn reference_by_byte(bytes: &[u8], at: usize) -> Option<Option<u64>>
    ensures { IfSome result (λ answer. (v : Value21) → Stands bytes.now at v → answer ≡ reference_of v) }
{
    let byte = token_byte(bytes, at)?;
    if byte != b'#' {
        return Some(None);
    }
    match name_there(bytes, at) {
        Some(name) => Some(Some(name.id)),
        None => None,
    }
}

/// The bytes of the text, as it is spelled between its apostrophes; none where the value is no text.
#[inline(always)]
pub fn words_by_byte(bytes: &[u8], at: usize) -> Option<Option<&[u8]>>
    ensures { IfSome result (λ answer. (v : Value21) → Stands bytes.now at v
        → option_copied answer ≡ words_of v) }
{
    let byte = token_byte(bytes, at)?;
    if byte != b'\'' {
        return Some(None);
    }
    match value_there(bytes, at) {
        Some(end) => Some(Some(inner(&bytes[at..end]))),
        None => None,
    }
}

/// The place after the opening parenthesis of the list; none where the value is no list.
#[inline(always)]
pub fn inside_by_byte(bytes: &[u8], at: usize) -> Option<Option<usize>>
    ensures inside { IfSome result (λ answer. (v : Value21) → Stands bytes.now at v
        → MatchOption answer (items_of v ≡ None)
        (λ at. (vs : List Value21) × (items_of v ≡ Some vs) × StandInside bytes.now at vs)) }
    ensures within { IfSome result (λ answer. IfSome answer (λ at. at ≤ length bytes.now)) }
{
    let byte = token_byte(bytes, at)?;
    if byte == b'(' {
        Some(Some(at + 1))
    } else {
        Some(None)
    }
}

/// Where the next value of a list begins, or the list ends, after a value of one token.
#[inline(always)]
pub fn behind_one(bytes: &[u8], at: usize) -> Option<usize>
    ensures behind { IfSome result (LeavesBehind bytes.now at) }
    ensures within { IfSome result (λ after. after ≤ length bytes.now) }
{
    let end = value_there(bytes, at)?;
    sign_behind(bytes, end)
}

/// Of each byte, whether it may stand in an identifier.
const GUID_BYTES: [bool; 256] = [
    false, false, false, false, false, false, false, false, false, false, false, false, false,
    false, false, false, false, false, false, false, false, false, false, false, false, false,
    false, false, false, false, false, false, false, false, false, false, true, false, false,
    false, false, false, false, false, false, false, false, false, true, true, true, true, true,
    true, true, true, true, true, false, false, false, false, false, false, false, true, true,
    true, true, true, true, true, true, true, true, true, true, true, true, true, true, true, true,
    true, true, true, true, true, true, true, true, false, false, false, false, true, false, true,
    true, true, true, true, true, true, true, true, true, true, true, true, true, true, true, true,
    true, true, true, true, true, true, true, true, true, false, false, false, false, false, false,
    false, false, false, false, false, false, false, false, false, false, false, false, false,
    false, false, false, false, false, false, false, false, false, false, false, false, false,
    false, false, false, false, false, false, false, false, false, false, false, false, false,
    false, false, false, false, false, false, false, false, false, false, false, false, false,
    false, false, false, false, false, false, false, false, false, false, false, false, false,
    false, false, false, false, false, false, false, false, false, false, false, false, false,
    false, false, false, false, false, false, false, false, false, false, false, false, false,
    false, false, false, false, false, false, false, false, false, false, false, false, false,
    false, false, false, false, false, false, false, false, false, false, false, false, false,
    false, false, false, false, false, false, false, false, false, false,
];

/// Whether the value is a text.
#[inline(always)]
pub fn text_by_byte(bytes: &[u8], at: usize) -> Option<bool>
    ensures { IfSome result (λ answer. (v : Value21) → Stands bytes.now at v
        → answer ≡ is_some (words_of v)) }
{
    let byte = token_byte(bytes, at)?;
    Some(byte == b'\'')
}

/// Whether a byte may stand in an identifier.
#[inline(always)]
fn is_guid_byte(byte: u8) -> bool
    ensures { result ≡ is_guid_char byte }
{
    GUID_BYTES[byte as usize]
}

/// Whether all bytes may stand in an identifier.
#[inline(always)]
fn are_guid_bytes(bytes: &[u8]) -> bool
    ensures { result ≡ list_all is_guid_char bytes.now }
{
    let mut all = true;
    for byte in bytes {
        all = all & is_guid_byte(*byte);
    }
    all
}

/// The identifier that is spelled as it is right there. None says nothing.
#[inline(always)]
pub fn guid_by_bytes(bytes: &[u8], at: usize) -> Option<&[u8]>
    requires within { at ≤ length bytes.now }
    ensures guid { IfSome result (λ guid. IsGuid guid.now) }
    ensures words { IfSome result (λ guid. (v : Value21) → Stands bytes.now at v
        → words_of v ≡ Some guid.now) }
{
    if bytes.len() - at < 25 {
        return None;
    }
    if bytes[at] != b'\'' || bytes[at + 23] != b'\'' || bytes[at + 24] == b'\'' {
        return None;
    }
    let spelled = &bytes[at + 1..at + 23];
    if are_guid_bytes(spelled) {
        Some(spelled)
    } else {
        None
    }
}

/// Whether a byte stands for itself in a text, byte by byte.
const PLAIN_BYTES: [bool; 256] = [
    false, false, false, false, false, false, false, false, false, false, false, false, false,
    false, false, false, false, false, false, false, false, false, false, false, false, false,
    false, false, false, false, false, false, true, true, true, true, true, true, true, false,
    true, true, true, true, true, true, true, true, true, true, true, true, true, true, true, true,
    true, true, true, true, true, true, true, true, true, true, true, true, true, true, true, true,
    true, true, true, true, true, true, true, true, true, true, true, true, true, true, true, true,
    true, true, true, true, false, true, true, true, true, true, true, true, true, true, true,
    true, true, true, true, true, true, true, true, true, true, true, true, true, true, true, true,
    true, true, true, true, true, true, true, true, true, false, false, false, false, false, false,
    false, false, false, false, false, false, false, false, false, false, false, false, false,
    false, false, false, false, false, false, false, false, false, false, false, false, false,
    false, false, false, false, false, false, false, false, false, false, false, false, false,
    false, false, false, false, false, false, false, false, false, false, false, false, false,
    false, false, false, false, false, false, false, false, false, false, false, false, false,
    false, false, false, false, false, false, false, false, false, false, false, false, false,
    false, false, false, false, false, false, false, false, false, false, false, false, false,
    false, false, false, false, false, false, false, false, false, false, false, false, false,
    false, false, false, false, false, false, false, false, false, false, false, false, false,
    false, false, false, false, false,
];

/// Whether a byte stands for itself.
#[inline(always)]
fn is_plain_byte(byte: u8) -> bool
    ensures { result ≡ is_plain byte }
{
    PLAIN_BYTES[byte as usize]
}

/// The text that is spelled right there, where all its bytes stand for themselves. None says nothing.
#[inline(always)]
pub fn plain_by_bytes(bytes: &[u8], at: usize) -> Option<&[u8]>
    requires within { at ≤ length bytes.now }
    ensures plain { IfSome result (λ text. list_all is_plain text.now ≡ true) }
    ensures words { IfSome result (λ text. (v : Value21) → Stands bytes.now at v
        → words_of v ≡ Some text.now) }
{
    if at >= bytes.len() || bytes[at] != b'\'' {
        return None;
    }
    let from = at + 1;
    let mut end = from;
    while end < bytes.len() && is_plain_byte(bytes[end]) {
        end += 1;
    }
    if end + 1 >= bytes.len() || bytes[end] != b'\'' || bytes[end + 1] == b'\'' {
        return None;
    }
    Some(&bytes[from..end])
}
