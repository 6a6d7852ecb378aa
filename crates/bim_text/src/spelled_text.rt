//! Texts as they are spelled in exchange files (ISO 10303-21, section 6.4.3).
ghost use Rattle.std.specs.Prelude.{◌≡◌, ◌+◌, ◌++◌, ◌^◌, ◌<◌, ◌≤◌, IfOk, OnOk, ◌∷◌, slice_index, drop, length, string_bytes, true};
ghost use Rattle.std.specs.List.{list_all};
ghost use Rattle.bim_text.specs.TextSpellings.{cleaned, rows, row_of, is_plain, is_clean, text_of_spelling};
ghost use Rattle.p21_lexer.specs.Spelling.{run};

use crate::rows::push_row;
use bim_model::Text;
use std::alloc::{AllocError, Global};

/// Whether a byte stands for itself: ASCII from 32 on, but for apostrophe and backslash.
fn is_plain(byte: u8) -> bool
    ensures { result ≡ is_plain byte }
{
    byte >= 32 && byte < 128 && byte != b'\'' && byte != b'\\'
}

/// Whether a byte stays as it is when texts are cleaned.
fn is_clean(byte: u8) -> bool
    ensures { result ≡ is_clean byte }
{
    byte >= 32 && byte != b'\''
}

/// The end of the bytes from a place on that stand for themselves.
#[tactic(auto, using(p21_lexer::proofs::RunLemmas::runs))]
fn plain_end(bytes: &[u8], from: usize) -> usize
    requires { from ≤ length bytes.now }
    ensures run { result ≡ from + run is_plain (drop from bytes.now) }
    ensures within { result ≤ length bytes.now }
{
    let mut at = from;
    while at < bytes.len() && is_plain(bytes[at]) {
        at += 1;
    }
    at
}

/// The place after a byte, or after the second of two apostrophes.
#[tactic(auto, using(crate::proofs::Cleaning::cleanings))]
pub fn next_place(spelled: &[u8], at: usize) -> usize
    requires { at < length spelled.now }
    ensures kept { 32 ≤ slice_index spelled.now at
        → cleaned (drop at spelled.now) ≡ slice_index spelled.now at ∷ cleaned (drop result spelled.now) }
    ensures dropped { slice_index spelled.now at < 32
        → cleaned (drop at spelled.now) ≡ cleaned (drop result spelled.now) }
    ensures later { at < result }
    ensures within { result ≤ length spelled.now }
{
    if spelled[at] == b'\'' && at + 1 < spelled.len() && spelled[at + 1] == b'\'' {
        at + 2
    } else {
        at + 1
    }
}

/// The bytes with each pair of apostrophes as one, and without control bytes.
#[tactic(auto, using(crate::proofs::Cleaning::ends))]
fn clean(alloc: Global, spelled: &[u8]) -> Result<Vec<u8>, AllocError>
    ensures { IfOk result (λ bytes. bytes.items ≡ cleaned spelled.now) }
{
    let mut bytes = Vec::with_capacity(alloc, spelled.len())?;
    let mut at = 0;
    while at < spelled.len() {
        if spelled[at] >= 32 {
            bytes.push(spelled[at])?;
        }
        at = next_place(spelled, at);
    }
    Ok(bytes)
}

/// Appends what the row at a place gives, and says where it ends.
fn push_row_at(out: &mut String, bytes: &[u8], at: usize) -> Result<usize, AllocError>
    requires place { at < length bytes.now }
    requires short { length bytes.now < 2 ^ 63 }
    ensures bytes { OnOk result (string_bytes out.new
        ≡ string_bytes out.old ++ (row_of (drop at bytes.now)).gives) }
    ensures end { IfOk result (λ n. n ≡ at + (row_of (drop at bytes.now)).size) }
{
    let size = push_row(out, &bytes[at..])?;
    Ok(at + size)
}

/// What all rows of the bytes give. Runs of bytes that stand for themselves are copied whole.
#[tactic(auto, using(crate::proofs::AllRows::all))]
fn decode(alloc: Global, bytes: &[u8]) -> Result<Text, AllocError>
    requires { length bytes.now < 2 ^ 63 }
    ensures { IfOk result (λ text. text ≡ rows bytes.now) }
{
    let mut out = String::with_capacity(alloc, bytes.len())?;
    let mut at = 0;
    while at < bytes.len() {
        let end = plain_end(bytes, at);
        if end > at {
            out.push_str(unsafe { str::from_utf8_unchecked(&bytes[at..end]) })?;
            at = end;
        } else {
            at = push_row_at(&mut out, bytes, at)?;
        }
    }
    Text::of(alloc, out.as_str())
}

/// Whether all bytes stand for themselves in a file.
pub fn are_plain(bytes: &[u8]) -> bool
    ensures { result ≡ list_all is_plain bytes.now }
{
    bytes.iter().all(|byte| is_plain(*byte))
}

fn are_clean(bytes: &[u8]) -> bool
    ensures { result ≡ list_all is_clean bytes.now }
{
    bytes.iter().all(|byte| is_clean(*byte))
}

/// The text of bytes that stand for themselves.
#[tactic(auto, using(crate::proofs::AllRows::whole))]
pub fn text_of_plain(alloc: Global, plain: &[u8]) -> Result<Text, AllocError>
    requires plain { list_all is_plain plain.now ≡ true }
    ensures { IfOk result (λ text. text ≡ text_of_spelling plain.now) }
{
    Text::of(alloc, unsafe { str::from_utf8_unchecked(plain) })
}

/// The text that the bytes between two apostrophes of a file stand for. Control bytes are passed over, also within an escape. Bytes
/// that aren't ASCII are read as UTF-8 where they can be, else as ISO 8859-1.
#[tactic(auto, using(crate::proofs::AllRows::whole))]
pub fn text_of(alloc: Global, spelled: &[u8]) -> Result<Text, AllocError>
    ensures { IfOk result (λ text. text ≡ text_of_spelling spelled.now) }
{
    if are_plain(spelled) {
        return text_of_plain(alloc, spelled);
    }
    if are_clean(spelled) {
        return decode(alloc, spelled);
    }
    decode(alloc, &clean(alloc, spelled)?)
}
