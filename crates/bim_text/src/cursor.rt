//! The bytes of a spelled text that cleaning keeps, read one by one without memory.
ghost use Rattle.std.specs.Prelude.{◌≡◌, ◌∷◌, [], ◌<◌, ◌≤◌, MatchOption, IfSome, slice_index, drop, length, nat_lt};
ghost use Rattle.bim_text.specs.TextSpellings.{cleaned, is_hexadecimal};
ghost use Rattle.p21_lexer.specs.Spelling.{run};

use crate::byte_classes::is_hexadecimal;
use crate::spelled_text::next_place;

/// The first byte that is kept, and what is spelled after it.
#[derive(Clone, Copy)]
pub struct KeptByte<'a> {
    pub byte: u8,
    pub rest: &'a [u8],
}

/// The first byte that is kept. None where none is.
#[tactic(auto, using(crate::proofs::Cleaning::ends))]
pub fn first_kept(spelled: &[u8]) -> Option<KeptByte<'_>>
    ensures front { MatchOption result (cleaned spelled.now ≡ [])
        (λ f. cleaned spelled.now ≡ f.byte ∷ cleaned f.rest.now) }
    ensures shorter { IfSome result (λ f. length f.rest.now < length spelled.now) }
{
    let mut at = 0;
    while at < spelled.len() {
        let next = next_place(spelled, at);
        if spelled[at] >= 32 {
            return Some(KeptByte {
                byte: spelled[at],
                rest: &spelled[next..],
            });
        }
        at = next;
    }
    None
}

/// What is spelled after so many bytes that are kept.
#[tactic(auto, using(crate::proofs::Keeping::skips))]
pub fn skip(spelled: &[u8], count: usize) -> &[u8]
    ensures rest { cleaned result.now ≡ drop count (cleaned spelled.now) }
    ensures within { length result.now ≤ length spelled.now }
{
    let mut rest = spelled;
    for _ in 0..count {
        match first_kept(rest) {
            Some(first) => rest = first.rest,
            None => return rest,
        }
    }
    rest
}

/// The byte at a place among those that are kept, 0 past their end.
#[tactic(auto, using(crate::proofs::Keeping::places))]
pub fn kept_at(spelled: &[u8], at: usize) -> u8
    ensures { result ≡ slice_index (cleaned spelled.now) at }
{
    match first_kept(skip(spelled, at)) {
        Some(first) => first.byte,
        None => 0,
    }
}

/// Whether a byte is kept at that place.
#[tactic(auto, using(crate::proofs::Keeping::places))]
pub fn has_kept(spelled: &[u8], at: usize) -> bool
    ensures { result ≡ nat_lt at (length (cleaned spelled.now)) }
{
    first_kept(skip(spelled, at)).is_some()
}

/// How many hexadecimal digits stand at the front.
pub fn count_kept_hexadecimals(spelled: &[u8]) -> usize
    ensures count { result ≡ run is_hexadecimal (cleaned spelled.now) }
    ensures within { result ≤ length spelled.now }
{
    let mut rest = spelled;
    let mut count = 0;
    while let Some(first) = first_kept(rest) {
        if !is_hexadecimal(first.byte) {
            return count;
        }
        count += 1;
        rest = first.rest;
    }
    count
}
