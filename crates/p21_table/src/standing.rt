//! What values say, asked of the bytes where they stand.
ghost use Rattle.std.specs.Prelude.{◌≡◌, ◌<◌, ◌≤◌, ◌+◌, ◌-◌, ◌^◌, ◌∷◌, ◌==◌, ◌||◌, [], ℕ, List, length, slice_index, true, Some, None, Ok, IfSome, MatchOption, option_copied};
ghost use Rattle.p21_lexer.specs.Cutting.{CutsFrom};
ghost use Rattle.p21_values.specs.declared.value.Value21.{Value21};
ghost use Rattle.p21_values.specs.TokenPieces.{IsPiece};
ghost use Rattle.p21_values.specs.Values.{number_of, words_of, enumeration_of, reference_of, items_of, typed_of, is_absent};
ghost use Rattle.p21_values.specs.Lexemes.{Lexeme, Cuts};
ghost use Rattle.p21_values.specs.Standing.{Stands, Begins, StandInside, StandBehind, Closes, Waits, Leaves};

use crate::simple::{inner, name_of};
use p21_lexer::TokenKind;
use p21_values::{Kind, Piece, take};

/// The first token of the value that stands there; none where none does.
pub fn first_token(bytes: &[u8], at: usize) -> Option<Piece>
    requires { at ≤ length bytes.now }
    ensures piece { IfSome result (λ piece. IsPiece bytes.now piece) }
    ensures cuts { IfSome result (λ piece. CutsFrom bytes.now at (Ok (Some piece.token))) }
    ensures begins { (v : Value21) → Stands bytes.now at v
        → MatchOption result ⊥ (λ piece. Begins bytes.now piece.token v) }
{
    match take(bytes, at) {
        Ok(piece) => Some(piece),
        Err(_) => None,
    }
}

/// The bytes of a number whose token is given.
pub fn number_there(bytes: &[u8], first: Piece) -> Option<&[u8]>
    requires { IsPiece bytes.now first }
    ensures { (v : Value21) → Begins bytes.now first.token v → option_copied result ≡ number_of v }
{
    match first.token.kind {
        TokenKind::Number => Some(&bytes[first.token.start..first.token.end]),
        _ => None,
    }
}

/// The bytes of a text whose token is given, as it is spelled between its apostrophes.
pub fn words_there(bytes: &[u8], first: Piece) -> Option<&[u8]>
    requires { IsPiece bytes.now first }
    ensures { (v : Value21) → Begins bytes.now first.token v → option_copied result ≡ words_of v }
{
    match first.token.kind {
        TokenKind::Words => Some(inner(&bytes[first.token.start..first.token.end])),
        _ => None,
    }
}

/// The letters of an enumeration whose token is given.
pub fn enumeration_there(bytes: &[u8], first: Piece) -> Option<&[u8]>
    requires { IsPiece bytes.now first }
    ensures { (v : Value21) → Begins bytes.now first.token v → option_copied result ≡ enumeration_of v }
{
    match first.token.kind {
        TokenKind::Enumeration => Some(inner(&bytes[first.token.start..first.token.end])),
        _ => None,
    }
}

/// The number of the instance that a reference names whose token is given.
pub fn reference_there(bytes: &[u8], first: Piece) -> Option<u64>
    requires { IsPiece bytes.now first }
    ensures { (v : Value21) → Begins bytes.now first.token v → result ≡ reference_of v }
{
    if first.kind == Kind::Name {
        Some(name_of(bytes, first))
    } else {
        None
    }
}

/// Whether it is `$` or `*`.
pub fn absent_there(bytes: &[u8], first: Piece) -> bool
    requires { IsPiece bytes.now first }
    ensures { (v : Value21) → Begins bytes.now first.token v → result ≡ is_absent v }
{
    first.kind == Kind::Simple && first.token.kind == TokenKind::Single
}

/// The place after the opening parenthesis of a list whose first token is given.
pub fn inside_there(bytes: &[u8], first: Piece) -> Option<usize>
    requires { IsPiece bytes.now first }
    ensures inside { (v : Value21) → Begins bytes.now first.token v → MatchOption result (items_of v ≡ None)
        (λ at. (vs : List Value21) × (items_of v ≡ Some vs) × StandInside bytes.now at vs) }
    ensures within { IfSome result (λ at. at ≤ length bytes.now) }
{
    match first.kind {
        Kind::Open => Some(first.token.end),
        _ => None,
    }
}

/// The place of the value that a typed value holds whose first token is given.
pub fn typed_there(bytes: &[u8], first: Piece) -> Option<usize>
    requires { IsPiece bytes.now first }
    ensures held { (v : Value21) → Begins bytes.now first.token v → MatchOption result (typed_of v ≡ None)
        (λ at. (w : Value21) × (typed_of v ≡ Some w) × Stands bytes.now at w) }
    ensures within { IfSome result (λ at. at ≤ length bytes.now) }
{
    if first.kind == Kind::Word {
        return match take(bytes, first.token.end) {
            Ok(open) => Some(open.token.end),
            Err(_) => None,
        };
    }
    None
}

/// The first token of the next value of a list; none where the list ends.
pub fn item_there(bytes: &[u8], at: usize) -> Option<Piece>
    requires { at ≤ length bytes.now }
    ensures piece { IfSome result (λ piece. IsPiece bytes.now piece) }
    ensures cuts { IfSome result (λ piece. CutsFrom bytes.now at (Ok (Some piece.token))) }
    ensures item { (vs : List Value21) → StandInside bytes.now at vs → MatchOption result (vs ≡ [])
        (λ piece. (v : Value21) × (others : List Value21) × (vs ≡ v ∷ others)
        × Begins bytes.now piece.token v) }
{
    match take(bytes, at) {
        Ok(piece) => {
            if piece.kind == Kind::Close {
                None
            } else {
                Some(piece)
            }
        }
        Err(_) => None,
    }
}

/// A place, and how many parentheses are open there.
#[derive(Clone, Copy)]
struct Within {
    at: usize,
    depth: usize,
}

/// What is open after the text that begins at a place, or at the end of the comments that do; none where no token is left.
fn behind_mark(bytes: &[u8], at: usize, depth: usize) -> Option<Within>
    requires at { at < length bytes.now }
    requires mark { (slice_index bytes.now at == 39 || slice_index bytes.now at == 47) ≡ true }
    requires some { 0 < depth }
    ensures on { IfSome result (λ behind. at < behind.at) }
    ensures within { IfSome result (λ behind. behind.at ≤ length bytes.now) }
    ensures same { IfSome result (λ behind. behind.depth ≡ depth) }
    ensures leaves { (ls : List Lexeme) (end : ℕ) → Closes depth ls → Waits bytes.now at ls end
        → MatchOption result ⊥ (λ behind. Leaves bytes.now behind.at behind.depth end) }
{
    match take(bytes, at) {
        Ok(next) => {
            if next.token.start == at {
                Some(Within {
                    at: next.token.end,
                    depth,
                })
            } else {
                Some(Within {
                    at: next.token.start,
                    depth,
                })
            }
        }
        Err(_) => None,
    }
}

/// What is open after the byte at a place, or after the text or the comments that begin there; none where no token is left.
fn behind_byte(bytes: &[u8], at: usize, depth: usize) -> Option<Within>
    requires at { at < length bytes.now }
    requires some { 0 < depth }
    requires few { depth < 2 ^ 64 - 1 }
    ensures on { IfSome result (λ behind. at < behind.at) }
    ensures within { IfSome result (λ behind. behind.at ≤ length bytes.now) }
    ensures few { IfSome result (λ behind. behind.depth ≤ depth + 1) }
    ensures leaves { (ls : List Lexeme) (end : ℕ) → Closes depth ls → Waits bytes.now at ls end
        → MatchOption result ⊥ (λ behind. Leaves bytes.now behind.at behind.depth end) }
{
    match bytes[at] {
        b'(' => Some(Within {
            at: at + 1,
            depth: depth + 1,
        }),
        b')' => Some(Within {
            at: at + 1,
            depth: depth - 1,
        }),
        b'\'' => behind_mark(bytes, at, depth),
        b'/' => behind_mark(bytes, at, depth),
        _ => Some(Within { at: at + 1, depth }),
    }
}

/// The end of the parenthesis that is open at a place between tokens, byte by byte: only texts and comments hold parentheses that are none.
fn closed_there(bytes: &[u8], from: usize) -> Option<usize>
    requires { from ≤ length bytes.now }
    ensures end { (ls : List Lexeme) (end : ℕ) → Closes 1 ls → Cuts bytes.now from ls end
        → result ≡ Some end }
    ensures within { IfSome result (λ end. end ≤ length bytes.now) }
{
    let mut depth: usize = 1;
    let mut at = from;
    while at < bytes.len() {
        let Some(behind) = behind_byte(bytes, at, depth) else {
            return None;
        };
        if behind.depth == 0 {
            return Some(behind.at);
        }
        at = behind.at;
        depth = behind.depth;
    }
    None
}

/// The end of the value whose first token is given: after the parenthesis that closes its first one, where it has one. None where the
/// bytes end before.
fn end_there(bytes: &[u8], first: Piece) -> Option<usize>
    requires { IsPiece bytes.now first }
    ensures end { (v : Value21) → (b : Begins bytes.now first.token v) → result ≡ Some b.end }
    ensures within { IfSome result (λ end. end ≤ length bytes.now) }
{
    if first.kind == Kind::Open {
        return closed_there(bytes, first.token.end);
    }
    if first.kind == Kind::Word {
        return match take(bytes, first.token.end) {
            Ok(open) => closed_there(bytes, open.token.end),
            Err(_) => None,
        };
    }
    Some(first.token.end)
}

/// Where the next value of a list begins, or the list ends, after one that ends at a place, where a sign stands right there. None says
/// nothing.
#[inline(always)]
pub fn sign_behind(bytes: &[u8], end: usize) -> Option<usize>
    ensures next { IfSome result (λ at. (vs : List Value21) → StandBehind bytes.now end vs
        → StandInside bytes.now at vs) }
    ensures within { IfSome result (λ at. at ≤ length bytes.now) }
{
    if end >= bytes.len() {
        return None;
    }
    if bytes[end] == b',' {
        return Some(end + 1);
    }
    if bytes[end] == b')' {
        return Some(end);
    }
    None
}

/// Where the next value of a list begins, or the list ends, after the value whose first token is given.
pub fn next_there(bytes: &[u8], first: Piece) -> usize
    requires { IsPiece bytes.now first }
    ensures next { (at : ℕ) (v : Value21) (vs : List Value21) → StandInside bytes.now at (v ∷ vs)
        → CutsFrom bytes.now at (Ok (Some first.token)) → StandInside bytes.now result vs }
    ensures within { result ≤ length bytes.now }
{
    let Some(end) = end_there(bytes, first) else {
        return bytes.len();
    };
    match take(bytes, end) {
        Ok(sign) => {
            if sign.kind == Kind::Comma {
                sign.token.end
            } else {
                end
            }
        }
        Err(_) => bytes.len(),
    }
}
