//! What stands next, for those who only ask.
ghost use Rattle.std.specs.Prelude.{◌≡◌, ◌≤◌, ◌∷◌, [], ℕ, List, length, Some, Ok, IfSome, IfNone};
ghost use Rattle.p21_lexer.specs.Cutting.{CutsFrom};
ghost use Rattle.p21_lexer.specs.declared.token.Token.{Token};
ghost use Rattle.p21_values.specs.Grammar.{Word};
ghost use Rattle.p21_values.specs.Lexemes.{lexeme_of, class_of, Opening, Closing, WordsOf};
ghost use Rattle.p21_reader.specs.inner.Heading.{mark_seen, OnlyText};
ghost use Rattle.p21_reader.specs.inner.TokenReading.{Cuts, sign_says};
ghost use Rattle.p21_values.specs.TokenPieces.{IsPiece, IsSign};

use crate::word::{Mark, Seen, look};
use p21_lexer::{Token, TokenKind};
use p21_table::inner;
use p21_values::{Kind, Piece, take};

/// The next token; none where the bytes end or no token begins.
fn next_piece(bytes: &[u8], at: usize) -> Option<Piece>
    requires { at ≤ length bytes.now }
    ensures cuts { IfSome result (λ piece. CutsFrom bytes.now at (Ok (Some piece.token))) }
    ensures piece { IfSome result (λ piece. IsPiece bytes.now piece) }
    ensures none { IfNone result ((t : Token) → CutsFrom bytes.now at (Ok (Some t)) → ⊥) }
{
    match take(bytes, at) {
        Ok(piece) => Some(piece),
        Err(_) => None,
    }
}

/// The end of a sign, where it stands next.
pub fn sign_end(bytes: &[u8], at: usize, wanted: Kind) -> Option<usize>
    requires sign { IsSign wanted }
    requires at { at ≤ length bytes.now }
    ensures found { IfSome result (λ end. Cuts bytes.now at (sign_says wanted ∷ []) end) }
    ensures none { IfNone result ((t : Token) → CutsFrom bytes.now at (Ok (Some t))
        → lexeme_of bytes.now t ≡ sign_says wanted → ⊥) }
    ensures within { IfSome result (λ end. end ≤ length bytes.now) }
{
    match next_piece(bytes, at) {
        None => None,
        Some(piece) => {
            if piece.kind == wanted {
                Some(piece.token.end)
            } else {
                None
            }
        }
    }
}

/// The end of a word, where it stands next.
pub fn word_end(bytes: &[u8], at: usize, wanted: Mark) -> Option<usize>
    requires { at ≤ length bytes.now }
    ensures found { IfSome result (λ end. (t : Token) × CutsFrom bytes.now at (Ok (Some t))
        × (class_of (lexeme_of bytes.now t) ≡ Word (mark_seen wanted)) × (t.end ≡ end)) }
    ensures none { IfNone result ((t : Token) → CutsFrom bytes.now at (Ok (Some t))
        → class_of (lexeme_of bytes.now t) ≡ Word (mark_seen wanted) → ⊥) }
    ensures within { IfSome result (λ end. end ≤ length bytes.now) }
{
    match next_piece(bytes, at) {
        None => None,
        Some(piece) => {
            if look(bytes, piece) == Seen::Word(wanted) {
                Some(piece.token.end)
            } else {
                None
            }
        }
    }
}

/// The text that stands next.
fn text_token(bytes: &[u8], at: usize) -> Option<Token>
    requires { at ≤ length bytes.now }
    ensures found { IfSome result (λ t. CutsFrom bytes.now at (Ok (Some t))) }
    ensures text { IfSome result (λ t. t.kind ≡ TokenKind.Words) }
    ensures piece { IfSome result (λ t. IsPiece bytes.now (record { kind = Kind.Simple; token = t })) }
    ensures none { IfNone result ((t : Token) (spelled : List ℕ) → CutsFrom bytes.now at (Ok (Some t))
        → lexeme_of bytes.now t ≡ WordsOf spelled → ⊥) }
{
    match next_piece(bytes, at) {
        None => None,
        Some(piece) => match piece.token.kind {
            TokenKind::Words => Some(piece.token),
            _ => None,
        },
    }
}

/// The text, without its apostrophes, of one that stands alone in parentheses after an opening one: `('text'))`.
pub fn only_text(bytes: &[u8], at: usize) -> Option<&[u8]>
    requires { at ≤ length bytes.now }
    ensures found { IfSome result (λ spelled. OnlyText bytes.now at spelled.now) }
    ensures none { IfNone result ((spelled : List ℕ) → OnlyText bytes.now at spelled → ⊥) }
{
    let open = sign_end(bytes, at, Kind::Open)?;
    let text = text_token(bytes, open)?;
    let close = sign_end(bytes, text.end, Kind::Close)?;
    sign_end(bytes, close, Kind::Close)?;
    Some(inner(&bytes[text.start..text.end]))
}
