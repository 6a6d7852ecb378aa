//! Tokens as the grammar asks for them.
ghost use Rattle.std.specs.Prelude.{◌≡◌, ◌<◌, ◌≤◌, length, Option, Some, Result, Ok, IfOk, IfErr, IfSome, slice_index, slice_range};
ghost use Rattle.p21_lexer.specs.Cutting.{CutsFrom};
ghost use Rattle.p21_values.specs.Lexemes.{lexeme_of, class_of, single_says};
ghost use Rattle.p21_values.specs.TokenPieces.{IsPiece, NoToken, IsSign, kind_of};

use crate::fault::ReadFault;
use p21_lexer::{LexFault, Token, TokenKind, cut};

/// What the grammar sees of a token.
#[derive(Clone, Copy, Debug, PartialEq, Eq)]
pub enum Kind {
    Simple,
    Name,
    Word,
    Open,
    Close,
    Comma,
    Semicolon,
    Equals,
}

/// A token, and what the grammar sees of it.
#[derive(Clone, Copy)]
pub struct Piece {
    pub kind: Kind,
    pub token: Token,
}

/// Of a byte that stands alone.
fn single_kind(byte: u8) -> Kind
    ensures { result ≡ kind_of (class_of (single_says byte)) }
{
    match byte {
        b'(' => Kind::Open,
        b')' => Kind::Close,
        b',' => Kind::Comma,
        b';' => Kind::Semicolon,
        b'=' => Kind::Equals,
        _ => Kind::Simple,
    }
}

/// What the grammar sees of a token.
fn kind_at(bytes: &[u8], token: Token) -> Kind
    requires some { token.start < token.end }
    requires within { token.end ≤ length bytes.now }
    ensures { result ≡ kind_of (class_of (lexeme_of bytes.now token)) }
{
    match token.kind {
        TokenKind::Single => single_kind(bytes[token.start]),
        TokenKind::Word => Kind::Word,
        TokenKind::Name => Kind::Name,
        _ => Kind::Simple,
    }
}

/// The sign of the grammar that stands right there, without blanks before it.
#[inline(always)]
fn sign_there(bytes: &[u8], at: usize) -> Option<Kind>
    requires { at ≤ length bytes.now }
    ensures { IfSome result (λ kind. (at < length bytes.now) × IsSign kind
        × (kind ≡ kind_of (class_of (single_says (slice_index bytes.now at))))) }
{
    if at >= bytes.len() {
        return None;
    }
    match bytes[at] {
        b',' => Some(Kind::Comma),
        b'(' => Some(Kind::Open),
        b')' => Some(Kind::Close),
        b';' => Some(Kind::Semicolon),
        b'=' => Some(Kind::Equals),
        _ => None,
    }
}

/// The next token; a fault where the bytes end or no token begins.
#[inline(always)]
pub fn take(bytes: &[u8], at: usize) -> Result<Piece, ReadFault>
    requires { at ≤ length bytes.now }
    ensures cuts { IfOk result (λ piece. CutsFrom bytes.now at (Ok (Some piece.token))) }
    ensures piece { IfOk result (λ piece. IsPiece bytes.now piece) }
    ensures on { IfOk result (λ piece. at ≤ piece.token.start) }
    ensures fault { IfErr result (λ fault. NoToken bytes.now at fault) }
{
    match sign_there(bytes, at) {
        Some(kind) => Ok(Piece {
            kind,
            token: Token {
                kind: TokenKind::Single,
                start: at,
                end: at + 1,
            },
        }),
        None => take_any(bytes, at),
    }
}

/// The same of any token.
#[inline(always)]
fn take_any(bytes: &[u8], at: usize) -> Result<Piece, ReadFault>
    requires { at ≤ length bytes.now }
    ensures cuts { IfOk result (λ piece. CutsFrom bytes.now at (Ok (Some piece.token))) }
    ensures piece { IfOk result (λ piece. IsPiece bytes.now piece) }
    ensures on { IfOk result (λ piece. at ≤ piece.token.start) }
    ensures fault { IfErr result (λ fault. NoToken bytes.now at fault) }
{
    match cut(bytes, at) {
        Ok(Some(token)) => Ok(Piece {
            kind: kind_at(bytes, token),
            token,
        }),
        Ok(None) => Err(ReadFault::BadStatement {
            at: bytes.len() as u64,
        }),
        Err(LexFault::BadToken { at }) => Err(ReadFault::BadToken { at }),
    }
}

/// The fault where a token stands that can't stand there.
pub fn refused(piece: Piece) -> ReadFault
    ensures { result ≡ ReadFault.BadStatement piece.token.start }
{
    ReadFault::BadStatement {
        at: piece.token.start as u64,
    }
}
