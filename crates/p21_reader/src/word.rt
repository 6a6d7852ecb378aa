//! The words that structure a file.
ghost use Rattle.std.specs.Prelude.{◌≡◌, ◌<◌, ◌≤◌, length, map, Some, Ok, IfOk, IfErr};
ghost use Rattle.std.specs.Char.{to_ascii_uppercase};
ghost use Rattle.p21_values.specs.Lexemes.{ReferenceTo, lexeme_of, class_of, mark_of};
ghost use Rattle.p21_lexer.specs.Cutting.{CutsFrom};
ghost use Rattle.p21_values.specs.TokenPieces.{IsPiece, IsSign, NoToken};
ghost use Rattle.p21_reader.specs.inner.TokenReading.{Expects};
ghost use Rattle.p21_reader.specs.inner.Heading.{mark_seen, class_seen};
ghost use Rattle.p21_reader.specs.ExchangeFiles.{ReadsWord};

use ifc_keywords::is_word;
use p21_lexer::{Token, TokenKind, name_there, word_there};
use p21_table::name_of;
use p21_values::{Kind, Piece, ReadFault, refused, take};

/// The words that the grammar names; each other word is `Other`.
#[derive(Clone, Copy, PartialEq, Eq)]
pub enum Mark {
    Iso,
    Header,
    Data,
    EndSec,
    EndIso,
    Other,
}

/// What the grammar sees of a token, words told apart.
#[derive(Clone, Copy, PartialEq, Eq)]
pub enum Seen {
    Simple,
    Name,
    Word(Mark),
    Open,
    Close,
    Comma,
    Semicolon,
    Equals,
}

/// Which word it is.
#[tactic(auto, unfolding(p21_values::specs::Lexemes::mark_of))]
fn mark_at(bytes: &[u8]) -> Mark
    ensures { mark_seen result ≡ mark_of (map to_ascii_uppercase bytes.now) }
{
    if is_word(bytes, b"ISO-10303-21") {
        Mark::Iso
    } else if is_word(bytes, b"HEADER") {
        Mark::Header
    } else if is_word(bytes, b"DATA") {
        Mark::Data
    } else if is_word(bytes, b"ENDSEC") {
        Mark::EndSec
    } else if is_word(bytes, b"END-ISO-10303-21") {
        Mark::EndIso
    } else {
        Mark::Other
    }
}

/// What the grammar sees of a token.
pub fn look(bytes: &[u8], piece: Piece) -> Seen
    requires { IsPiece bytes.now piece }
    ensures { class_seen result ≡ class_of (lexeme_of bytes.now piece.token) }
{
    match piece.kind {
        Kind::Simple => Seen::Simple,
        Kind::Name => Seen::Name,
        Kind::Word => Seen::Word(mark_at(&bytes[piece.token.start..piece.token.end])),
        Kind::Open => Seen::Open,
        Kind::Close => Seen::Close,
        Kind::Comma => Seen::Comma,
        Kind::Semicolon => Seen::Semicolon,
        Kind::Equals => Seen::Equals,
    }
}

/// The end of a word that is wanted.
pub fn expect_word(bytes: &[u8], at: usize, wanted: Mark) -> Result<usize, ReadFault>
    requires { at ≤ length bytes.now }
    ensures word { ReadsWord (mark_seen wanted) bytes.now at result }
    ensures within { IfOk result (λ end. end ≤ length bytes.now) }
{
    let piece = take(bytes, at)?;
    if look(bytes, piece) == Seen::Word(wanted) {
        Ok(piece.token.end)
    } else {
        Err(refused(piece))
    }
}

/// The next token, which most often is a word that stands right there.
#[inline(always)]
pub fn take_word(bytes: &[u8], at: usize) -> Result<Piece, ReadFault>
    requires { at ≤ length bytes.now }
    ensures cuts { IfOk result (λ piece. CutsFrom bytes.now at (Ok (Some piece.token))) }
    ensures piece { IfOk result (λ piece. IsPiece bytes.now piece) }
    ensures on { IfOk result (λ piece. at ≤ piece.token.start) }
    ensures fault { IfErr result (λ fault. NoToken bytes.now at fault) }
{
    match word_there(bytes, at) {
        Some(end) => Ok(Piece {
            kind: Kind::Word,
            token: Token {
                kind: TokenKind::Word,
                start: at,
                end,
            },
        }),
        None => take(bytes, at),
    }
}

/// A token, and its number where it is an instance name; 0 where it is none.
#[derive(Clone, Copy)]
pub struct Numbered {
    pub piece: Piece,
    pub id: u64,
}

/// The token that is given, with its number where it is an instance name.
fn with_number(bytes: &[u8], piece: Piece) -> Numbered
    requires { IsPiece bytes.now piece }
    ensures same { result.piece ≡ piece }
    ensures number { piece.kind ≡ Kind.Name → ReferenceTo result.id ≡ lexeme_of bytes.now piece.token }
{
    let id = if piece.kind == Kind::Name {
        name_of(bytes, piece)
    } else {
        0
    };
    Numbered { piece, id }
}

/// The next token, which most often is a name on a line of its own, and its number where it is a name.
#[inline(always)]
pub fn take_name(bytes: &[u8], at: usize) -> Result<Numbered, ReadFault>
    requires { at ≤ length bytes.now }
    ensures cuts { IfOk result (λ next. CutsFrom bytes.now at (Ok (Some next.piece.token))) }
    ensures piece { IfOk result (λ next. IsPiece bytes.now next.piece) }
    ensures number { IfOk result (λ next. next.piece.kind ≡ Kind.Name →
        ReferenceTo next.id ≡ lexeme_of bytes.now next.piece.token) }
    ensures on { IfOk result (λ next. at ≤ next.piece.token.start) }
    ensures fault { IfErr result (λ fault. NoToken bytes.now at fault) }
{
    let start = if at < bytes.len() && bytes[at] == b'\n' {
        at + 1
    } else {
        at
    };
    match name_there(bytes, start) {
        Some(name) => Ok(Numbered {
            piece: Piece {
                kind: Kind::Name,
                token: Token {
                    kind: TokenKind::Name,
                    start,
                    end: name.end,
                },
            },
            id: name.id,
        }),
        None => Ok(with_number(bytes, take(bytes, at)?)),
    }
}

/// The end of a sign that is wanted.
#[inline(always)]
pub fn expect(bytes: &[u8], at: usize, wanted: Kind) -> Result<usize, ReadFault>
    requires sign { IsSign wanted }
    requires at { at ≤ length bytes.now }
    ensures expects { Expects wanted bytes.now at result }
    ensures on { IfOk result (λ end. at < end) }
    ensures within { IfOk result (λ end. end ≤ length bytes.now) }
{
    let piece = take(bytes, at)?;
    if piece.kind == wanted {
        Ok(piece.token.end)
    } else {
        Err(refused(piece))
    }
}
