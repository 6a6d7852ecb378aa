//! The header section, and the schema that it names.
ghost use Rattle.std.specs.Prelude.{◌≡◌, ◌≤◌, length, IfOk};
ghost use Rattle.p21_reader.specs.inner.Heading.{ReadsData, ReadsPart, ReadsStatements, ReadsHeader};
ghost use Rattle.p21_values.specs.TokenPieces.{IsPiece};

use crate::nested::pass_values;
use crate::schema::{Schema, judge};
use crate::word::{Mark, Seen, expect, expect_word, look};
use p21_values::{Kind, Piece, ReadFault, refused, take};
use std::alloc::Global;

/// What stands next among the statements of a header.
#[derive(Clone, Copy)]
pub enum Part {
    /// A statement: its keyword, and the places after its opening parenthesis and its semicolon.
    Statement {
        word: Piece,
        inside: usize,
        end: usize,
    },
    /// The end of the header, and the place after it.
    Data {
        end: usize,
    },
}

/// Whether a header names IFC4, and the place after it.
#[derive(Clone, Copy)]
pub struct Head {
    pub is_ifc4: bool,
    pub end: usize,
}

/// Passes over DATA and its semicolon.
fn data(bytes: &[u8], at: usize) -> Result<usize, ReadFault>
    requires { at ≤ length bytes.now }
    ensures data { ReadsData bytes.now at result }
    ensures within { IfOk result (λ end. end ≤ length bytes.now) }
{
    let word = expect_word(bytes, at, Mark::Data)?;
    expect(bytes, word, Kind::Semicolon)
}

/// Passes over a statement, or over what ends the header.
fn next_part(alloc: Global, bytes: &[u8], at: usize) -> Result<Part, ReadFault>
    requires { at ≤ length bytes.now }
    ensures part { ReadsPart bytes.now at result }
{
    let word = take(bytes, at)?;
    if word.kind != Kind::Word {
        return Err(refused(word));
    }
    let next = take(bytes, word.token.end)?;
    match next.kind {
        Kind::Open => {
            let inside = next.token.end;
            let close = pass_values(alloc, bytes, inside)?;
            let end = expect(bytes, close, Kind::Semicolon)?;
            Ok(Part::Statement { word, inside, end })
        }
        Kind::Semicolon => match look(bytes, word) {
            Seen::Word(Mark::EndSec) => Ok(Part::Data {
                end: data(bytes, next.token.end)?,
            }),
            _ => Err(refused(next)),
        },
        _ => Err(refused(next)),
    }
}

/// Reads the statements of a header, up to and with the semicolon after DATA.
fn statements(alloc: Global, bytes: &[u8], at: usize) -> Result<Head, ReadFault>
    requires { at ≤ length bytes.now }
    ensures statements { ReadsStatements bytes.now at result }
    ensures within { IfOk result (λ head. head.end ≤ length bytes.now) }
{
    let mut schema = Schema::Unnamed;
    let mut place = at;
    loop {
        match next_part(alloc, bytes, place)? {
            Part::Statement { word, inside, end } => {
                schema = judge(alloc, bytes, schema, word, inside)?;
                place = end;
            }
            Part::Data { end } => {
                return Ok(Head {
                    is_ifc4: matches!(schema, Schema::Ifc4),
                    end,
                });
            }
        }
    }
}

/// Reads a header from its word HEADER on, up to and with the semicolon after DATA.
pub fn header(alloc: Global, bytes: &[u8], at: usize) -> Result<Head, ReadFault>
    requires { at ≤ length bytes.now }
    ensures header { ReadsHeader bytes.now at result }
    ensures within { IfOk result (λ head. head.end ≤ length bytes.now) }
{
    let word = expect_word(bytes, at, Mark::Header)?;
    let begun = expect(bytes, word, Kind::Semicolon)?;
    statements(alloc, bytes, begun)
}
