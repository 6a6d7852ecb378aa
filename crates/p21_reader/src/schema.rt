//! Whether a header names the schema that is read.
ghost use Rattle.std.specs.Prelude.{◌≡◌, ◌≤◌, ◌∷◌, [], ◌++◌, List, length, IsTrue, ◌↔◌, IfOk, IfErr};
ghost use Rattle.p21_reader.specs.Schema.{Statement, IsIfc4};
ghost use Rattle.p21_reader.specs.inner.Heading.{SaysSchema, OnlyIfc4, IsStatementAt};
ghost use Rattle.p21_values.specs.TokenPieces.{IsPiece};

use crate::ahead::only_text;
use bim_text::text_of;
use ifc_keywords::is_word;
use p21_values::{Kind, Piece, ReadFault};
use std::alloc::{AllocError, Global};

/// What the statements of a header say of the schema so far.
#[derive(Clone, Copy)]
pub enum Schema {
    /// None of them is FILE_SCHEMA.
    Unnamed,
    /// One is, and it names IFC4.
    Ifc4,
    /// They don't name IFC4, whatever statements follow.
    Wrong,
}

/// Whether a text's value is IFC4 in letters of either case.
fn is_ifc4(alloc: Global, spelled: &[u8]) -> Result<bool, AllocError>
    ensures { IfOk result (λ named. IsTrue named ↔ IsIfc4 spelled.now) }
{
    let text = text_of(alloc, spelled)?;
    Ok(is_word(text.as_str().as_bytes(), b"IFC4"))
}

/// Whether what stands behind the opening parenthesis of a statement is one value, a list of one text, which is IFC4.
fn holds_ifc4(alloc: Global, bytes: &[u8], inside: usize) -> Result<bool, AllocError>
    requires { inside ≤ length bytes.now }
    ensures { IfOk result (λ named. IsTrue named ↔ OnlyIfc4 bytes.now inside) }
{
    match only_text(bytes, inside) {
        None => Ok(false),
        Some(spelled) => is_ifc4(alloc, spelled),
    }
}

/// What is said of the schema after one more statement, whose keyword is given, and whose values stand from `inside` on.
pub fn judge(
    alloc: Global,
    bytes: &[u8],
    so_far: Schema,
    word: Piece,
    inside: usize,
) -> Result<Schema, ReadFault>
    requires piece { IsPiece bytes.now word }
    requires word { word.kind ≡ Kind.Word }
    requires inside { inside ≤ length bytes.now }
    ensures says { IfOk result (λ schema. (before : List Statement) (s : Statement)
        → IsStatementAt bytes.now word.token inside s → SaysSchema so_far before
        → SaysSchema schema (before ++ s ∷ [])) }
    ensures fault { IfErr result (λ fault. fault ≡ ReadFault.Memory) }
{
    if !is_word(&bytes[word.token.start..word.token.end], b"FILE_SCHEMA") {
        return Ok(so_far);
    }
    match so_far {
        Schema::Unnamed => {
            if holds_ifc4(alloc, bytes, inside)? {
                Ok(Schema::Ifc4)
            } else {
                Ok(Schema::Wrong)
            }
        }
        _ => Ok(Schema::Wrong),
    }
}
