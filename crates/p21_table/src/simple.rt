//! Values of one token: numbers, texts, names, enumerations and bits.
ghost use Rattle.std.specs.Prelude.{◌≡◌, ◌≤◌, ◌∷◌, [], IfOk, length, map};
ghost use Rattle.std.specs.Str.{IsAscii};
ghost use Rattle.std.specs.Char.{to_ascii_uppercase};
ghost use Rattle.p21_lexer.specs.Spelling.{IsWord, value_after};
ghost use Rattle.p21_lexer.specs.declared.limits.TheConstants.{GREATEST_NAME};
ghost use Rattle.p21_values.specs.Lexemes.{inner as inner_of, lexeme_of, class_of, single_says, ReferenceTo, KeywordOf};
ghost use Rattle.p21_values.specs.TokenPieces.{IsPiece, kind_of};

use bim_model::Text;
use p21_values::{Kind, Piece};
use std::alloc::{AllocError, Global};

/// The number that decimal digits spell.
fn number_of(digits: &[u8]) -> u64
    requires { value_after 0 digits.now ≤ GREATEST_NAME }
    ensures { result ≡ value_after 0 digits.now }
{
    let mut value: u64 = 0;
    for digit in digits {
        value = value * 10 + (digit.saturating_sub(b'0')) as u64;
    }
    value
}

/// The number of an instance name.
pub fn name_of(bytes: &[u8], piece: Piece) -> u64
    requires piece { IsPiece bytes.now piece }
    requires name { piece.kind ≡ Kind.Name }
    ensures { ReferenceTo result ≡ lexeme_of bytes.now piece.token }
{
    number_of(&bytes[piece.token.start + 1..piece.token.end])
}

/// A text of ASCII bytes.
fn text_of(alloc: Global, bytes: &[u8]) -> Result<Text, AllocError>
    requires { IsAscii bytes.now }
    ensures { IfOk result (λ text. text ≡ bytes.now) }
{
    Text::of(alloc, unsafe { str::from_utf8_unchecked(bytes) })
}

/// The bytes with their letters in upper case.
fn upper_of(alloc: Global, bytes: &[u8]) -> Result<Vec<u8>, AllocError>
    ensures { IfOk result (λ upper. upper.items ≡ map to_ascii_uppercase bytes.now) }
{
    let mut upper = Vec::with_capacity(alloc, bytes.len())?;
    for byte in bytes {
        upper.push(byte.to_ascii_uppercase())?;
    }
    Ok(upper)
}

/// A word in upper case, as a text.
pub fn upper_text(alloc: Global, word: &[u8]) -> Result<Text, AllocError>
    requires { ∥ IsWord word.now ∥₁ }
    ensures { IfOk result (λ text. text ≡ map to_ascii_uppercase word.now) }
{
    let upper = upper_of(alloc, word)?;
    text_of(alloc, &upper)
}

/// What is between the marks.
pub fn inner(spelled: &[u8]) -> &[u8]
    requires { 2 ≤ length spelled.now }
    ensures { result.now ≡ inner_of spelled.now }
{
    &spelled[1..spelled.len() - 1]
}
