//! One token cut off the front, or the place where there is none.
ghost use Rattle.std.specs.Prelude.{◌≡◌, ◌+◌, ◌<◌, ◌≤◌, length, drop, option_map, IfSome, IfOk};
ghost use Rattle.p21_lexer.specs.Cutting.{CutsFrom};
ghost use Rattle.p21_lexer.specs.inner.Kinds.{kind_of, span};

use crate::gaps::skip;
use crate::spelling::{bits_end, enumeration_end, name_end, number_end, text_end, word_end};
use crate::token::{LexFault, Token, TokenKind};

/// The kind whose spellings begin with this byte.
fn kind_at(byte: u8) -> Option<TokenKind>
    ensures { result ≡ kind_of byte }
{
    match byte {
        b'0'..=b'9' | b'+' | b'-' => Some(TokenKind::Number),
        b'#' => Some(TokenKind::Name),
        b'(' | b')' | b',' | b';' | b'=' | b'$' | b'*' => Some(TokenKind::Single),
        b'A'..=b'Z' | b'a'..=b'z' | b'_' | b'!' => Some(TokenKind::Word),
        b'\'' => Some(TokenKind::Words),
        b'.' => Some(TokenKind::Enumeration),
        b'"' => Some(TokenKind::Bits),
        _ => None,
    }
}

/// The end of the longest token of a kind, one of whose first bytes stands at `at`.
#[tactic(auto, unfolding(crate::specs::inner::Kinds::span))]
#[inline(always)]
pub(crate) fn end_of(kind: TokenKind, bytes: &[u8], at: usize) -> Option<usize>
    requires { at < length bytes.now }
    ensures span { result ≡ option_map (λ n. at + n) (span kind (drop at bytes.now)) }
    ensures within { IfSome result (λ end. end ≤ length bytes.now) }
{
    match kind {
        TokenKind::Single => Some(at + 1),
        TokenKind::Word => word_end(bytes, at),
        TokenKind::Name => name_end(bytes, at + 1),
        TokenKind::Number => number_end(bytes, at),
        TokenKind::Words => text_end(bytes, at + 1),
        TokenKind::Enumeration => enumeration_end(bytes, at + 1),
        TokenKind::Bits => bits_end(bytes, at + 1),
    }
}

/// The token that is cut next from `from` on, for callers who keep the place themselves: none where only blanks and comments are left.
pub fn cut(bytes: &[u8], from: usize) -> Result<Option<Token>, LexFault>
    requires { from ≤ length bytes.now }
    ensures cuts { CutsFrom bytes.now from result }
    ensures within { IfOk result (λ found. IfSome found (λ token. token.end ≤ length bytes.now)) }
    ensures rises { IfOk result (λ found. IfSome found (λ token. from ≤ token.start)) }
{
    let start = skip(bytes, from);
    if start >= bytes.len() {
        return Ok(None);
    }
    match kind_at(bytes[start]) {
        None => Err(LexFault::BadToken { at: start as u64 }),
        Some(kind) => match end_of(kind, bytes, start) {
            None => Err(LexFault::BadToken { at: start as u64 }),
            Some(end) => Ok(Some(Token { kind, start, end })),
        },
    }
}
