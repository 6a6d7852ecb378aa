//! The tokens of bytes, one after the other.
use crate::cutting::cut;
use crate::token::{LexFault, Token};
use std::marker::Model;

/// Cuts bytes into tokens, from the left. Contracts see it as the bytes and the place where the next call begins.
#[derive(Drop)]
pub struct Lexer<'a> {
    bytes: &'a [u8],
    at: usize,
}

impl<'a> Model for Lexer<'a> {
    ghost use Rattle.p21_lexer.specs.Cutting.{Place};
    ghost use Rattle.std.specs.Prelude.{◌≤◌, length};

    ghost Value = { Place };

    ghost view = { λ l. record { bytes = l.bytes.now; at = l.at } };

    ghost invariant = { λ l. l.at ≤ length l.bytes.now };
}

impl<'a> Lexer<'a> {
    ghost use Rattle.std.specs.Prelude.{◌≡◌, ◌≤◌, length, IfSome, IfOk};
    ghost use Rattle.p21_lexer.specs.Cutting.{CutsFrom, after, start_of};

    /// A lexer at the first byte, or past a byte order mark (EF BB BF).
    pub fn new(bytes: &'a [u8]) -> Lexer<'a>
        ensures { result ≡ record { bytes = bytes.now; at = start_of bytes.now } }
    {
        let at = match bytes {
            [0xEF, 0xBB, 0xBF, ..] => 3,
            _ => 0,
        };
        Lexer { bytes, at }
    }

    /// The next token; none where only blanks and comments are left. After a fault the lexer stays where it is, so each later call
    /// answers the same, and reads the same bytes again.
    pub fn next(&mut self) -> Result<Option<Token>, LexFault>
        ensures cuts { CutsFrom self.old.bytes self.old.at result }
        ensures moves { self.new ≡ record { bytes = self.old.bytes; at = after self.old result } }
        ensures within { IfOk result (λ found. IfSome found (λ token. token.end ≤ length self.old.bytes)) }
        ensures rises { IfOk result (λ found. IfSome found (λ token. self.old.at ≤ token.start)) }
    {
        match cut(self.bytes, self.at) {
            Ok(Some(token)) => {
                self.at = token.end;
                Ok(Some(token))
            }
            Ok(None) => {
                self.at = self.bytes.len();
                Ok(None)
            }
            Err(fault) => Err(fault),
        }
    }
}
