//! Tokens, their kinds, and the fault of bytes that are none.
/// What a token is, by its spelling (ISO 10303-21, section 6).
#[derive(Clone, Copy, Debug, PartialEq, Eq)]
pub enum TokenKind {
    /// A keyword: an optional `!`, a letter or an underscore, then letters, digits, underscores and hyphens.
    Word,
    /// An instance name: `#` and digits, of a value below 2 ^ 63.
    Name,
    /// A whole or a decimal number, with an optional sign, fraction and exponent.
    Number,
    /// A text between apostrophes, in which each apostrophe is doubled.
    Words,
    /// An enumeration: a letter or an underscore, then letters, digits and underscores, between points.
    Enumeration,
    /// A binary: hexadecimal digits between quotation marks.
    Bits,
    /// One of `( ) , ; = $ *`.
    Single,
}

/// A token and where it stands: its bytes are those from `start` up to `end`, which it doesn't hold.
#[derive(Clone, Copy, Debug)]
pub struct Token {
    pub kind: TokenKind,
    pub start: usize,
    pub end: usize,
}

/// Why no further token is cut.
#[derive(Clone, Copy, Debug)]
pub enum LexFault {
    /// Neither a blank, a whole comment nor a token begins at `at`, counted in bytes from the first one.
    BadToken { at: u64 },
}
