//! The tokens of filters and orders.
ghost use Rattle.std.specs.Prelude.{◌≡◌, ◌+◌, ◌-◌, ◌^◌, ◌<◌, ◌≤◌, ℕ, zero, false, [], ◌∷◌, length, drop, slice_index, Some, MatchOption};
ghost use Rattle.std.specs.List.{take_while};
ghost use Rattle.odata_filter.specs.FilterTokens.{is_word_byte, text_end, quoted_token, token_at, tokens_from, part_of};

/// What a token is.
#[derive(Clone, Copy)]
pub enum TokenKind {
    /// A text in apostrophes.
    Quoted,
    /// `(`
    Open,
    /// `)`
    Close,
    /// `,`
    Comma,
    /// A run of letters, digits and `_+-.:`.
    Word,
    /// A byte without a token.
    Stray,
}

/// A token of a text, by the place of its first byte and the place behind its last one.
#[derive(Clone, Copy)]
pub struct Token {
    pub kind: TokenKind,
    pub at: usize,
    pub end: usize,
}

fn is_word_byte(b: u8) -> bool
    ensures { result ≡ is_word_byte b }
{
    b.is_ascii_digit()
        || b.is_ascii_uppercase()
        || b.is_ascii_lowercase()
        || b == b'_'
        || b == b'+'
        || b == b'-'
        || b == b'.'
        || b == b':'
}

// The place behind the word's bytes that stand from a place on.
#[tactic(auto, using(crate::proofs::Scans::words))]
fn word_end(text: &[u8], from: usize) -> usize
    requires { from ≤ length text.now }
    ensures value { result ≡ from + length (take_while is_word_byte (drop from text.now)) }
    ensures within { result ≤ length text.now }
{
    let mut at = from;
    while at < text.len() && is_word_byte(text[at]) {
        at += 1;
    }
    at
}

// The place behind the apostrophe that ends the text whose bytes stand from a place on.
#[tactic(auto, using(crate::proofs::Scans::texts))]
fn text_end(text: &[u8], from: usize) -> Option<usize>
    requires { from ≤ length text.now }
    ensures value { result ≡ text_end false from (drop from text.now) }
    ensures within { MatchOption result (from ≤ length text.now)
        (λ end. (from ≤ end) × (end ≤ length text.now)) }
{
    let mut after = false;
    let mut at = from;
    while at < text.len() {
        if text[at] == b'\'' {
            after = !after;
        } else if after {
            return Some(at);
        }
        at += 1;
    }
    if after { Some(at) } else { None }
}

fn byte_token(kind: TokenKind, at: usize) -> Token
    requires { at + 1 < 2 ^ 64 }
    ensures { result ≡ record { kind = kind; at = at; end = at + 1 } }
{
    Token {
        kind,
        at,
        end: at + 1,
    }
}

fn quoted_token(text: &[u8], at: usize) -> Token
    requires { at < length text.now }
    ensures value { result ≡ quoted_token at (text_end false (at + 1) (drop (at + 1) text.now)) }
    ensures within { (at < result.end) × (result.end ≤ length text.now) }
    ensures placed { result.at ≡ at }
{
    match text_end(text, at + 1) {
        Some(end) => Token {
            kind: TokenKind::Quoted,
            at,
            end,
        },
        None => byte_token(TokenKind::Stray, at),
    }
}

// The token that begins at a place.
fn token_at(text: &[u8], at: usize) -> Token
    requires { at < length text.now }
    ensures value { result ≡ token_at at (slice_index text.now at) (drop (at + 1) text.now) }
    ensures within { (at < result.end) × (result.end ≤ length text.now) }
    ensures placed { result.at ≡ at }
{
    let b = text[at];
    if b == b'\'' {
        return quoted_token(text, at);
    }
    if b == b'(' {
        return byte_token(TokenKind::Open, at);
    }
    if b == b')' {
        return byte_token(TokenKind::Close, at);
    }
    if b == b',' {
        return byte_token(TokenKind::Comma, at);
    }
    if is_word_byte(b) {
        let end = word_end(text, at + 1);
        return Token {
            kind: TokenKind::Word,
            at,
            end,
        };
    }
    byte_token(TokenKind::Stray, at)
}

/// The next token from a place on, or none.
#[tactic(auto, using(crate::proofs::Scans::cuts))]
pub fn next_token(text: &[u8], from: usize) -> Option<Token>
    requires { from ≤ length text.now }
    ensures tokens { MatchOption result (tokens_from from zero (drop from text.now) ≡ [])
        (λ t. tokens_from from zero (drop from text.now) ≡ t ∷ tokens_from t.end zero (drop t.end text.now)) }
    ensures within { MatchOption result (from ≤ length text.now)
        (λ t. (from ≤ t.at) × (t.at < t.end) × (t.end ≤ length text.now)) }
{
    let mut at = from;
    while at < text.len() {
        if text[at] != b' ' {
            return Some(token_at(text, at));
        }
        at += 1;
    }
    None
}

/// The bytes of a text from one place up to another, as far as it has them.
pub fn part_of(text: &[u8], from: usize, to: usize) -> &[u8]
    ensures { result.now ≡ part_of text.now from to }
{
    let to = to.min(text.len());
    let from = from.min(to);
    &text[from..to]
}
