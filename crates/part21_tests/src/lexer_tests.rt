//! Tokens and their places, by hand.
use p21_lexer::{LexFault, Lexer, TokenKind};
use std::process::Abort;

/// A text, its tokens, each with its first byte and the byte after its last, and the place of a fault.
type Row = (
    &'static [u8],
    &'static [(TokenKind, usize, usize)],
    Option<u64>,
);

/// Tokens of each kind.
static KINDS: [Row; 6] = [
    (
        b"#12=IFCWALL('a',$,*,.T.,-1.5E+3,\"0F\",#7);",
        &[
            (TokenKind::Name, 0, 3),
            (TokenKind::Single, 3, 4),
            (TokenKind::Word, 4, 11),
            (TokenKind::Single, 11, 12),
            (TokenKind::Words, 12, 15),
            (TokenKind::Single, 15, 16),
            (TokenKind::Single, 16, 17),
            (TokenKind::Single, 17, 18),
            (TokenKind::Single, 18, 19),
            (TokenKind::Single, 19, 20),
            (TokenKind::Enumeration, 20, 23),
            (TokenKind::Single, 23, 24),
            (TokenKind::Number, 24, 31),
            (TokenKind::Single, 31, 32),
            (TokenKind::Bits, 32, 36),
            (TokenKind::Single, 36, 37),
            (TokenKind::Name, 37, 39),
            (TokenKind::Single, 39, 40),
            (TokenKind::Single, 40, 41),
        ],
        None,
    ),
    (
        b"#9223372036854775807 #9223372036854775808",
        &[
            (TokenKind::Name, 0, 20),
            (TokenKind::Name, 21, 40),
            (TokenKind::Number, 40, 41),
        ],
        None,
    ),
    (
        b"#0009223372036854775807",
        &[(TokenKind::Name, 0, 23)],
        None,
    ),
    (
        b"1.E5 1.5E 2e-1x +7 -",
        &[
            (TokenKind::Number, 0, 4),
            (TokenKind::Number, 5, 8),
            (TokenKind::Word, 8, 9),
            (TokenKind::Number, 10, 14),
            (TokenKind::Word, 14, 15),
            (TokenKind::Number, 16, 18),
        ],
        Some(19),
    ),
    (
        b"!A-1_b _ a#1",
        &[
            (TokenKind::Word, 0, 6),
            (TokenKind::Word, 7, 8),
            (TokenKind::Word, 9, 10),
            (TokenKind::Name, 10, 12),
        ],
        None,
    ),
    (
        b".A1_. \"aF\" .A-",
        &[(TokenKind::Enumeration, 0, 5), (TokenKind::Bits, 6, 10)],
        Some(11),
    ),
];

static GAPS_AND_TEXTS: [Row; 12] = [
    (b"", &[], None),
    (b"\x09\x0a\x0b\x0c\x0d ", &[], None),
    (b"\xef\xbb\xbf ;", &[(TokenKind::Single, 4, 5)], None),
    (b";\xef\xbb\xbf", &[(TokenKind::Single, 0, 1)], Some(1)),
    (b" /* a */\t/**/ A", &[(TokenKind::Word, 14, 15)], None),
    (b"/*/ */A", &[(TokenKind::Word, 6, 7)], None),
    (b"A/* B", &[(TokenKind::Word, 0, 1)], Some(1)),
    (b"/* /* */ */", &[(TokenKind::Single, 9, 10)], Some(10)),
    (b"'a''b'''''", &[(TokenKind::Words, 0, 10)], None),
    (b"'ab''cd", &[(TokenKind::Words, 0, 4)], Some(4)),
    (b"'''", &[(TokenKind::Words, 0, 2)], Some(2)),
    (b"1.", &[(TokenKind::Number, 0, 2)], None),
];

/// No token begins at the first byte of these.
static FAULTS: [&[u8]; 14] = [
    b"\x08",
    b"\x0e",
    b"#",
    b"!",
    b"!1",
    b"/",
    b"%",
    b".5",
    b".A-.",
    b"\"\"",
    b"\"1g\"",
    b"'a",
    b"\xef\xbb",
    b"/*/",
];

/// The next token is this one.
fn assert_token(rt: &impl Abort, lexer: &mut Lexer<'_>, kind: TokenKind, start: usize, end: usize) {
    match lexer.next() {
        Ok(Some(token)) => {
            assert_eq!(rt; token.kind, kind);
            assert_eq!(rt; (token.start, token.end), (start, end));
        }
        _ => assert!(rt; false, "a token is missing at {start}"),
    }
}

/// No token is left: the text ends, or has its fault there.
fn assert_end(rt: &impl Abort, lexer: &mut Lexer<'_>, fault: Option<u64>) {
    match (lexer.next(), fault) {
        (Ok(None), None) => {}
        (Err(LexFault::BadToken { at }), Some(place)) => assert_eq!(rt; at, place),
        _ => assert!(rt; false, "the end is another one"),
    }
}

fn assert_row(
    rt: &impl Abort,
    text: &[u8],
    tokens: &[(TokenKind, usize, usize)],
    fault: Option<u64>,
) {
    let mut lexer = Lexer::new(text);
    for (kind, start, end) in tokens {
        assert_token(rt, &mut lexer, *kind, *start, *end);
    }
    assert_end(rt, &mut lexer, fault);
    assert_end(rt, &mut lexer, fault);
}

#[test]
fn tokens_are_cut(rt: HostRuntime) {
    for (text, tokens, fault) in KINDS.iter() {
        assert_row(&rt, text, tokens, *fault);
    }
    for (text, tokens, fault) in GAPS_AND_TEXTS.iter() {
        assert_row(&rt, text, tokens, *fault);
    }
    for text in FAULTS.iter() {
        assert_row(&rt, text, &[], Some(0));
    }
}
