//! Classes of bytes.
ghost use Rattle.std.specs.Prelude.{◌≡◌};
ghost use Rattle.p21_lexer.specs.TokenSeparators.{is_blank as gap_blank};
ghost use Rattle.p21_lexer.specs.Spelling.{is_digit, is_letter, is_word_byte, is_letter_or_digit, is_hexadecimal, is_sign};

/// Whether a byte is a blank: a space, a tab or an end of line.
pub fn is_blank(byte: u8) -> bool
    ensures { result ≡ gap_blank byte }
{
    matches!(byte, 9..=13 | 32)
}

/// Whether a byte is a decimal digit.
pub fn is_digit(byte: u8) -> bool
    ensures { result ≡ is_digit byte }
{
    byte >= b'0' && byte <= b'9'
}

/// Whether a byte is a letter, or `_`, which counts as one.
pub fn is_letter(byte: u8) -> bool
    ensures { result ≡ is_letter byte }
{
    matches!(byte, b'A'..=b'Z' | b'a'..=b'z' | b'_')
}

/// Whether a byte may stand in a word: a letter, a digit or `-`. Most are letters in upper case.
pub fn is_word_byte(byte: u8) -> bool
    ensures { result ≡ is_word_byte byte }
{
    if byte >= b'A' && byte <= b'Z' {
        return true;
    }
    matches!(byte, b'A'..=b'Z' | b'a'..=b'z' | b'_' | b'0'..=b'9' | b'-')
}

/// Whether a byte may stand in an enumeration: a letter or a digit.
pub fn is_enumeration_byte(byte: u8) -> bool
    ensures { result ≡ is_letter_or_digit byte }
{
    matches!(byte, b'A'..=b'Z' | b'a'..=b'z' | b'_' | b'0'..=b'9')
}

/// Whether a byte is a hexadecimal digit, of either case.
pub fn is_hexadecimal(byte: u8) -> bool
    ensures { result ≡ is_hexadecimal byte }
{
    matches!(byte, b'A'..=b'F' | b'a'..=b'f' | b'0'..=b'9')
}

/// Whether a byte is a sign.
pub fn is_sign(byte: u8) -> bool
    ensures { result ≡ is_sign byte }
{
    byte == b'+' || byte == b'-'
}
