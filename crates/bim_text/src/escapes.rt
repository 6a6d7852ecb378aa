//! Which row stands at the front of a spelled text, read without memory: the same tests as on cleaned bytes.
ghost use Rattle.std.specs.Prelude.{◌≡◌, ◌+◌, ◌*◌, ◌^◌, ◌<◌, ◌⊎◌, IsTrue, slice_index, drop};
ghost use Rattle.bim_text.specs.TextSpellings.{cleaned, two, four, group, is_code, is_wide, is_shifted, is_page, is_hexadecimal};
ghost use Rattle.p21_lexer.specs.Spelling.{run};

use crate::byte_classes::{is_hexadecimal, nibble};
use crate::cursor::{count_kept_hexadecimals, kept_at, skip};

/// Whether the bytes begin as `\X\hh`, their first being a backslash.
#[tactic(auto, unfolding(crate::specs::TextSpellings::is_code))]
pub fn is_code(spelled: &[u8]) -> bool
    ensures { result ≡ is_code (cleaned spelled.now) }
{
    kept_at(spelled, 1) == b'X'
        && kept_at(spelled, 2) == b'\\'
        && is_hexadecimal(kept_at(spelled, 3))
        && is_hexadecimal(kept_at(spelled, 4))
}

/// How many hexadecimal digits follow `\X2\` or `\X4\`.
pub fn wide_digits(spelled: &[u8]) -> usize
    ensures digits { result ≡ run is_hexadecimal (drop 4 (cleaned spelled.now)) }
    ensures few { result < 2 ^ 63 }
{
    count_kept_hexadecimals(skip(spelled, 4))
}

/// Whether the bytes begin as `\X2\` or `\X4\`, whole groups of that many hexadecimal digits, `\X0\`.
#[tactic(auto, unfolding(crate::specs::TextSpellings::is_wide))]
pub fn is_wide(spelled: &[u8], mark: u8, width: usize) -> bool
    requires width { width ≡ 4 ⊎ width ≡ 8 }
    ensures { result ≡ is_wide mark width (cleaned spelled.now) }
{
    let digits = wide_digits(spelled);
    kept_at(spelled, 1) == b'X'
        && kept_at(spelled, 2) == mark
        && kept_at(spelled, 3) == b'\\'
        && 0 < digits
        && digits % width == 0
        && kept_at(spelled, digits + 4) == b'\\'
        && kept_at(spelled, digits + 5) == b'X'
        && kept_at(spelled, digits + 6) == b'0'
        && kept_at(spelled, digits + 7) == b'\\'
}

/// Whether the bytes begin as `\S\c`.
#[tactic(auto, unfolding(crate::specs::TextSpellings::is_shifted))]
pub fn is_shifted(spelled: &[u8]) -> bool
    ensures is { result ≡ is_shifted (cleaned spelled.now) }
    ensures small { IsTrue result → slice_index (cleaned spelled.now) 3 < 128 }
{
    kept_at(spelled, 1) == b'S'
        && kept_at(spelled, 2) == b'\\'
        && 32 <= kept_at(spelled, 3)
        && kept_at(spelled, 3) <= 126
}

/// Whether the bytes begin as `\PA\`, with a letter from A to I.
#[tactic(auto, unfolding(crate::specs::TextSpellings::is_page))]
pub fn is_page(spelled: &[u8]) -> bool
    ensures { result ≡ is_page (cleaned spelled.now) }
{
    kept_at(spelled, 1) == b'P'
        && b'A' <= kept_at(spelled, 2)
        && kept_at(spelled, 2) <= b'I'
        && kept_at(spelled, 3) == b'\\'
}

/// The number that two hexadecimal digits write.
pub fn two_digits(spelled: &[u8], at: usize) -> u32
    requires { at + 1 < 2 ^ 64 }
    ensures value { result ≡ two (cleaned spelled.now) at }
    ensures small { result < 256 }
{
    nibble(kept_at(spelled, at)) * 16 + nibble(kept_at(spelled, at + 1))
}

fn four_digits(spelled: &[u8], at: usize) -> u32
    requires { at + 3 < 2 ^ 64 }
    ensures value { result ≡ four (cleaned spelled.now) at }
    ensures small { result < 65536 }
{
    two_digits(spelled, at) * 256 + two_digits(spelled, at + 2)
}

/// The number that a group of four or of eight writes.
#[tactic(auto, unfolding(crate::specs::TextSpellings::group))]
pub fn group_digits(spelled: &[u8], at: usize, width: usize) -> u32
    requires width { width ≡ 4 ⊎ width ≡ 8 }
    requires room { at + 7 < 2 ^ 64 }
    ensures { result ≡ group width (cleaned spelled.now) at }
{
    if width == 4 {
        four_digits(spelled, at)
    } else {
        four_digits(spelled, at) * 65536 + four_digits(spelled, at + 4)
    }
}
