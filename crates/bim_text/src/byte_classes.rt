//! Bytes of texts: their classes, and the numbers that hexadecimal digits write.
ghost use Rattle.std.specs.Prelude.{◌≡◌, ◌+◌, ◌*◌, ◌^◌, ◌<◌, ◌≤◌, ◌⊎◌, slice_index, drop, length};
ghost use Rattle.std.specs.List.{list_all};
ghost use Rattle.bim_model.specs.Guids.{is_guid_char as guid_char};
ghost use Rattle.bim_text.specs.TextSpellings.{is_hexadecimal, nibble, two, four, group};
ghost use Rattle.p21_lexer.specs.Spelling.{run};

/// The byte at a place, 0 past the end.
pub fn byte_at(bytes: &[u8], at: usize) -> u8
    ensures { result ≡ slice_index bytes.now at }
{
    if at < bytes.len() { bytes[at] } else { 0 }
}

/// Whether a byte is a hexadecimal digit, of either case.
pub fn is_hexadecimal(byte: u8) -> bool
    ensures { result ≡ is_hexadecimal byte }
{
    matches!(byte, b'0'..=b'9' | b'A'..=b'F' | b'a'..=b'f')
}

/// The value of a hexadecimal digit, 0 of another byte.
pub fn nibble(byte: u8) -> u32
    ensures value { result ≡ nibble byte }
    ensures small { result < 16 }
{
    match byte {
        b'0'..=b'9' => (byte - b'0') as u32,
        b'A'..=b'F' => (byte - b'A') as u32 + 10,
        b'a'..=b'f' => (byte - b'a') as u32 + 10,
        _ => 0,
    }
}

/// The number that two hexadecimal digits write.
pub fn two_digits(bytes: &[u8], at: usize) -> u32
    requires { at + 1 < 2 ^ 64 }
    ensures value { result ≡ two bytes.now at }
    ensures small { result < 256 }
{
    nibble(byte_at(bytes, at)) * 16 + nibble(byte_at(bytes, at + 1))
}

/// The number that four write.
fn four_digits(bytes: &[u8], at: usize) -> u32
    requires { at + 3 < 2 ^ 64 }
    ensures value { result ≡ four bytes.now at }
    ensures small { result < 65536 }
{
    two_digits(bytes, at) * 256 + two_digits(bytes, at + 2)
}

/// The number that a group of four or of eight writes.
#[tactic(auto, unfolding(crate::specs::TextSpellings::group))]
pub fn group_digits(bytes: &[u8], at: usize, width: usize) -> u32
    requires width { width ≡ 4 ⊎ width ≡ 8 }
    requires room { at + 7 < 2 ^ 64 }
    ensures { result ≡ group width bytes.now at }
{
    if width == 4 {
        four_digits(bytes, at)
    } else {
        four_digits(bytes, at) * 65536 + four_digits(bytes, at + 4)
    }
}

/// How many hexadecimal digits stand from a place on.
#[tactic(auto, using(p21_lexer::proofs::RunLemmas::runs))]
pub fn count_hexadecimals(bytes: &[u8], from: usize) -> usize
    ensures count { result ≡ run is_hexadecimal (drop from bytes.now) }
    ensures within { result ≤ length bytes.now }
{
    let mut at = from;
    while at < bytes.len() && is_hexadecimal(bytes[at]) {
        at += 1;
    }
    at - from
}

fn is_guid_char(byte: u8) -> bool
    ensures { result ≡ guid_char byte }
{
    byte.is_ascii_alphanumeric() || byte == b'_' || byte == b'$'
}

/// Whether all bytes are of the alphabet of globally unique identifiers.
pub fn are_guid_chars(bytes: &[u8]) -> bool
    ensures { result ≡ list_all guid_char bytes.now }
{
    bytes.iter().all(|byte| is_guid_char(*byte))
}
