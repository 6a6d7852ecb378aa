//! Spellings, texts, sizes and orders.
use bim_text::{Decimal, print_i64, says, says_guid, small_whole, text_of};
use std::alloc::{AllocError, Global};
use std::cmp::Ordering;
use std::process::Abort;
use std::test::Fail;

/// Spellings, and what each is read as: whether it is negative, its digits and its exponent.
static SPELLINGS: [(&str, Option<(bool, u128, i32)>); 20] = [
    ("1.5E3", Some((false, 15, 2))),
    ("-0.00", Some((false, 0, 0))),
    (
        "9999999999999999999999999999999999",
        Some((false, 9999999999999999999999999999999999, 0)),
    ),
    ("99999999999999999999999999999999999", None),
    ("1E401", None),
    ("1E400", Some((false, 1, 400))),
    ("-1.e-0400", Some((true, 1, -400))),
    ("1E-401", None),
    (".5", None),
    ("", None),
    ("+", None),
    ("1 ", None),
    ("1E", None),
    ("1E+", None),
    ("0E401", None),
    ("1E18446744073709551617", None),
    (
        "000000000000000000000000000000000000000070000000000000000000000000000000000000000.000",
        Some((false, 7, 40)),
    ),
    ("10000000000000000000000000000000001", None),
    (
        "1000000000000000000000000000000001.0E1",
        Some((false, 1000000000000000000000000000000001, 1)),
    ),
    (
        "0.00000000000000000000000000000000000000005",
        Some((false, 5, -41)),
    ),
];

/// What a spelling is read as.
fn parts(spelled: &str) -> Option<(bool, u128, i32)> {
    let decimal = Decimal::read(spelled.as_bytes())?;
    Some((decimal.negative, decimal.digits, decimal.exp))
}

#[test]
fn decimals_are_read(rt: HostRuntime) {
    for (spelled, wanted) in SPELLINGS.iter() {
        assert_eq!(rt; parts(spelled), *wanted, "at {spelled}");
    }
}

/// Bytes between the apostrophes, and the text that they spell.
static WORDS: [(&[u8], &str); 20] = [
    (
        b"a\\\\b\\X\\41\\S\\i''\\X2\\00E9\\X0\\",
        "a\\bA\u{E9}'\u{E9}",
    ),
    (b"Pipe 1", "Pipe 1"),
    (b"", ""),
    (b"Decke \\X2\\00FC\\X0\\ber EG", "Decke \u{FC}ber EG"),
    (b"\\X2\\D83DDE00\\X0\\", "\u{FFFD}\u{FFFD}"),
    (b"\\X4\\0001F600\\X0\\", "\u{1F600}"),
    (b"\\X4\\00110000\\X0\\", "\u{FFFD}"),
    (b"\\X\\00", "\u{0}"),
    (b"\\S\\''", "\u{A7}"),
    (b"\\S\\\\", "\u{DC}"),
    (b"\\S\\\x7F", "\\S\\\u{7F}"),
    (b"'\x0A'", "''"),
    (b"'''", "''"),
    (b"\xC3\x0A\xA9", "\u{E9}"),
    (
        b"\xE9 \xC3\xA9 \xF0\x9F\x98\x80 \xED\xA0\x80",
        "\u{E9} \u{E9} \u{1F600} \u{ED}\u{A0}\u{80}",
    ),
    (b"\\PA\\x\\PJ\\", "x\\PJ\\"),
    (b"\\X2\\00e\\X0\\", "\\X2\\00e\\X0\\"),
    (b"\\X2\\\\X0\\", "\\X2\\X0\\"),
    (b"\x7F\x80", "\u{7F}\u{80}"),
    (b"a\\", "a\\"),
];

fn assert_text(
    rt: &impl Abort,
    alloc: Global,
    spelled: &[u8],
    wanted: &str,
) -> Result<(), AllocError> {
    let text = text_of(alloc, spelled)?;
    assert_eq!(rt; text.as_str(), wanted);
    drop(text);
    Ok(())
}

#[test]
fn texts_are_read(rt: HostRuntime) -> Result<(), Fail> {
    for (spelled, wanted) in WORDS.iter() {
        assert_text(&rt, rt.alloc(), spelled, wanted)?;
        assert!(rt; says(spelled, wanted));
        assert!(rt; !says(spelled, "Pipe"));
    }
    Ok(())
}

/// Two spellings with a power of ten for the first between them, and the order of their sizes.
static SIZES: [(&str, i32, &str, Ordering); 9] = [
    ("1", 0, "-1.0", Ordering::Equal),
    ("-0.00001", 6, "10", Ordering::Equal),
    ("0.000001", 6, "1.0000000001", Ordering::Less),
    ("12e-300", 6, "-11.999999999999999e-294", Ordering::Greater),
    (
        "1e400",
        10,
        "9999999999999999999999999999999999e-400",
        Ordering::Greater,
    ),
    (
        "9999999999999999999999999999999999e-400",
        -10,
        "1e400",
        Ordering::Less,
    ),
    ("0", 10, "1e-400", Ordering::Less),
    ("1e-400", -10, "0.0", Ordering::Greater),
    ("0", 1, "-0", Ordering::Equal),
];

/// The order of the sizes of two spellings, the first times a power of ten; none where one is no number or the power is far.
fn order(one: &str, shift: i32, other: &str) -> Option<Ordering> {
    if shift < -10 || shift > 10 {
        return None;
    }
    let one = Decimal::read(one.as_bytes())?;
    let other = Decimal::read(other.as_bytes())?;
    Some(one.compare_size(&other, shift))
}

#[test]
fn sizes_are_compared(rt: HostRuntime) {
    for (one, shift, other, wanted) in SIZES.iter() {
        assert_eq!(rt; order(one, *shift, other), Some(*wanted), "at {one}");
    }
}

static NUMBERS: [i64; 5] = [0, -1, 10, i64::MAX, i64::MIN];

/// The numbers, each with a blank behind it.
fn printed(alloc: Global) -> Result<Vec<u8>, AllocError> {
    let mut out = Vec::new(alloc);
    for number in NUMBERS.iter() {
        print_i64(*number, &mut out)?;
        out.push(b' ')?;
    }
    Ok(out)
}

#[test]
fn numbers_are_printed(rt: HostRuntime) -> Result<(), Fail> {
    let out = printed(rt.alloc())?;
    assert_eq!(rt;
        out.as_slice(),
        b"0 -1 10 9223372036854775807 -9223372036854775808 ".as_slice()
    );
    drop(out);
    Ok(())
}

/// What is spelled, and whether it is a globally unique identifier.
static GUIDS: [(&str, bool); 6] = [
    ("0000000000000000000001", true),
    ("_$\\X\\30\\PA\\0000000000000000001", true),
    ("\\X2\\00300031\\X0\\00000000000000000001", true),
    ("000000000000000000001", false),
    ("\\X\\2D000000000000000000001", false),
    ("\\X2\\003000310032\\X0\\00000000000000000001", false),
];

#[test]
fn identifiers_are_read(rt: HostRuntime) {
    for (spelled, wanted) in GUIDS.iter() {
        assert_eq!(rt; says_guid(spelled.as_bytes()), *wanted, "at {spelled}");
    }
}

/// Spellings, and the small whole number that each is.
static SMALL_NUMBERS: [(&str, Option<u64>); 14] = [
    ("0", Some(0)),
    ("12", Some(12)),
    ("12.", Some(12)),
    ("0007", Some(7)),
    ("999999999999999", Some(999_999_999_999_999)),
    ("1000000000000000", None),
    ("0000000000000000000000000000000001", Some(1)),
    ("00000000000000000000000000000000001", None),
    ("", None),
    (".", None),
    ("12.0", None),
    ("12E", None),
    ("+12", None),
    ("-12", None),
];

#[test]
fn small_whole_numbers_are_read(rt: HostRuntime) {
    for (spelled, wanted) in SMALL_NUMBERS.iter() {
        assert_eq!(rt; small_whole(spelled.as_bytes()), *wanted, "at {spelled}");
    }
}
