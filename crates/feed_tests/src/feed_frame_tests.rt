//! Entries of each kind as frames, against those that another program made.
ghost use Rattle.std.specs.Prelude.{◌<◌};

use feed_frames::{FrameError, Frames, decode, encode};
use std::alloc::{AllocError, Global};
use std::process::Abort;
use std::test::Fail;

/// A frame of each kind of change, in the order of the kinds. Its rules are of each kind too.
static FRAMES: [&str; 13] = [
    "00000000000000940000000000000100000100000000000000000001000000010100000000000000016d00000000000000014a69746b596c754f36616346784e5f6d44595f753231000000000000000749464357414c4c00000000000000000100000000000000087ff09f98805920200000000000000001fffffc78ffffffff00000001ffffe04000000000000000f8ff85ee00ff85ee00000011eb",
    "0000000000000021000000000000000000000000000000000000000000000000020000000000000000",
    "00000000000000780000000000000003000000010000000000000001000000010300000000000000030000000000000000003201000000000000000749464357414c4c01000000000000000141010100000000000000000101000100000000000000074946434245414d0201000000000000000245470202ffffffffffffffff",
    "000000000000002d00000000000000040000003f000000000000000900000008040000000000000002ffffff3800000000000000c7",
    "000000000000005600000000000000010000000000000000000000010000000105000000000000000450697065000000000000000000000000000000000000000000000009616e6f6e796d6f75730000000066322ec00000000000000010",
    "00000000000000a1000000000000000200000100df7824186566a6380000000706000000000000000200000000000000045c2d2d6200010000000000000006597f203900300000000000000000000300000000000000056163396222000000000000000530277f636300000000000000000100000000000000095f397fc3a9c3a9c3a90000010000003afff2d3e0000000000000000365766100000000000000005efedfb6fea82150",
    "00000000000000210000000000000002000000070000000000000100f980bdf7070000170140c1d684",
    "000000000000005200000000000001000db0adc4000000000000000200000002080000000000010000000000000000000c5f2739f09f988020615a6230000000000000000004c3bc20620000000000000001ffffffffffffffff",
    "000000000000005300000000000000060000000000000000000000060000000109000000000000000100000000000000030000000000000000000000000000000009616e6f6e796d6f75730000000066322ec00000000000000005",
    "00000000000000290aaff7dab254831e000000070000000000010000fffffffe0a0000000000000100000009bd6ccf571e",
    "00000000000000890000000000010000000100001bf796de02c5c196000000070b00000000000000020100000000000000000000000000000000000000010000000000000007236666303041410000000000000001016341666b6c576f7669327a6348624d61736c714e675301000000000000000a275f20c3a92700305c27000100000000000000000000000000000000",
    "0000000000000029fffffffffffffffe000000000000000000000007000000070c00000000000000070000000000000100",
    "000000000000004479067d72105c06bb440a0f74ffffffffffffffff000000ff0d2fb35ace16bc26f400000000000000000000000000000003657661000000000000000100000000000000ff",
];

/// Payloads that spell no entry. The last says that it has 2^64 - 1 labels, and ends there.
static BAD_PAYLOADS: [&str; 14] = [
    "000000000001000000000002000000000000000100000000010000000000000001006e6e6e6e6e6e6e6e6e6e6e6e6e6e6e6e6e6e6e6e6e6e6e6e6e6e6e6e6e6e6e6e6e6e6e6e6e6e6e6e6e6e6e6e6e6e6e6e6e6e6e6e6e6e6e6e6e6e6e6e6e6e6e0000000000000000",
    "fffffffffffffffefffffffefffffffffffffffe000100000200000000000000026d",
    "00000000000001000001000000000000000000ff000000000600000000000000010000000000000000022d2d0027205a00000001000000000000000000000000010000000000000008390af09f988000200000000000000000000009616e6f6e796d6f757300000000000000000000000000000100",
    "fffffffffffffffe000000010000000000000002ffffffff0900000000000000070000000000000100008000000000000000582d0a0a3961222227596239225c622d6262615a61c3a9305c5f585822010000fffffffffffe0000000000000004c3bc2062000000000000000100000000000000ff",
    "00",
    "0000000000000009000000000000000000000009000000010000000000000000017400000000000000000000000000000000000000000000000365766100000000000000000000000000000001",
    "0000000000000009000000000000000000000009000000010100000000000000016e000000000000000130303030303030303030303030303030303030303033000000000000000749464357414c4c0000000000000000000000000000000000",
    "000000000000000900000000000000000000000900000001030000000000000001000000000000000003e90000000000000005",
    "0000000000000009000000000000000000000009000000010300000000000000010000000000030000000000000001",
    "000000000000000900000000000000000000000900000001050000000000000001740000000000000000000000000000000000000000000000036576610000003afff2d3e10000000000000001",
    "0000000000000009000000000000000000000009000000010b0000000000000001000000000000000001012d2d2d2d2d2d2d2d2d2d2d2d2d2d2d2d2d2d2d2d2d2d000000000000000000000000000000000000000000000000000000",
    "0000000000000009000000000000000000000009000000010d0000000000000002000000000000000000000000000000036576610000003afff2d3e10000000000000001",
    "0000000000000009000000000000000000000009000000010e00000000000000017400000000000000000000000000000000000000000000000365766100000000000000000000000000000001",
    "0000000000000009000000000000000000000009000000010500000000000000017400000000ffffffffffffffff",
];

/// What stands behind the frames in a stream, the size of its pieces, and whether it is a bad frame.
static STREAMS: [(&str, usize, bool); 6] = [
    ("000000000000000209", 1, false),
    ("000000000000000209", 7, false),
    ("ffffffffffffffffffffffffffffffffffffffff", 1, false),
    ("0000000000000000", 1, true),
    ("0000000000000000", 50, true),
    ("0000000000000000", 5_000, true),
];

fn digit(hex: u8) -> u8 {
    match hex {
        b'0'..=b'9' => hex - b'0',
        b'a'..=b'f' => hex - b'a' + 10,
        _ => 0,
    }
}

// Writes the bytes of hexadecimal digits.
fn put_bytes(text: &str, bytes: &mut Vec<u8>) -> Result<(), AllocError> {
    for pair in text.as_bytes().chunks(2) {
        if let [high, low] = pair {
            bytes.push(digit(*high) << 4 | digit(*low))?;
        }
    }
    Ok(())
}

// The same as bytes of their own.
fn bytes_of(alloc: Global, text: &str) -> Result<Vec<u8>, AllocError> {
    let mut bytes = Vec::new(alloc);
    put_bytes(text, &mut bytes)?;
    Ok(bytes)
}

// Whether the payload of this frame spells an entry whose frame it is.
fn comes_back(alloc: Global, frame: &[u8]) -> Result<bool, AllocError> {
    if frame.len() < 8 {
        return Ok(false);
    }
    match decode(alloc, &frame[8..])? {
        Some(entry) => {
            let made = encode(alloc, &entry);
            drop(entry);
            Ok(made?.as_slice() == frame)
        }
        None => Ok(false),
    }
}

#[test]
fn frames_come_back(rt: HostRuntime) -> Result<(), Fail> {
    let alloc = rt.alloc();
    for text in FRAMES.iter() {
        let frame = bytes_of(alloc, *text)?;
        assert!(rt; comes_back(alloc, frame.as_slice())?);
    }
    Ok(())
}

// Whether bytes spell an entry.
fn is_entry(alloc: Global, payload: &[u8]) -> Result<bool, AllocError> {
    let read = decode(alloc, payload)?;
    let found = read.is_some();
    drop(read);
    Ok(found)
}

#[test]
fn other_payloads_spell_none(rt: HostRuntime) -> Result<(), Fail> {
    let alloc = rt.alloc();
    for text in BAD_PAYLOADS.iter() {
        let payload = bytes_of(alloc, *text)?;
        assert!(rt; !is_entry(alloc, payload.as_slice())?);
    }
    Ok(())
}

// How many entries come of what is fed, up to the first answer that is none or an error.
fn answered(alloc: Global, frames: &mut Frames) -> (u32, Option<FrameError>) {
    for count in 0..1_000u32 {
        match frames.next(alloc) {
            Ok(Some(entry)) => drop(entry),
            Ok(None) => return (count, None),
            Err(error) => return (count, Some(error)),
        }
    }
    (1_000, None)
}

// How many entries come of a stream in pieces of this size, and the place of its bad frame.
fn fed(
    alloc: Global,
    frames: &mut Frames,
    stream: &[u8],
    size: usize,
) -> Result<(u32, Option<FrameError>), AllocError>
    requires { 0 < size }
{
    let mut whole = 0_u32;
    for piece in stream.chunks(size) {
        frames.feed(piece)?;
        let (count, error) = answered(alloc, frames);
        whole = whole.saturating_add(count);
        if error.is_some() {
            return Ok((whole, error));
        }
    }
    Ok((whole, None))
}

// The same of a stream from its first byte.
fn told(alloc: Global, stream: &[u8], size: usize) -> Result<(u32, Option<FrameError>), AllocError>
    requires { 0 < size }
{
    let mut frames = Frames::new(alloc);
    let answer = fed(alloc, &mut frames, stream, size);
    drop(frames);
    answer
}

// The frames of the table one after another, and then these bytes.
fn stream_of(alloc: Global, behind: &str) -> Result<Vec<u8>, AllocError> {
    let mut stream = Vec::new(alloc);
    for text in FRAMES.iter() {
        put_bytes(*text, &mut stream)?;
    }
    put_bytes(behind, &mut stream)?;
    Ok(stream)
}

// Whether each frame of the table gives an entry, and the bytes behind them none: for they are no whole frame, or a bad
// one, which is told by its place.
fn gives_all(alloc: Global, behind: &str, size: usize, bad: bool) -> Result<bool, AllocError> {
    let stream = stream_of(alloc, behind)?;
    let at = stream.len().saturating_sub(behind.len() / 2) as u64;
    let answer = told(alloc, stream.as_slice(), size.max(1));
    drop(stream);
    let (count, error) = answer?;
    let wanted = if bad {
        Some(FrameError::BadFrame { at })
    } else {
        None
    };
    Ok(count == 13 && error == wanted)
}

#[test]
fn streams_are_cut_anywhere(rt: HostRuntime) -> Result<(), Fail> {
    let alloc = rt.alloc();
    for (behind, size, bad) in STREAMS.iter() {
        assert!(rt; gives_all(alloc, *behind, *size, *bad)?);
    }
    Ok(())
}
