//! The turns that heads give.
ghost use Rattle.std.specs.Prelude.{◌<◌};

use http_frame::{FrameError, FrameStep, Framer, TurnField};
use std::alloc::{AllocError, Global};
use std::process::Abort;
use std::test::Fail;

// What stands behind the first line and `Host`, and the turn that it gives.
static LINES: [(&str, &str); 73] = [
    ("", "absent;"),
    ("X-Book-Turn:0\r\n", "0;"),
    ("X-Book-Turn: 0\r\n", "0;"),
    ("X-Book-Turn:1\r\n", "1;"),
    ("X-Book-Turn: 1\r\n", "1;"),
    ("X-Book-Turn:7\r\n", "7;"),
    ("X-Book-Turn: 7\r\n", "7;"),
    ("X-Book-Turn:00007\r\n", "7;"),
    ("X-Book-Turn: 00007\r\n", "7;"),
    ("X-Book-Turn:000000000000000\r\n", "0;"),
    ("X-Book-Turn: 000000000000000\r\n", "0;"),
    ("X-Book-Turn:999999999999999\r\n", "999999999999999;"),
    ("X-Book-Turn: 999999999999999\r\n", "999999999999999;"),
    ("X-Book-Turn:0000000000000000\r\n", "bad;"),
    ("X-Book-Turn: 0000000000000000\r\n", "bad;"),
    ("X-Book-Turn:1000000000000000\r\n", "bad;"),
    ("X-Book-Turn: 1000000000000000\r\n", "bad;"),
    ("X-Book-Turn:\r\n", "bad;"),
    ("X-Book-Turn: \r\n", "bad;"),
    ("X-Book-Turn:  \r\n", "bad;"),
    ("X-Book-Turn:\t\r\n", "bad;"),
    ("X-Book-Turn: \t\r\n", "bad;"),
    ("X-Book-Turn:x\r\n", "bad;"),
    ("X-Book-Turn: x\r\n", "bad;"),
    ("X-Book-Turn:7x\r\n", "bad;"),
    ("X-Book-Turn: 7x\r\n", "bad;"),
    ("X-Book-Turn:x7\r\n", "bad;"),
    ("X-Book-Turn: x7\r\n", "bad;"),
    ("X-Book-Turn:-7\r\n", "bad;"),
    ("X-Book-Turn: -7\r\n", "bad;"),
    ("X-Book-Turn:+7\r\n", "bad;"),
    ("X-Book-Turn: +7\r\n", "bad;"),
    ("X-Book-Turn:7 \r\n", "7;"),
    ("X-Book-Turn: 7 \r\n", "7;"),
    ("X-Book-Turn:  7\r\n", "7;"),
    ("X-Book-Turn:\t7\t\r\n", "7;"),
    ("X-Book-Turn: \t7\t\r\n", "7;"),
    ("X-Book-Turn:7 7\r\n", "bad;"),
    ("X-Book-Turn: 7 7\r\n", "bad;"),
    ("X-Book-Turn:7,7\r\n", "bad;"),
    ("X-Book-Turn: 7,7\r\n", "bad;"),
    ("X-Book-Turn:7;q=1\r\n", "bad;"),
    ("X-Book-Turn: 7;q=1\r\n", "bad;"),
    ("X-Book-Turn:7.0\r\n", "bad;"),
    ("X-Book-Turn: 7.0\r\n", "bad;"),
    ("X-Book-Turn:7e0\r\n", "bad;"),
    ("X-Book-Turn: 7e0\r\n", "bad;"),
    ("X-Book-Turn:0x7\r\n", "bad;"),
    ("X-Book-Turn: 0x7\r\n", "bad;"),
    ("X-Book-Turn:'7'\r\n", "bad;"),
    ("X-Book-Turn: '7'\r\n", "bad;"),
    ("X-Book-Turn:\u{667}\r\n", "bad;"),
    ("X-Book-Turn: \u{667}\r\n", "bad;"),
    ("X-Book-Turn:\u{b7}\r\n", "bad;"),
    ("X-Book-Turn: \u{b7}\r\n", "bad;"),
    ("X-Book-Turn: 5\r\nX-Book-Turn: 7\r\n", "bad;"),
    ("x-book-turn: 7\r\n", "7;"),
    ("X-Book-Turn: 5\r\nx-book-turn: 7\r\n", "bad;"),
    ("X-BOOK-TURN: 7\r\n", "7;"),
    ("X-Book-Turn: 5\r\nX-BOOK-TURN: 7\r\n", "bad;"),
    ("X-Book-Turns: 7\r\n", "absent;"),
    ("X-Book-Turn: 5\r\nX-Book-Turns: 7\r\n", "5;"),
    ("X-Book: 7\r\n", "absent;"),
    ("X-Book-Turn: 5\r\nX-Book: 7\r\n", "5;"),
    ("X_Book_Turn: 7\r\n", "absent;"),
    ("X-Book-Turn: 5\r\nX_Book_Turn: 7\r\n", "5;"),
    ("Book-Turn: 7\r\n", "absent;"),
    ("X-Book-Turn: 5\r\nBook-Turn: 7\r\n", "5;"),
    ("X-Book-Turn: 7\r\nX-Book-Turn: 7\r\n", "bad;"),
    ("X-Book-Turn: 7\r\nX-Book-Turn: \r\n", "bad;"),
    ("X-Book-Turn: \r\nX-Book-Turn: \r\n", "bad;"),
    ("X-Book-Turn: x\r\nX-Book-Turn: 7\r\n", "bad;"),
    (
        "X-Book-Turn: 7\r\nX-Book-Turn: 8\r\nX-Book-Turn: 9\r\n",
        "bad;",
    ),
];

// Whole streams, and the turns that their requests give.
static STREAMS: [(&str, &str); 6] = [
    ("GET /a HTTP/1.0\r\nX-Book-Turn: 7\r\n\r\n", "7;"),
    (
        "POST /a HTTP/1.1\r\nHost: h\r\nX-Book-Turn: 7\r\nContent-Length: 2\r\n\r\n{}",
        "7;",
    ),
    (
        "POST /a HTTP/1.1\r\nHost: h\r\nTransfer-Encoding: chunked\r\n\r\n0\r\nX-Book-Turn: 7\r\n\r\n",
        "absent;",
    ),
    (
        "POST /a HTTP/1.1\r\nHost: h\r\nX-Book-Turn: 5\r\nTransfer-Encoding: chunked\r\n\r\n0\r\nX-Book-Turn: 7\r\n\r\n",
        "5;",
    ),
    ("GET /a HTTP/1.1\nHost: h\nX-Book-Turn: 7\n\n", "7;"),
    (
        "GET /a HTTP/1.1\r\nHost: h\r\nX-Book-Turn: 7\r\n\r\nGET /a HTTP/1.1\r\nHost: h\r\n\r\nGET /a HTTP/1.1\r\nHost: h\r\nX-Book-Turn: x\r\n\r\n",
        "7;absent;bad;",
    ),
];

// The turn of a request.
fn shown(alloc: Global, seen: TurnField) -> Result<String, AllocError> {
    match seen {
        TurnField::Absent => format!(in alloc; "absent;"),
        TurnField::Given(turn) => format!(in alloc; "{turn};"),
        TurnField::Bad => format!(in alloc; "bad;"),
    }
}

// Adds the turns of what is answered to the text, up to `More`; false after an error.
fn drain(alloc: Global, framer: &mut Framer, text: &mut String) -> Result<bool, AllocError> {
    for _ in 0..1_000u32 {
        match framer.next() {
            Ok(FrameStep::More) => return Ok(true),
            Ok(FrameStep::Continue) => text.push_str("continue;")?,
            Ok(FrameStep::Request(request)) => {
                let seen = request.seen;
                drop(request);
                text.push_str(shown(alloc, seen)?.as_str())?;
            }
            Err(FrameError::Fault(fault)) => {
                text.push_str(format!(in alloc; "{fault:?}")?.as_str())?;
                return Ok(false);
            }
            Err(FrameError::Memory) => return Ok(false),
        }
    }
    Ok(false)
}

// The turns of the requests in the bytes, fed in pieces of this size.
fn turns(alloc: Global, bytes: &[u8], size: usize) -> Result<String, AllocError>
    requires { 0 < size }
{
    let mut framer = Framer::new(alloc)?;
    let mut text = String::new(alloc);
    for piece in bytes.chunks(size) {
        framer.feed(piece)?;
        if !drain(alloc, &mut framer, &mut text)? {
            return Ok(text);
        }
    }
    Ok(text)
}

// The requests of the bytes give these turns, fed in pieces of 1, 7 and 1,000 bytes.
fn gives(rt: &impl Abort, alloc: Global, text: &str, wanted: &str) -> Result<(), AllocError> {
    assert_eq!(rt; turns(alloc, text.as_bytes(), 1)?.as_str(), wanted);
    assert_eq!(rt; turns(alloc, text.as_bytes(), 7)?.as_str(), wanted);
    assert_eq!(rt; turns(alloc, text.as_bytes(), 1_000)?.as_str(), wanted);
    Ok(())
}

// The same of a head with these lines behind `Host`.
fn head_gives(rt: &impl Abort, alloc: Global, lines: &str, wanted: &str) -> Result<(), AllocError> {
    let text = format!(in alloc; "GET /a HTTP/1.1\r\nHost: h\r\n{lines}\r\n")?;
    gives(rt, alloc, text.as_str(), wanted)
}

#[test]
fn a_turn_is_one_field_of_1_to_15_digits(rt: HostRuntime) -> Result<(), Fail> {
    let alloc = rt.alloc();
    for (lines, wanted) in LINES.iter() {
        head_gives(&rt, alloc, lines, wanted)?;
    }
    Ok(())
}

#[test]
fn a_turn_of_400_digits_is_bad(rt: HostRuntime) -> Result<(), Fail> {
    let alloc = rt.alloc();
    let nines = "9".repeat(alloc, 400)?;
    let tight = format!(in alloc; "X-Book-Turn:{nines}\r\n")?;
    head_gives(&rt, alloc, tight.as_str(), "bad;")?;
    let spaced = format!(in alloc; "X-Book-Turn: {nines}\r\n")?;
    head_gives(&rt, alloc, spaced.as_str(), "bad;")?;
    Ok(())
}

#[test]
fn each_request_of_a_stream_gives_its_own_turn(rt: HostRuntime) -> Result<(), Fail> {
    let alloc = rt.alloc();
    for (stream, wanted) in STREAMS.iter() {
        gives(&rt, alloc, stream, wanted)?;
    }
    Ok(())
}
