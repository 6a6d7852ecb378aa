//! Telling streams, in pieces of several sizes.
ghost use Rattle.std.specs.Prelude.{◌<◌};

use http_frame::{FrameError, FrameStep, Framer, HttpRequest};
use std::alloc::{AllocError, Global};
use std::process::Abort;
use std::test::Fail;

// Method, target, version, user, whether it closes, whether the body is encoded, and the body.
fn shown(alloc: Global, request: &HttpRequest) -> Result<String, AllocError> {
    let method = str::from_utf8(request.method.as_slice()).unwrap_or("?");
    let target = str::from_utf8(request.target.as_slice()).unwrap_or("?");
    let body = str::from_utf8(request.body.as_slice()).unwrap_or("?");
    let user = request.user.as_str();
    let (minor, close, encoded) = (request.minor, request.close, request.encoded);
    format!(in alloc; "{method} {target} 1.{minor} {user} {close} {encoded} {body};")
}

// Adds what is answered to the text, up to `More`; false after an error.
fn drain(alloc: Global, framer: &mut Framer, text: &mut String) -> Result<bool, AllocError> {
    for _ in 0..1_000u32 {
        match framer.next() {
            Ok(FrameStep::More) => return Ok(true),
            Ok(FrameStep::Continue) => text.push_str("continue;")?,
            Ok(FrameStep::Request(request)) => text.push_str(shown(alloc, &request)?.as_str())?,
            Err(FrameError::Fault(fault)) => {
                text.push_str(format!(in alloc; "{fault:?}")?.as_str())?;
                return Ok(false);
            }
            Err(FrameError::Memory) => return Ok(false),
        }
    }
    Ok(false)
}

// The events of the bytes fed in pieces of this size, and how they end.
fn events(alloc: Global, bytes: &[u8], size: usize) -> Result<String, AllocError>
    requires { 0 < size }
{
    let mut framer = Framer::new(alloc)?;
    let mut text = String::new(alloc);
    for piece in bytes.chunks(size) {
        framer.feed(piece)?;
        if !drain(alloc, &mut framer, &mut text)? {
            return Ok(text);
        }
    }
    text.push_str(if framer.is_between() {
        "between"
    } else {
        "within"
    })?;
    Ok(text)
}

// The bytes tell these events, fed in pieces of 1, 7 and 1,000 bytes.
fn tells(rt: &impl Abort, alloc: Global, text: &str, wanted: &str) -> Result<(), AllocError> {
    assert_eq!(rt; events(alloc, text.as_bytes(), 1)?.as_str(), wanted);
    assert_eq!(rt; events(alloc, text.as_bytes(), 7)?.as_str(), wanted);
    assert_eq!(rt; events(alloc, text.as_bytes(), 1_000)?.as_str(), wanted);
    Ok(())
}

#[test]
fn heads_without_a_body_are_read(rt: HostRuntime) -> Result<(), Fail> {
    let alloc = rt.alloc();
    tells(
        &rt,
        alloc,
        "\r\n\nGET /a HTTP/1.1\r\nHost: h\r\n\r\n\n",
        "GET /a 1.1 anonymous false false ;between",
    )?;
    tells(
        &rt,
        alloc,
        "GET /a HTTP/1.1\nhost:\n\n\r",
        "GET /a 1.1 anonymous false false ;within",
    )?;
    tells(
        &rt,
        alloc,
        "GET /a HTTP/1.0\r\n\r\n",
        "GET /a 1.0 anonymous true false ;between",
    )?;
    tells(
        &rt,
        alloc,
        "GET /a HTTP/1.1\r\nHost: h\r\nExpect: 100-continue\r\nConnection: x, Close\r\n\r\n",
        "GET /a 1.1 anonymous true false ;between",
    )?;
    tells(
        &rt,
        alloc,
        "GET /a HTTP/1.1\r\nHost: h\r\nX-User: \u{e9}\r\nContent-Encoding: gzip\r\n\r\n",
        "GET /a 1.1 \u{e9} false true ;between",
    )?;
    Ok(())
}

#[test]
fn heads_are_refused(rt: HostRuntime) -> Result<(), Fail> {
    let alloc = rt.alloc();
    tells(
        &rt,
        alloc,
        "GET /a HTTP/1.1\r\nHost: h\r\nhost: h\r\n\r\n",
        "BadHead",
    )?;
    tells(&rt, alloc, "GET /a b HTTP/1.1\r\n", "BadHead")?;
    tells(&rt, alloc, "GET /a HTTP/2.0\r\n", "Version")?;
    tells(
        &rt,
        alloc,
        "POST /a HTTP/1.1\r\nHost: h\r\nContent-Length: +1\r\n\r\na",
        "BadLength",
    )?;
    tells(
        &rt,
        alloc,
        "POST /a HTTP/1.1\r\nHost: h\r\nTransfer-Encoding: gzip\r\n\r\n",
        "BadLength",
    )?;
    tells(
        &rt,
        alloc,
        "POST /coord/1/a HTTP/1.1\r\nHost: h\r\nContent-Length: 4194305\r\n\r\n",
        "BodyTooLong",
    )?;
    tells(
        &rt,
        alloc,
        "PUT /coord/1/a HTTP/1.1\r\nHost: h\r\nContent-Length: 4194305\r\n\r\n",
        "within",
    )?;
    Ok(())
}

#[test]
fn bodies_of_a_stated_length_are_read(rt: HostRuntime) -> Result<(), Fail> {
    let alloc = rt.alloc();
    tells(
        &rt,
        alloc,
        "POST /a HTTP/1.1\r\nHost: h\r\nContent-Length: 10\r\n\r\n0123456789abcdef",
        "POST /a 1.1 anonymous false false 0123456789;within",
    )?;
    tells(
        &rt,
        alloc,
        "POST /a HTTP/1.1\r\nHost: h\r\nContent-Length: 3\r\n\r\nok",
        "within",
    )?;
    tells(
        &rt,
        alloc,
        "POST /a HTTP/1.1\r\nHost: h\r\nExpect: 100-Continue\r\nContent-Length: 2\r\n\r\nok",
        "continue;POST /a 1.1 anonymous false false ok;between",
    )?;
    Ok(())
}

#[test]
fn bodies_in_chunks_are_read(rt: HostRuntime) -> Result<(), Fail> {
    let alloc = rt.alloc();
    chunks_tell(
        &rt,
        alloc,
        "4;x=y\r\nwiki\r\n05\r\npedia\r\n0\r\nT: v\r\n\r\n",
        "POST /a 1.1 anonymous false false wikipedia;between",
    )?;
    chunks_tell(
        &rt,
        alloc,
        "2c\r\n0123456789abcdefghijklmnopqrstuvwxyzABCDEFGH\r\n1\r\n!\r\n0\r\n\r\nGET /a-target-longer-than-that-body HTTP/1.1\r\nHost: h\r\n\r\n",
        "POST /a 1.1 anonymous false false 0123456789abcdefghijklmnopqrstuvwxyzABCDEFGH!;GET /a-target-longer-than-that-body 1.1 anonymous false false ;between",
    )?;
    chunks_tell(&rt, alloc, "1\r\naX", "BadChunk")?;
    chunks_tell(&rt, alloc, "400001\r\n", "BodyTooLong")?;
    chunks_tell(&rt, alloc, "000000001", "BadChunk")?;
    chunks_tell(&rt, alloc, "0\r\nbad\r\n", "BadChunk")?;
    chunks_tell(&rt, alloc, "0\r\nbad", "within")?;
    Ok(())
}

// The same of this text after a head that announces chunks.
fn chunks_tell(
    rt: &impl Abort,
    alloc: Global,
    chunks: &str,
    wanted: &str,
) -> Result<(), AllocError> {
    let text = format!(in alloc;
        "POST /a HTTP/1.1\r\nHost: h\r\nTransfer-Encoding: Chunked\r\n\r\n{chunks}"
    )?;
    tells(rt, alloc, text.as_str(), wanted)
}

// What is told of the bytes, without the word for how they end.
fn told(alloc: Global, bytes: &[u8]) -> Result<String, AllocError> {
    let mut framer = Framer::new(alloc)?;
    let mut text = String::new(alloc);
    framer.feed(bytes)?;
    drain(alloc, &mut framer, &mut text)?;
    Ok(text)
}

/// Cut at each of its bytes, a stream is answered the first events of the whole.
#[test]
fn what_a_prefix_is_answered_stays(rt: HostRuntime) -> Result<(), Fail> {
    let alloc = rt.alloc();
    let bytes =
        b"\r\nGET /a HTTP/1.1\r\nHost: h\r\n\r\nPOST /b HTTP/1.1\r\nHost: h\r\nExpect: 100-continue\r\nTransfer-Encoding: chunked\r\n\r\n2\r\nok\r\n0\r\n\r\nGET /c HTTP/2.0\r\nHost: h\r\n\r\n";
    let whole = told(alloc, bytes)?;
    let wanted =
        "GET /a 1.1 anonymous false false ;continue;POST /b 1.1 anonymous false false ok;Version";
    assert_eq!(rt; whole.as_str(), wanted);
    for end in 0..bytes.len() {
        let front = told(alloc, &bytes[..end])?;
        assert!(rt; wanted.starts_with(front.as_str()));
    }
    Ok(())
}

// A head of so many bytes, with so many fields beside the first.
fn long_head(alloc: Global, length: usize, fields: usize) -> Result<Vec<u8>, AllocError> {
    let mut bytes = format!(in alloc; "GET /a HTTP/1.1\r\nHost: h\r\n")?.into_bytes();
    for _ in 0..fields {
        bytes.extend_from_slice(b"a:\n")?;
    }
    bytes.extend_from_slice(b"b:")?;
    bytes.resize(length.saturating_sub(2), b'a')?;
    bytes.extend_from_slice(b"\n\n")?;
    Ok(bytes)
}

#[test]
fn heads_have_16384_bytes_and_64_fields_at_most(rt: HostRuntime) -> Result<(), Fail> {
    let alloc = rt.alloc();
    let request = "GET /a 1.1 anonymous false false ;between";
    let longest = long_head(alloc, 16_384, 0)?;
    assert_eq!(rt; events(alloc, &longest, 4_096)?.as_str(), request);
    let longer = long_head(alloc, 16_385, 0)?;
    assert_eq!(rt; events(alloc, &longer, 4_096)?.as_str(), "HeadTooLong");
    let most = long_head(alloc, 1_000, 62)?;
    assert_eq!(rt; events(alloc, &most, 4_096)?.as_str(), request);
    let more = long_head(alloc, 1_000, 63)?;
    assert_eq!(rt; events(alloc, &more, 4_096)?.as_str(), "HeadTooLong");
    Ok(())
}
