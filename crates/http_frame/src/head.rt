//! What a whole head says.
ghost use Rattle.std.specs.Prelude.{◌≡◌, ◌≤◌, ◌==◌, ◌&&◌, ◌||◌, ℕ, IfOk, length, map, take, All, codes, bytes_eq, if◌then◌else◌};
ghost use Rattle.bim_model.specs.declared.limits.TheConstants.{MOST_UPLOAD};
ghost use Rattle.std.specs.List.{list_any};
ghost use Rattle.std.specs.Str.Parse.{digits_value};
ghost use Rattle.httparse.specs.Spans.{IsHeaderWithin, IsWithin, header_bytes, span_bytes};
ghost use Rattle.http1.specs.Text.{eq_ignore_case};
ghost use Rattle.http1.specs.Fields.{elements_named, has_option};
ghost use Rattle.http_frame.specs.Heads.{starts_with, are_digits, sized, chunked, badly, framing_by};
ghost use Rattle.http_frame.specs.inner.Facts.{has_value, has_other_value, values_at};
ghost use Rattle.http_frame.specs.Told.{most_by, plan_of, lacks_host, checked_by, facts_at, asks_at, has_body};

use crate::digit_runs::{are_digits, number_up_to};
use crate::facts::{
    Only, any_other_value, any_value, count_named, lists_close, only_named, user_of,
};
use crate::limits::{MOST_BODY, MOST_FIELDS};
use crate::turn_field::turn_of;
use crate::types::{FrameFault, TurnField};
use bim_model::{Bytes, MOST_UPLOAD, Text};
use httparse::spans::{HeaderSpan, RequestSpans};
use std::alloc::{AllocError, Global};

/// What is kept of a head while its body comes.
#[derive(Drop)]
pub struct HeadFacts {
    pub method: Bytes,
    pub target: Bytes,
    pub minor: u8,
    pub user: Text,
    pub close: bool,
    pub encoded: bool,
    pub seen: TurnField,
}

/// How the body comes.
#[derive(Clone, Copy, Debug, PartialEq, Eq)]
pub enum Plan {
    Absent,
    /// So many bytes.
    Sized(usize),
    /// Chunks of so many bytes together, at most.
    Chunked(usize),
}

fn is_same(bytes: &[u8], wanted: &[u8]) -> bool
    ensures { result ≡ bytes_eq bytes.now wanted.now }
{
    bytes == wanted
}

fn starts_with(text: &[u8], bytes: &[u8]) -> bool
    ensures { result ≡ starts_with text.now bytes.now }
{
    bytes.starts_with(text)
}

fn most_body(method: &[u8], target: &[u8]) -> usize
    ensures most { result ≡ most_by method.now target.now }
    ensures small { result ≤ MOST_UPLOAD }
{
    if is_same(method, b"PUT") && starts_with(b"/coord/1/", target) {
        MOST_UPLOAD
    } else {
        MOST_BODY
    }
}

// From the lone value of Content-Length.
fn sized_plan(text: &[u8], most: usize) -> Result<Plan, FrameFault>
    requires { most ≤ MOST_UPLOAD }
    ensures { result ≡ plan_of most
        (if are_digits text.now then sized (digits_value 10 text.now) else badly) }
{
    if text.is_empty() {
        return Err(FrameFault::BadLength);
    }
    if !are_digits(text) {
        return Err(FrameFault::BadLength);
    }
    match number_up_to(text, most) {
        Some(length) => Ok(Plan::Sized(length)),
        None => Err(FrameFault::BodyTooLong),
    }
}

#[tactic(auto, unfolding(http1::specs::Text::eq_ignore_case))]
fn is_chunked(text: &[u8], minor: u8) -> bool
    ensures { result ≡ (eq_ignore_case text.now (codes "chunked") && minor == 1) }
{
    text.eq_ignore_ascii_case(b"chunked") && minor == 1
}

// From the lone value of Transfer-Encoding.
fn chunked_plan(text: &[u8], minor: u8, most: usize) -> Result<Plan, FrameFault>
    ensures { result ≡ plan_of most
        (if eq_ignore_case text.now (codes "chunked") && minor == 1 then chunked else badly) }
{
    if is_chunked(text, minor) {
        Ok(Plan::Chunked(most))
    } else {
        Err(FrameFault::BadLength)
    }
}

fn plan_of(block: &[u8], headers: &[HeaderSpan], minor: u8, most: usize) -> Result<Plan, FrameFault>
    requires headers { All (IsHeaderWithin (length block.now)) headers.now }
    requires most { most ≤ MOST_UPLOAD }
    ensures { result ≡ plan_of most (framing_by (values_at (codes "content-length") block.now headers.now)
        (values_at (codes "transfer-encoding") block.now headers.now) minor) }
{
    let lengths = only_named(b"content-length", block, headers);
    let codings = only_named(b"transfer-encoding", block, headers);
    match lengths {
        Only::Absent => match codings {
            Only::Absent => Ok(Plan::Absent),
            Only::Once(coding) => chunked_plan(coding.of(block), minor, most),
            Only::Repeated => Err(FrameFault::BadLength),
        },
        Only::Once(length) => match codings {
            Only::Absent => sized_plan(length.of(block), most),
            Only::Once(_) => Err(FrameFault::BadLength),
            Only::Repeated => Err(FrameFault::BadLength),
        },
        Only::Repeated => Err(FrameFault::BadLength),
    }
}

fn lacks_host(minor: u8, block: &[u8], headers: &[HeaderSpan]) -> bool
    requires { All (IsHeaderWithin (length block.now)) headers.now }
    ensures { result ≡ lacks_host minor (values_at (codes "host") block.now headers.now) }
{
    minor == 1 && count_named(b"host", block, headers) != 1
}

/// How the body comes after a whole head, or the head's first fault.
#[tactic(auto, unfolding(crate::specs::Told::checked_by))]
pub fn checked(
    block: &[u8],
    spans: &RequestSpans,
    headers: &[HeaderSpan],
) -> Result<Plan, FrameFault>
    requires method { IsWithin (length block.now) spans.now.method }
    requires target { IsWithin (length block.now) spans.now.path }
    requires headers { All (IsHeaderWithin (length block.now)) headers.now }
    ensures { result ≡ checked_by (span_bytes block.now spans.now.method)
        (span_bytes block.now spans.now.path) spans.now.version (length headers.now)
        (map (header_bytes block.now) headers.now) }
{
    if lacks_host(spans.version, block, headers) {
        return Err(FrameFault::BadHead);
    }
    if headers.len() > MOST_FIELDS {
        return Err(FrameFault::HeadTooLong);
    }
    let most = most_body(spans.method.of(block), spans.path.of(block));
    plan_of(block, headers, spans.version, most)
}

/// What is kept of a whole head.
#[tactic(auto, unfolding(crate::specs::Told::facts_at))]
pub fn facts_of(
    alloc: Global,
    block: &[u8],
    spans: &RequestSpans,
    headers: &[HeaderSpan],
) -> Result<HeadFacts, AllocError>
    requires method { IsWithin (length block.now) spans.now.method }
    requires target { IsWithin (length block.now) spans.now.path }
    requires headers { All (IsHeaderWithin (length block.now)) headers.now }
    ensures { IfOk result (λ facts. facts ≡ facts_at block.now spans.now headers.now) }
{
    Ok(HeadFacts {
        method: Bytes::of(alloc, spans.method.of(block))?,
        target: Bytes::of(alloc, spans.path.of(block))?,
        minor: spans.version,
        user: user_of(alloc, block, headers)?,
        close: closes(spans.version, block, headers),
        encoded: any_other_value(b"content-encoding", b"identity", block, headers),
        seen: turn_of(block, headers),
    })
}

fn closes(minor: u8, block: &[u8], headers: &[HeaderSpan]) -> bool
    requires { All (IsHeaderWithin (length block.now)) headers.now }
    ensures { result ≡ (minor == 0 || has_option (codes "close")
        (elements_named (codes "connection") (map (header_bytes block.now) headers.now))) }
{
    minor == 0 || lists_close(block, headers)
}

fn has_body(plan: Plan) -> bool
    ensures { result ≡ has_body plan }
{
    match plan {
        Plan::Absent => false,
        Plan::Sized(_) => true,
        Plan::Chunked(_) => true,
    }
}

/// Whether a whole head asks for `100 Continue`, and has a body.
pub fn asks(minor: u8, block: &[u8], headers: &[HeaderSpan], plan: Plan) -> bool
    requires { All (IsHeaderWithin (length block.now)) headers.now }
    ensures { result ≡ asks_at minor block.now headers.now plan }
{
    minor == 1 && any_value(b"expect", b"100-continue", block, headers) && has_body(plan)
}
