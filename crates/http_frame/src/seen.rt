//! The bytes of a request up to the end of its head.
ghost use Rattle.std.specs.Prelude.{◌≡◌, ◌≤◌, length, take, drop, IfOk, if◌then◌else◌};
ghost use Rattle.httparse.specs.Grammar.{HasNoRequest};
ghost use Rattle.httparse.specs.Spans.{IsRequestOf, IsRequestWithin};
ghost use Rattle.http_frame.specs.Heads.{front, first_line, has_other_version, IsHopeless};
ghost use Rattle.http_frame.specs.Told.{facts_at, asks_at};
ghost use Rattle.http_frame.specs.Watched.{IsWatch};
ghost use Rattle.http_frame.specs.inner.RequestHeads.{IsPlaced, IsHeadAt, IsSeen, IsSeenWith};

use crate::head::{HeadFacts, Plan, asks, checked, facts_of};
use crate::http_version::has_other_version;
use crate::limits::{MOST_FIELDS, MOST_HEAD};
use crate::types::FrameFault;
use crate::watch::{Look, Watch};
use httparse::spans::{EMPTY_HEADER_SPAN, HeaderSpan, RequestSpans};
use std::alloc::{AllocError, Global};

/// A head without a fault.
#[derive(Drop)]
pub struct GoodHead {
    pub facts: HeadFacts,
    pub plan: Plan,
    /// It asks for `100 Continue`.
    pub owes: bool,
    /// How many bytes it has.
    pub len: usize,
}

/// What the bytes tell of a head.
#[derive(Drop)]
pub enum Seen {
    Unfinished(Watch),
    Fault(FrameFault),
    Good(GoodHead),
}

fn front_of(bytes: &[u8]) -> &[u8]
    ensures { result.now ≡ front bytes.now }
{
    if bytes.len() <= MOST_HEAD {
        return bytes;
    }
    &bytes[..MOST_HEAD]
}

fn first(headers: &[HeaderSpan], count: usize) -> &[HeaderSpan]
    requires { count ≤ length headers.now }
    ensures { result.now ≡ take count headers.now }
{
    &headers[..count]
}

fn unfinished(bytes: &[u8], next: Watch) -> Seen
    requires none { HasNoRequest (front bytes.now) × ¬ (IsHopeless bytes.now) }
    requires watch { (next.seen ≡ length (front bytes.now)) × IsWatch next (front bytes.now) }
    ensures { IsSeen bytes.now result }
{
    if bytes.len() < MOST_HEAD {
        Seen::Unfinished(next)
    } else {
        Seen::Fault(FrameFault::HeadTooLong)
    }
}

fn hopeless(bytes: &[u8], block: &[u8]) -> Seen
    requires block { block.now ≡ front bytes.now }
    requires hopeless { IsHopeless bytes.now }
    ensures { IsSeen bytes.now result }
{
    if has_other_version(block) {
        Seen::Fault(FrameFault::Version)
    } else {
        Seen::Fault(FrameFault::BadHead)
    }
}

fn good_head(
    alloc: Global,
    block: &[u8],
    spans: &RequestSpans,
    headers: &[HeaderSpan],
    plan: Plan,
) -> Result<GoodHead, AllocError>
    requires { IsPlaced block.now spans.now headers.now }
    ensures { IfOk result (λ good. good ≡ record {
      facts = facts_at block.now spans.now headers.now;
      plan = plan;
      owes = asks_at spans.now.version block.now headers.now plan;
      len = spans.now.len;
    }) }
{
    Ok(GoodHead {
        facts: facts_of(alloc, block, spans, headers)?,
        plan,
        owes: asks(spans.version, block, headers, plan),
        len: spans.len,
    })
}

fn head_at(
    alloc: Global,
    block: &[u8],
    spans: &RequestSpans,
    headers: &[HeaderSpan],
) -> Result<Seen, AllocError>
    requires { IsPlaced block.now spans.now headers.now }
    ensures { IfOk result (IsHeadAt block.now spans.now headers.now) }
{
    match checked(block, spans, headers) {
        Ok(plan) => Ok(Seen::Good(good_head(alloc, block, spans, headers, plan)?)),
        Err(fault) => Ok(Seen::Fault(fault)),
    }
}

fn whole(
    alloc: Global,
    bytes: &[u8],
    block: &[u8],
    spans: &RequestSpans,
    headers: &[HeaderSpan],
) -> Result<Seen, AllocError>
    requires block { block.now ≡ front bytes.now }
    requires head { IsRequestOf block.now headers.now spans.now }
    requires within { IsRequestWithin block.now headers.now spans.now }
    ensures { IfOk result (IsSeen bytes.now) }
{
    head_at(alloc, block, spans, first(headers, spans.headers))
}

// What the bytes tell, with the room for fields that is given; None where they have more.
fn seen_with(
    alloc: Global,
    watch: Watch,
    bytes: &[u8],
    headers: &mut [HeaderSpan],
) -> Result<Option<Seen>, AllocError>
    requires within { watch.seen ≤ length (front bytes.now) }
    requires watch { IsWatch watch (take watch.seen (front bytes.now)) }
    ensures { IfOk result (IsSeenWith bytes.now (length headers.old)) }
{
    let block = front_of(bytes);
    let (next, look) = watch.look(block, headers);
    match look {
        Look::Unfinished => Ok(Some(unfinished(bytes, next))),
        Look::Hopeless => Ok(Some(hopeless(bytes, block))),
        Look::Whole(spans) => Ok(Some(whole(alloc, bytes, block, &spans, headers)?)),
        Look::Crowded => Ok(None),
    }
}

// The same with room for all fields that so many bytes can hold.
fn seen_in_room(alloc: Global, watch: Watch, bytes: &[u8]) -> Result<Seen, AllocError>
    requires within { watch.seen ≤ length (front bytes.now) }
    requires watch { IsWatch watch (take watch.seen (front bytes.now)) }
    ensures { IfOk result (IsSeen bytes.now) }
{
    let mut headers = vec![in alloc; EMPTY_HEADER_SPAN; 6_000]?;
    match seen_with(alloc, watch, bytes, headers.as_mut_slice())? {
        Some(seen) => Ok(seen),
        None => unreachable!(),
    }
}

/// What the bytes of a request tell up to the end of its head. Those that the watch has seen are not walked
/// over again.
pub fn seen_of(alloc: Global, watch: Watch, bytes: &[u8]) -> Result<Seen, AllocError>
    requires within { watch.seen ≤ length (front bytes.now) }
    requires watch { IsWatch watch (take watch.seen (front bytes.now)) }
    ensures { IfOk result (IsSeen bytes.now) }
{
    let mut headers = [EMPTY_HEADER_SPAN; MOST_FIELDS];
    match seen_with(alloc, watch, bytes, &mut headers)? {
        Some(seen) => Ok(seen),
        None => seen_in_room(alloc, watch, bytes),
    }
}
