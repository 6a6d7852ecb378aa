//! The steps of a framer, from what it keeps to what it answers.
ghost use Rattle.std.specs.Prelude.{◌≡◌, ◌≤◌, ◌<◌, ◌+◌, length, take, drop, IfOk, OnOk, OnErr, false};
ghost use Rattle.http_frame.specs.Chunks.{IsOrdered, Advances};
ghost use Rattle.http_frame.specs.inner.RequestHeads.{IsSeen};
ghost use Rattle.http_frame.specs.FramerStages.{IsSafe, Steps, request_by, pending_of};

use crate::chunks::{ChunkEnd, Chunks, Part, Taken, read_chunks};
use crate::head::{HeadFacts, Plan};
use crate::seen::{GoodHead, Seen, seen_of};
use crate::size_line::SizeSpot;
use crate::stage::{Awaited, Pending, START, Stage};
use crate::types::{FrameError, FrameStep, HttpRequest};
use crate::watch::Watch;
use bim_model::Items;
use std::alloc::AllocError;
use std::mem;

/// What a step leaves, and what it answers.
#[derive(Drop)]
pub struct Stepped {
    pub stage: Stage,
    pub at: usize,
    pub answer: Result<FrameStep, FrameError>,
}

fn tail(bytes: &[u8], at: usize) -> &[u8]
    requires { at ≤ length bytes.now }
    ensures { result.now ≡ drop at bytes.now }
{
    &bytes[at..]
}

fn request_of(facts: HeadFacts, body: Items<u8>) -> HttpRequest
    ensures { result ≡ request_by facts body }
{
    HttpRequest {
        method: facts.method,
        target: facts.target,
        minor: facts.minor,
        user: facts.user,
        close: facts.close,
        encoded: facts.encoded,
        seen: facts.seen,
        body,
    }
}

fn pending_of(good: GoodHead) -> Pending
    ensures { result ≡ pending_of good }
{
    let body = match good.plan {
        Plan::Absent => Awaited::Sized(0),
        Plan::Sized(length) => Awaited::Sized(length),
        Plan::Chunked(most) => Awaited::Chunked(Chunks {
            part: Part::Size(SizeSpot::Digits(0), 0),
            room: most,
            filled: 0,
        }),
    };
    Pending {
        facts: good.facts,
        owes: good.owes,
        body,
    }
}

// Moves the bytes after the place to the front.
fn settle(buf: &mut Vec<u8>, at: usize)
    requires { at ≤ length buf.old.items }
    ensures { buf.new.items ≡ drop at buf.old.items }
{
    let rest = buf.len() - at;
    if at > 0 {
        buf.as_mut_slice().copy_within(at.., 0);
        buf.truncate(rest);
    }
}

// Parts the bytes in front from those after a place, and keeps these: the front is not copied.
fn part(buf: &mut Vec<u8>, count: usize, at: usize) -> Result<Items<u8>, AllocError>
    requires count { count ≤ length buf.old.items }
    requires at { at ≤ length buf.old.items }
    ensures ok { IfOk result (λ front. front ≡ take count buf.old.items) }
    ensures kept { OnOk result (buf.new.items ≡ drop at buf.old.items) }
    ensures err { OnErr result (buf.new.items ≡ buf.old.items) }
{
    let alloc = *buf.allocator();
    let rest = tail(buf, at).to_vec(alloc)?;
    let mut front = mem::replace(buf, rest);
    front.truncate(count);
    Ok(Items::from_vec(front))
}

fn run(bytes: &[u8], at: usize, count: usize) -> &[u8]
    requires { at + count ≤ length bytes.now }
    ensures { result.now ≡ take count (drop at bytes.now) }
{
    &bytes[at..at + count]
}

fn copied(buf: &Vec<u8>, at: usize, count: usize) -> Result<Items<u8>, AllocError>
    requires { at + count ≤ length buf.now.items }
    ensures { IfOk result (λ body. body ≡ take count (drop at buf.now.items)) }
{
    let body = run(buf, at, count).to_vec(*buf.allocator())?;
    Ok(Items::from_vec(body))
}

// A body that stands at the front of the buffer: it is copied, and what is after it from the place on stays there.
fn step_front(buf: &mut Vec<u8>, at: usize, facts: HeadFacts, filled: usize) -> Stepped
    requires at { at ≤ length buf.old.items }
    requires filled { filled ≤ at }
    ensures safe { IsSafe result.stage buf.new.items result.at }
    ensures step { Steps (Stage.Body (record { facts = facts; owes = false; body = Awaited.Whole filled }))
        buf.old.items at result buf.new.items }
{
    match copied(buf, 0, filled) {
        Ok(body) => Stepped {
            stage: Stage::Head(START),
            at,
            answer: Ok(FrameStep::Request(request_of(facts, body))),
        },
        Err(_) => Stepped {
            stage: Stage::Body(Pending {
                facts,
                owes: false,
                body: Awaited::Whole(filled),
            }),
            at,
            answer: Err(FrameError::Memory),
        },
    }
}

// A body that stands at the front of the buffer, and what is after it from the place on: the lesser of the two is
// copied.
fn step_whole(buf: &mut Vec<u8>, at: usize, facts: HeadFacts, filled: usize) -> Stepped
    requires at { at ≤ length buf.old.items }
    requires filled { filled ≤ at }
    ensures safe { IsSafe result.stage buf.new.items result.at }
    ensures step { Steps (Stage.Body (record { facts = facts; owes = false; body = Awaited.Whole filled }))
        buf.old.items at result buf.new.items }
{
    if filled < buf.len() - at {
        return step_front(buf, at, facts, filled);
    }
    match part(buf, filled, at) {
        Ok(body) => Stepped {
            stage: Stage::Head(START),
            at: 0,
            answer: Ok(FrameStep::Request(request_of(facts, body))),
        },
        Err(_) => Stepped {
            stage: Stage::Body(Pending {
                facts,
                owes: false,
                body: Awaited::Whole(filled),
            }),
            at,
            answer: Err(FrameError::Memory),
        },
    }
}

// A body of a stated length that stands whole after other bytes, as of requests that came in one piece.
fn step_copied(buf: &mut Vec<u8>, at: usize, facts: HeadFacts, count: usize) -> Stepped
    requires { at + count ≤ length buf.old.items }
    ensures safe { IsSafe result.stage buf.new.items result.at }
    ensures step { Steps (Stage.Body (record { facts = facts; owes = false; body = Awaited.Sized count }))
        buf.old.items at result buf.new.items }
{
    match copied(buf, at, count) {
        Ok(body) => Stepped {
            stage: Stage::Head(START),
            at: at + count,
            answer: Ok(FrameStep::Request(request_of(facts, body))),
        },
        Err(_) => Stepped {
            stage: Stage::Body(Pending {
                facts,
                owes: false,
                body: Awaited::Sized(count),
            }),
            at,
            answer: Err(FrameError::Memory),
        },
    }
}

// A body of a stated length, which begins at the place.
fn step_sized(buf: &mut Vec<u8>, at: usize, facts: HeadFacts, count: usize) -> Stepped
    requires { at ≤ length buf.old.items }
    ensures safe { IsSafe result.stage buf.new.items result.at }
    ensures step { Steps (Stage.Body (record { facts = facts; owes = false; body = Awaited.Sized count }))
        buf.old.items at result buf.new.items }
{
    let rest = buf.len() - at;
    if rest < count {
        settle(buf, at);
        return Stepped {
            stage: Stage::Body(Pending {
                facts,
                owes: false,
                body: Awaited::Sized(count),
            }),
            at: 0,
            answer: Ok(FrameStep::More),
        };
    }
    if at == 0 {
        return step_whole(buf, count, facts, count);
    }
    step_copied(buf, at, facts, count)
}

fn read_in(buf: &mut Vec<u8>, start: Taken) -> Taken
    requires ordered { IsOrdered start (length buf.old.items) }
    requires end { start.end ≡ ChunkEnd.More }
    ensures len { length buf.new.items ≡ length buf.old.items }
    ensures ordered { IsOrdered result (length buf.old.items) }
    ensures all { result.end ≡ ChunkEnd.More → length buf.old.items ≤ result.at }
    ensures advances { Advances buf.old.items start buf.new.items result }
{
    read_chunks(buf.as_mut_slice(), start)
}

// A chunked body, of which the contents so far stand at the front of the buffer.
fn step_chunked(buf: &mut Vec<u8>, at: usize, facts: HeadFacts, chunks: Chunks) -> Stepped
    requires at { at ≤ length buf.old.items }
    requires filled { chunks.filled ≤ at }
    ensures safe { IsSafe result.stage buf.new.items result.at }
    ensures step { Steps (Stage.Body (record { facts = facts; owes = false; body = Awaited.Chunked chunks }))
        buf.old.items at result buf.new.items }
{
    let start = Taken {
        chunks,
        at,
        end: ChunkEnd::More,
    };
    let taken = read_in(buf, start);
    match taken.end {
        ChunkEnd::More => {
            buf.truncate(taken.chunks.filled);
            Stepped {
                stage: Stage::Body(Pending {
                    facts,
                    owes: false,
                    body: Awaited::Chunked(taken.chunks),
                }),
                at: taken.chunks.filled,
                answer: Ok(FrameStep::More),
            }
        }
        ChunkEnd::Whole => step_whole(buf, taken.at, facts, taken.chunks.filled),
        ChunkEnd::Fault(fault) => Stepped {
            stage: Stage::Failed(fault),
            at: taken.at,
            answer: Err(FrameError::Fault(fault)),
        },
    }
}

fn step_body(buf: &mut Vec<u8>, at: usize, pending: Pending) -> Stepped
    requires { IsSafe (Stage.Body pending) buf.old.items at }
    ensures safe { IsSafe result.stage buf.new.items result.at }
    ensures step { Steps (Stage.Body pending) buf.old.items at result buf.new.items }
{
    let Pending { facts, owes, body } = pending;
    if owes {
        let owes = false;
        return Stepped {
            stage: Stage::Body(Pending { facts, owes, body }),
            at,
            answer: Ok(FrameStep::Continue),
        };
    }
    match body {
        Awaited::Sized(count) => step_sized(buf, at, facts, count),
        Awaited::Chunked(chunks) => step_chunked(buf, at, facts, chunks),
        Awaited::Whole(filled) => step_whole(buf, at, facts, filled),
    }
}

fn seen_at(buf: &Vec<u8>, at: usize, watch: Watch) -> Result<Seen, AllocError>
    requires { IsSafe (Stage.Head watch) buf.now.items at }
    ensures { IfOk result (IsSeen (drop at buf.now.items)) }
{
    seen_of(*buf.allocator(), watch, tail(buf, at))
}

fn step_seen(buf: &mut Vec<u8>, at: usize, watch: Watch, seen: Seen) -> Stepped
    requires at { at ≤ length buf.old.items }
    requires seen { IsSeen (drop at buf.old.items) seen }
    ensures safe { IsSafe result.stage buf.new.items result.at }
    ensures step { Steps (Stage.Head watch) buf.old.items at result buf.new.items }
{
    match seen {
        Seen::Unfinished(next) => Stepped {
            stage: Stage::Head(next),
            at,
            answer: Ok(FrameStep::More),
        },
        Seen::Fault(fault) => Stepped {
            stage: Stage::Failed(fault),
            at,
            answer: Err(FrameError::Fault(fault)),
        },
        Seen::Good(good) => {
            let behind = at + good.len;
            step_body(buf, behind, pending_of(good))
        }
    }
}

fn step_head(buf: &mut Vec<u8>, at: usize, watch: Watch) -> Stepped
    requires { IsSafe (Stage.Head watch) buf.old.items at }
    ensures safe { IsSafe result.stage buf.new.items result.at }
    ensures step { Steps (Stage.Head watch) buf.old.items at result buf.new.items }
{
    match seen_at(buf, at, watch) {
        Ok(seen) => step_seen(buf, at, watch, seen),
        Err(_) => Stepped {
            stage: Stage::Head(watch),
            at,
            answer: Err(FrameError::Memory),
        },
    }
}

/// The next step.
pub fn step(buf: &mut Vec<u8>, at: usize, stage: Stage) -> Stepped
    requires { IsSafe stage buf.old.items at }
    ensures safe { IsSafe result.stage buf.new.items result.at }
    ensures step { Steps stage buf.old.items at result buf.new.items }
{
    match stage {
        Stage::Head(watch) => step_head(buf, at, watch),
        Stage::Body(pending) => step_body(buf, at, pending),
        Stage::Failed(fault) => Stepped {
            stage: Stage::Failed(fault),
            at,
            answer: Err(FrameError::Fault(fault)),
        },
    }
}
