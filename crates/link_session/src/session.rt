//! One session over a source and a sink.
ghost use Rattle.std.specs.Prelude.{◌≡◌, [], false, None, IsSome};
ghost use Rattle.bim_io.specs.StreamViews.{outside};
ghost use Rattle.bcf_http.specs.Asked.{BringsNone};
ghost use Rattle.link_session.specs.Callers.{CallerLaws};
ghost use Rattle.link_session.specs.CallerSessions.{Serves};
ghost use Rattle.link_session.specs.inner.Loop.{Reading, Writing, Called, StepsOn, WorksOn, StepsAndWorks};

use crate::caller::Caller;
use bim_io::{Clock, Sink, Source, write_whole};
use bim_session::{MOST_READ, SessionEnd, Talk, Want};
use book_history::BookCall;
use std::alloc::Global;

/// Whether a session goes on after a step.
#[derive(Clone, Copy, Debug, PartialEq, Eq)]
pub enum AfterStep {
    Again,
    End(SessionEnd),
}

fn read_more<S: Source>(talk: &mut Talk, source: &mut S) -> AfterStep
    requires { talk.old.ended ≡ false }
    ensures { Reading (S.seen source.old) (S.seen source.new) talk.old result talk.new }
{
    let mut room = [0u8; MOST_READ];
    match source.read(&mut room) {
        Ok(count) => match talk.feed(&room[..count]) {
            Ok(()) => AfterStep::Again,
            Err(_) => AfterStep::End(SessionEnd::Memory {
                served: talk.served(),
            }),
        },
        Err(_) => AfterStep::End(SessionEnd::ReadFault {
            served: talk.served(),
        }),
    }
}

fn write_bytes<K: Sink>(served: u64, sink: &mut K, bytes: &[u8]) -> AfterStep
    ensures { Writing served (K.seen sink.old) (K.seen sink.new) bytes.now result }
{
    match write_whole(sink, bytes) {
        Ok(()) => AfterStep::Again,
        Err(_) => AfterStep::End(SessionEnd::WriteFault { served }),
    }
}

// Calls the book for the request that waits, and writes the response.
fn call_book<B: Caller, K: Sink>(
    talk: &mut Talk,
    caller: &B,
    own: &mut B::Own,
    sink: &mut K,
    call: BookCall,
) -> AfterStep
    requires waits { IsSome talk.old.waits }
    requires leaving { talk.old.leaving ≡ None }
    requires fits { B.fits caller.now own.old }
    requires none { BringsNone call.request }
    ensures fits { B.fits caller.now own.new }
    ensures step { Called (B.settings caller.now) (B.goes caller.now) call (K.seen sink.old)
        (K.seen sink.new) talk.old
        (B.seen own.old) result talk.new (B.seen own.new) }
{
    let served = talk.served();
    let receipt = caller.call(own, call);
    match talk.answer(receipt) {
        Ok(Want::Write(bytes)) => write_bytes(served, sink, bytes.as_slice()),
        Ok(Want::Leave(end)) => AfterStep::End(end),
        Ok(Want::More) => unreachable!(),
        Ok(Want::Call(_)) => unreachable!(),
        Err(_) => AfterStep::End(SessionEnd::Memory { served }),
    }
}

// Asks the talk what it wants, and does it.
fn take_step<B: Caller, S: Source, K: Sink, C: Clock>(
    talk: &mut Talk,
    caller: &B,
    own: &mut B::Own,
    source: &mut S,
    sink: &mut K,
    clock: &mut C,
) -> AfterStep
    requires idle { talk.old.waits ≡ None }
    requires fits { B.fits caller.now own.old }
    ensures fits { B.fits caller.now own.new }
    ensures step { StepsOn (B.settings caller.now) (B.goes caller.now)
        (outside (S.seen source.old) (K.seen sink.old) (C.seen clock.old))
        (outside (S.seen source.new) (K.seen sink.new) (C.seen clock.new)) talk.old (B.seen own.old)
        result talk.new (B.seen own.new) }
{
    let served = talk.served();
    match talk.next(clock) {
        Ok(Want::More) => read_more(talk, source),
        Ok(Want::Write(bytes)) => write_bytes(served, sink, bytes.as_slice()),
        Ok(Want::Call(call)) => call_book(talk, caller, own, sink, call),
        Ok(Want::Leave(end)) => AfterStep::End(end),
        Err(_) => AfterStep::End(SessionEnd::Memory { served }),
    }
}

// The work after an answer.
fn work_behind<B: Caller>(served: u64, caller: &B, own: &mut B::Own) -> AfterStep
    requires fits { B.fits caller.now own.old }
    ensures fits { B.fits caller.now own.new }
    ensures works { WorksOn (B.settings caller.now) (B.buckets caller.now) (B.goes caller.now) served
        (B.seen own.old)
        result (B.seen own.new) }
{
    match caller.work(own) {
        Ok(()) => AfterStep::Again,
        Err(_) => AfterStep::End(SessionEnd::Memory { served }),
    }
}

// Does what the talk wants, and after the answer to a request the caller's work.
fn step_and_work<B: Caller, S: Source, K: Sink, C: Clock>(
    talk: &mut Talk,
    caller: &B,
    own: &mut B::Own,
    source: &mut S,
    sink: &mut K,
    clock: &mut C,
) -> AfterStep
    requires idle { talk.old.waits ≡ None }
    requires fits { B.fits caller.now own.old }
    ensures fits { B.fits caller.now own.new }
    ensures step { StepsAndWorks (B.settings caller.now) (B.buckets caller.now) (B.goes caller.now)
        (outside (S.seen source.old) (K.seen sink.old) (C.seen clock.old))
        (outside (S.seen source.new) (K.seen sink.new) (C.seen clock.new)) talk.old (B.seen own.old)
        result talk.new (B.seen own.new) }
{
    let served = talk.served();
    match take_step(talk, caller, own, source, sink, clock) {
        AfterStep::Again => {
            let now = talk.served();
            if now > served {
                work_behind(now, caller, own)
            } else {
                AfterStep::Again
            }
        }
        AfterStep::End(end) => AfterStep::End(end),
    }
}

/// Reads requests, and answers them by the caller, until the session ends; after each answered request the caller works.
/// What the caller had seen is a front of what it has seen; each reply that prints a turn is the book's at the entries
/// below that turn, or, of clashes that the session was answered before, at the entries up to the turn printed last.
pub fn run_session<B: Caller, S: Source, K: Sink, C: Clock>(
    alloc: Global,
    caller: &B,
    own: &mut B::Own,
    source: &mut S,
    sink: &mut K,
    clock: &mut C,
) -> SessionEnd
    requires fits { B.fits caller.now own.old }
    requires laws { CallerLaws (B.buckets caller.now) (B.goes caller.now) }
    requires stays { B.goes caller.now (B.seen own.old) [] (B.seen own.old) }
    ensures fits { B.fits caller.now own.new }
    ensures serves { Serves (B.settings caller.now) (B.buckets caller.now) (B.goes caller.now)
        (B.seen own.old)
        (B.seen own.new) (outside (S.seen source.old) (K.seen sink.old) (C.seen clock.old))
        (outside (S.seen source.new) (K.seen sink.new) (C.seen clock.new)) result }
{
    let Ok(mut talk) = Talk::new(alloc, caller.last(own)) else {
        return SessionEnd::Memory { served: 0 };
    };
    // No session comes near so many steps: each one answers, or reads a piece of a request whose bytes are bounded.
    'steps: for _ in 0..u64::MAX {
        match step_and_work(&mut talk, caller, own, source, sink, clock) {
            AfterStep::Again => {}
            AfterStep::End(end) => return end,
        }
    }
    match talk.leaving() {
        Some(end) => end,
        None => SessionEnd::Memory {
            served: talk.served(),
        },
    }
}
