//! The framer: requests from bytes, in whatever pieces these come.
ghost use Rattle.std.specs.Prelude.{◌≡◌, ◌≤◌, ◌↔◌, ℕ, List, [], ◌++◌, Bool, false, IsTrue, length, drop, IfOk, OnOk, OnErr};
ghost use Rattle.std.proofs.Props.{props};
ghost use Rattle.http_frame.specs.FramerStages.{IsSafe, IsSafe-prop, Keeps, Grows, is_failed, is_before};

use crate::field_lines::{Spot, walk_on};
use crate::framer_steps::step;
use crate::stage::{Awaited, START, Stage};
use crate::types::{FrameError, FrameFault, FrameStep};
use std::alloc::{AllocError, Global};
use std::mem;

/// The requests of a connection. It stands for the bytes fed that follow the last request that it answered.
#[derive(Drop)]
pub struct Framer {
    buf: Vec<u8>,
    at: usize,
    stage: Stage,
    ghost safe: { IsSafe stage buf.items at } by { IsSafe-prop (Prim.hlevel props) stage buf.items at },
}

fn tail(bytes: &[u8], at: usize) -> &[u8]
    requires { at ≤ length bytes.now }
    ensures { result.now ≡ drop at bytes.now }
{
    &bytes[at..]
}

// Drops the bytes before the place once they are at least half of all: a byte is moved once at most for each
// byte dropped.
fn compact(buf: &mut Vec<u8>, at: usize) -> usize
    requires { at ≤ length buf.old.items }
    ensures place { result ≤ length buf.new.items }
    ensures bytes { drop result buf.new.items ≡ drop at buf.old.items }
{
    let rest = buf.len() - at;
    if at < rest {
        return at;
    }
    buf.as_mut_slice().copy_within(at.., 0);
    buf.truncate(rest);
    0
}

fn compact_at(buf: &mut Vec<u8>, at: usize, stage: &Stage) -> usize
    requires { IsSafe stage.now buf.old.items at }
    ensures safe { IsSafe stage.now buf.new.items result }
    ensures keeps { Keeps stage.now buf.old.items at buf.new.items result }
{
    match stage {
        Stage::Head(_) => compact(buf, at),
        Stage::Body(_) => at,
        Stage::Failed(_) => at,
    }
}

fn is_failed(stage: &Stage) -> bool
    ensures { result ≡ is_failed stage.now }
{
    match stage {
        Stage::Head(_) => false,
        Stage::Body(_) => false,
        Stage::Failed(_) => true,
    }
}

// The length of the body that is awaited, where the head tells it; else 0.
fn stated(stage: &Stage) -> usize {
    match stage {
        Stage::Body(pending) => match pending.body {
            Awaited::Sized(count) => count,
            Awaited::Chunked(_) => 0,
            Awaited::Whole(_) => 0,
        },
        Stage::Head(_) => 0,
        Stage::Failed(_) => 0,
    }
}

// Takes the room for a body of a stated length before its next bytes: that of twice what has come, but not more than
// the length, so that a head alone takes none. Where memory is refused nothing is taken.
fn make_room(buf: &mut Vec<u8>, more: usize, count: usize)
    ensures { buf.new.items ≡ buf.old.items }
{
    let wanted = buf.len().saturating_add(more);
    if wanted > count || wanted <= buf.capacity() {
        return;
    }
    let room = wanted.saturating_mul(2).min(count);
    let _ = buf.reserve_exact(room - buf.len());
}

fn grow(buf: &mut Vec<u8>, at: usize, stage: &Stage, piece: &[u8]) -> Result<(), AllocError>
    requires { IsSafe stage.now buf.old.items at }
    ensures safe { IsSafe stage.now buf.new.items at }
    ensures ok { OnOk result (Grows stage.now buf.old.items at buf.new.items piece.now) }
    ensures err { OnErr result (Keeps stage.now buf.old.items at buf.new.items at) }
{
    if is_failed(stage) {
        return Ok(());
    }
    make_room(buf, piece.len(), stated(stage));
    buf.extend_from_slice(piece)?;
    Ok(())
}

fn is_before(spot: Spot) -> bool
    ensures { result ≡ is_before spot }
{
    match spot {
        Spot::Before => true,
        Spot::BeforeCr => false,
        Spot::Line => false,
        Spot::Fields(_) => false,
    }
}

impl Framer {
    ghost use Rattle.http_frame.specs.Framers.{Stands, Answered};
    ghost use Rattle.http_frame.specs.Events.{IsRest, IsBlank};

    /// A framer that stands for no bytes.
    pub fn new(alloc: Global) -> Result<Framer, AllocError>
        ensures { IfOk result (λ framer. Stands framer [] false) }
    {
        Ok(Framer {
            buf: Vec::new(alloc),
            at: 0,
            stage: Stage::Head(START),
        })
    }

    /// Appends the piece. After an `Err` it stands for the bytes of before.
    pub fn feed(&mut self, piece: &[u8]) -> Result<(), AllocError>
        ensures ok { OnOk result ((bytes : List ℕ) (told : Bool) → Stands self.old bytes told
            → Stands self.new (bytes ++ piece.now) told) }
        ensures err { OnErr result ((bytes : List ℕ) (told : Bool) → Stands self.old bytes told
            → Stands self.new bytes told) }
    {
        self.at = compact_at(&mut self.buf, self.at, &self.stage);
        grow(&mut self.buf, self.at, &self.stage, piece)
    }

    /// The next event: a request that asks for `100 Continue`, once, and a request, which it stands for no
    /// longer; `More` where the bytes leave no event and no fault, which are fewer than 2^34. After a fault
    /// each later call answers it too; after `Memory` it stands for the same bytes.
    pub fn next(&mut self) -> Result<FrameStep, FrameError>
        ensures { (bytes : List ℕ) (told : Bool) → Stands self.old bytes told
            → Answered bytes told result self.new }
    {
        let stage = mem::replace(&mut self.stage, Stage::Failed(FrameFault::BadHead));
        let stepped = step(&mut self.buf, self.at, stage);
        self.stage = stepped.stage;
        self.at = stepped.at;
        stepped.answer
    }

    /// Whether the bytes, which leave no event and no fault, are empty lines alone: the input may end here.
    pub fn is_between(&self) -> bool
        ensures { (bytes : List ℕ) (told : Bool) → Stands self.now bytes told → IsRest bytes
            → (IsTrue result ↔ IsBlank bytes) }
    {
        match &self.stage {
            Stage::Head(_) => is_before(walk_on(Spot::Before, tail(&self.buf, self.at))),
            Stage::Body(_) => false,
            Stage::Failed(_) => false,
        }
    }
}
