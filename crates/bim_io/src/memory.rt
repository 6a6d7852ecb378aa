//! A source and a sink in memory that fail at the calls that they are set to fail at.
ghost use Rattle.std.specs.Prelude.{◌≡◌, ◌≤◌, ◌+◌, ◌↔◌, ◌^◌, ◌-◌, [], false, ℕ, List, Some, length, min, Contains, IfOk, IsErr, IsTrue};
ghost use Rattle.std.specs.Io.{ReadsAtMost, WritesAtMost};
ghost use Rattle.bim_io.specs.Causes.{HasCause, ReadGives, ReadTakes, ends_read, WritesSome, WriteTells, counted};
ghost use Rattle.bim_io.specs.MemoryStreams.{moved, left_at, ended_empty};

use crate::sure::{at_most, copy_front, is_over, tail};
use crate::traits::{Failed, Sink, Source};
use bim_model::{Bytes, Items};
use std::alloc::{AllocError, Global};
use std::marker::Model;

/// A source over bytes whose reads fail where its list says so.
#[derive(Drop)]
pub struct MemSource {
    contents: Bytes,
    at: usize,
    most: u64,
    ended: bool,
    fails: Items<u64>,
    calls: u64,
    faults: u64,
}

impl Model for MemSource {
    ghost use Rattle.std.specs.Prelude.{◌≡◌, ◌≤◌, [], true, length, take, drop};
    ghost use Rattle.bim_io.specs.MemoryStreams.{SourceState};

    ghost Value = { SourceState };

    ghost view = { λ s. record {
      left = drop s.at s.contents;
      given = take s.at s.contents;
      ended = s.ended;
      most = s.most;
      fails = s.fails;
      calls = s.calls;
      faults = s.faults;
    } };

    ghost invariant = { λ s. (s.at ≤ length s.contents) × (1 ≤ s.most)
        × (s.ended ≡ true → drop s.at s.contents ≡ []) };
}

/// One more, up to the type's end.
fn counted(count: u64) -> u64
    ensures { result ≡ counted count }
{
    count.saturating_add(1)
}

/// Whether a call of this number is to fail.
fn is_to_fail(fails: &[u64], call: u64) -> bool
    ensures { IsTrue result ↔ Contains fails.now call }
{
    fails.contains(&call)
}

impl MemSource {
    /// A source of the contents, of which one read moves at most `most` bytes. The reads of the numbers in `fails`
    /// fail, counted from 1.
    pub fn new(contents: Bytes, most: u64, fails: Items<u64>) -> Result<MemSource, AllocError>
        requires { 1 ≤ most }
        ensures { IfOk result (λ s. s ≡ record {
          left = contents;
          given = [];
          ended = false;
          most = most;
          fails = fails;
          calls = 0;
          faults = 0;
        }) }
    {
        Ok(MemSource {
            contents,
            at: 0,
            most,
            ended: false,
            fails,
            calls: 0,
            faults: 0,
        })
    }
}

impl Source for MemSource {
    ghost seen = { λ s. record {
      left = Some (left_at s.ended s.left);
      given = Some s.given;
      most = Some s.most;
      ended = s.ended;
      faults = s.faults;
    } };

    ghost at_end = { λ s. ended_empty s.ended s.left };

    fn read(&mut self, room: &mut [u8]) -> Result<usize, Failed>
        ensures bound { ReadsAtMost result room.new }
        ensures left { ReadTakes (Some (left_at self.old.ended self.old.left))
            (Some (left_at self.new.ended self.new.left)) result room.new }
        ensures given { ReadGives (Some self.old.given) (Some self.new.given) result room.new }
        ensures within { IfOk result (λ n. n ≤ self.old.most) }
        ensures same { Some self.new.most ≡ Some self.old.most }
        ensures end { self.new.ended ≡ ends_read self.old.ended (length room.new) result }
        ensures cause { HasCause self.old.faults self.new.faults result }
        ensures fails { IsErr result ↔ Contains self.old.fails (counted self.old.calls) }
        ensures moved { IfOk result (λ n. n ≡ moved self.old.most (length room.new) (length self.old.left)) }
        ensures calls { self.new.calls ≡ counted self.old.calls }
        ensures list { self.new.fails ≡ self.old.fails }
        ensures most { self.new.most ≡ self.old.most }
    {
        self.calls = counted(self.calls);
        if is_to_fail(self.fails.as_slice(), self.calls) {
            self.faults = counted(self.faults);
            return Err(Failed);
        }
        let count = copy_front(self.most, tail(self.contents.as_slice(), self.at), room);
        self.at += count;
        self.ended = is_over(self.ended, room, count);
        Ok(count)
    }
}

/// A sink that keeps what is written and whose writes fail where its list says so, and if memory runs out.
#[derive(Drop)]
pub struct MemSink {
    bytes: Vec<u8>,
    most: u64,
    fails: Items<u64>,
    calls: u64,
    faults: u64,
}

impl Model for MemSink {
    ghost use Rattle.std.specs.Prelude.{◌≤◌};
    ghost use Rattle.bim_io.specs.MemoryStreams.{SinkState};

    ghost Value = { SinkState };

    ghost view = { λ s. record {
      held = s.bytes.items;
      most = s.most;
      fails = s.fails;
      calls = s.calls;
      faults = s.faults;
    } };

    ghost invariant = { λ s. 1 ≤ s.most };
}

impl MemSink {
    /// A sink that holds nothing, of which one write moves at most `most` bytes. The writes of the numbers in `fails`
    /// fail, counted from 1.
    pub fn new(alloc: Global, most: u64, fails: Items<u64>) -> Result<MemSink, AllocError>
        requires { 1 ≤ most }
        ensures { IfOk result (λ s. s ≡ record {
          held = [];
          most = most;
          fails = fails;
          calls = 0;
          faults = 0;
        }) }
    {
        Ok(MemSink {
            bytes: Vec::new(alloc),
            most,
            fails,
            calls: 0,
            faults: 0,
        })
    }

    /// What it holds, lent.
    pub fn bytes(&self) -> &[u8]
        ensures { result.now ≡ self.now.held }
    {
        self.bytes.as_slice()
    }
}

impl Sink for MemSink {
    ghost seen = { λ s. record { held = Some s.held; faults = s.faults } };

    fn write(&mut self, piece: &[u8]) -> Result<usize, Failed>
        ensures bound { WritesAtMost result piece.now }
        ensures some { WritesSome result piece.now }
        ensures held { WriteTells (Some self.old.held) (Some self.new.held) result piece.now }
        ensures cause { HasCause self.old.faults self.new.faults result }
        ensures fails { Contains self.old.fails (counted self.old.calls) → IsErr result }
        ensures moved { IfOk result (λ n. n ≡ min self.old.most (length piece.now)) }
        ensures calls { self.new.calls ≡ counted self.old.calls }
        ensures list { self.new.fails ≡ self.old.fails }
        ensures most { self.new.most ≡ self.old.most }
    {
        self.calls = counted(self.calls);
        if is_to_fail(self.fails.as_slice(), self.calls) {
            self.faults = counted(self.faults);
            return Err(Failed);
        }
        let count = at_most(self.most, piece.len());
        if self.bytes.extend_from_slice(&piece[..count]).is_err() {
            self.faults = counted(self.faults);
            return Err(Failed);
        }
        Ok(count)
    }
}
