//! A source and a sink in memory that never fail.
ghost use Rattle.std.specs.Prelude.{◌≡◌, ◌≤◌, ◌<◌, ◌++◌, ◌||◌, ◌&&◌, ◌==◌, nat_lt, [], true, false, if◌then◌else◌, None, ℕ, List, Some, length, take, drop, min, IfOk, IfSome};
ghost use Rattle.std.specs.Io.{ReadsAtMost, WritesAtMost};
ghost use Rattle.bim_io.specs.Causes.{HasCause, ReadGives, ReadTakes, ends_read, WritesSome, WriteTells};
ghost use Rattle.bim_io.specs.MemoryStreams.{moved, left_at, ended_empty};

use crate::traits::{Failed, Sink, Source};
use bim_model::Bytes;
use std::alloc::{AllocError, Global};
use std::marker::Model;

/// A source over bytes that never fails.
#[derive(Drop)]
pub struct SureSource {
    contents: Bytes,
    at: usize,
    most: u64,
    ended: bool,
}

impl Model for SureSource {
    ghost use Rattle.std.specs.Prelude.{◌≡◌, ◌≤◌, [], true, length, take, drop};
    ghost use Rattle.bim_io.specs.MemoryStreams.{SureSourceState};

    ghost Value = { SureSourceState };

    ghost view = { λ s. record {
      left = drop s.at s.contents;
      given = take s.at s.contents;
      ended = s.ended;
      most = s.most;
    } };

    ghost invariant = { λ s. (s.at ≤ length s.contents) × (1 ≤ s.most)
        × (s.ended ≡ true → drop s.at s.contents ≡ []) };
}

impl SureSource {
    /// A source of the contents, of which one read moves at most `most` bytes.
    pub fn new(contents: Bytes, most: u64) -> Result<SureSource, AllocError>
        requires { 1 ≤ most }
        ensures { IfOk result (λ s. s ≡ record { left = contents; given = []; ended = false; most = most }) }
    {
        Ok(SureSource {
            contents,
            at: 0,
            most,
            ended: false,
        })
    }
}

/// The lesser of a limit and a count of bytes.
pub(crate) fn at_most(most: u64, count: usize) -> usize
    ensures { result ≡ min most count }
{
    if most < count as u64 {
        most as usize
    } else {
        count
    }
}

/// The bytes from a place on.
pub(crate) fn tail(bytes: &[u8], at: usize) -> &[u8]
    requires { at ≤ length bytes.now }
    ensures { result.now ≡ drop at bytes.now }
{
    &bytes[at..]
}

/// Copies a front of the bytes into the room, at most `most` of them, and says how many.
pub(crate) fn copy_front(most: u64, rest: &[u8], room: &mut [u8]) -> usize
    ensures count { result ≡ moved most (length room.old) (length rest.now) }
    ensures bytes { take result room.new ≡ take result rest.now }
{
    let count = at_most(most, rest.len().min(room.len()));
    room[..count].copy_from_slice(&rest[..count]);
    count
}

/// Whether the end was answered, with a read of so many bytes into the room.
pub(crate) fn is_over(ended: bool, room: &[u8], count: usize) -> bool
    ensures { result ≡ (ended || (nat_lt 0 (length room.now) && count == 0)) }
{
    ended || (!room.is_empty() && count == 0)
}

impl Source for SureSource {
    ghost seen = { λ s. record {
      left = Some (left_at s.ended s.left);
      given = Some s.given;
      most = Some s.most;
      ended = s.ended;
      faults = 0;
    } };

    ghost at_end = { λ s. ended_empty s.ended s.left };

    fn read(&mut self, room: &mut [u8]) -> Result<usize, Failed>
        ensures bound { ReadsAtMost result room.new }
        ensures left { ReadTakes (Some (left_at self.old.ended self.old.left))
            (Some (left_at self.new.ended self.new.left)) result room.new }
        ensures given { ReadGives (Some self.old.given) (Some self.new.given) result room.new }
        ensures within { IfOk result (λ n. n ≤ self.old.most) }
        ensures same { Some self.new.most ≡ Some self.old.most }
        ensures end { self.new.ended ≡ ends_read self.old.ended (length room.new) result }
        ensures cause { HasCause 0 0 result }
        ensures most { self.new.most ≡ self.old.most }
        ensures moved { IfOk result (λ n. n ≡ moved self.old.most (length room.new) (length self.old.left)) }
    {
        let count = copy_front(self.most, tail(self.contents.as_slice(), self.at), room);
        self.at += count;
        self.ended = is_over(self.ended, room, count);
        Ok(count)
    }
}

/// A sink that keeps what is written and never fails. If memory runs out it takes the bytes all the same,
/// and from then on no longer says what it holds.
#[derive(Drop)]
pub struct SureSink {
    bytes: Vec<u8>,
    most: u64,
    tells: bool,
}

impl Model for SureSink {
    ghost use Rattle.std.specs.Prelude.{◌≤◌, Some, None, if◌then◌else◌};
    ghost use Rattle.bim_io.specs.MemoryStreams.{SureSinkState};

    ghost Value = { SureSinkState };

    ghost view = { λ s. record { held = (if s.tells then Some s.bytes.items else None); most = s.most } };

    ghost invariant = { λ s. 1 ≤ s.most };
}

impl SureSink {
    /// A sink that holds nothing, of which one write moves at most `most` bytes.
    pub fn new(alloc: Global, most: u64) -> Result<SureSink, AllocError>
        requires { 1 ≤ most }
        ensures { IfOk result (λ s. s ≡ record { held = Some []; most = most }) }
    {
        Ok(SureSink {
            bytes: Vec::new(alloc),
            most,
            tells: true,
        })
    }

    /// What it holds, lent: all that was written, if it still tells.
    pub fn bytes(&self) -> &[u8]
        ensures { IfSome self.now.held (λ held. result.now ≡ held) }
    {
        self.bytes.as_slice()
    }
}

impl Sink for SureSink {
    ghost seen = { λ s. record { held = s.held; faults = 0 } };

    fn write(&mut self, piece: &[u8]) -> Result<usize, Failed>
        ensures bound { WritesAtMost result piece.now }
        ensures some { WritesSome result piece.now }
        ensures held { WriteTells self.old.held self.new.held result piece.now }
        ensures cause { HasCause 0 0 result }
        ensures most { self.new.most ≡ self.old.most }
        ensures moved { IfOk result (λ n. n ≡ min self.old.most (length piece.now)) }
    {
        let count = at_most(self.most, piece.len());
        if self.bytes.extend_from_slice(&piece[..count]).is_err() {
            self.tells = false;
        }
        Ok(count)
    }
}
