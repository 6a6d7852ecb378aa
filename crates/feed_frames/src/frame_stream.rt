//! A stream of frames, however it is cut into pieces.
ghost use Rattle.std.specs.Prelude.{◌≡◌, ◌≤◌, length, drop, MatchOption};
ghost use Rattle.feed_frames.specs.FrameStreams.{IsPartial};
ghost use Rattle.feed_frames.specs.inner.FrameFronts.{IsFrameAt};

use crate::decoding::decode;
use crate::encoding::COUNT;
use crate::frame_error::FrameError;
use crate::unread::are_bytes;
use book_history::Entry;
use std::alloc::{AllocError, Global};
use std::marker::Model;

/// A stream of frames. Contracts see how many bytes the answered frames had, and the bytes behind them.
#[derive(Drop)]
pub struct Frames {
    buf: Vec<u8>,
    start: usize,
    at: u64,
}

impl Model for Frames {
    ghost use Rattle.std.specs.Prelude.{◌≤◌, length, drop};
    ghost use Rattle.feed_frames.specs.FrameStreams.{Unanswered};

    ghost Value = { Unanswered };

    ghost view = { λ f. record { at = f.at; rest = drop f.start f.buf.items } };

    ghost invariant = { λ f. f.start ≤ length f.buf.items };
}

// Drops the bytes before the place, once they are half of the buffer, and answers the place of those behind.
fn compact(buf: &mut Vec<u8>, at: usize) -> usize
    requires { at ≤ length buf.old.items }
    ensures place { result ≤ length buf.new.items }
    ensures bytes { drop result buf.new.items ≡ drop at buf.old.items }
{
    let rest = buf.len() - at;
    if at < rest {
        return at;
    }
    buf.as_mut_slice().copy_within(at.., 0);
    buf.truncate(rest);
    0
}

// The payload of a frame that stands whole at the front.
fn whole_payload(bytes: &[u8]) -> Option<&[u8]>
    ensures { MatchOption result (IsPartial bytes.now) (λ payload. IsFrameAt bytes.now payload.now) }
{
    if bytes.len() < COUNT {
        return None;
    }
    let (front, behind) = bytes.split_at(COUNT);
    let count = u64::from_be_bytes([
        front[0], front[1], front[2], front[3], front[4], front[5], front[6], front[7],
    ]);
    if (behind.len() as u64) < count {
        return None;
    }
    Some(&behind[..count as usize])
}

impl Frames {
    ghost use Rattle.std.specs.Prelude.{◌≡◌, ◌++◌, [], OnOk, OnErr};
    ghost use Rattle.feed_frames.specs.FrameStreams.{NextFrame};

    /// The stream before its first byte. Takes no memory.
    pub fn new(alloc: Global) -> Frames
        ensures { result ≡ record { at = 0; rest = [] } }
    {
        Frames {
            buf: Vec::new(alloc),
            start: 0,
            at: 0,
        }
    }

    /// Takes the next piece of the stream. An `Err` changes nothing.
    pub fn feed(&mut self, piece: &[u8]) -> Result<(), AllocError>
        ensures at { self.new.at ≡ self.old.at }
        ensures ok { OnOk result (self.new.rest ≡ self.old.rest ++ piece.now) }
        ensures err { OnErr result (self.new.rest ≡ self.old.rest) }
    {
        self.start = compact(&mut self.buf, self.start);
        self.buf.extend_from_slice(piece)
    }

    /// The next entry of the stream, or none where no whole frame is left. After a bad frame each later call answers the same.
    pub fn next(&mut self, alloc: Global) -> Result<Option<Entry>, FrameError>
        ensures { NextFrame self.old result self.new }
    {
        are_bytes(&self.buf[self.start..]);
        let Some(payload) = whole_payload(&self.buf[self.start..]) else {
            return Ok(None);
        };
        let size = COUNT + payload.len();
        match decode(alloc, payload)? {
            Some(entry) => {
                self.start += size;
                self.at = self.at.saturating_add(size as u64);
                Ok(Some(entry))
            }
            None => Err(FrameError::BadFrame { at: self.at }),
        }
    }
}
