//! Bytes that are read from the front.
ghost use Rattle.std.specs.Prelude.{◌<◌, ℕ, slice_index};

use crate::read_error::ReadError;
use std::marker::Model;

/// Bytes that are still to be read. Contracts see their list.
#[derive(Drop)]
pub(crate) struct Unread<'a> {
    bytes: &'a [u8],
}

impl<'a> Model for Unread<'a> {
    ghost use Rattle.std.specs.Prelude.{List, ℕ};

    ghost Value = { List ℕ };

    ghost view = { λ u. u.bytes.now };
}

/// What is lent are bytes. It takes no time.
pub(crate) fn are_bytes(bytes: &[u8])
    ensures { (i : ℕ) → slice_index bytes.now i < 256 }
{}

impl<'a> Unread<'a> {
    ghost use Rattle.std.specs.Prelude.{◌≡◌, ◌==◌, length, IfOk};
    ghost use Rattle.feed_frames.specs.inner.Readers.{Gives, GivesBy, byte_at, cut_at};
    ghost use Rattle.feed_frames.specs.inner.FieldReaders.{long_at, short_at};

    /// All of these bytes.
    pub fn new(bytes: &'a [u8]) -> Unread<'a>
        ensures { result ≡ bytes.now }
    {
        Unread { bytes }
    }

    /// Whether none is left.
    pub fn is_empty(&self) -> bool
        ensures { result ≡ (length self.now == 0) }
    {
        self.bytes.is_empty()
    }

    /// What is left are bytes. It takes no time.
    pub fn are_bytes(&self)
        ensures { (i : ℕ) → slice_index self.now i < 256 }
    {
        are_bytes(self.bytes);
    }

    /// The next byte.
    pub fn byte(&mut self) -> Result<u8, ReadError>
        ensures { Gives result self.new (byte_at self.old) }
    {
        match self.bytes {
            [] => Err(ReadError::NotSpelled),
            [byte, rest @ ..] => {
                let byte = *byte;
                self.bytes = rest;
                Ok(byte)
            }
        }
    }

    /// The next bytes, so many.
    pub fn cut(&mut self, count: u64) -> Result<&'a [u8], ReadError>
        ensures cut { GivesBy (λ front. front.now) result self.new (cut_at count self.old) }
        ensures count { IfOk result (λ front. length front.now ≡ count) }
    {
        if (self.bytes.len() as u64) < count {
            return Err(ReadError::NotSpelled);
        }
        let (front, rest) = self.bytes.split_at(count as usize);
        self.bytes = rest;
        Ok(front)
    }

    /// A number in eight bytes.
    #[tactic(auto, unfolding(crate::specs::inner::FieldReaders::long_at))]
    pub fn long(&mut self) -> Result<u64, ReadError>
        ensures { Gives result self.new (long_at self.old) }
    {
        let front = self.cut(8)?;
        Ok(u64::from_be_bytes([
            front[0], front[1], front[2], front[3], front[4], front[5], front[6], front[7],
        ]))
    }

    /// A number in four bytes.
    #[tactic(auto, unfolding(crate::specs::inner::FieldReaders::short_at))]
    pub fn short(&mut self) -> Result<u32, ReadError>
        ensures { Gives result self.new (short_at self.old) }
    {
        let front = self.cut(4)?;
        Ok(u32::from_be_bytes([front[0], front[1], front[2], front[3]]))
    }
}
