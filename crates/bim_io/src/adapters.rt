//! The real streams and the real clock.
ghost use Rattle.std.specs.Prelude.{◌≡◌, ◌/◌, [], false, None, Some, min, IfOk, OnErr};
ghost use Rattle.std.specs.Time.{system_time_nanos};

use crate::traits::{Clock, Failed, Sink, Source};
use bim_model::Moment;
use ghost_lists::GhostBytes;
use std::io::{Read, Result as IoResult, Write};
use std::marker::Model;
use std::rt;
use std::time::SystemTime;

/// A source over a reader of the system, which tells what its reads gave, and not what is left.
#[derive(Drop)]
pub struct StdSource<R: Read + Drop> {
    inner: R,
    given: GhostBytes,
    ended: bool,
    faults: u64,
}

impl<R: Read + Drop> Model for StdSource<R> {
    ghost use Rattle.bim_io.specs.MemoryStreams.{ReaderState};

    ghost Value = { ReaderState };

    ghost view = { λ s. record { given = s.given.bytes; ended = s.ended; faults = s.faults } };
}

impl<R: Read + Drop> StdSource<R> {
    /// A source over the reader that has not failed yet, nor answered the end.
    pub fn new(inner: R) -> Self
        ensures { result ≡ record { given = []; ended = false; faults = 0 } }
    {
        StdSource {
            inner,
            given: GhostBytes::new(),
            ended: false,
            faults: 0,
        }
    }
}

impl<R: Read + Drop> Source for StdSource<R> {
    ghost seen = { λ s. record {
      left = None;
      given = Some s.given;
      most = None;
      ended = s.ended;
      faults = s.faults;
    } };

    ghost at_end = { λ s ended. tt };

    fn read(&mut self, room: &mut [u8]) -> Result<usize, Failed> {
        match self.inner.read(room) {
            Ok(count) => {
                self.given.add(&room[..count]);
                if count == 0 && room.len() > 0 {
                    self.ended = true;
                }
                Ok(count)
            }
            Err(_) => {
                self.faults = self.faults.saturating_add(1);
                Err(Failed)
            }
        }
    }
}

/// A sink over a writer of the system, which tells what its writes took.
#[derive(Drop)]
pub struct StdSink<W: Write + Drop> {
    inner: W,
    taken: GhostBytes,
    faults: u64,
}

impl<W: Write + Drop> Model for StdSink<W> {
    ghost use Rattle.bim_io.specs.MemoryStreams.{WriterState};

    ghost Value = { WriterState };

    ghost view = { λ s. record { taken = s.taken.bytes; faults = s.faults } };
}

impl<W: Write + Drop> StdSink<W> {
    /// A sink over the writer that has not failed yet.
    pub fn new(inner: W) -> Self
        ensures { result ≡ record { taken = []; faults = 0 } }
    {
        StdSink {
            inner,
            taken: GhostBytes::new(),
            faults: 0,
        }
    }
}

impl<W: Write + Drop> Sink for StdSink<W> {
    ghost seen = { λ s. record { held = Some s.taken; faults = s.faults } };

    fn write(&mut self, piece: &[u8]) -> Result<usize, Failed> {
        match self.inner.write(piece) {
            Ok(count) => {
                self.taken.add(&piece[..count]);
                if count == 0 && piece.len() > 0 {
                    self.faults = self.faults.saturating_add(1);
                    return Err(Failed);
                }
                Ok(count)
            }
            Err(_) => {
                self.faults = self.faults.saturating_add(1);
                Err(Failed)
            }
        }
    }
}

// The moment of a reading of the system's clock: 0 where it can't be read, and the last where it is later.
fn moment_of(time: IoResult<SystemTime>) -> u64
    ensures read { IfOk time (λ t. result ≡ min (system_time_nanos t / 1_000_000_000) Moment.LAST) }
    ensures unread { OnErr time (result ≡ 0) }
{
    match time {
        Ok(time) => match time.duration_since(SystemTime::UNIX_EPOCH) {
            Ok(since) => since.as_secs().min(Moment::LAST),
            Err(_) => 0,
        },
        Err(_) => 0,
    }
}

/// The system's clock. One that can't be read, or stands before 1970, gives 0. It tells no moments: no clause can say
/// what the system answers, only what is made of it.
#[derive(Drop)]
pub struct SystemClock<R: rt::Clock + Drop> {
    handle: R,
}

impl<R: rt::Clock + Drop> SystemClock<R> {
    /// A clock over the system's.
    pub fn new(handle: R) -> Self {
        SystemClock { handle }
    }
}

impl<R: rt::Clock + Drop> Clock for SystemClock<R> {
    ghost seen = { λ s. record { one = None; gave = None } };

    fn now(&mut self) -> u64 {
        moment_of(SystemTime::now(&self.handle))
    }
}
