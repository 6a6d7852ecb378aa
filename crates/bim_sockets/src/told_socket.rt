//! The two handles of a socket. They tell what its calls returned: nothing else reads from it for a session, or writes.
ghost use Rattle.std.specs.Prelude.{◌≡◌, ◌++◌, [], take, MatchResult};
ghost use Rattle.std.specs.Io.{ReadsAtMost, WritesAtMost};

use ghost_lists::GhostBytes;
use std::io::{Read, Result as IoResult, Write};
use std::marker::Model;
use std::net::{Shutdown, TcpStream};
use std::time::Duration;

/// How long a peer that is parted from may be silent before it is let go, in seconds.
const PARTING: u64 = 1;

/// How often it is read from at most. So many reads take in the longest upload.
const MOST_PARTING: u32 = 2_100;

// What is read from, with the bytes that its reads gave.
#[derive(Drop)]
pub(crate) struct ToldReader {
    stream: TcpStream,
    given: GhostBytes,
}

impl Model for ToldReader {
    ghost use Rattle.std.specs.Prelude.{ℕ, List};

    ghost Value = { List ℕ };

    ghost view = { λ r. r.given.bytes };
}

impl ToldReader {
    // A socket from which nothing was read.
    pub(crate) fn new(stream: TcpStream) -> ToldReader
        ensures { result ≡ [] }
    {
        ToldReader {
            stream,
            given: GhostBytes::new(),
        }
    }

    // Reads the next bytes into the room and says how many.
    pub(crate) fn read(&mut self, room: &mut [u8]) -> IoResult<usize>
        ensures bound { ReadsAtMost result room.new }
        ensures given { MatchResult result (λ n. self.new ≡ self.old ++ take n room.new)
            (λ _. self.new ≡ self.old) }
    {
        match self.stream.read(room) {
            Ok(count) => {
                self.given.add(&room[..count]);
                Ok(count)
            }
            Err(error) => Err(error),
        }
    }

    // Says that nothing more is written, and reads on for a while: a socket that is closed while bytes of the peer are
    // unread is reset, and the peer might never read the last response (RFC 9112, section 9.6).
    pub(crate) fn part(&mut self) {
        let silence = Some(Duration::from_secs(PARTING));
        if self.stream.shutdown(Shutdown::Write).is_err()
            || self.stream.set_read_timeout(silence).is_err()
        {
            return;
        }
        let mut room = [0u8; 16_384];
        for _ in 0..MOST_PARTING {
            match self.stream.read(&mut room) {
                Ok(0) => return,
                Ok(_) => {}
                Err(_) => return,
            }
        }
    }
}

// What is written to, with the bytes that its writes took.
#[derive(Drop)]
pub(crate) struct ToldWriter {
    stream: TcpStream,
    taken: GhostBytes,
}

impl Model for ToldWriter {
    ghost use Rattle.std.specs.Prelude.{ℕ, List};

    ghost Value = { List ℕ };

    ghost view = { λ w. w.taken.bytes };
}

impl ToldWriter {
    // A socket to which nothing was written.
    pub(crate) fn new(stream: TcpStream) -> ToldWriter
        ensures { result ≡ [] }
    {
        ToldWriter {
            stream,
            taken: GhostBytes::new(),
        }
    }

    // Writes a front of the piece and says how long it is.
    pub(crate) fn write(&mut self, piece: &[u8]) -> IoResult<usize>
        ensures bound { WritesAtMost result piece.now }
        ensures taken { MatchResult result (λ n. self.new ≡ self.old ++ take n piece.now)
            (λ _. self.new ≡ self.old) }
    {
        match self.stream.write(piece) {
            Ok(count) => {
                self.taken.add(&piece[..count]);
                Ok(count)
            }
            Err(error) => Err(error),
        }
    }
}
