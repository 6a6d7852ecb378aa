//! The files of the system.
ghost use Rattle.std.specs.Prelude.{◌≡◌, ◌≤◌, None, false, length, IfOk};
ghost use Rattle.std.specs.Io.{ReadsAtMost};
ghost use Rattle.bim_io.specs.Causes.{HasCause, ReadGives, ReadTakes, ends_read, counted};

use crate::named_source::{Files, NamedSource};
use bim_io::{Failed, Source};
use bim_model::Text;
use std::io::Read;
use std::marker::Model;
use std::{fs, rt};

/// An open file of the system, which tells no contents and no name.
#[derive(Drop)]
pub struct StdFile<R: Read + Drop> {
    inner: R,
    ended: bool,
    faults: u64,
}

impl<R: Read + Drop> Model for StdFile<R> {
    ghost use Rattle.bim_io.specs.MemoryStreams.{StreamState};

    ghost Value = { StreamState };

    ghost view = { λ s. record { ended = s.ended; faults = s.faults } };
}

impl<R: Read + Drop> Source for StdFile<R> {
    ghost seen = { λ s.
        record { left = None; given = None; most = None; ended = s.ended; faults = s.faults } };

    ghost at_end = { λ s ended. tt };

    fn read(&mut self, room: &mut [u8]) -> Result<usize, Failed> {
        match self.inner.read(room) {
            Ok(count) => {
                if count == 0 && room.len() > 0 {
                    self.ended = true;
                }
                Ok(count)
            }
            Err(_) => {
                self.faults = self.faults.saturating_add(1);
                Err(Failed)
            }
        }
    }
}

impl<R: Read + Drop> NamedSource for StdFile<R> {
    ghost name = { λ s. None };

    fn read_named(&mut self, room: &mut [u8]) -> Result<usize, Failed> {
        self.read(room)
    }
}

/// The files of the system, by their paths. They tell no contents.
#[derive(Drop)]
pub struct StdFiles<R: rt::Files + Drop> {
    handle: R,
    faults: u64,
}

impl<R: rt::Files + Drop> Model for StdFiles<R> {
    ghost use Rattle.std.specs.Prelude.{ℕ};

    ghost Value = { ℕ };

    ghost view = { λ f. f.faults };
}

impl<R: rt::Files + Drop> StdFiles<R> {
    /// The system's files, which have not failed yet.
    pub fn new(handle: R) -> Self
        ensures { result ≡ 0 }
    {
        StdFiles { handle, faults: 0 }
    }
}

impl<R: rt::Files + Drop> Files for StdFiles<R> {
    type S = StdFile<R::File>;

    ghost seen = { λ faults. record { told = None; faults = faults } };

    fn open_file(&mut self, name: &Text) -> Result<StdFile<R::File>, Failed> {
        match fs::open(&self.handle, name.as_str()) {
            Ok(inner) => Ok(StdFile {
                inner,
                ended: false,
                faults: 0,
            }),
            Err(_) => {
                self.faults = self.faults.saturating_add(1);
                Err(Failed)
            }
        }
    }

    fn close_file(&mut self, source: StdFile<R::File>) {
        if source.faults > 0 {
            self.faults = self.faults.saturating_add(1);
        }
    }
}
