//! Where a connection's bytes come from and where they go to, over a socket.
ghost use Rattle.std.specs.Prelude.{◌≡◌};
ghost use Rattle.bim_sockets.specs.Sockets.{new_source, new_sink, source_seen, sink_seen};

use crate::told_socket::{ToldReader, ToldWriter};
use bim_io::{Failed, Sink, Source};
use std::marker::Model;
use std::net::TcpStream;

/// What comes from a socket. It tells what its reads gave, and not what is left.
#[derive(Drop)]
pub struct TcpSource {
    reader: ToldReader,
    ended: bool,
    faults: u64,
}

impl Model for TcpSource {
    ghost use Rattle.bim_io.specs.MemoryStreams.{ReaderState};

    ghost Value = { ReaderState };

    ghost view = { λ s. record { given = s.reader; ended = s.ended; faults = s.faults } };
}

impl TcpSource {
    pub(crate) fn new(stream: TcpStream) -> TcpSource
        ensures { result ≡ new_source }
    {
        TcpSource {
            reader: ToldReader::new(stream),
            ended: false,
            faults: 0,
        }
    }

    pub(crate) fn part(&mut self) {
        self.reader.part();
    }
}

impl Source for TcpSource {
    ghost seen = { source_seen };

    ghost at_end = { λ s ended. tt };

    fn read(&mut self, room: &mut [u8]) -> Result<usize, Failed> {
        match self.reader.read(room) {
            Ok(count) => {
                if count == 0 && room.len() > 0 {
                    self.ended = true;
                }
                Ok(count)
            }
            Err(_) => {
                self.faults = self.faults.saturating_add(1);
                Err(Failed)
            }
        }
    }
}

/// What goes to a socket. It tells what its writes took.
#[derive(Drop)]
pub struct TcpSink {
    writer: ToldWriter,
    faults: u64,
}

impl Model for TcpSink {
    ghost use Rattle.bim_io.specs.MemoryStreams.{WriterState};

    ghost Value = { WriterState };

    ghost view = { λ s. record { taken = s.writer; faults = s.faults } };
}

impl TcpSink {
    pub(crate) fn new(stream: TcpStream) -> TcpSink
        ensures { result ≡ new_sink }
    {
        TcpSink {
            writer: ToldWriter::new(stream),
            faults: 0,
        }
    }
}

impl Sink for TcpSink {
    ghost seen = { sink_seen };

    fn write(&mut self, piece: &[u8]) -> Result<usize, Failed> {
        match self.writer.write(piece) {
            Ok(count) => {
                if count == 0 && piece.len() > 0 {
                    self.faults = self.faults.saturating_add(1);
                    return Err(Failed);
                }
                Ok(count)
            }
            Err(_) => {
                self.faults = self.faults.saturating_add(1);
                Err(Failed)
            }
        }
    }
}
