//! Connections and doors over sockets. A door tells the connections that were given back.
ghost use Rattle.std.specs.Prelude.{◌≡◌, IfOk, IfSome, nat_lt};
ghost use Rattle.bim_net.specs.ConnectionViews.{ended_link, link_seen};
ghost use Rattle.bim_net.specs.Doors.{TakesBack};
ghost use Rattle.bim_sockets.specs.Sockets.{new_source, new_sink, source_seen, sink_seen, new_door, door_seen};

use crate::socket_ends::{TcpSink, TcpSource};
use bim_io::Failed;
use bim_net::{Door, EndKind, Link, LinkEnd};
use ghost_lists::GhostList;
use std::io::Result as IoResult;
use std::marker::Model;
use std::net::{TcpListener, TcpStream};
use std::thread::yield_now;
use std::time::Duration;

/// How long a read waits for the next byte, and a write until a byte is taken, in seconds. Then it fails.
pub const SILENCE: u64 = 60;

/// How many connections may fail one after another before they are set up, until the door fails.
const MOST_BROKEN: u32 = 1000;

// Whether the peer may have sent more than was read before its session ended.
fn is_parted(kind: EndKind) -> bool {
    match kind {
        EndKind::Asked => true,
        EndKind::Frame => true,
        EndKind::Spent => true,
        EndKind::SpentTurns => true,
        EndKind::Memory => true,
        _ => false,
    }
}

/// A connection over a socket. Its two ends are two handles of the one socket.
pub type TcpLink = Link<TcpSource, TcpSink>;

// A connection that was given back, with the end of its session.
#[derive(Drop)]
struct Parted {
    link: TcpLink,
    end: LinkEnd,
}

impl Model for Parted {
    ghost use Rattle.bim_net.specs.ConnectionViews.{EndedLink, link_seen, ended_link};
    ghost use Rattle.bim_sockets.specs.Sockets.{source_seen, sink_seen};

    ghost Value = { EndedLink };

    ghost view = { λ p. ended_link (link_seen (source_seen p.link.source) (sink_seen p.link.sink)) p.end };
}

// A connection over this socket: small writes go out at once, and a read from a silent peer, and a write to one that takes
// nothing, fail in the end.
fn link_of(stream: TcpStream) -> IoResult<TcpLink>
    ensures source { IfOk result (λ l. l.source ≡ new_source) }
    ensures sink { IfOk result (λ l. l.sink ≡ new_sink) }
{
    stream.set_nodelay(true)?;
    stream.set_read_timeout(Some(Duration::from_secs(SILENCE)))?;
    stream.set_write_timeout(Some(Duration::from_secs(SILENCE)))?;
    let other = stream.try_clone()?;
    Ok(Link {
        source: TcpSource::new(stream),
        sink: TcpSink::new(other),
    })
}

// The next connection. A peer that is gone again before its connection is set up is passed over.
fn next_of(listener: &TcpListener) -> Option<TcpLink>
    ensures source { IfSome result (λ l. l.source ≡ new_source) }
    ensures sink { IfSome result (λ l. l.sink ≡ new_sink) }
{
    for _ in 0..MOST_BROKEN {
        if let Ok((stream, _)) = listener.accept() {
            if let Ok(link) = link_of(stream) {
                return Some(link);
            }
        }
        yield_now();
    }
    None
}

/// A door over a listening socket, which all doors of a host share, so that the system hands a connection to one that
/// waits. It is closed once it has given 2^64 - 1 connections.
#[derive(Drop)]
pub struct TcpDoor {
    listener: Option<TcpListener>,
    number: u32,
    ended: GhostList<Parted>,
    gave: u64,
    closed: bool,
    faults: u64,
}

impl Model for TcpDoor {
    ghost use Rattle.bim_sockets.specs.Sockets.{TcpDoorState};

    ghost Value = { TcpDoorState };

    ghost view = { λ d. record {
      number = d.number;
      ended = d.ended.items;
      gave = d.gave;
      closed = d.closed;
      faults = d.faults;
    } };
}

impl TcpDoor {
    /// A door of this number over the listening socket.
    pub fn new(listener: TcpListener, number: u32) -> TcpDoor
        ensures { result ≡ new_door number }
    {
        TcpDoor {
            listener: Some(listener),
            number,
            ended: GhostList::new(),
            gave: 0,
            closed: false,
            faults: 0,
        }
    }

    /// Whether an accept has failed.
    pub fn has_failed(&self) -> bool
        ensures { result ≡ nat_lt 0 self.now.faults }
    {
        self.faults > 0
    }

    pub(crate) fn shut(&mut self)
        ensures { self.new ≡ self.old }
    {
        self.listener = None;
    }
}

impl Door for TcpDoor {
    type S = TcpSource;

    type K = TcpSink;

    ghost seen = { door_seen };

    fn accept(&mut self) -> Result<Option<TcpLink>, Failed> {
        let Some(gave) = self.gave.checked_add(1) else {
            self.closed = true;
            return Ok(None);
        };
        let Some(listener) = &self.listener else {
            self.closed = true;
            return Ok(None);
        };
        match next_of(listener) {
            Some(link) => {
                self.gave = gave;
                Ok(Some(link))
            }
            None => {
                self.faults = self.faults.saturating_add(1);
                Err(Failed)
            }
        }
    }

    fn give_back(&mut self, link: TcpLink, end: LinkEnd)
        ensures door { TakesBack
            (ended_link (link_seen (source_seen link.source) (sink_seen link.sink)) end)
            (door_seen self.old) (door_seen self.new) }
    {
        let mut parted = Parted { link, end };
        self.ended = self.ended.and(&parted);
        if is_parted(end.kind) {
            parted.link.source.part();
        }
    }
}
