//! Connections, doors and gates.
ghost use Rattle.std.specs.Prelude.{IfOk, IfSome};
ghost use Rattle.bim_net.specs.ConnectionViews.{DoorSeen, IsFresh, link_seen, ended_link};
ghost use Rattle.bim_net.specs.Doors.{Accepts, TakesBack};

use crate::ends::LinkEnd;
use bim_io::{Failed, Sink, Source};

/// One connection: where its bytes come from and where they go to. Each end counts its own faults.
#[derive(Drop)]
pub struct Link<S: Source + Drop, K: Sink + Drop> {
    pub source: S,
    pub sink: K,
}

/// Where connections come from.
pub trait Door {
    /// Where a connection's bytes come from.
    type S: Source + Drop;

    /// Where they go to.
    type K: Sink + Drop;

    /// Which one of its host it is, the connections that were given back, how many it has given, whether it has answered
    /// that it is closed, and how often it has failed.
    ghost seen: { Self → DoorSeen };

    /// Waits for the next connection, on which no call was made yet. None where the door is closed.
    fn accept(&mut self) -> Result<Option<Link<Self::S, Self::K>>, Failed>
        ensures fresh { IfOk result (λ given. IfSome given (λ link.
            IsFresh (link_seen (Self.S.seen link.source) (Self.K.seen link.sink)))) }
        ensures door { Accepts (seen self.old) result (seen self.new) };

    /// Takes a connection back whose session has ended.
    fn give_back(&mut self, link: Link<Self::S, Self::K>, end: LinkEnd)
        ensures door { TakesBack
            (ended_link (link_seen (Self.S.seen link.source) (Self.K.seen link.sink)) end)
            (seen self.old) (seen self.new) };
}

/// What may hold callers up. It promises nothing.
pub trait Gate {
    /// The pass of this number is about to call. `idle` is true where its last call found nothing to do.
    fn before_call(&self, role: u32, idle: bool);

    /// The lane of this number has ended.
    fn lane_ended(&self, role: u32);

    /// Whether all lanes have ended.
    fn closed(&self) -> bool;
}
