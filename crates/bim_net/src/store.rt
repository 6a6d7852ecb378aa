//! The connections of a door in memory.
ghost use Rattle.std.specs.Prelude.{◌≡◌, IfOk, IfSome, option_map};
ghost use Rattle.bim_net.specs.ConnectionViews.{IsFresh, link_seen, ended_link};
ghost use Rattle.bim_net.specs.Doors.{TakesBack};
ghost use Rattle.bim_net.specs.Stores.{GivesNext, new_store, numbered, door_of};

use crate::connections::Link;
use crate::ends::LinkEnd;
use bim_io::{Sink, Source};
use std::alloc::{AllocError, Global};
use std::collections::VecDeque;
use std::marker::Model;

/// A connection on which no call was made yet.
#[derive(Drop)]
pub struct FreshLink<S: Source + Drop, K: Sink + Drop> {
    link: Link<S, K>,
}

impl<S: Source + Drop, K: Sink + Drop> Model for FreshLink<S, K> {
    ghost use Rattle.bim_net.specs.ConnectionViews.{LinkSeen, IsFresh, link_seen};

    ghost Value = { LinkSeen };

    ghost view = { λ f. link_seen (S.seen f.link.source) (K.seen f.link.sink) };

    ghost invariant = { λ f. IsFresh (link_seen (S.seen f.link.source) (K.seen f.link.sink)) };
}

impl<S: Source + Drop, K: Sink + Drop> FreshLink<S, K> {
    /// The connection over these, on which no call was made yet.
    pub fn new(source: S, sink: K) -> FreshLink<S, K>
        requires { IsFresh (link_seen (S.seen source) (K.seen sink)) }
        ensures { result ≡ link_seen (S.seen source) (K.seen sink) }
    {
        FreshLink {
            link: Link { source, sink },
        }
    }

    pub(crate) fn into_link(self) -> Link<S, K>
        ensures link { link_seen (S.seen result.source) (K.seen result.sink) ≡ self }
        ensures fresh { IsFresh self }
    {
        self.link
    }
}

/// A connection that was given back, with the end of its session.
#[derive(Drop)]
pub struct GivenBack<S: Source + Drop, K: Sink + Drop> {
    link: Link<S, K>,
    end: LinkEnd,
}

impl<S: Source + Drop, K: Sink + Drop> Model for GivenBack<S, K> {
    ghost use Rattle.bim_net.specs.ConnectionViews.{EndedLink, link_seen, ended_link};

    ghost Value = { EndedLink };

    ghost view = { λ g. ended_link (link_seen (S.seen g.link.source) (K.seen g.link.sink)) g.end };
}

impl<S: Source + Drop, K: Sink + Drop> GivenBack<S, K> {
    /// The connection, lent.
    pub fn link(&self) -> &Link<S, K>
        ensures { link_seen (S.seen result.now.source) (K.seen result.now.sink) ≡ self.now.link }
    {
        &self.link
    }

    /// How its session ended.
    pub fn end(&self) -> LinkEnd
        ensures { result ≡ self.now.end }
    {
        self.end
    }
}

/// The connections that a door has still to give, and those that were given back.
#[derive(Drop)]
pub(crate) struct Store<S: Source + Drop, K: Sink + Drop> {
    number: u32,
    waiting: VecDeque<FreshLink<S, K>>,
    ended: Vec<GivenBack<S, K>>,
    tells: bool,
    gave: u64,
    closed: bool,
}

impl<S: Source + Drop, K: Sink + Drop> Model for Store<S, K> {
    ghost use Rattle.std.specs.Prelude.{◌+◌, ◌≤◌, vec_capacity};
    ghost use Rattle.std.specs.VecDeque.{deque_len};
    ghost use Rattle.bim_net.specs.ConnectionViews.{told};
    ghost use Rattle.bim_net.specs.Stores.{StoreState};

    ghost Value = { StoreState };

    ghost view = { λ s. record {
      number = s.number;
      waiting = s.waiting.items;
      ended = told s.tells s.ended.items;
      gave = s.gave;
      closed = s.closed;
    } };

    ghost invariant = { λ s. s.gave + deque_len s.waiting ≤ vec_capacity s.ended };
}

impl<S: Source + Drop, K: Sink + Drop> Store<S, K> {
    /// These connections, in their order, with room for all to be given back.
    pub(crate) fn new(
        alloc: Global,
        waiting: Vec<FreshLink<S, K>>,
    ) -> Result<Store<S, K>, AllocError>
        ensures { IfOk result (λ s. s ≡ new_store waiting.items) }
    {
        let ended = Vec::with_capacity(alloc, waiting.len())?;
        Ok(Store {
            number: 0,
            waiting: VecDeque::from_vec(waiting),
            ended,
            tells: true,
            gave: 0,
            closed: false,
        })
    }

    /// The number of its door.
    pub(crate) fn set_number(&mut self, number: u32)
        ensures { self.new ≡ numbered number self.old }
    {
        self.number = number;
    }

    /// Takes the next connection. Where there is none, the door is closed.
    pub(crate) fn next(&mut self) -> Option<Link<S, K>>
        ensures fresh { IfSome result (λ l. IsFresh (link_seen (S.seen l.source) (K.seen l.sink))) }
        ensures next { GivesNext self.old
            (option_map (λ l. link_seen (S.seen l.source) (K.seen l.sink)) result) self.new }
    {
        match self.waiting.pop_front() {
            Some(fresh) => {
                self.gave += 1;
                Some(fresh.into_link())
            }
            None => {
                self.closed = true;
                None
            }
        }
    }

    /// Keeps a connection that is given back.
    pub(crate) fn keep(&mut self, link: Link<S, K>, end: LinkEnd)
        ensures back { TakesBack (ended_link (link_seen (S.seen link.source) (K.seen link.sink)) end)
            (door_of self.old 0) (door_of self.new 0) }
        ensures waiting { self.new.waiting ≡ self.old.waiting }
    {
        if self.ended.push(GivenBack { link, end }).is_err() {
            self.tells = false;
        }
    }

    /// Those that were given back, oldest first.
    pub(crate) fn ended(&self) -> &[GivenBack<S, K>]
        ensures { IfSome self.now.ended (λ ended. result.now ≡ ended) }
    {
        self.ended.as_slice()
    }
}
