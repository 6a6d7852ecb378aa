//! Doors in memory: one whose accepts fail where its list says so, and one that never fails.
ghost use Rattle.std.specs.Prelude.{◌≡◌, ◌≤◌, ◌↔◌, [], false, Some, IfOk, IfSome, IsErr, IsOk, Contains, option_map};
ghost use Rattle.bim_io.specs.Causes.{counted};
ghost use Rattle.bim_net.specs.ConnectionViews.{IsFresh, ended_link};
ghost use Rattle.bim_net.specs.Doors.{Accepts, TakesBack};
ghost use Rattle.bim_net.specs.Stores.{GivesNext, new_store, numbered, door_of, link_of, mem_seen, sure_seen};

use crate::connections::{Door, Link};
use crate::ends::LinkEnd;
use crate::hall::StoredDoor;
use crate::store::{FreshLink, GivenBack, Store};
use bim_io::{Failed, MemSink, MemSource, SureSink, SureSource};
use bim_model::{Bytes, Items};
use std::alloc::{AllocError, Global};
use std::marker::Model;

/// A connection in memory, whose reads and writes fail where its lists say so.
pub type MemLink = Link<MemSource, MemSink>;

/// A connection in memory that never fails.
pub type SureLink = Link<SureSource, SureSink>;

/// A connection that gives these contents, of which one call moves at most `most` bytes. The reads and the writes of the
/// numbers in the lists fail, counted from 1.
pub fn mem_link(
    alloc: Global,
    contents: Bytes,
    most: u64,
    read_fails: Items<u64>,
    write_fails: Items<u64>,
) -> Result<FreshLink<MemSource, MemSink>, AllocError>
    requires { 1 ≤ most }
    ensures { IfOk result (λ link. link ≡ link_of contents most) }
{
    let source = MemSource::new(contents, most, read_fails)?;
    let sink = MemSink::new(alloc, most, write_fails)?;
    Ok(FreshLink::new(source, sink))
}

/// A connection that gives these contents and never fails, of which one call moves at most `most` bytes.
pub fn sure_link(
    alloc: Global,
    contents: Bytes,
    most: u64,
) -> Result<FreshLink<SureSource, SureSink>, AllocError>
    requires { 1 ≤ most }
    ensures { IfOk result (λ link. link ≡ link_of contents most) }
{
    let source = SureSource::new(contents, most)?;
    let sink = SureSink::new(alloc, most)?;
    Ok(FreshLink::new(source, sink))
}

/// A door in memory. Its accepts of the numbers in its list fail, counted from 1. The others give its connections in
/// their order, and then answer that the door is closed.
#[derive(Drop)]
pub struct MemDoor {
    store: Store<MemSource, MemSink>,
    fails: Items<u64>,
    calls: u64,
    faults: u64,
}

impl Model for MemDoor {
    ghost use Rattle.bim_net.specs.Stores.{MemDoorState};

    ghost Value = { MemDoorState };

    ghost view = { λ d. record { store = d.store; fails = d.fails; calls = d.calls; faults = d.faults } };
}

impl MemDoor {
    /// A door with these connections, whose accepts of the numbers in `fails` fail, counted from 1.
    pub fn new(
        alloc: Global,
        links: Vec<FreshLink<MemSource, MemSink>>,
        fails: Items<u64>,
    ) -> Result<MemDoor, AllocError>
        ensures { IfOk result (λ d. d
            ≡ record { store = new_store links.items; fails = fails; calls = 0; faults = 0 }) }
    {
        Ok(MemDoor {
            store: Store::new(alloc, links)?,
            fails,
            calls: 0,
            faults: 0,
        })
    }

    /// The connections that were given back, oldest first, lent.
    pub fn ended(&self) -> &[GivenBack<MemSource, MemSink>]
        ensures { IfSome self.now.store.ended (λ ended. result.now ≡ ended) }
    {
        self.store.ended()
    }
}

impl StoredDoor for MemDoor {
    fn set_number(&mut self, number: u32)
        ensures number { door_of self.new.store self.new.faults
            ≡ record (door_of self.old.store self.old.faults) { number = number } }
        ensures rest { self.new ≡ record self.old { store = numbered number self.old.store } }
    {
        self.store.set_number(number);
    }

    fn has_failed(&self) -> bool {
        self.faults > 0
    }

    fn without_links(alloc: Global) -> Result<MemDoor, AllocError> {
        MemDoor::new(alloc, Vec::new(alloc), Items::new(alloc))
    }
}

impl Door for MemDoor {
    type S = MemSource;

    type K = MemSink;

    ghost seen = { λ d. door_of d.store d.faults };

    fn accept(&mut self) -> Result<Option<MemLink>, Failed>
        ensures fresh { IfOk result (λ given. IfSome given (λ link.
            IsFresh (mem_seen link.source link.sink))) }
        ensures door { Accepts (door_of self.old.store self.old.faults) result
            (door_of self.new.store self.new.faults) }
        ensures fails { IsErr result ↔ Contains self.old.fails (counted self.old.calls) }
        ensures next { IfOk result (λ given. GivesNext self.old.store
            (option_map (λ link. mem_seen link.source link.sink) given) self.new.store) }
        ensures calls { self.new.calls ≡ counted self.old.calls }
        ensures list { self.new.fails ≡ self.old.fails }
    {
        self.calls = self.calls.saturating_add(1);
        if self.fails.as_slice().contains(&self.calls) {
            self.faults = self.faults.saturating_add(1);
            return Err(Failed);
        }
        Ok(self.store.next())
    }

    fn give_back(&mut self, link: MemLink, end: LinkEnd)
        ensures door { TakesBack (ended_link (mem_seen link.source link.sink) end)
            (door_of self.old.store self.old.faults) (door_of self.new.store self.new.faults) }
        ensures waiting { self.new.store.waiting ≡ self.old.store.waiting }
        ensures list { self.new.fails ≡ self.old.fails }
        ensures calls { self.new.calls ≡ self.old.calls }
    {
        self.store.keep(link, end);
    }
}

/// A door in memory that never fails. It gives its connections in their order, and then answers that it is closed.
#[derive(Drop)]
pub struct SureDoor {
    store: Store<SureSource, SureSink>,
}

impl Model for SureDoor {
    ghost use Rattle.bim_net.specs.Stores.{StoreState};

    ghost Value = { StoreState };

    ghost view = { λ d. d.store };
}

impl SureDoor {
    /// A door with these connections.
    pub fn new(
        alloc: Global,
        links: Vec<FreshLink<SureSource, SureSink>>,
    ) -> Result<SureDoor, AllocError>
        ensures { IfOk result (λ d. d ≡ new_store links.items) }
    {
        Ok(SureDoor {
            store: Store::new(alloc, links)?,
        })
    }

    /// The connections that were given back, oldest first, lent.
    pub fn ended(&self) -> &[GivenBack<SureSource, SureSink>]
        ensures { IfSome self.now.ended (λ ended. result.now ≡ ended) }
    {
        self.store.ended()
    }
}

impl StoredDoor for SureDoor {
    fn set_number(&mut self, number: u32)
        ensures number { door_of self.new 0 ≡ record (door_of self.old 0) { number = number } }
        ensures rest { self.new ≡ numbered number self.old }
    {
        self.store.set_number(number);
    }

    fn has_failed(&self) -> bool {
        false
    }

    fn without_links(alloc: Global) -> Result<SureDoor, AllocError> {
        SureDoor::new(alloc, Vec::new(alloc))
    }
}

impl Door for SureDoor {
    type S = SureSource;

    type K = SureSink;

    ghost seen = { λ d. door_of d 0 };

    fn accept(&mut self) -> Result<Option<SureLink>, Failed>
        ensures fresh { IfOk result (λ given. IfSome given (λ link.
            IsFresh (sure_seen link.source link.sink))) }
        ensures door { Accepts (door_of self.old 0) result (door_of self.new 0) }
        ensures ok { IsOk result }
        ensures next { IfOk result (λ given. GivesNext self.old
            (option_map (λ link. sure_seen link.source link.sink) given) self.new) }
    {
        Ok(self.store.next())
    }

    fn give_back(&mut self, link: SureLink, end: LinkEnd)
        ensures door { TakesBack (ended_link (sure_seen link.source link.sink) end)
            (door_of self.old 0) (door_of self.new 0) }
        ensures waiting { self.new.waiting ≡ self.old.waiting }
    {
        self.store.keep(link, end);
    }
}
