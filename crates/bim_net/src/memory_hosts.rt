//! Hosts in memory: one whose openings fail where its list says so, one that never fails, and one with holds.
ghost use Rattle.std.specs.Prelude.{◌≡◌, ◌↔◌, true, Err, Some, IfOk, IfSome, IfErr, IsErr, Contains, vec_len, map, All};
ghost use Rattle.bim_model.specs.Moments.{IsMoment};
ghost use Rattle.bim_io.specs.Causes.{counted};
ghost use Rattle.bim_net.specs.ConnectionViews.{IsNew, IsEmpty};
ghost use Rattle.bim_net.specs.Hosts.{AreNew, Opens, Closes};
ghost use Rattle.bim_net.specs.Stores.{door_of};
ghost use Rattle.bim_net.specs.Halls.{host_of, new_hall};

use crate::gates::{Board, FreeGate, Hold, HoldGate};
use crate::hall::Hall;
use crate::hosts::{Host, HostFault};
use crate::memory_doors::{MemDoor, SureDoor};
use bim_io::MemClock;
use bim_model::{Items, Shared, Text};
use std::alloc::{AllocError, Global};
use std::marker::Model;

/// A host in memory. Its openings of the numbers in its list fail, counted from 1. The others give its doors in their
/// order, and then doors without connections.
#[derive(Drop)]
pub struct MemHost {
    hall: Hall<MemDoor>,
    moment: u64,
    fails: Items<u64>,
    calls: u64,
    faults: u64,
}

impl Model for MemHost {
    ghost use Rattle.bim_model.specs.Moments.{IsMoment};
    ghost use Rattle.bim_net.specs.Halls.{MemHostState};

    ghost Value = { MemHostState };

    ghost view = { λ h. record {
      hall = h.hall;
      moment = h.moment;
      fails = h.fails;
      calls = h.calls;
      faults = h.faults;
    } };

    ghost invariant = { λ h. IsMoment h.moment };
}

impl MemHost {
    /// A host of these doors, on which no call was made yet, whose clocks give this moment, in seconds since 1970, at most
    /// 253,402,207,200.
    pub fn new(alloc: Global, doors: Vec<MemDoor>, moment: u64, fails: Items<u64>) -> MemHost
        requires doors { All (λ d. IsNew true 0 (door_of d.store d.faults)) doors.items }
        requires moment { IsMoment moment }
        ensures { result ≡ record { hall = new_hall; moment = moment; fails = fails; calls = 0; faults = 0 } }
    {
        MemHost {
            hall: Hall::new(alloc, doors),
            moment,
            fails,
            calls: 0,
            faults: 0,
        }
    }

    /// The doors that were handed back, lent.
    pub fn doors(&self) -> &[MemDoor]
        ensures { result.now ≡ self.now.hall.doors }
    {
        self.hall.doors()
    }
}

impl Host for MemHost {
    type D = MemDoor;

    type C = MemClock;

    type G = FreeGate;

    ghost seen = { λ h. host_of (λ d. door_of d.store d.faults) h.hall h.moment h.faults };

    fn open_doors(&mut self, alloc: Global, addr: &Text, n: u32) -> Result<Vec<MemDoor>, HostFault>
        ensures count { IfOk result (λ doors. vec_len doors ≡ n) }
        ensures new { IfOk result (λ doors. AreNew true 0 (map (λ d. door_of d.store d.faults) doors.items)) }
        ensures host { Opens (record { addr = addr.now; doors = n })
            (host_of (λ d. door_of d.store d.faults) self.old.hall self.old.moment self.old.faults) result
            (host_of (λ d. door_of d.store d.faults) self.new.hall self.new.moment self.new.faults) }
        ensures fails { (result ≡ Err HostFault.Failed) ↔ Contains self.old.fails (counted self.old.calls) }
        ensures calls { self.new.calls ≡ counted self.old.calls }
        ensures list { self.new.fails ≡ self.old.fails }
    {
        self.calls = self.calls.saturating_add(1);
        if self.fails.as_slice().contains(&self.calls) {
            self.faults = self.faults.saturating_add(1);
            return Err(HostFault::Failed);
        }
        match self.hall.open(alloc, addr, n) {
            Ok(doors) => Ok(doors),
            Err(_) => Err(HostFault::Memory),
        }
    }

    fn close_doors(&mut self, doors: Vec<MemDoor>)
        ensures host { Closes (map (λ d. door_of d.store d.faults) doors.items)
            (host_of (λ d. door_of d.store d.faults) self.old.hall self.old.moment self.old.faults)
            (host_of (λ d. door_of d.store d.faults) self.new.hall self.new.moment self.new.faults) }
        ensures doors { self.new.hall.doors ≡ doors.items }
        ensures list { self.new.fails ≡ self.old.fails }
        ensures calls { self.new.calls ≡ self.old.calls }
    {
        if self.hall.close(doors) {
            self.faults = self.faults.saturating_add(1);
        }
    }

    fn clock(&mut self) -> MemClock {
        MemClock::new(self.moment)
    }

    fn gate(&mut self, lanes: u32) -> FreeGate {
        FreeGate::new(lanes)
    }
}

/// A host in memory that never fails. It opens its doors in their order, and then doors without connections.
#[derive(Drop)]
pub struct SureHost {
    hall: Hall<SureDoor>,
    moment: u64,
}

impl Model for SureHost {
    ghost use Rattle.bim_model.specs.Moments.{IsMoment};
    ghost use Rattle.bim_net.specs.Halls.{SureHostState};

    ghost Value = { SureHostState };

    ghost view = { λ h. record { hall = h.hall; moment = h.moment } };

    ghost invariant = { λ h. IsMoment h.moment };
}

impl SureHost {
    /// A host of these doors, on which no call was made yet, whose clocks give this moment, in seconds since 1970, at most
    /// 253,402,207,200.
    pub fn new(alloc: Global, doors: Vec<SureDoor>, moment: u64) -> SureHost
        requires doors { All (λ d. IsNew true 0 (door_of d 0)) doors.items }
        requires moment { IsMoment moment }
        ensures { result ≡ record { hall = new_hall; moment = moment } }
    {
        SureHost {
            hall: Hall::new(alloc, doors),
            moment,
        }
    }

    /// The doors that were handed back, lent.
    pub fn doors(&self) -> &[SureDoor]
        ensures { result.now ≡ self.now.hall.doors }
    {
        self.hall.doors()
    }
}

impl Host for SureHost {
    type D = SureDoor;

    type C = MemClock;

    type G = FreeGate;

    ghost seen = { λ h. host_of (λ d. door_of d 0) h.hall h.moment 0 };

    fn open_doors(&mut self, alloc: Global, addr: &Text, n: u32) -> Result<Vec<SureDoor>, HostFault>
        ensures count { IfOk result (λ doors. vec_len doors ≡ n) }
        ensures new { IfOk result (λ doors. AreNew true 0 (map (λ d. door_of d 0) doors.items)) }
        ensures host { Opens (record { addr = addr.now; doors = n })
            (host_of (λ d. door_of d 0) self.old.hall self.old.moment 0) result
            (host_of (λ d. door_of d 0) self.new.hall self.new.moment 0) }
        ensures memory { IfErr result (λ fault. fault ≡ HostFault.Memory) }
    {
        match self.hall.open(alloc, addr, n) {
            Ok(doors) => Ok(doors),
            Err(_) => Err(HostFault::Memory),
        }
    }

    fn close_doors(&mut self, doors: Vec<SureDoor>)
        ensures host { Closes (map (λ d. door_of d 0) doors.items)
            (host_of (λ d. door_of d 0) self.old.hall self.old.moment 0)
            (host_of (λ d. door_of d 0) self.new.hall self.new.moment 0) }
        ensures doors { self.new.hall.doors ≡ doors.items }
    {
        let _failed = self.hall.close(doors);
    }

    fn clock(&mut self) -> MemClock {
        MemClock::new(self.moment)
    }

    fn gate(&mut self, lanes: u32) -> FreeGate {
        FreeGate::new(lanes)
    }
}

/// A host in memory whose gate holds calls as its list says.
#[derive(Drop)]
pub struct HoldHost {
    inner: MemHost,
    board: Shared<Board>,
    gate: Option<Shared<Board>>,
}

impl Model for HoldHost {
    ghost use Rattle.bim_net.specs.Halls.{MemHostState};

    ghost Value = { MemHostState };

    ghost view = { λ h. h.inner };
}

impl HoldHost {
    /// A host of these doors as `MemHost` has them, with holds for its gate.
    pub fn new(
        alloc: Global,
        doors: Vec<MemDoor>,
        moment: u64,
        fails: Items<u64>,
        holds: Items<Hold>,
    ) -> Result<HoldHost, AllocError>
        requires doors { All (λ d. IsNew true 0 (door_of d.store d.faults)) doors.items }
        requires moment { IsMoment moment }
        ensures { IfOk result (λ h. h
            ≡ record { hall = new_hall; moment = moment; fails = fails; calls = 0; faults = 0 }) }
    {
        let board = Shared::new(alloc, Board::new(alloc, holds)?)?;
        let gate = Some(board.share()?);
        Ok(HoldHost {
            inner: MemHost::new(alloc, doors, moment, fails),
            board,
            gate,
        })
    }

    /// The doors that were handed back, lent.
    pub fn doors(&self) -> &[MemDoor]
        ensures { result.now ≡ self.now.hall.doors }
    {
        self.inner.doors()
    }

    /// How many holds ended because their looks ran out.
    pub fn ran_out(&self) -> u64 {
        self.board.get().ran_out()
    }
}

impl Host for HoldHost {
    type D = MemDoor;

    type C = MemClock;

    type G = HoldGate;

    ghost seen = { λ h. host_of (λ d. door_of d.store d.faults) h.hall h.moment h.faults };

    fn open_doors(
        &mut self,
        alloc: Global,
        addr: &Text,
        n: u32,
    ) -> Result<Vec<MemDoor>, HostFault> {
        self.inner.open_doors(alloc, addr, n)
    }

    fn close_doors(&mut self, doors: Vec<MemDoor>)
        ensures host { Closes (map (λ d. door_of d.store d.faults) doors.items)
            (host_of (λ d. door_of d.store d.faults) self.old.hall self.old.moment self.old.faults)
            (host_of (λ d. door_of d.store d.faults) self.new.hall self.new.moment self.new.faults) }
        ensures doors { self.new.hall.doors ≡ doors.items }
    {
        self.inner.close_doors(doors);
    }

    fn clock(&mut self) -> MemClock {
        self.inner.clock()
    }

    /// The gate with the holds. One asked for again holds nobody.
    fn gate(&mut self, lanes: u32) -> HoldGate {
        HoldGate::new(lanes, self.gate.take())
    }
}
