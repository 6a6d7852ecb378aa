//! The doors of a host in memory.
ghost use Rattle.std.specs.Prelude.{◌≡◌, true, [], Some, None, IfOk, nat_lt, vec_len, map, All, OnErr};
ghost use Rattle.bim_io.specs.Causes.{counted};
ghost use Rattle.bim_net.specs.ConnectionViews.{IsNew};
ghost use Rattle.bim_net.specs.Hosts.{AreNew, some_failed};
ghost use Rattle.bim_net.specs.Halls.{HallState, new_hall};

use crate::connections::Door;
use crate::hosts::Opening;
use bim_model::{Duplicate, Text};
use std::alloc::{AllocError, Global};
use std::collections::VecDeque;
use std::marker::Model;

/// A door of a host in memory.
pub(crate) trait StoredDoor: Door {
    /// The door gets a number.
    fn set_number(&mut self, number: u32)
        ensures { Self.seen self.new ≡ record (Self.seen self.old) { number = number } };

    /// Whether an accept has failed.
    fn has_failed(&self) -> bool
        ensures { result ≡ nat_lt 0 (Self.seen self.now).faults };

    /// A door without connections.
    fn without_links(alloc: Global) -> Result<Self, AllocError>
        ensures { IfOk result (λ d. IsNew true 0 (Self.seen d)) };
}

/// The doors that are still to be opened, and those that were handed back.
#[derive(Drop)]
pub(crate) struct Hall<D: StoredDoor + Drop> {
    waiting: VecDeque<D>,
    handed: Vec<D>,
    opened: Option<Opening>,
    openings: u64,
    closings: u64,
}

impl<D: StoredDoor + Drop> Model for Hall<D> {
    ghost use Rattle.std.specs.Prelude.{All, true};
    ghost use Rattle.bim_net.specs.ConnectionViews.{IsNew};
    ghost use Rattle.bim_net.specs.Halls.{HallState};

    ghost Value = { HallState D };

    ghost view = { λ h. record {
      openings = h.openings;
      opened = h.opened;
      closings = h.closings;
      doors = h.handed.items;
    } };

    ghost invariant = { λ h. All (λ d. IsNew true 0 (D.seen d)) h.waiting.items };
}

// Whether one of the doors has failed.
fn some_failed<D: StoredDoor + Drop>(doors: &[D]) -> bool
    ensures { result ≡ some_failed (map D.seen doors.now) }
{
    doors.iter().any(|door| door.has_failed())
}

impl<D: StoredDoor + Drop> Hall<D> {
    /// These doors are to be opened.
    pub(crate) fn new(alloc: Global, doors: Vec<D>) -> Hall<D>
        requires { All (λ d. IsNew true 0 (D.seen d)) doors.items }
        ensures { result ≡ new_hall }
    {
        Hall {
            waiting: VecDeque::from_vec(doors),
            handed: Vec::new(alloc),
            opened: None,
            openings: 0,
            closings: 0,
        }
    }

    // The next door to be opened, of this number; one without connections where there is none.
    fn next_door(&mut self, alloc: Global, number: u32) -> Result<D, AllocError>
        ensures new { IfOk result (λ d. IsNew true number (D.seen d)) }
        ensures same { self.new ≡ self.old }
    {
        let mut door = match self.waiting.pop_front() {
            Some(door) => door,
            None => D::without_links(alloc)?,
        };
        door.set_number(number);
        Ok(door)
    }

    // The next n doors.
    fn next_doors(&mut self, alloc: Global, n: u32) -> Result<Vec<D>, AllocError>
        ensures count { IfOk result (λ doors. vec_len doors ≡ n) }
        ensures new { IfOk result (λ doors. AreNew true 0 (map D.seen doors.items)) }
        ensures same { self.new ≡ self.old }
    {
        let mut doors = Vec::new(alloc);
        for number in 0..n {
            doors.push(self.next_door(alloc, number)?)?;
        }
        Ok(doors)
    }

    /// Opens n doors at the address. An `Err` tells nothing of it.
    pub(crate) fn open(&mut self, alloc: Global, addr: &Text, n: u32) -> Result<Vec<D>, AllocError>
        ensures count { IfOk result (λ doors. vec_len doors ≡ n) }
        ensures new { IfOk result (λ doors. AreNew true 0 (map D.seen doors.items)) }
        ensures ok { IfOk result (λ doors. self.new ≡ record self.old {
          openings = counted self.old.openings;
          opened = Some (record { addr = addr.now; doors = n });
        }) }
        ensures err { OnErr result (self.new ≡ self.old) }
    {
        let addr = addr.copy(alloc)?;
        let doors = self.next_doors(alloc, n)?;
        self.openings = self.openings.saturating_add(1);
        self.opened = Some(Opening { addr, doors: n });
        Ok(doors)
    }

    /// Takes doors back, and says whether one of them has failed.
    pub(crate) fn close(&mut self, doors: Vec<D>) -> bool
        ensures failed { result ≡ some_failed (map D.seen doors.items) }
        ensures closed { self.new ≡ record self.old {
          closings = counted self.old.closings;
          doors = doors.items;
        } }
    {
        let failed = some_failed(doors.as_slice());
        self.closings = self.closings.saturating_add(1);
        self.handed = doors;
        failed
    }

    /// The doors that were handed back last.
    pub(crate) fn doors(&self) -> &[D]
        ensures { result.now ≡ self.now.doors }
    {
        self.handed.as_slice()
    }
}
