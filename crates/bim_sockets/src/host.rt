//! A host over sockets.
ghost use Rattle.std.specs.Prelude.{◌≡◌, [], true, None, Some, IfOk, IfSome, OnErr, vec_len, map};
ghost use Rattle.bim_net.specs.Hosts.{AreNew, Closes, some_failed};
ghost use Rattle.bim_sockets.specs.Sockets.{door_seen, host_seen};

use crate::doors::TcpDoor;
use crate::gate::IdleGate;
use bim_io::SystemClock;
use bim_model::{Duplicate, Text};
use bim_net::{Host, HostFault, Opening};
use std::alloc::{AllocError, Global};
use std::io::Result as IoResult;
use std::marker::Model;
use std::net::{Net, TcpListener, TcpStream};
use std::rt::Clock;

/// A host over the system's sockets. All its doors share one listening socket.
#[derive(Drop)]
pub struct NetHost<R: Net<Listener = TcpListener, Stream = TcpStream> + Clock + Copy + Drop> {
    handle: R,
    opened: Option<Opening>,
    openings: u64,
    closings: u64,
    handed: Vec<TcpDoor>,
    faults: u64,
}

impl<R: Net<Listener = TcpListener, Stream = TcpStream> + Clock + Copy + Drop> Model
    for NetHost<R> {
    ghost use Rattle.bim_sockets.specs.Sockets.{NetHostState};

    ghost Value = { NetHostState };

    ghost view = { λ h. record {
      openings = h.openings;
      opened = h.opened;
      closings = h.closings;
      doors = h.handed.items;
      faults = h.faults;
    } };
}

// Doors over the listening socket, numbered from 0; the error says whether a handle of it was refused.
fn doors_of(alloc: Global, listener: TcpListener, n: u32) -> Result<Vec<TcpDoor>, HostFault>
    ensures count { IfOk result (λ doors. vec_len doors ≡ n) }
    ensures new { IfOk result (λ doors. AreNew true 0 (map door_seen doors.items)) }
{
    let mut doors = Vec::new(alloc);
    for number in 0..n {
        let Ok(own) = listener.try_clone() else {
            return Err(HostFault::Failed);
        };
        let Ok(()) = doors.push(TcpDoor::new(own, number)) else {
            return Err(HostFault::Memory);
        };
    }
    Ok(doors)
}

// Whether one of the doors has failed.
fn some_failed(doors: &[TcpDoor]) -> bool
    ensures { result ≡ some_failed (map door_seen doors.now) }
{
    doors.iter().any(|door| door.has_failed())
}

fn shut_all(doors: &mut [TcpDoor])
    ensures { doors.new ≡ doors.old }
{
    for door in doors.iter_mut() {
        door.shut();
    }
}

impl<R: Net<Listener = TcpListener, Stream = TcpStream> + Clock + Copy + Drop> NetHost<R> {
    /// A host that has opened no doors.
    pub fn new(alloc: Global, handle: R) -> NetHost<R>
        ensures { result ≡ record { openings = 0; opened = None; closings = 0; doors = []; faults = 0 } }
    {
        NetHost {
            handle,
            opened: None,
            openings: 0,
            closings: 0,
            handed: Vec::new(alloc),
            faults: 0,
        }
    }
}

impl<R: Net<Listener = TcpListener, Stream = TcpStream> + Clock + Copy + Drop> Host for NetHost<R> {
    type D = TcpDoor;

    type C = SystemClock<R>;

    type G = IdleGate<R>;

    ghost seen = { host_seen };

    fn open_doors(
        &mut self,
        alloc: Global,
        addr: &Text,
        n: u32,
    ) -> Result<Vec<TcpDoor>, HostFault> {
        let Ok(kept) = addr.copy(alloc) else {
            return Err(HostFault::Memory);
        };
        let opened = match TcpListener::bind(&self.handle, addr.as_str()) {
            Ok(listener) => doors_of(alloc, listener, n),
            Err(_) => Err(HostFault::Failed),
        };
        match opened {
            Ok(doors) => {
                self.openings = self.openings.saturating_add(1);
                self.opened = Some(Opening {
                    addr: kept,
                    doors: n,
                });
                Ok(doors)
            }
            Err(HostFault::Failed) => {
                self.faults = self.faults.saturating_add(1);
                Err(HostFault::Failed)
            }
            Err(HostFault::Memory) => Err(HostFault::Memory),
        }
    }

    fn close_doors(&mut self, doors: Vec<TcpDoor>)
        ensures host { Closes (map door_seen doors.items) (host_seen self.old) (host_seen self.new) }
    {
        let mut doors = doors;
        let failed = some_failed(doors.as_slice());
        shut_all(doors.as_mut_slice());
        self.closings = self.closings.saturating_add(1);
        self.handed = doors;
        if failed {
            self.faults = self.faults.saturating_add(1);
        }
    }

    fn clock(&mut self) -> SystemClock<R> {
        SystemClock::new(self.handle)
    }

    fn gate(&mut self, lanes: u32) -> IdleGate<R> {
        IdleGate::new(self.handle, lanes)
    }
}
