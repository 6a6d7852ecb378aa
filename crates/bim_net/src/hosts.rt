//! Hosts: where doors, clocks and gates come from.
ghost use Rattle.std.specs.Prelude.{◌≡◌, Some, IfOk, IfSome, vec_len, map};
ghost use Rattle.bim_net.specs.ConnectionViews.{IsEmpty};
ghost use Rattle.bim_net.specs.Hosts.{HostSeen, AreNew, Opens, Closes};

use crate::connections::{Door, Gate};
use bim_io::Clock;
use bim_model::Text;
use std::alloc::Global;

/// Doors that were opened: at which address, and how many.
#[derive(Drop)]
pub struct Opening {
    pub addr: Text,
    pub doors: u32,
}

/// Why a host opened no doors.
#[derive(Clone, Copy, Debug, PartialEq, Eq)]
pub enum HostFault {
    /// The host's count of faults rose.
    Failed,
    /// Memory was wanting.
    Memory,
}

/// Where the doors, the clocks and the gate of a server come from.
pub trait Host {
    type D: Door + Drop;

    type C: Clock + Drop;

    type G: Gate + Drop;

    /// Whether its doors tell what was given back, how it opened doors and how they were handed back, the one moment of its clocks, and how often it has failed.
    ghost seen: { Self → HostSeen };

    /// Opens so many doors at an address, numbered from 0.
    fn open_doors(&mut self, alloc: Global, addr: &Text, n: u32) -> Result<Vec<Self::D>, HostFault>
        ensures count { IfOk result (λ doors. vec_len doors ≡ n) }
        ensures new { IfOk result (λ doors. AreNew (seen self.old).tells 0 (map Self.D.seen doors.items)) }
        ensures host { Opens (record { addr = addr.now; doors = n }) (seen self.old) result (seen self.new) };

    /// Takes doors back whose lanes have ended, and closes them.
    fn close_doors(&mut self, doors: Vec<Self::D>)
        ensures host { Closes (map Self.D.seen doors.items) (seen self.old) (seen self.new) };

    /// A clock, which gives the one moment where the host has one.
    fn clock(&mut self) -> Self::C
        ensures moment { IfSome (seen self.old).moment (λ moment. (Self.C.seen result).one ≡ Some moment) }
        ensures none { IsEmpty (Self.C.seen result).gave }
        ensures host { seen self.new ≡ seen self.old };

    /// The gate of so many lanes.
    fn gate(&mut self, lanes: u32) -> Self::G
        ensures host { seen self.new ≡ seen self.old };
}
