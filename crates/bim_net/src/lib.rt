//! Connections, where they come from and go back to, and who is held up before a call.
#![tactic(auto)]

mod connections;
mod ends;
mod gates;
mod hall;
mod hosts;
mod memory_doors;
mod memory_hosts;
mod store;

pub use connections::{Door, Gate, Link};
pub use ends::{EndKind, LinkEnd};
pub use gates::{FreeGate, Hold, HoldCount, HoldGate};
pub use hosts::{Host, HostFault, Opening};
pub use memory_doors::{MemDoor, MemLink, SureDoor, SureLink, mem_link, sure_link};
pub use memory_hosts::{HoldHost, MemHost, SureHost};
pub use store::{FreshLink, GivenBack};
