//! Connections, doors and a host over sockets, and the clock and the gate of a server that runs.
#![tactic(auto)]

mod doors;
mod gate;
mod host;
mod socket_ends;
mod told_socket;

pub use doors::{SILENCE, TcpDoor, TcpLink};
pub use gate::IdleGate;
pub use host::NetHost;
pub use socket_ends::{TcpSink, TcpSource};
