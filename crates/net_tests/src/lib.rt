//! Tests of connections, doors, gates and hosts: in memory and over sockets.
#![tactic(auto)]

#[cfg(test)]
mod memory_tests;
#[cfg(test)]
mod socket_tests;
