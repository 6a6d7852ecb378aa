//! Lists that contracts see. They take no memory, and nothing of them is there when the program runs.
//!
//! A contract may say of a socket only what its calls returned. An object that adds to such a list what a call
//! returned, in the one place that makes the call, tells all its callers what came and what went.
#![tactic(auto)]

mod ghost_bytes;
mod ghost_list;

pub use ghost_bytes::GhostBytes;
pub use ghost_list::GhostList;
