//! Loops of a face with voids, joined to one list of corners by bridges.
#![tactic(auto)]

mod barriers;
mod blockers;
mod bridges;
mod collisions;
mod hole_loops;
mod joining;
mod tried;

pub use hole_loops::MOST_LOOP_CORNERS;
pub use joining::{BridgeError, join_loops};
