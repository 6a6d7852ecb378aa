//! Lanes: each serves connection after connection of its door by one pass of the book. Workers beside them check buckets.
#![tactic(auto)]

mod lane;
mod lanes;

pub use lane::{LaneEnd, serve_lane};
pub use lanes::{Lane, Seats, Served, Serving, run_lanes};
