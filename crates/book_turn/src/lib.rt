//! Turns over an object that threads share: each call is answered at one turn, and all turns stand in one
//! history.
//!
//! [`turn::Turn::new`] takes an object and makes passes to it, one for each caller. A call by a pass draws
//! the next turn, waits until it comes, lets the object answer, and hands on. What a pass has seen is the
//! entries of the history up to the last turn that it took.
//!
//! Nothing is said of time: that a turn comes, when, or that anybody gets on.
#![tactic(auto)]

pub mod call_fault;
pub mod laws;
pub mod limits;
pub mod object;
pub mod pass;
mod plays;
mod rule;
mod tickets;
pub mod turn;
mod wait;
