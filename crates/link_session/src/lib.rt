//! One session over one source and one sink, by whoever calls the book for it: alone, or by a pass of a book that threads
//! share.
#![tactic(auto)]

mod by_turn;
mod caller;
mod link;
mod session;

pub use by_turn::ByTurn;
pub use caller::Caller;
pub use link::serve_link;
pub use session::{AfterStep, run_session};
