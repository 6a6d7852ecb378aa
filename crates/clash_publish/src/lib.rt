//! The clashes of whole versions, and those that a session keeps.
#![tactic(auto)]

mod entry;
mod horizon;
mod laws;
mod merge;
mod pair_rows;
mod published;
mod shelf;

pub use horizon::{Horizon, LIVE_VERSIONS};
pub use laws::{clashes_are_listed, clashes_are_listed_by_keys};
pub use published::Published;
pub use shelf::Shelf;
