//! The clashes that one bucket owns.
#![tactic(auto)]

mod bucket_work;
mod laws;
mod narrow_phase;
mod pair;
mod room;
mod set;

pub use bucket_work::BucketWork;
pub use laws::{clashes_are_owned, clashes_are_owned_once, found_is_owned, parts_are_clashes};
pub use narrow_phase::check;
pub use pair::SetPair;
pub use room::Room;
pub use set::BucketSet;
