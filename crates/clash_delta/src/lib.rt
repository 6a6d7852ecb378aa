//! Which buckets of a version are checked: those that were done in the version before and did not change are done
//! from the start.
#![tactic(auto)]

mod carrying;
mod equal_rules;
mod former_numbers;
mod progress;
mod same;
mod slot;

pub use carrying::carry;
pub use progress::{Progress, PutAnswer};
