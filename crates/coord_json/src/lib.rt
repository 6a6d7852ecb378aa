//! What the coordination routes answer, as JSON: versions, changes and clashes.
#![tactic(auto)]

mod clash_values;
mod rule_values;
mod versions;

pub use clash_values::{clashes_out, pending_out};
pub use versions::{changed_out, version_out};
