//! The clashes of a whole version, bucket by bucket.
#![tactic(auto)]

mod version_check;
mod version_fault;

pub use version_check::clashes_of;
pub use version_fault::{MOST_VERSION_ELEMENTS, VersionError, VersionFault};
