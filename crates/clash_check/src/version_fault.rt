//! Versions that are too large.

use std::alloc::AllocError;

/// The most elements of a version whose clashes are looked for.
pub const MOST_VERSION_ELEMENTS: u64 = 100_000;

/// Why the clashes of a version are not looked for.
#[derive(Clone, Copy, Debug, PartialEq, Eq)]
pub enum VersionFault {
    /// K7: it has so many elements, more than 100,000.
    ElementsFull { count: u64 },
    /// K8: its grid has so many pairs of a cell and a member, more than 2,000,000.
    TooSpread { count: u64 },
}

/// Why there are no clashes of a version.
#[derive(Clone, Copy, Debug, PartialEq, Eq)]
pub enum VersionError {
    Fault(VersionFault),
    Memory,
}

impl From<AllocError> for VersionError {
    ghost from_gives = { λ _ e. e ≡ Memory };

    ghost use Rattle.std.specs.Prelude.{◌≡◌};
    ghost use Rattle.clash_check.specs.declared.version_fault.VersionError.TheVariants.{Memory};

    fn from(_: AllocError) -> VersionError {
        VersionError::Memory
    }
}
