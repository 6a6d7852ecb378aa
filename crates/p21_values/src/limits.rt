//! Bounds of the files that are read.

/// The most instances of a file.
pub const MOST_INSTANCES: usize = 1_000_000;

/// The most values that these may have, lists and typed values counting one each beside what they hold.
pub const MOST_VALUES: u64 = 8_000_000;

/// How deep the parentheses of an instance may nest.
pub const MOST_DEPTH: u32 = 32;
