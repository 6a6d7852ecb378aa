//! Bounds of spellings.

/// The greatest number that an instance name may have: 2^63 - 1.
pub const GREATEST_NAME: u64 = 9_223_372_036_854_775_807;
