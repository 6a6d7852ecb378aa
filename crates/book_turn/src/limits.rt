//! How many passes share a turn, and how many turns each may take.

/// The most passes of a turn.
pub const MOST_PASSES: u32 = 64;

/// The most turns that a pass takes. With at most `MOST_PASSES` passes, no count of turns ever wraps.
pub const MOST_TURNS: u64 = 1 << 40;
