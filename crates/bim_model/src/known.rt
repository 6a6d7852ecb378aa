//! A statement that is there for the prover alone.

/// Does nothing with a value. It is called where a proof needs what the call that made the value promises, as
/// `know(grid.boxes())` for how many boxes a grid has, or that a value behind a reference is in its type's range.
#[inline(always)]
pub fn know<T: Copy>(_value: T) {}
