//! Bounds of the numbers that are read.

/// The most digits of a number, without the zeros in front and behind.
pub const MOST_DIGITS: u32 = 34;

/// The greatest power of ten that a spelled exponent may name, of either sign.
pub const MOST_EXPONENT: u32 = 400;
