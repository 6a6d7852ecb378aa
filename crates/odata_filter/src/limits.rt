//! Bounds of filters and orders.

/// The most bytes of the text of a filter or an order.
pub const MOST_FILTER: usize = 4_096;

/// How deep `not` and `(` nest in a filter at most, both counted together.
pub const MOST_NESTED: u32 = 32;

/// The most members that an order names.
pub const MOST_ORDER_NAMES: usize = 4;
