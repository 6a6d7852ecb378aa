//! The rows of the tables.

/// The serial numbers of the topics that are listed, or the place where a text is refused, in bytes.
pub type Wanted = Result<&'static [u64], u64>;

/// A text, and what it makes of the sample topics.
pub type Row = (&'static str, Wanted);

/// A text by its beginning, what is repeated, how often, and its end, and what it makes of the sample topics.
pub type LongRow = (&'static str, &'static str, usize, &'static str, Wanted);

/// A filter, an order, how many are left out, how many are listed at most, and the serial numbers that are listed.
pub type ListingRow = (
    Option<&'static str>,
    Option<&'static str>,
    u64,
    Option<u64>,
    &'static [u64],
);
