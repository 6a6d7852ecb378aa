//! Pairs of elements.

/// Two elements that clash, the one of the lower key first, and the number of their rule in the list, from 0.
/// In a set of clashes of a version the elements stand by their numbers, in that of a bucket by their places
/// among its members.
#[derive(Clone, Copy, Debug, PartialEq, Eq, PartialOrd, Ord)]
pub struct SetPair {
    pub a: u32,
    pub b: u32,
    pub rule: u32,
}
