//! The bounds of viewpoints.

/// The most components of a viewpoint, those of its selection, its colorings and its exceptions together.
pub const MOST_COMPONENTS: usize = 1_000;

/// The most bytes of what a component says of the system and the tool that it comes from.
pub const MOST_SOURCE: usize = 64;
