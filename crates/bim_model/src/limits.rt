//! The bounds that this crate and those above it keep, each in one place. How far coordinates may lie from zero stands beside the points,
//! and the last moment beside the moments.

/// The most bytes of an uploaded file.
pub const MOST_UPLOAD: usize = 33_554_432;

/// The most triangles of a model.
pub const MOST_TRIANGLES: u64 = 1_000_000;

/// The most characters of a model's name, each of one byte. It has at least one.
pub const MOST_NAME: usize = 64;

/// The most clash rules of a project.
pub const MOST_RULES: usize = 200;

/// The greatest distance of a clash rule, in millimetres.
pub const MOST_DISTANCE: u32 = 1_000;

/// The most characters of a class that a clash rule names, each of one byte. It has at least one.
pub const MOST_CLASS: usize = 64;

/// The most bytes of a storey's name that a clash rule names.
pub const MOST_LEVEL: usize = 256;
