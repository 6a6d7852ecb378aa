//! Bounds of the requests that are read. That of a model is `bim_model::MOST_UPLOAD`.

/// The most bytes of a head with the empty line that ends it, and of trailers.
pub const MOST_HEAD: usize = 16_384;

/// The most fields of a head, and of trailers.
pub const MOST_FIELDS: usize = 64;

/// The most bytes of a body that is no model.
pub const MOST_BODY: usize = 4_194_304;

/// The most bytes of a user's name.
pub const MOST_USER: usize = 128;

/// The most digits of a turn that a request gives.
pub const MOST_TURN_DIGITS: usize = 15;

/// The greatest turn that so many digits write.
pub const MOST_TURN: usize = 999_999_999_999_999;
