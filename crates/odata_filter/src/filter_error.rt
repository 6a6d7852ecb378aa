//! Why a filter or an order can't be read.
use std::alloc::AllocError;

/// Why a filter or an order can't be read.
#[derive(Clone, Copy, Debug, PartialEq, Eq)]
pub enum FilterError {
    /// The text goes on at this place, in bytes from 0, as no filter or order does: it is the start of the first token
    /// that can't come there, or of a byte without a token; the text's length if it ends too early; or 4,096 if it is
    /// longer than that.
    Bad { at: u64 },
    Memory,
}

impl From<AllocError> for FilterError {
    ghost from_gives = { λ _ e. e ≡ Memory };

    ghost use Rattle.std.specs.Prelude.{◌≡◌};
    ghost use Rattle.odata_filter.specs.declared.filter_error.FilterError.TheVariants.{Memory};

    fn from(_: AllocError) -> FilterError {
        FilterError::Memory
    }
}
