//! Why a stream gives no further entry.
ghost use Rattle.std.specs.Prelude.{◌≡◌};
ghost use Rattle.feed_frames.specs.declared.frame_error.FrameError.TheVariants.{Memory};

use std::alloc::AllocError;

/// Why a stream gives no further entry.
#[derive(Clone, Copy, Debug, PartialEq, Eq)]
pub enum FrameError {
    /// A whole frame spells no entry. It begins at this byte of the stream, from 0, as far as 64 bits hold the place.
    BadFrame { at: u64 },
    Memory,
}

impl From<AllocError> for FrameError {
    ghost from_gives = { λ _ e. e ≡ Memory };

    fn from(_: AllocError) -> FrameError {
        FrameError::Memory
    }
}
