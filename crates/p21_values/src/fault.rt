//! Why reading stops.
use bim_model::{BuildError, UploadFault};
use std::alloc::{AllocError, AllocFailed};

/// Why bytes aren't read. Places count bytes from the first one.
#[derive(Clone, Copy, Debug)]
pub enum ReadFault {
    /// The file can't go on at `at`, and neither a blank, a whole comment nor a token begins there.
    BadToken { at: u64 },
    /// The file can't go on at `at`: the token there can't stand there, or the bytes end there too early.
    BadStatement { at: u64 },
    /// Memory is wanting.
    Memory,
}

impl From<AllocError> for ReadFault {
    ghost use Rattle.std.specs.Prelude.{◌≡◌};
    ghost use Rattle.p21_values.specs.declared.fault.ReadFault.TheVariants.{Memory};

    ghost from_gives = { λ _ fault. fault ≡ Memory };

    fn from(_error: AllocError) -> ReadFault {
        ReadFault::Memory
    }
}

impl<T: Drop> From<AllocFailed<T>> for ReadFault {
    ghost use Rattle.std.specs.Prelude.{◌≡◌};
    ghost use Rattle.p21_values.specs.declared.fault.ReadFault.TheVariants.{Memory};

    ghost from_gives = { λ _ fault. fault ≡ Memory };

    fn from(_error: AllocFailed<T>) -> ReadFault {
        ReadFault::Memory
    }
}

impl From<ReadFault> for BuildError {
    ghost use Rattle.std.specs.Prelude.{◌≡◌};
    ghost use Rattle.p21_values.specs.TokenPieces.{error_of};

    ghost from_gives = { λ fault error. error ≡ error_of fault };

    fn from(fault: ReadFault) -> BuildError {
        match fault {
            ReadFault::BadToken { at } => BuildError::Fault(UploadFault::BadToken { at }),
            ReadFault::BadStatement { at } => BuildError::Fault(UploadFault::BadStatement { at }),
            ReadFault::Memory => BuildError::Memory,
        }
    }
}
