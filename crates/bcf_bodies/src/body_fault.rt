//! What may be wrong with bodies.
ghost use Rattle.std.specs.Prelude.{◌≡◌, Err};
ghost use Rattle.bcf_bodies.specs.BodyFaults.{IsReadAs};

use bim_model::Text;
use std::alloc::{AllocError, Global};

/// What is wrong with a body.
#[derive(Debug, PartialEq, Eq, Drop)]
pub enum BodyFault {
    /// B3: a topic's title is absent, no text, empty or longer than 1,024 bytes.
    Title,
    /// B4: this member is missing or isn't what it may be. It is the first such member by its bytes.
    BadMember { name: Text },
    /// B8: a component isn't what it may be, or there are over 1,000.
    BadComponent,
}

/// Why a body is not read.
#[derive(Debug, PartialEq, Eq, Drop)]
pub enum BodyError {
    Fault(BodyFault),
    Memory,
}

impl From<AllocError> for BodyError {
    ghost from_gives = { λ _ e. e ≡ Memory };

    ghost use Rattle.std.specs.Prelude.{◌≡◌};
    ghost use Rattle.bcf_bodies.specs.declared.body_fault.BodyError.TheVariants.{Memory};

    fn from(_: AllocError) -> BodyError {
        BodyError::Memory
    }
}

/// The refusal of a body for the member of that name.
pub fn refuse<T>(alloc: Global, name: &str) -> Result<T, BodyError>
    ensures { IsReadAs result (Err (BodyFault.BadMember name.now)) }
{
    match Text::of(alloc, name) {
        Ok(name) => Err(BodyError::Fault(BodyFault::BadMember { name })),
        Err(_) => Err(BodyError::Memory),
    }
}
