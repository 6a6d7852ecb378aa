//! Why a check finds nothing.

use crate::rules_file::RulesFault;
use bim_model::{Text, UploadFault};
use clash_check::VersionFault;
use std::alloc::AllocError;

/// Why a check is refused.
#[derive(Drop)]
pub enum Refusal {
    Rules(RulesFault),
    /// The file of the model of that name is refused.
    Model { name: Text, fault: UploadFault },
    Version(VersionFault),
}

/// Why a check finds nothing.
#[derive(Drop)]
pub enum JudgeError {
    Refused(Refusal),
    /// A file can't be opened or read.
    File,
    Memory,
}

impl From<AllocError> for JudgeError {
    ghost from_gives = { λ _ e. e ≡ Memory };

    ghost use Rattle.std.specs.Prelude.{◌≡◌};
    ghost use Rattle.batch_commands.specs.declared.refusal.JudgeError.TheVariants.{Memory};

    fn from(_: AllocError) -> JudgeError {
        JudgeError::Memory
    }
}
