//! Values that are kept and told.
ghost use Rattle.std.specs.Prelude.{◌≡◌, IfOk};

use bim_model::Duplicate;
use std::alloc::{AllocError, Global};

/// Two values that are equal to this one.
pub(crate) fn two_of<T: Duplicate + Drop>(alloc: Global, value: &T) -> Result<(T, T), AllocError>
    ensures first { IfOk result (λ two. two.0 ≡ value.now) }
    ensures second { IfOk result (λ two. two.1 ≡ value.now) }
{
    let first = value.copy(alloc)?;
    let second = value.copy(alloc)?;
    Ok((first, second))
}
