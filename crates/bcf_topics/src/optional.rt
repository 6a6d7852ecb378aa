//! What need not be there.
ghost use Rattle.std.specs.Prelude.{◌≡◌, IfOk};

use bim_model::{Duplicate, Text};
use std::alloc::{AllocError, Global};

/// An equal text, or none.
pub fn copy_text(alloc: Global, text: &Option<Text>) -> Result<Option<Text>, AllocError>
    ensures { IfOk result (λ made. made ≡ text.now) }
{
    match text {
        Some(text) => Ok(Some(text.copy(alloc)?)),
        None => Ok(None),
    }
}
