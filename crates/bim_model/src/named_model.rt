//! Models under their names.
ghost use Rattle.std.specs.Prelude.{◌≡◌, IfOk};

use crate::model::Model;
use crate::shared::Shared;
use crate::text::Text;
use std::alloc::{AllocError, Global};

/// A model under its name.
#[derive(Drop)]
pub struct NamedModel {
    /// 1 to 64 characters of `A-Za-z0-9_.-`.
    pub name: Text,
    pub model: Shared<Model>,
}

impl NamedModel {
    /// A second owner of the same model, under the same name.
    pub fn share(&self, alloc: Global) -> Result<NamedModel, AllocError>
        ensures { IfOk result (λ made. made ≡ self.now) }
    {
        Ok(NamedModel {
            name: Text::of(alloc, self.name.as_str())?,
            model: self.model.share()?,
        })
    }
}
