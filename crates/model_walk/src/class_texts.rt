//! The classes of elements.
ghost use Rattle.std.specs.Prelude.{◌≡◌, Some, IfOk, IfSome};
ghost use Rattle.ifc_keywords.specs.Codes.{code_at};

use bim_model::{Duplicate, Text};
use ifc_keywords::known_word;
use p21_table::InstanceRef;
use std::alloc::{AllocError, Global};
use std::marker::Model;

/// The class that was last told, to be copied for an element of the same. Most often elements of a class follow one another. Contracts see it
/// as the class.
#[derive(Drop)]
pub struct LastClass {
    code: u8,
    class: Option<Text>,
}

impl Model for LastClass {
    ghost use Rattle.std.specs.Prelude.{ℕ, List, Option, IfSome};
    ghost use Rattle.model_walk.specs.SketchLists.{IsWordOf};

    ghost Value = { Option (List ℕ) };

    ghost view = { λ l. l.class };

    ghost invariant = { λ l. IfSome l.class (IsWordOf l.code) };
}

impl LastClass {
    /// None was told yet.
    pub fn new() -> LastClass {
        LastClass {
            code: 255,
            class: None,
        }
    }

    /// The class of an instance; none of a complex instance.
    #[inline(always)]
    pub fn class_of(
        &mut self,
        alloc: Global,
        instance: &InstanceRef<'_>,
    ) -> Result<Option<Text>, AllocError>
        ensures { IfOk result (λ found. IfSome found (λ class. instance.now.keyword ≡ Some class)) }
    {
        let code = instance.code();
        if code == self.code {
            if let Some(class) = &self.class {
                return Ok(Some(class.copy(alloc)?));
            }
        }
        self.read(alloc, instance, code)
    }

    /// The same, made anew.
    #[inline(never)]
    fn read(
        &mut self,
        alloc: Global,
        instance: &InstanceRef<'_>,
        code: u8,
    ) -> Result<Option<Text>, AllocError>
        requires { code ≡ code_at instance.now.keyword }
        ensures { IfOk result (λ found. IfSome found (λ class. instance.now.keyword ≡ Some class)) }
    {
        if let Some(word) = known_word(code) {
            let class = Text::of(alloc, word)?;
            self.class = Some(class.copy(alloc)?);
            self.code = code;
            return Ok(Some(class));
        }
        match instance.keyword() {
            Some(keyword) => Ok(Some(keyword.text(alloc)?)),
            None => Ok(None),
        }
    }
}
