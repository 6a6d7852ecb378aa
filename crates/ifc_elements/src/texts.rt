//! What is told of an element in texts (IFC4 ADD2 TC1, IfcRoot).
ghost use Rattle.std.specs.Prelude.{◌≡◌, IfOk, IfSome, MatchOption};
ghost use Rattle.ifc_elements.specs.ElementTexts.{text_at, name_of, IsRead, IsUnread};

use bim_model::{Guid, Text};
use bim_text::{text_of, text_of_plain};
use p21_table::InstanceRef;
use std::alloc::{AllocError, Global};

/// The text that is the attribute of that number, from 0; none where there is no text.
pub fn text_at(
    alloc: Global,
    instance: &InstanceRef<'_>,
    at: usize,
) -> Result<Option<Text>, AllocError>
    ensures { IfOk result (λ text. text ≡ text_at instance.now at) }
{
    match instance.attribute(at) {
        Some(value) => {
            if let Some(plain) = value.plain_text() {
                return Ok(Some(text_of_plain(alloc, plain)?));
            }
            match value.words() {
                Some(spelled) => Ok(Some(text_of(alloc, spelled)?)),
                None => Ok(None),
            }
        }
        None => Ok(None),
    }
}

/// The name of an instance; empty where none is given.
pub fn name_of(alloc: Global, instance: &InstanceRef<'_>) -> Result<Text, AllocError>
    ensures { IfOk result (λ name. name ≡ name_of instance.now) }
{
    match text_at(alloc, instance, 2)? {
        Some(text) => Ok(text),
        None => Text::of(alloc, ""),
    }
}

/// The global identifier of an instance, where it is spelled as it is. None says nothing.
#[inline(always)]
fn plain_guid(instance: &InstanceRef<'_>) -> Option<Guid>
    ensures { IfSome result (IsRead instance.now) }
{
    let value = instance.attribute(0)?;
    let spelled = value.plain_guid()?;
    if spelled.len() != 22 {
        return None;
    }
    let mut chars = [0; 22];
    chars.copy_from_slice(spelled);
    Some(Guid { chars })
}

/// The global identifier of an instance; none where there is no text, or one that isn't an identifier.
#[inline(always)]
pub fn guid_of(alloc: Global, instance: &InstanceRef<'_>) -> Result<Option<Guid>, AllocError>
    ensures { IfOk result (λ found. MatchOption found (IsUnread instance.now) (IsRead instance.now)) }
{
    if let Some(guid) = plain_guid(instance) {
        return Ok(Some(guid));
    }
    match text_at(alloc, instance, 0)? {
        Some(text) => Ok(Guid::read(text.as_str().as_bytes())),
        None => Ok(None),
    }
}
