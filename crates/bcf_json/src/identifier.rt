//! Identifiers as texts.
ghost use Rattle.std.specs.Prelude.{◌≡◌, string_bytes, IfOk};
ghost use Rattle.bcf_json.specs.JsonTexts.{identifier_text};

use bim_model::id_of;
use std::alloc::{AllocError, Global};
use uuid::Uuid;

/// The identifier of the object with this serial number in a project, as `00000001-0000-8000-8000-000000000001`.
#[tactic(auto, unfolding(crate::specs::JsonTexts::identifier_text))]
pub fn identifier_out(alloc: Global, project: u32, serial: u64) -> Result<String, AllocError>
    ensures { IfOk result (λ s. string_bytes s ≡ identifier_text project serial) }
{
    let mut buffer = Uuid::encode_buffer();
    let id = Uuid::from_u128(id_of(project, serial));
    String::from_str(alloc, id.hyphenated().encode_lower(&mut buffer))
}
