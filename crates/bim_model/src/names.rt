//! The form of a model's name, as it stands in an address and in the words of a command.
ghost use Rattle.std.specs.Prelude.{◌≡◌};
ghost use Rattle.std.specs.List.{list_all};
ghost use Rattle.bim_model.specs.Names.{is_name_char, is_model_name};

use crate::limits::MOST_NAME;

fn is_name_char(byte: u8) -> bool
    ensures { result ≡ is_name_char byte }
{
    byte.is_ascii_alphanumeric() || byte == b'_' || byte == b'.' || byte == b'-'
}

fn are_name_chars(text: &[u8]) -> bool
    ensures { result ≡ list_all is_name_char text.now }
{
    text.iter().all(|byte| is_name_char(*byte))
}

/// Whether these bytes are a model's name: 1 to 64 of `A-Za-z0-9_.-`.
#[tactic(auto, unfolding(crate::specs::Names::is_model_name))]
pub fn is_model_name(text: &[u8]) -> bool
    ensures { result ≡ is_model_name text.now }
{
    !text.is_empty() && text.len() <= MOST_NAME && are_name_chars(text)
}
