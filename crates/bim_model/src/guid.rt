//! The global identifiers of IFC (IFC4 ADD2 TC1, IfcGloballyUniqueId).
ghost use Rattle.std.specs.Prelude.{◌≡◌, IfSome, IsSome, ◌↔◌};
ghost use Rattle.std.specs.List.{list_all};
ghost use Rattle.bim_model.specs.Guids.{is_guid_char, IsGuid};

/// A globally unique identifier: 22 characters of `0-9A-Za-z_$`, compared by their bytes.
#[derive(Clone, Copy, Debug, PartialEq, Eq, PartialOrd, Ord)]
pub struct Guid {
    pub chars: [u8; 22],
}

impl Guid {
    /// The identifier that a text spells.
    pub fn read(text: &[u8]) -> Option<Guid>
        ensures read { IsSome result ↔ IsGuid text.now }
        ensures chars { IfSome result (λ guid. guid.chars ≡ text.now) }
    {
        if text.len() != 22 || !are_guid_chars(text) {
            return None;
        }
        let mut chars = [0; 22];
        chars.copy_from_slice(text);
        Some(Guid { chars })
    }

    /// Its characters, lent. They are those of an identifier that was read.
    pub fn as_str(&self) -> &str
        requires { IsGuid self.now.chars }
        ensures { result.now ≡ self.now.chars }
    {
        unsafe { str::from_utf8_unchecked(&self.chars) }
    }
}

fn is_guid_char(byte: u8) -> bool
    ensures { result ≡ is_guid_char byte }
{
    byte.is_ascii_alphanumeric() || byte == b'_' || byte == b'$'
}

fn are_guid_chars(text: &[u8]) -> bool
    ensures { result ≡ list_all is_guid_char text.now }
{
    text.iter().all(|byte| is_guid_char(*byte))
}
