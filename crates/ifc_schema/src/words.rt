//! What spelled numbers and texts say.
ghost use Rattle.std.specs.Prelude.{◌≡◌};
ghost use Rattle.std.specs.Bool.{MatchBool};
ghost use Rattle.ifc_schema.specs.AttributeWords.{IsNumber, IsNoNumber, IsWhole, IsNotWhole, says_body, says_guid};

use bim_text::{Decimal, says, small_whole};

/// Whether the bytes are a number that is read.
pub fn is_number(bytes: &[u8]) -> bool
    ensures { MatchBool result (IsNumber bytes.now) (IsNoNumber bytes.now) }
{
    match Decimal::read(bytes) {
        Some(_number) => true,
        None => false,
    }
}

/// Whether the bytes are a number that is read, and its value is whole.
pub fn is_whole(bytes: &[u8]) -> bool
    ensures { MatchBool result (IsWhole bytes.now) (IsNotWhole bytes.now) }
{
    match small_whole(bytes) {
        Some(_number) => true,
        None => is_whole_decimal(bytes),
    }
}

/// The same of any number, in 128 bits.
fn is_whole_decimal(bytes: &[u8]) -> bool
    ensures { MatchBool result (IsWhole bytes.now) (IsNotWhole bytes.now) }
{
    match Decimal::read(bytes) {
        Some(number) => {
            if number.exp < 0 {
                return false;
            }
            true
        }
        None => false,
    }
}

/// Whether a spelled text says `Body`.
#[tactic(auto, unfolding(crate::specs::AttributeWords::says_body))]
pub fn says_body(spelled: &[u8]) -> bool
    ensures { result ≡ says_body spelled.now }
{
    says(spelled, "Body")
}

/// Whether a spelled text says a globally unique identifier.
#[tactic(auto, unfolding(crate::specs::AttributeWords::says_guid))]
pub fn says_guid(spelled: &[u8]) -> bool
    ensures { result ≡ says_guid spelled.now }
{
    bim_text::says_guid(spelled)
}
