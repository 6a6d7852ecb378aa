//! Numbers as targets spell them.
ghost use Rattle.std.specs.Prelude.{◌≡◌};
ghost use Rattle.std.specs.List.{list_all};
ghost use Rattle.std.specs.Char.{is_ascii_digit};
ghost use Rattle.http_routes.specs.PathNumbers.{is_number, number_in, number_within};

fn are_digits(text: &[u8]) -> bool
    ensures { result ≡ list_all is_ascii_digit text.now }
{
    text.iter().all(|byte| byte.is_ascii_digit())
}

// Whether a text is 1 to 15 digits.
fn is_number(text: &str) -> bool
    ensures { result ≡ is_number text.now }
{
    1 <= text.len() && text.len() <= 15 && are_digits(text.as_bytes())
}

/// The number that 1 to 15 digits write.
pub fn number_in(text: &str) -> Option<u64>
    ensures { result ≡ number_in text.now }
{
    if !is_number(text) {
        return None;
    }
    match text.parse::<u64>() {
        Ok(number) => Some(number),
        Err(_) => None,
    }
}

/// The number, where it is one of these.
pub fn number_within(least: u64, most: u64, number: Option<u64>) -> Option<u64>
    ensures { result ≡ number_within least most number }
{
    match number {
        Some(number) => {
            if least <= number && number <= most {
                Some(number)
            } else {
                None
            }
        }
        None => None,
    }
}
