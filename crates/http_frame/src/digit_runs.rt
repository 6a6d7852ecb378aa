//! Numbers that digits write.
ghost use Rattle.std.specs.Prelude.{◌≡◌, ◌≤◌, true, None, Some, if◌then◌else◌, nat_lt};
ghost use Rattle.std.specs.List.{list_all};
ghost use Rattle.std.specs.Char.{is_ascii_digit};
ghost use Rattle.std.specs.Str.Parse.{digits_value};
ghost use Rattle.http_frame.specs.declared.limits.TheConstants.{MOST_TURN};

/// Whether all bytes are digits.
pub fn are_digits(text: &[u8]) -> bool
    ensures { result ≡ list_all is_ascii_digit text.now }
{
    text.iter().all(|b| b.is_ascii_digit())
}

/// The number that digits write, where it isn't above the most.
pub fn number_up_to(text: &[u8], most: usize) -> Option<usize>
    requires digits { list_all is_ascii_digit text.now ≡ true }
    requires most { most ≤ MOST_TURN }
    ensures { result ≡ (if nat_lt most (digits_value 10 text.now) then None
        else Some (digits_value 10 text.now)) }
{
    let mut value = 0;
    for b in text {
        value = value * 10 + (*b - b'0') as usize;
        if value > most {
            return None;
        }
    }
    Some(value)
}
