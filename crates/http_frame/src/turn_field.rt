//! The turn that a head gives.
ghost use Rattle.std.specs.Prelude.{◌≡◌, [], ◌∷◌, length, All, codes};
ghost use Rattle.httparse.specs.Spans.{IsHeaderWithin};
ghost use Rattle.http_frame.specs.Heads.{is_turn, turn_by};
ghost use Rattle.http_frame.specs.inner.Facts.{values_at};

use crate::digit_runs::{are_digits, number_up_to};
use crate::facts::{Only, only_named};
use crate::limits::{MOST_TURN, MOST_TURN_DIGITS};
use crate::types::TurnField;
use httparse::spans::HeaderSpan;

fn is_turn(value: &[u8]) -> bool
    ensures { result ≡ is_turn value.now }
{
    0 < value.len() && are_digits(value) && value.len() <= MOST_TURN_DIGITS
}

// The turn that a lone value gives.
fn turn_in(value: &[u8]) -> TurnField
    ensures { result ≡ turn_by (value.now ∷ []) }
{
    if !is_turn(value) {
        return TurnField::Bad;
    }
    match number_up_to(value, MOST_TURN) {
        Some(turn) => TurnField::Given(turn as u64),
        None => TurnField::Bad,
    }
}

/// The turn that the field `X-Book-Turn` gives.
pub fn turn_of(block: &[u8], headers: &[HeaderSpan]) -> TurnField
    requires { All (IsHeaderWithin (length block.now)) headers.now }
    ensures { result ≡ turn_by (values_at (codes "x-book-turn") block.now headers.now) }
{
    match only_named(b"x-book-turn", block, headers) {
        Only::Absent => TurnField::Absent,
        Only::Once(span) => turn_in(span.of(block)),
        Only::Repeated => TurnField::Bad,
    }
}
