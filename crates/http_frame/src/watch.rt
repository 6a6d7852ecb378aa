//! The head of a request while its bytes come: each byte is walked over once, and the parser is asked twice.
ghost use Rattle.std.specs.Prelude.{◌≡◌, ◌≤◌, length, take, drop};
ghost use Rattle.http_frame.specs.declared.limits.TheConstants.{MOST_HEAD};
ghost use Rattle.http_frame.specs.Watched.{IsWatch, IsLook, is_early, look_of};

use crate::field_lines::{Spot, is_open, walk_on};
use crate::parser::{Judged, ask_parser};
use httparse::spans::{HeaderSpan, RequestSpans};

/// How far the head of a request was taken.
#[derive(Clone, Copy, Debug, PartialEq, Eq)]
pub struct Watch {
    pub spot: Spot,
    pub seen: usize,
}

/// What the bytes hold of a head.
#[derive(Clone, Copy, Debug, PartialEq, Eq)]
pub enum Look {
    Unfinished,
    Hopeless,
    Whole(RequestSpans),
    /// More fields than there is room for.
    Crowded,
}

fn tail(bytes: &[u8], at: usize) -> &[u8]
    requires { at ≤ length bytes.now }
    ensures { result.now ≡ drop at bytes.now }
{
    &bytes[at..]
}

fn is_early(spot: Spot) -> bool
    ensures { result ≡ is_early spot }
{
    match spot {
        Spot::Before => true,
        Spot::BeforeCr => true,
        Spot::Line => true,
        Spot::Fields(_) => false,
    }
}

fn look_of(judged: Judged) -> Look
    ensures { result ≡ look_of judged }
{
    match judged {
        Judged::Open => Look::Unfinished,
        Judged::Never => Look::Hopeless,
        Judged::Head(spans) => Look::Whole(spans),
        Judged::Crowded => Look::Crowded,
    }
}

impl Watch {
    /// Takes the bytes that are new.
    pub fn look(self, front: &[u8], headers: &mut [HeaderSpan]) -> (Watch, Look)
        requires short { length front.now ≤ MOST_HEAD }
        requires within { self.seen ≤ length front.now }
        requires watch { IsWatch self (take self.seen front.now) }
        ensures look { IsLook front.now headers.new result.1 }
        ensures watch { result.1 ≡ Look.Unfinished
            → (result.0.seen ≡ length front.now) × IsWatch result.0 front.now }
    {
        let spot = walk_on(self.spot, tail(front, self.seen));
        let watch = Watch {
            spot,
            seen: front.len(),
        };
        if is_early(spot) {
            return (watch, Look::Unfinished);
        }
        if is_early(self.spot) {
            return (watch, look_of(ask_parser(front, headers)));
        }
        if is_open(spot) {
            return (watch, Look::Unfinished);
        }
        (watch, look_of(ask_parser(front, headers)))
    }
}
