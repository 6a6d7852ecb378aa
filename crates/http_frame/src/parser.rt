//! What the parser tells of the front of some bytes.
ghost use Rattle.std.specs.Prelude.{◌≡◌, ◌≤◌, ℕ, List, length};
ghost use Rattle.http_frame.specs.declared.limits.TheConstants.{MOST_HEAD};
ghost use Rattle.httparse.specs.Grammar.{HasNoRequest, NeverHasRequest};
ghost use Rattle.httparse.specs.Spans.{IsRequestOf};
ghost use Rattle.http_frame.specs.inner.Judged.{IsJudged, is_crowded};

use httparse::spans::{HeaderSpan, RequestSpans, parse_request};
use httparse::{Error, Status};

/// What stands at the front of bytes whose first line is whole.
#[derive(Clone, Copy, Debug, PartialEq, Eq)]
pub enum Judged {
    /// No head yet, and some bytes that follow make one.
    Open,
    /// No head, whatever follows.
    Never,
    /// A head.
    Head(RequestSpans),
    /// More fields than there is room for.
    Crowded,
}

fn is_crowded(error: Error) -> bool
    ensures { result ≡ is_crowded error }
{
    match error {
        Error::HeaderName => false,
        Error::HeaderValue => false,
        Error::NewLine => false,
        Error::Status => false,
        Error::Token => false,
        Error::TooManyHeaders => true,
        Error::Version => false,
    }
}

/// Asks the parser. With room for 6,000 fields, more than so many bytes can hold, it is never crowded.
pub fn ask_parser(front: &[u8], headers: &mut [HeaderSpan]) -> Judged
    requires { length front.now ≤ MOST_HEAD }
    ensures { IsJudged front.now headers.new result }
{
    match parse_request(front, headers) {
        Ok(Status::Complete(spans)) => Judged::Head(spans),
        Ok(Status::Partial) => Judged::Open,
        Err(error) => {
            if is_crowded(error) {
                Judged::Crowded
            } else {
                Judged::Never
            }
        }
    }
}
