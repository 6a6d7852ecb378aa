//! The types that the definitions speak of.
use bim_model::{Bytes, Items, Text};

/// A request, whole.
#[derive(Drop)]
pub struct HttpRequest {
    pub method: Bytes,
    pub target: Bytes,
    pub minor: u8,
    pub user: Text,
    pub close: bool,
    pub encoded: bool,
    pub seen: TurnField,
    pub body: Items<u8>,
}

/// What the field `X-Book-Turn` of a request says: the reply is to know all that was accepted up to that turn.
#[derive(Clone, Copy, Debug, PartialEq, Eq)]
pub enum TurnField {
    Absent,
    /// It stands once, and its 1 to 15 digits write this turn.
    Given(u64),
    /// It stands several times, or its value is anything else.
    Bad,
}

/// H1 to H6.
#[derive(Clone, Copy, Debug, PartialEq, Eq)]
pub enum FrameFault {
    BadHead,
    HeadTooLong,
    BadLength,
    BodyTooLong,
    BadChunk,
    Version,
}

/// What the bytes so far hold.
#[derive(Drop)]
pub enum FrameStep {
    /// No event or fault that was not answered.
    More,
    /// The request asks for `100 Continue`; it is answered once.
    Continue,
    /// A request, which the framer stands for no longer.
    Request(HttpRequest),
}

/// Why no step can be answered.
#[derive(Clone, Copy, Debug, PartialEq, Eq)]
pub enum FrameError {
    Fault(FrameFault),
    Memory,
}
