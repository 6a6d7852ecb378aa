//! The ends of a session.
use http_frame::FrameFault;

/// How a session ended, after so many requests were answered whole.
#[derive(Clone, Copy, Debug, PartialEq, Eq)]
pub enum SessionEnd {
    /// The input ended between requests; empty lines may follow the last.
    Closed { served: u64 },
    /// The last request that was answered asks that the connection be closed, or is of HTTP/1.0.
    Asked { served: u64 },
    /// The input ended within a request.
    Cut { served: u64 },
    /// A read failed.
    ReadFault { served: u64 },
    /// A write failed; a front of the answer under way is written.
    WriteFault { served: u64 },
    /// The bytes end in a fault; its response is written.
    Frame { served: u64, fault: FrameFault },
    /// As many requests as a session may have were answered.
    Spent { served: u64 },
    /// The next request means a call of the book, for which the pass has no turn left. Nothing is written for it.
    SpentTurns { served: u64 },
    /// Memory was wanting.
    Memory { served: u64 },
}
