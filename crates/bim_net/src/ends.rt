//! How the session of a connection ended.

/// The kinds of ends of a session.
#[derive(Clone, Copy, Debug, PartialEq, Eq)]
pub enum EndKind {
    /// The input ended between requests.
    Closed,
    /// The last request that was answered asks for closing.
    Asked,
    /// The input ended within a request.
    Cut,
    /// A read failed.
    ReadFault,
    /// A write failed.
    WriteFault,
    /// The bytes end in a fault.
    Frame,
    /// As many requests as a session may have were answered.
    Spent,
    /// The pass has made all its turns.
    SpentTurns,
    /// Memory was wanting.
    Memory,
}

/// How the session of a connection ended.
#[derive(Clone, Copy, Debug, PartialEq, Eq)]
pub struct LinkEnd {
    pub kind: EndKind,
    /// The last turn of the session's pass then.
    pub last: u64,
}
