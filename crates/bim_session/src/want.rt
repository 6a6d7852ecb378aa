//! What a connection wants.
use crate::end::SessionEnd;
use bcf_http::ReplyKind;
use bim_model::Bytes;
use book_history::BookCall;
use odata_filter::Listing;

/// What is to be done next for a connection.
#[derive(Drop)]
pub enum Want {
    /// More bytes, or the end, are to be fed.
    More,
    /// These bytes are to be written.
    Write(Bytes),
    /// The book is to be called, and the receipt given to `answer`.
    Call(BookCall),
    /// The session has ended.
    Leave(SessionEnd),
}

/// What a response needs of the request whose call waits.
#[derive(Drop)]
pub struct Waiting {
    pub kind: ReplyKind,
    /// The connection is closed after the response.
    pub close: bool,
    /// The call asks for a change.
    pub changes: bool,
    /// The number of the project whose clashes the call asks for.
    pub reads: Option<u32>,
    /// How the topics of the reply are listed, if the call asks for a list of topics.
    pub listing: Option<Listing>,
}
