//! What a framer keeps of the request that comes.
use crate::chunks::Chunks;
use crate::field_lines::Spot;
use crate::head::HeadFacts;
use crate::types::FrameFault;
use crate::watch::Watch;

/// The body that is awaited.
#[derive(Clone, Copy, Debug, PartialEq, Eq)]
pub enum Awaited {
    /// So many bytes, from the place on.
    Sized(usize),
    /// Chunks, whose contents so far stand at the front.
    Chunked(Chunks),
    /// It came, and is so many bytes at the front.
    Whole(usize),
}

/// A request whose head has come.
#[derive(Drop)]
pub struct Pending {
    pub facts: HeadFacts,
    /// `100 Continue` is to be answered.
    pub owes: bool,
    pub body: Awaited,
}

/// How far a request has come.
#[derive(Drop)]
pub enum Stage {
    Head(Watch),
    Body(Pending),
    Failed(FrameFault),
}

/// Nothing of a head was seen.
pub const START: Watch = Watch {
    spot: Spot::Before,
    seen: 0,
};
