//! What an element may lack.

/// Why an instance makes no element of a model.
#[derive(Clone, Copy)]
pub enum ElementLack {
    /// A corner of it isn't in reach.
    Beyond,
    /// It isn't an element whose sets and placement are known. An earlier check names its fault.
    Unready,
}

/// The number of an instance that makes no element, and why.
#[derive(Clone, Copy)]
pub struct Lacking {
    pub id: u64,
    pub lack: ElementLack,
}
