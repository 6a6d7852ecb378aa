//! What a file of the clear text encoding says (ISO 10303-21): values and instances, the tokens that spell them, and what numbers and
//! references lead to.
#![tactic(auto)]

mod fault;
mod instance_head;
mod laws;
mod limits;
mod piece;
mod value;

pub use fault::ReadFault;
pub use instance_head::Head;
pub use laws::tables_have_one_meaning;
pub use limits::{MOST_DEPTH, MOST_INSTANCES, MOST_VALUES};
pub use piece::{Kind, Piece, refused, take};
pub use value::{Instance, Value21};
