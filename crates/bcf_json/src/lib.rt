//! Dates and identifiers, as the bodies of the BCF API have them (Topic Services).
#![tactic(auto)]

mod date;
mod identifier;

pub use date::date_out;
pub use identifier::identifier_out;
