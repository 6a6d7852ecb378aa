//! A file that was read, as a table over its bytes (ISO 10303-21): its instances and their values where they stand, and what numbers and
//! references lead to.
#![tactic(auto)]

mod exchange;
mod first_byte;
mod instance_list;
mod instance_ref;
mod keyword;
mod looking;
mod places;
mod simple;
mod standing;
mod value_list;
mod value_ref;

pub use exchange::Exchange;
pub use instance_list::Instances;
pub use instance_ref::InstanceRef;
pub use keyword::Keyword;
pub use places::noted_places;
pub use simple::{inner, name_of};
pub use value_list::{Three, Values};
pub use value_ref::ValueRef;
