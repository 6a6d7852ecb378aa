//! The entities of the instances of an IFC file (IFC4 ADD2 TC1, in the clear text encoding of ISO 10303-21).
#![tactic(auto)]

mod entity;
mod saying;

pub use entity::Entity;
pub use saying::says;
