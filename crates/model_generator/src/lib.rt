//! Valid building models of any size, as files (IFC4 ADD2 TC1, in the clear text encoding of ISO 10303-21).
#![tactic(auto)]

mod cuboid;
mod lines;
mod phrases;
mod pieces;
mod pseudorandom;

pub use pieces::{MOST_GENERATED, Pieces};
