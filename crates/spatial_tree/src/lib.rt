//! The spatial tree of a building (IFC4 ADD2 TC1, IfcRelAggregates and IfcRelContainedInSpatialStructure): what stands above each object, and in
//! which storey it is.
#![tactic(auto)]

mod build;
mod laws;
mod mark;
mod only;
mod relations;
mod step;
mod storey_tree;

pub use build::tree;
pub use laws::one_storey;
pub use storey_tree::{Placed, Tree};
