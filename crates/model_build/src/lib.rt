//! The model of a file (IFC4 ADD2 TC1, in the clear text encoding of ISO 10303-21), or its first fault.
#![tactic(auto)]

mod building;
mod checks;
mod counts;
mod full_faces;
mod guids;
mod judged_file;
mod laws;
mod least;
mod length_faults;
mod mapping;
mod named_placements;
mod order;
mod stages;
mod uncut_faces;
mod unsupported;

pub use building::{build, build_owned};
pub use laws::{instances_have_one_answer, profile_has_one_answer, walks_tell_models};
