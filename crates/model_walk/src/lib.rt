//! One walk over what is used of a file, which reads each list of points and each face set once (IFC4 ADD2 TC1). What it gives is the model of a
//! file without a fault; of any other file it says nothing.
#![tactic(auto)]

mod class_texts;
mod distinct_guids;
mod element_sketches;
mod point_pool;
mod set_pool;
mod shape_pieces;
mod sketch_list;
mod sketched_surfaces;
mod used_checks;
mod walking;

pub use walking::{Walked, walk};
