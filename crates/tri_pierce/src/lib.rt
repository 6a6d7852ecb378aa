//! Whether triangles and elements pierce each other, exactly.
#![tactic(auto)]

mod face_corners;
mod heights;
mod laws;
mod lone_corners;
mod piercing;
mod piercing_lists;
mod touching_boxes;

pub use laws::{piercing_is_decided, piercing_is_mutual, piercing_is_near};
pub use piercing::pierces;
pub use piercing_lists::{lists_pierce, solids_pierce};
