//! Whether triangles and elements come within a distance, exactly.
#![tactic(auto)]

mod apart;
mod boxes;
mod corner_vectors;
mod directions;
mod edge_pairs;
mod laws;
mod planes;
mod projections;
mod sides;
mod solids;
mod triangle_runs;
mod triangles;

pub use laws::{near_elements_have_close_boxes, nearness_is_decided};
pub use solids::{lists_near, solids_near};
pub use triangles::near;
