//! Polygons of space cut into triangles, by a rule that determines each triangle and their order.
#![tactic(auto)]

mod coordinates;
mod corner_frames;
mod corner_notes;
mod corners;
mod ears;
mod fans;
mod normals;
mod polygon_view;
mod removal;

pub use coordinates::Flat;
pub use corners::{Corner, Turn, corners_of, next, previous, turn_at};
pub use ears::Ear;
pub use normals::{Normal, normal_of};
pub use polygon_view::{Axis, View, area, component, seen, view_of};
pub use removal::{CutFault, MOST_CORNERS, cut};
