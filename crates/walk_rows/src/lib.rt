//! Triangles as places in lists of points, and what is kept of instances by their places (IFC4 ADD2 TC1).
#![tactic(auto)]

mod face_rows;
mod pool;
mod row_places;
mod set_rows;
mod triangle_rows;

pub use pool::Pool;
pub use set_rows::rows_of_set;
pub use triangle_rows::{Row, triangle_at};
