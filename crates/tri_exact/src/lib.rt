//! Exact predicates on points, edges and triangles of a whole grid.
#![tactic(auto)]

ghost use Rattle.std.specs.Prelude.{◌≤◌, unsigned_abs};
ghost use Rattle.bim_model.specs.Points.{step_limit, cross_limit};

mod crossing;
mod edges;
mod point_face;
pub mod products;

pub use crossing::{edge_pierces, segment_crosses};
pub use edges::{edge_edge_within, is_beside, is_crossing, point_edge_within};
pub use point_face::{is_inside, point_face_within};
pub use products::{cross, dot, orient};

/// The greatest distance that the tests take, in grid numbers. It holds a metre also at ten grid numbers a millimetre.
pub const DISTANCE_LIMIT: u32 = 10_000;

/// A point or a vector, in grid numbers.
#[derive(Clone, Copy)]
pub struct V3 {
    pub x: i64,
    pub y: i64,
    pub z: i64,
    ghost x_in: { unsigned_abs x ≤ step_limit },
    ghost y_in: { unsigned_abs y ≤ step_limit },
    ghost z_in: { unsigned_abs z ≤ step_limit },
}

/// A vector of products, in squares of grid numbers.
#[derive(Clone, Copy)]
pub struct W3 {
    pub x: i128,
    pub y: i128,
    pub z: i128,
}

/// A vector product in 64 bits, in squares of grid numbers.
#[derive(Clone, Copy)]
pub struct Normal {
    pub x: i64,
    pub y: i64,
    pub z: i64,
    ghost x_in: { unsigned_abs x ≤ cross_limit },
    ghost y_in: { unsigned_abs y ≤ cross_limit },
    ghost z_in: { unsigned_abs z ≤ cross_limit },
}
