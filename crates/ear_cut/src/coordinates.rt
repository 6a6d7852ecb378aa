//! Vectors of space, points of a plane, and triangles there.
// Coordinates in 64 bits, with bounds that keep each sum and product within them.
ghost use Rattle.std.specs.Prelude.{◌≤◌, unsigned_abs};
ghost use Rattle.bim_model.specs.Points.{grid_limit, step_limit};

/// A step from a point of the grid to another, or to one from the origin.
#[derive(Clone, Copy)]
pub struct Way {
    pub x: i64,
    pub y: i64,
    pub z: i64,
    ghost x_in: { unsigned_abs x ≤ step_limit },
    ghost y_in: { unsigned_abs y ≤ step_limit },
    ghost z_in: { unsigned_abs z ≤ step_limit },
}

/// A point as a view shows it.
#[derive(Clone, Copy)]
pub struct Flat {
    pub u: i64,
    pub v: i64,
    ghost u_in: { unsigned_abs u ≤ grid_limit },
    ghost v_in: { unsigned_abs v ≤ grid_limit },
}

/// A triangle as a view shows it.
#[derive(Clone, Copy)]
pub struct Shape {
    pub a: Flat,
    pub b: Flat,
    pub c: Flat,
}
