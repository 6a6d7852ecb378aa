//! The normal of a polygon: the sum of the products of its neighbouring corners.
// The normal of a closed polygon.
ghost use Rattle.std.specs.Prelude.{◌≡◌, ◌≤◌, ◌<◌, ◌+◌, ◌*◌, ℕ, All, length};
ghost use Rattle.exact_arith.specs.Space.{plus, cross_of};
ghost use Rattle.bim_model.specs.Points.{grid_limit, vector_of, step, IsGridPoint};
ghost use Rattle.bim_model.specs.Polygons.{normal_of};
ghost use Rattle.ear_cut.specs.OutlineLimits.{most_corners, product_limit, normal_limit};
ghost use Rattle.ear_cut.specs.Registers.{as_vector, IsWithin, as_way, IsStep};

use crate::coordinates::Way;
use bim_model::Point;

/// Twice an area, along its normal.
#[derive(Clone, Copy)]
pub struct Normal {
    pub x: i64,
    pub y: i64,
    pub z: i64,
}

/// The way from the origin to a point.
fn from_origin(p: Point) -> Way
    requires { IsGridPoint p }
    ensures value { as_way result ≡ vector_of p }
    ensures small { IsStep result grid_limit }
{
    Way {
        x: i64::from(p.x),
        y: i64::from(p.y),
        z: i64::from(p.z),
    }
}

/// The step from a to b.
pub fn step(a: Point, b: Point) -> Way
    requires a_in { IsGridPoint a }
    requires b_in { IsGridPoint b }
    ensures { as_way result ≡ step a b }
{
    let (from, to) = (from_origin(a), from_origin(b));
    Way {
        x: to.x - from.x,
        y: to.y - from.y,
        z: to.z - from.z,
    }
}

/// The vector product.
pub fn cross(a: Way, b: Way) -> Normal
    ensures value { as_vector result ≡ cross_of (as_way a) (as_way b) }
    ensures small { (m : ℕ) → IsStep a m → IsStep b m → IsWithin result (m * m + m * m) }
{
    Normal {
        x: a.y * b.z - a.z * b.y,
        y: a.z * b.x - a.x * b.z,
        z: a.x * b.y - a.y * b.x,
    }
}

/// The vector product of two points, as vectors from the origin.
fn product(p: Point, q: Point) -> Normal
    requires p_in { IsGridPoint p }
    requires q_in { IsGridPoint q }
    ensures value { as_vector result ≡ cross_of (vector_of p) (vector_of q) }
    ensures small { IsWithin result product_limit }
{
    cross(from_origin(p), from_origin(q))
}

/// The sum of two vectors.
fn sum_of(a: Normal, b: Normal) -> Normal
    requires a_in { IsWithin a normal_limit }
    requires b_in { IsWithin b product_limit }
    ensures value { as_vector result ≡ plus (as_vector a) (as_vector b) }
    ensures small { (m : ℕ) → IsWithin a m → IsWithin result (m + product_limit) }
{
    Normal {
        x: a.x + b.x,
        y: a.y + b.y,
        z: a.z + b.z,
    }
}

/// Twice the area of the closed polygon, along its normal.
pub fn normal_of(corners: &[Point]) -> Normal
    requires some { 0 < length corners.now }
    requires few { length corners.now ≤ most_corners }
    requires in_grid { All IsGridPoint corners.now }
    ensures { as_vector result ≡ normal_of corners.now }
{
    let first = corners[0];
    let mut previous = first;
    let mut sum = Normal { x: 0, y: 0, z: 0 };
    for corner in corners {
        sum = sum_of(sum, product(previous, *corner));
        previous = *corner;
    }
    sum_of(sum, product(previous, first))
}
