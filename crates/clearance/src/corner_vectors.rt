//! The corners of a triangle as vectors.
// A triangle's corners as vectors.
ghost use Rattle.std.specs.Prelude.{◌≡◌};
ghost use Rattle.tri_exact.specs.GridVectors.{at, IsPoint};
ghost use Rattle.bim_model.specs.Points.{IsGridPoint, IsInGrid, vector_of, shape_of};
ghost use Rattle.clearance.specs.inner.TriangleCorners.{face_of, InGrid};

use bim_model::{Point, Triangle};
use tri_exact::V3;

/// Three corners, which may lie on one line.
#[derive(Clone, Copy)]
pub struct Corners {
    pub a: V3,
    pub b: V3,
    pub c: V3,
}

/// A point as a vector.
#[inline(always)]
pub fn vector_at(p: Point) -> V3
    requires { IsGridPoint p }
    ensures value { at result ≡ vector_of p }
    ensures small { IsPoint result }
{
    V3 {
        x: p.x as i64,
        y: p.y as i64,
        z: p.z as i64,
    }
}

/// The corners of a triangle of the grid.
#[inline(always)]
pub fn corners_of(t: &Triangle) -> Corners
    requires { IsInGrid t.now }
    ensures value { face_of result ≡ shape_of t.now }
    ensures small { InGrid result }
{
    Corners {
        a: vector_at(t.a),
        b: vector_at(t.b),
        c: vector_at(t.c),
    }
}
