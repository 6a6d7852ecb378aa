//! The corners of a triangle as vectors, and in other orders.
// A triangle's corners as vectors.
ghost use Rattle.std.specs.Prelude.{◌≡◌};
ghost use Rattle.tri_exact.specs.GridVectors.{at, IsPoint};
ghost use Rattle.bim_model.specs.Points.{IsGridPoint, IsInGrid, vector_of, shape_of};
ghost use Rattle.tri_pierce.specs.inner.LoneCorners.{face_of, InGrid, turn_of, mirror_of};

use bim_model::{Point, Triangle};
use tri_exact::V3;

/// Three corners.
#[derive(Clone, Copy)]
pub struct Corners {
    pub a: V3,
    pub b: V3,
    pub c: V3,
}

/// A point as a vector.
#[inline(always)]
fn vector_at(p: Point) -> V3
    requires { IsGridPoint p }
    ensures value { at result ≡ vector_of p }
    ensures small { IsPoint result }
{
    V3 {
        x: p.x as i64,
        y: p.y as i64,
        z: p.z as i64,
    }
}

/// The corners of a triangle of the grid.
#[inline(always)]
pub fn corners_of(t: &Triangle) -> Corners
    requires { IsInGrid t.now }
    ensures value { face_of result ≡ shape_of t.now }
    ensures small { InGrid result }
{
    Corners {
        a: vector_at(t.a),
        b: vector_at(t.b),
        c: vector_at(t.c),
    }
}

/// The corners in turn, the second first.
#[inline(always)]
pub fn turned(t: Corners) -> Corners
    requires { InGrid t }
    ensures value { face_of result ≡ turn_of (face_of t) }
    ensures small { InGrid result }
{
    Corners {
        a: t.b,
        b: t.c,
        c: t.a,
    }
}

/// The first corner, and the others in the other order.
#[inline(always)]
pub fn mirrored(t: Corners) -> Corners
    requires { InGrid t }
    ensures value { face_of result ≡ mirror_of (face_of t) }
    ensures small { InGrid result }
{
    Corners {
        a: t.a,
        b: t.c,
        c: t.b,
    }
}
