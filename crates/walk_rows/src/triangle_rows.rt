//! Triangles by the places of their corners in a list of points.
ghost use Rattle.std.specs.Prelude.{◌≡◌};
ghost use Rattle.walk_rows.specs.Rows.{triangle_at};

use bim_model::{Point, Triangle};
use faceset::point_at;

/// A triangle by the places of its corners in a list of points, from 0.
#[derive(Clone, Copy, Debug, PartialEq, Eq)]
pub struct Row {
    pub a: u32,
    pub b: u32,
    pub c: u32,
}

/// The triangle whose corners stand there.
pub fn triangle_at(points: &[Point], row: Row) -> Triangle
    ensures { result ≡ triangle_at points.now row }
{
    Triangle {
        a: point_at(points, row.a),
        b: point_at(points, row.b),
        c: point_at(points, row.c),
    }
}
