//! Points, triangles and boxes in whole numbers.
ghost use Rattle.std.specs.Prelude.{◌<◌, ◌++◌, ◌∷◌, [], List, length};
ghost use Rattle.bim_model.specs.declared.geometry.Point.{Point};
ghost use Rattle.bim_model.specs.Boxes.{Bounds, IsExtentOf};

/// Grid numbers in a millimetre: the grid is of tenths. Lengths are whole grid numbers.
pub const PER_MM: i32 = 10;

/// How far from zero a model's coordinates may lie on each axis, in grid numbers: 800 metres.
pub const FARTHEST: i32 = 800_000 * PER_MM;

/// How far from zero the coordinates may lie that the exact tests take, in grid numbers: 800 metres.
pub const GRID_LIMIT: i32 = 8_000_000;

/// A point: three coordinates in grid numbers.
#[derive(Clone, Copy, Debug, PartialEq, Eq, PartialOrd, Ord)]
pub struct Point {
    pub x: i32,
    pub y: i32,
    pub z: i32,
}

/// A triangle by its three corners, which may lie on one line or at one point.
#[derive(Clone, Copy, Debug, PartialEq, Eq, PartialOrd, Ord)]
pub struct Triangle {
    pub a: Point,
    pub b: Point,
    pub c: Point,
}

/// A box along the axes, by its lowest and its highest corner.
#[derive(Clone, Copy, Debug, PartialEq, Eq)]
pub struct Extent {
    pub low: Point,
    pub high: Point,
}

/// The smallest box round the triangles.
pub fn extent_of(triangles: &[Triangle]) -> Extent
    requires { 0 < length triangles.now }
    ensures { IsExtentOf triangles.now result }
{
    let first = triangles[0].a;
    let mut extent = Extent {
        low: first,
        high: first,
    };
    for triangle in triangles {
        extent = widened(extent, triangle.a);
        extent = widened(extent, triangle.b);
        extent = widened(extent, triangle.c);
    }
    extent
}

/// The smallest box round a box and a point.
fn widened(extent: Extent, point: Point) -> Extent
    ensures { (points : List Point) → Bounds points extent → Bounds (points ++ point ∷ []) result }
{
    Extent {
        low: Point {
            x: extent.low.x.min(point.x),
            y: extent.low.y.min(point.y),
            z: extent.low.z.min(point.z),
        },
        high: Point {
            x: extent.high.x.max(point.x),
            y: extent.high.y.max(point.y),
            z: extent.high.z.max(point.z),
        },
    }
}
