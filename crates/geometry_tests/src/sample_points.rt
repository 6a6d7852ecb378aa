//! Points, triangles and elements of the tests.
ghost use Rattle.std.specs.Prelude.{◌≡◌, ◌≤◌, unsigned_abs, length, All, IfOk};
ghost use Rattle.bim_model.specs.Points.{grid_limit, IsGridPoint, IsInGrid};
ghost use Rattle.clearance.specs.Near.{ElementInGrid};

use bim_model::{Element, GRID_LIMIT, Guid, Items, Point, Text, Triangle};
use std::alloc::{AllocError, Global};

/// A coordinate of the grid; each table holds such.
fn coordinate(x: i32) -> i32
    ensures { unsigned_abs result ≤ grid_limit }
{
    if x > GRID_LIMIT {
        return GRID_LIMIT;
    }
    if x < -GRID_LIMIT {
        return -GRID_LIMIT;
    }
    x
}

/// A point of the grid.
pub fn point(p: [i32; 3]) -> Point
    ensures { IsGridPoint result }
{
    Point {
        x: coordinate(p[0]),
        y: coordinate(p[1]),
        z: coordinate(p[2]),
    }
}

/// The points of a polygon.
pub fn polygon(alloc: Global, corners: &[[i32; 3]]) -> Result<Vec<Point>, AllocError>
    ensures in_grid { IfOk result (λ made. All IsGridPoint made.items) }
    ensures count { IfOk result (λ made. length made.items ≡ length corners.now) }
{
    let mut made = Vec::new(alloc);
    for corner in corners {
        made.push(point(*corner))?;
    }
    Ok(made)
}

/// A triangle of the grid.
pub fn triangle(t: [[i32; 3]; 3]) -> Triangle
    ensures { IsInGrid result }
{
    Triangle {
        a: point(t[0]),
        b: point(t[1]),
        c: point(t[2]),
    }
}

/// An element with these triangles.
pub fn element(alloc: Global, guid: Guid, triangles: Vec<Triangle>) -> Result<Element, AllocError>
    requires { All IsInGrid triangles.items }
    ensures { IfOk result ElementInGrid }
{
    Ok(Element {
        guid,
        class: Text::of(alloc, "IFCBEAM")?,
        name: Text::of(alloc, "")?,
        storey: None,
        triangles: Items::from_vec(triangles),
    })
}
