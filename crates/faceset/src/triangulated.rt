//! The triangles of triangulated sets.
ghost use Rattle.std.specs.Prelude.{◌∷◌, [], length, All, Any, IfOk, MatchOption, option_copied};
ghost use Rattle.faceset.specs.FaceSets.{IsTriangle, AreTriangles, HasThree, IsMisnamed, IsCorner};
ghost use Rattle.p21_values.specs.Attributes.{items_in};

use crate::naming::corner;
use bim_model::{Point, Triangle};
use p21_table::{ValueRef, Values};
use std::alloc::{AllocError, Global};

/// The triangle of three indexes.
fn triangle_of(
    a: &ValueRef<'_>,
    b: &ValueRef<'_>,
    c: &ValueRef<'_>,
    numbers: Option<&[ValueRef<'_>]>,
    points: &[Point],
) -> Option<Triangle>
    ensures { MatchOption result (Any (IsMisnamed (option_copied numbers.entry) (length points.now))
        (a.now ∷ b.now ∷ c.now ∷ [])) (λ t. IsCorner (option_copied numbers.entry) points.now a.now t.a
        × IsCorner (option_copied numbers.entry) points.now b.now t.b
        × IsCorner (option_copied numbers.entry) points.now c.now t.c) }
{
    let Some(a) = corner(a, numbers, points) else {
        return None;
    };
    let Some(b) = corner(b, numbers, points) else {
        return None;
    };
    let Some(c) = corner(c, numbers, points) else {
        return None;
    };
    Some(Triangle { a, b, c })
}

/// The triangle of a row. None of one that isn't three indexes of points.
fn triangle(
    row: &ValueRef<'_>,
    numbers: Option<&[ValueRef<'_>]>,
    points: &[Point],
) -> Option<Triangle>
    ensures { MatchOption result (HasThree row.now
        → Any (IsMisnamed (option_copied numbers.entry) (length points.now)) (items_in row.now))
        (IsTriangle (option_copied numbers.entry) points.now row.now) }
{
    match row.items_in().three() {
        Some(found) => triangle_of(&found.x, &found.y, &found.z, numbers, points),
        None => None,
    }
}

/// The triangles of rows of three indexes, in their order. None where a row isn't three indexes, or an index names none of the points.
pub fn triangles(
    alloc: Global,
    numbers: Option<&[ValueRef<'_>]>,
    rows: &Values<'_>,
    points: &[Point],
) -> Result<Option<Vec<Triangle>>, AllocError>
    ensures { IfOk result (λ found. MatchOption found
        (Any (λ row. HasThree row → Any (IsMisnamed (option_copied numbers.entry) (length points.now))
        (items_in row)) rows.now) (λ made. AreTriangles
        (option_copied numbers.entry) points.now rows.now made.items)) }
{
    let mut made = Vec::with_capacity(alloc, rows.len())?;
    for row in rows.iter() {
        match triangle(&row, numbers, points) {
            Some(triangle) => made.push(triangle)?,
            None => return Ok(None),
        }
    }
    Ok(Some(made))
}
