//! Which corners the indexes of a set name.
ghost use Rattle.std.specs.Prelude.{◌<◌, ◌^◌, length, Some, MatchOption, option_copied};
ghost use Rattle.bim_model.specs.declared.geometry.Point.{Point};
ghost use Rattle.faceset.specs.FaceSets.{NamesPoint, IsCorner, IsMisnamed};

use crate::indexes::place_of;
use bim_model::Point;
use p21_table::ValueRef;

/// Which of so many points, counted from 0, an index names by the numbers of the points.
fn place_numbered(value: &ValueRef<'_>, numbers: &[ValueRef<'_>], count: usize) -> Option<usize>
    requires { count < 2 ^ 63 }
    ensures { MatchOption result (IsMisnamed (Some numbers.now) count value.now)
        (NamesPoint (Some numbers.now) count value.now) }
{
    match place_of(value, numbers.len()) {
        Some(at) => place_of(&numbers[at], count),
        None => None,
    }
}

/// Which of so many points, counted from 0, an index names, directly or by the numbers of the points.
pub fn place_named(
    value: &ValueRef<'_>,
    numbers: Option<&[ValueRef<'_>]>,
    count: usize,
) -> Option<usize>
    requires { count < 2 ^ 63 }
    ensures { MatchOption result (IsMisnamed (option_copied numbers.entry) count value.now)
        (NamesPoint (option_copied numbers.entry) count value.now) }
{
    match numbers {
        Some(numbers) => place_numbered(value, numbers, count),
        None => place_of(value, count),
    }
}

/// The corner that an index names.
pub fn corner(
    value: &ValueRef<'_>,
    numbers: Option<&[ValueRef<'_>]>,
    points: &[Point],
) -> Option<Point>
    ensures { MatchOption result (IsMisnamed (option_copied numbers.entry) (length points.now) value.now)
        (IsCorner (option_copied numbers.entry) points.now value.now) }
{
    match place_named(value, numbers, points.len()) {
        Some(place) => Some(points[place]),
        None => None,
    }
}
