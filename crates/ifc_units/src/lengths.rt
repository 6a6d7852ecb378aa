//! Lengths and points of values.
ghost use Rattle.std.specs.Prelude.{◌≡◌, ◌∷◌, [], IfOk, MatchOption, MatchResult};
ghost use Rattle.std.specs.List.{AllZip};
ghost use Rattle.bim_model.specs.declared.geometry.Point.{Point};
ghost use Rattle.p21_values.specs.declared.value.Value21.{Value21};
ghost use Rattle.p21_table.specs.ShortRows.{SaysShort, SaysRow};
ghost use Rattle.ifc_units.specs.declared.length_error.GridFault.{GridFault};
ghost use Rattle.ifc_units.specs.Lengths.{IsLength, HasLength, LengthRefused, FirstRefused, IsPoint, PointRefused, ArePoints, PointsRefused, Fails};

use crate::grid_lengths::{size_of, to_grid, with_sign};
use crate::length_error::{GridFault, LengthError};
use crate::scale::Scale;
use bim_model::{Mode, Point};
use bim_text::{Decimal, Short, ShortRow};
use p21_table::{ValueRef, Values};
use std::alloc::{AllocError, Global};

/// The grid number of a value that is a number (IFC4 ADD2 TC1, IfcLengthMeasure). Unread where it isn't one that is read.
pub fn length(value: &ValueRef<'_>, scale: Scale, mode: Mode) -> Result<i32, LengthError>
    ensures { MatchResult result (IsLength scale mode value.now)
        (Fails (IsLength scale mode value.now) (LengthRefused scale mode value.now)) }
{
    let Some(bytes) = value.number() else {
        return Err(LengthError::Unread);
    };
    let Some(number) = Decimal::read(bytes) else {
        return Err(LengthError::Unread);
    };
    match to_grid(number, scale, mode) {
        Ok(length) => Ok(length),
        Err(fault) => Err(LengthError::Refused(fault)),
    }
}

// The point of three values.
fn point_of(
    a: &ValueRef<'_>,
    b: &ValueRef<'_>,
    c: &ValueRef<'_>,
    scale: Scale,
    mode: Mode,
) -> Result<Point, LengthError>
    ensures { MatchResult result (λ p. AllZip (IsLength scale mode) (a.now ∷ b.now ∷ c.now ∷ [])
        (p.x ∷ p.y ∷ p.z ∷ [])) (Fails (AllZip (IsLength scale mode) (a.now ∷ b.now ∷ c.now ∷ []))
        (FirstRefused (HasLength scale mode) (LengthRefused scale mode) (a.now ∷ b.now ∷ c.now ∷ []))) }
{
    let x = length(a, scale, mode)?;
    let y = length(b, scale, mode)?;
    let z = length(c, scale, mode)?;
    Ok(Point { x, y, z })
}

/// The point of a value that is a list of exactly three numbers (IFC4 ADD2 TC1, IfcCartesianPoint). The first that is no grid number in
/// reach decides why there is none.
pub fn point(value: &ValueRef<'_>, scale: Scale, mode: Mode) -> Result<Point, LengthError>
    ensures { MatchResult result (IsPoint scale mode value.now)
        (Fails (IsPoint scale mode value.now) (PointRefused scale mode value.now)) }
{
    let Some(items) = value.items() else {
        return Err(LengthError::Unread);
    };
    match items.three() {
        Some(found) => point_of(&found.x, &found.y, &found.z, scale, mode),
        None => Err(LengthError::Unread),
    }
}

/// The same of a short number.
fn short_length(number: Short, scale: Scale, mode: Mode) -> Result<i32, LengthError>
    ensures { (value : Value21) → SaysShort number value → MatchResult result (IsLength scale mode value)
        (Fails (IsLength scale mode value) (LengthRefused scale mode value)) }
{
    let count = scale.factor as u128 * number.digits as u128;
    let power = scale.power as i64 - number.places as i64;
    match size_of(count, power, mode) {
        Ok(size) => Ok(with_sign(number.negative, size)),
        Err(fault) => Err(LengthError::Refused(fault)),
    }
}

/// The same of a row of short numbers.
fn row_point(row: ShortRow, scale: Scale, mode: Mode) -> Result<Point, LengthError>
    ensures { (value : Value21) → SaysRow row value → MatchResult result (IsPoint scale mode value)
        (Fails (IsPoint scale mode value) (PointRefused scale mode value)) }
{
    let x = short_length(row.x, scale, mode)?;
    let y = short_length(row.y, scale, mode)?;
    let z = short_length(row.z, scale, mode)?;
    Ok(Point { x, y, z })
}

/// The point of the next value that is left; none at the end.
fn next_point(left: &mut Values<'_>, scale: Scale, mode: Mode) -> Option<Result<Point, LengthError>>
    ensures { MatchOption result (left.old ≡ [])
        (λ found. (value : Value21) × (left.old ≡ value ∷ left.new)
        × MatchResult found (IsPoint scale mode value)
        (Fails (IsPoint scale mode value) (PointRefused scale mode value))) }
{
    if let Some(row) = left.next_row() {
        return Some(row_point(row, scale, mode));
    }
    match left.next() {
        Some(value) => Some(point(&value, scale, mode)),
        None => None,
    }
}

/// The points of values, in their order (IFC4 ADD2 TC1, IfcCartesianPointList3D). The first value that is no point decides why there are
/// none.
pub fn points(
    alloc: Global,
    values: &Values<'_>,
    scale: Scale,
    mode: Mode,
) -> Result<Result<Vec<Point>, LengthError>, AllocError>
    ensures { IfOk result (λ made. MatchResult made (λ points. ArePoints scale mode values.now points.items)
        (Fails (ArePoints scale mode values.now) (PointsRefused scale mode values.now))) }
{
    let mut made = Vec::new(alloc);
    let mut left = values.iter();
    while let Some(found) = next_point(&mut left, scale, mode) {
        match found {
            Ok(point) => made.push(point)?,
            Err(error) => return Ok(Err(error)),
        }
    }
    Ok(Ok(made))
}

/// Which fault the first value has that is no point. None where there is none, or that value can't be read. Takes no memory.
pub fn points_fault(values: &Values<'_>, scale: Scale, mode: Mode) -> Option<GridFault>
    ensures { MatchOption result ((fault : GridFault) → PointsRefused scale mode values.now fault → ⊥)
        (PointsRefused scale mode values.now) }
{
    let mut left = values.iter();
    while let Some(found) = next_point(&mut left, scale, mode) {
        match found {
            Ok(_point) => {}
            Err(error) => return error.fault(),
        }
    }
    None
}
