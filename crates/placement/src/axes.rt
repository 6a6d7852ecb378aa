//! The axes of axis placements.
ghost use Rattle.std.specs.Prelude.{◌≡◌, ◌≢◌, ◌+◌, ◌<◌, ℕ, Option, IfSome, IfNone, MatchOption};
ghost use Rattle.placement.specs.declared.direction.Direction.{Direction};
ghost use Rattle.placement.specs.declared.frame.Offset.{Offset};
ghost use Rattle.placement.specs.Frames.{sign_of, frame_at, IsFrame};
ghost use Rattle.placement.specs.Directions.{Directs, Directions, HasDirections, LiesAlong, GiveAxes, HasAxes, Oblique, unit, cross, without, first_direction, second_direction};

use crate::axis::Axis;
use crate::direction::{Direction, Vector};
use crate::read::direction_of;
use p21_table::{Exchange, ValueRef};

/// Three axes along those of the grid.
#[derive(Clone, Copy, Debug, PartialEq, Eq)]
pub struct Axes {
    pub x: Axis,
    pub y: Axis,
    pub z: Axis,
}

/// The two directions of an axis placement, which may be absent.
#[derive(Clone, Copy)]
struct Given {
    axis: Option<Direction>,
    reference: Option<Direction>,
}

/// The axes of the axis placement of that number (IFC4 ADD2 TC1, IfcAxis2Placement3D). None where they don't lie along the grid's, and
/// where its directions can't be read. Takes no memory.
pub fn axes_of(exchange: &Exchange, id: u64) -> Option<Axes>
    ensures axes { IfSome result (HasAxes exchange.now id) }
    ensures square { IfSome result (λ axes. Oblique exchange.now id → ⊥) }
    ensures apart { IfSome result (λ axes. (offset : Offset) → IsFrame (frame_at axes offset)) }
    ensures none { IfNone result (HasDirections exchange.now id → Oblique exchange.now id) }
{
    let given = given_by(exchange, id)?;
    axes_along(given.axis, given.reference)
}

/// The directions of the axis placement of that number. None where they can't be read.
fn given_by(exchange: &Exchange, id: u64) -> Option<Given>
    ensures some { IfSome result (λ g. Directions exchange.now id g.axis g.reference) }
    ensures none { IfNone result (HasDirections exchange.now id → ⊥) }
{
    let instance = exchange.look(id)?;
    let first = instance.attribute(1)?;
    let second = instance.attribute(2)?;
    Some(Given {
        axis: directed(exchange, &first)?,
        reference: directed(exchange, &second)?,
    })
}

/// The direction that a value names; none where it is absent. None where it names none that can be read.
pub(crate) fn directed(exchange: &Exchange, value: &ValueRef<'_>) -> Option<Option<Direction>>
    ensures some { IfSome result (Directs exchange.now value.now) }
    ensures none { IfNone result ((d : Option Direction) → Directs exchange.now value.now d → ⊥) }
{
    if value.is_absent() {
        return Some(None);
    }
    let to = value.reference()?;
    Some(Some(direction_of(exchange, to)?))
}

/// The axes that two directions give.
fn axes_along(axis: Option<Direction>, reference: Option<Direction>) -> Option<Axes>
    ensures axes { MatchOption result ((axes : Axes) → GiveAxes axis reference axes → ⊥)
        (GiveAxes axis reference) }
    ensures apart { IfSome result (λ axes. (offset : Offset) → IsFrame (frame_at axes offset)) }
{
    let z = lies_along(first_direction(axis))?;
    let x = lies_along(without(z, second_direction(z, reference)))?;
    Some(Axes {
        x,
        y: across(z, x),
        z,
    })
}

pub(crate) fn first_direction(given: Option<Direction>) -> Vector
    ensures { result ≡ first_direction given }
{
    match given {
        Some(direction) => direction.cleaned(),
        None => Vector { x: 0, y: 0, z: 1 },
    }
}

pub(crate) fn second_direction(z: Axis, given: Option<Direction>) -> Vector
    ensures { result ≡ second_direction z given }
{
    match given {
        Some(direction) => direction.cleaned(),
        None => {
            if z.direction == 0 {
                Vector { x: 0, y: 1, z: 0 }
            } else {
                Vector { x: 1, y: 0, z: 0 }
            }
        }
    }
}

/// The vector without its component along an axis.
pub(crate) fn without(axis: Axis, vector: Vector) -> Vector
    ensures { result ≡ without axis vector }
{
    Vector {
        x: if axis.direction == 0 { 0 } else { vector.x },
        y: if axis.direction == 1 { 0 } else { vector.y },
        z: if axis.direction == 2 { 0 } else { vector.z },
    }
}

/// The axis along which a vector lies, which then has one component that isn't 0.
pub(crate) fn lies_along(vector: Vector) -> Option<Axis>
    ensures { MatchOption result ((axis : Axis) → LiesAlong vector axis → ⊥) (LiesAlong vector) }
{
    if vector.y == 0 && vector.z == 0 {
        signed_axis(0, vector.x)
    } else if vector.x == 0 && vector.z == 0 {
        signed_axis(1, vector.y)
    } else if vector.x == 0 && vector.y == 0 {
        signed_axis(2, vector.z)
    } else {
        None
    }
}

fn signed_axis(direction: u8, sign: i8) -> Option<Axis>
    ensures { MatchOption result ((axis : Axis) → sign_of axis ≡ sign → ⊥)
        (λ axis. (axis.direction ≡ direction) × (sign_of axis ≡ sign)) }
{
    if sign == 1 {
        Some(Axis {
            direction,
            negative: false,
        })
    } else if sign == -1 {
        Some(Axis {
            direction,
            negative: true,
        })
    } else {
        None
    }
}

/// The axis z × x.
pub(crate) fn across(z: Axis, x: Axis) -> Axis
    requires z { z.direction < 3 }
    requires x { x.direction < 3 }
    requires apart { z.direction ≢ x.direction }
    ensures axis { LiesAlong (cross (unit z) (unit x)) result }
    ensures third { result.direction + z.direction + x.direction ≡ 3 }
{
    let follows = x.direction == z.direction + 1 || x.direction + 2 == z.direction;
    Axis {
        direction: 3 - z.direction - x.direction,
        negative: (z.negative == x.negative) != follows,
    }
}
