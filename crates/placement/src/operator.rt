//! Where mapped items lie: the axes and the frames of operators.
ghost use Rattle.std.specs.Prelude.{◌≡◌, ◌≢◌, ◌<◌, ℕ, Option, IfSome, IfNone, MatchOption, slice_get};
ghost use Rattle.bim_model.specs.declared.geometry.Point.{Point};
ghost use Rattle.placement.specs.declared.direction.Direction.{Direction};
ghost use Rattle.placement.specs.declared.frame.Frame.{Frame};
ghost use Rattle.placement.specs.declared.frame.Offset.{Offset};
ghost use Rattle.placement.specs.Frames.{along, frame_at, IsFrame, AreWithin};
ghost use Rattle.ifc_units.specs.Lengths.{reach};
ghost use Rattle.placement.specs.Directions.{LiesAlong, unit};
ghost use Rattle.placement.specs.Operators.{MayDirect, OperatorDirections, HasOperatorDirections, GiveOperatorAxes, HasOperatorAxes, ObliqueOperator, third_direction, IsOrigin, OperatorFrame};

use crate::axes::{Axes, across, directed, first_direction, lies_along, second_direction, without};
use crate::axis::Axis;
use crate::direction::{Direction, Vector};
use crate::frame::{Frame, lengths_of};
use bim_model::{Mode, Point};
use ifc_units::{Scale, point};
use p21_table::{Exchange, InstanceRef};

/// The three directions of an operator, each of which may be absent.
#[derive(Clone, Copy)]
struct Given {
    axis1: Option<Direction>,
    axis2: Option<Direction>,
    axis3: Option<Direction>,
}

/// The frame of the operator of that number: its axes, from its origin (IFC4 ADD2 TC1, IfcCartesianTransformationOperator3D). Its scale
/// isn't read. None where it has no axes along the grid's or no origin on the grid. Takes no memory.
pub fn operator_frame(exchange: &Exchange, id: u64, scale: Scale, mode: Mode) -> Option<Frame>
    ensures frame { MatchOption result ((f : Frame) → OperatorFrame exchange.now scale mode id f → ⊥)
        (OperatorFrame exchange.now scale mode id) }
    ensures is_frame { IfSome result IsFrame }
    ensures near { IfSome result (λ f. AreWithin reach f.offset) }
{
    let axes = operator_axes(exchange, id)?;
    let origin = origin_of(exchange, id, scale, mode)?;
    Some(Frame {
        x: axes.x,
        y: axes.y,
        z: axes.z,
        offset: lengths_of(origin),
    })
}

/// The origin of the operator of that number, in grid numbers. None where its three numbers have none within 800 metres, and where it
/// can't be read.
fn origin_of(exchange: &Exchange, id: u64, scale: Scale, mode: Mode) -> Option<Point>
    ensures { MatchOption result ((p : Point) → IsOrigin exchange.now scale mode id p → ⊥)
        (IsOrigin exchange.now scale mode id) }
{
    let to = exchange.referred_at(id, 2)?;
    let value = exchange.value_at(to, 0)?;
    match point(&value, scale, mode) {
        Ok(origin) => Some(origin),
        Err(_) => None,
    }
}

/// The axes of the operator of that number (IFC4 ADD2 TC1, IfcCartesianTransformationOperator3D), which may be mirrored. None where they
/// don't lie along the grid's, and where its directions can't be read. Takes no memory.
pub fn operator_axes(exchange: &Exchange, id: u64) -> Option<Axes>
    ensures axes { IfSome result (HasOperatorAxes exchange.now id) }
    ensures square { IfSome result (λ axes. ObliqueOperator exchange.now id → ⊥) }
    ensures apart { IfSome result (λ axes. (offset : Offset) → IsFrame (frame_at axes offset)) }
    ensures none { IfNone result (HasOperatorDirections exchange.now id → ObliqueOperator exchange.now id) }
{
    let given = given_by(exchange, id)?;
    axes_along(given.axis1, given.axis2, given.axis3)
}

/// The directions of the operator of that number. None where they can't be read.
fn given_by(exchange: &Exchange, id: u64) -> Option<Given>
    ensures some { IfSome result (λ g. OperatorDirections exchange.now id g.axis1 g.axis2 g.axis3) }
    ensures none { IfNone result (HasOperatorDirections exchange.now id → ⊥) }
{
    let operator = exchange.look(id)?;
    Some(Given {
        axis1: named_at(exchange, &operator, 0)?,
        axis2: named_at(exchange, &operator, 1)?,
        axis3: named_at(exchange, &operator, 4)?,
    })
}

/// The direction that an attribute names; none where it is missing or absent. None where it names none that can be read.
fn named_at(exchange: &Exchange, operator: &InstanceRef<'_>, at: usize) -> Option<Option<Direction>>
    ensures some { IfSome result (MayDirect exchange.now (slice_get operator.now.values at)) }
    ensures none { IfNone result ((d : Option Direction)
        → MayDirect exchange.now (slice_get operator.now.values at) d → ⊥) }
{
    match operator.attribute(at) {
        Some(value) => directed(exchange, &value),
        None => Some(None),
    }
}

/// The axes that three directions give.
fn axes_along(
    axis1: Option<Direction>,
    axis2: Option<Direction>,
    axis3: Option<Direction>,
) -> Option<Axes>
    ensures axes { MatchOption result ((axes : Axes) → GiveOperatorAxes axis1 axis2 axis3 axes → ⊥)
        (GiveOperatorAxes axis1 axis2 axis3) }
    ensures apart { IfSome result (λ axes. (offset : Offset) → IsFrame (frame_at axes offset)) }
{
    let z = lies_along(first_direction(axis3))?;
    let x = lies_along(without(z, second_direction(z, axis1)))?;
    let y = lies_along(third_direction(z, x, axis2))?;
    Some(Axes { x, y, z })
}

#[tactic(auto, using(crate::proofs::Operating::across_both))]
fn third_direction(z: Axis, x: Axis, given: Option<Direction>) -> Vector
    requires z { z.direction < 3 }
    requires x { x.direction < 3 }
    requires apart { z.direction ≢ x.direction }
    ensures direction { result ≡ third_direction z x given }
    ensures apart { (y : Axis) → LiesAlong result y
        → (y.direction ≢ z.direction) × (y.direction ≢ x.direction) }
{
    match given {
        Some(direction) => without(x, without(z, direction.cleaned())),
        None => {
            if z.direction == 1 || x.direction == 1 {
                unit(across(z, x))
            } else {
                Vector { x: 0, y: 1, z: 0 }
            }
        }
    }
}

fn unit(axis: Axis) -> Vector
    ensures { result ≡ unit axis }
{
    Vector {
        x: along(axis, 0),
        y: along(axis, 1),
        z: along(axis, 2),
    }
}

/// The component of the axis's unit vector in that direction.
fn along(axis: Axis, direction: u8) -> i8
    ensures { result ≡ along axis direction }
{
    if axis.direction != direction {
        0
    } else if axis.negative {
        -1
    } else {
        1
    }
}
