//! The frame of a placement in what it stands in.
ghost use Rattle.std.specs.Prelude.{ℕ, IfSome, MatchOption};
ghost use Rattle.bim_model.specs.declared.geometry.Point.{Point};
ghost use Rattle.placement.specs.declared.frame.Frame.{Frame};
ghost use Rattle.placement.specs.Frames.{IsFrame, AreWithin};
ghost use Rattle.ifc_units.specs.Lengths.{reach};
ghost use Rattle.placement.specs.Placed.{IsLocation, AxisFrame, OwnFrame};

use crate::axes::axes_of;
use crate::frame::{Frame, lengths_of};
use bim_model::{Mode, Point};
use ifc_units::{Scale, point};
use p21_table::Exchange;

/// The location of the axis placement of that number (IFC4 ADD2 TC1, IfcPlacement), in grid numbers. None where its three numbers have
/// none within 800 metres, and where it can't be read. Takes no memory.
pub fn location_of(exchange: &Exchange, id: u64, scale: Scale, mode: Mode) -> Option<Point>
    ensures { MatchOption result ((p : Point) → IsLocation exchange.now scale mode id p → ⊥)
        (IsLocation exchange.now scale mode id) }
{
    let to = exchange.referred_at(id, 0)?;
    let value = exchange.value_at(to, 0)?;
    match point(&value, scale, mode) {
        Ok(location) => Some(location),
        Err(_) => None,
    }
}

/// The frame of the axis placement of that number: its axes, from its location (IFC4 ADD2 TC1, IfcAxis2Placement3D). None where it has
/// no axes along the grid's or no location on the grid. Takes no memory.
pub fn axis_frame(exchange: &Exchange, id: u64, scale: Scale, mode: Mode) -> Option<Frame>
    ensures frame { MatchOption result ((f : Frame) → AxisFrame exchange.now scale mode id f → ⊥)
        (AxisFrame exchange.now scale mode id) }
    ensures is_frame { IfSome result IsFrame }
    ensures near { IfSome result (λ f. AreWithin reach f.offset) }
{
    let axes = axes_of(exchange, id)?;
    let location = location_of(exchange, id, scale, mode)?;
    Some(Frame {
        x: axes.x,
        y: axes.y,
        z: axes.z,
        offset: lengths_of(location),
    })
}

/// The frame of the placement of that number in what it stands in (IFC4 ADD2 TC1, IfcLocalPlacement). None where it has none.
pub fn own_frame(exchange: &Exchange, id: u64, scale: Scale, mode: Mode) -> Option<Frame>
    ensures frame { MatchOption result ((f : Frame) → OwnFrame exchange.now scale mode id f → ⊥)
        (OwnFrame exchange.now scale mode id) }
    ensures is_frame { IfSome result IsFrame }
    ensures near { IfSome result (λ f. AreWithin reach f.offset) }
{
    let to = exchange.referred_at(id, 1)?;
    axis_frame(exchange, to, scale, mode)
}
