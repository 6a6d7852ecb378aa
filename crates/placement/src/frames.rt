//! The frames of placements in the building.
ghost use Rattle.std.specs.Prelude.{◌≡◌, ℕ, None, MatchOption, IfOk, OnOk};
ghost use Rattle.placement.specs.declared.frame.Frame.{Frame};
ghost use Rattle.placement.specs.Chains.{ParentsFirst};
ghost use Rattle.placement.specs.Placed.{AreFrames, LacksFrame, OwnFrame, StandsOn, AllPlaced, Composed, Puts, frame_in};

use crate::chains::Chains;
use crate::frame::Frame;
use crate::own::own_frame;
use crate::walk::standing_of;
use bim_model::Mode;
use ifc_units::Scale;
use p21_table::Exchange;
use std::alloc::{AllocError, Global};
use std::collections::BTreeMap;
use std::marker::Model;

/// Where placements lie in the building. Contracts see it as the list of their numbers and their frames.
#[derive(Drop)]
pub struct Frames {
    frames: BTreeMap<u64, Frame>,
}

impl Model for Frames {
    ghost use Rattle.std.specs.Prelude.{ℕ, List};
    ghost use Rattle.placement.specs.declared.frame.Frame.{Frame};

    ghost Value = { List (ℕ × Frame) };

    ghost view = { λ f. f.frames.entries };
}

impl Frames {
    /// The frames of the placements, each composed once with that of its parent (IFC4 ADD2 TC1, IfcLocalPlacement). None where one of them
    /// has no axes along the grid's, or no location on the grid.
    pub fn of(
        alloc: Global,
        exchange: &Exchange,
        chains: &Chains,
        scale: Scale,
        mode: Mode,
    ) -> Result<Option<Frames>, AllocError>
        requires first { ParentsFirst exchange.now chains.now }
        ensures { IfOk result (λ frames. MatchOption frames (LacksFrame exchange.now scale mode chains.now)
            (λ made. AreFrames exchange.now scale mode chains.now (frame_in made))) }
    {
        let mut frames = Frames::new(alloc);
        for id in chains.ids() {
            let Some(frame) = frames.compose(exchange, *id, scale, mode) else {
                return Ok(None);
            };
            frames.put(*id, frame)?;
        }
        Ok(Some(frames))
    }

    /// Where the placement of that number lies; none of one that isn't among them. Takes no memory.
    pub fn get(&self, id: u64) -> Option<Frame>
        ensures { result ≡ frame_in self.now id }
    {
        self.frames.get(&id).copied()
    }

    fn new(alloc: Global) -> Frames
        ensures { (id : ℕ) → frame_in result id ≡ None }
    {
        Frames {
            frames: BTreeMap::new(alloc),
        }
    }

    fn put(&mut self, id: u64, frame: Frame) -> Result<(), AllocError>
        ensures { OnOk result (Puts (frame_in self.old) (frame_in self.new) id frame) }
    {
        self.frames.insert(id, frame)?;
        Ok(())
    }

    /// The frame of a placement that stands in none, or in one of these. None where it has none of its own.
    fn compose(&self, exchange: &Exchange, id: u64, scale: Scale, mode: Mode) -> Option<Frame>
        requires stands { StandsOn exchange.now (frame_in self.now) id }
        requires placed { AllPlaced exchange.now scale mode (frame_in self.now) }
        ensures { MatchOption result ((f : Frame) → OwnFrame exchange.now scale mode id f → ⊥)
            (Composed exchange.now scale mode (frame_in self.now) id) }
    {
        let own = own_frame(exchange, id, scale, mode)?;
        let standing = standing_of(exchange, id)?;
        let Some(parent) = standing.parent else {
            return Some(own);
        };
        let outer = self.get(parent)?;
        Some(outer.then(&own))
    }
}
