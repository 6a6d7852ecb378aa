//! The sketches of elements, kept in few bytes.
ghost use Rattle.std.specs.Prelude.{◌≡◌, ◌++◌, ◌∷◌, [], ◌<◌, length, IfOk, OnOk, slice_index_or};
ghost use Rattle.model_walk.specs.SketchLists.{IsLonger, KeepsFrame, KeepsRange};
ghost use Rattle.walk_rows.specs.Pools.{slot_in};

use crate::shape_pieces::Range;
use placement::Frame;
use std::alloc::{AllocError, Global};
use std::marker::Model;

/// How the surface of an element is made: the frame that carries it, and which pieces it shows.
#[derive(Clone, Copy)]
pub struct Sketch {
    pub frame: Option<Frame>,
    pub range: Range,
}

/// Where the frame of a sketch is kept, from 1 on, and 0 where it has none; and where its range is kept.
#[derive(Clone, Copy)]
pub struct Note {
    pub frame: u32,
    pub range: u32,
}

/// Sketches: eight bytes for each, and each frame and each range beside, of ranges that follow one another and are the same only one. Contracts
/// see them as their list.
#[derive(Drop)]
pub struct Sketches {
    notes: Vec<Note>,
    frames: Vec<Frame>,
    ranges: Vec<Range>,
}

impl Model for Sketches {
    ghost use Rattle.std.specs.Prelude.{List, All, length, map};
    ghost use Rattle.model_walk.specs.declared.sketch_list.Sketch.{Sketch};
    ghost use Rattle.model_walk.specs.SketchLists.{sketch_in, IsNoted};

    ghost Value = { List Sketch };

    ghost view = { λ s. map (sketch_in s.frames.items s.ranges.items) s.notes.items };

    ghost invariant = { λ s. All (IsNoted (length s.frames.items) (length s.ranges.items)) s.notes.items };
}

/// Keeps a frame, and says where, from 1 on; 0 where there is none.
fn keep_frame(frames: &mut Vec<Frame>, frame: Option<Frame>) -> Result<u32, AllocError>
    ensures longer { IsLonger frames.old.items frames.new.items }
    ensures keeps { IfOk result (KeepsFrame frame frames.new.items) }
{
    let Some(frame) = frame else {
        return Ok(0);
    };
    if frames.len() >= u32::MAX as usize {
        return Err(AllocError);
    }
    frames.push(frame)?;
    Ok(frames.as_slice().len() as u32)
}

/// Keeps a range, and says where.
fn keep_range(ranges: &mut Vec<Range>, range: Range) -> Result<u32, AllocError>
    ensures longer { IsLonger ranges.old.items ranges.new.items }
    ensures keeps { IfOk result (KeepsRange range ranges.new.items) }
{
    let count = ranges.len();
    if count >= u32::MAX as usize {
        return Err(AllocError);
    }
    if let Some(last) = ranges.as_slice().last() {
        if last.from == range.from && last.to == range.to && last.count == range.count {
            return Ok(count as u32 - 1);
        }
    }
    ranges.push(range)?;
    Ok(count as u32)
}

/// The frame that is kept there.
#[inline(always)]
fn frame_at(frames: &[Frame], slot: u32) -> Option<Frame>
    ensures { result ≡ slot_in frames.now slot }
{
    if slot == 0 {
        return None;
    }
    frames.get(slot as usize - 1).copied()
}

impl Sketches {
    /// None yet, with room for so many.
    pub fn new(alloc: Global, count: usize) -> Result<Sketches, AllocError>
        ensures { IfOk result (λ sketches. sketches ≡ []) }
    {
        Ok(Sketches {
            notes: Vec::with_capacity(alloc, count)?,
            frames: Vec::new(alloc),
            ranges: Vec::new(alloc),
        })
    }

    /// Adds one.
    #[inline(always)]
    pub fn push(&mut self, sketch: Sketch) -> Result<(), AllocError>
        ensures { OnOk result (self.new ≡ self.old ++ sketch ∷ []) }
    {
        let frame = keep_frame(&mut self.frames, sketch.frame)?;
        let range = keep_range(&mut self.ranges, sketch.range)?;
        self.notes.push(Note { frame, range })?;
        Ok(())
    }

    /// The one at a place.
    #[inline(always)]
    pub fn get(&self, at: usize) -> Sketch
        requires { at < length self.now }
        ensures { result ≡ slice_index_or self.now at result }
    {
        let note = self.notes[at];
        Sketch {
            frame: frame_at(&self.frames, note.frame),
            range: self.ranges[note.range as usize],
        }
    }
}
