//! Boxes in blocks of eight.
ghost use Rattle.std.specs.Prelude.{◌≡◌, ◌+◌, ◌*◌, ◌<◌, ◌≤◌, ◌^◌, ◌∷◌, [], length, map, All, OnOk};
ghost use Rattle.box_lanes.specs.Blocks.{IsBlock, HasBlocks};
ghost use Rattle.box_lanes.specs.CoarseBoxes.{coarse};
ghost use Rattle.box_lanes.specs.BoxPlaces.{nowhere, box_at};

use bim_model::{Extent, Point};
use std::alloc::AllocError;
use std::simd::prelude::*;

/// How many boxes are compared at once.
pub const LANES: usize = 8;

/// Eight boxes, the sides of each kind in a list of their own; and their sides in steps of 256 grid numbers, low
/// ones first. Sixteen bits a side let eight comparisons be one, and steps of 256 reach all of the grid.
#[derive(Clone, Copy)]
pub struct Block {
    pub low_x: [i32; LANES],
    pub low_y: [i32; LANES],
    pub low_z: [i32; LANES],
    pub high_x: [i32; LANES],
    pub high_y: [i32; LANES],
    pub high_z: [i32; LANES],
    pub coarse: [[i16; LANES]; 6],
}

/// Eight coordinates in steps of 256, rounded down, as far as 16 bits go.
#[inline(always)]
pub fn coarse_of(a: i32, b: i32, c: i32, d: i32, e: i32, f: i32, g: i32, h: i32) -> [i16; LANES]
    ensures { result ≡ map coarse (a ∷ b ∷ c ∷ d ∷ e ∷ f ∷ g ∷ h ∷ []) }
{
    let steps = i32x8::from_array([a, b, c, d, e, f, g, h]) >> i32x8::splat(8);
    let least = i32x8::splat(i32::from(i16::MIN));
    let greatest = i32x8::splat(i32::from(i16::MAX));
    steps.simd_clamp(least, greatest).cast::<i16>().to_array()
}

// A box that fills a block up.
fn nowhere() -> Extent
    ensures { result ≡ nowhere }
{
    let origin = Point { x: 0, y: 0, z: 0 };
    Extent {
        low: origin,
        high: origin,
    }
}

// The box at a place, or one that fills a block up.
#[inline(always)]
fn box_at(boxes: &[Extent], place: usize) -> Extent
    ensures { result ≡ box_at boxes.now place }
{
    if place < boxes.len() {
        boxes[place]
    } else {
        nowhere()
    }
}

// The box at the place that stands at a place, or one that fills a block up.
#[inline(always)]
fn box_by(boxes: &[Extent], places: &[u32], place: usize) -> Extent
    requires { All (λ n. n < length boxes.now) places.now }
    ensures { result ≡ box_at (map (box_at boxes.now) places.now) place }
{
    if place < places.len() {
        boxes[places[place] as usize]
    } else {
        nowhere()
    }
}

// The block of eight boxes.
#[inline(always)]
fn block_of(
    a: Extent,
    b: Extent,
    c: Extent,
    d: Extent,
    e: Extent,
    f: Extent,
    g: Extent,
    h: Extent,
) -> Block
    ensures { IsBlock result (a ∷ b ∷ c ∷ d ∷ e ∷ f ∷ g ∷ h ∷ []) }
{
    let low_x = [
        a.low.x, b.low.x, c.low.x, d.low.x, e.low.x, f.low.x, g.low.x, h.low.x,
    ];
    let low_y = [
        a.low.y, b.low.y, c.low.y, d.low.y, e.low.y, f.low.y, g.low.y, h.low.y,
    ];
    let low_z = [
        a.low.z, b.low.z, c.low.z, d.low.z, e.low.z, f.low.z, g.low.z, h.low.z,
    ];
    let high_x = [
        a.high.x, b.high.x, c.high.x, d.high.x, e.high.x, f.high.x, g.high.x, h.high.x,
    ];
    let high_y = [
        a.high.y, b.high.y, c.high.y, d.high.y, e.high.y, f.high.y, g.high.y, h.high.y,
    ];
    let high_z = [
        a.high.z, b.high.z, c.high.z, d.high.z, e.high.z, f.high.z, g.high.z, h.high.z,
    ];
    Block {
        low_x,
        low_y,
        low_z,
        high_x,
        high_y,
        high_z,
        coarse: [
            coarse_of(
                a.low.x, b.low.x, c.low.x, d.low.x, e.low.x, f.low.x, g.low.x, h.low.x,
            ),
            coarse_of(
                a.low.y, b.low.y, c.low.y, d.low.y, e.low.y, f.low.y, g.low.y, h.low.y,
            ),
            coarse_of(
                a.low.z, b.low.z, c.low.z, d.low.z, e.low.z, f.low.z, g.low.z, h.low.z,
            ),
            coarse_of(
                a.high.x, b.high.x, c.high.x, d.high.x, e.high.x, f.high.x, g.high.x, h.high.x,
            ),
            coarse_of(
                a.high.y, b.high.y, c.high.y, d.high.y, e.high.y, f.high.y, g.high.y, h.high.y,
            ),
            coarse_of(
                a.high.z, b.high.z, c.high.z, d.high.z, e.high.z, f.high.z, g.high.z, h.high.z,
            ),
        ],
    }
}

// How many blocks so many boxes take.
fn blocks_for(count: usize) -> usize
    ensures enough { count ≤ 8 * result }
    ensures few { 8 * result ≤ count + 7 }
{
    let whole = count / LANES;
    if count % LANES == 0 { whole } else { whole + 1 }
}

/// Fills the blocks, of which there are none yet, with the boxes.
pub fn fill(blocks: &mut Vec<Block>, boxes: &[Extent]) -> Result<(), AllocError>
    requires { length boxes.now < 2 ^ 32 }
    ensures { OnOk result (blocks.old.items ≡ [] → HasBlocks blocks.new.items boxes.now) }
{
    let count = blocks_for(boxes.len());
    blocks.reserve(count)?;
    for k in 0..count {
        let from = k * LANES;
        let block = block_of(
            box_at(boxes, from),
            box_at(boxes, from + 1),
            box_at(boxes, from + 2),
            box_at(boxes, from + 3),
            box_at(boxes, from + 4),
            box_at(boxes, from + 5),
            box_at(boxes, from + 6),
            box_at(boxes, from + 7),
        );
        blocks.push(block)?;
    }
    Ok(())
}

/// Fills the blocks, of which there are none yet, with the boxes at these places.
pub fn fill_by(blocks: &mut Vec<Block>, boxes: &[Extent], places: &[u32]) -> Result<(), AllocError>
    requires within { All (λ n. n < length boxes.now) places.now }
    requires few { length places.now < 2 ^ 32 }
    ensures { OnOk result (blocks.old.items ≡ []
        → HasBlocks blocks.new.items (map (box_at boxes.now) places.now)) }
{
    let count = blocks_for(places.len());
    blocks.reserve(count)?;
    for k in 0..count {
        let from = k * LANES;
        let block = block_of(
            box_by(boxes, places, from),
            box_by(boxes, places, from + 1),
            box_by(boxes, places, from + 2),
            box_by(boxes, places, from + 3),
            box_by(boxes, places, from + 4),
            box_by(boxes, places, from + 5),
            box_by(boxes, places, from + 6),
            box_by(boxes, places, from + 7),
        );
        blocks.push(block)?;
    }
    Ok(())
}
