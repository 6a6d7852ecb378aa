//! A table of boxes, in which those near a box are found eight at a time.
ghost use Rattle.std.specs.Prelude.{◌≡◌, cond, ◌+◌, ◌-◌, ◌+ℤ◌, ◌-ℤ◌, pos, ◌*◌, ◌/◌, ◌%◌, ◌≤◌, ◌<◌, ◌^◌, ◌++◌, [], ℕ, List, length, map, take, drop, min, All, IfOk, OnOk, OnErr};
ghost use Rattle.std.specs.Int.{saturate_signed, w32};
ghost use Rattle.std.specs.Simd.Lanes.{mask_l, chunk};
ghost use Rattle.bim_model.specs.declared.geometry.Extent.{Extent};
ghost use Rattle.bim_model.specs.Gaps.{is_within};
ghost use Rattle.box_lanes.specs.BoxPlaces.{box_at, places_from, part, places_within, later_within};
ghost use Rattle.box_lanes.specs.CoarseBoxes.{meets, may_meet, IsRough, Fits32};

use crate::blocks::{Block, LANES, fill, fill_by};
use crate::reach::{Reach, Rough, reach_of, rough_of};
use bim_model::{Extent, Point, know};
use std::alloc::{AllocError, Global};
use std::marker::Model;
use std::simd::prelude::*;

/// A list of boxes, in which those near a box are found eight at a time.
#[derive(Drop)]
pub struct BoxTable {
    // The boxes, and after them so many others that all are a multiple of eight.
    blocks: Vec<Block>,
    count: usize,
}

impl Model for BoxTable {
    ghost use Rattle.std.specs.Prelude.{List};
    ghost use Rattle.bim_model.specs.declared.geometry.Extent.{Extent};

    ghost Value = { List Extent };

    ghost use Rattle.box_lanes.specs.Blocks.{boxes_in, IsTable};

    ghost view = { boxes_in };

    ghost invariant = { IsTable };
}

impl BoxTable {
    /// A table without boxes, which takes no memory.
    pub fn new(alloc: Global) -> BoxTable
        ensures { result ≡ [] }
    {
        BoxTable {
            blocks: Vec::new(alloc),
            count: 0,
        }
    }

    /// A table of the boxes, of which there are fewer than 2^32, since a place has 32 bits. An error where memory
    /// is wanting.
    pub fn of(alloc: Global, boxes: &[Extent]) -> Result<BoxTable, AllocError>
        requires { length boxes.now < 2 ^ 32 }
        ensures { IfOk result (λ table. table ≡ boxes.now) }
    {
        let mut blocks = Vec::new(alloc);
        fill(&mut blocks, boxes)?;
        Ok(BoxTable {
            blocks,
            count: boxes.len(),
        })
    }

    /// The boxes at these places, of which there are fewer than 2^32, in place of the boxes before. The room is
    /// used again. An error if memory runs out, which leaves no boxes.
    pub fn refill(&mut self, boxes: &[Extent], places: &[u32]) -> Result<(), AllocError>
        requires within { All (λ n. n < length boxes.now) places.now }
        requires few { length places.now < 2 ^ 32 }
        ensures ok { OnOk result (self.new ≡ map (box_at boxes.now) places.now) }
        ensures err { OnErr result (self.new ≡ []) }
    {
        self.count = 0;
        self.blocks.clear();
        match fill_by(&mut self.blocks, boxes, places) {
            Ok(()) => {
                self.count = places.len();
                Ok(())
            }
            Err(error) => {
                self.blocks.clear();
                Err(error)
            }
        }
    }

    /// How many boxes there are.
    pub fn len(&self) -> usize
        ensures count { result ≡ length self.now }
        ensures few { result < 2 ^ 32 }
        ensures fits { All Fits32 self.now }
    {
        self.count
    }

    /// The places, from 0 and rising, of the boxes whose gap to the probe is at most `grow` grid numbers on each
    /// axis. Coordinates and `grow` may be any. An error if memory runs out.
    pub fn within(&self, alloc: Global, probe: &Extent, grow: u32) -> Result<Vec<u32>, AllocError>
        ensures { IfOk result (λ places. places.items ≡ places_within probe.now grow self.now) }
    {
        let start = Point {
            x: i32::MIN,
            y: i32::MIN,
            z: i32::MIN,
        };
        let reach = reach_of(probe, grow, &start);
        know(self.len());
        let mut places = Vec::new(alloc);
        self.add_from(0, &reach, &mut places)?;
        Ok(places)
    }

    /// The same of the boxes after the place `first` alone, as the only places of the list, and on each axis only
    /// where the later of the box and the probe begins at `start` or after it. An error if memory runs out,
    /// which leaves some of them.
    pub fn later_within(
        &self,
        first: usize,
        probe: &Extent,
        grow: u32,
        start: &Point,
        places: &mut Vec<u32>,
    ) -> Result<(), AllocError>
        requires { first < length self.now }
        ensures { OnOk result (places.new.items ≡ later_within start.now grow probe.now first self.now) }
    {
        let count = self.len();
        places.clear();
        if first + 1 == count {
            return Ok(());
        }
        let reach = reach_of(probe, grow, start);
        self.add_from(first + 1, &reach, places)?;
        Ok(())
    }

    /// Adds the places of the boxes from the place `from` on that meet `reach`.
    fn add_from(&self, from: usize, reach: &Reach, places: &mut Vec<u32>) -> Result<(), AllocError>
        requires { from ≤ length self.now }
        ensures { OnOk result (places.new.items
            ≡ places.old.items ++ places_from from (meets reach.now) (drop from self.now)) }
    {
        know(self.len());
        if from == self.count {
            return Ok(());
        }
        let rough = rough_of(reach);
        let mut block = from / LANES;
        self.add_block(block, from, reach, &rough, places)?;
        block += 1;
        while block * LANES < self.count {
            self.add_block(block, block * LANES, reach, &rough, places)?;
            block += 1;
        }
        Ok(())
    }

    /// Adds the places of the boxes of a block of eight, from the place `from` on, that meet `reach`, which is `rough`
    /// in steps of 256. Most blocks have none, and are left after one test.
    #[inline(always)]
    fn add_block(
        &self,
        block: usize,
        from: usize,
        reach: &Reach,
        rough: &Rough,
        places: &mut Vec<u32>,
    ) -> Result<(), AllocError>
        requires from { from < length self.now }
        requires block { block ≡ from / 8 }
        requires rough { IsRough reach.now rough.now }
        ensures { OnOk result (places.new.items ≡ places.old.items
            ++ part (meets reach.now) self.now from (min (block * 8 + 8) (length self.now))) }
    {
        know(self.len());
        let lanes = self.coarse_lanes(block * LANES, reach, rough) >> (from % LANES);
        if lanes == 0 {
            return Ok(());
        }
        let end = block_end(from, self.count);
        self.add_part(block, from, end, reach, places)
    }

    /// Adds the places of those boxes from the place `from` up to `end`, all in one block of eight, that meet
    /// `reach`. It stands by itself, so that what it needs isn't made ready for the many blocks that are left before.
    #[inline(never)]
    fn add_part(
        &self,
        block: usize,
        from: usize,
        end: usize,
        reach: &Reach,
        places: &mut Vec<u32>,
    ) -> Result<(), AllocError>
        requires from { from < end }
        requires end { end ≤ length self.now }
        requires block { end ≤ from / 8 * 8 + 8 }
        requires number { block ≡ from / 8 }
        ensures { OnOk result (places.new.items
            ≡ places.old.items ++ part (meets reach.now) self.now from end) }
    {
        let mut lanes = self.bits(block, from, end, reach);
        if lanes == 0 {
            return Ok(());
        }
        places.reserve(self.count - from)?;
        let mut place = from as u32;
        while lanes != 0 {
            let passed = lanes.trailing_zeros();
            places.push(place + passed)?;
            place += passed + 1;
            lanes = lanes >> passed >> 1;
        }
        Ok(())
    }

    /// A bit for each of the boxes from the place `from` up to `end`, all in one block of eight, the first the
    /// lowest: whether the box meets `reach`.
    #[inline(always)]
    fn bits(&self, block: usize, from: usize, end: usize, reach: &Reach) -> u64
        requires from { from < end }
        requires end { end ≤ length self.now }
        requires block { end ≤ from / 8 * 8 + 8 }
        requires number { block ≡ from / 8 }
        ensures { result ≡ mask_l (map (meets reach.now) (take (end - from) (drop from self.now))) }
    {
        let at = block * LANES;
        let whole = self.lanes(at, reach);
        (whole & ((1 << (end - at)) - 1)) >> (from - at)
    }

    /// A bit for each of the eight boxes from `at` on, the first the lowest: whether the box meets `reach`. Bits of
    /// boxes after the table's may be any.
    #[inline(always)]
    fn lanes(&self, at: usize, reach: &Reach) -> u64
        requires within { at < length self.now }
        requires block { at % 8 ≡ 0 }
        ensures { (n : ℕ) → n ≤ 8 → at + n ≤ length self.now
            → result % 2 ^ n ≡ mask_l (map (meets reach.now) (take n (drop at self.now))) }
    {
        know(self.blocks.as_slice());
        let block = &self.blocks[at / LANES];
        let far_x = far_lane(reach.later_x, &block.low_x, &block.high_x);
        let far_y = far_lane(reach.later_y, &block.low_y, &block.high_y);
        let far_z = far_lane(reach.later_z, &block.low_z, &block.high_z);
        let x = i32x8::from_array(block.low_x).simd_le(i32x8::splat(reach.high.x))
            & i32x8::from_array(*far_x).simd_ge(i32x8::splat(reach.low.x));
        let y = i32x8::from_array(block.low_y).simd_le(i32x8::splat(reach.high.y))
            & i32x8::from_array(*far_y).simd_ge(i32x8::splat(reach.low.y));
        let z = i32x8::from_array(block.low_z).simd_le(i32x8::splat(reach.high.z))
            & i32x8::from_array(*far_z).simd_ge(i32x8::splat(reach.low.z));
        (x & y & z).to_bitmask()
    }

    /// A bit for each of the eight boxes from `at` on, the first the lowest: whether the box meets `reach` in steps
    /// of 256, in which it is `rough`. Bits of boxes after the table's may be any.
    #[inline(always)]
    fn coarse_lanes(&self, at: usize, reach: &Reach, rough: &Rough) -> u64
        requires within { at < length self.now }
        requires block { at % 8 ≡ 0 }
        requires rough { IsRough reach.now rough.now }
        ensures { (n : ℕ) → n ≤ 8 → at + n ≤ length self.now
            → result % 2 ^ n ≡ mask_l (map (may_meet reach.now) (take n (drop at self.now))) }
    {
        know(*reach);
        know(self.blocks.as_slice());
        let block = &self.blocks[at / LANES].coarse;
        let sides = &rough.sides;
        let x = i16x8::from_array(block[0]).simd_le(i16x8::splat(sides[3]))
            & i16x8::from_array(block[rough.far_x]).simd_ge(i16x8::splat(sides[0]));
        let y = i16x8::from_array(block[1]).simd_le(i16x8::splat(sides[4]))
            & i16x8::from_array(block[rough.far_y]).simd_ge(i16x8::splat(sides[1]));
        let z = i16x8::from_array(block[2]).simd_le(i16x8::splat(sides[5]))
            & i16x8::from_array(block[rough.far_z]).simd_ge(i16x8::splat(sides[2]));
        (x & y & z).to_bitmask()
    }
}

/// Where the block of eight ends that has the place `from`, or all boxes do.
fn block_end(from: usize, count: usize) -> usize
    requires from { from < count }
    requires few { count < 2 ^ 32 }
    ensures after { from < result }
    ensures is { result ≡ min (from / 8 * 8 + 8) count }
    ensures block { result ≤ from / 8 * 8 + 8 }
    ensures within { result ≤ count }
{
    let end = from / LANES * LANES + LANES;
    if end < count { end } else { count }
}

// The sides that are compared with a low end: low ones where a box has to begin later, else high ones.
#[inline(always)]
fn far_lane<'a>(later: bool, low: &'a [i32; LANES], high: &'a [i32; LANES]) -> &'a [i32; LANES]
    ensures { result.now ≡ cond later low.now high.now }
{
    if later { low } else { high }
}
