//! Frames along the grid.
ghost use Rattle.std.specs.Prelude.{◌≡◌, ℕ, ◌+◌, ◌<◌, ◌+ℤ◌, ◌*ℤ◌, MatchOption, IsTrue, ◌↔◌};
ghost use Rattle.bim_model.specs.declared.geometry.Point.{Point};
ghost use Rattle.bim_model.specs.Models.{IsInReach};
ghost use Rattle.placement.specs.Frames.{along, component, carried, IsFrame, IsWithin, AreWithin, IsNear, lengths_of, point_at, most};
ghost use Rattle.ifc_units.specs.Lengths.{reach};

use crate::axis::Axis;
use bim_model::{FARTHEST, Point};

/// Three lengths in grid numbers.
#[derive(Clone, Copy, Debug, PartialEq, Eq)]
pub struct Offset {
    pub x: i64,
    pub y: i64,
    pub z: i64,
}

/// Where an object lies in what it is placed in: the directions of its axes, which differ, and the place of its zero point.
#[derive(Clone, Copy, Debug, PartialEq, Eq)]
pub struct Frame {
    pub x: Axis,
    pub y: Axis,
    pub z: Axis,
    pub offset: Offset,
}

impl Frame {
    /// The frame that leaves each point where it is.
    pub fn identity() -> Frame
        ensures frame { IsFrame result }
        ensures carries { (p : Point) → carried result p ≡ p }
        ensures within { AreWithin 0 result.offset }
    {
        Frame {
            x: Axis {
                direction: 0,
                negative: false,
            },
            y: Axis {
                direction: 1,
                negative: false,
            },
            z: Axis {
                direction: 2,
                negative: false,
            },
            offset: Offset { x: 0, y: 0, z: 0 },
        }
    }

    /// The frame of first `inner`, then this one, which is what `inner` is placed in.
    pub fn then(&self, inner: &Frame) -> Frame
        requires outer { IsFrame self.now }
        requires inner { IsFrame inner.now }
        requires outer_within { AreWithin most self.now.offset }
        requires inner_within { AreWithin most inner.now.offset }
        ensures frame { IsFrame result }
        ensures carries { (p : Point) → carried result p ≡ carried self.now (carried inner.now p) }
        ensures within { (a b : ℕ) → AreWithin a self.now.offset → AreWithin b inner.now.offset
            → AreWithin (a + b) result.offset }
    {
        Frame {
            x: self.turned(inner.x),
            y: self.turned(inner.y),
            z: self.turned(inner.z),
            offset: self.moved(inner.offset),
        }
    }

    /// Where a point of the object lies. None where one of its coordinates is beyond 800 metres.
    pub fn place(&self, point: Point) -> Option<Point>
        requires frame { IsFrame self.now }
        requires within { AreWithin most self.now.offset }
        ensures { MatchOption result (IsInReach (carried self.now point) → ⊥)
            (λ placed. (placed ≡ carried self.now point) × IsInReach placed) }
    {
        in_reach(self.moved(lengths_of(point)))
    }

    /// Where a point of the object lies, wherever that is.
    pub fn carry(&self, point: Point) -> Point
        requires frame { IsFrame self.now }
        requires within { AreWithin reach self.now.offset }
        requires reach { IsInReach point }
        ensures { result ≡ carried self.now point }
    {
        short_point(self.moved(lengths_of(point)))
    }

    /// Three lengths along the frame's axes, from its zero point.
    fn moved(&self, lengths: Offset) -> Offset
        requires frame { IsFrame self.now }
        requires outer { AreWithin most self.now.offset }
        requires inner { AreWithin most lengths }
        ensures x { result.x ≡ self.now.offset.x +ℤ component self.now lengths 0 }
        ensures y { result.y ≡ self.now.offset.y +ℤ component self.now lengths 1 }
        ensures z { result.z ≡ self.now.offset.z +ℤ component self.now lengths 2 }
        ensures within { (a b : ℕ) → AreWithin a self.now.offset → AreWithin b lengths
            → AreWithin (a + b) result }
    {
        Offset {
            x: self.offset.x + self.component(lengths, 0),
            y: self.offset.y + self.component(lengths, 1),
            z: self.offset.z + self.component(lengths, 2),
        }
    }

    /// What three lengths along the frame's axes make in a direction.
    fn component(&self, lengths: Offset, direction: u8) -> i64
        requires frame { IsFrame self.now }
        requires known { direction < 3 }
        requires within { AreWithin most lengths }
        ensures value { result ≡ component self.now lengths direction }
        ensures within { (bound : ℕ) → AreWithin bound lengths → IsWithin bound result }
    {
        if self.x.direction == direction {
            self.x.signed(lengths.x)
        } else if self.y.direction == direction {
            self.y.signed(lengths.y)
        } else {
            self.z.signed(lengths.z)
        }
    }

    /// An axis of an object in this frame.
    fn turned(&self, axis: Axis) -> Axis
        requires { axis.direction < 3 }
        ensures first { axis.direction ≡ 0 → result.direction ≡ self.now.x.direction }
        ensures second { axis.direction ≡ 1 → result.direction ≡ self.now.y.direction }
        ensures third { axis.direction ≡ 2 → result.direction ≡ self.now.z.direction }
        ensures value { (k : ℕ) → along result k
            ≡ along axis 0 *ℤ along self.now.x k +ℤ along axis 1 *ℤ along self.now.y k
            +ℤ along axis 2 *ℤ along self.now.z k }
    {
        let to = match axis.direction {
            0 => self.x,
            1 => self.y,
            _ => self.z,
        };
        Axis {
            direction: to.direction,
            negative: to.negative != axis.negative,
        }
    }
}

pub(crate) fn lengths_of(point: Point) -> Offset
    ensures value { result ≡ lengths_of point }
    ensures within { AreWithin most result }
{
    Offset {
        x: point.x as i64,
        y: point.y as i64,
        z: point.z as i64,
    }
}

/// The point at three coordinates, none of which is beyond 800 metres.
fn in_reach(at: Offset) -> Option<Point>
    requires { AreWithin (most + most) at }
    ensures { MatchOption result (IsInReach (point_at at) → ⊥) (λ p. (p ≡ point_at at) × IsInReach p) }
{
    if is_near(at.x) && is_near(at.y) && is_near(at.z) {
        Some(Point {
            x: at.x as i32,
            y: at.y as i32,
            z: at.z as i32,
        })
    } else {
        None
    }
}

/// The point at three coordinates, none of which is beyond 1,600 metres.
fn short_point(at: Offset) -> Point
    requires { AreWithin (reach + reach) at }
    ensures { result ≡ point_at at }
{
    Point {
        x: at.x as i32,
        y: at.y as i32,
        z: at.z as i32,
    }
}

fn is_near(length: i64) -> bool
    ensures { IsTrue result ↔ IsNear length }
{
    let farthest = FARTHEST as i64;
    -farthest <= length && length <= farthest
}
