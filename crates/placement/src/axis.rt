//! Directions along the grid.
ghost use Rattle.std.specs.Prelude.{◌≡◌, ℕ, ◌≤◌, ◌*ℤ◌};
ghost use Rattle.placement.specs.Frames.{sign_of, IsWithin, most};

/// A direction along one of the grid's axes, or against it.
#[derive(Clone, Copy, Debug, PartialEq, Eq)]
pub struct Axis {
    /// 0 for x, 1 for y, 2 for z.
    pub direction: u8,
    /// Whether it goes against that axis.
    pub negative: bool,
}

impl Axis {
    /// The length along this axis, as a coordinate in the axis's direction.
    pub(crate) fn signed(self, length: i64) -> i64
        requires { IsWithin most length }
        ensures value { result ≡ length *ℤ sign_of self }
        ensures within { (bound : ℕ) → IsWithin bound length → IsWithin bound result }
    {
        if self.negative { -length } else { length }
    }
}
