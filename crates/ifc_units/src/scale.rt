//! The scale of lengths.
ghost use Rattle.std.specs.Prelude.{◌≤◌};

/// A unit of length, as `factor` times ten to `power` millimetres: 1 and 3 for the metre, 254 and -1 for the inch, 3,048 and -1 for
/// the foot.
#[derive(Clone, Copy, Debug, PartialEq, Eq)]
pub struct Scale {
    pub factor: u64,
    pub power: i32,
    ghost small: { factor ≤ 3048 },
}
