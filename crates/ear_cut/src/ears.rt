//! Ears: the triangles that are cut off.
// The triangles of a polygon.
ghost use Rattle.std.specs.Prelude.{◌≡◌};
ghost use Rattle.ear_cut.specs.Removal.{ear_of};

use crate::corners::Turn;

/// A triangle by the places of its corners in the polygon's list, from 0.
#[derive(Clone, Copy, Debug, PartialEq, Eq)]
pub struct Ear {
    pub a: u32,
    pub b: u32,
    pub c: u32,
}

/// The triangle at a corner.
pub fn ear_of(t: Turn) -> Ear
    ensures { result ≡ ear_of t }
{
    Ear {
        a: t.before.place,
        b: t.corner.place,
        c: t.after.place,
    }
}
