//! How many corners faces have.
ghost use Rattle.std.specs.Prelude.{◌<◌, ◌≤◌, ◌+◌, length};
ghost use Rattle.std.specs.Bool.{MatchBool};
ghost use Rattle.faceset.specs.FaceSets.{all_corners, most_corners};
ghost use Rattle.faceset.specs.inner.Cuts.{corner_total};

use crate::sets::{outline, spelled_loops};
use p21_table::{InstanceRef, Values};

/// The most corners that a face may have, those of all its loops together.
pub const MOST_CORNERS: usize = 1_000;

/// Whether loops have more corners than a face may have, where so many come before them.
fn are_too_many(rows: &Values<'_>, before: usize) -> bool
    requires { before ≤ most_corners }
    ensures { MatchBool result (most_corners < before + corner_total rows.now)
        (before + corner_total rows.now ≤ most_corners) }
{
    let mut count = before;
    for row in rows.iter() {
        count += row.items_in().len();
        if count > MOST_CORNERS {
            return true;
        }
    }
    false
}

/// Whether the loops of a face have more corners together than a face may have. It is gone over no further than that.
pub fn has_many_corners(face: &InstanceRef<'_>) -> bool
    ensures { MatchBool result (most_corners < length (all_corners face.now))
        (length (all_corners face.now) ≤ most_corners) }
{
    let count = outline(face).len();
    if count > MOST_CORNERS {
        return true;
    }
    are_too_many(&spelled_loops(face), count)
}
