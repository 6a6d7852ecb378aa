//! What follows of the definitions alone.
ghost use Rattle.std.specs.Prelude.{◌≤◌, List};
ghost use Rattle.book_turn.specs.Passes.{PassState, HasSeen, IsFrontOf};

use crate::object::SeqObject;

/// Of two passes that have seen one history, each up to its last turn, the one whose last turn is the earlier has seen a
/// front of what the other has, with all its own entries.
pub fn seen_fronts_agree<O: SeqObject>()
    ensures { (history : List O.Entry) (first second : PassState O.Entry O.Settings)
        → HasSeen O.stamp_of history first → HasSeen O.stamp_of history second → first.last ≤ second.last
        → IsFrontOf O.stamp_of first second }
{}
