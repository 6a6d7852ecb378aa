//! How a thread waits for its turn. No contract speaks of time.
ghost use Rattle.std.specs.Prelude.{ℕ, ◌≡◌, ◌<◌, [], length};
ghost use Rattle.book_turn.specs.TurnSteps.{Comes};
ghost use Rattle.book_turn.specs.declared.rule.Stage.TheVariants.{Waiting};

use crate::object::SeqObject;
use crate::tickets::{Board, Place};
use std::hint;
use std::sync::Wait;

impl<O: SeqObject> Board<O> {
    // Looks until the turn has come. Calls stand in a row before they draw, so it has come at the first look.
    pub(crate) fn wait_for<R: Wait>(&self, rt: &R, seat: &mut Place<O>, turn: u64)
        requires own { seat.old.table_id ≡ self.now.table.shared.table_id }
        requires waits { (seat.old.me.0.stage ≡ Waiting turn)
            × (0 < length seat.old.me.0.passes) × (seat.old.me.1 ≡ []) }
        ensures own { (seat.new.table_id ≡ seat.old.table_id) × (seat.new.id ≡ seat.old.id) }
        ensures comes { Comes O.journal O.settings (λ e. (O.stamp_of e).turn) (λ e. (O.stamp_of e).pass)
            turn seat.old.me seat.new.me }
    {
        for _ in rt.forever() {
            let serving = self.look(seat);
            if serving == turn {
                return;
            }
            hint::spin_loop();
        }
        unreachable!()
    }
}
