//! A pass to a turn: what one caller knows of the history.
ghost use Rattle.std.specs.Prelude.{◌≡◌};
ghost use Rattle.book_turn.specs.NumberLists.{greatest};
ghost use Rattle.book_turn.specs.Passes.{pass_state, IsIdle};

use crate::object::SeqObject;
use crate::rule::View;
use crate::tickets::Place;
use atomic_table::Seat;
use std::marker::Model;

/// One caller's right to call the object of a turn, and what it has seen of the history.
///
/// It may go to another thread. A pass that is dropped takes its number with it, and its turn can't be
/// closed.
pub struct Pass<O: SeqObject> {
    pub(crate) seat: Seat<Option<O>, View<O::Entry, O::Settings>>,
    pub(crate) number: u32,
    pub(crate) made: u64,
    pub(crate) last: u64,
}

impl<O: SeqObject> Model for Pass<O> {
    ghost use Rattle.book_turn.specs.Passes.{PassState, pass_state, IsIdle};

    ghost Value = { PassState O.Entry O.Settings };

    ghost view = { λ p. pass_state p.seat p.number p.made };

    ghost invariant = { λ p. IsIdle p.seat p.number p.made p.last };
}

impl<O: SeqObject> Pass<O> {
    /// The pass's number, which its entries carry. The passes of a turn have the numbers from 0 on.
    pub fn number(&self) -> u32
        ensures { result ≡ self.now.number }
    {
        self.number
    }

    /// The greatest turn that the pass, or a pass that was joined into it, has taken, with a reply or without
    /// memory. 0 before the first.
    pub fn last(&self) -> u64
        ensures last { result ≡ self.now.last }
        ensures greatest { result ≡ greatest self.now.turns }
    {
        self.last
    }

    pub(crate) fn into_parts(self) -> (Place<O>, u64)
        ensures { (pass_state result.0 self.number self.made ≡ self)
            × IsIdle result.0 self.number self.made result.1 }
    {
        let Self {
            seat,
            number: _,
            made: _,
            last,
        } = self;
        (seat, last)
    }
}

impl<O: SeqObject> Drop for Pass<O> {
    fn drop(self) {
        let Self {
            seat: _,
            number: _,
            made: _,
            last: _,
        } = self;
    }
}
