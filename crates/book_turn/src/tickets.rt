//! The table that the passes of a turn share, and a seat's steps on it.
ghost use Rattle.std.specs.Prelude.{ℕ, ◌≡◌, ◌<◌, ◌≤◌, ◌^◌, ◌+◌, ◌*◌, [], ◌∷◌, ◌++◌, Some, length, true, IfSome, IfOk};
ghost use Rattle.book_turn.specs.PassViews.{kept_view, given_view, first_view};
ghost use Rattle.book_turn.specs.TurnSteps.{drew, looked, passed, Adds, Glued, Comes, Serves, TakesTurn};
ghost use Rattle.book_turn.specs.Entries.{AllBefore};
ghost use Rattle.book_turn.specs.NumberLists.{has};
ghost use Rattle.atomic_table.specs.Table.{step};
ghost use Rattle.book_turn.specs.declared.rule.Stage.TheVariants.{Free, Waiting, Called};
ghost use mathlib.Core.Option.{none};

use crate::limits::{MOST_PASSES, MOST_TURNS};
use crate::object::{SeqObject, Stamp};
use crate::plays::{Compare, Cut, Draw, Glue, Look, Pass as GoOn};
use crate::rule::{InTurn, Key, View};
use atomic_table::{Seat, Table};
use std::alloc::{AllocError, Global};
use std::snapshot::Snapshot;
use std::sync::Wait;

// The turn that is drawn next.
const TICKET: usize = 0;

// The turn that is served.
const SERVING: usize = 1;

const WORDS: usize = 2;

pub(crate) type Place<O: SeqObject> = Seat<Option<O>, View<O::Entry, O::Settings>>;

/// The table, with two counters and the place of the object.
#[derive(Drop)]
pub struct Board<O: SeqObject> {
    pub(crate) table: Table<Option<O>, View<O::Entry, O::Settings>, Key<O>, InTurn<O>, Global>,
    ghost sized: { (table.shared.table_id.words ≡ 2) × (table.shared.table_id.slots ≡ 1) },
}

impl<O: SeqObject> Board<O> {
    // Draws the next turn.
    fn draw(&self, seat: &mut Place<O>) -> u64
        requires own { seat.old.table_id ≡ self.now.table.shared.table_id }
        requires free { (seat.old.me.0.stage ≡ Free) × (0 < length seat.old.me.0.passes) }
        requires few { length seat.old.me.0.turns < MOST_TURNS * length seat.old.me.0.passes }
        ensures own { (seat.new.table_id ≡ seat.old.table_id) × (seat.new.id ≡ seat.old.id) }
        ensures drew { drew (step 1 0 1 0 none) seat.old.me result seat.new.me }
    {
        self.table.shared.fetch_add::<Draw>(seat, TICKET, 1)
    }

    // Looks whether the turn has come.
    pub(crate) fn look(&self, seat: &mut Place<O>) -> u64
        requires own { seat.old.table_id ≡ self.now.table.shared.table_id }
        requires waits { (t : ℕ) × (seat.old.me.0.stage ≡ Waiting t)
            × (0 < length seat.old.me.0.passes) × (seat.old.me.1 ≡ []) }
        ensures own { (seat.new.table_id ≡ seat.old.table_id) × (seat.new.id ≡ seat.old.id) }
        ensures looked { looked O.journal O.settings (λ e. (O.stamp_of e).turn) (λ e. (O.stamp_of e).pass)
            (step 1 1 0 0 none) seat.old.me result seat.new.me }
    {
        self.table.shared.load::<Look>(seat, SERVING)
    }

    // Puts the object back, with what it has become, and lets the next turn come.
    fn pass_on(&self, seat: &mut Place<O>)
        requires own { seat.old.table_id ≡ self.now.table.shared.table_id }
        requires called { (t : ℕ) × (o : O) × (seat.old.me.0.stage ≡ Called t)
            × (0 < length seat.old.me.0.passes) × (seat.old.me.1 ≡ (0, Some o) ∷ [])
            × Adds O.journal O.settings (λ e. (O.stamp_of e).turn) (λ e. (O.stamp_of e).pass)
            t o seat.old.me.0 }
        ensures own { (seat.new.table_id ≡ seat.old.table_id) × (seat.new.id ≡ seat.old.id) }
        ensures passed { passed O.journal (step 1 1 1 0 none) seat.old.me 0 seat.new.me }
    {
        let _ = self.table.shared.fetch_add::<GoOn>(seat, SERVING, 1);
    }

    // Cuts a further pass off.
    pub(crate) fn cut(&self, seat: &mut Place<O>) -> Place<O>
        requires own { seat.old.table_id ≡ self.now.table.shared.table_id }
        requires free { (seat.old.me.0.stage ≡ Free)
            × (1 < length seat.old.me.0.passes) × (seat.old.me.0.turns ≡ []) }
        ensures own { (seat.new.table_id ≡ seat.old.table_id) × (seat.new.id ≡ seat.old.id)
            × (result.table_id ≡ seat.old.table_id) }
        ensures cut { (seat.new.me ≡ (kept_view seat.old.me.0, seat.old.me.1))
            × (result.me ≡ (given_view seat.old.me.0, [])) }
    {
        self.table.shared.split_seat::<Cut>(seat)
    }

    // Takes another seat in, and compares what both have seen.
    pub(crate) fn glue(&self, seat: &mut Place<O>, other: Place<O>)
        requires own { (seat.old.table_id ≡ self.now.table.shared.table_id)
            × (other.table_id ≡ self.now.table.shared.table_id) }
        requires free { (seat.old.me.0.stage ≡ Free)
            × (0 < length seat.old.me.0.passes) × (seat.old.me.1 ≡ []) }
        requires other { (other.me.0.stage ≡ Free) × (0 < length other.me.0.passes) × (other.me.1 ≡ []) }
        ensures own { (seat.new.table_id ≡ seat.old.table_id) × (seat.new.id ≡ seat.old.id) }
        ensures glued { Glued (λ e. (O.stamp_of e).turn) (λ e. (O.stamp_of e).pass)
            seat.old.me.0 other.me.0 seat.new.me.0
            × (seat.new.me.1 ≡ []) }
    {
        self.table.shared.join_seat::<Glue>(seat, other);
        self.table.shared.load::<Compare>(seat, TICKET);
    }

    // Lets the object answer, while it is at hand, and lets the next turn come.
    fn serve(
        &self,
        seat: &mut Place<O>,
        stamp: Stamp,
        request: O::Request,
    ) -> Result<O::Reply, AllocError>
        requires own { seat.old.table_id ≡ self.now.table.shared.table_id }
        requires called { (o : O) × (seat.old.me.0.stage ≡ Called stamp.turn)
            × (seat.old.me.1 ≡ (0, Some o) ∷ []) × (O.journal o ≡ seat.old.me.0.seen)
            × (seat.old.me.0.settings ≡ Some (O.settings o))
            × O.is_legal (O.settings o) seat.old.me.0.seen request }
        requires after { AllBefore (λ e. (O.stamp_of e).turn) stamp.turn seat.old.me.0.seen }
        requires named { has stamp.pass seat.old.me.0.passes ≡ true }
        ensures own { (seat.new.table_id ≡ seat.old.table_id) × (seat.new.id ≡ seat.old.id) }
        ensures done { Serves O.reply_of O.added_by stamp request seat.old.me.0 seat.new.me.0 result
            × (seat.new.me.1 ≡ []) }
    {
        let hand = self.table.shared.exchange(seat, 0, None);
        let Some(mut object) = hand else {
            unreachable!()
        };
        let answer = object.act(stamp, request);
        let empty = self.table.shared.exchange(seat, 0, Some(object));
        let None = empty else { unreachable!() };
        self.pass_on(seat);
        answer
    }

    // Takes a turn: draws it, waits for it, and lets the object answer.
    pub(crate) fn take_turn<R: Wait>(
        &self,
        rt: &R,
        seat: &mut Place<O>,
        number: u32,
        call: u64,
        request: O::Request,
    ) -> (u64, Result<O::Reply, AllocError>)
        requires own { seat.old.table_id ≡ self.now.table.shared.table_id }
        requires free { (seat.old.me.0.stage ≡ Free) × (seat.old.me.1 ≡ [])
            × (has number seat.old.me.0.passes ≡ true) }
        requires few { length seat.old.me.0.turns < MOST_TURNS * length seat.old.me.0.passes }
        requires legal { IfSome seat.old.me.0.settings (λ s. O.is_legal s seat.old.me.0.seen request) }
        ensures own { (seat.new.table_id ≡ seat.old.table_id) × (seat.new.id ≡ seat.old.id)
            × (seat.new.me.1 ≡ []) }
        ensures taken { TakesTurn O.stamp_of O.reply_of O.added_by result.0 number call request
            seat.old.me.0 seat.new.me.0 result.1 }
    {
        let turn = self.draw(seat);
        self.wait_for(rt, seat, turn);
        let stamp = Stamp {
            turn,
            pass: number,
            call,
        };
        let answer = self.serve(seat, stamp, request);
        (turn, answer)
    }

    // The object, by the seat that has all numbers.
    pub(crate) fn close(self, seat: Place<O>) -> O
        requires own { seat.table_id ≡ self.table.shared.table_id }
        requires free { seat.me.0.stage ≡ Free }
        requires all { (length seat.me.0.passes ≡ self.table.shared.key.passes)
            × (0 < self.table.shared.key.passes) }
        ensures journal { O.journal result ≡ seat.me.0.seen }
        ensures settings { O.settings result ≡ O.settings self.table.shared.key.object.value }
        ensures passes { AllBefore (λ e. (O.stamp_of e).pass) self.table.shared.key.passes
            (O.journal result) }
    {
        let Board { table } = self;
        let mut closed = table.close_with(seat);
        let slot = closed.take(0);
        closed.free();
        let Some(object) = slot else { unreachable!() };
        object
    }
}

// Turn 1 is served, and no turn was drawn.
fn first_words() -> [u64; WORDS]
    ensures { result ≡ 1 ∷ 1 ∷ [] }
{
    let mut words = [0; WORDS];
    words[TICKET] = 1;
    words[SERVING] = 1;
    words
}

// The board, and the seat that has all numbers.
pub(crate) fn board_of<O: SeqObject + Drop>(
    alloc: Global,
    object: O,
    passes: u32,
) -> Result<(Board<O>, Place<O>), AllocError>
    requires passes { (0 < passes) × (passes ≤ MOST_PASSES) }
    requires empty { O.journal object ≡ [] }
    ensures board { IfOk result (λ r. (r.0.table.shared.key.passes ≡ passes)
        × (O.settings r.0.table.shared.key.object.value ≡ O.settings object)) }
    ensures seat { IfOk result (λ r. (r.1.table_id ≡ r.0.table.shared.table_id)
        × (r.1.me ≡ (first_view (O.settings object) passes, []))) }
{
    let about = Key {
        object: Snapshot::of(&object),
        passes: u64::from(passes),
    };
    let mut slots = Vec::new(alloc);
    slots.push(Some(object))?;
    match Table::new(alloc, &first_words(), slots, &about) {
        Ok((table, seat)) => Ok((Board { table }, seat)),
        Err(_) => Err(AllocError),
    }
}
