//! A turn: an object that threads share, and the calls on it.
ghost use Rattle.std.specs.Prelude.{ℕ, ◌≡◌, ◌<◌, ◌≤◌, [], length, IfOk, IfErr, All};
ghost use Rattle.book_turn.specs.Passes.{BelongsTo, IsSingle, KeepsNumbers, new_passes, Answered, Joined};
ghost use Rattle.book_turn.specs.Entries.{AllBefore};
ghost use Rattle.book_turn.specs.TurnFaults.{Failed};
ghost use Rattle.book_turn.specs.PassViews.{dealt_view};

use crate::call_fault::{CallFault, SpentPass};
use crate::limits::{MOST_PASSES, MOST_TURNS};
use crate::object::SeqObject;
use crate::pass::Pass;
use crate::tickets::{Board, Place, board_of};
use std::alloc::{AllocError, Global};
use std::marker::Model;
use std::sync::{Mutex, Wait};

/// What a call was answered, and in which turn.
#[derive(Drop)]
pub struct Receipt<O: SeqObject> {
    /// From 1 on. No two calls have the same.
    pub turn: u64,
    pub reply: O::Reply,
}

/// An object whose calls take turns. Threads share it by reference, and each calls by a pass of its own.
#[derive(Drop)]
pub struct Turn<O: SeqObject> {
    board: Board<O>,
    // Who has it draws the next turn, so that no turn waits for a thread that doesn't run.
    row: Mutex<()>,
}

impl<O: SeqObject> Model for Turn<O> {
    ghost use Rattle.std.specs.Prelude.{◌<◌};
    ghost use Rattle.book_turn.specs.Passes.{TurnState};

    ghost Value = { TurnState O.Settings };

    ghost view = { λ t. record {
      turn_id = t.board.table.shared.table_id;
      settings = O.settings t.board.table.shared.key.object.value;
      passes = t.board.table.shared.key.passes;
    } };

    ghost invariant = { λ t. 0 < t.board.table.shared.key.passes };
}

impl<O: SeqObject> Turn<O> {
    /// A turn over an object whose journal is empty, and its passes, in the order of their numbers from 0 on.
    /// At an `Err` the object is dropped.
    pub fn new(alloc: Global, object: O, passes: u32) -> Result<(Turn<O>, Vec<Pass<O>>), AllocError>
    where
        O: Drop,
        requires passes { (0 < passes) × (passes ≤ MOST_PASSES) }
        requires empty { O.journal object ≡ [] }
        ensures turn { IfOk result (λ r. (r.0.settings ≡ O.settings object) × (r.0.passes ≡ passes)) }
        ensures passes { IfOk result (λ r. r.1.items ≡ new_passes r.0 0 passes) }
        ensures single { IfOk result (λ r. All (IsSingle r.0) r.1.items) }
    {
        let (board, seat) = board_of(alloc, object, passes)?;
        let all = deal(alloc, &board, seat, passes)?;
        let row = Mutex::new(());
        Ok((Turn { board, row }, all))
    }

    /// Takes the next turn, waits until it comes, and has the object answer the request at the entries with
    /// earlier turns. From then on the pass has seen these, and the call's own entry, if it added one.
    pub fn call<R: Wait>(
        &self,
        rt: &R,
        pass: &mut Pass<O>,
        request: O::Request,
    ) -> Result<Receipt<O>, CallFault>
        requires own { BelongsTo self.now pass.old }
        requires legal { O.is_legal self.now.settings pass.old.seen request }
        ensures own { BelongsTo self.now pass.new }
        ensures same { KeepsNumbers pass.old pass.new }
        ensures answered { IfOk result (λ r. Answered O.stamp_of O.reply_of O.added_by self.now.settings
            r.turn request r.reply pass.old pass.new) }
        ensures failed { IfErr result (λ e. Failed O.stamp_of pass.old pass.new e) }
    {
        if pass.made >= MOST_TURNS {
            let spent = SpentPass::new(pass.number, pass.made);
            return Err(CallFault::PassSpent(spent));
        }
        let first = self.row.lock(rt);
        let (turn, answer) = self
            .board
            .take_turn(rt, &mut pass.seat, pass.number, pass.made + 1, request);
        drop(first);
        pass.made += 1;
        pass.last = turn;
        match answer {
            Ok(reply) => Ok(Receipt { turn, reply }),
            Err(_) => Err(CallFault::Memory),
        }
    }

    /// Takes another pass into this one, which has then seen what both had. It keeps its own number.
    pub fn join(&self, into: &mut Pass<O>, other: Pass<O>)
        requires into { BelongsTo self.now into.old }
        requires other { BelongsTo self.now other }
        ensures own { BelongsTo self.now into.new }
        ensures joined { Joined O.stamp_of into.old other into.new }
    {
        let (seat, last) = other.into_parts();
        self.board.glue(&mut into.seat, seat);
        into.last = into.last.max(last);
    }

    /// Gives the object back, by the pass into which every other was joined. What it has seen is the journal,
    /// and each entry of it was made by one of the turn's passes.
    pub fn close(self, pass: Pass<O>) -> O
        requires own { BelongsTo self pass }
        requires all { length pass.numbers ≡ self.passes }
        ensures journal { O.journal result ≡ pass.seen }
        ensures settings { O.settings result ≡ self.settings }
        ensures passes { AllBefore (λ e. (O.stamp_of e).pass) self.passes (O.journal result) }
    {
        let Turn { board, row: _ } = self;
        let (seat, _) = pass.into_parts();
        board.close(seat)
    }
}

// Deals the passes: each has one number.
fn deal<O: SeqObject>(
    alloc: Global,
    board: &Board<O>,
    mut seat: Place<O>,
    passes: u32,
) -> Result<Vec<Pass<O>>, AllocError>
    requires passes { 0 < passes }
    requires own { seat.table_id ≡ board.now.table.shared.table_id }
    requires seat { seat.me ≡ (dealt_view (O.settings board.now.table.shared.key.object.value) 0 passes, []) }
    ensures { IfOk result (λ all. all.items ≡ new_passes (record {
      turn_id = board.entry.now.table.shared.table_id;
      settings = O.settings board.entry.now.table.shared.key.object.value;
      passes = board.entry.now.table.shared.key.passes;
    }) 0 passes) }
{
    let mut all = Vec::new(alloc);
    for number in 0..passes - 1 {
        let other = board.cut(&mut seat);
        let pass = Pass {
            seat: other,
            number,
            made: 0,
            last: 0,
        };
        all.push(pass)?;
    }
    let pass = Pass {
        seat,
        number: passes - 1,
        made: 0,
        last: 0,
    };
    all.push(pass)?;
    Ok(all)
}
