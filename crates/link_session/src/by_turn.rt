//! A caller by a pass to a book that threads share.
ghost use Rattle.std.specs.Prelude.{Some};
ghost use Rattle.book_turn.specs.Passes.{IsSingle};
ghost use Rattle.book_passes.specs.Lessons.{caller_of};
ghost use Rattle.link_session.specs.Callers.{GoesByPass};

use crate::caller::Caller;
use bim_net::Gate;
use book_history::BookCall;
use book_turn::call_fault::CallFault;
use book_turn::pass::Pass;
use book_turn::turn::{Receipt, Turn};
use federation_book::Book;
use std::alloc::AllocError;
use std::sync::Wait;

/// A caller by a pass, which asks a gate before each call. It does no work after answers: others do.
#[derive(Drop)]
pub struct ByTurn<'a, R: Wait, G: Gate> {
    pub rt: &'a R,
    pub turn: &'a Turn<Book>,
    pub gate: &'a G,
}

impl<'a, R: Wait, G: Gate> Caller for ByTurn<'a, R, G> {
    type Own = Pass<Book>;

    ghost settings = { λ c. c.turn.now.settings };

    ghost buckets = { λ c. Some 0 };

    ghost fits = { λ c pass. IsSingle c.turn.now pass };

    ghost seen = { caller_of };

    ghost goes = { λ c. GoesByPass };

    fn last(&self, own: &Pass<Book>) -> u64 {
        own.last()
    }

    fn call(&self, own: &mut Pass<Book>, call: BookCall) -> Result<Receipt<Book>, CallFault> {
        self.gate.before_call(own.number(), false);
        self.turn.call(self.rt, own, call)
    }

    fn work(&self, own: &mut Pass<Book>) -> Result<(), AllocError> {
        // For the proof alone: the pass is as it was.
        let _own = own;
        Ok(())
    }
}
