//! A book that one thread calls and works for, with turns counted from 1.
ghost use Rattle.std.specs.Prelude.{◌≡◌, ◌<◌, ◌≤◌, ◌+◌, [], IfOk, OnOk, OnErr};
ghost use Rattle.bucket_grid.specs.Cells.{IsBucket};
ghost use Rattle.book_history.specs.History.{IsBefore, left_all};
ghost use Rattle.book_history.specs.Legal.{IsLegal};
ghost use Rattle.bim_session.specs.Works.{IsFoundFor};
ghost use Rattle.bim_session.specs.Replay.{stated_settings};
ghost use Rattle.server_commands.specs.inner.Turns.{Calls, left_of};
ghost use Rattle.server_commands.specs.inner.BucketWork.{WorksBucket, WorksPart, WorksUpTo, WorksLess, WorksAll, WorksSome};

use bim_model::{Shared, Steps, know};
use book_history::{BookCall, BookRequest, Limits, MOST_PROJECTS, ReplyBody, Stamp, WorkOrder};
use book_turn::turn::Receipt;
use bucket_check::{BucketSet, Room, check};
use federation_book::Book;
use std::alloc::{AllocError, Global};
use std::marker::{Brand, Model};
use std::mem::drop;
use std::sync::ledger::{Blank, Ledger};

/// A book, how many turns were taken of it, and room for the work on its buckets.
#[derive(Drop)]
pub struct OneThread {
    book: Book,
    turns: u64,
    room: Room,
}

impl Model for OneThread {
    ghost use Rattle.std.specs.Prelude.{◌+◌};
    ghost use Rattle.book_history.specs.History.{IsBefore};
    ghost use Rattle.server_commands.specs.inner.Turns.{ServerState};

    ghost Value = { ServerState };

    ghost view = { λ s. record { settings = s.book.settings; history = s.book.journal; turns = s.turns } };

    ghost invariant = { λ s. IsBefore (s.turns + 1) s.book.journal };
}

// What is found for the bucket of an order.
fn set_of<L: Ledger>(
    alloc: Global,
    blank: Blank,
    room: &mut Room,
    order: WorkOrder,
) -> Result<Shared<BucketSet>, AllocError>
    requires name { blank.name ≡ L.name }
    requires parts { blank.parts ≡ L.parts }
    requires some { 0 < blank.parts }
    ensures set { IfOk result (IsFoundFor order) }
    ensures bucket { IfOk result (λ set. IsBucket set.work.grid.boxes set.work.cell) }
{
    let mut steps = Steps::<L>::new(blank);
    let set = check(alloc, order.into_work(), room, &mut steps)?;
    Shared::new(alloc, set)
}

impl OneThread {
    /// A book of 1 to 8 projects, with nothing in it.
    pub fn new(alloc: Global, projects: u32) -> Result<OneThread, AllocError>
        requires some { 1 ≤ projects }
        requires few { projects ≤ MOST_PROJECTS }
        ensures { IfOk result (λ s. s
            ≡ record { settings = stated_settings projects; history = []; turns = 0 }) }
    {
        Ok(OneThread {
            book: Book::new(alloc, projects, Limits::stated())?,
            turns: 0,
            room: Room::new(alloc),
        })
    }

    /// How many turns were taken.
    pub fn turns(&self) -> u64
        ensures { result ≡ self.now.turns }
    {
        self.turns
    }

    /// How many buckets of live versions are to be checked.
    pub fn left_all(&self) -> u64
        ensures { result ≡ left_of self.now }
    {
        self.book.left_all()
    }

    /// Answers a call at the next turn. An `Err` takes no turn and changes nothing. The number of the last turn fits
    /// 64 bits: a call that would take one more is an `Err`.
    pub fn call(&mut self, call: BookCall) -> Result<Receipt<Book>, AllocError>
        requires { IsLegal self.old.settings self.old.history call.request }
        ensures receipt { Calls call self.old result self.new }
        ensures before { IsBefore (self.new.turns + 1) self.new.history }
        ensures settings { self.new.settings ≡ self.old.settings }
    {
        let Some(turn) = self.turns.checked_add(1) else {
            drop(call);
            return Err(AllocError);
        };
        let stamp = Stamp {
            turn,
            pass: 0,
            call: turn,
        };
        let reply = self.book.act(stamp, call)?;
        self.turns = turn;
        Ok(Receipt { turn, reply })
    }

    // Works a bucket: it is given out at one turn, and its set is brought at the next. An `Err` may come between.
    fn work_one(&mut self, alloc: Global) -> Result<(), AllocError>
        requires { 0 < left_of self.old }
        ensures ok { OnOk result (WorksBucket self.old self.new) }
        ensures err { OnErr result (WorksPart self.old self.new) }
        ensures before { IsBefore (self.new.turns + 1) self.new.history }
        ensures settings { self.new.settings ≡ self.old.settings }
    {
        let call = BookCall {
            seen: None,
            request: BookRequest::TakeWork { seat: 0 },
        };
        let receipt = self.call(call)?;
        let ReplyBody::Work(order) = receipt.reply.body else {
            unreachable!()
        };
        let set = set_of::<Brand>(alloc, Blank::new(1), &mut self.room, order)?;
        let call = BookCall {
            seen: None,
            request: BookRequest::Finish { set },
        };
        let brought = self.call(call)?;
        drop(brought);
        Ok(())
    }

    // Works buckets until none is to be checked, at most so many.
    fn work_up_to(&mut self, alloc: Global, most: u64) -> Result<(), AllocError>
        ensures ok { OnOk result (WorksUpTo most self.old self.new) }
        ensures err { OnErr result (WorksLess most self.old self.new) }
        ensures before { IsBefore (self.new.turns + 1) self.new.history }
        ensures settings { self.new.settings ≡ self.old.settings }
    {
        know(&self.book);
        for _done in 0..most {
            if self.left_all() == 0 {
                return Ok(());
            }
            self.work_one(alloc)?;
        }
        Ok(())
    }

    /// Works buckets until none is to be checked, at most so many where so many are said. An `Err` stops between two
    /// turns.
    pub fn work(&mut self, alloc: Global, buckets: Option<u64>) -> Result<(), AllocError>
        ensures ok { OnOk result (WorksAll buckets self.old self.new) }
        ensures err { OnErr result (WorksSome buckets self.old self.new) }
        ensures before { IsBefore (self.new.turns + 1) self.new.history }
        ensures settings { self.new.settings ≡ self.old.settings }
    {
        match buckets {
            Some(most) => self.work_up_to(alloc, most),
            None => {
                self.work_up_to(alloc, u64::MAX)?;
                // each bucket takes two turns, so there can't have been so many
                know(self.turns());
                Ok(())
            }
        }
    }
}
