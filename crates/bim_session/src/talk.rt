//! One connection as a machine without input or output, which asks a clock.
ghost use Rattle.std.specs.Prelude.{◌≡◌, ◌↔◌, ◌+◌, ◌<◌, ◌≤◌, ℕ, Option, [], None, Some, Ok, false, IsTrue, IsSome, IsOk, IfOk, IfSome, OnOk, OnErr};
ghost use Rattle.bim_model.specs.Moments.{IsMoment};
ghost use Rattle.http_frame.specs.Framers.{Stands};
ghost use Rattle.bim_session.specs.Session.{most_requests, closes_after, continue_bytes, answer_by, IsFaultResponse};
ghost use Rattle.bcf_http.specs.Answers.{IsResponse};
ghost use Rattle.bim_session.specs.ShelfNotes.{project_read, Noted};
ghost use Rattle.bim_session.specs.declared.notes.Notes.{Notes};
ghost use Rattle.bim_session.specs.Talking.{fresh, Feeds, Stays, with_answer, with_call, with_fault, with_framer, with_memory, with_notes, with_spent, with_end, AsksFor, waiting_on, IsNoted, KeepsNone, WantsFor, Writes, Wants, StopsNext, LacksNext, Replies, LacksFor, AtRest, IsReady, IsOwnEnd, IsOwnLeaving, IsOwnWant, leaving_after, asks_change, is_refusal, changes_nothing, IsCallable};

use crate::calls::{AskedCall, call_of};
use crate::end::SessionEnd;
use crate::notes::{Notes, project_read};
use crate::want::{Waiting, Want};
use bcf_http::{Answer, ReplyKind, to_response};
use bim_io::Clock;
use bim_model::Bytes;
use book_history::{BookCall, BookReply, BookRequest, ReplyBody};
use book_turn::call_fault::CallFault;
use book_turn::turn::Receipt;
use federation_book::Book;
use http_frame::{FrameError, FrameFault, FrameStep, Framer, HttpRequest};
use http_routes::Routes;
use odata_filter::Listing;
use std::alloc::{AllocError, Global};
use std::marker::Model;
use std::mem::drop;

/// The most requests that a session is answered.
pub const MOST_REQUESTS: u64 = 10_000;

/// The most bytes that a session takes by one read.
pub const MOST_READ: usize = 16_384;

const CONTINUE: &str = "HTTP/1.1 100 Continue\r\n\r\n";

/// One connection. It stands for the bytes fed that follow the last request that it took.
#[derive(Drop)]
pub struct Talk {
    alloc: Global,
    framer: Framer,
    routes: Routes,
    ended: bool,
    served: u64,
    waits: Option<Waiting>,
    notes: Notes,
    leaving: Option<SessionEnd>,
}

impl Model for Talk {
    ghost use Rattle.std.specs.Prelude.{◌≡◌, ◌<◌, ◌≤◌, None};
    ghost use Rattle.std.specs.Coded.{codes};
    ghost use Rattle.http_frame.specs.contracts.framer.Framer as the_framer;
    ghost use Rattle.odata_filter.specs.contracts.filter.Filter as the_filter;
    ghost use Rattle.bim_session.specs.Session.{most_requests};
    ghost use Rattle.bim_session.specs.Talking.{TalkState, IsOwnLeaving};

    ghost Value = { TalkState };

    ghost coded = { Prim.hlevel (codes, the_framer.the_row.coded, the_filter.the_row.coded) };

    ghost view = { λ t. record {
      framer = t.framer;
      ended = t.ended;
      served = t.served;
      waits = t.waits;
      notes = t.notes;
      leaving = t.leaving;
    } };

    ghost invariant = { λ t. (t.served ≤ most_requests) × (t.leaving ≡ None → t.served < most_requests)
        × IsOwnLeaving t.leaving };
}

// Whether the connection is closed after the answer to the request of this number.
fn closes_after(request: &HttpRequest, number: u64) -> bool
    ensures { result ≡ closes_after request.now number }
{
    request.close || number == MOST_REQUESTS
}

fn leaving_after(number: u64, close: bool) -> Option<SessionEnd>
    requires { number ≤ most_requests }
    ensures value { result ≡ leaving_after number close }
    ensures few { result ≡ None → number < most_requests }
    ensures own { IsOwnLeaving result }
{
    if number == MOST_REQUESTS {
        Some(SessionEnd::Spent { served: number })
    } else if close {
        Some(SessionEnd::Asked { served: number })
    } else {
        None
    }
}

// The requests that ask for a change are listed; all others read.
fn asks_change(request: &BookRequest) -> bool
    ensures { result ≡ asks_change request.now }
{
    match request {
        BookRequest::Upload { .. } => true,
        BookRequest::Remove { .. } => true,
        BookRequest::SetRules { .. } => true,
        BookRequest::ClashTopic { .. } => true,
        BookRequest::PostTopic { .. } => true,
        BookRequest::PutTopic { .. } => true,
        BookRequest::DeleteTopic { .. } => true,
        BookRequest::PostComment { .. } => true,
        BookRequest::PutComment { .. } => true,
        BookRequest::DeleteComment { .. } => true,
        BookRequest::PostView { .. } => true,
        BookRequest::DeleteView { .. } => true,
        BookRequest::Finish { .. } => true,
        _ => false,
    }
}

fn is_refusal(reply: &ReplyBody) -> bool
    ensures { result ≡ is_refusal reply.now }
{
    match reply {
        ReplyBody::Refused(_) => true,
        _ => false,
    }
}

fn changes_nothing(changes: bool, reply: &ReplyBody) -> bool
    ensures { result ≡ changes_nothing changes reply.now }
{
    !changes || is_refusal(reply)
}

// The bytes of the response to an answer, which is large, and so is let go by a call.
fn response_of(
    alloc: Global,
    answer: Answer,
    kind: ReplyKind,
    turn: Option<u64>,
    close: bool,
) -> Result<Bytes, AllocError>
    ensures { IfOk result (IsResponse answer kind turn close) }
{
    let bytes = to_response(alloc, &answer, kind, turn, close);
    drop(answer);
    bytes
}

// The answer that a reply of the book makes, whose topics may be listed; what is noted of it is the reply's.
fn answer_by(listing: Option<Listing>, reply: BookReply) -> Answer
    ensures answer { result ≡ answer_by listing reply }
    ensures noted { (turn : ℕ) (reads : Option ℕ) (old new : Notes) → IsNoted turn reads result old new
        → Noted turn reads reply old new }
{
    match listing {
        Some(listing) => Answer::Listed(reply, listing),
        None => Answer::Book(reply),
    }
}

// Notes an answer of the book, which is printed with this turn. An `Err` leaves the notes as they were.
fn note(notes: &mut Notes, turn: u64, reads: Option<u32>, answer: &Answer) -> Result<(), AllocError>
    ensures ok { OnOk result (IsNoted turn reads answer.now notes.old notes.new) }
    ensures err { OnErr result (notes.new ≡ notes.old) }
{
    match answer {
        Answer::Book(reply) => notes.take(turn, reads, reply),
        Answer::Listed(reply, _) => notes.take(turn, reads, reply),
        _ => Ok(()),
    }
}

impl Talk {
    /// A talk that has been fed nothing. This is the last turn that was taken before.
    pub fn new(alloc: Global, turn: u64) -> Result<Talk, AllocError>
        ensures fresh { IfOk result (λ talk. talk ≡ fresh talk.framer talk.notes) }
        ensures none { IfOk result (λ talk. KeepsNone turn talk.notes) }
        ensures stands { IfOk result (λ talk. Stands talk.framer [] false) }
    {
        let framer = Framer::new(alloc)?;
        let routes = Routes::new(alloc)?;
        Ok(Talk {
            alloc,
            framer,
            routes,
            ended: false,
            served: 0,
            waits: None,
            notes: Notes::new(alloc, turn),
            leaving: None,
        })
    }

    /// How many requests were answered.
    pub fn served(&self) -> u64
        ensures { result ≡ self.now.served }
    {
        self.served
    }

    /// How the session ends, where nothing more is answered.
    pub fn leaving(&self) -> Option<SessionEnd>
        ensures value { result ≡ self.now.leaving }
        ensures own { IsOwnLeaving result }
    {
        self.leaving
    }

    /// Appends the piece to the bytes fed. An empty piece says that the input has ended; nothing is fed after
    /// it. An `Err` leaves the talk as it was.
    pub fn feed(&mut self, piece: &[u8]) -> Result<(), AllocError>
        requires { self.old.ended ≡ false }
        ensures ok { OnOk result (Feeds piece.now self.old self.new) }
        ensures err { OnErr result (Stays self.old self.new) }
    {
        match piece {
            [] => {
                self.ended = true;
                Ok(())
            }
            [..] => self.framer.feed(piece),
        }
    }

    /// What is to be done next. A request that is taken is read at a moment of its own, which the clock is
    /// asked for then; for nothing else is it asked. More bytes are wanted only where all events of those fed
    /// were answered. An `Err` ends the talk out of memory: each later call says so.
    pub fn next<C: Clock>(&mut self, clock: &mut C) -> Result<Want, AllocError>
        requires idle { self.old.waits ≡ None }
        ensures want { IfOk result (λ want.
            Wants (C.seen clock.old) (C.seen clock.new) self.old want self.new) }
        ensures lacks { OnErr result (LacksNext (C.seen clock.old) (C.seen clock.new) self.old self.new) }
        ensures ready { IfOk result (λ want. IsReady want self.new) }
        ensures own { IfOk result IsOwnWant }
        ensures callable { IfOk result IsCallable }
    {
        match self.step(clock) {
            Ok(want) => Ok(want),
            Err(error) => {
                let _end = self.give_up();
                Err(error)
            }
        }
    }

    #[tactic(auto, using(crate::proofs::Talks::none_of))]
    fn step<C: Clock>(&mut self, clock: &mut C) -> Result<Want, AllocError>
        requires idle { self.old.waits ≡ None }
        ensures want { IfOk result (λ want.
            Wants (C.seen clock.old) (C.seen clock.new) self.old want self.new) }
        ensures err { OnErr result (self.old.leaving ≡ None) }
        ensures same { OnErr result (self.new ≡ with_framer self.new.framer self.old) }
        ensures short { OnErr result (StopsNext (C.seen clock.old) (C.seen clock.new) self.old self.new) }
        ensures ready { IfOk result (λ want. IsReady want self.new) }
        ensures own { IfOk result IsOwnWant }
        ensures callable { IfOk result IsCallable }
    {
        if let Some(end) = self.leaving {
            return Ok(Want::Leave(end));
        }
        match self.framer.next() {
            Ok(FrameStep::More) => Ok(self.at_rest()),
            Ok(FrameStep::Continue) => self.go_on(),
            Ok(FrameStep::Request(request)) => {
                let moment = clock.now();
                self.take(moment, request)
            }
            Err(FrameError::Fault(fault)) => self.refuse(fault),
            Err(FrameError::Memory) => Err(AllocError),
        }
    }

    // Ends the talk out of memory.
    fn give_up(&mut self) -> SessionEnd
        ensures end { result ≡ SessionEnd.Memory self.old.served }
        ensures state { self.new ≡ with_memory self.old }
    {
        self.leave(SessionEnd::Memory {
            served: self.served,
        })
    }

    // Ends the talk so.
    fn leave(&mut self, end: SessionEnd) -> SessionEnd
        requires own { IsOwnEnd end }
        ensures end { result ≡ end }
        ensures state { self.new ≡ with_end end self.old }
    {
        self.waits = None;
        self.leaving = Some(end);
        end
    }

    // What is wanted where no event and no fault is at hand.
    fn at_rest(&self) -> Want
        ensures want { AtRest self.now result }
        ensures ready { IsReady result self.now }
        ensures own { IsOwnWant result }
        ensures callable { IsCallable result }
    {
        let served = self.served;
        if !self.ended {
            return Want::More;
        }
        if self.framer.is_between() {
            Want::Leave(SessionEnd::Closed { served })
        } else {
            Want::Leave(SessionEnd::Cut { served })
        }
    }

    // The answer to a Continue.
    fn go_on(&self) -> Result<Want, AllocError>
        ensures want { IfOk result (Writes (λ bytes. bytes ≡ continue_bytes)) }
        ensures ready { IfOk result (λ want. IsReady want self.now) }
        ensures own { IfOk result IsOwnWant }
        ensures callable { IfOk result IsCallable }
    {
        let bytes = Bytes::of(self.alloc, CONTINUE.as_bytes())?;
        Ok(Want::Write(bytes))
    }

    // The response to a fault.
    fn refuse(&mut self, fault: FrameFault) -> Result<Want, AllocError>
        ensures want { IfOk result (Writes (IsFaultResponse fault)) }
        ensures ok { OnOk result (self.new ≡ with_fault fault self.old) }
        ensures err { OnErr result (self.new ≡ self.old) }
        ensures ready { IfOk result (λ want. IsReady want self.new) }
        ensures own { IfOk result IsOwnWant }
        ensures callable { IfOk result IsCallable }
    {
        let bytes = response_of(
            self.alloc,
            Answer::Frame(fault),
            ReplyKind::none(),
            None,
            true,
        )?;
        self.leaving = Some(SessionEnd::Frame {
            served: self.served,
            fault,
        });
        Ok(Want::Write(bytes))
    }

    // The response to one more request.
    fn respond(
        &mut self,
        answer: Answer,
        kind: ReplyKind,
        close: bool,
        turn: Option<u64>,
    ) -> Result<Want, AllocError>
        requires { self.old.leaving ≡ None }
        ensures want { IfOk result (Writes (IsResponse answer kind turn close)) }
        ensures ok { OnOk result (self.new ≡ with_answer close self.old) }
        ensures err { OnErr result (self.new ≡ self.old) }
        ensures ready { IfOk result (λ want. IsReady want self.new) }
        ensures own { IfOk result IsOwnWant }
        ensures callable { IfOk result IsCallable }
    {
        let served = self.served + 1;
        let bytes = response_of(self.alloc, answer, kind, turn, close)?;
        self.served = served;
        self.waits = None;
        self.leaving = leaving_after(served, close);
        Ok(Want::Write(bytes))
    }

    // What is wanted for a request that was taken.
    fn take(&mut self, moment: u64, request: HttpRequest) -> Result<Want, AllocError>
        requires moment { IsMoment moment }
        requires open_ { self.old.leaving ≡ None }
        ensures want { IfOk result (λ want. WantsFor moment request self.old want self.new) }
        ensures err { OnErr result (self.new ≡ self.old) }
        ensures ready { IfOk result (λ want. IsReady want self.new) }
        ensures own { IfOk result IsOwnWant }
        ensures callable { IfOk result IsCallable }
    {
        let close = closes_after(&request, self.served + 1);
        let (kind, call) = call_of(self.alloc, &self.routes, request, moment);
        match call {
            Ok(asked) => {
                let AskedCall { call, listing } = asked;
                let waiting = Waiting {
                    kind,
                    close,
                    changes: false,
                    reads: None,
                    listing,
                };
                self.ask(waiting, call)
            }
            Err(answer) => self.respond(answer, kind, close, None),
        }
    }

    // What is wanted for a call: its answer, where it asks for clashes that are kept; else it is to be made.
    fn ask(&mut self, waiting: Waiting, call: BookCall) -> Result<Want, AllocError>
        requires open_ { self.old.leaving ≡ None }
        ensures want { IfOk result (λ want. AsksFor waiting call self.old want self.new) }
        ensures err { OnErr result (self.new ≡ self.old) }
        ensures ready { IfOk result (λ want. IsReady want self.new) }
        ensures own { IfOk result IsOwnWant }
        ensures callable { IfOk result (λ want. IsCallable (Want.Call call) → IsCallable want) }
    {
        match self.notes.reply_to(&call) {
            Ok(Some(reply)) => {
                drop(call);
                let turn = self.notes.turn;
                self.respond(Answer::Book(reply), waiting.kind, waiting.close, Some(turn))
            }
            Ok(None) => Ok(self.wait(waiting, call)),
            Err(error) => {
                drop(call);
                Err(error)
            }
        }
    }

    // The call is to be made, and waits.
    fn wait(&mut self, waiting: Waiting, call: BookCall) -> Want
        ensures want { result ≡ Want.Call call }
        ensures state { self.new ≡ with_call (waiting_on call waiting) self.old }
    {
        let changes = asks_change(&call.request);
        let reads = project_read(&call.request);
        let Waiting {
            kind,
            close,
            listing,
            ..
        } = waiting;
        self.waits = Some(Waiting {
            kind,
            close,
            changes,
            reads,
            listing,
        });
        Want::Call(call)
    }

    /// Takes the book's answer to the call that waits, or why there is none, and says what is to be done next: the
    /// response is written; or the talk ends, out of memory or since no turn is left. An `Err` does not come.
    pub fn answer(&mut self, receipt: Result<Receipt<Book>, CallFault>) -> Result<Want, AllocError>
        requires waits { IsSome self.old.waits }
        requires open_ { self.old.leaving ≡ None }
        ensures want { IfOk result (λ want.
            IfSome self.old.waits (λ waiting. Replies receipt waiting self.old want self.new)) }
        ensures ok { IsOk result }
    {
        let Some(waiting) = self.waits.take() else {
            unreachable!()
        };
        match receipt {
            Ok(receipt) => self.answer_receipt(waiting, receipt),
            Err(CallFault::Memory) => self.answer_memory(waiting.kind, waiting.close),
            Err(CallFault::PassSpent(_)) => Ok(Want::Leave(self.spend())),
        }
    }

    // No turn is left.
    fn spend(&mut self) -> SessionEnd
        ensures end { result ≡ SessionEnd.SpentTurns self.old.served }
        ensures state { self.new ≡ with_spent self.old }
    {
        self.leave(SessionEnd::SpentTurns {
            served: self.served,
        })
    }

    // The response to a call for which memory ran out.
    fn answer_memory(&mut self, kind: ReplyKind, close: bool) -> Result<Want, AllocError>
        requires { self.old.leaving ≡ None }
        ensures want { IfOk result (λ want. LacksFor kind close self.old want self.new) }
        ensures ok { IsOk result }
    {
        match self.respond(Answer::Memory, kind, close, None) {
            Ok(want) => Ok(want),
            Err(_) => Ok(Want::Leave(self.give_up())),
        }
    }

    // The response to a call that the book answered.
    fn answer_receipt(
        &mut self,
        waiting: Waiting,
        receipt: Receipt<Book>,
    ) -> Result<Want, AllocError>
        requires { self.old.leaving ≡ None }
        ensures want { IfOk result (λ want. Replies (Ok receipt) waiting self.old want self.new) }
        ensures ok { IsOk result }
    {
        let Receipt { turn, reply } = receipt;
        let changes_nothing = changes_nothing(waiting.changes, &reply.body);
        let Waiting {
            kind,
            close,
            reads,
            listing,
            ..
        } = waiting;
        match self.respond_noted(answer_by(listing, reply), kind, close, turn, reads) {
            Ok(want) => Ok(want),
            Err(_) => {
                if changes_nothing {
                    return self.answer_memory(kind, close);
                }
                Ok(Want::Leave(self.give_up()))
            }
        }
    }

    // The response of what the book's reply made, which is noted.
    fn respond_noted(
        &mut self,
        answer: Answer,
        kind: ReplyKind,
        close: bool,
        turn: u64,
        reads: Option<u32>,
    ) -> Result<Want, AllocError>
        requires { self.old.leaving ≡ None }
        ensures want { IfOk result (Writes (IsResponse answer kind (Some turn) close)) }
        ensures noted { OnOk result (IsNoted turn reads answer self.old.notes self.new.notes) }
        ensures ok { OnOk result (self.new ≡ with_notes self.new.notes (with_answer close self.old)) }
        ensures err { OnErr result (self.new ≡ self.old) }
    {
        let served = self.served + 1;
        let printed = self.print_noted(&answer, kind, close, turn, reads);
        drop(answer);
        let bytes = printed?;
        self.served = served;
        self.waits = None;
        self.leaving = leaving_after(served, close);
        Ok(Want::Write(bytes))
    }

    // The bytes of that response.
    fn print_noted(
        &mut self,
        answer: &Answer,
        kind: ReplyKind,
        close: bool,
        turn: u64,
        reads: Option<u32>,
    ) -> Result<Bytes, AllocError>
        ensures bytes { IfOk result (IsResponse answer.now kind (Some turn) close) }
        ensures noted { OnOk result (IsNoted turn reads answer.now self.old.notes self.new.notes) }
        ensures ok { OnOk result (self.new ≡ with_notes self.new.notes self.old) }
        ensures err { OnErr result (self.new ≡ self.old) }
    {
        let bytes = to_response(self.alloc, answer, kind, Some(turn), close)?;
        note(&mut self.notes, turn, reads, answer)?;
        Ok(bytes)
    }
}
