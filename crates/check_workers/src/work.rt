//! What a worker does.
ghost use Rattle.std.specs.Prelude.{◌≡◌, ◌<◌, [], IfOk, OnOk};
ghost use Rattle.bucket_grid.specs.Cells.{IsBucket};
ghost use Rattle.book_turn.specs.Passes.{BelongsTo};
ghost use Rattle.book_history.specs.History.{left_all};
ghost use Rattle.book_passes.specs.Lessons.{caller_of};
ghost use Rattle.check_workers.specs.WorkerTurns.{IsFoundFor, IsFinishTold, tells, Teaches, WorksOne};

use bim_model::{Shared, Steps};
use bim_net::Gate;
use book_history::{BookCall, BookFault, BookRequest, ReplyBody, WorkOrder};
use book_turn::call_fault::CallFault;
use book_turn::pass::Pass;
use book_turn::turn::Turn;
use bucket_check::{BucketSet, Room, check};
use federation_book::Book;
use std::alloc::{AllocError, Global};
use std::marker::Brand;
use std::sync::Wait;
use std::sync::ledger::{Blank, Ledger};

/// What came of a worker's turns.
#[derive(Clone, Copy, Debug, PartialEq, Eq)]
pub enum Worked {
    /// The set was taken; so many buckets of its version are still to be checked.
    Done { left: u64 },
    /// The bucket was checked before.
    Already,
    /// The version is no longer one of the last sixteen.
    Dropped { newest: u64 },
    /// No bucket of a live version was to be checked.
    Nothing,
}

// What is found for the bucket of an order.
fn set_of<L: Ledger>(
    alloc: Global,
    blank: Blank,
    room: &mut Room,
    order: WorkOrder,
) -> Result<Shared<BucketSet>, AllocError>
    requires name { blank.name ≡ L.name }
    requires parts { blank.parts ≡ L.parts }
    requires some { 0 < blank.parts }
    ensures set { IfOk result (IsFoundFor order) }
    ensures bucket { IfOk result (λ set. IsBucket set.work.grid.boxes set.work.cell) }
{
    let mut steps = Steps::<L>::new(blank);
    let set = check(alloc, order.into_work(), room, &mut steps)?;
    Shared::new(alloc, set)
}

// What the reply to a set tells the worker that brought it.
fn told_by(reply: ReplyBody) -> Worked
    requires { IsFinishTold reply }
    ensures { tells reply result }
{
    match reply {
        ReplyBody::Finished { left } => Worked::Done { left },
        ReplyBody::Refused(BookFault::AlreadyDone) => Worked::Already,
        ReplyBody::Refused(BookFault::VersionDropped { newest, .. }) => Worked::Dropped { newest },
        _ => unreachable!(),
    }
}

/// Takes a bucket out at one turn, the one of the seat's number among those that are to be checked, counted round and
/// round; checks it; and brings the set at a later turn. Whatever came between, the set is what the bucket owns in the
/// version that it was taken out of. `idle` says whether the role's last call found nothing to do. The gate is asked
/// before each of the two calls. An `Err` is that of a call, or out of memory for the check; then the bucket is given
/// out again.
pub fn work_one<R: Wait, G: Gate>(
    rt: &R,
    alloc: Global,
    turn: &Turn<Book>,
    pass: &mut Pass<Book>,
    room: &mut Room,
    seat: u32,
    idle: bool,
    gate: &G,
) -> Result<Worked, CallFault>
    requires own { BelongsTo turn.now pass.old }
    ensures own { BelongsTo turn.now pass.new }
    ensures teaches { Teaches (caller_of pass.old) (caller_of pass.new) }
    ensures worked { IfOk result (WorksOne turn.now.settings seat pass.old pass.new) }
{
    gate.before_call(pass.number(), idle);
    let call = BookCall {
        seen: None,
        request: BookRequest::TakeWork { seat },
    };
    let receipt = turn.call(rt, pass, call)?;
    let ReplyBody::Work(order) = receipt.reply.body else {
        return Ok(Worked::Nothing);
    };
    let Ok(set) = set_of::<Brand>(alloc, Blank::new(1), room, order) else {
        return Err(CallFault::Memory);
    };
    gate.before_call(pass.number(), false);
    let call = BookCall {
        seen: None,
        request: BookRequest::Finish { set },
    };
    let receipt = turn.call(rt, pass, call)?;
    Ok(told_by(receipt.reply.body))
}

// Whether memory ran out.
fn is_memory(fault: &CallFault) -> bool {
    match fault {
        CallFault::Memory => true,
        CallFault::PassSpent(_) => false,
    }
}

/// Works bucket after bucket until, after the gate was closed, none is to be checked: then no bucket of a live version
/// is undone in what the pass has seen. If memory runs out before the gate is closed, it goes on with the next bucket
/// after a while: that one may take less, and what took the memory may be gone when it comes to this one again.
pub fn work_loop<R: Wait, G: Gate>(
    rt: &R,
    alloc: Global,
    turn: &Turn<Book>,
    pass: &mut Pass<Book>,
    room: &mut Room,
    seat: u32,
    gate: &G,
) -> Result<(), CallFault>
    requires own { BelongsTo turn.now pass.old }
    ensures own { BelongsTo turn.now pass.new }
    ensures teaches { Teaches (caller_of pass.old) (caller_of pass.new) }
    ensures done { OnOk result (left_all turn.now.settings.projects pass.new.seen ≡ 0) }
{
    let mut seat = seat;
    let mut idle = false;
    for _ in rt.forever() {
        let closed = gate.closed();
        match work_one(rt, alloc, turn, pass, room, seat, idle, gate) {
            Ok(Worked::Nothing) => {
                if closed {
                    return Ok(());
                }
                idle = true;
            }
            Ok(_) => idle = false,
            Err(fault) => {
                if closed || !is_memory(&fault) {
                    return Err(fault);
                }
                seat = seat.wrapping_add(1);
                idle = true;
            }
        }
    }
    unreachable!()
}
