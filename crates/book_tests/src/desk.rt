//! A book that is asked one request after another, in the turns 1, 2, ..
ghost use Rattle.std.specs.Prelude.{◌≡◌, ◌+◌, ◌<◌, ◌^◌, OnOk, IfOk};
ghost use Rattle.book_history.specs.History.{IsBefore};
ghost use Rattle.book_history.specs.Legal.{IsLegal, IsGiven};
ghost use Rattle.federation_book.specs.inner.AnyTime.{IsFree, GivenStays};

use crate::samples::to_read;
use bim_model::{Shared, Steps};
use book_history::{BookCall, BookFault, BookRequest, ReplyBody, Stamp, Wanted};
use bucket_check::{BucketWork, Room, SetPair, check};
use bucket_grid::Cell;
use federation_book::Book;
use std::alloc::{AllocError, Global};
use std::process::Abort;
use std::sync::ledger::Ledger;
use std::test::Fail;

/// Asks the book at a turn.
pub fn ask(book: &mut Book, turn: u64, request: BookRequest) -> Result<ReplyBody, AllocError>
    requires before { IsBefore turn book.old.journal }
    requires legal { IsLegal book.old.settings book.old.journal request }
    ensures before { OnOk result (IsBefore (turn + 1) book.new.journal) }
    ensures stays { OnOk result (GivenStays book.old book.new) }
{
    let call = BookCall {
        seen: None,
        request,
    };
    Ok(book.act(stamp(turn), call)?.body)
}

fn stamp(turn: u64) -> Stamp
    ensures { result.turn ≡ turn }
{
    Stamp {
        turn,
        pass: 0,
        call: turn,
    }
}

/// Asks at a turn, and the answer is of no concern.
pub fn begin(book: &mut Book, turn: u64, request: BookRequest) -> Result<(), AllocError>
    requires before { IsBefore turn book.old.journal }
    requires free { IsFree request }
    ensures { OnOk result (IsBefore (turn + 1) book.new.journal) }
{
    drop(ask(book, turn, request)?);
    Ok(())
}

/// Asks for a change at a turn, and a version is made.
pub fn change(
    rt: &impl Abort,
    book: &mut Book,
    turn: u64,
    request: BookRequest,
    wanted: (u64, u64, u64, u64),
) -> Result<(), Fail>
    requires before { IsBefore turn book.old.journal }
    requires free { IsFree request }
    ensures { OnOk result (IsBefore (turn + 1) book.new.journal) }
{
    let body = ask(book, turn, request)?;
    let changed = is_changed(rt, &body, wanted);
    drop(body);
    changed
}

/// Asks at a turn, and it is refused for this.
pub fn refuse(
    rt: &impl Abort,
    book: &mut Book,
    turn: u64,
    request: BookRequest,
    wanted: BookFault,
) -> Result<(), Fail>
    requires before { IsBefore turn book.old.journal }
    requires free { IsFree request }
    ensures { OnOk result (IsBefore (turn + 1) book.new.journal) }
{
    let body = ask(book, turn, request)?;
    let refused = is_refused(rt, &body, wanted);
    drop(body);
    refused
}

/// Reads the clashes of a version at a turn: it has this number, and these clashes.
pub fn read(
    rt: &impl Abort,
    book: &mut Book,
    turn: u64,
    wanted: Wanted,
    version: u64,
    pairs: &[SetPair],
) -> Result<(), Fail>
    requires { IsBefore turn book.old.journal }
    ensures { OnOk result (IsBefore (turn + 1) book.new.journal) }
{
    let body = ask(book, turn, to_read(wanted))?;
    let read = are_clashes(rt, &body, version, pairs);
    drop(body);
    read
}

/// Has a bucket given out: one of this version and cell.
pub fn take(
    rt: &impl Abort,
    book: &mut Book,
    turn: u64,
    seat: u32,
    version: u64,
    cell: Cell,
) -> Result<BucketWork, Fail>
    requires { IsBefore turn book.old.journal }
    ensures before { OnOk result (IsBefore (turn + 1) book.new.journal) }
    ensures given { IfOk result (IsGiven book.new.settings book.new.journal) }
    ensures stays { OnOk result (GivenStays book.old book.new) }
{
    let call = BookCall {
        seen: None,
        request: BookRequest::TakeWork { seat },
    };
    let body = book.act(stamp(turn), call)?.body;
    let ReplyBody::Work(order) = body else {
        return Err(Fail::from("no work"));
    };
    let work = order.into_work();
    assert_eq!(rt; (work.project, work.version), (1, version));
    assert_eq!(rt; work.cell, cell);
    Ok(work)
}

/// Checks a bucket that was given out, and brings its clashes.
pub fn bring<L: Ledger>(
    alloc: Global,
    book: &mut Book,
    turn: u64,
    work: BucketWork,
    steps: &mut Steps<L>,
) -> Result<ReplyBody, Fail>
    requires before { IsBefore turn book.old.journal }
    requires given { IsGiven book.old.settings book.old.journal work }
    ensures before { OnOk result (IsBefore (turn + 1) book.new.journal) }
    ensures stays { OnOk result (GivenStays book.old book.new) }
{
    let set = check(alloc, work, &mut Room::new(alloc), steps)?;
    let set = Shared::new(alloc, set)?;
    Ok(ask(book, turn, BookRequest::Finish { set })?)
}

/// Checks a bucket that was given out, and its clashes are taken. So many are left.
pub fn finish<L: Ledger>(
    rt: &impl Abort,
    alloc: Global,
    book: &mut Book,
    turn: u64,
    work: BucketWork,
    steps: &mut Steps<L>,
    left: u64,
) -> Result<(), Fail>
    requires before { IsBefore turn book.old.journal }
    requires given { IsGiven book.old.settings book.old.journal work }
    ensures before { OnOk result (IsBefore (turn + 1) book.new.journal) }
    ensures stays { OnOk result (GivenStays book.old book.new) }
{
    let body = bring(alloc, book, turn, work, steps)?;
    let finished = is_finished(rt, &body, left);
    drop(body);
    finished
}

/// Checks a bucket in two turns: the first gives it out, in the second its clashes are brought. So many are left.
pub fn work<L: Ledger>(
    rt: &impl Abort,
    alloc: Global,
    book: &mut Book,
    turn: u64,
    steps: &mut Steps<L>,
    version: u64,
    cell: Cell,
    left: u64,
) -> Result<(), Fail>
    requires before { IsBefore turn book.old.journal }
    requires few { turn < 2 ^ 40 }
    ensures { OnOk result (IsBefore (turn + 2) book.new.journal) }
{
    let work = take(rt, book, turn, 0, version, cell)?;
    finish(rt, alloc, book, turn + 1, work, steps, left)
}

// A bucket's clashes were taken, and so many are left.
fn is_finished(rt: &impl Abort, body: &ReplyBody, wanted: u64) -> Result<(), Fail> {
    match body {
        ReplyBody::Finished { left } => assert_eq!(rt; *left, wanted),
        _ => return Err(Fail::from("not finished")),
    }
    Ok(())
}

// A version was made.
fn is_changed(rt: &impl Abort, body: &ReplyBody, wanted: (u64, u64, u64, u64)) -> Result<(), Fail> {
    match body {
        ReplyBody::Changed {
            version,
            elements,
            triangles,
            left,
        } => assert_eq!(rt; (*version, *elements, *triangles, *left), wanted),
        _ => return Err(Fail::from("no version")),
    }
    Ok(())
}

// The clashes of a version are these.
fn are_clashes(
    rt: &impl Abort,
    body: &ReplyBody,
    wanted: u64,
    pairs: &[SetPair],
) -> Result<(), Fail> {
    match body {
        ReplyBody::Clashes {
            version,
            set,
            first,
            count,
        } => {
            assert_eq!(rt; (*version, *first, *count), (wanted, 0, 1000));
            assert_eq!(rt; set.get().pairs(), pairs);
        }
        _ => return Err(Fail::from("no clashes")),
    }
    Ok(())
}

/// The request is refused for this.
pub fn is_refused(rt: &impl Abort, body: &ReplyBody, wanted: BookFault) -> Result<(), Fail> {
    match body {
        ReplyBody::Refused(fault) => assert_eq!(rt; *fault, wanted),
        _ => return Err(Fail::from("not refused")),
    }
    Ok(())
}
