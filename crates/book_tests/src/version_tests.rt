//! Versions and their clashes, turn by turn.
ghost use Rattle.std.specs.Prelude.{◌≡◌, ◌+◌, ◌<◌, IfOk, OnOk};
ghost use Rattle.book_history.specs.History.{IsBefore};
ghost use Rattle.book_history.specs.Legal.{IsGiven};
ghost use Rattle.book_history.specs.Settings.{IsWithinStated};
ghost use Rattle.federation_book.specs.inner.AnyTime.{IsFree};

use crate::desk::{ask, begin, bring, change, finish, is_refused, read, refuse, take, work};
use crate::project_tests::is_topic;
use crate::samples::{
    author, four_pipes, one_pipe, thousand_beams, to_post, to_read, to_remove, to_set_rules,
    to_upload, two_pipes,
};
use bim_model::{Steps, id_of};
use book_history::{BookFault, BookRequest, Limits, ReplyBody, StoreWhat, Wanted};
use bucket_check::{BucketWork, Room, SetPair, check};
use bucket_grid::Cell;
use federation_book::Book;
use std::alloc::{AllocError, Global};
use std::marker::Brand;
use std::process::Abort;
use std::sync::ledger::{Blank, Ledger};
use std::test::Fail;

const NEAR: Cell = Cell { x: 0, y: 0, z: 0 };

const FAR: Cell = Cell { x: 2, y: 0, z: 0 };

const PAIR: SetPair = SetPair {
    a: 0,
    b: 1,
    rule: 0,
};

// Rules and four pipes, whose two buckets are checked one after the other.
fn two_buckets<L: Ledger>(
    rt: &impl Abort,
    alloc: Global,
    book: &mut Book,
    steps: &mut Steps<L>,
) -> Result<(), Fail>
    requires { IsBefore 1 book.old.journal }
    ensures { OnOk result (IsBefore 9 book.new.journal) }
{
    change(rt, book, 1, to_set_rules(alloc, 50)?, (1, 0, 0, 0))?;
    let model = to_upload(alloc, "m", four_pipes(alloc, 1700)?)?;
    change(rt, book, 2, model, (2, 4, 4, 2))?;
    assert_eq!(rt; book.left_all(), 2);
    work(rt, alloc, book, 3, steps, 2, NEAR, 1)?;
    let pending = BookFault::Pending {
        version: 2,
        left: 1,
    };
    refuse(rt, book, 5, to_read(Wanted::Number(2)), pending)?;
    work(rt, alloc, book, 6, steps, 2, FAR, 0)?;
    read(rt, book, 8, Wanted::Number(2), 2, &[PAIR])
}

// No bucket is to be checked.
fn has_no_work(rt: &impl Abort, book: &mut Book, turn: u64) -> Result<(), Fail>
    requires { IsBefore turn book.old.journal }
{
    let body = ask(book, turn, BookRequest::TakeWork { seat: 3 })?;
    let refused = is_refused(rt, &body, BookFault::NoWork);
    drop(body);
    refused
}

// One of the pipes is moved, and then the model goes.
fn moved<L: Ledger>(
    rt: &impl Abort,
    alloc: Global,
    book: &mut Book,
    steps: &mut Steps<L>,
) -> Result<(), Fail>
    requires { IsBefore 1 book.old.journal }
{
    two_buckets(rt, alloc, book, steps)?;
    let model = to_upload(alloc, "m", four_pipes(alloc, 1640)?)?;
    change(rt, book, 9, model, (3, 4, 4, 1))?;
    work(rt, alloc, book, 10, steps, 3, FAR, 0)?;
    read(rt, book, 12, Wanted::Number(3), 3, &[PAIR])?;
    change(rt, book, 13, to_remove(alloc, "m")?, (4, 0, 0, 0))?;
    refuse(rt, book, 14, to_remove(alloc, "m")?, BookFault::NoModel)?;
    has_no_work(rt, book, 15)?;
    assert_eq!(rt; book.journal().len(), 7);
    Ok(())
}

// A model beside the four pipes, rules like those before, and others.
fn carried<L: Ledger>(
    rt: &impl Abort,
    alloc: Global,
    book: &mut Book,
    steps: &mut Steps<L>,
) -> Result<(), Fail>
    requires { IsBefore 1 book.old.journal }
{
    two_buckets(rt, alloc, book, steps)?;
    let model = to_upload(alloc, "a", one_pipe(alloc)?)?;
    change(rt, book, 9, model, (3, 1, 1, 1))?;
    work(rt, alloc, book, 10, steps, 3, NEAR, 0)?;
    let pair = SetPair {
        a: 1,
        b: 2,
        rule: 0,
    };
    read(rt, book, 12, Wanted::Newest, 3, &[pair])?;
    change(rt, book, 13, to_set_rules(alloc, 50)?, (4, 5, 5, 0))?;
    change(rt, book, 14, to_set_rules(alloc, 49)?, (5, 5, 5, 2))
}

// The clash at a place of the version 2.
fn to_note(alloc: Global, place: u64) -> Result<BookRequest, AllocError>
    ensures { IfOk result IsFree }
{
    Ok(BookRequest::ClashTopic {
        project: id_of(1, 0),
        version: Wanted::Number(2),
        place,
        author: author(alloc, "anna")?,
        weight: 2,
    })
}

// Asks for a topic of a clash, and one is made.
fn notes(rt: &impl Abort, alloc: Global, book: &mut Book, turn: u64) -> Result<(), AllocError>
    requires { IsBefore turn book.old.journal }
    ensures { OnOk result (IsBefore (turn + 1) book.new.journal) }
{
    let request = to_note(alloc, 0)?;
    let body = ask(book, turn, request)?;
    let title = "Clash of 0000000000000000000011 and 0000000000000000000012";
    is_topic(rt, &body, 1, title);
    drop(body);
    Ok(())
}

fn is_one_view(rt: &impl Abort, body: &ReplyBody) {
    match body {
        ReplyBody::ViewList(list) => assert_eq!(rt; list.len(), 1),
        _ => assert!(rt; false),
    }
}

// The topic has one viewpoint.
fn has_view(rt: &impl Abort, book: &mut Book, turn: u64) -> Result<(), AllocError>
    requires { IsBefore turn book.old.journal }
{
    let views = BookRequest::ListViews {
        project: id_of(1, 0),
        topic: id_of(1, 1),
    };
    let body = ask(book, turn, views)?;
    is_one_view(rt, &body);
    drop(body);
    Ok(())
}

// A topic is made of the clash, and none of another one.
fn noted<L: Ledger>(
    rt: &impl Abort,
    alloc: Global,
    book: &mut Book,
    steps: &mut Steps<L>,
) -> Result<(), Fail>
    requires { IsBefore 1 book.old.journal }
{
    two_buckets(rt, alloc, book, steps)?;
    notes(rt, alloc, book, 9)?;
    let (place, total) = (1, 1);
    let none = BookFault::NoClash { place, total };
    refuse(rt, book, 10, to_note(alloc, 1)?, none)?;
    has_view(rt, book, 11)?;
    Ok(())
}

fn topics_of_clashes<L: Ledger>(rt: &impl Abort, alloc: Global, blank: Blank) -> Result<(), Fail>
    requires name { blank.name ≡ L.name }
    requires parts { blank.parts ≡ L.parts }
    requires some { 0 < blank.parts }
{
    let mut steps = Steps::<L>::new(blank);
    let mut book = Book::new(alloc, 1, Limits::stated())?;
    let noted = noted(rt, alloc, &mut book, &mut steps);
    drop(book);
    noted
}

// What changed is checked, and what didn't isn't.
fn what_changed<L: Ledger>(rt: &impl Abort, alloc: Global, blank: Blank) -> Result<(), Fail>
    requires name { blank.name ≡ L.name }
    requires parts { blank.parts ≡ L.parts }
    requires some { 0 < blank.parts }
{
    let mut steps = Steps::<L>::new(blank);
    let mut book = Book::new(alloc, 1, Limits::stated())?;
    let moved = moved(rt, alloc, &mut book, &mut steps);
    drop(book);
    moved
}

#[test]
fn what_changed_is_checked(rt: HostRuntime) -> Result<(), Fail> {
    what_changed::<Brand>(&rt, rt.alloc(), Blank::new(1))
}

#[test]
fn topics_of_clashes_are_made(rt: HostRuntime) -> Result<(), Fail> {
    topics_of_clashes::<Brand>(&rt, rt.alloc(), Blank::new(1))
}

// What stays is carried.
fn what_stays<L: Ledger>(rt: &impl Abort, alloc: Global, blank: Blank) -> Result<(), Fail>
    requires name { blank.name ≡ L.name }
    requires parts { blank.parts ≡ L.parts }
    requires some { 0 < blank.parts }
{
    let mut steps = Steps::<L>::new(blank);
    let mut book = Book::new(alloc, 1, Limits::stated())?;
    let carried = carried(rt, alloc, &mut book, &mut steps);
    drop(book);
    carried
}

#[test]
fn what_stays_is_carried(rt: HostRuntime) -> Result<(), Fail> {
    what_stays::<Brand>(&rt, rt.alloc(), Blank::new(1))
}

fn each_once<L: Ledger>(rt: &impl Abort, alloc: Global, blank: Blank) -> Result<(), Fail>
    requires name { blank.name ≡ L.name }
    requires parts { blank.parts ≡ L.parts }
    requires some { 0 < blank.parts }
{
    let mut steps = Steps::<L>::new(blank);
    let mut book = Book::new(alloc, 1, Limits::stated())?;
    let done = across(rt, alloc, &mut book, &mut steps);
    drop(book);
    done
}

fn each_late<L: Ledger>(rt: &impl Abort, alloc: Global, blank: Blank) -> Result<(), Fail>
    requires name { blank.name ≡ L.name }
    requires parts { blank.parts ≡ L.parts }
    requires some { 0 < blank.parts }
{
    let mut steps = Steps::<L>::new(blank);
    let mut book = Book::new(alloc, 1, Limits::stated())?;
    let done = late(rt, alloc, &mut book, &mut steps);
    drop(book);
    done
}

#[test]
fn each_bucket_is_checked(rt: HostRuntime) -> Result<(), Fail> {
    each_once::<Brand>(&rt, rt.alloc(), Blank::new(1))
}

#[test]
fn a_bucket_is_brought_once(rt: HostRuntime) -> Result<(), Fail> {
    each_late::<Brand>(&rt, rt.alloc(), Blank::new(1))
}

// Rules are set seventeen times.
fn many_versions(rt: &impl Abort, alloc: Global, book: &mut Book) -> Result<(), Fail>
    requires { IsBefore 1 book.old.journal }
    ensures { OnOk result (IsBefore 18 book.new.journal) }
{
    for turn in 1..17 {
        change(rt, book, turn, to_set_rules(alloc, 50)?, (turn, 0, 0, 0))?;
    }
    change(rt, book, 17, to_set_rules(alloc, 50)?, (17, 0, 0, 0))
}

fn sixteen(rt: &impl Abort, alloc: Global, book: &mut Book) -> Result<(), Fail>
    requires { IsBefore 1 book.old.journal }
{
    many_versions(rt, alloc, book)?;
    let dropped = BookFault::VersionDropped {
        version: 1,
        newest: 17,
    };
    refuse(rt, book, 18, to_read(Wanted::Number(1)), dropped)?;
    read(rt, book, 19, Wanted::Number(2), 2, &[])?;
    let none = BookFault::NoVersion { newest: 17 };
    refuse(rt, book, 20, to_read(Wanted::Number(18)), none)
}

#[test]
fn sixteen_versions_are_kept(rt: HostRuntime) -> Result<(), Fail> {
    let mut book = Book::new(rt.alloc(), 1, Limits::stated())?;
    let kept = sixteen(&rt, rt.alloc(), &mut book);
    drop(book);
    kept
}

// Two pipes across the corner of four cells are one pair.
fn across<L: Ledger>(
    rt: &impl Abort,
    alloc: Global,
    book: &mut Book,
    steps: &mut Steps<L>,
) -> Result<(), Fail>
    requires { IsBefore 1 book.old.journal }
{
    change(rt, book, 1, to_set_rules(alloc, 50)?, (1, 0, 0, 0))?;
    let model = to_upload(alloc, "m", two_pipes(alloc)?)?;
    change(rt, book, 2, model, (2, 2, 2, 4))?;
    work(rt, alloc, book, 3, steps, 2, Cell { x: 0, y: 0, z: 0 }, 3)?;
    work(rt, alloc, book, 5, steps, 2, Cell { x: 0, y: 1, z: 0 }, 2)?;
    work(rt, alloc, book, 7, steps, 2, Cell { x: 1, y: 0, z: 0 }, 1)?;
    work(rt, alloc, book, 9, steps, 2, Cell { x: 1, y: 1, z: 0 }, 0)?;
    read(rt, book, 11, Wanted::Newest, 2, &[PAIR])
}

// A bucket that is brought twice, one of a version that was dropped meanwhile, and the seats.
fn late<L: Ledger>(
    rt: &impl Abort,
    alloc: Global,
    book: &mut Book,
    steps: &mut Steps<L>,
) -> Result<(), Fail>
    requires { IsBefore 1 book.old.journal }
{
    let model = to_upload(alloc, "m", four_pipes(alloc, 1700)?)?;
    change(rt, book, 1, model, (1, 4, 4, 2))?;
    let far = take(rt, book, 2, 1, 1, FAR)?;
    let near = take(rt, book, 3, 2, 1, NEAR)?;
    finish(rt, alloc, book, 4, far, steps, 1)?;
    let again = take(rt, book, 5, 1, 1, NEAR)?;
    finish(rt, alloc, book, 6, again, steps, 0)?;
    let body = bring(alloc, book, 7, near, steps)?;
    let refused = is_refused(rt, &body, BookFault::AlreadyDone);
    drop(body);
    refused
}

// Two changes of a book, of which the second is too much.
#[derive(Clone, Copy)]
enum Twice {
    /// One pipe, and again.
    Pipe,
    /// Rules, and again.
    Rules,
    /// Rules, and a topic.
    Topic,
    /// Rules, and four pipes in two buckets.
    Pipes,
}

fn one(alloc: Global) -> Result<BookRequest, Fail>
    ensures { IfOk result IsFree }
{
    let model = one_pipe(alloc)?;
    Ok(to_upload(alloc, "m", model)?)
}

fn four(alloc: Global) -> Result<BookRequest, Fail>
    ensures { IfOk result IsFree }
{
    let model = four_pipes(alloc, 1700)?;
    Ok(to_upload(alloc, "m", model)?)
}

fn rules(alloc: Global) -> Result<BookRequest, Fail>
    ensures { IfOk result IsFree }
{
    Ok(to_set_rules(alloc, 50)?)
}

fn topic(alloc: Global) -> Result<BookRequest, Fail>
    ensures { IfOk result IsFree }
{
    Ok(to_post(alloc, id_of(1, 0), "Pipe")?)
}

fn first(alloc: Global, twice: Twice) -> Result<BookRequest, Fail>
    ensures { IfOk result IsFree }
{
    match twice {
        Twice::Pipe => one(alloc),
        Twice::Rules => rules(alloc),
        Twice::Topic => rules(alloc),
        Twice::Pipes => rules(alloc),
    }
}

fn second(alloc: Global, twice: Twice) -> Result<BookRequest, Fail>
    ensures { IfOk result IsFree }
{
    match twice {
        Twice::Pipe => one(alloc),
        Twice::Rules => rules(alloc),
        Twice::Topic => topic(alloc),
        Twice::Pipes => four(alloc),
    }
}

fn asks_twice(
    rt: &impl Abort,
    alloc: Global,
    book: &mut Book,
    twice: Twice,
    fault: BookFault,
) -> Result<(), Fail>
    requires { IsBefore 1 book.old.journal }
{
    begin(book, 1, first(alloc, twice)?)?;
    refuse(rt, book, 2, second(alloc, twice)?, fault)?;
    assert_eq!(rt; book.journal().len(), 1);
    Ok(())
}

// The second change is refused for this.
fn refuses(
    rt: &impl Abort,
    alloc: Global,
    limits: Limits,
    twice: Twice,
    fault: BookFault,
) -> Result<(), Fail>
    requires { IsWithinStated limits }
{
    let mut book = Book::new(alloc, 1, limits)?;
    let refused = asks_twice(rt, alloc, &mut book, twice, fault);
    drop(book);
    refused
}

// Two models of one triangle and of 84 bytes of texts, and rules and a topic.
fn too_much_is_stored(rt: &impl Abort, alloc: Global) -> Result<(), Fail> {
    let mut limits = Limits::stated();
    limits.triangles = 1;
    let fault = BookFault::StoreFull {
        what: StoreWhat::Triangles,
        count: 2,
        limit: 1,
    };
    refuses(rt, alloc, limits, Twice::Pipe, fault)?;
    let mut limits = Limits::stated();
    limits.text = 167;
    let fault = BookFault::StoreFull {
        what: StoreWhat::Text,
        count: 168,
        limit: 167,
    };
    refuses(rt, alloc, limits, Twice::Pipe, fault)?;
    let mut limits = Limits::stated();
    limits.text = 61;
    let fault = BookFault::StoreFull {
        what: StoreWhat::Text,
        count: 62,
        limit: 61,
    };
    refuses(rt, alloc, limits, Twice::Topic, fault)
}

// Two entries, and one with two buckets that are to be checked.
fn too_many_entries(rt: &impl Abort, alloc: Global) -> Result<(), Fail> {
    let mut limits = Limits::stated();
    limits.journal = 1;
    let fault = BookFault::JournalFull { count: 2, limit: 1 };
    refuses(rt, alloc, limits, Twice::Rules, fault)?;
    let mut limits = Limits::stated();
    limits.journal = 3;
    let fault = BookFault::JournalFull { count: 4, limit: 3 };
    refuses(rt, alloc, limits, Twice::Pipes, fault)
}

// Four elements, and their four memberships.
fn too_large_a_version(rt: &impl Abort, alloc: Global) -> Result<(), Fail> {
    let mut limits = Limits::stated();
    limits.elements = 1;
    let fault = BookFault::ElementsFull { count: 4, limit: 1 };
    refuses(rt, alloc, limits, Twice::Pipes, fault)?;
    let mut limits = Limits::stated();
    limits.memberships = 3;
    let fault = BookFault::TooSpread { count: 4, limit: 3 };
    refuses(rt, alloc, limits, Twice::Pipes, fault)
}

#[test]
fn what_is_too_much_is_refused(rt: HostRuntime) -> Result<(), Fail> {
    too_much_is_stored(&rt, rt.alloc())?;
    too_many_entries(&rt, rt.alloc())?;
    too_large_a_version(&rt, rt.alloc())
}

// Ten thousand times work is given out, and none of it is done.
fn gives_often(rt: &impl Abort, book: &mut Book) -> Result<BucketWork, Fail>
    requires { IsBefore 3 book.old.journal }
    ensures before { OnOk result (IsBefore 10003 book.new.journal) }
    ensures given { IfOk result (IsGiven book.new.settings book.new.journal) }
{
    let cell = Cell {
        x: -1,
        y: -1,
        z: -1,
    };
    for turn in 3..10_002 {
        drop(take(rt, book, turn, 0, 2, cell)?);
    }
    take(rt, book, 10_002, 0, 2, cell)
}

// How many pairs of a bucket clash.
fn pairs<L: Ledger>(
    alloc: Global,
    work: BucketWork,
    steps: &mut Steps<L>,
) -> Result<usize, AllocError> {
    let set = check(alloc, work, &mut Room::new(alloc), steps)?;
    let count = set.pairs().len();
    drop(set);
    Ok(count)
}

// A thousand beams, whose pairs are tested once at last.
fn thousand<L: Ledger>(
    rt: &impl Abort,
    alloc: Global,
    book: &mut Book,
    steps: &mut Steps<L>,
) -> Result<(), Fail>
    requires { IsBefore 1 book.old.journal }
{
    change(rt, book, 1, to_set_rules(alloc, 0)?, (1, 0, 0, 0))?;
    let model = to_upload(alloc, "m", thousand_beams(alloc)?)?;
    change(rt, book, 2, model, (2, 1000, 1000, 8))?;
    let work = gives_often(rt, book)?;
    assert_eq!(rt; work.grid.get().members(work.cell).len(), 1000);
    assert_eq!(rt; pairs(alloc, work, steps)?, 0);
    Ok(())
}

fn without_testing<L: Ledger>(rt: &impl Abort, alloc: Global, blank: Blank) -> Result<(), Fail>
    requires name { blank.name ≡ L.name }
    requires parts { blank.parts ≡ L.parts }
    requires some { 0 < blank.parts }
{
    let mut steps = Steps::<L>::new(blank);
    let mut book = Book::new(alloc, 1, Limits::stated())?;
    let done = thousand(rt, alloc, &mut book, &mut steps);
    drop(book);
    done
}

#[test]
fn work_is_given_out_without_testing(rt: HostRuntime) -> Result<(), Fail> {
    without_testing::<Brand>(&rt, rt.alloc(), Blank::new(1))
}
