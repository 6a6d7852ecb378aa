//! Workers over a book with two buckets.
ghost use Rattle.std.specs.Prelude.{IfSome};
ghost use Rattle.book_turn.specs.Passes.{BelongsTo};
ghost use Rattle.federation_book.specs.inner.AnyTime.{IsFree};

use bim_model::{
    ClassTest, Distance, Element, Guid, Items, Model, ModelTest, PER_MM, Point, Rule, RuleKind,
    Rules, Shared, StoreyTest, Text, Triangle, id_of,
};
use bim_net::{FreeGate, Gate};
use book_history::{BookCall, BookRequest, Limits, ReplyBody, Wanted};
use book_turn::pass::Pass;
use book_turn::turn::Turn;
use bucket_check::Room;
use check_workers::{Worked, work_loop, work_one};
use federation_book::Book;
use std::alloc::Global;
use std::mem::drop;
use std::sync::Wait;
use std::test::Fail;
use std::thread::{Threads, join};

// A corner in millimetres.
fn corner(x: i32, y: i32, z: i32) -> Option<Point> {
    Some(Point {
        x: x.checked_mul(PER_MM)?,
        y: y.checked_mul(PER_MM)?,
        z: z.checked_mul(PER_MM)?,
    })
}

// A triangle of a hundred millimetres, from this corner.
fn pipe(alloc: Global, guid: &[u8], x: i32, z: i32) -> Option<Element> {
    let mut triangles = Items::new(alloc);
    let triangle = Triangle {
        a: corner(x, 1500, z)?,
        b: corner(x.checked_add(100)?, 1500, z)?,
        c: corner(x, 1600, z)?,
    };
    triangles.push(triangle).ok()?;
    Some(Element {
        guid: Guid::read(guid)?,
        class: Text::of(alloc, "IFCPIPESEGMENT").ok()?,
        name: Text::of(alloc, "Pipe 1").ok()?,
        storey: None,
        triangles,
    })
}

// Two pipes 50 millimetres apart, and two others far from them.
fn four_pipes(alloc: Global) -> Option<Shared<Model>> {
    let mut elements = Vec::new(alloc);
    elements
        .push(pipe(alloc, b"0000000000000000000011", 1500, 1500)?)
        .ok()?;
    elements
        .push(pipe(alloc, b"0000000000000000000012", 1500, 1550)?)
        .ok()?;
    elements
        .push(pipe(alloc, b"0000000000000000000013", 9500, 1500)?)
        .ok()?;
    elements
        .push(pipe(alloc, b"0000000000000000000014", 9500, 1700)?)
        .ok()?;
    let model = Model::checked(alloc, elements).ok()??;
    Shared::new(alloc, model).ok()
}

fn to_upload(alloc: Global) -> Option<BookRequest>
    ensures { IfSome result IsFree }
{
    Some(BookRequest::Upload {
        project: id_of(1, 0),
        name: Text::of(alloc, "m").ok()?,
        model: four_pipes(alloc)?,
    })
}

// Any two elements clash within 50 millimetres.
fn to_set_rules(alloc: Global) -> Option<BookRequest>
    ensures { IfSome result IsFree }
{
    let mut rules = Vec::new(alloc);
    let rule = Rule {
        a: ClassTest::Any,
        b: ClassTest::Any,
        storey: StoreyTest::Any,
        level: None,
        models: ModelTest::Any,
        kind: RuleKind::Clash {
            distance: Distance::new(50),
        },
    };
    rules.push(rule).ok()?;
    Some(BookRequest::SetRules {
        project: id_of(1, 0),
        rules: Rules::from_vec(rules),
        weight: 45,
    })
}

fn to_read() -> BookRequest
    ensures { IsFree result }
{
    BookRequest::ReadClashes {
        project: id_of(1, 0),
        version: Wanted::Number(2),
        first: 0,
        count: 1000,
    }
}

fn ask<R: Wait>(
    rt: &R,
    turn: &Turn<Book>,
    pass: &mut Pass<Book>,
    request: BookRequest,
) -> Option<ReplyBody>
    requires own { BelongsTo turn.now pass.old }
    requires free { IsFree request }
    ensures { BelongsTo turn.now pass.new }
{
    let call = BookCall {
        seen: None,
        request,
    };
    turn.call(rt, pass, call)
        .ok()
        .map(|receipt| receipt.reply.body)
}

// The version that was made, and how many buckets of it are left.
fn made(reply: Option<ReplyBody>) -> Option<(u64, u64)> {
    match reply {
        Some(ReplyBody::Changed { version, left, .. }) => Some((version, left)),
        _ => None,
    }
}

// How many clashes are told.
fn told(reply: Option<ReplyBody>) -> Option<u64> {
    match reply {
        Some(ReplyBody::Clashes { set, .. }) => Some(set.get().total()),
        _ => None,
    }
}

// Sets rules and uploads four pipes, which make two buckets of version 2.
fn edit<R: Wait>(
    rt: &R,
    alloc: Global,
    turn: &Turn<Book>,
    pass: &mut Pass<Book>,
) -> Option<(u64, u64)>
    requires { BelongsTo turn.now pass.old }
    ensures { BelongsTo turn.now pass.new }
{
    let rules = to_set_rules(alloc)?;
    drop(ask(rt, turn, pass, rules));
    let model = to_upload(alloc)?;
    made(ask(rt, turn, pass, model))
}

// How many clashes the version has; none where buckets of it are still to be checked.
fn total<R: Wait>(rt: &R, turn: &Turn<Book>, pass: &mut Pass<Book>) -> Option<u64>
    requires { BelongsTo turn.now pass.old }
    ensures { BelongsTo turn.now pass.new }
{
    told(ask(rt, turn, pass, to_read()))
}

// What came of one bucket.
fn worked<R: Wait>(
    rt: &R,
    alloc: Global,
    turn: &Turn<Book>,
    pass: &mut Pass<Book>,
    seat: u32,
) -> Option<Worked>
    requires { BelongsTo turn.now pass.old }
    ensures { BelongsTo turn.now pass.new }
{
    let mut room = Room::new(alloc);
    let gate = FreeGate::new(1);
    work_one(rt, alloc, turn, pass, &mut room, seat, false, &gate).ok()
}

#[test]
fn a_worker_brings_what_it_took(rt: HostRuntime) -> Result<(), Fail> {
    let alloc = rt.alloc();
    let book = Book::new(alloc, 1, Limits::stated())?;
    let (turn, mut passes) = Turn::new(alloc, book, 2)?;
    let mut worker = passes.pop().ok_or("a worker")?;
    let mut editor = passes.pop().ok_or("an editor")?;
    assert_eq!(rt;
        worked(&rt, alloc, &turn, &mut worker, 0),
        Some(Worked::Nothing)
    );
    assert_eq!(rt; edit(&rt, alloc, &turn, &mut editor), Some((2, 2)));
    assert_eq!(rt; total(&rt, &turn, &mut editor), None);
    assert_eq!(rt;
        worked(&rt, alloc, &turn, &mut worker, 7),
        Some(Worked::Done { left: 1 })
    );
    assert_eq!(rt;
        worked(&rt, alloc, &turn, &mut worker, 7),
        Some(Worked::Done { left: 0 })
    );
    assert_eq!(rt; total(&rt, &turn, &mut editor), Some(1));
    assert_eq!(rt;
        worked(&rt, alloc, &turn, &mut worker, 0),
        Some(Worked::Nothing)
    );
    Ok(())
}

// Edits, and looks for the clashes of the version until they are there, at most so often; then the lane ends.
fn edit_and_look<R: Wait, G: Gate>(
    rt: &R,
    alloc: Global,
    turn: &Turn<Book>,
    mut pass: Pass<Book>,
    gate: &G,
    looks: u32,
) -> Option<u64>
    requires { BelongsTo turn.now pass }
{
    let _ = edit(rt, alloc, turn, &mut pass);
    let mut found = None;
    for _ in 0..looks {
        if found.is_none() {
            found = total(rt, turn, &mut pass);
        }
    }
    gate.lane_ended(0);
    found
}

// Works until the lane has ended and nothing is left.
fn work_on<R: Wait, G: Gate>(
    rt: &R,
    alloc: Global,
    turn: &Turn<Book>,
    mut pass: Pass<Book>,
    gate: &G,
) -> bool
    requires { BelongsTo turn.now pass }
{
    let mut room = Room::new(alloc);
    work_loop(rt, alloc, turn, &mut pass, &mut room, 0, gate).is_ok()
}

// A worker beside an editor, each in a thread of its own. While the editor looks for the clashes, nobody but the worker
// can find them.
fn side_by_side<R: Threads + Wait + Sync>(
    rt: &R,
    alloc: Global,
    turn: &Turn<Book>,
    editor: Pass<Book>,
    worker: Pass<Book>,
) -> (Option<u64>, bool)
    requires editor { BelongsTo turn.now editor }
    requires worker { BelongsTo turn.now worker }
{
    let gate = FreeGate::new(1);
    let lanes = &gate;
    join(
        rt,
        move || -> Option<u64>
            requires { BelongsTo turn.now editor }
        { edit_and_look(rt, alloc, turn, editor, lanes, 1_000_000) },
        move || -> bool
            requires { BelongsTo turn.now worker }
        { work_on(rt, alloc, turn, worker, lanes) },
    )
}

#[test]
fn a_worker_works_beside_an_editor(rt: HostRuntime) -> Result<(), Fail> {
    let alloc = rt.alloc();
    let book = Book::new(alloc, 1, Limits::stated())?;
    let (turn, mut passes) = Turn::new(alloc, book, 2)?;
    let worker = passes.pop().ok_or("a worker")?;
    let editor = passes.pop().ok_or("an editor")?;
    assert_eq!(rt;
        side_by_side(&rt, alloc, &turn, editor, worker),
        (Some(1), true)
    );
    Ok(())
}
