//! A book whose calls take turns, by two passes of one thread.
ghost use Rattle.book_turn.specs.Passes.{IsSingle};
ghost use Rattle.federation_book.specs.inner.AnyTime.{IsFree};

use crate::project_tests::{is_list, is_refused, is_topic};
use crate::samples::to_post;
use bim_model::id_of;
use book_history::{BookCall, BookRequest, Entry, Limits, ReplyBody};
use book_turn::pass::Pass;
use book_turn::turn::Turn;
use federation_book::Book;
use std::alloc::Global;
use std::process::Abort;
use std::sync::Wait;
use std::test::Fail;

// The turn that a call takes, and its reply. None where it has none.
fn ask<R: Wait>(
    rt: &R,
    turn: &Turn<Book>,
    pass: &mut Pass<Book>,
    request: BookRequest,
) -> Option<(u64, ReplyBody)>
    requires single { IsSingle turn.now pass.old }
    requires legal { IsFree request }
    ensures { IsSingle turn.now pass.new }
{
    let call = BookCall {
        seen: None,
        request,
    };
    match turn.call(rt, pass, call) {
        Ok(receipt) => Some((receipt.turn, receipt.reply.body)),
        Err(_) => None,
    }
}

// Makes a topic, by the pass, in the turn `at`. The project may be none of the book's: then there is no serial number.
fn posts<R: Wait + Abort>(
    rt: &R,
    alloc: Global,
    turn: &Turn<Book>,
    pass: &mut Pass<Book>,
    at: u64,
    project: u128,
    serial: Option<u64>,
)
    requires { IsSingle turn.now pass.old }
    ensures { IsSingle turn.now pass.new }
{
    let Ok(request) = to_post(alloc, project, "Pipe") else {
        panic!(rt; "no memory")
    };
    let Some((taken, body)) = ask(rt, turn, pass, request) else {
        panic!(rt; "no answer")
    };
    assert_eq!(rt; taken, at);
    match serial {
        Some(serial) => is_topic(rt, &body, serial, "Pipe"),
        None => is_refused(rt, &body),
    }
    drop(body);
}

// Lists the topics of the first project, by the pass, in the turn `at`.
fn lists<R: Wait + Abort>(
    rt: &R,
    turn: &Turn<Book>,
    pass: &mut Pass<Book>,
    at: u64,
    titles: &[&str],
)
    requires { IsSingle turn.now pass.old }
    ensures { IsSingle turn.now pass.new }
{
    let request = BookRequest::ListTopics {
        project: id_of(1, 0),
    };
    let Some((taken, body)) = ask(rt, turn, pass, request) else {
        panic!(rt; "no answer")
    };
    assert_eq!(rt; taken, at);
    is_list(rt, &body, titles);
    drop(body);
}

#[test]
fn two_passes_are_answered_at_one_history(rt: HostRuntime) -> Result<(), Fail> {
    let alloc = rt.alloc();
    let (turn, mut passes) = Turn::new(alloc, Book::new(alloc, 2, Limits::stated())?, 2)?;
    let (Some(mut second), Some(mut first)) = (passes.pop(), passes.pop()) else {
        panic!(rt; "no passes")
    };
    posts(&rt, alloc, &turn, &mut first, 1, id_of(1, 0), Some(1));
    lists(&rt, &turn, &mut second, 2, &["Pipe"]);
    posts(&rt, alloc, &turn, &mut second, 3, id_of(1, 0), Some(2));
    posts(&rt, alloc, &turn, &mut first, 4, id_of(3, 0), None);
    lists(&rt, &turn, &mut first, 5, &["Pipe", "Pipe"]);
    turn.join(&mut first, second);
    let book = turn.close(first);
    are_stamped(&rt, book.journal(), &[(1, 0, 1), (3, 1, 2)]);
    Ok(())
}

// The entries have these turns, passes and numbers of their calls.
fn are_stamped(rt: &impl Abort, entries: &[Entry], stamps: &[(u64, u32, u64)]) {
    assert_eq!(rt; entries.len(), stamps.len());
    for (entry, stamp) in entries.iter().zip(stamps) {
        assert_eq!(rt;
            (entry.stamp.turn, entry.stamp.pass, entry.stamp.call),
            *stamp
        );
    }
}
