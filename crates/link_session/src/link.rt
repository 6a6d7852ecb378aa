//! One session over one connection, by a pass.
ghost use Rattle.std.specs.Prelude.{Some};
ghost use Rattle.bim_io.specs.StreamViews.{outside};
ghost use Rattle.book_turn.specs.Passes.{IsSingle};
ghost use Rattle.book_passes.specs.Lessons.{caller_of};
ghost use Rattle.link_session.specs.Callers.{GoesByPass};
ghost use Rattle.link_session.specs.CallerSessions.{Serves};

use crate::by_turn::ByTurn;
use crate::session::run_session;
use bim_io::{Clock, Sink, Source};
use bim_net::{Gate, Link};
use bim_session::SessionEnd;
use book_turn::pass::Pass;
use book_turn::turn::Turn;
use federation_book::Book;
use std::alloc::Global;
use std::sync::Wait;

/// Reads requests from a connection, and answers them by the pass, until the session ends. What the pass had seen is a
/// front of what it has seen; each reply that prints a turn is the book's at the entries below that turn, or, of clashes
/// that the session was answered before, at the entries up to the turn printed last; and of the entries that are new the
/// pass made just those that its accepted requests added.
pub fn serve_link<R: Wait, S: Source + Drop, K: Sink + Drop, C: Clock, G: Gate>(
    rt: &R,
    alloc: Global,
    link: &mut Link<S, K>,
    turn: &Turn<Book>,
    pass: &mut Pass<Book>,
    clock: &mut C,
    gate: &G,
) -> SessionEnd
    requires own { IsSingle turn.now pass.old }
    ensures own { IsSingle turn.now pass.new }
    ensures serves { Serves turn.now.settings (Some 0) GoesByPass (caller_of pass.old) (caller_of pass.new)
        (outside (S.seen link.old.source) (K.seen link.old.sink) (C.seen clock.old))
        (outside (S.seen link.new.source) (K.seen link.new.sink) (C.seen clock.new)) result }
{
    let caller = ByTurn { rt, turn, gate };
    run_session(
        alloc,
        &caller,
        pass,
        &mut link.source,
        &mut link.sink,
        clock,
    )
}
