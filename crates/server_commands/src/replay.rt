//! One session over one source and one sink, with a one-thread book.
ghost use Rattle.std.specs.Prelude.{◌≡◌, ◌≤◌};
ghost use Rattle.bim_io.specs.StreamViews.{outside};
ghost use Rattle.bim_session.specs.Replay.{stated_settings, status_of};
ghost use Rattle.server_commands.specs.WholeSessions.{ReplaysAlone};

use crate::alone::Alone;
use crate::one_thread::OneThread;
use bim_io::{Clock, Sink, Source};
use bim_session::SessionEnd;
use book_history::MOST_PROJECTS;
use link_session::run_session;
use std::alloc::Global;

/// The exit status of a session's end.
pub fn status_of(end: SessionEnd) -> u8
    ensures { result ≡ status_of end }
{
    match end {
        SessionEnd::Closed { .. } => 0,
        SessionEnd::Asked { .. } => 0,
        SessionEnd::ReadFault { .. } => 4,
        SessionEnd::WriteFault { .. } => 5,
        SessionEnd::Memory { .. } => 6,
        SessionEnd::Cut { .. } => 7,
        SessionEnd::Frame { .. } => 7,
        SessionEnd::Spent { .. } => 7,
        SessionEnd::SpentTurns { .. } => 7,
    }
}

/// Reads requests, and answers them over a book of so many projects, until the session ends. After each answered
/// request buckets are worked until none is to be checked, at most so many where so many are said.
pub fn replay_session<S: Source, K: Sink, C: Clock>(
    alloc: Global,
    projects: u32,
    buckets: Option<u64>,
    source: &mut S,
    sink: &mut K,
    clock: &mut C,
) -> SessionEnd
    requires some { 1 ≤ projects }
    requires few { projects ≤ MOST_PROJECTS }
    ensures { ReplaysAlone (stated_settings projects) buckets
        (outside (S.seen source.old) (K.seen sink.old) (C.seen clock.old))
        (outside (S.seen source.new) (K.seen sink.new) (C.seen clock.new)) result }
{
    let Ok(mut own) = OneThread::new(alloc, projects) else {
        return SessionEnd::Memory { served: 0 };
    };
    let caller = Alone {
        alloc,
        projects,
        buckets,
    };
    run_session(alloc, &caller, &mut own, source, sink, clock)
}
