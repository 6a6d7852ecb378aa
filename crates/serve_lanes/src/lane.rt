//! One lane.
ghost use Rattle.std.specs.Prelude.{◌≡◌, ◌≢◌, ◌+◌, ◌<◌, ◌||◌, true, IsSome};
ghost use Rattle.bim_io.specs.Causes.{Rose};
ghost use Rattle.book_turn.specs.Passes.{IsSingle};
ghost use Rattle.book_turn.specs.declared.limits.TheConstants.{MOST_TURNS};
ghost use Rattle.serve_lanes.specs.Lanes.{ServedLink, LaneServed, kind_of, is_memory, NotesEnd};

use bim_io::Clock;
use bim_net::{Door, EndKind, Gate, LinkEnd};
use bim_session::SessionEnd;
use book_history::{BookCall, BookRequest};
use book_turn::call_fault::{CallFault, SpentPass};
use book_turn::pass::Pass;
use book_turn::turn::Turn;
use check_workers::Lack;
use federation_book::Book;
use link_session::serve_link;
use std::alloc::Global;
use std::sync::Wait;

/// Why a lane serves no more connections.
#[derive(Clone, Copy, Debug, PartialEq, Eq)]
pub enum LaneEnd {
    /// Its door is closed.
    Closed,
    /// It has served as many as it was to.
    Full,
    /// Its door failed.
    Failed,
}

#[derive(Clone, Copy, Debug, PartialEq, Eq)]
enum Next {
    More,
    Stop(LaneEnd),
}

fn kind_of(end: SessionEnd) -> EndKind
    ensures { result ≡ kind_of end }
{
    match end {
        SessionEnd::Closed { .. } => EndKind::Closed,
        SessionEnd::Asked { .. } => EndKind::Asked,
        SessionEnd::Cut { .. } => EndKind::Cut,
        SessionEnd::ReadFault { .. } => EndKind::ReadFault,
        SessionEnd::WriteFault { .. } => EndKind::WriteFault,
        SessionEnd::Frame { .. } => EndKind::Frame,
        SessionEnd::Spent { .. } => EndKind::Spent,
        SessionEnd::SpentTurns { .. } => EndKind::SpentTurns,
        SessionEnd::Memory { .. } => EndKind::Memory,
    }
}

// A pass that has made all its turns: it is asked once more, which takes no turn.
fn spent_of<R: Wait>(rt: &R, turn: &Turn<Book>, pass: &mut Pass<Book>) -> Option<SpentPass>
    requires own { IsSingle turn.now pass.old }
    requires spent { pass.old.made ≡ MOST_TURNS }
    ensures some { IsSome result }
    ensures same { pass.new ≡ pass.old }
{
    let call = BookCall {
        seen: None,
        request: BookRequest::ListProjects,
    };
    match turn.call(rt, pass, call) {
        Err(CallFault::PassSpent(spent)) => Some(spent),
        _ => unreachable!(),
    }
}

// Notes whether a session ended out of memory, or without a turn.
fn note<R: Wait>(rt: &R, turn: &Turn<Book>, pass: &mut Pass<Book>, kind: EndKind, lack: &mut Lack)
    requires own { IsSingle turn.now pass.old }
    requires spent { kind ≡ EndKind.SpentTurns → pass.old.made ≡ MOST_TURNS }
    ensures same { pass.new ≡ pass.old }
    ensures noted { NotesEnd kind lack.old lack.new }
{
    if kind == EndKind::Memory {
        lack.memory = true;
    }
    if kind == EndKind::SpentTurns {
        lack.spent = spent_of(rt, turn, pass);
    }
}

// Accepts one connection, serves it and gives it back.
fn serve_next<R: Wait, D: Door, C: Clock, G: Gate>(
    rt: &R,
    alloc: Global,
    turn: &Turn<Book>,
    pass: &mut Pass<Book>,
    door: &mut D,
    clock: &mut C,
    gate: &G,
    lack: &mut Lack,
) -> Next
    requires own { IsSingle turn.now pass.old }
    ensures own { IsSingle turn.now pass.new }
    ensures number { pass.new.number ≡ pass.old.number }
    ensures clock { (C.seen clock.new).one ≡ (C.seen clock.old).one }
    ensures served { LaneServed (ServedLink (C.seen clock.old).one turn.now.settings pass.old.number)
        pass.old.seen pass.old.last pass.new.seen pass.new.last (D.seen door.old) (D.seen door.new)
        lack.old lack.new }
    ensures failed { result ≡ Next.Stop LaneEnd.Failed
        → Rose (D.seen door.old).faults (D.seen door.new).faults }
    ensures sound { result ≢ Next.Stop LaneEnd.Failed → (D.seen door.new).faults ≡ (D.seen door.old).faults }
    ensures closed { result ≡ Next.Stop LaneEnd.Closed → (D.seen door.new).closed ≡ true }
    ensures more { result ≡ Next.More → (D.seen door.new).gave ≡ (D.seen door.old).gave + 1 }
    ensures other { result ≢ Next.Stop LaneEnd.Full }
{
    match door.accept() {
        Ok(Some(link)) => {
            let mut link = link;
            let end = serve_link(rt, alloc, &mut link, turn, pass, clock, gate);
            let kind = kind_of(end);
            let last = pass.last();
            note(rt, turn, pass, kind, lack);
            door.give_back(link, LinkEnd { kind, last });
            Next::More
        }
        Ok(None) => Next::Stop(LaneEnd::Closed),
        Err(_) => Next::Stop(LaneEnd::Failed),
    }
}

/// Accepts, serves and gives back connection after connection, until the door is closed or fails, or so many were served; 0
/// is no limit. Each is given back with the kind of its session's end and the last turn of the pass then. `lack` tells
/// whether a session ended out of memory, or without a turn.
pub fn serve_lane<R: Wait, D: Door, C: Clock, G: Gate>(
    rt: &R,
    alloc: Global,
    turn: &Turn<Book>,
    pass: &mut Pass<Book>,
    door: &mut D,
    clock: &mut C,
    gate: &G,
    links: u64,
    lack: &mut Lack,
) -> LaneEnd
    requires own { IsSingle turn.now pass.old }
    ensures own { IsSingle turn.now pass.new }
    ensures number { pass.new.number ≡ pass.old.number }
    ensures clock { (C.seen clock.new).one ≡ (C.seen clock.old).one }
    ensures served { LaneServed (ServedLink (C.seen clock.old).one turn.now.settings pass.old.number)
        pass.old.seen pass.old.last pass.new.seen pass.new.last (D.seen door.old) (D.seen door.new)
        lack.old lack.new }
    ensures failed { result ≡ LaneEnd.Failed → Rose (D.seen door.old).faults (D.seen door.new).faults }
    ensures sound { result ≢ LaneEnd.Failed → (D.seen door.new).faults ≡ (D.seen door.old).faults }
    ensures closed { result ≡ LaneEnd.Closed → (D.seen door.new).closed ≡ true }
    ensures full { result ≡ LaneEnd.Full
        → (0 < links) × ((D.seen door.new).gave ≡ (D.seen door.old).gave + links) }
{
    let mut left = links;
    for _ in rt.forever() {
        match serve_next(rt, alloc, turn, pass, door, clock, gate, lack) {
            Next::More => {}
            Next::Stop(end) => return end,
        }
        if links != 0 {
            left = left.saturating_sub(1);
            if left == 0 {
                return LaneEnd::Full;
            }
        }
    }
    unreachable!()
}
