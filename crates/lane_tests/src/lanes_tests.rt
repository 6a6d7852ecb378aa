//! Lanes over doors in memory.
ghost use Rattle.std.specs.Prelude.{◌≡◌, true, Some, IfOk, IfSome, All, map, vec_len};
ghost use Rattle.book_turn.specs.Passes.{IsSingle};
ghost use Rattle.bim_net.specs.Hosts.{AreNew};
ghost use Rattle.bim_net.specs.ConnectionViews.{IsNew};
ghost use Rattle.bim_net.specs.Stores.{door_of};

use bim_io::MemClock;
use bim_model::{Bytes, Items, Text};
use bim_net::{EndKind, FreeGate, Host, MemDoor, MemHost, mem_link};
use book_history::Limits;
use book_turn::pass::Pass;
use book_turn::turn::Turn;
use check_workers::Lack;
use federation_book::Book;
use serve_lanes::{LaneEnd, Seats, Served, run_lanes, serve_lane};
use std::alloc::{AllocError, Global};
use std::marker::Brand;
use std::process::Abort;
use std::sync::Wait;
use std::test::Fail;

const MOMENT: u64 = 1_714_564_800;

const MAKE: &[u8] =
    b"POST /bcf/3.0/projects/00000001-0000-8000-8000-000000000000/topics HTTP/1.1\r\nHost: h\r\nContent-Length: 16\r\n\r\n{\"title\":\"Pipe\"}";

// A door whose connections send these bytes, and whose accept of this number fails (0: none).
fn door(alloc: Global, inputs: &[&[u8]], fails: u64) -> Result<MemDoor, AllocError>
    ensures { IfOk result (λ d. IsNew true 0 (door_of d.store d.faults)) }
{
    let mut links = Vec::new(alloc);
    for input in inputs {
        let contents = Bytes::of(alloc, input)?;
        links.push(mem_link(alloc, contents, 1000, Items::new(alloc), Items::new(alloc))?)?;
    }
    let mut list = Items::new(alloc);
    list.push(fails)?;
    MemDoor::new(alloc, links, list)
}

// The kinds of ends and the turns that stand at the connections that were given back.
fn assert_ended(rt: &impl Abort, door: &MemDoor, wanted: &[(EndKind, u64)]) {
    assert_eq!(rt; door.ended().len(), wanted.len());
    for (ended, wanted) in door.ended().iter().zip(wanted.iter()) {
        let end = ended.end();
        assert_eq!(rt; (end.kind, end.last), *wanted);
    }
}

// Serves so many connections of a door, or all.
fn serve<R: Wait>(
    rt: &R,
    alloc: Global,
    turn: &Turn<Book>,
    pass: &mut Pass<Book>,
    door: &mut MemDoor,
    links: u64,
) -> (LaneEnd, bool)
    requires { IsSingle turn.now pass.old }
    ensures { IsSingle turn.now pass.new }
{
    let mut clock = MemClock::new(MOMENT);
    let gate = FreeGate::new(1);
    let mut lack = Lack::none();
    let end = serve_lane(
        rt, alloc, turn, pass, door, &mut clock, &gate, links, &mut lack,
    );
    (end, lack.memory || lack.spent.is_some())
}

#[test]
fn a_lane_ends_as_its_door_does(rt: HostRuntime) -> Result<(), Fail> {
    let alloc = rt.alloc();
    let closed = EndKind::Closed;
    let mut first = door(alloc, &[MAKE, b"".as_slice(), MAKE, b"GET".as_slice()], 0)?;
    let mut second = door(alloc, &[MAKE, MAKE], 2)?;
    let book = Book::new(alloc, 1, Limits::stated())?;
    let (turn, mut passes) = Turn::new(alloc, book, 1)?;
    let mut pass = passes.pop().ok_or("a pass")?;
    let end = serve(&rt, alloc, &turn, &mut pass, &mut first, 3);
    assert_eq!(rt; end, (LaneEnd::Full, false));
    assert_ended(&rt, &first, &[(closed, 1), (closed, 1), (closed, 2)]);
    let end = serve(&rt, alloc, &turn, &mut pass, &mut first, 0);
    assert_eq!(rt; end, (LaneEnd::Closed, false));
    assert_ended(
        &rt,
        &first,
        &[(closed, 1), (closed, 1), (closed, 2), (EndKind::Cut, 2)],
    );
    let end = serve(&rt, alloc, &turn, &mut pass, &mut second, 0);
    assert_eq!(rt; end, (LaneEnd::Failed, false));
    assert_ended(&rt, &second, &[(closed, 3)]);
    Ok(())
}

// A door with three connections: the first read of one fails, the first write of the next, and nothing of the third.
fn failing_door(alloc: Global) -> Result<MemDoor, AllocError> {
    let mut links = Vec::new(alloc);
    for (read, write) in [(1, 0), (0, 1), (0, 0)] {
        let mut reads = Items::new(alloc);
        reads.push(read)?;
        let mut writes = Items::new(alloc);
        writes.push(write)?;
        let contents = Bytes::of(alloc, MAKE)?;
        links.push(mem_link(alloc, contents, 1000, reads, writes)?)?;
    }
    MemDoor::new(alloc, links, Items::new(alloc))
}

// How many bytes were written to each of three connections.
fn written(door: &MemDoor) -> Option<(usize, usize, usize)> {
    match door.ended() {
        [first, second, third] => Some((
            first.link().sink.bytes().len(),
            second.link().sink.bytes().len(),
            third.link().sink.bytes().len(),
        )),
        _ => None,
    }
}

// A connection that fails ends alone. Where its answer can't be written the change stands all the same, in the turn before
// that of the next one.
#[test]
fn a_connection_that_fails_ends_alone(rt: HostRuntime) -> Result<(), Fail> {
    let alloc = rt.alloc();
    let mut door = failing_door(alloc)?;
    let book = Book::new(alloc, 1, Limits::stated())?;
    let (turn, mut passes) = Turn::new(alloc, book, 1)?;
    let mut pass = passes.pop().ok_or("a pass")?;
    let end = serve(&rt, alloc, &turn, &mut pass, &mut door, 3);
    assert_eq!(rt; end, (LaneEnd::Full, false));
    let ended = [
        (EndKind::ReadFault, 0),
        (EndKind::WriteFault, 1),
        (EndKind::Closed, 2),
    ];
    assert_ended(&rt, &door, &ended);
    assert_eq!(rt; written(&door), Some((0, 0, 249)));
    Ok(())
}

// Doors of two connections each, whose accepts of these numbers fail.
fn doors(alloc: Global, fails: &[u64]) -> Result<Vec<MemDoor>, AllocError>
    ensures { IfOk result (λ ds. All (λ d. IsNew true 0 (door_of d.store d.faults)) ds.items) }
{
    let mut doors = Vec::new(alloc);
    for number in fails {
        doors.push(door(alloc, &[MAKE, MAKE], *number)?)?;
    }
    Ok(doors)
}

// Three doors of two connections each, of which the second fails at its second accept.
fn opened(alloc: Global) -> Option<Vec<MemDoor>>
    ensures count { IfSome result (λ ds. vec_len ds ≡ 3) }
    ensures new { IfSome result (λ ds. AreNew true 0 (map (λ d. door_of d.store d.faults) ds.items)) }
{
    let addr = Text::of(alloc, "127.0.0.1:8080").ok()?;
    let Ok(doors) = doors(alloc, &[0, 2, 0]) else {
        return None;
    };
    let mut host = MemHost::new(alloc, doors, MOMENT, Items::new(alloc));
    match host.open_doors(alloc, &addr, 3) {
        Ok(doors) => Some(doors),
        Err(_) => None,
    }
}

fn clocks(alloc: Global, count: u32) -> Result<Vec<MemClock>, AllocError>
    ensures count { IfOk result (λ cs. vec_len cs ≡ count) }
    ensures one { IfOk result (λ cs. All (λ c. Some c ≡ Some 1714564800) cs.items) }
{
    let mut clocks = Vec::new(alloc);
    for _number in 0..count {
        clocks.push(MemClock::new(MOMENT))?;
    }
    Ok(clocks)
}

// How many connections each of three doors took back.
fn ended(doors: &[MemDoor]) -> Option<(usize, usize, usize)> {
    match doors {
        [first, second, third] => Some((
            first.ended().len(),
            second.ended().len(),
            third.ended().len(),
        )),
        _ => None,
    }
}

// Whether a lane failed and whether anything was lacked, how many entries and undone buckets the book has, and how many
// connections the doors took back.
fn told(served: Served<MemDoor>) -> ((bool, bool), (usize, u64), Option<(usize, usize, usize)>) {
    let lacked = served.memory || served.spent.is_some();
    let book = (served.book.journal().len(), served.book.left_all());
    let told = (
        (served.failed, lacked),
        book,
        ended(served.doors.as_slice()),
    );
    drop(served);
    told
}

// Three lanes, of which one lane's door fails at its second accept, and a worker: all that was made stands in one history,
// and the doors come back in their order.
#[test]
fn lanes_share_one_history(rt: HostRuntime) -> Result<(), Fail> {
    let alloc = rt.alloc();
    let Some(doors) = opened(alloc) else {
        panic!(rt; "no doors")
    };
    let clocks = clocks(alloc, 3)?;
    let book = Book::new(alloc, 1, Limits::stated())?;
    let gate = FreeGate::new(3);
    let seats = Seats::new(alloc, book, 3, 1)?;
    let served = run_lanes::<Brand, HostRuntime, MemDoor, MemClock, FreeGate>(
        &rt, alloc, seats, doors, clocks, &gate, 0,
    );
    assert_eq!(rt; told(served), ((true, false), (5, 0), Some((2, 1, 2))));
    Ok(())
}
