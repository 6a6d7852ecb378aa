//! Servers over connections in memory, with a thread for each lane and each worker.
ghost use Rattle.std.specs.Prelude.{true, IfOk, All};
ghost use Rattle.bim_net.specs.Stores.{door_of};
ghost use Rattle.bim_net.specs.ConnectionViews.{IsNew};

use crate::replay_tests::{FOUND, words_of};
use bim_model::{Bytes, Items};
use bim_net::{EndKind, Hold, HoldCount, HoldHost, MemDoor, mem_link};
use server_commands::{Ended, run_serve};
use std::alloc::{AllocError, Global};
use std::mem::drop;
use std::process::Abort;
use std::str::from_utf8;
use std::sync::Wait;
use std::test::Fail;
use std::thread::Threads;

const LIST: &str =
    "GET /bcf/3.0/projects/00000001-0000-8000-8000-000000000000/topics HTTP/1.1\r\nHost: h\r\n\r\n";

const MAKE: &str =
    "POST /bcf/3.0/projects/00000001-0000-8000-8000-000000000000/topics HTTP/1.1\r\nHost: h\r\nContent-Length: 16\r\n\r\n{\"title\":\"Pipe\"}";

fn joined(alloc: Global, texts: &[&str]) -> Result<Bytes, AllocError> {
    let mut bytes = Vec::new(alloc);
    for text in texts {
        bytes.extend_from_slice(text.as_bytes())?;
    }
    Bytes::of(alloc, bytes.as_slice())
}

// A door with one connection, which sends these texts. Where one of its writes fails (0: none), it moves one byte a call.
fn door(alloc: Global, texts: &[&str], fails: u64) -> Result<MemDoor, AllocError>
    ensures { IfOk result (λ d. IsNew true 0 (door_of d.store d.faults)) }
{
    let most = if fails == 0 { 1_000_000 } else { 1 };
    let contents = joined(alloc, texts)?;
    let mut list = Items::new(alloc);
    list.push(fails)?;
    let mut links = Vec::new(alloc);
    links.push(mem_link(alloc, contents, most, Items::new(alloc), list)?)?;
    MemDoor::new(alloc, links, Items::new(alloc))
}

// A door for each lane, with one connection, which sends the lane's texts. The write of this number fails on the first (0: none).
fn doors(alloc: Global, lanes: &[&[&str]], fails: u64) -> Result<Vec<MemDoor>, AllocError>
    ensures { IfOk result (λ ds. All (λ d. IsNew true 0 (door_of d.store d.faults)) ds.items) }
{
    let mut doors = Vec::new(alloc);
    let mut fails = fails;
    for texts in lanes {
        doors.push(door(alloc, texts, fails)?)?;
        fails = 0;
    }
    Ok(doors)
}

fn host_of(
    alloc: Global,
    lanes: &[&[&str]],
    fails: u64,
    holds: &[Hold],
) -> Result<HoldHost, AllocError> {
    let holds = Items::from_vec(holds.to_vec(alloc)?);
    let doors = doors(alloc, lanes, fails)?;
    HoldHost::new(alloc, doors, 1_714_564_800, Items::new(alloc), holds)
}

fn hold(role: u32, call: u64, other: u32, count: HoldCount, reaches: u64) -> Hold {
    Hold {
        role,
        call,
        other,
        count,
        reaches,
        looks: 10_000_000,
    }
}

// The status of a server, and of the book that it handed back how many buckets are left and how many changes it has.
fn told_of(ended: Ended) -> (u8, Option<(u64, usize)>) {
    let book = match &ended.book {
        Some(book) => Some((book.left_all(), book.journal().len())),
        None => None,
    };
    let told = (ended.status, book);
    drop(ended);
    told
}

// Serves, and no hold lasts until its looks run out.
fn serve<R: Threads + Wait + Sync + Abort>(
    rt: &R,
    alloc: Global,
    words: &[&str],
    host: &mut HoldHost,
) -> Result<(u8, Option<(u64, usize)>), Fail> {
    let words = words_of(alloc, words)?;
    let told = told_of(run_serve(rt, alloc, words.as_slice(), host));
    assert_eq!(rt; host.ran_out(), 0);
    Ok(told)
}

// What was written to the one connection of a door.
fn written(host: &HoldHost, door: usize) -> Option<&str> {
    match host.doors().get(door)?.ended() {
        [ended] => from_utf8(ended.link().sink.bytes()).ok(),
        _ => None,
    }
}

// How the one connection of a door ended.
fn end_of(host: &HoldHost, door: usize) -> Option<EndKind> {
    match host.doors().get(door)?.ended() {
        [ended] => Some(ended.end().kind),
        _ => None,
    }
}

// The number that stands before the end of the line.
fn number_of_line(text: &str) -> Option<u64> {
    let (digits, _) = text.split_once("\r\n")?;
    digits.parse().ok()
}

fn add_turns(turns: &mut Vec<u64>, text: &str) -> Result<(), Fail> {
    for part in text.split("X-Book-Turn: ").skip(1) {
        turns.push(number_of_line(part).ok_or("a turn")?)?;
    }
    Ok(())
}

// The turns that all replies print, the least first.
fn all_turns(alloc: Global, host: &HoldHost) -> Result<Vec<u64>, Fail> {
    let mut turns = Vec::new(alloc);
    for door in 0..host.doors().len() {
        let text = written(host, door).ok_or("a connection")?;
        add_turns(&mut turns, text)?;
    }
    turns.sort()?;
    Ok(turns)
}

// The first turn that is printed to the connection of a door.
fn first_turn(host: &HoldHost, door: usize) -> Option<u64> {
    let (_, rest) = written(host, door)?.split_once("X-Book-Turn: ")?;
    number_of_line(rest)
}

fn are_different(turns: &[u64]) -> bool {
    turns.windows(2).all(|pair| pair[0] != pair[1])
}

// So many replies were written, each with a turn of its own.
fn assert_turns(rt: &impl Abort, alloc: Global, host: &HoldHost, count: usize) -> Result<(), Fail> {
    let turns = all_turns(alloc, host)?;
    assert_eq!(rt; turns.len(), count);
    assert!(rt; are_different(turns.as_slice()));
    Ok(())
}

// Lane 0 stands before its first call until lane 1 stands before its second: a server that runs one lane after another
// never gets there.
#[test]
fn two_lanes_are_served_at_once(rt: HostRuntime) -> Result<(), Fail> {
    let alloc = rt.alloc();
    let holds = [hold(0, 1, 1, HoldCount::All, 2)];
    let mut host = host_of(alloc, &[&[LIST, LIST], &[LIST, LIST]], 0, &holds)?;
    let outcome = serve_two_lanes(&rt, alloc, &mut host);
    drop(host);
    outcome
}

fn serve_two_lanes<R: Threads + Wait + Sync + Abort>(
    rt: &R,
    alloc: Global,
    host: &mut HoldHost,
) -> Result<(), Fail> {
    let told = serve(rt, alloc, &["--lanes", "2"], host)?;
    assert_eq!(rt; told.0, 0);
    assert_turns(rt, alloc, host, 4)
}

// Lane 1 stands before its call until lane 0 stands before its second: what lane 0 made is listed to lane 1.
#[test]
fn a_lane_sees_what_another_made(rt: HostRuntime) -> Result<(), Fail> {
    let alloc = rt.alloc();
    let holds = [hold(1, 1, 0, HoldCount::All, 2)];
    let mut host = host_of(alloc, &[&[MAKE, LIST], &[LIST]], 0, &holds)?;
    let outcome = serve_made_and_listed(&rt, alloc, &mut host);
    drop(host);
    outcome
}

fn serve_made_and_listed<R: Threads + Wait + Sync + Abort>(
    rt: &R,
    alloc: Global,
    host: &mut HoldHost,
) -> Result<(), Fail> {
    let told = serve(rt, alloc, &[], host)?;
    assert_eq!(rt; told, (0, Some((0, 1))));
    let made = first_turn(host, 0).ok_or("a turn")?;
    let listed = first_turn(host, 1).ok_or("a turn")?;
    assert!(rt; made < listed);
    let text = written(host, 1).ok_or("a connection")?;
    assert!(rt; text.contains("\"title\":\"Pipe\""));
    Ok(())
}

// The third write of a byte fails on one connection: the other is answered whole, and the status tells nothing of it.
#[test]
fn a_connection_that_fails_ends_alone(rt: HostRuntime) -> Result<(), Fail> {
    let alloc = rt.alloc();
    let mut host = host_of(alloc, &[&[MAKE, LIST], &[LIST]], 3, &[])?;
    let outcome = serve_failing(&rt, alloc, &mut host);
    drop(host);
    outcome
}

fn serve_failing<R: Threads + Wait + Sync + Abort>(
    rt: &R,
    alloc: Global,
    host: &mut HoldHost,
) -> Result<(), Fail> {
    let told = serve(rt, alloc, &[], host)?;
    assert_eq!(rt; told.0, 0);
    assert_eq!(rt; written(host, 0), Some("HT"));
    assert_eq!(rt; end_of(host, 0), Some(EndKind::WriteFault));
    let text = written(host, 1).ok_or("a connection")?;
    assert!(rt; text.starts_with("HTTP/1.1 200 OK\r\n") && text.ends_with("]"));
    assert_eq!(rt; end_of(host, 1), Some(EndKind::Closed));
    Ok(())
}

// Serves a connection that asks for clashes of four cells: the status, and what the book has. Its last reply ends so.
fn assert_clashes<R: Threads + Wait + Sync + Abort>(
    rt: &R,
    alloc: Global,
    holds: &[Hold],
    end: &str,
) -> Result<(u8, Option<(u64, usize)>), Fail> {
    let found = from_utf8(FOUND).ok().ok_or("a text")?;
    let mut host = host_of(alloc, &[&[found]], 0, holds)?;
    let told = serve(rt, alloc, &[], &mut host);
    let ends = written(&host, 0).is_some_and(|text| text.ends_with(end));
    drop(host);
    assert!(rt; ends);
    told
}

// The worker's calls are held until lane 0 has ended: what was left is worked all the same before the server ends.
#[test]
fn what_is_left_is_worked_at_the_end(rt: HostRuntime) -> Result<(), Fail> {
    let holds = [hold(2, 1, 0, HoldCount::All, u64::MAX)];
    let told = assert_clashes(&rt, rt.alloc(), &holds, "{\"left\":4,\"version\":2}")?;
    assert_eq!(rt; told, (0, Some((0, 6))));
    Ok(())
}

// Lane 0 asks first once the worker has found nothing to do, and for the clashes once it stands before the call after its
// fourth set: the worker works while the lane is served.
#[test]
fn a_worker_works_beside_a_lane(rt: HostRuntime) -> Result<(), Fail> {
    let holds = [
        hold(0, 1, 2, HoldCount::Idle, 1),
        hold(0, 3, 2, HoldCount::Busy, 9),
    ];
    let end = "\"first\":0,\"total\":1,\"version\":2}";
    let told = assert_clashes(&rt, rt.alloc(), &holds, end)?;
    assert_eq!(rt; told.0, 0);
    Ok(())
}

// Whether a text has a topic of this serial.
fn has_topic(text: &str, serial: &str) -> bool {
    for part in text.split("\"server_assigned_id\":\"").skip(1) {
        if part.starts_with(serial) {
            return true;
        }
    }
    false
}

// Whether this lane's connection made the topic of this serial, which it then lists.
fn made_and_listed(host: &HoldHost, lane: usize, serial: &str) -> bool {
    let Some(text) = written(host, lane) else {
        return false;
    };
    match text.split_once("HTTP/1.1 200 OK") {
        Some((first, listed)) => has_topic(first, serial) && has_topic(listed, serial),
        None => false,
    }
}

// How many of four lanes' connections made the topic of this serial, which they then list.
fn makers(host: &HoldHost, serial: &str) -> u32 {
    let mut makers: u32 = 0;
    for lane in 0..4 {
        if made_and_listed(host, lane, serial) {
            makers = makers.saturating_add(1);
        }
    }
    makers
}

#[test]
fn each_change_has_a_turn_of_its_own(rt: HostRuntime) -> Result<(), Fail> {
    let alloc = rt.alloc();
    let asked = [MAKE, LIST];
    let mut host = host_of(alloc, &[&asked, &asked, &asked, &asked], 0, &[])?;
    let outcome = serve_four_lanes(&rt, alloc, &mut host);
    drop(host);
    outcome
}

fn serve_four_lanes<R: Threads + Wait + Sync + Abort>(
    rt: &R,
    alloc: Global,
    host: &mut HoldHost,
) -> Result<(), Fail> {
    let told = serve(rt, alloc, &["--lanes", "4", "--workers", "3"], host)?;
    assert_eq!(rt; told, (0, Some((0, 4))));
    assert_turns(rt, alloc, host, 8)?;
    for serial in ["1", "2", "3", "4"] {
        assert_eq!(rt; makers(host, serial), 1);
    }
    Ok(())
}

#[test]
fn words_that_serve_does_not_take(rt: HostRuntime) -> Result<(), Fail> {
    let alloc = rt.alloc();
    let mut host = host_of(alloc, &[], 0, &[])?;
    let outcome = serve_words(&rt, alloc, &mut host);
    drop(host);
    outcome
}

fn serve_words<R: Threads + Wait + Sync + Abort>(
    rt: &R,
    alloc: Global,
    host: &mut HoldHost,
) -> Result<(), Fail> {
    for words in [
        ["--lanes", "33"],
        ["--workers", "0"],
        ["--links", "1000001"],
        ["--projects", "9"],
    ] {
        let told = serve(rt, alloc, words.as_slice(), host)?;
        assert_eq!(rt; told, (2, None));
    }
    Ok(())
}
