//! Tests of the forms in memory.
ghost use Rattle.std.specs.Prelude.{true, IfOk, All};
ghost use Rattle.bim_net.specs.Stores.{door_of};
ghost use Rattle.bim_net.specs.ConnectionViews.{IsNew};

use bim_io::{Clock, MemSink, MemSource, Sink, Source, SureSink, SureSource};
use bim_model::{Bytes, Items, Text};
use bim_net::{
    Door, EndKind, FreeGate, FreshLink, Gate, Hold, HoldCount, HoldHost, Host, HostFault, Link,
    LinkEnd, MemDoor, MemHost, SureDoor, SureHost, mem_link, sure_link,
};
use std::alloc::{AllocError, Global};
use std::mem::drop;
use std::process::Abort;
use std::test::Fail;

const MOMENT: u64 = 1_714_564_800;

#[derive(Clone, Copy, Drop)]
enum Want<'a> {
    // A connection that gives these bytes.
    Gives(&'a str),
    Closed,
    Fails,
}

fn mem_links(
    alloc: Global,
    texts: &[&str],
) -> Result<Vec<FreshLink<MemSource, MemSink>>, AllocError> {
    let mut links = Vec::new(alloc);
    for text in texts {
        let contents = Bytes::of(alloc, text.as_bytes())?;
        links.push(mem_link(alloc, contents, 8, Items::new(alloc), Items::new(alloc))?)?;
    }
    Ok(links)
}

fn sure_links(
    alloc: Global,
    texts: &[&str],
) -> Result<Vec<FreshLink<SureSource, SureSink>>, AllocError> {
    let mut links = Vec::new(alloc);
    for text in texts {
        let contents = Bytes::of(alloc, text.as_bytes())?;
        links.push(sure_link(alloc, contents, 8)?)?;
    }
    Ok(links)
}

// A door in memory whose connections send these texts, and whose accept of this number fails (0: none).
fn mem_door(alloc: Global, texts: &[&str], fails: u64) -> Result<MemDoor, AllocError>
    ensures { IfOk result (λ d. IsNew true 0 (door_of d.store d.faults)) }
{
    let mut list = Items::new(alloc);
    list.push(fails)?;
    MemDoor::new(alloc, mem_links(alloc, texts)?, list)
}

fn sure_door(alloc: Global, text: &str) -> Result<SureDoor, AllocError>
    ensures { IfOk result (λ d. IsNew true 0 (door_of d 0)) }
{
    SureDoor::new(alloc, sure_links(alloc, &[text])?)
}

// Whether a connection gives these bytes at once, and takes them.
fn echoes<S: Source, K: Sink>(source: &mut S, sink: &mut K, text: &str) -> bool {
    let mut room = [0; 4];
    let Ok(count) = source.read(&mut room) else {
        return false;
    };
    let piece = &room[..count];
    piece == text.as_bytes() && sink.write(piece).ok() == Some(count)
}

// Whether a connection was wanted, and gives what it is to give. It is given back with this number.
fn is_answered<D: Door>(door: &mut D, link: Link<D::S, D::K>, last: u64, want: Want) -> bool {
    let mut link = link;
    let answers = match want {
        Want::Gives(text) => echoes(&mut link.source, &mut link.sink, text),
        _ => false,
    };
    let kind = EndKind::Closed;
    door.give_back(link, LinkEnd { kind, last });
    answers
}

// Whether an accept answers so.
fn accepts<D: Door>(door: &mut D, last: u64, want: Want) -> bool {
    match door.accept() {
        Ok(Some(link)) => is_answered(door, link, last, want),
        Ok(None) => matches!(want, Want::Closed),
        Err(_) => matches!(want, Want::Fails),
    }
}

// The accepts answer so, in turn. The connections are given back with the numbers of the accepts.
fn assert_accepts<D: Door>(rt: &impl Abort, door: &mut D, wanted: &[Want]) {
    let mut last: u64 = 0;
    for want in wanted {
        last = last.saturating_add(1);
        assert!(rt; accepts(door, last, *want));
    }
}

// Two connections were given back: they took these bytes, and bear these numbers.
fn assert_two(rt: &impl Abort, door: &MemDoor, texts: (&str, &str), numbers: (u64, u64)) {
    let [first, second] = door.ended() else {
        panic!(rt; "not two")
    };
    assert_eq!(rt; first.link().sink.bytes(), texts.0.as_bytes());
    assert_eq!(rt; second.link().sink.bytes(), texts.1.as_bytes());
    assert_eq!(rt; (first.end().last, second.end().last), numbers);
}

#[test]
fn a_door_gives_its_connections(rt: HostRuntime) -> Result<(), Fail> {
    let mut door = mem_door(rt.alloc(), &["ab", "cd"], 2)?;
    let wanted = [
        Want::Gives("ab"),
        Want::Fails,
        Want::Gives("cd"),
        Want::Closed,
        Want::Closed,
    ];
    assert_accepts(&rt, &mut door, &wanted);
    assert_two(&rt, &door, ("ab", "cd"), (1, 3));
    drop(door);
    Ok(())
}

fn assert_one(rt: &impl Abort, door: &SureDoor, text: &str) {
    let [only] = door.ended() else {
        panic!(rt; "not one")
    };
    assert_eq!(rt; only.link().sink.bytes(), text.as_bytes());
    assert_eq!(rt; only.end().kind, EndKind::Closed);
}

#[test]
fn a_door_that_never_fails_gives_its_connection(rt: HostRuntime) -> Result<(), Fail> {
    let mut door = sure_door(rt.alloc(), "ef")?;
    assert_accepts(&rt, &mut door, &[Want::Gives("ef"), Want::Closed]);
    assert_one(&rt, &door, "ef");
    drop(door);
    Ok(())
}

// The gate is closed once each of two lanes has ended.
fn assert_closes<G: Gate>(rt: &impl Abort, gate: &G) {
    assert!(rt; !gate.closed());
    gate.lane_ended(0);
    assert!(rt; !gate.closed());
    gate.lane_ended(1);
    assert!(rt; gate.closed());
}

// One door, with one connection.
fn mem_doors(alloc: Global) -> Result<Vec<MemDoor>, AllocError>
    ensures { IfOk result (λ ds. All (λ d. IsNew true 0 (door_of d.store d.faults)) ds.items) }
{
    let mut doors = Vec::new(alloc);
    doors.push(mem_door(alloc, &["ab"], 0)?)?;
    Ok(doors)
}

fn sure_doors(alloc: Global) -> Result<Vec<SureDoor>, AllocError>
    ensures { IfOk result (λ ds. All (λ d. IsNew true 0 (door_of d 0)) ds.items) }
{
    let mut doors = Vec::new(alloc);
    doors.push(sure_door(alloc, "ab")?)?;
    Ok(doors)
}

// The first of two doors gives a connection, the other none.
fn assert_doors<D: Door>(rt: &impl Abort, doors: &mut [D]) {
    let [first, second] = doors else {
        panic!(rt; "not two")
    };
    assert_accepts(rt, first, &[Want::Gives("ab"), Want::Closed]);
    assert_accepts(rt, second, &[Want::Closed]);
}

// Opens two doors of a host that has one with a connection, and hands them back.
fn assert_opens<H: Host>(rt: &impl Abort, alloc: Global, host: &mut H, addr: &Text) {
    let Ok(mut doors) = host.open_doors(alloc, addr, 2) else {
        panic!(rt; "no doors")
    };
    assert_doors(rt, doors.as_mut_slice());
    host.close_doors(doors);
    assert_eq!(rt; host.clock().now(), MOMENT);
    let gate = host.gate(2);
    assert_closes(rt, &gate);
    drop(gate);
}

fn opens<H: Host>(alloc: Global, host: &mut H, addr: &Text) -> Result<(), HostFault> {
    let doors = host.open_doors(alloc, addr, 1)?;
    drop(doors);
    Ok(())
}

#[test]
fn a_host_opens_its_doors(rt: HostRuntime) -> Result<(), Fail> {
    let alloc = rt.alloc();
    let addr = Text::of(alloc, "127.0.0.1:8080")?;
    let mut fails = Items::new(alloc);
    fails.push(1)?;
    let mut host = MemHost::new(alloc, mem_doors(alloc)?, MOMENT, fails);
    assert_eq!(rt; opens(alloc, &mut host, &addr), Err(HostFault::Failed));
    assert_opens(&rt, alloc, &mut host, &addr);
    assert_eq!(rt; host.doors().len(), 2);
    drop(host);
    Ok(())
}

#[test]
fn a_host_that_never_fails_opens_its_doors(rt: HostRuntime) -> Result<(), Fail> {
    let alloc = rt.alloc();
    let addr = Text::of(alloc, "127.0.0.1:8080")?;
    let mut host = SureHost::new(alloc, sure_doors(alloc)?, MOMENT);
    assert_opens(&rt, alloc, &mut host, &addr);
    assert_eq!(rt; host.doors().len(), 2);
    drop(host);
    Ok(())
}

// Holds a call of lane 0 for one look, until lane 1 has stood before such a call.
fn hold(call: u64, count: HoldCount) -> Hold {
    Hold {
        role: 0,
        call,
        other: 1,
        count,
        reaches: 1,
        looks: 1,
    }
}

fn hold_host(alloc: Global, holds: &[Hold]) -> Result<HoldHost, AllocError> {
    let holds = Items::from_vec(holds.to_vec(alloc)?);
    HoldHost::new(alloc, mem_doors(alloc)?, MOMENT, Items::new(alloc), holds)
}

// A look at lane 1 runs out where it hasn't called; it doesn't where lane 1 has ended.
fn assert_holds(rt: &impl Abort, host: &mut HoldHost) {
    let gate = host.gate(2);
    gate.before_call(1, false);
    gate.before_call(0, false);
    assert_eq!(rt; host.ran_out(), 0);
    gate.before_call(0, true);
    assert_eq!(rt; host.ran_out(), 1);
    gate.lane_ended(1);
    gate.before_call(0, false);
    assert_eq!(rt; host.ran_out(), 1);
    drop(gate);
}

#[test]
fn gates_hold_calls(rt: HostRuntime) -> Result<(), Fail> {
    let alloc = rt.alloc();
    let holds = [
        hold(1, HoldCount::Busy),
        hold(2, HoldCount::Idle),
        hold(3, HoldCount::Busy),
    ];
    let mut host = hold_host(alloc, &holds)?;
    assert_holds(&rt, &mut host);
    let free = host.gate(2);
    assert_closes(&rt, &free);
    drop(free);
    assert_eq!(rt; host.doors().len(), 0);
    drop(host);
    assert_closes(&rt, &FreeGate::new(2));
    Ok(())
}
