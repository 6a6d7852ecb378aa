//! A counter and a pacer shared by threads, which count and wait in turn.
ghost use Rattle.std.specs.Prelude.{ℕ, ◌≡◌, ◌<◌, ◌≤◌, ◌+◌, [], ◌∷◌, length, vec_len, Some, None, IfSome, All, if◌then◌else◌};
ghost use Rattle.book_turn.specs.Entries.{calls_by};
ghost use Rattle.book_turn.specs.Passes.{BelongsTo, IsSingle, KeepsNumbers};
ghost use Rattle.turn_tests.specs.inner.EntryCounts.{own_count};
ghost use Rattle.std.proofs.Common.{arith};

use book_turn::call_fault::{CallFault, SpentPass};
use book_turn::object::{SeqObject, Stamp};
use book_turn::pass::Pass;
use book_turn::turn::Turn;
use std::alloc::{AllocError, Global};
use std::hint;
use std::process::Abort;
use std::sync::Wait;
use std::test::Fail;
use std::thread::{Threads, for_each_mut, join};

/// Counts the calls that add, and tells its name with the count.
#[derive(Drop)]
struct Counter {
    name: u64,
    calls: Vec<Stamp>,
}

#[derive(Clone, Copy, Drop)]
struct Ask {
    adds: bool,
    starves: bool,
    // How long the call takes.
    steps: u32,
}

const ADD: Ask = Ask {
    adds: true,
    starves: false,
    steps: 0,
};

const READ: Ask = Ask { adds: false, ..ADD };

const STARVE: Ask = Ask {
    starves: true,
    ..ADD
};

impl SeqObject for Counter {
    type Request = Ask;

    type Reply = (u64, u64);

    type Entry = Stamp;

    type Settings = u64;

    ghost settings = { λ c. c.name };

    ghost journal = { λ c. c.calls.items };

    ghost stamp_of = { λ e. e };

    ghost reply_of = { λ name h _ ask. (name, length h + (if ask.adds then 1 else 0)) };

    ghost added_by = { λ _ _ st ask. if ask.adds then Some st else None };

    ghost is_legal = { λ _ _ _. Unit {0} };

    fn act(&mut self, stamp: Stamp, ask: Ask) -> Result<(u64, u64), AllocError> {
        dwell(ask.steps);
        if ask.starves {
            return Err(AllocError);
        }
        if ask.adds {
            self.calls.push(stamp)?;
        }
        Ok((self.name, self.calls.len() as u64))
    }

    ghost legal_later = { λ s h more r may. tt };

    ghost stamped = { λ s h st ask e is. Prim.grind arith };
}

fn dwell(steps: u32) {
    for _ in 0..steps {
        hint::spin_loop();
    }
}

fn new_counter(alloc: Global, name: u64) -> Counter
    ensures calls { result.calls.items ≡ [] }
    ensures name { result.name ≡ name }
{
    Counter {
        name,
        calls: Vec::new(alloc),
    }
}

// Adds so many times, which is how many entries more the history has of this pass. None where a call isn't
// answered, or its turn isn't above the one before.
fn count<R: Wait>(
    rt: &R,
    turn: &Turn<Counter>,
    mut pass: Pass<Counter>,
    times: u32,
) -> Option<Pass<Counter>>
    requires { IsSingle turn.now pass }
    ensures own { IfSome result (λ p. BelongsTo turn.now p × KeepsNumbers pass p) }
    ensures once { IfSome result (λ p. own_count p ≡ own_count pass + times) }
{
    let mut last = 0;
    for done in 0..times {
        let Ok(receipt) = turn.call(rt, &mut pass, ADD) else {
            return None;
        };
        if receipt.turn <= last || receipt.turn != pass.last() {
            return None;
        }
        last = receipt.turn;
    }
    Some(pass)
}

fn in_two_threads<R: Threads + Wait + Sync>(rt: &R, alloc: Global) -> Option<Counter>
    ensures first { IfSome result (λ c. length (calls_by (λ e. e.pass) (0 ∷ []) c.calls.items) ≡ 100) }
    ensures second { IfSome result (λ c. length (calls_by (λ e. e.pass) (1 ∷ []) c.calls.items) ≡ 100) }
{
    let (turn, mut passes) = Turn::new(alloc, new_counter(alloc, 7), 2).ok()?;
    let second = passes.pop()?;
    let first = passes.pop()?;
    let shared = &turn;
    let (a, b) = join(
        rt,
        move || -> Option<Pass<Counter>>
            requires { IsSingle shared.now first }
            ensures { IfSome result (λ p. BelongsTo shared.entry.now p
                × KeepsNumbers first p × (own_count p ≡ own_count first + 100)) }
        { count(rt, shared, first, 100) },
        move || -> Option<Pass<Counter>>
            requires { IsSingle shared.now second }
            ensures { IfSome result (λ p. BelongsTo shared.entry.now p
                × KeepsNumbers second p × (own_count p ≡ own_count second + 100)) }
        { count(rt, shared, second, 100) },
    );
    let mut into = a?;
    turn.join(&mut into, b?);
    Some(turn.close(into))
}

// How calls are made: so many rounds, with a call of each number of steps from `shortest` on.
#[derive(Clone, Copy, Drop)]
struct Pace {
    rounds: u32,
    shortest: u32,
    end: u32,
}

// Adds at this pace in as many threads as there are passes.
fn lanes<R: Threads + Wait + Sync>(
    rt: &R,
    turn: &Turn<Counter>,
    passes: &mut [Pass<Counter>],
    pace: Pace,
)
    requires { All (IsSingle turn.now) passes.old }
    ensures { All (IsSingle turn.entry.now) passes.new }
{
    for_each_mut(
        rt,
        passes,
        64,
        &|_, pass: &mut Pass<Counter>|
            requires { IsSingle turn.now pass.old }
            ensures { IsSingle turn.entry.now pass.new }
        { several(rt, turn, pass, pace) },
    );
}

fn several<R: Wait>(rt: &R, turn: &Turn<Counter>, pass: &mut Pass<Counter>, pace: Pace)
    requires { IsSingle turn.now pass.old }
    ensures { IsSingle turn.now pass.new }
{
    for _ in 0..pace.rounds {
        sweep(rt, turn, pass, pace);
    }
}

fn sweep<R: Wait>(rt: &R, turn: &Turn<Counter>, pass: &mut Pass<Counter>, pace: Pace)
    requires { IsSingle turn.now pass.old }
    ensures { IsSingle turn.now pass.new }
{
    for steps in pace.shortest..pace.end {
        let _ = turn.call(rt, pass, Ask { steps, ..ADD });
    }
}

// The last pass, into which all others were joined.
fn join_all(turn: &Turn<Counter>, mut passes: Vec<Pass<Counter>>) -> Option<Pass<Counter>>
    requires { All (IsSingle turn.now) passes.items }
    ensures own { IfSome result (BelongsTo turn.now) }
    ensures all { IfSome result (λ p. length p.numbers ≡ vec_len passes) }
{
    let mut into = passes.pop()?;
    while let Some(other) = passes.pop() {
        turn.join(&mut into, other);
    }
    Some(into)
}

// Adds in so many threads, and gives back the counter, whose name is their number.
fn in_lanes<R: Threads + Wait + Sync>(
    rt: &R,
    alloc: Global,
    number: u32,
    pace: Pace,
) -> Option<Counter>
    requires { (0 < number) × (number ≤ 64) }
{
    let counter = new_counter(alloc, u64::from(number));
    let (turn, mut passes) = Turn::new(alloc, counter, number).ok()?;
    lanes(rt, &turn, passes.as_mut_slice(), pace);
    let all = join_all(&turn, passes)?;
    Some(turn.close(all))
}

// How many calls each of so many passes made. None where the turns of the journal don't rise.
fn shares(counter: &Counter, passes: u32) -> Option<usize> {
    let mut last = 0;
    for stamp in &counter.calls {
        if stamp.turn <= last {
            return None;
        }
        last = stamp.turn;
    }
    let each = counter.calls.len() / (passes.max(1) as usize);
    for number in 0..passes {
        let made = counter
            .calls
            .iter()
            .filter(|stamp| stamp.pass == number)
            .count();
        if made != each {
            return None;
        }
    }
    Some(each)
}

#[test]
fn threads_stand_in_one_history(rt: HostRuntime) -> Result<(), Fail> {
    let Some(two) = in_two_threads(&rt, rt.alloc()) else {
        panic!(rt; "no answer in two threads")
    };
    assert_eq!(rt;
        (two.name, two.calls.len(), shares(&two, 2)),
        (7, 200, Some(100))
    );
    Ok(())
}

// Has so many threads add at this pace, and sees that each made as many calls as it was to make.
fn each_made<R: Threads + Wait + Sync + Abort>(
    rt: &R,
    alloc: Global,
    number: u32,
    pace: Pace,
    calls: usize,
)
    requires { (0 < number) × (number ≤ 64) }
{
    let Some(counter) = in_lanes(rt, alloc, number, pace) else {
        panic!(rt; "no answer in lanes")
    };
    assert_eq!(rt; counter.name, u64::from(number));
    assert_eq!(rt; shares(&counter, number), Some(calls));
}

#[test]
fn lanes_stand_in_one_history(rt: HostRuntime) -> Result<(), Fail> {
    let short = Pace {
        rounds: 25,
        shortest: 0,
        end: 1,
    };
    each_made(&rt, rt.alloc(), 8, short, 25);
    Ok(())
}

// While one call takes thousands of steps, all others that wait go to sleep. Each must be woken: where one
// isn't, the test never ends.
#[test]
fn sleepers_are_woken(rt: HostRuntime) -> Result<(), Fail> {
    let long = Pace {
        rounds: 8,
        shortest: 9_999,
        end: 10_000,
    };
    each_made(&rt, rt.alloc(), 64, long, 8);
    Ok(())
}

// Calls of about the length after which one that waits goes to sleep, so that some turns come at that very
// moment.
#[test]
fn nobody_sleeps_through_its_turn(rt: HostRuntime) -> Result<(), Fail> {
    let middling = Pace {
        rounds: 120,
        shortest: 50,
        end: 250,
    };
    each_made(&rt, rt.alloc(), 2, middling, 24_000);
    Ok(())
}

// The pass's last turn after a call, and the reply.
fn said<R: Wait>(
    rt: &R,
    turn: &Turn<Counter>,
    pass: &mut Pass<Counter>,
    ask: Ask,
) -> (u64, Option<(u64, u64)>)
    requires { BelongsTo turn.now pass.old }
    ensures { BelongsTo turn.now pass.new }
{
    let reply = turn.call(rt, pass, ask).ok().map(|receipt| receipt.reply);
    (pass.last(), reply)
}

#[test]
fn calls_are_answered_in_turn(rt: HostRuntime) -> Result<(), Fail> {
    let Ok((turn, mut passes)) = Turn::new(rt.alloc(), new_counter(rt.alloc(), 9), 2) else {
        panic!(rt; "no turn")
    };
    let (Some(mut second), Some(mut first)) = (passes.pop(), passes.pop()) else {
        panic!(rt; "no passes")
    };
    let told = [
        said(&rt, &turn, &mut first, ADD),
        said(&rt, &turn, &mut second, READ),
        said(&rt, &turn, &mut second, ADD),
        said(&rt, &turn, &mut first, STARVE),
        said(&rt, &turn, &mut first, READ),
    ];
    let expected = [
        (1, Some((9, 1))),
        (2, Some((9, 1))),
        (3, Some((9, 2))),
        (4, None),
        (5, Some((9, 2))),
    ];
    assert_eq!(rt; told, expected);
    assert_eq!(rt; (first.number(), second.number()), (0, 1));
    Ok(())
}

#[test]
fn faults_of_turns_are_told(rt: HostRuntime) -> Result<(), Fail> {
    let spent = SpentPass::new(3, 1 << 40);
    assert_eq!(rt; (spent.pass(), spent.turns()), (3, 1099511627776));
    let cases = [
        (CallFault::Memory, "memory ran out"),
        (
            CallFault::PassSpent(spent),
            "pass 3 has made all its 1099511627776 turns",
        ),
    ];
    for (fault, text) in cases {
        assert_eq!(rt; format!(in rt.alloc(); "{fault}")?.as_str(), text);
    }
    Ok(())
}
