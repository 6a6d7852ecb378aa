//! Workers in threads of their own, over one book.
ghost use Rattle.std.specs.Prelude.{◌≡◌, ◌⊎◌, ◌+◌, ◌||◌, ◌++◌, All, IfOk, OnOk, true, IsSome, vec_len, map};
ghost use Rattle.std.specs.List.{list_any};
ghost use Rattle.std.specs.Option.{option_or};
ghost use Rattle.book_turn.specs.Entries.{AllBefore};
ghost use Rattle.book_turn.specs.Passes.{BelongsTo, new_passes};
ghost use Rattle.book_history.specs.History.{left_all};
ghost use Rattle.book_passes.specs.Lessons.{caller_of, turn_of};
ghost use Rattle.check_workers.specs.WorkerTurns.{Teaches};
ghost use Rattle.check_workers.specs.Joins.{IsNewWorker, WorkerOver, HasEach, ExtendsByWork, nothing_lacked, lacked_by, first_spent};

use crate::work::work_loop;
use bim_model::know;
use bim_net::Gate;
use book_turn::call_fault::{CallFault, SpentPass};
use book_turn::pass::Pass;
use book_turn::turn::Turn;
use bucket_check::Room;
use federation_book::Book;
use std::alloc::{AllocError, Global};
use std::collections::VecDeque;
use std::sync::Wait;
use std::thread::{Threads, for_each_mut};

/// What kept work from being done.
#[derive(Drop)]
pub struct Lack {
    /// Whether memory ran out.
    pub memory: bool,
    /// A pass that had made all its turns.
    pub spent: Option<SpentPass>,
}

impl Lack {
    /// Nothing did.
    pub fn none() -> Lack
        ensures { result ≡ nothing_lacked }
    {
        Lack {
            memory: false,
            spent: None,
        }
    }

    /// A call got no reply.
    pub fn of(fault: CallFault) -> Lack
        ensures is { result ≡ lacked_by fault }
        ensures some { (result.memory ≡ true) ⊎ IsSome result.spent }
    {
        match fault {
            CallFault::Memory => Lack {
                memory: true,
                spent: None,
            },
            CallFault::PassSpent(spent) => Lack {
                memory: false,
                spent: Some(spent),
            },
        }
    }

    /// What kept something else from being done is noted too.
    pub fn add(&mut self, other: Lack)
        ensures memory { self.new.memory ≡ (self.old.memory || other.memory) }
        ensures spent { self.new.spent ≡ option_or self.old.spent other.spent }
        ensures kept { IsSome self.old.spent → IsSome self.new.spent }
        ensures added { IsSome other.spent → IsSome self.new.spent }
    {
        let Lack { memory, spent } = other;
        self.memory = self.memory || memory;
        if self.spent.is_none() {
            self.spent = spent;
        }
    }
}

/// A worker: a pass to the book, which of the buckets it takes, and what kept it from working.
#[derive(Drop)]
pub struct Worker {
    pub pass: Pass<Book>,
    pub seat: u32,
    pub lack: Lack,
}

/// Works what is left until the gate is closed.
pub fn work_out<R: Wait, G: Gate>(
    rt: &R,
    alloc: Global,
    turn: &Turn<Book>,
    pass: &mut Pass<Book>,
    seat: u32,
    gate: &G,
) -> Lack
    requires own { BelongsTo turn.now pass.old }
    ensures own { BelongsTo turn.now pass.new }
    ensures teaches { Teaches (caller_of pass.old) (caller_of pass.new) }
    ensures done { (left_all turn.now.settings.projects pass.new.seen ≡ 0)
        ⊎ ((result.memory ≡ true) ⊎ IsSome result.spent) }
{
    let mut room = Room::new(alloc);
    match work_loop(rt, alloc, turn, pass, &mut room, seat, gate) {
        Ok(()) => Lack::none(),
        Err(fault) => Lack::of(fault),
    }
}

fn run_worker<R: Wait, G: Gate>(
    rt: &R,
    alloc: Global,
    turn: &Turn<Book>,
    worker: &mut Worker,
    gate: &G,
)
    requires new { IsNewWorker turn.now worker.old.pass }
    ensures over { WorkerOver turn.now worker.new.pass }
    ensures number { worker.new.pass.number ≡ worker.old.pass.number }
{
    worker.lack = work_out(rt, alloc, turn, &mut worker.pass, worker.seat, gate);
}

fn run_all<R: Threads + Wait + Sync, G: Gate + Sync>(
    rt: &R,
    alloc: Global,
    turn: &Turn<Book>,
    workers: &mut [Worker],
    gate: &G,
)
    requires new { All (λ w. IsNewWorker turn.now w.pass) workers.old }
    ensures over { All (λ w. WorkerOver turn.entry.now w.pass) workers.new }
    ensures numbers { map (λ w. w.pass.number) workers.new ≡ map (λ w. w.pass.number) workers.old }
{
    for_each_mut(
        rt,
        workers,
        64,
        &|_, worker: &mut Worker|
            requires { IsNewWorker turn.now worker.old.pass }
            ensures { WorkerOver turn.entry.now worker.new.pass
                × (worker.new.pass.number ≡ worker.old.pass.number) }
        { run_worker(rt, alloc, turn, worker, gate) },
    );
}

/// Runs all workers, each in a thread of its own, until the gate is closed and nothing is left to be worked.
pub fn run_workers<R: Threads + Wait + Sync, G: Gate + Sync>(
    rt: &R,
    alloc: Global,
    turn: &Turn<Book>,
    workers: Vec<Worker>,
    gate: &G,
) -> Vec<Worker>
    requires new { All (λ w. IsNewWorker turn.now w.pass) workers.items }
    ensures over { All (λ w. WorkerOver turn.now w.pass) result.items }
    ensures numbers { map (λ w. w.pass.number) result.items ≡ map (λ w. w.pass.number) workers.items }
{
    let mut workers = workers;
    run_all(rt, alloc, turn, workers.as_mut_slice(), gate);
    workers
}

/// So many workers, with the last of the passes.
pub fn make_workers(
    alloc: Global,
    turn: &Turn<Book>,
    passes: &mut Vec<Pass<Book>>,
    count: u32,
    first: u32,
) -> Result<Vec<Worker>, AllocError>
    requires { passes.old.items ≡ new_passes turn.now 0 (first + count) }
    ensures new { IfOk result (λ ws. All (λ w. IsNewWorker turn.now w.pass) ws.items) }
    ensures numbers { IfOk result (λ ws.
        HasEach first (first + count) (map (λ w. w.pass.number) ws.items)) }
    ensures count { IfOk result (λ ws. vec_len ws ≡ count) }
    ensures others { OnOk result (passes.new.items ≡ new_passes turn.now 0 first) }
{
    know(turn);
    let mut workers = Vec::with_capacity(alloc, count as usize)?;
    for seat in 0..count {
        let Some(pass) = passes.pop() else {
            unreachable!()
        };
        workers.push_reserved(Worker {
            pass,
            seat,
            lack: Lack::none(),
        });
    }
    Ok(workers)
}

/// Joins the passes of all workers into one, and says what kept them from working.
pub fn join_workers(turn: &Turn<Book>, into: &mut Pass<Book>, workers: Vec<Worker>) -> Lack
    requires own { BelongsTo turn.now into.old }
    requires up_to { AllBefore turn_of (into.old.last + 1) into.old.seen }
    requires over { All (λ w. WorkerOver turn.now w.pass) workers.items }
    ensures own { BelongsTo turn.now into.new }
    ensures extends { ExtendsByWork into.old into.new }
    ensures numbers { into.new.numbers ≡ into.old.numbers ++ map (λ w. w.pass.number) workers.items }
    ensures memory { result.memory ≡ list_any (λ w. w.lack.memory) workers.items }
    ensures spent { result.spent ≡ first_spent (map (λ w. w.lack) workers.items) }
{
    let mut lack = Lack::none();
    let mut workers = VecDeque::from_vec(workers);
    while let Some(worker) = workers.pop_front() {
        let Worker {
            pass,
            seat: _,
            lack: own,
        } = worker;
        turn.join(into, pass);
        lack.add(own);
    }
    lack
}
