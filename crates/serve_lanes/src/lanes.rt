//! Lanes in threads of their own, over one book.
ghost use Rattle.std.specs.Prelude.{◌≡◌, ◌⊎◌, ◌+◌, ◌≢◌, ◌||◌, ◌++◌, ◌≤◌, ◌<◌, [], ◌∷◌, true, IsSome, vec_len, vec_capacity, map, All, IfOk};
ghost use Rattle.book_turn.specs.NumberLists.{numbers_from};
ghost use Rattle.book_turn.specs.Passes.{new_passes};
ghost use Rattle.bim_net.specs.Hosts.{AreNew, some_failed};
ghost use Rattle.book_history.specs.History.{left_all};
ghost use Rattle.serve_lanes.specs.Histories.{Service, TellsOne, IsReady, LaneOver, LanesJoined, DoorServed, IsOver, is_failed, some_lacked, some_spent};
ghost use Rattle.check_workers.specs.Joins.{IsNewWorker, WorkerOver, HasEach, AreOfLanes};

use crate::lane::{LaneEnd, serve_lane};
use bim_io::Clock;
use bim_model::know;
use bim_net::{Door, Gate};
use book_turn::call_fault::SpentPass;
use book_turn::limits::MOST_PASSES;
use book_turn::pass::Pass;
use book_turn::turn::Turn;
use check_workers::{Lack, Worker, join_workers, make_workers, run_workers, work_out};
use federation_book::Book;
use std::alloc::{AllocError, Global};
use std::collections::VecDeque;
use std::marker::{Brand, Model};
use std::sync::Wait;
use std::thread::{Threads, for_each_mut, join};

/// What holds of all lanes of a server. It is there for proofs alone.
pub trait Serving {
    ghost service: { Service };
}

impl Serving for Brand {
    ghost use Rattle.serve_lanes.specs.Histories.{no_service};

    ghost service = { no_service };
}

/// A lane: a pass to the book, a door and a clock.
#[derive(Drop)]
pub struct Lane<D: Door + Drop, C: Clock + Drop> {
    pub pass: Pass<Book>,
    pub door: D,
    pub clock: C,
    /// Why it serves no more.
    pub end: LaneEnd,
    /// Whether one of its sessions ended out of memory, or without a turn.
    pub lack: Lack,
}

// Serves one lane, and tells the gate that it has ended.
fn run_lane<K: Serving, R: Wait, D: Door + Drop, C: Clock + Drop, G: Gate>(
    rt: &R,
    alloc: Global,
    turn: &Turn<Book>,
    lane: &mut Lane<D, C>,
    gate: &G,
    links: u64,
)
    requires ready { IsReady K.service turn.now lane.old.pass (D.seen lane.old.door) (C.seen lane.old.clock)
        lane.old.lack }
    ensures over { LaneOver K.service links turn.now lane.new.pass (D.seen lane.new.door)
        lane.new.end lane.new.lack }
    ensures number { (D.seen lane.new.door).number ≡ (D.seen lane.old.door).number }
{
    lane.end = serve_lane(
        rt,
        alloc,
        turn,
        &mut lane.pass,
        &mut lane.door,
        &mut lane.clock,
        gate,
        links,
        &mut lane.lack,
    );
    gate.lane_ended(lane.pass.number());
}

// Runs all lanes, each in a thread of its own.
fn run_all<
    K: Serving + Sync,
    R: Threads + Wait + Sync,
    D: Door + Send + Drop,
    C: Clock + Send + Drop,
    G: Gate + Sync,
>(rt: &R, alloc: Global, turn: &Turn<Book>, lanes: &mut [Lane<D, C>], gate: &G, links: u64)
where
    D::S: Send,
    D::K: Send,
    requires ready { All (λ l. IsReady K.service turn.now l.pass (D.seen l.door) (C.seen l.clock) l.lack)
        lanes.old }
    ensures over { All (λ l. LaneOver K.service links turn.entry.now l.pass (D.seen l.door) l.end l.lack)
        lanes.new }
    ensures numbers { map (λ l. (D.seen l.door).number) lanes.new
        ≡ map (λ l. (D.seen l.door).number) lanes.old }
{
    for_each_mut(
        rt,
        lanes,
        64,
        &|_, lane: &mut Lane<D, C>|
            requires { IsReady K.service turn.now lane.old.pass (D.seen lane.old.door) (C.seen lane.old.clock)
                lane.old.lack }
            ensures { LaneOver K.service links turn.entry.now lane.new.pass (D.seen lane.new.door)
                lane.new.end lane.new.lack
                × ((D.seen lane.new.door).number ≡ (D.seen lane.old.door).number) }
        { run_lane::<K, R, D, C, G>(rt, alloc, turn, lane, gate, links) },
    );
}

// The same for lanes in a vector.
fn run_vec<
    K: Serving + Sync,
    R: Threads + Wait + Sync,
    D: Door + Send + Drop,
    C: Clock + Send + Drop,
    G: Gate + Sync,
>(
    rt: &R,
    alloc: Global,
    turn: &Turn<Book>,
    lanes: Vec<Lane<D, C>>,
    gate: &G,
    links: u64,
) -> Vec<Lane<D, C>>
where
    D::S: Send,
    D::K: Send,
    requires ready { All (λ l. IsReady K.service turn.now l.pass (D.seen l.door) (C.seen l.clock) l.lack)
        lanes.items }
    ensures over { All (λ l. LaneOver K.service links turn.now l.pass (D.seen l.door) l.end l.lack)
        result.items }
    ensures numbers { map (λ l. (D.seen l.door).number) result.items
        ≡ map (λ l. (D.seen l.door).number) lanes.items }
{
    let mut lanes = lanes;
    run_all::<K, R, D, C, G>(rt, alloc, turn, lanes.as_mut_slice(), gate, links);
    lanes
}

// A lane for each door, with the pass of its number, in the room that was taken for them.
fn make_lanes<K: Serving, D: Door + Drop, C: Clock + Drop>(
    turn: &Turn<Book>,
    passes: Vec<Pass<Book>>,
    doors: Vec<D>,
    clocks: Vec<C>,
    room: Vec<Lane<D, C>>,
) -> Vec<Lane<D, C>>
    requires settings { turn.now.settings ≡ K.service.settings }
    requires passes { passes.items ≡ new_passes turn.now 0 (vec_len doors) }
    requires doors { AreNew K.service.tells 0 (map D.seen doors.items) }
    requires clocks { vec_len clocks ≡ vec_len doors }
    requires one { All (λ c. TellsOne K.service.one (C.seen c).one) clocks.items }
    requires room { (room.items ≡ []) × (vec_len doors ≤ vec_capacity room) }
    ensures ready { All (λ l. IsReady K.service turn.now l.pass (D.seen l.door) (C.seen l.clock) l.lack)
        result.items }
    ensures numbers { map (λ l. (D.seen l.door).number) result.items ≡ numbers_from 0 (vec_len doors) }
{
    let mut passes = VecDeque::from_vec(passes);
    let mut doors = VecDeque::from_vec(doors);
    let mut clocks = VecDeque::from_vec(clocks);
    let mut lanes = room;
    while let Some(pass) = passes.pop_front() {
        let Some(door) = doors.pop_front() else {
            unreachable!()
        };
        let Some(clock) = clocks.pop_front() else {
            unreachable!()
        };
        lanes.push_reserved(Lane {
            pass,
            door,
            clock,
            end: LaneEnd::Closed,
            lack: Lack::none(),
        });
    }
    lanes
}

// What is left of lanes whose passes were joined.
#[derive(Drop)]
struct JoinedLanes<D: Door + Drop> {
    into: Pass<Book>,
    doors: Vec<D>,
    failed: bool,
    lack: Lack,
}

// Whether one of the lanes ended by a fault of its door, when one more has ended so.
fn has_failed(failed: bool, end: LaneEnd) -> bool
    ensures { result ≡ (failed || is_failed end) }
{
    if failed {
        return true;
    }
    match end {
        LaneEnd::Closed => false,
        LaneEnd::Full => false,
        LaneEnd::Failed => true,
    }
}

// One more lane is joined.
fn join_lane<K: Serving, D: Door + Drop, C: Clock + Drop>(
    turn: &Turn<Book>,
    joined: &mut JoinedLanes<D>,
    lane: Lane<D, C>,
    links: u64,
)
    requires room { vec_len joined.old.doors < vec_capacity joined.old.doors }
    requires joined { LanesJoined K.service links turn.now joined.old.into
        (map D.seen joined.old.doors.items) joined.old.failed joined.old.lack }
    requires over { LaneOver K.service links turn.now lane.pass (D.seen lane.door) lane.end lane.lack }
    requires other { (D.seen lane.door).number ≢ joined.old.into.number }
    ensures number { joined.new.into.number ≡ joined.old.into.number }
    ensures room { vec_capacity joined.new.doors ≡ vec_capacity joined.old.doors }
    ensures doors { map D.seen joined.new.doors.items
        ≡ map D.seen joined.old.doors.items ++ D.seen lane.door ∷ [] }
    ensures joined { LanesJoined K.service links turn.now joined.new.into
        (map D.seen joined.new.doors.items) joined.new.failed joined.new.lack }
{
    know(links);
    let Lane {
        pass,
        door,
        clock: _,
        end,
        lack,
    } = lane;
    turn.join(&mut joined.into, pass);
    joined.doors.push_reserved(door);
    joined.failed = has_failed(joined.failed, end);
    joined.lack.add(lack);
}

// Joins the passes of all lanes into one, and gives that and the doors, in their order, with whether one of the lanes ended
// by a fault of its door, and what sessions lacked.
fn join_lanes<K: Serving, D: Door + Drop, C: Clock + Drop>(
    turn: &Turn<Book>,
    own: Pass<Book>,
    lanes: Vec<Lane<D, C>>,
    room: Vec<D>,
    links: u64,
) -> JoinedLanes<D>
    requires own { IsNewWorker turn.now own }
    requires other { vec_len lanes ≤ own.number }
    requires room { (room.items ≡ []) × (vec_len lanes ≤ vec_capacity room) }
    requires over { All (λ l. LaneOver K.service links turn.now l.pass (D.seen l.door) l.end l.lack)
        lanes.items }
    requires numbers { map (λ l. (D.seen l.door).number) lanes.items ≡ numbers_from 0 (vec_len lanes) }
    ensures number { result.into.number ≡ own.number }
    ensures joined { LanesJoined K.service links turn.now result.into
        (map D.seen result.doors.items) result.failed result.lack }
    ensures numbers { map (λ d. d.number) (map D.seen result.doors.items) ≡ numbers_from 0 (vec_len lanes) }
{
    let mut joined = JoinedLanes {
        into: own,
        doors: room,
        failed: false,
        lack: Lack::none(),
    };
    let mut lanes = VecDeque::from_vec(lanes);
    while let Some(lane) = lanes.pop_front() {
        join_lane::<K, D, C>(turn, &mut joined, lane, links);
    }
    joined
}

// A turn over the book, so many passes, and one more.
fn open_turn(
    alloc: Global,
    book: Book,
    count: u32,
) -> Result<(Turn<Book>, Pass<Book>, Vec<Pass<Book>>), AllocError>
    requires empty { book.journal ≡ [] }
    requires few { count < MOST_PASSES }
    ensures settings { IfOk result (λ r. r.0.settings ≡ book.settings) }
    ensures passes { IfOk result (λ r. r.0.passes ≡ count + 1) }
    ensures own { IfOk result (λ r. IsNewWorker r.0 r.1) }
    ensures number { IfOk result (λ r. r.1.number ≡ count) }
    ensures others { IfOk result (λ r. r.2.items ≡ new_passes r.0 0 count) }
{
    let (turn, mut passes) = Turn::new(alloc, book, count + 1)?;
    let Some(own) = passes.pop() else {
        unreachable!()
    };
    Ok((turn, own, passes))
}

// Runs the lanes and the workers side by side. Where the system makes no thread for the workers, `join` runs what stands
// second first: the lanes, since workers wait until all lanes have ended.
fn run_both<
    K: Serving + Sync,
    R: Threads + Wait + Sync,
    D: Door + Send + Drop,
    C: Clock + Send + Drop,
    G: Gate + Sync,
>(
    rt: &R,
    alloc: Global,
    turn: &Turn<Book>,
    lanes: Vec<Lane<D, C>>,
    workers: Vec<Worker>,
    gate: &G,
    links: u64,
) -> (Vec<Lane<D, C>>, Vec<Worker>)
where
    D::S: Send,
    D::K: Send,
    requires ready { All (λ l. IsReady K.service turn.now l.pass (D.seen l.door) (C.seen l.clock) l.lack)
        lanes.items }
    requires new { All (λ w. IsNewWorker turn.now w.pass) workers.items }
    ensures over { All (λ l. LaneOver K.service links turn.now l.pass (D.seen l.door) l.end l.lack)
        result.0.items }
    ensures numbers { map (λ l. (D.seen l.door).number) result.0.items
        ≡ map (λ l. (D.seen l.door).number) lanes.items }
    ensures workers { All (λ w. WorkerOver turn.now w.pass) result.1.items }
    ensures seats { map (λ w. w.pass.number) result.1.items ≡ map (λ w. w.pass.number) workers.items }
{
    let (workers, lanes) = join(
        rt,
        move || -> Vec<Worker>
            requires { All (λ w. IsNewWorker turn.now w.pass) workers.items }
            ensures { All (λ w. WorkerOver turn.entry.now w.pass) result.items
                × (map (λ w. w.pass.number) result.items ≡ map (λ w. w.pass.number) workers.items) }
        { run_workers(rt, alloc, turn, workers, gate) },
        move || -> Vec<Lane<D, C>>
            requires { All (λ l. IsReady K.service turn.now l.pass (D.seen l.door) (C.seen l.clock) l.lack)
                lanes.items }
            ensures { All (λ l. LaneOver K.service links turn.entry.now l.pass (D.seen l.door) l.end l.lack)
                result.items
                × (map (λ l. (D.seen l.door).number) result.items
                ≡ map (λ l. (D.seen l.door).number) lanes.items) }
        { run_vec::<K, R, D, C, G>(rt, alloc, turn, lanes, gate, links) },
    );
    (lanes, workers)
}

/// What is left when all lanes have ended.
#[derive(Drop)]
pub struct Served<D: Door + Drop> {
    pub book: Book,
    /// In their order.
    pub doors: Vec<D>,
    /// Whether a lane ended by a fault of its door.
    pub failed: bool,
    /// Whether memory ran out, for a session or for work.
    pub memory: bool,
    /// A pass that had made all its turns.
    pub spent: Option<SpentPass>,
}

// Joins all passes into one, works what is left by it, and takes the book back.
fn close_all<K: Serving, R: Wait, D: Door + Drop, C: Clock + Drop, G: Gate>(
    rt: &R,
    alloc: Global,
    turn: Turn<Book>,
    own: Pass<Book>,
    lanes: Vec<Lane<D, C>>,
    workers: Vec<Worker>,
    room: Vec<D>,
    gate: &G,
    links: u64,
) -> Served<D>
    requires own { IsNewWorker turn own }
    requires number { own.number ≡ vec_len lanes + vec_len workers }
    requires all { turn.passes ≡ own.number + 1 }
    requires settings { turn.settings ≡ K.service.settings }
    requires room { (room.items ≡ []) × (vec_len lanes ≤ vec_capacity room) }
    requires over { All (λ l. LaneOver K.service links turn l.pass (D.seen l.door) l.end l.lack) lanes.items }
    requires numbers { map (λ l. (D.seen l.door).number) lanes.items ≡ numbers_from 0 (vec_len lanes) }
    requires workers { All (λ w. WorkerOver turn w.pass) workers.items }
    requires seats { HasEach (vec_len lanes) own.number (map (λ w. w.pass.number) workers.items) }
    ensures settings { result.book.settings ≡ turn.settings }
    ensures served { All (DoorServed K.service result.book.journal) (map D.seen result.doors.items) }
    ensures numbers { map (λ d. d.number) (map D.seen result.doors.items) ≡ numbers_from 0 (vec_len lanes) }
    ensures entries { AreOfLanes (vec_len lanes) result.book.journal }
    ensures over { All (IsOver links result.failed) (map D.seen result.doors.items) }
    ensures failed { result.failed ≡ some_failed (map D.seen result.doors.items) }
    ensures memory { some_lacked (map D.seen result.doors.items) ≡ true → result.memory ≡ true }
    ensures turns { some_spent (map D.seen result.doors.items) ≡ true → IsSome result.spent }
    ensures work { (left_all result.book.settings.projects result.book.journal ≡ 0)
        ⊎ ((result.memory ≡ true) ⊎ IsSome result.spent) }
{
    let JoinedLanes {
        into,
        doors,
        failed,
        lack,
    } = join_lanes::<K, D, C>(&turn, own, lanes, room, links);
    let mut into = into;
    let mut lack = lack;
    lack.add(join_workers(&turn, &mut into, workers));
    lack.add(work_out(rt, alloc, &turn, &mut into, 0, gate));
    let Lack { memory, spent } = lack;
    Served {
        book: turn.close(into),
        doors,
        failed,
        memory,
        spent,
    }
}

/// All that lanes and workers take of memory before they run: a turn over the book, a pass for each of them and one more,
/// and room for the lanes and for the doors that are given back. So a server that has opened its doors gives the book back.
#[derive(Drop)]
pub struct Seats<D: Door + Drop, C: Clock + Drop> {
    count: u32,
    turn: Turn<Book>,
    own: Pass<Book>,
    passes: Vec<Pass<Book>>,
    workers: Vec<Worker>,
    lanes: Vec<Lane<D, C>>,
    doors: Vec<D>,
}

impl<D: Door + Drop, C: Clock + Drop> Model for Seats<D, C> {
    ghost use Rattle.std.specs.Prelude.{◌≡◌, ◌+◌, ◌≤◌, [], map, vec_len, vec_capacity, All};
    ghost use Rattle.book_turn.specs.Passes.{new_passes};
    ghost use Rattle.check_workers.specs.Joins.{IsNewWorker, HasEach};
    ghost use Rattle.serve_lanes.specs.LaneSeats.{SeatsMade};

    ghost Value = { SeatsMade };

    ghost view = { λ s. record { lanes = s.count; settings = s.turn.settings } };

    ghost invariant = { λ s. IsNewWorker s.turn s.own
        × (s.own.number ≡ s.count + vec_len s.workers)
        × (s.turn.passes ≡ s.own.number + 1)
        × (s.passes.items ≡ new_passes s.turn 0 s.count)
        × All (λ w. IsNewWorker s.turn w.pass) s.workers.items
        × HasEach s.count s.own.number (map (λ w. w.pass.number) s.workers.items)
        × (s.lanes.items ≡ []) × (s.count ≤ vec_capacity s.lanes)
        × (s.doors.items ≡ []) × (s.count ≤ vec_capacity s.doors) };
}

impl<D: Door + Drop, C: Clock + Drop> Seats<D, C> {
    /// For so many lanes and so many workers over a book without entries. At an `Err`, the book is dropped.
    pub fn new(
        alloc: Global,
        book: Book,
        lanes: u32,
        workers: u32,
    ) -> Result<Seats<D, C>, AllocError>
        requires empty { book.journal ≡ [] }
        requires few { lanes + workers < MOST_PASSES }
        ensures made { IfOk result (λ s. s ≡ record { lanes = lanes; settings = book.settings }) }
    {
        let room = Vec::with_capacity(alloc, lanes as usize)?;
        let doors = Vec::with_capacity(alloc, lanes as usize)?;
        let (turn, own, mut passes) = open_turn(alloc, book, lanes + workers)?;
        let workers = make_workers(alloc, &turn, &mut passes, workers, lanes)?;
        Ok(Seats {
            count: lanes,
            turn,
            own,
            passes,
            workers,
            lanes: room,
            doors,
        })
    }
}

/// Serves connections in lanes, each in a thread of its own with a pass, a door and a clock of its own, until all have
/// ended; beside them workers check buckets, each in a thread with a pass of its own. Then the passes are joined into one,
/// which works what is left, and the book is given back, with the doors in their order: all connections were served in the
/// one history that is its journal.
pub fn run_lanes<
    K: Serving + Sync,
    R: Threads + Wait + Sync,
    D: Door + Send + Drop,
    C: Clock + Send + Drop,
    G: Gate + Sync,
>(
    rt: &R,
    alloc: Global,
    seats: Seats<D, C>,
    doors: Vec<D>,
    clocks: Vec<C>,
    gate: &G,
    links: u64,
) -> Served<D>
where
    D::S: Send,
    D::K: Send,
    requires seats { seats ≡ record { lanes = vec_len doors; settings = K.service.settings } }
    requires doors { AreNew K.service.tells 0 (map D.seen doors.items) }
    requires clocks { vec_len clocks ≡ vec_len doors }
    requires one { All (λ c. TellsOne K.service.one (C.seen c).one) clocks.items }
    ensures settings { result.book.settings ≡ K.service.settings }
    ensures served { All (DoorServed K.service result.book.journal) (map D.seen result.doors.items) }
    ensures numbers { map (λ d. d.number) (map D.seen result.doors.items) ≡ numbers_from 0 (vec_len doors) }
    ensures entries { AreOfLanes (vec_len doors) result.book.journal }
    ensures over { All (IsOver links result.failed) (map D.seen result.doors.items) }
    ensures failed { result.failed ≡ some_failed (map D.seen result.doors.items) }
    ensures memory { some_lacked (map D.seen result.doors.items) ≡ true → result.memory ≡ true }
    ensures turns { some_spent (map D.seen result.doors.items) ≡ true → IsSome result.spent }
    ensures work { (left_all result.book.settings.projects result.book.journal ≡ 0)
        ⊎ ((result.memory ≡ true) ⊎ IsSome result.spent) }
{
    let Seats {
        count: _,
        turn,
        own,
        passes,
        workers,
        lanes: room,
        doors: back,
    } = seats;
    let lanes = make_lanes::<K, D, C>(&turn, passes, doors, clocks, room);
    let (lanes, workers) = run_both::<K, R, D, C, G>(rt, alloc, &turn, lanes, workers, gate, links);
    close_all::<K, R, D, C, G>(rt, alloc, turn, own, lanes, workers, back, gate, links)
}
