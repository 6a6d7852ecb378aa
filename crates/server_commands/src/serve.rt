//! The command that serves.
ghost use Rattle.std.specs.Prelude.{◌≡◌, ◌↔◌, ◌+◌, ◌<◌, [], IsSome, IfOk, All, vec_len, map};
ghost use Rattle.bim_io.specs.Causes.{Rose};
ghost use Rattle.bim_net.specs.Hosts.{AreNew};
ghost use Rattle.serve_lanes.specs.Histories.{TellsOne};
ghost use Rattle.server_commands.specs.ServeWords.{serve_words, IsServe};
ghost use Rattle.server_commands.specs.ServeCommand.{Serves, ServesDoors, ServesBy, EndsAs, service_of, without_book};

use crate::serve_words::{ServeCounts, ServeWords, serve_words};
use bim_io::Clock;
use bim_model::Text;
use bim_net::{Door, Gate, Host, HostFault};
use book_history::Limits;
use book_turn::call_fault::SpentPass;
use book_turn::limits::MOST_PASSES;
use federation_book::Book;
use serve_lanes::{Seats, Served, Serving, run_lanes};
use std::alloc::{AllocError, Global};
use std::marker::Brand;
use std::sync::Wait;
use std::thread::Threads;

/// How a command ended.
#[derive(Drop)]
pub struct Ended {
    /// The exit status.
    pub status: u8,
    /// The book that was served.
    pub book: Option<Book>,
    /// A pass that had made all its turns, where the status is 7.
    pub spent: Option<SpentPass>,
}

impl Ended {
    /// A command ended with this status, without a book.
    pub fn of(status: u8) -> Ended
        ensures { result ≡ without_book status }
    {
        Ended {
            status,
            book: None,
            spent: None,
        }
    }
}

// How a server ended: out of memory comes before a pass that had made all its turns, and that before a door that failed.
fn ended_of(book: Book, failed: bool, memory: bool, spent: Option<SpentPass>) -> Ended
    ensures { EndsAs book failed memory spent result }
{
    if memory {
        return Ended {
            status: 6,
            book: Some(book),
            spent: None,
        };
    }
    let status = if spent.is_some() {
        7
    } else if failed {
        4
    } else {
        0
    };
    Ended {
        status,
        book: Some(book),
        spent,
    }
}

// A clock for each lane.
fn clocks_of<C: Clock + Drop, H: Host<C = C>>(
    alloc: Global,
    host: &mut H,
    count: u32,
) -> Result<Vec<C>, AllocError>
    ensures count { IfOk result (λ clocks. vec_len clocks ≡ count) }
    ensures one { IfOk result (λ clocks.
        All (λ c. TellsOne (H.seen host.old).moment (C.seen c).one) clocks.items) }
    ensures host { H.seen host.new ≡ H.seen host.old }
{
    let mut clocks = Vec::new(alloc);
    for _lane in 0..count {
        clocks.push(host.clock())?;
    }
    Ok(clocks)
}

// Serves over doors that were opened, and hands them back.
fn serve_doors<
    K: Serving + Sync,
    R: Threads + Wait + Sync,
    D: Door + Send + Drop,
    C: Clock + Send + Drop,
    G: Gate + Sync + Drop,
    H: Host<D = D, C = C, G = G>,
>(
    rt: &R,
    alloc: Global,
    counts: ServeCounts,
    seats: Seats<D, C>,
    doors: Vec<D>,
    clocks: Vec<C>,
    gate: &G,
    host: &mut H,
) -> Ended
where
    D::S: Send,
    D::K: Send,
    requires service { K.service ≡ service_of counts (H.seen host.old) }
    requires seats { seats ≡ record { lanes = counts.lanes; settings = K.service.settings } }
    requires count { vec_len doors ≡ counts.lanes }
    requires new { AreNew K.service.tells 0 (map D.seen doors.items) }
    requires clocks { vec_len clocks ≡ vec_len doors }
    requires one { All (λ c. TellsOne K.service.one (C.seen c).one) clocks.items }
    ensures served { ServesDoors counts (H.seen host.old) (H.seen host.new) result }
    ensures spent { (result.status ≡ 7) ↔ IsSome result.spent }
{
    let served = run_lanes::<K, R, D, C, G>(rt, alloc, seats, doors, clocks, gate, counts.links);
    let Served {
        book,
        doors,
        failed,
        memory,
        spent,
    } = served;
    host.close_doors(doors);
    ended_of(book, failed, memory, spent)
}

// Serves what the words say.
fn serve<
    R: Threads + Wait + Sync,
    D: Door + Send + Drop,
    C: Clock + Send + Drop,
    G: Gate + Sync + Drop,
    H: Host<D = D, C = C, G = G>,
>(rt: &R, alloc: Global, said: &ServeWords, host: &mut H) -> Ended
where
    D::S: Send,
    D::K: Send,
    requires { IsServe said.now.counts }
    ensures served { Serves said.now (H.seen host.old) (H.seen host.new) result }
    ensures spent { (result.status ≡ 7) ↔ IsSome result.spent }
{
    let counts = said.counts;
    let Ok(book) = Book::new(alloc, counts.projects, Limits::stated()) else {
        return Ended::of(6);
    };
    let Ok(clocks) = clocks_of(alloc, host, counts.lanes) else {
        return Ended::of(6);
    };
    let Ok(seats) = Seats::new(alloc, book, counts.lanes, counts.workers) else {
        return Ended::of(6);
    };
    let gate = host.gate(counts.lanes);
    match host.open_doors(alloc, &said.addr, counts.lanes) {
        Ok(doors) => serve_doors::<Brand, R, D, C, G, H>(
            rt, alloc, counts, seats, doors, clocks, &gate, host,
        ),
        Err(HostFault::Failed) => Ended::of(4),
        Err(HostFault::Memory) => Ended::of(6),
    }
}

/// Serves connections over a new book: opens a door for each lane, and runs the lanes and the workers, each in a thread of
/// its own, until all lanes have ended. Then what is left is worked, the doors are closed, and the book is given back. The
/// words are those after `serve`. The exit status is 0; 2 where the words are outside their grammar; 4 where the doors
/// couldn't be opened, or one failed; 6 where memory ran out, also for a session; and 7 where a pass had made all its
/// turns. 6 stands before 7, and 7 before 4. A fault of a connection ends its session alone.
pub fn run_serve<
    R: Threads + Wait + Sync,
    D: Door + Send + Drop,
    C: Clock + Send + Drop,
    G: Gate + Sync + Drop,
    H: Host<D = D, C = C, G = G>,
>(rt: &R, alloc: Global, words: &[Text], host: &mut H) -> Ended
where
    D::S: Send,
    D::K: Send,
    ensures does { ServesBy (serve_words words.now) (H.seen host.old) (H.seen host.new) result }
    ensures failed { result.status ≡ 4 → Rose (H.seen host.old).faults (H.seen host.new).faults }
    ensures spent { (result.status ≡ 7) ↔ IsSome result.spent }
{
    match serve_words(alloc, words) {
        Ok(Some(said)) => serve::<R, D, C, G, H>(rt, alloc, &said, host),
        Ok(None) => Ended::of(2),
        Err(_) => Ended::of(6),
    }
}
