//! The commands.
ghost use Rattle.std.specs.Prelude.{◌≡◌, ◌<◌, ◌⊎◌};
ghost use Rattle.bim_io.specs.Causes.{Rose, ComesOfFault};
ghost use Rattle.bim_io.specs.StreamViews.{outside};
ghost use Rattle.server_commands.specs.ReplayWords.{replay_words, IsReplay};
ghost use Rattle.server_commands.specs.ServeCommand.{without_book};
ghost use Rattle.server_commands.specs.Commands.{Does, ReplaysBy, Runs, command_of, Ends, SaysUsage, TellsSpent, asked_by};

use crate::about::{HELP, VERSION_LINE, print_alone};
use crate::replay::{replay_session, status_of};
use crate::replay_words::{ReplayWords, Time, replay_words};
use crate::serve::{Ended, run_serve};
use batch_commands::{print_usage, run_check, run_generate};
use bim_files::Files;
use bim_io::{Clock, MemClock, Sink, Source};
use bim_model::Text;
use bim_net::{Door, Gate, Host};
use command_words::is_word;
use std::alloc::Global;
use std::sync::Wait;
use std::thread::Threads;

/// The exit status out of memory.
const NO_MEMORY: u8 = 6;

// Replays one recorded session by what the words say.
fn replay<S: Source, K: Sink, C: Clock>(
    alloc: Global,
    said: ReplayWords,
    source: &mut S,
    sink: &mut K,
    clock: &mut C,
) -> u8
    requires { IsReplay said }
    ensures does { ReplaysBy said.time said.buckets said.projects
        (outside (S.seen source.old) (K.seen sink.old) (C.seen clock.old))
        (outside (S.seen source.new) (K.seen sink.new) (C.seen clock.new)) result }
    ensures read { ComesOfFault (S.seen source.old).faults (S.seen source.new).faults (result ≡ 4) }
    ensures write { result ≡ 5 → Rose (K.seen sink.old).faults (K.seen sink.new).faults }
{
    match said.time {
        Time::OfClock => {
            status_of(replay_session(alloc, said.projects, said.buckets, source, sink, clock))
        }
        Time::At(moment) => {
            let mut one_moment = MemClock::new(moment);
            let end = replay_session(
                alloc,
                said.projects,
                said.buckets,
                source,
                sink,
                &mut one_moment,
            );
            status_of(end)
        }
    }
}

/// Replays one recorded session: reads requests from the source, answers them over a book of one thread, writes the
/// responses to the sink, and after each works the buckets that are to be checked, or as many as the words say. The words are those after `replay`. It answers the exit status: 0 where the input ended
/// between requests, 2 where the words are outside their grammar, 4 where a read failed, 5 where a write failed, 6
/// where memory ran out, and 7 where the session ended within a request, by a fault of its bytes, or after 10,000
/// requests.
pub fn run_replay<S: Source, K: Sink, C: Clock>(
    alloc: Global,
    words: &[Text],
    source: &mut S,
    sink: &mut K,
    clock: &mut C,
) -> u8
    ensures does { Does (replay_words words.now)
        (outside (S.seen source.old) (K.seen sink.old) (C.seen clock.old))
        (outside (S.seen source.new) (K.seen sink.new) (C.seen clock.new)) result }
    ensures read { ComesOfFault (S.seen source.old).faults (S.seen source.new).faults (result ≡ 4) }
    ensures write { result ≡ 5 → Rose (K.seen sink.old).faults (K.seen sink.new).faults }
{
    match replay_words(alloc, words) {
        Ok(Some(said)) => replay(alloc, said, source, sink, clock),
        Ok(None) => print_usage(sink),
        Err(_) => NO_MEMORY,
    }
}

// Does what the command of the first word does, one other than `serve`, and answers its status. Another word is outside
// the grammar, so it prints the usage line and answers 2.
fn run_other<S: Source, K: Sink, F: Files, C: Clock>(
    alloc: Global,
    words: &[Text],
    source: &mut S,
    sink: &mut K,
    files: &mut F,
    clock: &mut C,
) -> u8
    ensures does { Runs (command_of words.now)
        (outside (S.seen source.old) (K.seen sink.old) (C.seen clock.old))
        (outside (S.seen source.new) (K.seen sink.new) (C.seen clock.new))
        (F.seen files.old) (F.seen files.new) result }
    ensures read { result ≡ 4 → Rose (S.seen source.old).faults (S.seen source.new).faults
        ⊎ Rose (F.seen files.old).faults (F.seen files.new).faults }
    ensures source { (S.seen source.old).faults < (S.seen source.new).faults → result ≡ 4 }
    ensures files { (F.seen files.old).faults < (F.seen files.new).faults → result ≡ 4 }
    ensures write { result ≡ 5 → Rose (K.seen sink.old).faults (K.seen sink.new).faults }
{
    match words {
        [] => print_usage(sink),
        [name, rest @ ..] => {
            if is_word(name.as_str(), "replay") {
                run_replay(alloc, rest, source, sink, clock)
            } else if is_word(name.as_str(), "check") {
                run_check(alloc, rest, files, sink)
            } else if is_word(name.as_str(), "generate") {
                run_generate(alloc, rest, sink)
            } else if is_word(name.as_str(), "--version") {
                print_alone(rest, VERSION_LINE, sink)
            } else if is_word(name.as_str(), "--help") {
                print_alone(rest, HELP, sink)
            } else {
                print_usage(sink)
            }
        }
    }
}

// Where the words were outside the grammar, the usage line is printed.
fn say_usage<K: Sink>(ended: Ended, sink: &mut K) -> Ended
    requires { ended.status ≡ 2 → ended ≡ without_book 2 }
    ensures same { result ≡ ended }
    ensures usage { SaysUsage (K.seen sink.old) (K.seen sink.new) ended.status }
{
    if ended.status == 2 {
        Ended::of(print_usage(sink))
    } else {
        ended
    }
}

/// Does what the command of the first word does, and answers how it ended. Another word is outside the grammar, so it prints
/// the usage line and answers 2; so are words after `serve` that it doesn't take.
pub fn run<
    R: Threads + Wait + Sync,
    S: Source,
    K: Sink,
    F: Files,
    T: Clock,
    D: Door + Send + Drop,
    C: Clock + Send + Drop,
    G: Gate + Sync + Drop,
    H: Host<D = D, C = C, G = G>,
>(
    rt: &R,
    alloc: Global,
    words: &[Text],
    source: &mut S,
    sink: &mut K,
    files: &mut F,
    clock: &mut T,
    host: &mut H,
) -> Ended
where
    D::S: Send,
    D::K: Send,
    ensures ends { Ends (asked_by words.now)
        (outside (S.seen source.old) (K.seen sink.old) (T.seen clock.old))
        (outside (S.seen source.new) (K.seen sink.new) (T.seen clock.new))
        (F.seen files.old) (F.seen files.new) (H.seen host.old) (H.seen host.new) result }
    ensures spent { TellsSpent (asked_by words.now) result }
    ensures read { result.status ≡ 4 → Rose (S.seen source.old).faults (S.seen source.new).faults
        ⊎ (Rose (F.seen files.old).faults (F.seen files.new).faults
        ⊎ Rose (H.seen host.old).faults (H.seen host.new).faults) }
    ensures source { (S.seen source.old).faults < (S.seen source.new).faults → result.status ≡ 4 }
    ensures files { (F.seen files.old).faults < (F.seen files.new).faults → result.status ≡ 4 }
    ensures write { result.status ≡ 5 → Rose (K.seen sink.old).faults (K.seen sink.new).faults }
{
    match words {
        [] => Ended::of(print_usage(sink)),
        [name, rest @ ..] => {
            if is_word(name.as_str(), "serve") {
                let ended = run_serve::<R, D, C, G, H>(rt, alloc, rest, host);
                say_usage(ended, sink)
            } else {
                Ended::of(run_other(alloc, words, source, sink, files, clock))
            }
        }
    }
}
