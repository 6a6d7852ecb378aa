//! Adds changes to a store, for scripts that stop it: store_writer_tests PATH CHANGES BYTES.
//!
//! It prints how many changes the store held and the turn of the last, then the turn of each change once it is added.
#![tactic(auto)]

ghost use Rattle.std.specs.Prelude.{◌≤◌};

use change_store::{ChangeReader, MOST_BYTES, NotTaken, open_store};
use sqlite::Unknown;
use std::env;
use std::io::{self, ErrorKind};
use std::process::ExitCode;

// Counts the changes, and looks whether their bytes are those that this program writes.
#[derive(Drop)]
struct Counted {
    count: u64,
}

// The byte of which a change consists.
fn mark_of(turn: u64) -> u8 {
    (turn % 251) as u8
}

impl ChangeReader for Counted {
    ghost use Rattle.std.specs.Prelude.{None};

    ghost taken = { λ _. None };

    fn take(&mut self, turn: u64, project: u32, bytes: &[u8]) -> Result<(), NotTaken> {
        let mark = mark_of(turn);
        if u64::from(project) != turn % 8 || bytes.iter().any(|byte| *byte != mark) {
            return Err(NotTaken);
        }
        self.count = self.count.saturating_add(1);
        Ok(())
    }
}

// The path and the two numbers.
fn words_of(rt: &HostRuntime) -> io::Result<Option<(String, u64, u64)>> {
    let mut words = env::args(rt)?;
    let _name = words.next();
    let Some(path) = words.next() else {
        return Ok(None);
    };
    let Some(changes) = words.next() else {
        return Ok(None);
    };
    let Some(size) = words.next() else {
        return Ok(None);
    };
    match (changes.parse::<u64>(), size.parse::<u64>()) {
        (Ok(changes), Ok(size)) => Ok(Some((path, changes, size))),
        _ => Ok(None),
    }
}

// Adds changes of so many bytes, and prints each turn.
fn write_all(rt: &HostRuntime, path: &str, changes: u64, size: usize) -> io::Result<u8>
    requires { size ≤ MOST_BYTES }
{
    let mut counted = Counted { count: 0 };
    let mut store = match open_store(rt, path, Unknown, &mut counted) {
        Ok(store) => store,
        Err(fault) => {
            println!(rt; "{fault:?}")?;
            return Ok(3);
        }
    };
    let held = counted.count;
    let last = store.last_turn();
    println!(rt; "held {held} {last}")?;
    for _ in 0..changes {
        let turn = store.last_turn().saturating_add(1);
        if turn >= 1 << 62 {
            return Ok(2);
        }
        let Ok(bytes) = vec![in rt.alloc(); mark_of(turn); size] else {
            return Err(ErrorKind::OutOfMemory.into());
        };
        if let Err(fault) = store.append(turn, (turn % 8) as u32, bytes.as_slice()) {
            println!(rt; "{fault:?}")?;
            return Ok(5);
        }
        println!(rt; "{turn}")?;
    }
    Ok(0)
}

fn main(rt: HostRuntime) -> ExitCode {
    let words = match words_of(&rt) {
        Ok(Some(words)) => words,
        _ => return ExitCode::from(2),
    };
    if words.2 > MOST_BYTES as u64 {
        return ExitCode::from(2);
    }
    match write_all(&rt, words.0.as_str(), words.1, words.2 as usize) {
        Ok(status) => ExitCode::from(status),
        Err(_) => ExitCode::from(4),
    }
}
