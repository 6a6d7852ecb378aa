//! A disk fails from each of its calls on, and what it then has is opened again.

use crate::read_back::ReadBack;
use change_store::{AppendFault, ChangeStore, open_changes};
use sqlite::{Connection, FileStore, Files, Options};
use sqlite_disk::{Crash, Disk, Fuse, Memory};
use std::alloc::Global;
use std::process::Abort;
use std::test::Fail;

type Failing = Fuse<Memory>;

// So many changes a run adds. The log is copied into the file in its middle.
const CHANGES: u64 = 3;

static TURNS: [u64; 3] = [1, 2, 3];

// No run has as many calls of the log or of the file.
const MOST_CALLS: u64 = 1000;

/// What came of a run over a disk that failed.
#[derive(Clone, Copy, Debug)]
struct Came {
    // How many changes were added, and whether one was behind one that wasn't.
    added: u64,
    behind: bool,
    // How many a start finds if the program was killed, and if all was lost that wasn't synced.
    killed: Option<u64>,
    lost: Option<u64>,
}

fn disk_of(alloc: Global, bytes: &[u8], calls: u64) -> Option<Failing> {
    let mut memory = Memory::new(alloc);
    if memory.write_at(0, bytes).is_err() || memory.sync().is_err() {
        drop(memory);
        return None;
    }
    Some(Fuse::new(memory, calls))
}

fn opened(
    alloc: Global,
    files: Files<Failing>,
    reader: &mut ReadBack,
) -> Result<ChangeStore<FileStore<Failing>>, Files<Failing>> {
    if !files.may_be_used() {
        return Err(files);
    }
    let options = Options {
        cache_pages: 16,
        spill_pages: 16,
        checkpoint_frames: 4,
        seed: 7,
    };
    let connection = match Connection::open_files(alloc, files, options) {
        Ok(connection) => connection,
        Err((_, left)) => return Err(left.into_files()),
    };
    match open_changes(alloc, connection.into_store(), reader) {
        Ok(store) => Ok(store),
        Err((_, store)) => Err(store.close()),
    }
}

// Adds the changes, and says how many were added, and whether one was behind one that wasn't.
fn add_all(store: &mut ChangeStore<FileStore<Failing>>) -> (u64, bool) {
    let mut added = 0u64;
    let mut behind = false;
    let mut failed = false;
    for turn in TURNS {
        if store.last_turn() >= turn {
            return (added, true);
        }
        match store.append(turn, 1, b"one change") {
            Ok(()) => {
                behind = behind || failed;
                added = added.saturating_add(1);
            }
            Err(fault) => {
                behind = behind || (failed && fault != AppendFault::Sealed);
                failed = true;
            }
        }
    }
    (added, behind)
}

// Opens new files that fail from some call on, adds the changes, and gives the files back.
fn write(alloc: Global, files: Files<Failing>) -> (Files<Failing>, (u64, bool)) {
    let mut none = ReadBack::new(alloc, 0);
    match opened(alloc, files, &mut none) {
        Ok(mut store) => {
            let added = add_all(&mut store);
            (store.into_store().close(), added)
        }
        Err(files) => (files, (0, false)),
    }
}

// How many changes a start finds, if they are the first ones.
fn found(alloc: Global, files: Files<Failing>) -> Option<u64> {
    let mut back = ReadBack::new(alloc, CHANGES);
    match opened(alloc, files, &mut back) {
        Ok(store) => drop(store),
        Err(files) => {
            drop(files);
            return None;
        }
    }
    let first = TURNS.as_slice().starts_with(back.turns.as_slice());
    let count = back.turns.len() as u64;
    drop(back);
    first.then_some(count)
}

// The files with all that was written.
fn written(alloc: Global, files: &Files<Failing>) -> Option<Files<Failing>> {
    let log = disk_of(alloc, files.log.inner().bytes(), u64::MAX)?;
    let db = disk_of(alloc, files.db.inner().bytes(), u64::MAX)?;
    Some(Files { log, db })
}

// The log and the file each fail from that call on.
fn run(alloc: Global, log_calls: u64, db_calls: u64) -> Option<Came> {
    let files = Files {
        log: disk_of(alloc, &[], log_calls)?,
        db: disk_of(alloc, &[], db_calls)?,
    };
    let (mut files, (added, behind)) = write(alloc, files);
    let killed = match written(alloc, &files) {
        Some(files) => found(alloc, files),
        None => None,
    };
    files.log.crash();
    files.db.crash();
    let lost = found(alloc, files);
    Some(Came {
        added,
        behind,
        killed,
        lost,
    })
}

fn is_kept(added: u64, count: Option<u64>) -> bool {
    count.is_some_and(|count| count == added || count == added.saturating_add(1))
}

// Each call of the log fails in turn, or of the file, until all changes are added; says how many there were.
fn fail_each<R: Abort>(rt: &R, alloc: Global, is_log: bool) -> Option<u64> {
    for calls in 0..MOST_CALLS {
        let came = if is_log {
            run(alloc, calls, u64::MAX)?
        } else {
            run(alloc, u64::MAX, calls)?
        };
        assert!(rt; !came.behind, "{came:?} at call {calls}");
        assert!(rt;
            is_kept(came.added, came.killed),
            "{came:?} at call {calls}"
        );
        assert!(rt; is_kept(came.added, came.lost), "{came:?} at call {calls}");
        if came.added == CHANGES {
            return Some(calls);
        }
    }
    None
}

#[test]
fn what_a_failed_disk_has_is_what_was_added(rt: HostRuntime) -> Result<(), Fail> {
    let log = fail_each(&rt, rt.alloc(), true);
    let db = fail_each(&rt, rt.alloc(), false);
    assert!(rt; log.is_some_and(|calls| calls > CHANGES));
    assert!(rt; db.is_some_and(|calls| calls > CHANGES));
    Ok(())
}
