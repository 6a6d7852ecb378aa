//! A store is written, left and opened again, and other files are refused.

use crate::read_back::ReadBack;
use change_store::{ChangeStore, OpenFault, open_store};
use sqlite::{Connection, FileFrom, FileStore, Unknown};
use std::fs;
use std::process::Abort;
use std::test::Fail;

const FOLDER: &str = "store_tests_files";

type Store = ChangeStore<FileStore<FileFrom<Unknown>>>;

fn opened(rt: &HostRuntime, path: &str, reader: &mut ReadBack) -> Result<Store, OpenFault> {
    open_store(rt, path, Unknown, reader)
}

// Adds a change of the next turn but two.
fn add(store: &mut Store, project: u32, bytes: &[u8]) -> bool {
    let last = store.last_turn();
    if last > 1000 || bytes.len() > 1000 {
        return false;
    }
    store.append(last + 3, project, bytes).is_ok()
}

fn write_three(rt: &HostRuntime, path: &str) -> Result<bool, Fail> {
    let mut none = ReadBack::new(rt.alloc(), 0);
    let Ok(mut store) = opened(rt, path, &mut none) else {
        return Ok(false);
    };
    let added = add(&mut store, 2, b"one")
        && add(&mut store, 0, b"")
        && add(&mut store, 7, b"three");
    drop(store);
    Ok(added)
}

#[test]
fn what_was_added_is_read_again(rt: HostRuntime) -> Result<(), Fail> {
    let _ = fs::remove_dir_all(&rt, FOLDER);
    fs::create_dir(&rt, FOLDER)?;
    let path = "store_tests_files/three.db";
    assert!(rt; write_three(&rt, path)?);
    let mut back = ReadBack::new(rt.alloc(), 1000);
    let again = opened(&rt, path, &mut back);
    let last = again.as_ref().map_or(0, |store| store.last_turn());
    drop(again);
    assert_eq!(rt; last, 9);
    assert!(rt; back.turns.as_slice() == [3, 6, 9].as_slice());
    assert!(rt; back.projects.as_slice() == [2, 0, 7].as_slice());
    assert!(rt; back.bytes.as_slice() == b"onethree".as_slice());
    fs::remove_dir_all(&rt, FOLDER)?;
    Ok(())
}

// The fault of an open, where it has one.
fn refusal(rt: &HostRuntime, path: &str, greatest: u64) -> Option<OpenFault> {
    let mut back = ReadBack::new(rt.alloc(), greatest);
    match opened(rt, path, &mut back) {
        Ok(store) => {
            drop(store);
            None
        }
        Err(fault) => Some(fault),
    }
}

// Runs statements over a file.
fn run(rt: &HostRuntime, path: &str, sql: &str) -> bool {
    match Connection::open(rt, path) {
        Ok(mut connection) => {
            let ran = connection.execute_batch(sql).is_ok();
            connection.close().is_ok() && ran
        }
        Err(_) => false,
    }
}

const OURS: &str =
    "CREATE TABLE change (turn INTEGER PRIMARY KEY, project INTEGER NOT NULL, entry BLOB NOT NULL); INSERT INTO change VALUES (4, 1, x'00')";

static REFUSED: [(&str, &str, Option<OpenFault>); 6] = [
    ("store_tests_refused/ours.db", "SELECT 1", None),
    (
        "store_tests_refused/two.db",
        "CREATE TABLE other (a INTEGER) STRICT",
        Some(OpenFault::OtherTables),
    ),
    (
        "store_tests_refused/project.db",
        "INSERT INTO change VALUES (5, -1, x'00')",
        Some(OpenFault::BadRow),
    ),
    (
        "store_tests_refused/large.db",
        "INSERT INTO change VALUES (5, 4294967296, x'00')",
        Some(OpenFault::BadRow),
    ),
    (
        "store_tests_refused/turn.db",
        "INSERT INTO change VALUES (0, 1, x'00')",
        Some(OpenFault::BadRow),
    ),
    (
        "store_tests_refused/reader.db",
        "INSERT INTO change VALUES (1001, 1, x'00')",
        Some(OpenFault::Refused),
    ),
];

#[test]
fn other_databases_are_refused(rt: HostRuntime) -> Result<(), Fail> {
    let _ = fs::remove_dir_all(&rt, "store_tests_refused");
    fs::create_dir(&rt, "store_tests_refused")?;
    for (path, sql, wanted) in REFUSED.iter() {
        assert!(rt; run(&rt, path, OURS));
        let _ = run(&rt, path, sql);
        assert!(rt; refusal(&rt, path, 1000) == *wanted);
        assert!(rt; refusal(&rt, path, 1000) == *wanted);
    }
    fs::remove_dir_all(&rt, "store_tests_refused")?;
    Ok(())
}
