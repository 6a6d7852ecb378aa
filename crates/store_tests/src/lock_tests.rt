//! Two threads add to one store under a lock.

use crate::read_back::ReadBack;
use change_store::{ChangeStore, open_changes};
use sqlite::MemStore;
use std::process::Abort;
use std::sync::{Mutex, Wait};
use std::test::Fail;
use std::thread::{Threads, join};

// Adds so many changes of a project, each under the lock, and says how many were added.
fn add_some<R: Wait>(
    rt: &R,
    shared: &Mutex<ChangeStore<MemStore>>,
    project: u32,
    count: u64,
) -> u64 {
    let mut added = 0u64;
    for _ in 0..count {
        let mut store = shared.lock(rt);
        let last = store.last_turn();
        if last < 1_000_000 && store.append(last + 1, project, b"change").is_ok() {
            added = added.saturating_add(1);
        }
    }
    added
}

fn add_from_two<R: Threads + Wait + Sync>(
    rt: &R,
    shared: &Mutex<ChangeStore<MemStore>>,
) -> (u64, u64) {
    join(
        rt,
        move || add_some(rt, shared, 1, 40),
        move || add_some(rt, shared, 2, 30),
    )
}

#[test]
fn two_threads_add_under_one_lock(rt: HostRuntime) -> Result<(), Fail> {
    let mut none = ReadBack::new(rt.alloc(), 0);
    let memory = MemStore::new(rt.alloc(), &[])?;
    let Ok(store) = open_changes(rt.alloc(), memory, &mut none) else {
        panic!(rt; "not opened");
    };
    let shared = Mutex::new(store);
    let added = add_from_two(&rt, &shared);
    let store = shared.into_inner();
    assert!(rt; added == (40, 30));
    assert_eq!(rt; store.last_turn(), 70);
    drop(store);
    Ok(())
}
