//! Changes as rows of the table, and the commit of one.
ghost use Rattle.std.specs.Prelude.{◌≡◌, ◌⊎◌, ◌<◌, ◌≤◌, ◌^◌, ◌∷◌, ◌++◌, [], length, IfErr, OnOk};
ghost use Rattle.sqlite_disk.specs.Disk.{MoreFaults};
ghost use Rattle.sqlite_trees.specs.Tree.{Trees};
ghost use Rattle.sqlite_trees.specs.View.{IsClean, doubt};
ghost use Rattle.change_store.specs.ChangeRows.{change_of, row_of, IsOfChanges};
ghost use Rattle.change_store.specs.Faults.{IsCauseOf};
ghost use Rattle.change_store.specs.StoreReads.{IsReady};

use sqlite_trees::error::StoreError;
use sqlite_trees::store::Store;
use sqlite_value::row::Row;
use sqlite_value::value::ValueRef;
use std::alloc::AllocError;

/// The greatest number of bytes of a change.
pub const MOST_BYTES: usize = 1 << 29;

/// The number of the table among the database's trees.
pub(crate) const CHANGES: u32 = 0;

// Writes the row of a change.
fn fill(row: &mut Row, turn: u64, project: u32, bytes: &[u8]) -> Result<(), AllocError>
    requires { turn < 2 ^ 63 }
    ensures { OnOk result (row.new ≡ row_of (change_of turn project bytes.now)) }
{
    row.clear();
    row.push(ValueRef::Int(turn as i64))?;
    row.push(ValueRef::Null)?;
    row.push(ValueRef::Int(i64::from(project)))?;
    row.push(ValueRef::Blob(bytes))
}

/// Puts the row of a change behind those of earlier turns, and commits it.
pub(crate) fn commit_row<S: Store>(
    store: &mut S,
    row: &mut Row,
    last: u64,
    turn: u64,
    project: u32,
    bytes: &[u8],
) -> Result<(), StoreError>
    requires later { last < turn }
    requires turn { turn < 2 ^ 63 }
    requires short { length bytes.now ≤ MOST_BYTES }
    requires ready { IsClean (S.Store.view store.old) → IsReady (S.Store.view store.old) last }
    ensures ready { OnOk result (IsClean (S.Store.view store.new) → IsReady (S.Store.view store.new) turn) }
    ensures rows { OnOk result (IsClean (S.Store.view store.new) → (S.Store.view store.new).committed 0
        ≡ (S.Store.view store.old).committed 0 ++ row_of (change_of turn project bytes.now) ∷ []) }
    // A crash leaves what it could leave before, or the rows with this one behind them.
    ensures crash { IsClean (S.Store.view store.new) → (db : Trees) → S.Store.recovers store.new db
        → S.Store.recovers store.old db ⊎ (IsOfChanges db
        × (db 0 ≡ (S.Store.view store.old).committed 0 ++ row_of (change_of turn project bytes.now) ∷ [])) }
    ensures clean { doubt (S.Store.view store.old).is_clean ≤ doubt (S.Store.view store.new).is_clean }
    ensures counts { S.Store.faults store.old ≤ S.Store.faults store.new }
    ensures cause { IsClean (S.Store.view store.new)
        → IfErr result (IsCauseOf (MoreFaults (S.Store.faults store.old) (S.Store.faults store.new))) }
{
    fill(row, turn, project, bytes)?;
    match store.put(CHANGES, row) {
        Ok(()) => store.commit(),
        Err(error) => Err(error),
    }
}
