//! An open store.

use crate::change_rows::{MOST_BYTES, commit_row};
use crate::store_faults::{AppendFault, append_fault};
use sqlite_trees::store::Store;
use sqlite_value::row::Row;
use std::alloc::Global;
use std::marker::Model;

/// An open file of changes. Each is a row of its table, committed before the call that adds it returns.
///
/// Once a change isn't committed, the store is sealed: it takes no later one.
pub struct ChangeStore<S: Store> {
    store: S,
    row: Row,
    last: u64,
    sealed: bool,
}

impl<S: Store> Model for ChangeStore<S> {
    ghost use Rattle.change_store.specs.StoreStates.{StoreState, state_code, IsKept};

    ghost Value = { StoreState S };

    ghost coded = { state_code S.code };

    ghost view = { λ s. record { store = s.store; last = s.last; sealed = s.sealed } };

    ghost invariant = { λ s. IsKept S.Store (record { store = s.store; last = s.last; sealed = s.sealed }) };
}

// Written out, so that a caller needn't prove again how each part is dropped.
impl<S: Store + Drop> Drop for ChangeStore<S> {
    fn drop(self) {
        let ChangeStore {
            store: _,
            row: _,
            last: _,
            sealed: _,
        } = self;
    }
}

impl<S: Store> ChangeStore<S> {
    ghost use Rattle.std.specs.Prelude.{◌≡◌, ◌⊎◌, ◌↔◌, ◌<◌, ◌≤◌, ◌^◌, ◌∷◌, ◌++◌, [], List, length, true, false, Err, IfErr, OnOk, OnErr};
    ghost use Rattle.sqlite_trees.specs.Tree.{Trees};
    ghost use Rattle.sqlite_trees.specs.View.{IsClean};
    ghost use Rattle.change_store.specs.ChangeRows.{StoredChange, change_of, IsOfChanges, HasRisingTurns};
    ghost use Rattle.change_store.specs.Faults.{AppendCause};
    ghost use Rattle.change_store.specs.StoreReads.{IsReady};
    ghost use Rattle.change_store.specs.StoreStates.{IsHonest, FallsOnly, held, MayFind, disk_faults};

    /// A store over a database that is ready.
    pub(crate) fn new(alloc: Global, store: S, last: u64) -> ChangeStore<S>
        requires { IsClean (S.Store.view store) → IsReady (S.Store.view store) last }
        ensures { result ≡ record { store = store; last = last; sealed = false } }
    {
        ChangeStore {
            store,
            row: Row::new(alloc),
            last,
            sealed: false,
        }
    }

    /// Adds a change, and commits its row. Once it returns Ok, each later start finds the change.
    pub fn append(&mut self, turn: u64, project: u32, bytes: &[u8]) -> Result<(), AppendFault>
        requires later { self.old.last < turn }
        requires turn { turn < 2 ^ 63 }
        requires short { length bytes.now ≤ MOST_BYTES }
        ensures added { OnOk result (IsHonest S.Store self.new
            → held S.Store self.new ≡ held S.Store self.old ++ change_of turn project bytes.now ∷ []) }
        ensures last { OnOk result (self.new.last ≡ turn) }
        // Once it is Ok, a crash leaves the change behind those before it, and nothing else.
        ensures durable { OnOk result (IsHonest S.Store self.new
            → (found : List StoredChange) → MayFind S.Store self.new found → found ≡ held S.Store self.new) }
        // A crash at any moment of the call leaves the changes from before it, with this one or without.
        ensures any_moment { IsHonest S.Store self.new → self.old.sealed ≡ false
            → (found : List StoredChange) → MayFind S.Store self.new found
            → (found ≡ held S.Store self.old)
            ⊎ (found ≡ held S.Store self.old ++ change_of turn project bytes.now ∷ []) }
        ensures open { OnOk result (self.new.sealed ≡ false) }
        ensures sealed { OnErr result (self.new.sealed ≡ true) }
        ensures refused { (result ≡ Err AppendFault.Sealed) ↔ (self.old.sealed ≡ true) }
        ensures untouched { self.old.sealed ≡ true → self.new ≡ self.old }
        ensures honest { FallsOnly S.Store self.old self.new }
        ensures cause { IsHonest S.Store self.new → IfErr result
            (AppendCause (disk_faults S.Store self.old) (disk_faults S.Store self.new) self.old.sealed) }
    {
        if self.sealed {
            return Err(AppendFault::Sealed);
        }
        self.sealed = true;
        match commit_row(
            &mut self.store,
            &mut self.row,
            self.last,
            turn,
            project,
            bytes,
        ) {
            Ok(()) => {
                self.last = turn;
                self.sealed = false;
                Ok(())
            }
            Err(error) => Err(append_fault(error)),
        }
    }

    /// The turn of the last change, or 0.
    pub fn last_turn(&self) -> u64
        ensures { result ≡ self.now.last }
    {
        self.last
    }

    /// Whether a change wasn't committed.
    pub fn is_sealed(&self) -> bool
        ensures { result ≡ self.now.sealed }
    {
        self.sealed
    }

    /// What a crash between two calls leaves: there is such an outcome, and each is a database of changes by rising turn.
    /// It does nothing.
    pub fn outcomes(&self)
        ensures some { IsHonest S.Store self.now
            → ∥ ((found : List StoredChange) × MayFind S.Store self.now found) ∥₁ }
        ensures settled { IsHonest S.Store self.now → self.now.sealed ≡ false
            → (found : List StoredChange) → MayFind S.Store self.now found → found ≡ held S.Store self.now }
        ensures rising { IsHonest S.Store self.now
            → (found : List StoredChange) → MayFind S.Store self.now found → HasRisingTurns found }
        ensures sound { IsHonest S.Store self.now
            → (db : Trees) → S.Store.recovers self.now.store db → IsOfChanges db }
    {
        let _ = &self.store;
    }

    /// Gives the database back, with no IO.
    pub fn into_store(self) -> S
        ensures { result ≡ self.store }
    {
        let ChangeStore {
            store,
            row: _,
            last: _,
            sealed: _,
        } = self;
        store
    }
}
