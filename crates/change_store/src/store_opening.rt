//! A database is opened as a store of changes.
ghost use Rattle.std.specs.Prelude.{◌≡◌, ◌≢◌, ◌⊎◌, ◌≤◌, ◌∷◌, [], false, Err, Some, IfOk, IfErr, OnOk, MatchBool, MatchOption, IsTrue, IsSome};
ghost use Rattle.sqlite_value.specs.declared.value.Value.TheVariants.{Null, Int, Blob};
ghost use Rattle.sqlite_exec.specs.Calls.{OnlyReads};
ghost use Rattle.sqlite_exec.specs.Loops.{left_of};
ghost use Rattle.sqlite_trees.specs.Tree.{Trees};
ghost use Rattle.sqlite_trees.specs.View.{IsClean, doubt};
ghost use Rattle.change_store.specs.ChangeRows.{changes_in, told_by, taken_after, table_line, IsChangeAfter, AreChangesAfter, last_after, IsOfChanges};
ghost use Rattle.change_store.specs.StoreReads.{IsSettled, HasTable, LacksTable, IsReady, Begins, TellsNext, told_next, RefusesNext};
ghost use Rattle.change_store.specs.StoreStates.{IsHonest, held};

use crate::change_reader::ChangeReader;
use crate::change_rows::CHANGES;
use crate::change_store::ChangeStore;
use crate::store_faults::{OpenFault, open_fault};
use sqlite_trees::error::StoreError;
use sqlite_trees::schema::Object;
use sqlite_trees::store::{Alter, Direction, Shape, Store};
use sqlite_value::row::Row;
use sqlite_value::value::ValueRef;
use std::alloc::{AllocError, Global};

/// The text by which SQLite makes the table.
pub const TABLE: &str =
    "CREATE TABLE change (turn INTEGER PRIMARY KEY, project INTEGER NOT NULL, entry BLOB NOT NULL)";

// The table's line in the list of tables.
fn table_line(alloc: Global) -> Result<Row, AllocError>
    ensures { IfOk result (λ row. row ≡ table_line) }
{
    let mut row = Row::new(alloc);
    row.push(ValueRef::Int(1))?;
    row.push(ValueRef::Text(b"table"))?;
    row.push(ValueRef::Text(b"change"))?;
    row.push(ValueRef::Text(b"change"))?;
    row.push(ValueRef::Text(TABLE.as_bytes()))?;
    Ok(row)
}

// Whether the database has the table alone, or no table at all.
fn finds_table<S: Alter>(alloc: Global, store: &S) -> Result<bool, OpenFault>
    ensures found { IsClean (S.Store.view store.now) → IfOk result (λ found. MatchBool found
        (HasTable (S.Store.view store.now)) (LacksTable (S.Store.view store.now))) }
    ensures other { IsClean (S.Store.view store.now) → result ≡ Err OpenFault.OtherTables
        → (¬ HasTable (S.Store.view store.now)) × (¬ LacksTable (S.Store.view store.now)) }
    ensures kind { IfErr result (λ e. (e ≡ OpenFault.OutOfMemory) ⊎ (e ≡ OpenFault.OtherTables)) }
{
    let lines = store.objects(alloc)?;
    let wanted = table_line(alloc)?;
    let shape = store.shape(CHANGES);
    if lines.is_empty() && shape == Shape::Absent {
        return Ok(false);
    }
    let is_ours = lines.len() == 1 && lines[0].is_same(&wanted);
    if is_ours && shape == Shape::Table && store.reals(CHANGES) == 0 {
        Ok(true)
    } else {
        Err(OpenFault::OtherTables)
    }
}

// Makes the table in a database that has none.
#[tactic(auto, using(crate::proofs::OpeningLemmas::table_made, crate::proofs::OpeningLemmas::table_ready))]
fn make_table<S: Alter>(store: &mut S) -> Result<(), StoreError>
    requires numbered { IsClean (S.Store.view store.old)
        → IsTrue (S.Store.view store.old).is_numbered }
    requires settled { IsClean (S.Store.view store.old) → IsSettled (S.Store.view store.old) }
    requires lacks { IsClean (S.Store.view store.old) → LacksTable (S.Store.view store.old) }
    ensures ready { OnOk result (IsClean (S.Store.view store.new) → IsReady (S.Store.view store.new) 0) }
    ensures empty { OnOk result (IsClean (S.Store.view store.new)
        → (S.Store.view store.new).committed 0 ≡ []) }
    ensures crash { IsClean (S.Store.view store.new) → (db : Trees) → S.Store.recovers store.new db
        → S.Store.recovers store.old db ⊎ (IsOfChanges db × (db 0 ≡ [])) }
    ensures clean { doubt (S.Store.view store.old).is_clean ≤ doubt (S.Store.view store.new).is_clean }
{
    let table = Object {
        shape: Shape::Table,
        kind: "table",
        name: "change",
        table: "change",
        reals: 0,
        sql: Some(TABLE),
    };
    store.create(CHANGES, &table)?;
    store.commit()
}

// The turn, the project and the bytes of a row that has the columns of a change.
fn columns_of(row: &Row) -> Option<(i64, i64, &[u8])>
    ensures { MatchOption result
        ((turn : _) (project : _) (bytes : _)
        → row.now ≢ Int turn ∷ Null ∷ Int project ∷ Blob bytes ∷ [])
        (λ c. row.now ≡ Int c.0 ∷ Null ∷ Int c.1 ∷ Blob c.2.now ∷ []) }
{
    if row.len() != 4 {
        return None;
    }
    match (row.get(0), row.get(1), row.get(2), row.get(3)) {
        (ValueRef::Int(turn), ValueRef::Null, ValueRef::Int(project), ValueRef::Blob(bytes)) => {
            Some((turn, project, bytes))
        }
        _ => None,
    }
}

// Tells the reader the change of a row, and says its turn.
fn tell_row<R: ChangeReader>(row: &Row, last: u64, reader: &mut R) -> Result<u64, OpenFault>
    ensures turn { IfOk result (λ turn. turn ≡ (told_by row.now).turn) }
    ensures row { OnOk result (IsChangeAfter last row.now) }
    ensures taken { OnOk result (R.ChangeReader.taken reader.new
        ≡ taken_after (R.ChangeReader.taken reader.old) (told_by row.now ∷ [])) }
    ensures bad { result ≡ Err OpenFault.BadRow → ¬ IsChangeAfter last row.now }
    ensures kind { IfErr result (λ e. (e ≡ OpenFault.BadRow) ⊎ (e ≡ OpenFault.Refused)) }
{
    let Some((turn, project, bytes)) = columns_of(row) else {
        return Err(OpenFault::BadRow);
    };
    if turn <= 0 || turn as u64 <= last || project < 0 || project >= 1 << 32 {
        return Err(OpenFault::BadRow);
    }
    match reader.take(turn as u64, project as u32, bytes) {
        Ok(()) => Ok(turn as u64),
        Err(_) => Err(OpenFault::Refused),
    }
}

// Tells the reader the next row that the cursor has left, and says its turn, or that none is left.
#[tactic(auto, using(sqlite_exec::proofs::CheckLemmas::stepped, sqlite_exec::proofs::CheckLemmas::ended))]
fn tell_next<S: Store, R: ChangeReader>(
    store: &mut S,
    row: &mut Row,
    last: u64,
    reader: &mut R,
) -> Result<Option<u64>, OpenFault>
    requires { IsSome ((S.Store.view store.old).cursors 0) }
    ensures left { IfOk result (λ told. IsClean (S.Store.view store.new)
        → TellsNext (S.Store.view store.old) (S.Store.view store.new) row.new last told) }
    ensures taken { IfOk result (λ told. R.ChangeReader.taken reader.new
        ≡ taken_after (R.ChangeReader.taken reader.old) (told_next row.new told)) }
    ensures bad { result ≡ Err OpenFault.BadRow → IsClean (S.Store.view store.new)
        → RefusesNext (S.Store.view store.old) (S.Store.view store.new) row.new last }
    ensures live { OnOk result (IsSome ((S.Store.view store.new).cursors 0)) }
    ensures same { OnOk result (IsClean (S.Store.view store.new)
        → OnlyReads (S.Store.view store.old) (S.Store.view store.new)) }
    ensures kind { IfErr result (λ e. e ≢ OpenFault.OtherTables) }
    ensures crash { (db : Trees) → S.Store.recovers store.new db → S.Store.recovers store.old db }
    ensures clean { doubt (S.Store.view store.old).is_clean ≤ doubt (S.Store.view store.new).is_clean }
{
    match store.next(0, row) {
        Ok(true) => match tell_row(&*row, last, reader) {
            Ok(turn) => Ok(Some(turn)),
            Err(fault) => Err(fault),
        },
        Ok(false) => Ok(None),
        Err(error) => Err(open_fault(error)),
    }
}

// Tells the reader each row that the cursor has left, and says the turn of the last.
#[tactic(auto, using(crate::proofs::OpeningLemmas::told_none, crate::proofs::OpeningLemmas::told_more, crate::proofs::OpeningLemmas::told_all, crate::proofs::OpeningLemmas::told_bad, crate::proofs::OpeningLemmas::reads_on))]
fn tell_left<S: Store, R: ChangeReader>(
    store: &mut S,
    row: &mut Row,
    reader: &mut R,
) -> Result<u64, OpenFault>
    requires { IsSome ((S.Store.view store.old).cursors 0) }
    ensures rows { OnOk result (IsClean (S.Store.view store.new)
        → AreChangesAfter 0 (left_of (S.Store.view store.old) 0)) }
    ensures last { IfOk result (λ last. IsClean (S.Store.view store.new)
        → last ≡ last_after 0 (left_of (S.Store.view store.old) 0)) }
    ensures taken { OnOk result (IsClean (S.Store.view store.new) → R.ChangeReader.taken reader.new
        ≡ taken_after (R.ChangeReader.taken reader.old) (changes_in (left_of (S.Store.view store.old) 0))) }
    ensures same { OnOk result (IsClean (S.Store.view store.new)
        → OnlyReads (S.Store.view store.old) (S.Store.view store.new)) }
    ensures bad { result ≡ Err OpenFault.BadRow → IsClean (S.Store.view store.new)
        → ¬ AreChangesAfter 0 (left_of (S.Store.view store.old) 0) }
    ensures kind { IfErr result (λ e. e ≢ OpenFault.OtherTables) }
    ensures crash { (db : Trees) → S.Store.recovers store.new db → S.Store.recovers store.old db }
    ensures clean { doubt (S.Store.view store.old).is_clean ≤ doubt (S.Store.view store.new).is_clean }
{
    let mut last = 0;
    // A disk that lies could keep the cursor going, so the loop counts.
    'rows: for _ in 0..u64::MAX {
        match tell_next(store, row, last, reader) {
            Ok(Some(turn)) => last = turn,
            Ok(None) => return Ok(last),
            Err(fault) => return Err(fault),
        }
    }
    Err(OpenFault::OutOfMemory)
}

// Tells the reader each row of the table, and says the turn of the last.
fn tell_rows<S: Store, R: ChangeReader>(
    alloc: Global,
    store: &mut S,
    reader: &mut R,
) -> Result<u64, OpenFault>
    requires { IsClean (S.Store.view store.old) → HasTable (S.Store.view store.old) }
    ensures rows { OnOk result (IsClean (S.Store.view store.new)
        → AreChangesAfter 0 ((S.Store.view store.old).trees 0)) }
    ensures last { IfOk result (λ last. IsClean (S.Store.view store.new)
        → last ≡ last_after 0 ((S.Store.view store.old).trees 0)) }
    ensures taken { OnOk result (IsClean (S.Store.view store.new) → R.ChangeReader.taken reader.new
        ≡ taken_after (R.ChangeReader.taken reader.old) (changes_in ((S.Store.view store.old).trees 0))) }
    ensures same { OnOk result (IsClean (S.Store.view store.new)
        → OnlyReads (S.Store.view store.old) (S.Store.view store.new)) }
    ensures bad { result ≡ Err OpenFault.BadRow → IsClean (S.Store.view store.new)
        → ¬ AreChangesAfter 0 ((S.Store.view store.old).trees 0) }
    ensures kind { IfErr result (λ e. e ≢ OpenFault.OtherTables) }
    ensures crash { (db : Trees) → S.Store.recovers store.new db → S.Store.recovers store.old db }
    ensures clean { doubt (S.Store.view store.old).is_clean ≤ doubt (S.Store.view store.new).is_clean }
{
    let mut row = Row::new(alloc);
    match store.seek(0, CHANGES, &row, Direction::Forward) {
        Ok(()) => tell_left(store, &mut row, reader),
        Err(error) => Err(open_fault(error)),
    }
}

// Makes the table where there is none, tells the reader its rows and says the turn of the last.
#[tactic(auto, using(crate::proofs::OpeningLemmas::reads_ready, crate::proofs::OpeningLemmas::reads_same, crate::proofs::OpeningLemmas::reads_found, crate::proofs::OpeningLemmas::made_found))]
fn begin<S: Alter, R: ChangeReader>(
    alloc: Global,
    store: &mut S,
    reader: &mut R,
) -> Result<u64, OpenFault>
    requires numbered { IsClean (S.Store.view store.old)
        → IsTrue (S.Store.view store.old).is_numbered }
    requires settled { IsClean (S.Store.view store.old) → IsSettled (S.Store.view store.old) }
    ensures ready { IfOk result (λ last. IsClean (S.Store.view store.new)
        → IsReady (S.Store.view store.new) last) }
    ensures found { OnOk result (IsClean (S.Store.view store.new)
        → Begins (S.Store.view store.old).trees (changes_in ((S.Store.view store.new).committed 0))) }
    ensures read { OnOk result (IsClean (S.Store.view store.new) → R.ChangeReader.taken reader.new
        ≡ taken_after (R.ChangeReader.taken reader.old) (changes_in ((S.Store.view store.new).committed 0))) }
    ensures bad { result ≡ Err OpenFault.BadRow → IsClean (S.Store.view store.new)
        → ¬ AreChangesAfter 0 ((S.Store.view store.old).trees 0) }
    ensures other { result ≡ Err OpenFault.OtherTables → IsClean (S.Store.view store.new)
        → (¬ HasTable (S.Store.view store.old)) × (¬ LacksTable (S.Store.view store.old)) }
    ensures crash { IsClean (S.Store.view store.new) → (db : Trees) → S.Store.recovers store.new db
        → S.Store.recovers store.old db ⊎ (IsOfChanges db × (db 0 ≡ [])) }
    ensures clean { doubt (S.Store.view store.old).is_clean ≤ doubt (S.Store.view store.new).is_clean }
{
    if finds_table(alloc, &*store)? {
        return tell_rows(alloc, store, reader);
    }
    match make_table(store) {
        Ok(()) => Ok(0),
        Err(error) => Err(open_fault(error)),
    }
}

/// Opens a database as a store: makes its table where it has none, and tells the reader its changes by rising turn.
///
/// A database that is refused keeps what it held.
pub fn open_changes<S: Alter, R: ChangeReader>(
    alloc: Global,
    mut store: S,
    reader: &mut R,
) -> Result<ChangeStore<S>, (OpenFault, S)>
    requires numbered { IsClean (S.Store.view store) → IsTrue (S.Store.view store).is_numbered }
    requires settled { IsClean (S.Store.view store) → (S.Store.view store).is_broken ≡ false
        → (S.Store.view store).trees ≡ (S.Store.view store).committed }
    ensures open { IfOk result (λ s. s.sealed ≡ false) }
    ensures sound { IfOk result (λ s. IsHonest S.Store s → (S.Store.view store).is_broken ≡ false) }
    ensures found { IfOk result (λ s. IsHonest S.Store s
        → Begins (S.Store.view store).trees (held S.Store s)) }
    ensures read { IfOk result (λ s. IsHonest S.Store s → R.ChangeReader.taken reader.new
        ≡ taken_after (R.ChangeReader.taken reader.old) (held S.Store s)) }
    ensures bad { IfErr result (λ e. e.0 ≡ OpenFault.BadRow → IsClean (S.Store.view e.1)
        → ¬ AreChangesAfter 0 ((S.Store.view store).trees 0)) }
    ensures other { IfErr result (λ e. e.0 ≡ OpenFault.OtherTables → IsClean (S.Store.view e.1)
        → (¬ HasTable (S.Store.view store)) × (¬ LacksTable (S.Store.view store))) }
    // A crash leaves what it could leave before, or the table with no row.
    ensures unharmed { IfErr result (λ e. IsClean (S.Store.view e.1) → (db : Trees) → S.Store.recovers e.1 db
        → S.Store.recovers store db ⊎ (IsOfChanges db × (db 0 ≡ []))) }
    ensures clean { IfOk result (λ s.
        doubt (S.Store.view store).is_clean ≤ doubt (S.Store.view s.store).is_clean) }
{
    if store.is_broken() {
        return Err((OpenFault::Failed, store));
    }
    match begin(alloc, &mut store, reader) {
        Ok(last) => Ok(ChangeStore::new(alloc, store, last)),
        Err(fault) => Err((fault, store)),
    }
}
