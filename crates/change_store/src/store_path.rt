//! The store of a file, by its path.
ghost use Rattle.std.specs.Prelude.{◌≡◌, false, IfOk};
ghost use Rattle.sqlite_trees.specs.Tree.{Trees};
ghost use Rattle.sqlite_wal.specs.Files.{image_at};
ghost use Rattle.sqlite.specs.Files.{over_files, AreFoundIn};
ghost use Rattle.change_store.specs.ChangeRows.{taken_after};
ghost use Rattle.change_store.specs.StoreReads.{Begins};
ghost use Rattle.change_store.specs.StoreStates.{IsHonest, held};

use crate::change_reader::ChangeReader;
use crate::change_store::ChangeStore;
use crate::store_faults::OpenFault;
use crate::store_opening::open_changes;
use sqlite::{Connection, Error, ErrorCode, FileFrom, FileStore, Start};

// What a fault of the database is called where a file is opened.
fn path_fault(error: Error) -> OpenFault {
    let Error::SqliteFailure(code) = error else {
        return OpenFault::CannotOpen;
    };
    match code {
        ErrorCode::OutOfMemory => OpenFault::OutOfMemory,
        ErrorCode::SystemIoFailure => OpenFault::Failed,
        ErrorCode::DiskFull => OpenFault::Full,
        ErrorCode::DatabaseBusy => OpenFault::Busy,
        ErrorCode::NotADatabase | ErrorCode::DatabaseCorrupt => OpenFault::Damaged,
        _ => OpenFault::CannotOpen,
    }
}

/// Opens the file at a path as a store, or makes it. The changes that it holds are told to the reader by rising turn.
///
/// `start` stands for what the file held; a program passes `sqlite::Unknown` (each byte of a torn write is the old one
/// or the new one, and a commit is one sync) or `sqlite::Wary` (it may be anything, and a commit is two).
pub fn open_store<S: Start, R: ChangeReader>(
    rt: &HostRuntime,
    path: &str,
    start: S,
    reader: &mut R,
) -> Result<ChangeStore<FileStore<FileFrom<S>>>, OpenFault>
    ensures open { IfOk result (λ s. s.sealed ≡ false) }
    ensures found { IfOk result (λ s. IsHonest over_files s
        → (db : Trees) × AreFoundIn (image_at S.Start) db × Begins db (held over_files s)) }
    ensures read { IfOk result (λ s. IsHonest over_files s → R.ChangeReader.taken reader.new
        ≡ taken_after (R.ChangeReader.taken reader.old) (held over_files s)) }
{
    let connection = match Connection::open_from(rt, path, false, start) {
        Ok(connection) => connection,
        Err((error, _)) => return Err(path_fault(error)),
    };
    match open_changes(rt.alloc(), connection.into_store(), reader) {
        Ok(store) => Ok(store),
        Err((fault, store)) => {
            drop(store.close());
            Err(fault)
        }
    }
}
