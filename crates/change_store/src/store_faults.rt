//! Why a store is not opened, and why a change is not added to one.
ghost use Rattle.std.specs.Prelude.{◌≡◌, ◌≢◌};
ghost use Rattle.change_store.specs.Faults.{named_at_append, named_at_open};

use sqlite_trees::error::StoreError;
use std::alloc::AllocError;

/// Why a change was not added. From then on the store is sealed.
#[derive(Clone, Copy, Debug, PartialEq, Eq)]
pub enum AppendFault {
    OutOfMemory,
    /// The disk failed.
    Failed,
    /// The disk or the file has no room.
    Full,
    /// An earlier change was not added.
    Sealed,
}

/// Why a file is not opened as a store. What it held it still holds.
#[derive(Clone, Copy, Debug, PartialEq, Eq)]
pub enum OpenFault {
    OutOfMemory,
    /// The file can't be opened or made.
    CannotOpen,
    /// The file is no database, or it is damaged.
    Damaged,
    /// Another process has the file open.
    Busy,
    /// The disk failed.
    Failed,
    /// The disk or the file has no room.
    Full,
    /// The database has other tables.
    OtherTables,
    /// A row is no change, or its turn isn't above that of the row before.
    BadRow,
    /// The reader refused a change.
    Refused,
}

// What a fault of the database is called where a change is added.
pub(crate) fn append_fault(error: StoreError) -> AppendFault
    ensures value { result ≡ named_at_append error }
    ensures kind { result ≢ AppendFault.Sealed }
{
    match error {
        StoreError::OutOfMemory => AppendFault::OutOfMemory,
        StoreError::Full => AppendFault::Full,
        StoreError::Io | StoreError::Corrupt | StoreError::Broken | StoreError::Unstorable => {
            AppendFault::Failed
        }
    }
}

// What a fault of the database is called where a store is opened.
pub(crate) fn open_fault(error: StoreError) -> OpenFault
    ensures value { result ≡ named_at_open error }
    ensures kind { (result ≢ OpenFault.OtherTables) × (result ≢ OpenFault.BadRow) }
{
    match error {
        StoreError::OutOfMemory => OpenFault::OutOfMemory,
        StoreError::Full => OpenFault::Full,
        StoreError::Io | StoreError::Corrupt | StoreError::Broken | StoreError::Unstorable => {
            OpenFault::Failed
        }
    }
}

impl From<AllocError> for OpenFault {
    ghost use Rattle.std.specs.Prelude.{◌≡◌};
    ghost use Rattle.change_store.specs.declared.store_faults.OpenFault.TheVariants.{OutOfMemory};

    ghost from_gives = { λ _ e. e ≡ OutOfMemory };

    fn from(_: AllocError) -> OpenFault {
        OpenFault::OutOfMemory
    }
}
