//! The bounds that the book keeps.
ghost use Rattle.std.specs.Prelude.{◌≡◌};
ghost use Rattle.book_history.specs.Settings.{IsWithinStated, stated_limits};

use bucket_grid::MOST_MEMBERSHIPS;
use clash_check::MOST_VERSION_ELEMENTS;

/// The most projects of a book.
pub const MOST_PROJECTS: u32 = 8;

/// The most triangles of all accepted uploads.
pub const MOST_STORED_TRIANGLES: u64 = 40_000_000;

/// The most bytes of texts of all accepted changes.
pub const MOST_TEXT: u64 = 1_073_741_824;

/// The most entries of the journal.
pub const MOST_ENTRIES: u64 = 4_000_000;

/// The most topics of all projects.
pub const MOST_TOPICS: u64 = 10_000;

/// The most comments of all projects.
pub const MOST_COMMENTS: u64 = 100_000;

/// The most viewpoints of all projects.
pub const MOST_VIEWPOINTS: u64 = 20_000;

/// How much a book may hold.
#[derive(Clone, Copy, Debug, PartialEq, Eq)]
pub struct Limits {
    /// Elements of a version.
    pub elements: u64,
    /// Pairs of a cell and an element in it, of a version.
    pub memberships: u64,
    /// Triangles of all accepted uploads.
    pub triangles: u64,
    /// Bytes of the texts of all accepted changes.
    pub text: u64,
    /// Entries of the journal, with one for each bucket of a live version that is still to be checked.
    pub journal: u64,
    /// Topics of all projects.
    pub topics: u64,
    /// Comments of all projects.
    pub comments: u64,
    /// Viewpoints of all projects.
    pub viewpoints: u64,
}

impl Limits {
    /// The limits of the program.
    pub fn stated() -> Limits
        ensures is { result ≡ stated_limits }
        ensures within { IsWithinStated result }
    {
        Limits {
            elements: MOST_VERSION_ELEMENTS,
            memberships: MOST_MEMBERSHIPS,
            triangles: MOST_STORED_TRIANGLES,
            text: MOST_TEXT,
            journal: MOST_ENTRIES,
            topics: MOST_TOPICS,
            comments: MOST_COMMENTS,
            viewpoints: MOST_VIEWPOINTS,
        }
    }
}

/// What no call of a book changes, and its replies depend on.
#[derive(Clone, Copy, Debug, PartialEq, Eq)]
pub struct Settings {
    /// How many projects it has.
    pub projects: u32,
    pub limits: Limits,
}
