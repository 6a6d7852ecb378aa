//! All that the book keeps.
ghost use Rattle.std.specs.Prelude.{◌≡◌, ◌≤◌, ◌<◌, ◌+◌, ◌^◌, ◌++◌, [], ◌∷◌, ℕ, if◌then◌else◌, nat_le, length, sum_by, vec_len, vec_capacity, IfSome};
ghost use Rattle.book_history.specs.declared.changes.Change.{Change};
ghost use Rattle.book_history.specs.Versions.{live_in};
ghost use Rattle.book_history.specs.Projects.{with_change};
ghost use Rattle.book_history.specs.History.{state_of, board_of, newest_of, left_in, left_all, horizon_of, project_numbers};
ghost use Rattle.book_history.specs.Weights.{told, text_of, triangles_of};
ghost use Rattle.book_history.specs.Refusals.{first_of, project_of, triangles_if, text_if, journal_if, left_if, store_full};
ghost use Rattle.federation_book.specs.KeptProjects.{KeepsProject, IsKept, settings_of};

use crate::project::{Project, left_in};
use crate::project_reads::project_of;
use bim_model::know;
use book_history::{BookFault, Entry, Horizon, Limits, StoreWhat};
use book_topics::Board;

/// The projects and the journal, with the sums of what its changes hold.
#[derive(Drop)]
pub struct State {
    pub limits: Limits,
    pub projects: Vec<Project>,
    pub entries: Vec<Entry>,
    /// The triangles of all accepted uploads.
    pub triangles: u64,
    /// The bytes of the texts of all accepted changes.
    pub text: u64,
}

impl State {
    /// The number of the project that has the identifier.
    pub fn number_of(&self, project: u128) -> Option<u32>
        requires { IsKept self.now }
        ensures is { result ≡ project_of (length self.now.projects.items) project }
        ensures there { IfSome result (λ n. (1 ≤ n) × (n ≤ length self.now.projects.items)) }
    {
        project_of(self.projects.len(), project)
    }

    /// The project of this number, lent.
    pub fn project(&self, number: u32) -> &Project
        requires kept { IsKept self.now }
        requires low { 1 ≤ number }
        requires high { number ≤ length self.now.projects.items }
        ensures { KeepsProject result.now (state_of number self.now.entries.items) }
    {
        know(self.entries.len());
        &self.projects[number as usize - 1]
    }

    /// Its topics, comments and viewpoints, lent.
    pub fn board(&self, number: u32) -> &Board
        requires kept { IsKept self.now }
        requires low { 1 ≤ number }
        requires high { number ≤ length self.now.projects.items }
        ensures { result.now ≡ board_of number self.now.entries.items }
    {
        &self.project(number).board
    }

    /// How many buckets of live versions are to be checked.
    pub fn left_all(&self) -> u64
        requires { IsKept self.now }
        ensures { result ≡ left_all (length self.now.projects.items) self.now.entries.items }
    {
        let mut left = 0_u64;
        for index in 0..self.projects.len() {
            left = left.saturating_add(left_in(&self.projects[index].live));
        }
        left
    }

    // .. if so many of one project were, or the greatest number.
    fn left_with(&self, number: u32, left: u64) -> u64
        requires { IsKept self.now }
        ensures { (x : ℕ) → left ≡ told x
            → result ≡ told (sum_by (left_if self.now.entries.items number x)
            (project_numbers (length self.now.projects.items))) }
    {
        let mut sum = 0_u64;
        for index in 0..self.projects.len() {
            let own = if index as u32 + 1 == number {
                left
            } else {
                left_in(&self.projects[index].live)
            };
            sum = sum.saturating_add(own);
        }
        sum
    }

    // The newest version of a project, 0 where there is none of the number.
    fn newest_of(&self, number: u32) -> u64
        requires kept { IsKept self.now }
        requires low { 1 ≤ number }
        ensures { result ≡ (if nat_le number (length self.now.projects.items)
            then newest_of number self.now.entries.items else 0) }
    {
        if number as usize <= self.projects.len() {
            self.project(number).newest
        } else {
            0
        }
    }

    /// The newest version of each project.
    pub fn horizon(&self) -> Horizon
        requires { IsKept self.now }
        ensures { result ≡ horizon_of (length self.now.projects.items) self.now.entries.items }
    {
        Horizon {
            newest: [
                self.newest_of(1),
                self.newest_of(2),
                self.newest_of(3),
                self.newest_of(4),
                self.newest_of(5),
                self.newest_of(6),
                self.newest_of(7),
                self.newest_of(8),
            ],
        }
    }

    // The journal holds no further entry, if so many buckets of a project are to be checked after it.
    fn journal_full(&self, number: u32, left: u64) -> Option<BookFault>
        requires { IsKept self.now }
        ensures { (x : ℕ) → left ≡ told x → result ≡ journal_if (settings_of self.now) self.now.entries.items
            (sum_by (left_if self.now.entries.items number x)
            (project_numbers (length self.now.projects.items))) }
    {
        let count = (self.entries.len() as u64)
            .saturating_add(self.left_with(number, left))
            .saturating_add(1);
        let limit = self.limits.journal;
        if count > limit {
            Some(BookFault::JournalFull { count, limit })
        } else {
            None
        }
    }

    // All accepted changes would hold too many triangles with so many more.
    fn triangles_full(&self, triangles: u64) -> Option<BookFault>
        requires { IsKept self.now }
        ensures { result ≡ triangles_if self.now.limits self.now.entries.items triangles }
    {
        let count = self.triangles.saturating_add(triangles);
        let limit = self.limits.triangles;
        if count > limit {
            let what = StoreWhat::Triangles;
            Some(BookFault::StoreFull { what, count, limit })
        } else {
            None
        }
    }

    // .. or too many bytes of texts.
    fn text_full(&self, text: u64) -> Option<BookFault>
        requires { IsKept self.now }
        ensures { (x : ℕ) → text ≡ told x → result ≡ text_if self.now.limits self.now.entries.items x }
    {
        let count = self.text.saturating_add(text);
        let limit = self.limits.text;
        if count > limit {
            let what = StoreWhat::Text;
            Some(BookFault::StoreFull { what, count, limit })
        } else {
            None
        }
    }

    /// Why a change isn't accepted by which so many triangles and bytes of texts come, and so many buckets of its
    /// project's live versions are to be checked after it.
    pub fn store_full(&self, number: u32, triangles: u64, text: u64, left: u64) -> Option<BookFault>
        requires { IsKept self.now }
        ensures { (change : Change) → triangles ≡ triangles_of change → text ≡ told (text_of change)
            → left ≡ told (left_in (live_in
            (with_change (state_of number self.now.entries.items) change).versions))
            → result ≡ first_of (store_full (settings_of self.now) self.now.entries.items number change) }
    {
        if let Some(fault) = self.triangles_full(triangles) {
            return Some(fault);
        }
        if let Some(fault) = self.text_full(text) {
            return Some(fault);
        }
        self.journal_full(number, left)
    }

    /// Adds an accepted change to the journal, which has room for it, and to the sums: so many triangles and bytes of
    /// texts come by it. Its project is changed before.
    pub fn append(&mut self, entry: Entry, triangles: u64, text: u64)
        requires room { vec_len self.old.entries < vec_capacity self.old.entries }
        requires triangles { self.old.triangles + triangles < 2 ^ 64 }
        requires text { self.old.text + text < 2 ^ 64 }
        ensures entries { self.new.entries.items ≡ self.old.entries.items ++ entry ∷ [] }
        ensures triangles { self.new.triangles ≡ self.old.triangles + triangles }
        ensures text { self.new.text ≡ self.old.text + text }
        ensures projects { self.new.projects ≡ self.old.projects }
        ensures limits { self.new.limits ≡ self.old.limits }
    {
        self.triangles += triangles;
        self.text += text;
        self.entries.push_reserved(entry);
    }
}
