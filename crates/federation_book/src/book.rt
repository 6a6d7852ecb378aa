//! The book.
ghost use Rattle.std.specs.Prelude.{◌≡◌, ◌≤◌, ◌+◌, ◌++◌, [], IsSome, IfOk, OnOk, OnErr};
ghost use Rattle.book_history.specs.declared.changes.Change.{Change};
ghost use Rattle.book_history.specs.declared.limits.TheConstants.{MOST_PROJECTS};
ghost use Rattle.book_history.specs.Settings.{IsWithinStated};
ghost use Rattle.book_history.specs.History.{left_all, horizon_of, IsBefore, IsHistory};
ghost use Rattle.book_history.specs.Requests.{ahead, without_turn, reply_of, added_by, entry_of};
ghost use Rattle.book_history.specs.Legal.{IsLegal, IsGiven};
ghost use Rattle.book_history.specs.MadeEntries.{IsBuilt, AreMade};
ghost use Rattle.book_history.specs.AcceptedChanges.{request_for, Brings, IsWorkOf};

use crate::applying::{bring, bring_set};
use crate::asking::act_on;
use crate::project::Project;
use crate::state::State;
use crate::version::know_whole;
use crate::working::work_of;
use bim_model::Shared;
use book_history::{
    BookCall, BookFault, BookReply, BookRequest, Entry, Limits, MOST_PROJECTS, ReplyBody, Settings,
    Stamp, WorkOrder,
};
use bucket_check::BucketSet;
use bucket_grid::Cell;
use std::alloc::{AllocError, Global};

// Why a call is refused for the turn that it gives, at its own turn.
fn ahead(turn: u64, seen: Option<u64>) -> Option<BookFault>
    ensures { result ≡ ahead turn seen }
{
    match seen {
        None => None,
        Some(given) => {
            if turn <= given {
                Some(BookFault::TurnAhead { given, turn })
            } else {
                None
            }
        }
    }
}

/// The history of the projects, and what follows from it.
#[derive(Drop)]
pub struct Book {
    state: State,
}

impl std::marker::Model for Book {
    ghost use Rattle.book_history.specs.Requests.{BookState};
    ghost use Rattle.federation_book.specs.KeptProjects.{IsBook, settings_of};

    ghost Value = { BookState };

    ghost view = { λ b. record { settings = settings_of b.state; journal = b.state.entries.items } };

    ghost invariant = { λ b. IsBook b.state };
}

// What is known of every request.
fn know_built(request: &BookRequest)
    ensures { IsBuilt request.now }
{
    match request {
        BookRequest::Finish { set } => know_whole(set.get().work().grid.get()),
        _ => {}
    }
}

impl Book {
    /// A book of 1 to 8 projects within these limits, with nothing in it. Each limit is at most the stated one.
    pub fn new(alloc: Global, projects: u32, limits: Limits) -> Result<Book, AllocError>
        requires low { 1 ≤ projects }
        requires high { projects ≤ MOST_PROJECTS }
        requires limits { IsWithinStated limits }
        ensures { IfOk result (λ book. book
            ≡ record { settings = record { projects = projects; limits = limits }; journal = [] }) }
    {
        let mut kept = Vec::new(alloc);
        for _number in 0..projects {
            let project = Project::new(alloc)?;
            kept.push(project)?;
        }
        Ok(Book {
            state: State {
                limits,
                projects: kept,
                entries: Vec::new(alloc),
                triangles: 0,
                text: 0,
            },
        })
    }

    /// The accepted changes by rising turn, lent. Each was made by a request at those before it.
    pub fn journal(&self) -> &[Entry]
        ensures entries { result.now ≡ self.now.journal }
        ensures rising { IsHistory result.now }
        ensures made { AreMade self.now.settings result.now }
    {
        self.state.entries.as_slice()
    }

    /// How many projects it has, and its limits.
    pub fn settings(&self) -> Settings
        ensures { result ≡ self.now.settings }
    {
        Settings {
            projects: self.state.projects.len() as u32,
            limits: self.state.limits,
        }
    }

    /// How many buckets of live versions are to be checked. Takes no memory.
    pub fn left_all(&self) -> u64
        ensures { result ≡ left_all self.now.settings.projects self.now.journal }
    {
        self.state.left_all()
    }

    /// The bucket of a cell of a live version, to be checked, whether it is done or not. None exactly where the version
    /// isn't one of a project's last sixteen, or the cell is no bucket of it.
    pub fn work_of(
        &self,
        project: u32,
        version: u64,
        cell: Cell,
    ) -> Result<Option<WorkOrder>, AllocError>
        ensures { IfOk result (IsWorkOf self.now.settings self.now.journal project version cell) }
    {
        work_of(&self.state, project, version, cell)
    }

    /// Answers a call at a turn above those of the journal, and adds its entry if it accepts a change. A call that
    /// gives a turn which isn't below its own is refused, and adds none. An `Err` leaves the book as it was.
    pub fn act(&mut self, stamp: Stamp, call: BookCall) -> Result<BookReply, AllocError>
        requires after { IsBefore stamp.turn self.old.journal }
        requires legal { IsLegal self.old.settings self.old.journal call.request }
        ensures reply { IfOk result (λ reply. reply
            ≡ reply_of self.old.settings self.old.journal stamp call) }
        ensures added { OnOk result (self.new.journal
            ≡ self.old.journal ++ added_by self.old.settings self.old.journal stamp call) }
        ensures settings { self.new.settings ≡ self.old.settings }
        ensures after { IsBefore (stamp.turn + 1) self.new.journal }
        ensures err { OnErr result (self.new ≡ self.old) }
    {
        let BookCall { seen, request } = call;
        match ahead(stamp.turn, seen) {
            Some(fault) => {
                drop(request);
                Ok(self.refusal(fault))
            }
            None => self.answer(stamp, request),
        }
    }

    // The reply that refuses a call for this fault.
    fn refusal(&self, fault: BookFault) -> BookReply
        ensures { result ≡ record {
          body = ReplyBody.Refused fault;
          horizon = horizon_of self.now.settings.projects self.now.journal;
        } }
    {
        BookReply {
            body: ReplyBody::Refused(fault),
            horizon: self.state.horizon(),
        }
    }

    // Answers a request that gives no turn.
    fn answer(&mut self, stamp: Stamp, request: BookRequest) -> Result<BookReply, AllocError>
        requires after { IsBefore stamp.turn self.old.journal }
        requires legal { IsLegal self.old.settings self.old.journal request }
        ensures reply { IfOk result (λ reply. reply
            ≡ reply_of self.old.settings self.old.journal stamp (without_turn request)) }
        ensures added { OnOk result (self.new.journal ≡ self.old.journal
            ++ added_by self.old.settings self.old.journal stamp (without_turn request)) }
        ensures settings { self.new.settings ≡ self.old.settings }
        ensures after { IsBefore (stamp.turn + 1) self.new.journal }
        ensures err { OnErr result (self.new ≡ self.old) }
    {
        know_built(&request);
        let body = act_on(&mut self.state, stamp, request)?;
        Ok(BookReply {
            body,
            horizon: self.state.horizon(),
        })
    }

    /// Brings an entry that another book made, of a turn above those of the journal, and tells whether it was added:
    /// it is where a request for its change would be accepted here. An `Err` leaves the book as it was. The condition
    /// is that the entry isn't of a bucket that is done: that is brought by the bucket's clashes.
    pub fn bring(&mut self, entry: Entry) -> Result<bool, AllocError>
        requires after { IsBefore entry.stamp.turn self.old.journal }
        requires asked { IsSome (request_for entry.project entry.change) }
        ensures brought { IfOk result (λ added.
            Brings self.old.settings self.old.journal entry added self.new.journal) }
        ensures settings { self.new.settings ≡ self.old.settings }
        ensures after { IsBefore (entry.stamp.turn + 1) self.new.journal }
        ensures err { OnErr result (self.new ≡ self.old) }
    {
        let before = self.state.entries.len();
        bring(&mut self.state, entry)?;
        Ok(self.state.entries.len() > before)
    }

    /// Brings that a bucket is done, as an entry that another book made says, at the entry's turn. The bucket's
    /// clashes are what was found here. It tells whether the entry was added: it is where the bucket is one of a live
    /// version and still to be checked. An `Err` leaves the book as it was.
    pub fn bring_bucket(&mut self, stamp: Stamp, set: Shared<BucketSet>) -> Result<bool, AllocError>
        requires after { IsBefore stamp.turn self.old.journal }
        requires given { IsGiven self.old.settings self.old.journal set.work }
        ensures brought { let entry = entry_of stamp set.work.project
            (Change.BucketDone set.work.version set.work.cell) in
            IfOk result (λ added. Brings self.old.settings self.old.journal entry added self.new.journal) }
        ensures settings { self.new.settings ≡ self.old.settings }
        ensures after { IsBefore (stamp.turn + 1) self.new.journal }
        ensures err { OnErr result (self.new ≡ self.old) }
    {
        let before = self.state.entries.len();
        bring_set(&mut self.state, stamp, set)?;
        Ok(self.state.entries.len() > before)
    }
}
