//! Who calls the book for a session.
ghost use Rattle.std.specs.Prelude.{◌≡◌, ℕ, List, Option};
ghost use Rattle.book_history.specs.declared.limits.Settings.{Settings};
ghost use Rattle.book_history.specs.Runs.{Step};
ghost use Rattle.bcf_http.specs.Asked.{BringsNone};
ghost use Rattle.book_passes.specs.Lessons.{CallerSeen};
ghost use Rattle.link_session.specs.Callers.{Calls, steps_of, WorksBehind};

use book_history::BookCall;
use book_turn::call_fault::CallFault;
use book_turn::turn::Receipt;
use federation_book::Book;
use std::alloc::AllocError;

/// Who calls the book for a session, and works after its answers: by a turn that threads share, or alone.
///
/// Its steps are the calls that were answered. `goes` says what is known when it went from the one to the other by these
/// steps, whatever else happened.
pub trait Caller {
    /// What its calls change.
    type Own;

    /// The settings of the book.
    ghost settings: { Self → Settings };

    /// How many buckets are worked after each answered request at most.
    ghost buckets: { Self → Option ℕ };

    /// What is its own belongs to it.
    ghost fits: { Self → Self.Own → Type 0 };

    /// The number of its pass, the entries that it has seen, the last turn that it took, and how many calls it made.
    ghost seen: { Self.Own → CallerSeen };

    /// It went from the one to the other by these steps.
    ghost goes: { Self → CallerSeen → List Step → CallerSeen → Type 0 };

    /// The last turn that it took, or 0.
    fn last(&self, own: &Self::Own) -> u64
        ensures { result ≡ (seen own.now).last };

    /// Calls the book. An `Err` adds no entry.
    fn call(&self, own: &mut Self::Own, call: BookCall) -> Result<Receipt<Book>, CallFault>
        requires fits { fits self.now own.old }
        requires none { BringsNone call.request }
        ensures fits { fits self.now own.new }
        ensures calls { Calls (settings self.now) call (seen own.old) result (seen own.new) }
        ensures goes { goes self.now (seen own.old) (steps_of call (seen own.old) result) (seen own.new) };

    /// Works buckets after an answer. An `Err` says that memory ran out before all were worked.
    fn work(&self, own: &mut Self::Own) -> Result<(), AllocError>
        requires fits { fits self.now own.old }
        ensures fits { fits self.now own.new }
        ensures works { WorksBehind (settings self.now) (buckets self.now) (goes self.now)
            (seen own.old) result
            (seen own.new) };
}
