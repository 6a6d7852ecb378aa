//! What an object is whose calls take turns.
ghost use Rattle.std.specs.Prelude.{◌≡◌, ◌++◌, List, Option, Some, OnOk, OnErr, IfOk};
ghost use Rattle.book_turn.specs.declared.object.Stamp.{Stamp};
ghost use Rattle.book_turn.specs.Entries.{listed, AllBefore};

use std::alloc::AllocError;

/// Which call it is. No two calls have the same stamp.
#[derive(Clone, Copy, Debug, PartialEq, Eq, Hash)]
pub struct Stamp {
    /// The turn in which the call was answered, from 1 on.
    pub turn: u64,
    /// The number of the pass that made it.
    pub pass: u32,
    /// Its number among the calls of that pass, from 1 on. Calls of passes that were joined into it do not
    /// count.
    pub call: u64,
}

/// An object that one thread at a time calls, told as its settings and the journal of its accepted changes.
///
/// What a call answers, and whether it adds an entry, depend on the settings, the journal, the stamp and the
/// request alone. So who knows the journal up to a call knows its answer.
pub trait SeqObject {
    /// What is asked.
    type Request: Drop;

    /// What is answered.
    type Reply: Drop;

    /// An accepted change.
    type Entry;

    /// What no call changes.
    type Settings;

    /// The settings of the object.
    ghost settings: { Self → Self.Settings };

    /// The accepted changes, oldest first.
    ghost journal: { Self → List Self.Entry };

    /// Which call made the entry.
    ghost stamp_of: { Self.Entry → Stamp };

    /// The answer to a request, where the journal is this list.
    ghost reply_of: { Self.Settings → List Self.Entry → Stamp → Self.Request → Self.Reply };

    /// The entry that a request adds there, if it changes anything.
    ghost added_by: { Self.Settings → List Self.Entry → Stamp → Self.Request → Option Self.Entry };

    /// Whether the request may be made there.
    ghost is_legal: { Self.Settings → List Self.Entry → Self.Request → Type 0 };

    /// Answers a request. At an `Err`, which says that memory ran out, the journal is as it was.
    fn act(&mut self, stamp: Stamp, request: Self::Request) -> Result<Self::Reply, AllocError>
        requires legal { is_legal (settings self.old) (journal self.old) request }
        requires after { AllBefore (λ e. (stamp_of e).turn) stamp.turn (journal self.old) }
        ensures settings { settings self.new ≡ settings self.old }
        ensures reply { IfOk result (λ r. r ≡ reply_of (settings self.old) (journal self.old) stamp request) }
        ensures added { OnOk result (journal self.new
            ≡ journal self.old ++ listed (added_by (settings self.old) (journal self.old) stamp request)) }
        ensures unchanged { OnErr result (journal self.new ≡ journal self.old) };

    /// A legal request stays legal as the journal grows.
    ghost legal_later: { (s : Self.Settings) (h more : List Self.Entry) (r : Self.Request)
        → is_legal s h r → is_legal s (h ++ more) r };

    /// An entry carries the stamp of the call that adds it.
    ghost stamped: { (s : Self.Settings) (h : List Self.Entry) (st : Stamp) (r : Self.Request)
        (e : Self.Entry) → added_by s h st r ≡ Some e → stamp_of e ≡ st };
}
