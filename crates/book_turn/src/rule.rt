//! What a pass knows, and the rule of the table that all passes of a turn share.
use crate::object::SeqObject;
use atomic_table::TableRule;
use std::collections::LinkedList;
use std::marker::PhantomData;
use std::snapshot::Snapshot;

/// Where a pass is in its call.
pub enum Stage {
    /// In none.
    Free,
    /// It waits for its turn.
    Waiting(u64),
    /// Its turn has come.
    Called(u64),
}

/// What a pass knows. No value of it is made.
pub struct View<E, S> {
    /// `None` once it was joined away.
    pub settings: Option<S>,
    /// The numbers that it stands for.
    pub passes: LinkedList<u64>,
    /// The entries of the history up to `last`.
    pub seen: LinkedList<E>,
    pub last: u64,
    /// The turns that it has drawn.
    pub turns: LinkedList<u64>,
    /// Earlier knowledge of passes that were joined, until it was compared.
    pub begins: LinkedList<Beginning<E>>,
    pub stage: Stage,
}

/// What was seen up to a turn.
pub struct Beginning<E> {
    pub passes: LinkedList<u64>,
    pub seen: LinkedList<E>,
    pub last: u64,
}

/// What the table is told once: the object as it was at first, and how many passes there are.
#[derive(Drop)]
pub struct Key<O> {
    pub object: Snapshot<O>,
    pub passes: u64,
}

/// The rule of a turn over such an object.
pub struct InTurn<O> {
    object: PhantomData<O>,
}

impl<O: SeqObject> TableRule<Option<O>, View<O::Entry, O::Settings>, Key<O>> for InTurn<O> {
    ghost use Rattle.book_turn.specs.PassViews.{first_view};
    ghost use Rattle.book_turn.specs.Rule.{Kept};

    ghost holds = { λ key. Kept O.journal O.settings (λ e. (O.stamp_of e).turn) (λ e. (O.stamp_of e).pass)
        key.passes (O.settings key.object.value) };

    ghost first = { λ key. first_view (O.settings key.object.value) key.passes };
}
