//! What each step tells.
ghost use Rattle.book_turn.specs.PassViews.{kept_view, given_view, both_views, spent_view};
ghost use Rattle.book_turn.specs.TurnSteps.{drew, looked, passed, compared};

use crate::object::SeqObject;
use crate::rule::View;
use atomic_table::{Join, Play, Split};

// A turn is drawn.
pub(crate) struct Draw;

impl<O: SeqObject> Play<Option<O>, View<O::Entry, O::Settings>> for Draw {
    ghost then = { drew };
}

// It is looked whether the turn has come.
pub(crate) struct Look;

impl<O: SeqObject> Play<Option<O>, View<O::Entry, O::Settings>> for Look {
    ghost then = { looked O.journal O.settings (λ e. (O.stamp_of e).turn) (λ e. (O.stamp_of e).pass) };
}

// The object is put back, and the next turn comes.
pub(crate) struct Pass;

impl<O: SeqObject> Play<Option<O>, View<O::Entry, O::Settings>> for Pass {
    ghost then = { passed O.journal };
}

// What joined passes saw is compared.
pub(crate) struct Compare;

impl<O: SeqObject> Play<Option<O>, View<O::Entry, O::Settings>> for Compare {
    ghost then = { compared (λ e. (O.stamp_of e).turn) (λ e. (O.stamp_of e).pass) };
}

// One of the further passes goes to the new seat.
pub(crate) struct Cut;

impl<E, S> Split<View<E, S>> for Cut {
    ghost left = { kept_view };

    ghost right = { given_view };
}

// Two seats are made one.
pub(crate) struct Glue;

impl<E, S> Join<View<E, S>> for Glue {
    ghost both = { both_views };

    ghost spent = { spent_view };
}
