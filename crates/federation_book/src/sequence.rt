//! The book as an object whose calls take turns.

use crate::book::Book;
use book_history::{BookCall, BookReply, Entry, Settings};
use book_turn::object::{SeqObject, Stamp};
use std::alloc::AllocError;

impl SeqObject for Book {
    ghost use Rattle.book_history.specs.Requests as requests;
    ghost use Rattle.book_history.specs.Legal as legal;
    ghost use Rattle.book_history.proofs.Legality.{legal_later, stamped};

    type Request = BookCall;

    type Reply = BookReply;

    type Entry = Entry;

    /// How many projects it has, and its limits.
    type Settings = Settings;

    ghost settings = { λ book. book.settings };

    ghost journal = { λ book. book.journal };

    ghost stamp_of = { λ e. e.stamp };

    ghost reply_of = { requests.reply_of };

    ghost added_by = { requests.entry_added };

    ghost is_legal = { λ settings journal call. legal.IsLegal settings journal call.request };

    fn act(&mut self, stamp: Stamp, call: BookCall) -> Result<BookReply, AllocError> {
        Book::act(self, stamp, call)
    }

    ghost legal_later = { λ settings h more call may. legal_later settings h more call.request may };

    ghost stamped = { stamped };
}
