//! A caller of a book that no one else calls.
ghost use Rattle.bim_session.specs.Replay.{stated_settings};
ghost use Rattle.server_commands.specs.inner.OneActor.{seen_alone, IsSettled, GoesAlone};

use crate::one_thread::OneThread;
use book_history::BookCall;
use book_turn::call_fault::CallFault;
use book_turn::turn::Receipt;
use federation_book::Book;
use link_session::Caller;
use std::alloc::{AllocError, Global};

/// A caller by a book of its own with so many projects, which works after each answer until no bucket is left, or so many
/// buckets.
#[derive(Drop)]
pub struct Alone {
    pub alloc: Global,
    pub projects: u32,
    pub buckets: Option<u64>,
}

impl Caller for Alone {
    type Own = OneThread;

    ghost settings = { λ c. stated_settings c.projects };

    ghost buckets = { λ c. c.buckets };

    ghost fits = { λ c own. IsSettled (stated_settings c.projects) own };

    ghost seen = { seen_alone };

    ghost goes = { λ c. GoesAlone (stated_settings c.projects) };

    fn last(&self, own: &OneThread) -> u64 {
        own.turns()
    }

    fn call(&self, own: &mut OneThread, call: BookCall) -> Result<Receipt<Book>, CallFault> {
        match own.call(call) {
            Ok(receipt) => Ok(receipt),
            Err(_) => Err(CallFault::Memory),
        }
    }

    fn work(&self, own: &mut OneThread) -> Result<(), AllocError> {
        own.work(self.alloc, self.buckets)
    }
}
