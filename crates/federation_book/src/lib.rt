//! The book: the history of all projects, and what follows from it.
#![tactic(auto)]

mod applying;
mod asking;
mod book;
mod clash_topics;
mod comment_requests;
mod making;
mod noting;
mod project;
mod project_reads;
mod projects;
mod quotas;
mod sequence;
mod state;
mod topic_requests;
mod version;
mod viewpoint_requests;
mod working;

pub use book::Book;
pub use book_history::{
    BookFault, BookReply, BookRequest, Change, Entry, Horizon, Limits, MOST_PROJECTS, ReplyBody,
    Settings, Stamp, StoreWhat, Wanted, WorkOrder,
};
