//! What is asked of the book and what it answers: requests, replies, faults, changes and entries, and what
//! follows of a history of entries.
#![tactic(auto)]

mod book_fault;
mod changes;
mod laws;
mod limits;
mod replies;
mod requests;
mod weights;
mod work_order;

pub use book_fault::{BookFault, StoreWhat};
pub use book_turn::object::Stamp;
pub use changes::{Change, Entry};
pub use clash_publish::{Horizon, LIVE_VERSIONS};
pub use laws::{
    grids_are_one, made_are_accepted, made_is_accepted, requests_stay_legal, work_stays_given,
};
pub use limits::{
    Limits, MOST_COMMENTS, MOST_ENTRIES, MOST_PROJECTS, MOST_STORED_TRIANGLES, MOST_TEXT,
    MOST_TOPICS, MOST_VIEWPOINTS, Settings,
};
pub use replies::{BookReply, ReplyBody};
pub use requests::{BookCall, BookRequest, Wanted};
pub use weights::{elements_in, model_text, triangles_among};
pub use work_order::WorkOrder;
