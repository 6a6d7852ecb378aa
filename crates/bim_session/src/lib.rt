//! One connection, as a machine without input or output; and what a session is.
#![tactic(auto)]

mod calls;
mod end;
mod laws;
mod notes;
mod talk;
mod want;

pub use end::SessionEnd;
pub use laws::{answers_are_to_the_events, no_reply_is_pending};
pub use notes::Notes;
pub use talk::{MOST_READ, MOST_REQUESTS, Talk};
pub use want::{Waiting, Want};
