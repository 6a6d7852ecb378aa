//! What requests ask for, and from answers to the bytes of responses (BCF API 3.0 over RFC 9112).
#![tactic(auto)]

mod answers;
mod arrays;
mod asked;
mod board_calls;
mod bodies;
mod laws;
mod list_requests;
mod reply_kind;
mod responses;
mod trees;

pub use answers::{Answer, to_response};
pub use asked::{Action, Refusal, RequestFault, asked_of};
pub use laws::list_requests_have_one_answer;
pub use list_requests::listing_of;
pub use reply_kind::ReplyKind;
