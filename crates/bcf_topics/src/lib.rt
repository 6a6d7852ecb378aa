//! The topics of a project and what is said of them (BCF API 3.0, Topic Services and Comment Services).
#![tactic(auto)]

mod comment;
mod comment_list;
mod limits;
mod optional;
mod topic;
mod topic_body;
mod topic_places;
mod topics;

pub use bim_model::Author;
pub use comment::{Comment, CommentBody, CommentIn};
pub use limits::{MOST_COMMENT, MOST_LABEL, MOST_LABELS, MOST_TITLE, MOST_WORDS};
pub use optional::copy_text;
pub use topic::Topic;
pub use topic_body::TopicBody;
pub use topics::{TopicError, Topics};
