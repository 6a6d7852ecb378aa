//! What is said of a project: its topics, the comments on them and their viewpoints (BCF API 3.0), with the serial
//! numbers that they share.
#![tactic(auto)]

mod board;
mod board_comments;
mod board_topics;
mod board_viewpoints;
mod named;
mod pairs;
mod topics_of_clashes;

pub use bcf_topics::{Author, Comment, CommentBody, CommentIn, Topic, TopicBody};
pub use bcf_viewpoints::{CheckedBody, CheckedView, Component, ViewBody, ViewIs};
pub use board::Board;
