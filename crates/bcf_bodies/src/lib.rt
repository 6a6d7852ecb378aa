//! Topics, comments and viewpoints from JSON and as JSON (BCF API 3.0).
#![tactic(auto)]

mod body_fault;
mod comment_bodies;
mod comment_trees;
mod components;
mod member_kinds;
mod members;
mod objects;
mod topic_bodies;
mod topic_trees;
mod view_bodies;
mod view_trees;

pub use body_fault::{BodyError, BodyFault};
pub use comment_bodies::comment_in;
pub use comment_trees::comment_out;
pub use topic_bodies::topic_in;
pub use topic_trees::topic_out;
pub use view_bodies::view_in;
pub use view_trees::view_out;
