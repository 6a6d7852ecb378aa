//! What the targets of requests name: the table of routes (BCF API 3.0 and the coordination routes) and a router over it,
//! and what queries ask for.
#![tactic(auto)]

mod forms;
mod list_query;
mod number_forms;
mod paths;
mod query;
mod resource;
mod routes;
mod target;

pub use list_query::{ListAsked, list_asked};
pub use paths::{RoutePath, TopicRow, has_method, is_same, methods_text};
pub use query::{MOST_PAIRS, Page, PageError, QueryName, grid_asked, page_asked};
pub use resource::{Resource, TopicPlace};
pub use routes::Routes;
pub use target::split_target;
