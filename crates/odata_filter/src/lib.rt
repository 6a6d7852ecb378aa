//! Lists of topics by a filter, an order and a page, in a profile of OData 4.01 (Part 2, 5.1.1 and 5.1.2).
#![tactic(auto)]

mod comparison;
mod filter;
mod filter_error;
mod filter_levels;
mod filter_literals;
mod filter_node;
mod filter_reader;
mod filter_state;
mod filter_steps;
mod filter_tokens;
mod laws;
mod limits;
mod listing;
mod order_reader;
mod order_state;
mod topic_members;
mod topic_order;
mod topic_test;

pub use comparison::Comparison;
pub use filter::Filter;
pub use filter_error::FilterError;
pub use laws::{filters_have_one_reading, lists_are_one, orders_have_one_reading};
pub use limits::{MOST_FILTER, MOST_NESTED, MOST_ORDER_NAMES};
pub use listing::Listing;
pub use topic_members::{DateMember, Member, TextMember};
pub use topic_order::{Order, OrderKey};
pub use topic_test::TopicTest;
