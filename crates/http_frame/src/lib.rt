//! HTTP/1.1 requests from bytes, however these are cut into pieces (RFC 9112).
#![tactic(auto)]

mod chunks;
mod digit_runs;
mod facts;
mod field_lines;
mod framer;
mod framer_steps;
mod head;
mod http_version;
mod laws;
mod limits;
mod moves;
mod parser;
mod seen;
mod size_line;
mod stage;
mod turn_field;
mod types;
mod watch;

pub use framer::Framer;
pub use laws::{
    a_whole_line_may_become_a_head, answers_are_the_events, bytes_have_one_reading, readings_stay,
};
pub use limits::{MOST_BODY, MOST_FIELDS, MOST_HEAD, MOST_TURN_DIGITS, MOST_USER};
pub use types::{FrameError, FrameFault, FrameStep, HttpRequest, TurnField};
