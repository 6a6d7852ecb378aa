//! Entries of the history as frames of bytes: each entry has one frame, and a frame is read back as its entry.
#![tactic(auto)]

mod base_fields;
mod change_reading;
mod change_writing;
mod decoding;
mod encoding;
mod field;
mod frame_error;
mod frame_stream;
mod laws;
mod model_fields;
mod place_fields;
mod plain_fields;
mod read_error;
mod rule_fields;
mod topic_fields;
mod unread;
mod view_fields;

pub use decoding::decode;
pub use encoding::encode;
pub use frame_error::FrameError;
pub use frame_stream::Frames;
pub use laws::{frames_are_apart, streams_split_once};
