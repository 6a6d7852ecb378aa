//! The bounds of topics and comments.

/// The most bytes of a topic's title. It has at least one.
pub const MOST_TITLE: usize = 1_024;

/// The most bytes of a topic's type, status, priority, assignee, stage and description.
pub const MOST_WORDS: usize = 4_096;

/// The most labels of a topic.
pub const MOST_LABELS: usize = 20;

/// The most bytes of a label.
pub const MOST_LABEL: usize = 256;

/// The most bytes of a comment. It has at least one.
pub const MOST_COMMENT: usize = 8_192;
