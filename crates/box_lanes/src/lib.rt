//! Boxes along the axes, filtered by their gap to a box, eight at a time.
#![tactic(auto)]

mod blocks;
mod box_table;
mod plain;
mod reach;

pub use box_table::BoxTable;
pub use plain::places_within;
