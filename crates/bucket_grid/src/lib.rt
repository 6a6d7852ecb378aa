//! Elements by cells of four metres.
#![tactic(auto)]

mod axis_cells;
mod bucket_part;
mod bucket_table;
mod buckets;
mod cell;
mod grid;
mod laws;
mod lists;
mod owner;
mod search;
mod subjects;

pub use bucket_part::Part;
pub use bucket_table::Bucket;
pub use cell::{Cell, GROWTH, SIDE, start_of};
pub use grid::{Grid, GridError, MOST_ELEMENTS, MOST_MEMBERSHIPS};
pub use laws::{
    cells_are_counted, cells_hold_points, close_boxes_have_an_owner, memberships_are_one,
    near_elements_have_an_owner, owners_are_one,
};
pub use owner::{owner_of, shared_cell};
pub use subjects::{Member, has_few_elements};
