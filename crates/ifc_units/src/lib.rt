//! The length unit of a building model and the grid that its lengths are brought to (IFC4 ADD2 TC1).
#![tactic(auto)]

mod conversion;
mod grid_lengths;
mod instances;
mod laws;
mod length_error;
mod lengths;
mod metres;
mod scale;
mod sizes;
mod units;

pub use conversion::{FOOT, INCH};
pub use grid_lengths::to_grid;
pub use instances::fault_of_points;
pub use laws::{
    one_grid_number, one_instance_fault, one_length, one_length_unit, one_list_of_points, one_point,
};
pub use length_error::{GridFault, LengthError};
pub use lengths::{length, point, points, points_fault};
pub use scale::Scale;
pub use units::length_unit;
