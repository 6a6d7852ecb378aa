//! Where the elements of a model lie: signed axes, chains of placements, and frames (IFC4 ADD2 TC1, IfcLocalPlacement and
//! IfcAxis2Placement3D).
#![tactic(auto)]

mod axes;
mod axis;
mod chains;
mod direction;
mod frame;
mod frames;
mod laws;
mod operator;
mod own;
mod read;
mod walk;

pub use axes::{Axes, axes_of};
pub use axis::Axis;
pub use chains::Chains;
pub use frame::{Frame, Offset};
pub use frames::Frames;
pub use laws::{one_frame, one_operator_frame};
pub use operator::{operator_axes, operator_frame};
pub use own::{axis_frame, location_of, own_frame};
