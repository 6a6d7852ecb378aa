//! The elements of a file: their texts, the names of their storeys, the items of their bodies and their surfaces in the building (IFC4 ADD2
//! TC1).
#![tactic(auto)]

mod body_items;
mod kept_sets;
mod lack;
mod model_elements;
mod points;
mod shapes;
mod storey_names;
mod storeys;
mod surface;
mod texts;

pub use body_items::{
    is_body_representation, is_item, is_mapped_item, spelled_items, spelled_sets,
};
pub use kept_sets::Sets;
pub use lack::{ElementLack, Lacking};
pub use model_elements::elements_of;
pub use points::{kept_at, points_at, table_of};
pub use shapes::{Shapes, bodies};
pub use storey_names::Names;
pub use storeys::storey_name;
pub use texts::{guid_of, name_of};
