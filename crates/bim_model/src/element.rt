//! The elements of a building model.

use crate::geometry::Triangle;
use crate::guid::Guid;
use crate::items::{Duplicate, Items};
use crate::text::Text;
use std::alloc::{AllocError, Global};

/// An element of a building model with its surface.
#[derive(Drop)]
pub struct Element {
    /// Its global identifier.
    pub guid: Guid,
    /// Its class, as `IFCBEAM`, in upper case.
    pub class: Text,
    /// Its name; it may be empty.
    pub name: Text,
    /// The name of the storey that it stands in, if it stands in one.
    pub storey: Option<Text>,
    /// Its surface in the building's coordinates, in grid numbers.
    pub triangles: Items<Triangle>,
}
