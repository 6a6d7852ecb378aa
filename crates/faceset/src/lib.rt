//! The face sets of a model (IFC4 ADD2 TC1, IfcTriangulatedFaceSet, IfcPolygonalFaceSet, IfcIndexedPolygonalFaceWithVoids): which points
//! their indexes name, and their triangles.
#![tactic(auto)]

mod bad;
mod face_counts;
mod faces;
mod indexes;
mod learnt;
mod loop_corners;
mod naming;
mod numbers;
mod point_counts;
mod polygons;
mod reaches;
mod set_surface;
mod sets;
mod stuck;
mod triangulated;

pub use bad::has_bad_index;
pub use face_counts::triangle_count;
pub use indexes::place_of;
pub use learnt::Learnt;
pub use loop_corners::{MOST_CORNERS, has_many_corners};
pub use polygons::{LoopsCut, add_loops, cut_loops, point_at, points_at};
pub use set_surface::set_triangles;
pub use sets::{is_face, is_polygonal, is_set, numbering, outline, spelled_loops};
pub use stuck::{has_unbridged, least_stuck};
