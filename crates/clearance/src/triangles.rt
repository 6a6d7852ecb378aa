//! Whether two triangles come within a distance, by planes, edges and faces.
// Two triangles.
ghost use Rattle.std.specs.Prelude.{◌≡◌, ◌≤◌, ◌↔◌, IsTrue};
ghost use Rattle.tri_exact.specs.ProductLimits.{distance_limit};
ghost use Rattle.bim_model.specs.Points.{IsInGrid};
ghost use Rattle.clearance.specs.Near.{FacesNear, Near};
ghost use Rattle.clearance.specs.Decided.{is_near_triangles};
ghost use Rattle.clearance.specs.inner.TriangleCorners.{face_of, InGrid};
ghost use Rattle.clearance.specs.inner.Planes.{IsPlane};

use crate::apart::is_apart;
use crate::boxes::{extent_of, is_off};
use crate::corner_vectors::{Corners, corners_of};
use crate::edge_pairs::edges_near;
use crate::planes::{Plane, heights_over, is_beyond, plane_of};
use crate::sides::side_near;
use bim_model::Triangle;

/// Whether t, whose plane is known, and s are near.
#[inline(always)]
fn planes_near(t: Corners, plane_t: Plane, s: Corners, d: u32) -> bool
    requires t_in { InGrid t }
    requires plane_is { IsPlane plane_t (face_of t) }
    requires s_in { InGrid s }
    requires d_in { d ≤ distance_limit }
    ensures { IsTrue result ↔ FacesNear (face_of t) (face_of s) d }
{
    let over_t = heights_over(plane_t, t, s);
    if is_beyond(plane_t, over_t, d) {
        return false;
    }
    let plane_s = plane_of(s);
    let over_s = heights_over(plane_s, s, t);
    if is_beyond(plane_s, over_s, d) {
        return false;
    }
    if is_apart(t, s, d) {
        return false;
    }
    if side_near(t, plane_t, s, over_t, d) {
        return true;
    }
    if side_near(s, plane_s, t, over_s, d) {
        return true;
    }
    edges_near(t, s, d)
}

/// Whether two triangles whose boxes meet are near: a call of its own, so that the code around stays small.
#[inline(never)]
pub fn test_near(p: &Triangle, q: &Triangle, d: u32) -> bool
    requires p_in { IsInGrid p.now }
    requires q_in { IsInGrid q.now }
    requires d_in { d ≤ distance_limit }
    ensures { IsTrue result ↔ Near p.now q.now d }
{
    let corners = corners_of(p);
    planes_near(corners, plane_of(corners), corners_of(q), d)
}

/// Whether a point of p and a point of q are at most d apart, in grid numbers. Triangles without an area are
/// edges or points. It takes no memory.
#[inline(always)]
pub fn near(p: &Triangle, q: &Triangle, d: u32) -> bool
    requires p_in { IsInGrid p.now }
    requires q_in { IsInGrid q.now }
    requires d_in { d ≤ distance_limit }
    ensures near { IsTrue result ↔ Near p.now q.now d }
    ensures value { result ≡ is_near_triangles p.now q.now d }
{
    if is_off(extent_of(p), extent_of(q), d) {
        return false;
    }
    test_near(p, q, d)
}
