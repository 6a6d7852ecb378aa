//! Whether two triangles pierce each other.
// Two triangles.
ghost use Rattle.std.specs.Prelude.{◌≡◌, ◌↔◌, IsTrue};
ghost use Rattle.bim_model.specs.Points.{IsInGrid};
ghost use Rattle.tri_pierce.specs.Piercing.{FacesPierce, Pierces};
ghost use Rattle.tri_pierce.specs.PiercingSigns.{is_piercing_triangles};
ghost use Rattle.tri_pierce.specs.inner.LoneCorners.{face_of, InGrid};

use crate::face_corners::{Corners, corners_of};
use crate::heights::{heights_over, is_split};
use crate::lone_corners::split_pierce;
use crate::touching_boxes::are_beside;
use bim_model::Triangle;

/// Whether two triangles pierce, by their corners.
#[inline(always)]
fn corners_pierce(t: Corners, s: Corners) -> bool
    requires t_in { InGrid t }
    requires s_in { InGrid s }
    ensures { IsTrue result ↔ FacesPierce (face_of t) (face_of s) }
{
    let over_t = heights_over(t, s);
    if !is_split(over_t) {
        return false;
    }
    let over_s = heights_over(s, t);
    if !is_split(over_s) {
        return false;
    }
    split_pierce(t, s, over_t, over_s)
}

/// Whether two triangles whose boxes overlap pierce: a call of its own, so that the code around stays small.
#[inline(never)]
fn test_pierces(p: &Triangle, q: &Triangle) -> bool
    requires p_in { IsInGrid p.now }
    requires q_in { IsInGrid q.now }
    ensures { IsTrue result ↔ Pierces p.now q.now }
{
    corners_pierce(corners_of(p), corners_of(q))
}

/// Whether two triangles pierce: whether both have an area, don't lie in one plane, and have a common point that is
/// inside of both. So triangles that only touch, at a corner or along an edge, don't. It takes no memory.
#[inline(always)]
pub fn pierces(p: &Triangle, q: &Triangle) -> bool
    requires p_in { IsInGrid p.now }
    requires q_in { IsInGrid q.now }
    ensures pierce { IsTrue result ↔ Pierces p.now q.now }
    ensures value { result ≡ is_piercing_triangles p.now q.now }
{
    if are_beside(p, q) {
        return false;
    }
    test_pierces(p, q)
}
