//! Whether triangles pierce, from the corners that are alone on their side of the other's plane.
// The corners are brought in such an order that those alone come first and are above the other's plane.
ghost use Rattle.std.specs.Prelude.{pos, ◌≤ℤ◌, ◌<ℤ◌, ◌↔◌, IsTrue};
ghost use Rattle.tri_exact.specs.Pierce.{height};
ghost use Rattle.tri_exact.specs.GridVectors.{at};
ghost use Rattle.tri_pierce.specs.Piercing.{FacesPierce};
ghost use Rattle.tri_pierce.specs.inner.LoneCorners.{face_of, InGrid, AreHeights, AreTall, Split, AloneOver, LoneOver};

use crate::face_corners::{Corners, mirrored, turned};
use crate::heights::{Heights, is_above, is_lone};
use tri_exact::orient;

/// Whether two triangles pierce whose first corners are alone above the other's plane: whether the stretches of the
/// common line between the edges from these corners overlap.
fn are_linked(t: Corners, s: Corners) -> bool
    requires t_in { InGrid t }
    requires s_in { InGrid s }
    requires over_t { AloneOver (face_of t) (face_of s) }
    requires over_s { AloneOver (face_of s) (face_of t) }
    ensures { IsTrue result ↔ FacesPierce (face_of t) (face_of s) }
{
    let second = orient(t.a, t.b, s.a, s.b);
    if second >= 0 {
        return false;
    }
    let third = orient(t.a, t.c, s.a, s.c);
    third > 0
}

/// The same, the first corners being alone above the other's plane or below it.
fn lone_pierce(t: Corners, s: Corners, above_t: bool, above_s: bool) -> bool
    requires t_in { InGrid t }
    requires s_in { InGrid s }
    requires over_t { LoneOver (face_of t) (face_of s) }
    requires over_s { LoneOver (face_of s) (face_of t) }
    requires above_t_is { IsTrue above_t ↔ (pos 0 <ℤ height (at s.a) (face_of t)) }
    requires above_s_is { IsTrue above_s ↔ (pos 0 <ℤ height (at t.a) (face_of s)) }
    ensures { IsTrue result ↔ FacesPierce (face_of t) (face_of s) }
{
    if above_t {
        if above_s {
            return are_linked(t, s);
        }
        return are_linked(t, mirrored(s));
    }
    if above_s {
        return are_linked(mirrored(t), s);
    }
    are_linked(mirrored(t), mirrored(s))
}

/// The same, the first corner of s being alone, and a corner of t, whose heights over s are known.
fn first_alone(t: Corners, s: Corners, above_t: bool, over_s: Heights) -> bool
    requires t_in { InGrid t }
    requires s_in { InGrid s }
    requires over_t { LoneOver (face_of t) (face_of s) }
    requires above_t_is { IsTrue above_t ↔ (pos 0 <ℤ height (at s.a) (face_of t)) }
    requires over_s_is { AreHeights over_s (face_of s) (face_of t) }
    requires tall { AreTall over_s }
    requires split { Split over_s.a over_s.b over_s.c }
    ensures { IsTrue result ↔ FacesPierce (face_of t) (face_of s) }
{
    if is_lone(over_s.a, over_s.b, over_s.c) {
        return lone_pierce(t, s, above_t, is_above(over_s.a));
    }
    if is_lone(over_s.b, over_s.c, over_s.a) {
        return lone_pierce(turned(t), s, above_t, is_above(over_s.b));
    }
    lone_pierce(turned(turned(t)), s, above_t, is_above(over_s.c))
}

/// Whether two triangles pierce each of which has corners on both sides of the other's plane, by their heights.
pub fn split_pierce(t: Corners, s: Corners, over_t: Heights, over_s: Heights) -> bool
    requires t_in { InGrid t }
    requires s_in { InGrid s }
    requires over_t_is { AreHeights over_t (face_of t) (face_of s) }
    requires over_s_is { AreHeights over_s (face_of s) (face_of t) }
    requires tall_t { AreTall over_t }
    requires tall_s { AreTall over_s }
    requires split_t { Split over_t.a over_t.b over_t.c }
    requires split_s { Split over_s.a over_s.b over_s.c }
    ensures { IsTrue result ↔ FacesPierce (face_of t) (face_of s) }
{
    if is_lone(over_t.a, over_t.b, over_t.c) {
        return first_alone(t, s, is_above(over_t.a), over_s);
    }
    if is_lone(over_t.b, over_t.c, over_t.a) {
        return first_alone(t, turned(s), is_above(over_t.b), over_s);
    }
    first_alone(t, turned(turned(s)), is_above(over_t.c), over_s)
}
