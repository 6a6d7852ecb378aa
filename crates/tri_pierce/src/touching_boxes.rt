//! Whether the boxes of two triangles, or of a triangle and a list, share no more than a side.
// Triangles whose boxes along the axes at most touch don't pierce.
ghost use Rattle.std.specs.Prelude.{◌≤◌, ◌≤ℤ◌, ◌⊎◌, unsigned_abs, IsTrue};
ghost use Rattle.bim_model.specs.Points.{grid_limit, IsInGrid, shape_of};
ghost use Rattle.bim_model.specs.declared.geometry.Triangle.{Triangle};
ghost use Rattle.clearance.specs.inner.BoxContainment.{InExtent, IsExtent};
ghost use Rattle.tri_pierce.specs.Piercing.{Pierces};
ghost use Rattle.tri_pierce.specs.inner.TouchingBoxes.{Before};

use bim_model::{Extent, Triangle};

/// The least of three coordinates.
#[inline(always)]
fn least(a: i32, b: i32, c: i32) -> i32
    requires a_in { unsigned_abs a ≤ grid_limit }
    requires b_in { unsigned_abs b ≤ grid_limit }
    requires c_in { unsigned_abs c ≤ grid_limit }
    ensures a { result ≤ℤ a }
    ensures b { result ≤ℤ b }
    ensures c { result ≤ℤ c }
    ensures small { unsigned_abs result ≤ grid_limit }
{
    if a <= b {
        if a <= c { a } else { c }
    } else if b <= c {
        b
    } else {
        c
    }
}

/// The greatest of three coordinates.
#[inline(always)]
fn greatest(a: i32, b: i32, c: i32) -> i32
    requires a_in { unsigned_abs a ≤ grid_limit }
    requires b_in { unsigned_abs b ≤ grid_limit }
    requires c_in { unsigned_abs c ≤ grid_limit }
    ensures a { a ≤ℤ result }
    ensures b { b ≤ℤ result }
    ensures c { c ≤ℤ result }
    ensures small { unsigned_abs result ≤ grid_limit }
{
    if a <= b {
        if b <= c { c } else { b }
    } else if a <= c {
        c
    } else {
        a
    }
}

/// Whether none of three coordinates is above any of three others.
#[inline(always)]
fn is_before(a: i32, b: i32, c: i32, p: i32, q: i32, r: i32) -> bool
    requires a_in { unsigned_abs a ≤ grid_limit }
    requires b_in { unsigned_abs b ≤ grid_limit }
    requires c_in { unsigned_abs c ≤ grid_limit }
    requires p_in { unsigned_abs p ≤ grid_limit }
    requires q_in { unsigned_abs q ≤ grid_limit }
    requires r_in { unsigned_abs r ≤ grid_limit }
    ensures { IsTrue result → Before a b c p q r }
{
    let high = greatest(a, b, c);
    let low = least(p, q, r);
    high <= low
}

/// Whether the one triangle ends where the other starts, or before, on the axis of these coordinates.
#[inline(always)]
fn is_beside(a: i32, b: i32, c: i32, p: i32, q: i32, r: i32) -> bool
    requires a_in { unsigned_abs a ≤ grid_limit }
    requires b_in { unsigned_abs b ≤ grid_limit }
    requires c_in { unsigned_abs c ≤ grid_limit }
    requires p_in { unsigned_abs p ≤ grid_limit }
    requires q_in { unsigned_abs q ≤ grid_limit }
    requires r_in { unsigned_abs r ≤ grid_limit }
    ensures { IsTrue result → Before a b c p q r ⊎ Before p q r a b c }
{
    if is_before(a, b, c, p, q, r) {
        return true;
    }
    is_before(p, q, r, a, b, c)
}

/// Whether two triangles are known not to pierce since their boxes share no more than a side; a `false` says nothing.
#[inline(always)]
pub fn are_beside(p: &Triangle, q: &Triangle) -> bool
    requires p_in { IsInGrid p.now }
    requires q_in { IsInGrid q.now }
    ensures { IsTrue result → Pierces p.now q.now → ⊥ }
{
    if is_beside(p.a.x, p.b.x, p.c.x, q.a.x, q.b.x, q.c.x) {
        return true;
    }
    if is_beside(p.a.y, p.b.y, p.c.y, q.a.y, q.b.y, q.c.y) {
        return true;
    }
    is_beside(p.a.z, p.b.z, p.c.z, q.a.z, q.b.z, q.c.z)
}

/// Whether no triangle in the one box is known to pierce one in the other, since the boxes share no more than a side; a
/// `false` says nothing.
#[inline(always)]
pub fn are_apart(own: Extent, around: Extent) -> bool
    requires own_in { IsExtent own }
    requires around_in { IsExtent around }
    ensures { IsTrue result → (p q : Triangle) → InExtent own (shape_of p)
        → InExtent around (shape_of q) → Pierces p q → ⊥ }
{
    let (l, h) = (own.low, own.high);
    let (low, high) = (around.low, around.high);
    if is_beside(l.x, h.x, h.x, low.x, high.x, high.x) {
        return true;
    }
    if is_beside(l.y, h.y, h.y, low.y, high.y, high.y) {
        return true;
    }
    is_beside(l.z, h.z, h.z, low.z, high.z, high.z)
}

/// Whether a triangle is known not to pierce any in a box, since its own shares no more than a side with it; a `false`
/// says nothing.
#[inline(always)]
pub fn is_outside(p: &Triangle, around: Extent) -> bool
    requires p_in { IsInGrid p.now }
    requires around_in { IsExtent around }
    ensures { IsTrue result → (q : Triangle) → InExtent around (shape_of q) → Pierces p.now q → ⊥ }
{
    let (low, high) = (around.low, around.high);
    if is_beside(p.a.x, p.b.x, p.c.x, low.x, high.x, high.x) {
        return true;
    }
    if is_beside(p.a.y, p.b.y, p.c.y, low.y, high.y, high.y) {
        return true;
    }
    is_beside(p.a.z, p.b.z, p.c.z, low.z, high.z, high.z)
}
