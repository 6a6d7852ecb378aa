//! Elements that look alike.
ghost use Rattle.std.specs.Prelude.{◌≡◌, ◌↔◌, IsTrue};
ghost use Rattle.clash_delta.specs.inner.Same.{IsLike};

use bim_model::{Element, Point, Text, Triangle};

/// Whether two texts are the same.
pub fn same_text(a: &Text, b: &Text) -> bool
    ensures { IsTrue result ↔ (a.now ≡ b.now) }
{
    a.as_str() == b.as_str()
}

/// Whether two texts are the same, or neither is there.
pub fn same_option(a: &Option<Text>, b: &Option<Text>) -> bool
    ensures { IsTrue result ↔ (a.now ≡ b.now) }
{
    match (a, b) {
        (Some(a), Some(b)) => same_text(a, b),
        (None, None) => true,
        _ => false,
    }
}

fn same_point(a: Point, b: Point) -> bool
    ensures { IsTrue result ↔ (a ≡ b) }
{
    a.x == b.x && a.y == b.y && a.z == b.z
}

fn same_triangle(a: Triangle, b: Triangle) -> bool
    ensures { IsTrue result ↔ (a ≡ b) }
{
    same_point(a.a, b.a) && same_point(a.b, b.b) && same_point(a.c, b.c)
}

fn same_triangles(a: &[Triangle], b: &[Triangle]) -> bool
    ensures { IsTrue result ↔ (a.now ≡ b.now) }
{
    if a.len() != b.len() {
        return false;
    }
    for place in 0..a.len() {
        if !same_triangle(a[place], b[place]) {
            return false;
        }
    }
    true
}

/// Whether two elements are of one class, storey and surface.
pub fn is_like(a: &Element, b: &Element) -> bool
    ensures { IsTrue result ↔ IsLike a.now b.now }
{
    same_text(&a.class, &b.class)
        && same_option(&a.storey, &b.storey)
        && same_triangles(a.triangles.as_slice(), b.triangles.as_slice())
}
