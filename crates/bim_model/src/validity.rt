//! Whether elements are a building model.
ghost use Rattle.std.specs.Prelude.{◌≡◌, ◌≤◌, ◌↔◌, ◌∷◌, [], IsTrue, All, AllPairs};
ghost use Rattle.bim_model.specs.Boxes.{corners_of};
ghost use Rattle.bim_model.specs.Models.{is_below, triangle_count, IsInReach, IsModelled, IsModel};
ghost use Rattle.bim_model.specs.declared.element.Element.{Element};

use crate::element::Element;
use crate::geometry::{FARTHEST, Point, Triangle};
use crate::guid::Guid;
use crate::limits::MOST_TRIANGLES;

fn is_in_reach(point: Point) -> bool
    ensures { IsTrue result ↔ IsInReach point }
{
    (-FARTHEST <= point.x && point.x <= FARTHEST)
        && (-FARTHEST <= point.y && point.y <= FARTHEST)
        && (-FARTHEST <= point.z && point.z <= FARTHEST)
}

// Whether the three corners are within 800 metres of zero.
fn is_near(triangle: Triangle) -> bool
    ensures { IsTrue result ↔ All IsInReach (corners_of (triangle ∷ [])) }
{
    is_in_reach(triangle.a) && is_in_reach(triangle.b) && is_in_reach(triangle.c)
}

// Whether all corners are within 800 metres of zero.
fn are_in_reach(triangles: &[Triangle]) -> bool
    ensures { IsTrue result ↔ All IsInReach (corners_of triangles.now) }
{
    for triangle in triangles {
        if !is_near(*triangle) {
            return false;
        }
    }
    true
}

// Whether the element may stand in a model.
fn is_modelled(element: &Element) -> bool
    ensures { IsTrue result ↔ IsModelled element.now }
{
    Guid::read(&element.guid.chars).is_some()
        && element.triangles.len() > 0
        && are_in_reach(element.triangles.as_slice())
}

// Whether all elements may stand in a model.
fn are_modelled(elements: &[Element]) -> bool
    ensures { IsTrue result ↔ All IsModelled elements.now }
{
    for element in elements {
        if !is_modelled(element) {
            return false;
        }
    }
    true
}

fn is_guid_below(a: &Guid, b: &Guid) -> bool
    ensures { result ≡ is_below a.now.chars b.now.chars }
{
    a.chars.cmp(&b.chars).is_lt()
}

// Whether the elements rise strictly by identifier.
fn are_rising(elements: &[Element]) -> bool
    ensures { IsTrue result ↔ AllPairs
        (λ (e f : Element). IsTrue (is_below e.guid.chars f.guid.chars)) elements.now }
{
    for next in 1..elements.len() {
        if !is_guid_below(&elements[next - 1].guid, &elements[next].guid) {
            return false;
        }
    }
    true
}

// Whether the elements have at most 1,000,000 triangles together.
fn have_few_triangles(elements: &[Element]) -> bool
    ensures { IsTrue result ↔ (triangle_count elements.now ≤ MOST_TRIANGLES) }
{
    let mut left = MOST_TRIANGLES;
    for element in elements {
        let count = element.triangles.len() as u64;
        if count > left {
            return false;
        }
        left -= count;
    }
    true
}

/// Whether the elements are a building model.
pub fn is_model(elements: &[Element]) -> bool
    ensures { IsTrue result ↔ IsModel elements.now }
{
    are_rising(elements) && are_modelled(elements) && have_few_triangles(elements)
}
