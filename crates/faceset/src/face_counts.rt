//! How many triangles sets have.
ghost use Rattle.std.specs.Prelude.{◌≡◌, ◌<◌, ◌≤◌, ◌+◌, ◌∷◌, [], map, sum_by, IfSome, IfNone};
ghost use Rattle.p21_values.specs.Attributes.{items_in, led_to};
ghost use Rattle.faceset.specs.FaceSets.{loop_count, face_count, triangle_count};

use crate::sets::{is_polygonal, outline, spelled_loops};
use p21_table::{Exchange, InstanceRef, ValueRef, Values};

/// What inner loops add to so many triangles. None where they are more than `most`.
fn count_loops(rows: &Values<'_>, before: u64, most: u64) -> Option<u64>
    requires { before ≤ most }
    ensures some { IfSome result (λ n. (n ≡ before + sum_by loop_count (map items_in rows.now))
        × (n ≤ most)) }
    ensures none { IfNone result (most < before + sum_by loop_count (map items_in rows.now)) }
{
    let mut count = before;
    for row in rows.iter() {
        let more = row.items_in().len() as u64 + 2;
        if more > most - count {
            return None;
        }
        count += more;
    }
    Some(count)
}

/// How many triangles the face has. None where they are more than `most`.
fn count_corners(face: &InstanceRef<'_>, most: u64) -> Option<u64>
    ensures some { IfSome result (λ n. (n ≡ face_count face.now) × (n ≤ most)) }
    ensures none { IfNone result (most < face_count face.now) }
{
    let outer = (outline(face).len() as u64).saturating_sub(2);
    if outer > most {
        return None;
    }
    count_loops(&spelled_loops(face), outer, most)
}

/// How many triangles the face has that a value refers to. None where they are more than `most`.
#[tactic(auto, using(ifc_instances::proofs::LedTo::led_none, ifc_instances::proofs::LedTo::led_nowhere, ifc_instances::proofs::LedTo::led_one))]
fn count_face(exchange: &Exchange, value: &ValueRef<'_>, most: u64) -> Option<u64>
    ensures some { IfSome result (λ n. (n ≡ sum_by face_count (led_to exchange.now (value.now ∷ [])))
        × (n ≤ most)) }
    ensures none { IfNone result (most < sum_by face_count (led_to exchange.now (value.now ∷ []))) }
{
    let Some(id) = value.reference() else {
        return Some(0);
    };
    match exchange.look(id) {
        Some(face) => count_corners(&face, most),
        None => Some(0),
    }
}

/// How many triangles the faces have that values refer to. None where they are more than `most`.
fn count_faces(exchange: &Exchange, values: &Values<'_>, most: u64) -> Option<u64>
    ensures some { IfSome result (λ n. (n ≡ sum_by face_count (led_to exchange.now values.now))
        × (n ≤ most)) }
    ensures none { IfNone result (most < sum_by face_count (led_to exchange.now values.now)) }
{
    let mut count = 0;
    for value in values.iter() {
        let Some(more) = count_face(exchange, &value, most - count) else {
            return None;
        };
        count += more;
    }
    Some(count)
}

/// How many triangles the set has: one for each row, n - 2 for a face of n corners, and n + 2 for each of its inner loops of n corners. None where they are more than `most`. Takes no
/// memory, and cuts no face.
#[tactic(auto, unfolding(crate::specs::FaceSets::faces_of))]
pub fn triangle_count(exchange: &Exchange, set: &InstanceRef<'_>, most: u64) -> Option<u64>
    ensures some { IfSome result (λ n. (n ≡ triangle_count exchange.now set.now) × (n ≤ most)) }
    ensures none { IfNone result (most < triangle_count exchange.now set.now) }
{
    if is_polygonal(set) {
        return count_faces(exchange, &set.listed(2), most);
    }
    let rows = set.listed(3).len() as u64;
    if rows > most { None } else { Some(rows) }
}
