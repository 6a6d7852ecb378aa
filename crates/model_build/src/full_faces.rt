//! Faces with too many corners.
ghost use Rattle.std.specs.Prelude.{Any};
ghost use Rattle.std.specs.Bool.{MatchBool};
ghost use Rattle.ifc_elements.specs.Finding.{Finds};
ghost use Rattle.model_build.specs.Faces.{HasManyCorners};

use faceset::{has_many_corners, is_face};
use p21_table::{Exchange, InstanceRef};

/// Whether it is a face whose loops have more than a thousand corners together.
fn has_many(instance: &InstanceRef<'_>) -> bool
    ensures { MatchBool result (HasManyCorners instance.now) (HasManyCorners instance.now → ⊥) }
{
    is_face(instance) && has_many_corners(instance)
}

fn is_full(exchange: &Exchange, id: u64) -> bool
    ensures { MatchBool result (Finds exchange.now id HasManyCorners)
        (Finds exchange.now id HasManyCorners → ⊥) }
{
    match exchange.look(id) {
        Some(instance) => has_many(&instance),
        None => false,
    }
}

/// Whether one of these instances is a face of more than a thousand corners.
pub fn some_has_many_corners(exchange: &Exchange, used: &[u64]) -> bool
    ensures { MatchBool result (Any (λ id. Finds exchange.now id HasManyCorners) used.now)
        (Any (λ id. Finds exchange.now id HasManyCorners) used.now → ⊥) }
{
    for id in used {
        if is_full(exchange, *id) {
            return true;
        }
    }
    false
}
