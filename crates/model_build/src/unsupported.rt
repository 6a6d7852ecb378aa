//! Items that aren't read (IFC4 ADD2 TC1, IfcShapeRepresentation, IfcMappedItem).
ghost use Rattle.std.specs.Prelude.{◌≡◌, ℕ, ◌<◌, ◌∷◌, [], Contains, MatchOption};
ghost use Rattle.ifc_schema.specs.BodyRepresentations.{is_body_representation};
ghost use Rattle.ifc_elements.specs.Finding.{Finds};
ghost use Rattle.ifc_instances.specs.inner.Least.{LeastOf};
ghost use Rattle.model_build.specs.FaultyInstances.{ShownBy};
ghost use Rattle.model_build.specs.inner.Showing.{lesser, HasOther, HasInner, BodyShows, MapShows};

use ifc_elements::{is_body_representation, is_item, is_mapped_item, spelled_items};
use p21_table::{Exchange, ValueRef, Values};

/// The lesser of two numbers that may lack.
pub fn lesser(a: Option<u64>, b: Option<u64>) -> Option<u64>
    ensures { result ≡ lesser a b }
{
    match (a, b) {
        (Some(a), Some(b)) => Some(if a < b { a } else { b }),
        (Some(a), None) => Some(a),
        (None, b) => b,
    }
}

/// The number of the instance that an item refers to, where it is neither a face set nor a mapped item.
fn other_item(exchange: &Exchange, value: &ValueRef<'_>) -> Option<u64>
    ensures { LeastOf (HasOther exchange.now (value.now ∷ [])) result }
{
    let id = value.reference()?;
    let item = exchange.look(id)?;
    if is_item(&item) { None } else { Some(id) }
}

/// The least of those.
fn least_other(exchange: &Exchange, values: &Values<'_>) -> Option<u64>
    ensures { LeastOf (HasOther exchange.now values.now) result }
{
    let mut least = None;
    for value in values.iter() {
        least = lesser(least, other_item(exchange, &value));
    }
    least
}

/// The number of the instance that an item refers to, where it is a mapped item.
fn inner_item(exchange: &Exchange, value: &ValueRef<'_>) -> Option<u64>
    ensures { LeastOf (HasInner exchange.now (value.now ∷ [])) result }
{
    let id = value.reference()?;
    let item = exchange.look(id)?;
    if is_mapped_item(&item) {
        Some(id)
    } else {
        None
    }
}

/// The least of those.
fn least_inner(exchange: &Exchange, values: &Values<'_>) -> Option<u64>
    ensures { LeastOf (HasInner exchange.now values.now) result }
{
    let mut least = None;
    for value in values.iter() {
        least = lesser(least, inner_item(exchange, &value));
    }
    least
}

/// The least number of an item that isn't read, of the representation of that number, where it is a body.
fn other_in_body(exchange: &Exchange, id: u64) -> Option<u64>
    ensures { LeastOf (BodyShows exchange.now id) result }
{
    let Some(representation) = exchange.look(id) else {
        return None;
    };
    if !is_body_representation(&representation) {
        return None;
    }
    least_other(exchange, &spelled_items(&representation))
}

/// The least number of an item that isn't read, of the bodies among the instances of these numbers.
pub fn least_in_bodies(exchange: &Exchange, ids: &[u64]) -> Option<u64>
    ensures { LeastOf (ShownBy (BodyShows exchange.now) ids.now) result }
{
    let mut least = None;
    for id in ids {
        let here = other_in_body(exchange, *id);
        least = lesser(least, here);
    }
    least
}

/// The least number of an item that isn't read, or is mapped itself, of the mapped representation of that number.
fn other_in_mapped(exchange: &Exchange, id: u64) -> Option<u64>
    ensures { LeastOf (MapShows exchange.now id) result }
{
    let representation = exchange.look(id)?;
    let items = spelled_items(&representation);
    lesser(least_other(exchange, &items), least_inner(exchange, &items))
}

/// The least of those, of the mapped representations of these numbers.
pub fn least_in_mapped(exchange: &Exchange, ids: &[u64]) -> Option<u64>
    ensures { LeastOf (ShownBy (MapShows exchange.now) ids.now) result }
{
    let mut least = None;
    for id in ids {
        least = lesser(least, other_in_mapped(exchange, *id));
    }
    least
}
