//! The items of bodies.
ghost use Rattle.std.specs.Prelude.{◌≡◌, ◌++◌, ◌∷◌, [], map, Some, IfOk, OnOk};
ghost use Rattle.p21_values.specs.InstanceLookup.{look};
ghost use Rattle.ifc_schema.specs.BodyRepresentations.{is_body_representation};
ghost use Rattle.ifc_elements.specs.Items.{spelled_items, is_mapped_item, is_item, spelled_sets, bodies_among, bodies_of};
ghost use Rattle.ifc_elements.specs.Finding.{Number};

use faceset::is_set;
use ifc_instances::Entity;
use ifc_schema::is_body;
use p21_table::{Exchange, InstanceRef, ValueRef, Values};
use std::alloc::{AllocError, Global};

/// Whether it is a shape representation whose identifier is `Body`.
pub fn is_body_representation(instance: &InstanceRef<'_>) -> bool
    ensures { result ≡ is_body_representation instance.now }
{
    Entity::Representation.includes(instance) && is_body(instance)
}

/// The items of a representation, as they are spelled.
pub fn spelled_items<'a>(representation: &InstanceRef<'a>) -> Values<'a>
    ensures { result ≡ spelled_items representation.now }
{
    representation.listed(3)
}

/// Whether it is a mapped item.
pub fn is_mapped_item(instance: &InstanceRef<'_>) -> bool
    ensures { result ≡ is_mapped_item instance.now }
{
    Entity::MappedItem.includes(instance)
}

/// Whether it is an item of a kind that is read: a face set or a mapped item.
pub fn is_item(instance: &InstanceRef<'_>) -> bool
    ensures { result ≡ is_item instance.now }
{
    is_set(instance) || is_mapped_item(instance)
}

/// The items that a mapped item maps, as they are spelled.
pub fn spelled_sets<'a>(exchange: &'a Exchange, item: &InstanceRef<'_>) -> Values<'a>
    ensures { result ≡ spelled_sets exchange.now item.now }
{
    let Some(map) = exchange.target_at(item, 0) else {
        return Values::none();
    };
    match exchange.target_at(&map, 1) {
        Some(representation) => spelled_items(&representation),
        None => Values::none(),
    }
}

/// Adds the number of the representation that a value refers to, where it is a body.
fn add_body(
    exchange: &Exchange,
    value: &ValueRef<'_>,
    found: &mut Vec<u64>,
) -> Result<(), AllocError>
    ensures { OnOk result (map (look exchange.now) found.new.items
        ≡ map (look exchange.now) found.old.items ++ map Some (bodies_among exchange.now (value.now ∷ []))) }
{
    let Some(id) = value.reference() else {
        return Ok(());
    };
    let Some(instance) = exchange.look(id) else {
        return Ok(());
    };
    if !is_body_representation(&instance) {
        return Ok(());
    }
    found.push(id)?;
    Ok(())
}

/// The numbers of the bodies among the representations that values refer to.
fn bodies_among(
    alloc: Global,
    exchange: &Exchange,
    values: &Values<'_>,
) -> Result<Vec<u64>, AllocError>
    ensures { IfOk result (λ ids. Number exchange.now ids.items (bodies_among exchange.now values.now)) }
{
    let mut found = Vec::new(alloc);
    for value in values.iter() {
        add_body(exchange, &value, &mut found)?;
    }
    Ok(found)
}

/// The numbers of the bodies of a product shape, in their order. One that is listed twice stands twice.
pub fn bodies_of(
    alloc: Global,
    exchange: &Exchange,
    shape: &InstanceRef<'_>,
) -> Result<Vec<u64>, AllocError>
    ensures { IfOk result (λ ids. Number exchange.now ids.items (bodies_of exchange.now shape.now)) }
{
    bodies_among(alloc, exchange, &shape.listed(2))
}
