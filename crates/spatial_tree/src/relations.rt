//! The pairs of objects that relations name.
ghost use Rattle.std.specs.Prelude.{◌≡◌, ℕ, Contains, option_and_then, IfOk, OnOk, IsSortedByKey, Any};
ghost use Rattle.std.specs.List.{slice_get};
ghost use Rattle.std.specs.Ordering.{nat_cmp};
ghost use Rattle.p21_values.specs.Values.{reference_of, items_of};
ghost use Rattle.spatial_tree.specs.Relations.{Relates, IsRelated};
ghost use Rattle.spatial_tree.specs.inner.Onlys.{ListsLinks, Adds, link};

use ifc_instances::Entity;
use p21_table::{Exchange, InstanceRef, Instances, Values};
use std::alloc::{AllocError, Global};

/// An object, and one above it.
#[derive(Clone, Copy)]
pub struct Link {
    pub object: u64,
    pub above: u64,
}

/// The items of an attribute that is a list.
fn items_at<'a>(instance: &InstanceRef<'a>, at: usize) -> Option<Values<'a>>
    ensures { result ≡ option_and_then items_of (slice_get instance.now.values at) }
{
    match instance.attribute(at) {
        Some(value) => value.items(),
        None => None,
    }
}

/// Appends a pair of each reference among the items.
fn add_items(links: &mut Vec<Link>, items: &Values<'_>, above: u64) -> Result<(), AllocError>
    ensures { OnOk result (Adds (λ object up. Any
        (λ v. (reference_of v ≡ Some object) × (up ≡ above)) items.now) links.old.items links.new.items) }
{
    for item in items.iter() {
        if let Some(object) = item.reference() {
            links.push(Link { object, above })?;
        }
    }
    Ok(())
}

/// Appends the pairs that an instance names.
fn add_instance(
    links: &mut Vec<Link>,
    entity: Entity,
    many: usize,
    one: usize,
    instance: &InstanceRef<'_>,
) -> Result<(), AllocError>
    ensures { OnOk result (Adds (Relates entity many one instance.now) links.old.items links.new.items) }
{
    if !entity.includes(instance) {
        return Ok(());
    }
    let Some(above) = instance.reference_at(one) else {
        return Ok(());
    };
    let Some(items) = items_at(instance, many) else {
        return Ok(());
    };
    add_items(links, &items, above)
}

fn add_instances(
    links: &mut Vec<Link>,
    entity: Entity,
    many: usize,
    one: usize,
    instances: &Instances<'_>,
) -> Result<(), AllocError>
    ensures { OnOk result (Adds (IsRelated entity many one instances.now) links.old.items links.new.items) }
{
    for instance in instances.iter() {
        add_instance(links, entity, many, one, &instance)?;
    }
    Ok(())
}

/// All pairs that the relations of an entity name, by rising objects.
pub fn links_of(
    alloc: Global,
    exchange: &Exchange,
    entity: Entity,
    many: usize,
    one: usize,
) -> Result<Vec<Link>, AllocError>
    ensures all { IfOk result (λ links. ListsLinks (IsRelated entity many one exchange.now) links.items) }
    ensures rises { IfOk result (λ links. IsSortedByKey (λ l. l.object) nat_cmp links.items) }
{
    let mut links = Vec::new(alloc);
    add_instances(&mut links, entity, many, one, &exchange.iter())?;
    links.sort_by_key(|link| link.object)?;
    Ok(links)
}
