//! The instances that are used are met, one after another.
ghost use Rattle.std.specs.Prelude.{◌≡◌, ◌<◌, ◌≤◌, ℕ, [], length, OnOk, IfOk, Any, slice_index_or};
ghost use Rattle.std.specs.Bool.{OnTrue, OnFalse};
ghost use Rattle.p21_values.specs.declared.value.Instance.{Instance};
ghost use Rattle.p21_values.specs.InstancePlaces.{IsPlaceOf};
ghost use Rattle.p21_values.specs.InstancePlaces.{Rises};
ghost use Rattle.ifc_schema.specs.Used.{Used, IsMapped, Maps, NamesBy, is_root};
ghost use Rattle.ifc_schema.specs.BodyRepresentations.{has_body, bodied_of};
ghost use Rattle.ifc_schema.specs.InstanceMarks.{Grows, SoundAt, IsMarked, mark_at, rank_at, is_mapped, IsFollowed, FollowedAt, IsRootAt, Going, Known};
ghost use Rattle.ifc_schema.specs.AttributeTable.{row_at};

use crate::attribute_table::row_at;
use crate::follow::{follow_attributes, follow_element, follow_map};
use crate::worklist::{Mark, Work};
use ifc_instances::Entity;
use p21_table::{Exchange, InstanceRef};
use std::alloc::{AllocError, Global};

/// Marks what the attributes of an instance name.
#[inline(always)]
fn follow_row(
    exchange: &Exchange,
    bodied: bool,
    mapped: bool,
    instance: &InstanceRef<'_>,
    work: &mut Work,
) -> Result<(), AllocError>
    requires size { length work.old.marks.items ≡ length exchange.now }
    requires bodied { bodied ≡ has_body exchange.now instance.now }
    requires used { (to : ℕ) → Any (λ a. NamesBy exchange.now mapped instance.now a to)
        (row_at instance.now) → Used exchange.now to }
    ensures grows { OnOk result (Grows exchange.now work.old work.new) }
    ensures marked { OnOk result ((to : ℕ) → Any (λ a. NamesBy exchange.now mapped instance.now a to)
        (row_at instance.now) → IsMarked exchange.now work.new 0 to) }
{
    if let Some(Entity::Subject) = Entity::at(instance) {
        follow_element(exchange, bodied, mapped, instance, work)
    } else {
        follow_attributes(exchange, bodied, mapped, instance, row_at(instance), work)
    }
}

/// Marks what an instance names.
fn follow(
    exchange: &Exchange,
    bodied: bool,
    mapped: bool,
    instance: &InstanceRef<'_>,
    work: &mut Work,
) -> Result<(), AllocError>
    requires size { length work.old.marks.items ≡ length exchange.now }
    requires bodied { bodied ≡ has_body exchange.now instance.now }
    requires names { (to : ℕ) → Any (λ a. NamesBy exchange.now mapped instance.now a to)
        (row_at instance.now) → Used exchange.now to }
    requires used { (to : ℕ) → Maps exchange.now instance.now to → Used exchange.now to }
    requires mapped { (to : ℕ) → Maps exchange.now instance.now to → IsMapped exchange.now to }
    ensures grows { OnOk result (Grows exchange.now work.old work.new) }
    ensures followed { OnOk result (IsFollowed exchange.now work.new mapped instance.now) }
{
    follow_row(exchange, bodied, mapped, instance, work)?;
    follow_map(exchange, instance, work)
}

/// Marks what the instance at a place names.
fn visit(exchange: &Exchange, bodied: &[bool], at: usize, work: &mut Work) -> Result<(), AllocError>
    requires size { length work.old.marks.items ≡ length exchange.now }
    requires bodied { bodied.now ≡ bodied_of exchange.now }
    requires sound { SoundAt exchange.now at (mark_at work.old at) }
    requires marked { 0 < rank_at work.old at }
    ensures grows { OnOk result (Grows exchange.now work.old work.new) }
    ensures followed { OnOk result (FollowedAt exchange.now work.new (is_mapped (mark_at work.old at)) at) }
{
    let mapped = work.marks[at].is_mapped();
    follow(exchange, bodied[at], mapped, &exchange.instance(at), work)
}

/// Whether the instances of an entity are used wherever they stand.
fn is_root(entity: Option<Entity>) -> bool
    ensures { result ≡ is_root entity }
{
    match entity {
        Some(Entity::Project) => true,
        Some(Entity::Storey) => true,
        Some(Entity::Aggregates) => true,
        Some(Entity::Containment) => true,
        Some(Entity::Subject) => true,
        _ => false,
    }
}

/// Marks the instance at a place, where it is used wherever it stands.
fn mark_root(exchange: &Exchange, at: usize, work: &mut Work) -> Result<(), AllocError>
    requires size { length work.old.marks.items ≡ length exchange.now }
    requires within { at < length exchange.now }
    requires rises { Rises exchange.now }
    ensures grows { OnOk result (Grows exchange.now work.old work.new) }
    ensures root { OnOk result (IsRootAt exchange.now at → 0 < rank_at work.new at) }
{
    if !is_root(Entity::at(&exchange.instance(at))) {
        return Ok(());
    }
    if !is_first(exchange, at) {
        return Ok(());
    }
    work.raise(at, Mark::Used)
}

/// Marks the instances that are used wherever they stand.
fn mark_roots(exchange: &Exchange, work: &mut Work) -> Result<(), AllocError>
    requires size { length work.old.marks.items ≡ length exchange.now }
    ensures grows { OnOk result (Grows exchange.now work.old work.new) }
    ensures roots { OnOk result ((at : ℕ) → IsRootAt exchange.now at → 0 < rank_at work.new at) }
{
    let instances = exchange.iter();
    for at in 0..instances.len() {
        mark_root(exchange, at, work)?;
    }
    Ok(())
}

/// Whether the instance at a place is the first of its number.
fn is_first(exchange: &Exchange, at: usize) -> bool
    requires within { at < length exchange.now }
    requires rises { Rises exchange.now }
    ensures first { OnTrue result ((i : Instance)
        → IsPlaceOf exchange.now (slice_index_or exchange.now at i).id at) }
    ensures other { OnFalse result ((id : ℕ) → IsPlaceOf exchange.now id at → ⊥) }
{
    at == 0 || exchange.instance(at - 1).id() != exchange.instance(at).id()
}

/// Follows rows until none is left to follow.
fn follow_all(exchange: &Exchange, bodied: &[bool], work: &mut Work) -> Result<(), AllocError>
    requires bodied { bodied.now ≡ bodied_of exchange.now }
    requires going { Going exchange.now work.old }
    ensures going { OnOk result (Going exchange.now work.new) }
    ensures done { OnOk result (work.new.stack.items ≡ []) }
    ensures grows { OnOk result ((at : ℕ) → 0 < rank_at work.old at → 0 < rank_at work.new at) }
{
    while let Some(at) = work.stack.pop() {
        visit(exchange, bodied, at, work)?;
    }
    Ok(())
}

/// Which instances are used, and which are mapped.
pub fn mark_used(alloc: Global, exchange: &Exchange, bodied: &[bool]) -> Result<Work, AllocError>
    requires bodied { bodied.now ≡ bodied_of exchange.now }
    ensures { IfOk result (Known exchange.now) }
{
    let mut work = Work::new(alloc, exchange.len())?;
    mark_roots(exchange, &mut work)?;
    follow_all(exchange, bodied, &mut work)?;
    Ok(work)
}
