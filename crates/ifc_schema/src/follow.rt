//! Rows are followed: what they name is marked.
ghost use Rattle.std.specs.Prelude.{◌≡◌, ◌≤◌, ℕ, length, OnOk, Any};
ghost use Rattle.p21_values.specs.InstancePlaces.{IsPlaceOf};
ghost use Rattle.ifc_schema.specs.Used.{Used, IsMapped, RefersTo, SomeItem, StandsIn, LeadsTo, NamesBy, Maps};
ghost use Rattle.ifc_schema.specs.BodyRepresentations.{has_body};
ghost use Rattle.ifc_schema.specs.AttributeTable.{row_of};
ghost use Rattle.ifc_schema.specs.InstanceMarks.{Grows, IsMarked, SoundAt, rank, rank_at};

use crate::attribute_table::{PLACED, SHAPED};
use crate::body::applies;
use crate::form::{Attribute, Shape, Targets};
use crate::worklist::{Mark, Work};
use ifc_instances::Entity;
use p21_table::{Exchange, InstanceRef, ValueRef, Values};
use std::alloc::AllocError;

/// Gives an instance this mark, or leaves it a higher one, where it is of one of these entities.
fn mark_target(
    exchange: &Exchange,
    targets: Targets,
    to: u64,
    mark: Mark,
    work: &mut Work,
) -> Result<(), AllocError>
    requires size { length work.old.marks.items ≡ length exchange.now }
    requires sound { LeadsTo exchange.now targets to → (at : ℕ) → IsPlaceOf exchange.now to at
        → SoundAt exchange.now at mark }
    ensures grows { OnOk result (Grows exchange.now work.old work.new) }
    ensures marked { OnOk result (LeadsTo exchange.now targets to → (at : ℕ) → IsPlaceOf exchange.now to at
        → rank mark ≤ rank_at work.new at) }
{
    match exchange.place_of(to) {
        Some(at) => {
            if targets.include(&exchange.instance(at)) {
                work.raise(at, mark)
            } else {
                Ok(())
            }
        }
        None => Ok(()),
    }
}

#[inline(always)]
fn follow_value(
    exchange: &Exchange,
    targets: Targets,
    value: &ValueRef<'_>,
    work: &mut Work,
) -> Result<(), AllocError>
    requires size { length work.old.marks.items ≡ length exchange.now }
    requires used { (to : ℕ) → RefersTo to value.now → LeadsTo exchange.now targets to
        → Used exchange.now to }
    ensures grows { OnOk result (Grows exchange.now work.old work.new) }
    ensures marked { OnOk result ((to : ℕ) → RefersTo to value.now → LeadsTo exchange.now targets to
        → IsMarked exchange.now work.new 0 to) }
{
    match value.reference() {
        Some(to) => mark_target(exchange, targets, to, Mark::Used, work),
        None => Ok(()),
    }
}

fn follow_items(
    exchange: &Exchange,
    targets: Targets,
    items: &Values<'_>,
    work: &mut Work,
) -> Result<(), AllocError>
    requires size { length work.old.marks.items ≡ length exchange.now }
    requires used { (to : ℕ) → Any (RefersTo to) items.now → LeadsTo exchange.now targets to
        → Used exchange.now to }
    ensures grows { OnOk result (Grows exchange.now work.old work.new) }
    ensures marked { OnOk result ((to : ℕ) → Any (RefersTo to) items.now → LeadsTo exchange.now targets to
        → IsMarked exchange.now work.new 0 to) }
{
    for item in items.iter() {
        follow_value(exchange, targets, &item, work)?;
    }
    Ok(())
}

fn follow_list(
    exchange: &Exchange,
    targets: Targets,
    value: &ValueRef<'_>,
    work: &mut Work,
) -> Result<(), AllocError>
    requires size { length work.old.marks.items ≡ length exchange.now }
    requires used { (to : ℕ) → SomeItem (RefersTo to) value.now → LeadsTo exchange.now targets to
        → Used exchange.now to }
    ensures grows { OnOk result (Grows exchange.now work.old work.new) }
    ensures marked { OnOk result ((to : ℕ) → SomeItem (RefersTo to) value.now
        → LeadsTo exchange.now targets to → IsMarked exchange.now work.new 0 to) }
{
    match value.items() {
        Some(items) => follow_items(exchange, targets, &items, work),
        None => Ok(()),
    }
}

fn follow_rows(
    exchange: &Exchange,
    targets: Targets,
    rows: &Values<'_>,
    work: &mut Work,
) -> Result<(), AllocError>
    requires size { length work.old.marks.items ≡ length exchange.now }
    requires used { (to : ℕ) → Any (SomeItem (RefersTo to)) rows.now → LeadsTo exchange.now targets to
        → Used exchange.now to }
    ensures grows { OnOk result (Grows exchange.now work.old work.new) }
    ensures marked { OnOk result ((to : ℕ) → Any (SomeItem (RefersTo to)) rows.now
        → LeadsTo exchange.now targets to → IsMarked exchange.now work.new 0 to) }
{
    for row in rows.iter() {
        follow_list(exchange, targets, &row, work)?;
    }
    Ok(())
}

fn follow_table(
    exchange: &Exchange,
    targets: Targets,
    value: &ValueRef<'_>,
    work: &mut Work,
) -> Result<(), AllocError>
    requires size { length work.old.marks.items ≡ length exchange.now }
    requires used { (to : ℕ) → SomeItem (SomeItem (RefersTo to)) value.now → LeadsTo exchange.now targets to
        → Used exchange.now to }
    ensures grows { OnOk result (Grows exchange.now work.old work.new) }
    ensures marked { OnOk result ((to : ℕ) → SomeItem (SomeItem (RefersTo to)) value.now
        → LeadsTo exchange.now targets to → IsMarked exchange.now work.new 0 to) }
{
    match value.items() {
        Some(rows) => follow_rows(exchange, targets, &rows, work),
        None => Ok(()),
    }
}

/// Marks what a value refers to, where the shape has its leaves.
#[inline(always)]
fn follow_shape(
    exchange: &Exchange,
    targets: Targets,
    shape: &Shape,
    value: &ValueRef<'_>,
    work: &mut Work,
) -> Result<(), AllocError>
    requires size { length work.old.marks.items ≡ length exchange.now }
    requires used { (to : ℕ) → StandsIn to shape.now value.now → LeadsTo exchange.now targets to
        → Used exchange.now to }
    ensures grows { OnOk result (Grows exchange.now work.old work.new) }
    ensures marked { OnOk result ((to : ℕ) → StandsIn to shape.now value.now → LeadsTo exchange.now targets to
        → IsMarked exchange.now work.new 0 to) }
{
    match shape {
        Shape::One => follow_value(exchange, targets, value, work),
        Shape::Identifier => Ok(()),
        Shape::List(_) => follow_list(exchange, targets, value, work),
        Shape::Table(_, _) => follow_table(exchange, targets, value, work),
    }
}

/// Marks what an attribute of an instance names.
#[inline(always)]
fn follow_attribute(
    exchange: &Exchange,
    bodied: bool,
    mapped: bool,
    instance: &InstanceRef<'_>,
    attribute: &Attribute,
    work: &mut Work,
) -> Result<(), AllocError>
    requires size { length work.old.marks.items ≡ length exchange.now }
    requires bodied { bodied ≡ has_body exchange.now instance.now }
    requires used { (to : ℕ) → NamesBy exchange.now mapped instance.now attribute.now to
        → Used exchange.now to }
    ensures grows { OnOk result (Grows exchange.now work.old work.new) }
    ensures marked { OnOk result ((to : ℕ) → NamesBy exchange.now mapped instance.now attribute.now to
        → IsMarked exchange.now work.new 0 to) }
{
    let targets = attribute.leaf.followed();
    if targets.is_nothing() {
        return Ok(());
    }
    if !applies(bodied, mapped, instance, attribute.when) {
        return Ok(());
    }
    match instance.attribute(attribute.at) {
        Some(value) => follow_shape(exchange, targets, &attribute.shape, &value, work),
        None => Ok(()),
    }
}

/// Marks what the attributes of an instance name.
pub fn follow_attributes(
    exchange: &Exchange,
    bodied: bool,
    mapped: bool,
    instance: &InstanceRef<'_>,
    row: &[Attribute],
    work: &mut Work,
) -> Result<(), AllocError>
    requires size { length work.old.marks.items ≡ length exchange.now }
    requires bodied { bodied ≡ has_body exchange.now instance.now }
    requires used { (to : ℕ) → Any (λ a. NamesBy exchange.now mapped instance.now a to) row.now
        → Used exchange.now to }
    ensures grows { OnOk result (Grows exchange.now work.old work.new) }
    ensures marked { OnOk result ((to : ℕ) → Any (λ a. NamesBy exchange.now mapped instance.now a to) row.now
        → IsMarked exchange.now work.new 0 to) }
{
    for attribute in row {
        follow_attribute(exchange, bodied, mapped, instance, attribute, work)?;
    }
    Ok(())
}

/// The same of an element, of whose attributes two are followed.
pub fn follow_element(
    exchange: &Exchange,
    bodied: bool,
    mapped: bool,
    instance: &InstanceRef<'_>,
    work: &mut Work,
) -> Result<(), AllocError>
    requires size { length work.old.marks.items ≡ length exchange.now }
    requires bodied { bodied ≡ has_body exchange.now instance.now }
    requires used { (to : ℕ) → Any (λ a. NamesBy exchange.now mapped instance.now a to)
        (row_of Entity.Subject) → Used exchange.now to }
    ensures grows { OnOk result (Grows exchange.now work.old work.new) }
    ensures marked { OnOk result ((to : ℕ) → Any (λ a. NamesBy exchange.now mapped instance.now a to)
        (row_of Entity.Subject) → IsMarked exchange.now work.new 0 to) }
{
    follow_attribute(exchange, bodied, mapped, instance, &PLACED, work)?;
    follow_attribute(exchange, bodied, mapped, instance, &SHAPED, work)
}

/// Marks the representation that a representation map maps.
pub fn follow_map(
    exchange: &Exchange,
    instance: &InstanceRef<'_>,
    work: &mut Work,
) -> Result<(), AllocError>
    requires size { length work.old.marks.items ≡ length exchange.now }
    requires used { (to : ℕ) → Maps exchange.now instance.now to → Used exchange.now to }
    requires mapped { (to : ℕ) → Maps exchange.now instance.now to → IsMapped exchange.now to }
    ensures grows { OnOk result (Grows exchange.now work.old work.new) }
    ensures marked { OnOk result ((to : ℕ) → Maps exchange.now instance.now to
        → IsMarked exchange.now work.new 1 to) }
{
    let Some(Entity::RepresentationMap) = Entity::at(instance) else {
        return Ok(());
    };
    let Some(value) = instance.attribute(1) else {
        return Ok(());
    };
    let Some(to) = value.reference() else {
        return Ok(());
    };
    mark_target(
        exchange,
        Targets::One(Entity::Representation),
        to,
        Mark::Mapped,
        work,
    )
}
