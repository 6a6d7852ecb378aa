//! What is wrong first with an instance.
ghost use Rattle.std.specs.Prelude.{◌≡◌};
ghost use Rattle.std.specs.Bool.{OnTrue};
ghost use Rattle.p21_values.specs.declared.value.Value21.{Value21};
ghost use Rattle.p21_table.specs.ShortRows.{SaysRow};
ghost use Rattle.ifc_schema.specs.inner.SoundValues.{IsSound, Passes};
ghost use Rattle.ifc_schema.specs.Forms.{fits, holds, allows_absent, allows_missing};
ghost use Rattle.ifc_schema.specs.Flaws.{
  bad_unless,
  wanted_flaw,
  any_flaw,
  reference_flaw,
  LeafFlaw,
  FirstFlaw,
  ItemsFlaw,
  ListFlaw,
  ShapeFlaw,
  ValueFlaw,
  PlaceFlaw,
  AttributeFlaw,
  InstanceFlaw,
};
ghost use Rattle.ifc_schema.specs.AttributeWords.{says_guid};
ghost use Rattle.ifc_instances.specs.EntityLookup.{some_passes};
ghost use Rattle.ifc_schema.specs.BodyRepresentations.{has_body};
ghost use Rattle.ifc_schema.specs.AttributeTable.{row_of};
ghost use Rattle.p21_values.specs.Values.{words_of, reference_of};

use crate::attribute_table::{IDENTIFIER, NAME, PLACED, SHAPED, TAGGED, row_at};
use crate::body::applies;
use crate::form::{Attribute, Count, Leaf, Shape, Targets};
use crate::words::{is_number, is_whole, says_guid};
use bim_text::ShortRow;
use ifc_instances::Entity;
use p21_table::{Exchange, InstanceRef, ValueRef, Values};

/// What is wrong with an instance that lacks the form of its row.
#[derive(Clone, Copy)]
pub enum Flaw {
    /// A reference leads to no instance of that number.
    Dangling(u64),
    /// A value hasn't the form that its attribute has.
    BadShape,
}

fn bad_unless(good: bool) -> Option<Flaw>
    ensures { result ≡ bad_unless good }
{
    if good { None } else { Some(Flaw::BadShape) }
}

fn number_flaw(exchange: &Exchange, value: &ValueRef<'_>) -> Option<Flaw>
    ensures { LeafFlaw exchange.now Leaf.Number value.now result }
{
    match value.number() {
        Some(bytes) => bad_unless(is_number(bytes)),
        None => Some(Flaw::BadShape),
    }
}

fn whole_flaw(exchange: &Exchange, value: &ValueRef<'_>) -> Option<Flaw>
    ensures { LeafFlaw exchange.now Leaf.Whole value.now result }
{
    match value.number() {
        Some(bytes) => bad_unless(is_whole(bytes)),
        None => Some(Flaw::BadShape),
    }
}

fn measure_flaw(exchange: &Exchange, value: &ValueRef<'_>) -> Option<Flaw>
    ensures { LeafFlaw exchange.now Leaf.Measure value.now result }
{
    match value.measure() {
        Some(bytes) => bad_unless(is_number(bytes)),
        None => Some(Flaw::BadShape),
    }
}

fn identifier_flaw(value: &ValueRef<'_>) -> Option<Flaw>
    ensures { result ≡ bad_unless (some_passes says_guid (words_of value.now)) }
{
    if let Some(_guid) = value.plain_guid() {
        return None;
    }
    match value.words() {
        Some(spelled) => bad_unless(says_guid(spelled)),
        None => Some(Flaw::BadShape),
    }
}

fn wanted_flaw(exchange: &Exchange, wanted: Targets, value: &ValueRef<'_>) -> Option<Flaw>
    ensures { result ≡ reference_flaw (wanted_flaw wanted exchange.now) (reference_of value.now) }
{
    match value.reference() {
        Some(to) => match exchange.look(to) {
            Some(instance) => bad_unless(wanted.include(&instance)),
            None => Some(Flaw::Dangling(to)),
        },
        None => Some(Flaw::BadShape),
    }
}

fn any_flaw(exchange: &Exchange, value: &ValueRef<'_>) -> Option<Flaw>
    ensures { result ≡ reference_flaw (any_flaw exchange.now) (reference_of value.now) }
{
    match value.reference() {
        Some(to) => match exchange.look(to) {
            Some(_) => None,
            None => Some(Flaw::Dangling(to)),
        },
        None => Some(Flaw::BadShape),
    }
}

/// What is wrong with a value where this leaf is wanted.
#[inline(always)]
fn leaf_flaw(exchange: &Exchange, leaf: Leaf, value: &ValueRef<'_>) -> Option<Flaw>
    ensures { LeafFlaw exchange.now leaf value.now result }
{
    match leaf {
        Leaf::Number => number_flaw(exchange, value),
        Leaf::Whole => whole_flaw(exchange, value),
        Leaf::Measure => measure_flaw(exchange, value),
        Leaf::Text => bad_unless(value.is_text()),
        Leaf::Enumeration => bad_unless(value.is_enumeration()),
        Leaf::Reference(wanted) => wanted_flaw(exchange, wanted, value),
        Leaf::AnyReference(_) => any_flaw(exchange, value),
        Leaf::Anything => None,
    }
}

fn leaves_flaw(exchange: &Exchange, leaf: Leaf, items: &Values<'_>) -> Option<Flaw>
    ensures { FirstFlaw (LeafFlaw exchange.now leaf) items.now result }
{
    for item in items.iter() {
        let flaw = leaf_flaw(exchange, leaf, &item);
        if flaw.is_some() {
            return flaw;
        }
    }
    None
}

/// What is wrong with a list of leaves.
fn list_flaw(exchange: &Exchange, leaf: Leaf, count: Count, value: &ValueRef<'_>) -> Option<Flaw>
    ensures { ListFlaw count (LeafFlaw exchange.now leaf) value.now result }
{
    match value.items() {
        Some(items) => {
            if count.fits(items.len()) {
                leaves_flaw(exchange, leaf, &items)
            } else {
                Some(Flaw::BadShape)
            }
        }
        None => Some(Flaw::BadShape),
    }
}

/// Whether nothing stands behind the points of a row's numbers.
fn are_bare(row: ShortRow) -> bool
    ensures { OnTrue result ((row.x.places ≡ 0) × (row.y.places ≡ 0) × (row.z.places ≡ 0)) }
{
    if row.x.places != 0 {
        return false;
    }
    if row.y.places != 0 {
        return false;
    }
    row.z.places == 0
}

/// Whether a row of short numbers is a list of that many such leaves. False says nothing.
fn is_sound(leaf: Leaf, inner: Count, row: ShortRow) -> bool
    ensures { OnTrue result ((v : Value21) → SaysRow row v → IsSound inner leaf v) }
{
    match inner {
        Count::Exactly(3) => match leaf {
            Leaf::Number => true,
            Leaf::Whole => are_bare(row),
            _ => false,
        },
        _ => false,
    }
}

/// What is left of rows after those at the front that are short numbers and have no flaw.
fn past_sound<'a>(leaf: Leaf, inner: Count, rows: Values<'a>) -> Values<'a>
    ensures { Passes (IsSound inner leaf) rows.entry result }
{
    let mut left = rows;
    loop {
        let mut ahead = left.iter();
        match ahead.next_row() {
            Some(row) => {
                if !is_sound(leaf, inner, row) {
                    return left;
                }
                left = ahead;
            }
            None => return left,
        }
    }
}

fn lists_flaw(exchange: &Exchange, leaf: Leaf, inner: Count, rows: &Values<'_>) -> Option<Flaw>
    ensures { FirstFlaw (ListFlaw inner (LeafFlaw exchange.now leaf)) rows.now result }
{
    let mut left = past_sound(leaf, inner, rows.iter());
    while let Some(row) = left.next() {
        let flaw = list_flaw(exchange, leaf, inner, &row);
        if flaw.is_some() {
            return flaw;
        }
        left = past_sound(leaf, inner, left);
    }
    None
}

/// What is wrong with a list of lists of leaves.
fn table_flaw(
    exchange: &Exchange,
    leaf: Leaf,
    outer: Count,
    inner: Count,
    value: &ValueRef<'_>,
) -> Option<Flaw>
    ensures { ListFlaw outer (ListFlaw inner (LeafFlaw exchange.now leaf)) value.now result }
{
    match value.items() {
        Some(rows) => {
            if outer.fits(rows.len()) {
                lists_flaw(exchange, leaf, inner, &rows)
            } else {
                Some(Flaw::BadShape)
            }
        }
        None => Some(Flaw::BadShape),
    }
}

#[inline(always)]
fn shape_flaw(exchange: &Exchange, leaf: Leaf, shape: &Shape, value: &ValueRef<'_>) -> Option<Flaw>
    ensures { ShapeFlaw exchange.now leaf shape.now value.now result }
{
    match shape {
        Shape::One => leaf_flaw(exchange, leaf, value),
        Shape::Identifier => identifier_flaw(value),
        Shape::List(count) => list_flaw(exchange, leaf, *count, value),
        Shape::Table(outer, inner) => table_flaw(exchange, leaf, *outer, *inner, value),
    }
}

#[inline(always)]
fn value_flaw(exchange: &Exchange, attribute: &Attribute, value: &ValueRef<'_>) -> Option<Flaw>
    ensures { ValueFlaw exchange.now attribute.now value.now result }
{
    if attribute.need.allows_absent() && value.is_absent() {
        None
    } else {
        shape_flaw(exchange, attribute.leaf, &attribute.shape, value)
    }
}

/// What is wrong with an attribute of an instance.
#[inline(always)]
fn attribute_flaw(
    exchange: &Exchange,
    bodied: bool,
    mapped: bool,
    instance: &InstanceRef<'_>,
    attribute: &Attribute,
) -> Option<Flaw>
    requires bodied { bodied ≡ has_body exchange.now instance.now }
    ensures { AttributeFlaw exchange.now mapped instance.now attribute.now result }
{
    if !applies(bodied, mapped, instance, attribute.when) {
        return None;
    }
    match instance.attribute(attribute.at) {
        Some(value) => value_flaw(exchange, attribute, &value),
        None => bad_unless(attribute.need.allows_missing()),
    }
}

/// The same of an element: its attributes one by one. One with a body refers to a product shape, as wanted.
fn element_flaw(
    exchange: &Exchange,
    bodied: bool,
    mapped: bool,
    instance: &InstanceRef<'_>,
) -> Option<Flaw>
    requires bodied { bodied ≡ has_body exchange.now instance.now }
    ensures { FirstFlaw (AttributeFlaw exchange.now mapped instance.now) (row_of Entity.Subject) result }
{
    let identifier = attribute_flaw(exchange, bodied, mapped, instance, &IDENTIFIER);
    if identifier.is_some() {
        return identifier;
    }
    let name = attribute_flaw(exchange, bodied, mapped, instance, &NAME);
    if name.is_some() {
        return name;
    }
    let placed = attribute_flaw(exchange, bodied, mapped, instance, &PLACED);
    if placed.is_some() {
        return placed;
    }
    if !bodied {
        let shaped = attribute_flaw(exchange, bodied, mapped, instance, &SHAPED);
        if shaped.is_some() {
            return shaped;
        }
    }
    attribute_flaw(exchange, bodied, mapped, instance, &TAGGED)
}

/// What is wrong first with an instance; whether it is mapped is given. None where it has the form of its row.
pub fn instance_flaw(
    exchange: &Exchange,
    bodied: bool,
    mapped: bool,
    instance: &InstanceRef<'_>,
) -> Option<Flaw>
    requires bodied { bodied ≡ has_body exchange.now instance.now }
    ensures { InstanceFlaw exchange.now mapped instance.now result }
{
    if let Some(Entity::Subject) = Entity::at(instance) {
        return element_flaw(exchange, bodied, mapped, instance);
    }
    for attribute in row_at(instance) {
        let flaw = attribute_flaw(exchange, bodied, mapped, instance, attribute);
        if flaw.is_some() {
            return flaw;
        }
    }
    None
}
