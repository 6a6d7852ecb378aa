//! Which elements have a body.
ghost use Rattle.std.specs.Prelude.{◌≡◌, Bool, List, IfOk, length, map};
ghost use Rattle.p21_values.specs.declared.value.Instance.{Instance};
ghost use Rattle.ifc_schema.specs.BodyRepresentations.{is_body, is_body_representation, target_passes, lists_body, is_body_shape, body_shapes, has_body, bodied_of, is_of_length, applies};

use crate::form::When;
use crate::words::says_body;
use ifc_instances::{Entity, says};
use p21_table::{Exchange, InstanceRef, ValueRef, Values};
use std::alloc::{AllocError, Global};

/// Whether the identifier of a representation is `Body`.
#[tactic(auto, unfolding(crate::specs::BodyRepresentations::is_body))]
pub fn is_body(instance: &InstanceRef<'_>) -> bool
    ensures { result ≡ is_body instance.now }
{
    match instance.attribute(1) {
        Some(value) => match value.words() {
            Some(spelled) => says_body(spelled),
            None => false,
        },
        None => false,
    }
}

/// Whether it is a shape representation whose identifier is `Body`.
fn is_body_representation(instance: &InstanceRef<'_>) -> bool
    ensures { result ≡ is_body_representation instance.now }
{
    Entity::Representation.includes(instance) && is_body(instance)
}

/// Which instances are representations that are bodies, place by place.
fn body_representations(alloc: Global, exchange: &Exchange) -> Result<Vec<bool>, AllocError>
    ensures { IfOk result (λ bits. bits.items ≡ map is_body_representation exchange.now) }
{
    let mut bits = Vec::with_capacity(alloc, exchange.len())?;
    for instance in exchange.iter() {
        bits.push(is_body_representation(&instance))?;
    }
    Ok(bits)
}

/// Whether the instance that a value refers to passes a test. The test's answers are given, place by place.
fn target_passes(exchange: &Exchange, answers: &[bool], value: &ValueRef<'_>) -> bool
    requires size { length answers.now ≡ length exchange.now }
    ensures { (test : Instance → Bool) → answers.now ≡ map test exchange.now
        → result ≡ target_passes exchange.now test value.now }
{
    match value.reference() {
        Some(id) => match exchange.place_of(id) {
            Some(at) => answers[at],
            None => false,
        },
        None => false,
    }
}

fn lists_body(exchange: &Exchange, bodies: &[bool], items: &Values<'_>) -> bool
    requires bodies { bodies.now ≡ map is_body_representation exchange.now }
    ensures { result ≡ lists_body exchange.now items.now }
{
    for item in items.iter() {
        if target_passes(exchange, bodies, &item) {
            return true;
        }
    }
    false
}

#[tactic(auto, unfolding(crate::specs::BodyRepresentations::is_body_shape))]
fn is_body_shape(exchange: &Exchange, bodies: &[bool], shape: &InstanceRef<'_>) -> bool
    requires bodies { bodies.now ≡ map is_body_representation exchange.now }
    ensures { result ≡ is_body_shape exchange.now shape.now }
{
    if !Entity::ProductShape.includes(shape) {
        return false;
    }
    match shape.attribute(2) {
        Some(value) => match value.items() {
            Some(items) => lists_body(exchange, bodies, &items),
            None => false,
        },
        None => false,
    }
}

/// Which instances are shapes that have a body, place by place. Each identifier is read once, however many shapes list it.
fn body_shapes(alloc: Global, exchange: &Exchange) -> Result<Vec<bool>, AllocError>
    ensures { IfOk result (λ bits. bits.items ≡ body_shapes exchange.now) }
{
    let bodies = body_representations(alloc, exchange)?;
    let mut bits = Vec::with_capacity(alloc, exchange.len())?;
    for instance in exchange.iter() {
        bits.push(is_body_shape(exchange, &bodies, &instance))?;
    }
    Ok(bits)
}

/// Whether an element has a body: one of the representations of its shape has the identifier `Body`.
#[tactic(auto, unfolding(crate::specs::BodyRepresentations::has_body))]
fn has_body(exchange: &Exchange, bodied: &[bool], element: &InstanceRef<'_>) -> bool
    requires bodied { bodied.now ≡ body_shapes exchange.now }
    ensures { result ≡ has_body exchange.now element.now }
{
    match element.attribute(6) {
        Some(value) => target_passes(exchange, bodied, &value),
        None => false,
    }
}

/// Which instances have a body, place by place. The shape of each is asked for once.
pub fn bodied_of(alloc: Global, exchange: &Exchange) -> Result<Vec<bool>, AllocError>
    ensures { IfOk result (λ bits. bits.items ≡ bodied_of exchange.now) }
{
    let shapes = body_shapes(alloc, exchange)?;
    let mut bits = Vec::with_capacity(alloc, exchange.len())?;
    for instance in exchange.iter() {
        bits.push(has_body(exchange, &shapes, &instance))?;
    }
    Ok(bits)
}

/// Whether it is a unit of length.
#[tactic(auto, unfolding(crate::specs::BodyRepresentations::is_of_length))]
fn is_of_length(instance: &InstanceRef<'_>) -> bool
    ensures { result ≡ is_of_length instance.now }
{
    says("LENGTHUNIT", instance, 1)
}

/// Whether an attribute is followed in this instance; whether it has a body and is mapped is given.
pub fn applies(bodied: bool, mapped: bool, instance: &InstanceRef<'_>, when: When) -> bool
    ensures { (world : List Instance) → bodied ≡ has_body world instance.now
        → result ≡ applies world mapped instance.now when }
{
    match when {
        When::Always => true,
        When::WithBody => bodied,
        When::WithItems => mapped || is_body(instance),
        When::OfLength => is_of_length(instance),
    }
}
