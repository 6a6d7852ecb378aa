//! The steps up from the objects that have something above them.
ghost use Rattle.std.specs.Prelude.{ℕ, Contains, IfOk, OnOk, IsSortedByKey};
ghost use Rattle.std.specs.List.Sorted.{IsStrictlyIncreasing, IsNonDecreasing};
ghost use Rattle.std.specs.Ordering.{nat_cmp};
ghost use Rattle.spatial_tree.specs.inner.Onlys.{Has};
ghost use Rattle.spatial_tree.specs.inner.UpwardSteps.{NextIn, TornIn, IsPlaceIn, IsStepOf, AreStepsOf, IsTableOf};

use crate::only::{count_above, is_torn, next_above};
use crate::relations::Link;
use std::alloc::{AllocError, Global};

/// What is known of the way up from an object.
#[derive(Clone, Copy)]
pub struct Step {
    /// Whether it has two different containers, or two different wholes.
    pub torn: bool,
    /// The place of the next object, where that has something above it.
    pub up: Option<usize>,
    /// The next object, where that is a storey.
    pub storey: Option<u64>,
}

/// The objects that have something above them, by rising number, and their steps up.
#[derive(Drop)]
pub struct Table {
    pub objects: Vec<u64>,
    pub steps: Vec<Step>,
}

fn push_objects(objects: &mut Vec<u64>, links: &[Link]) -> Result<(), AllocError>
    ensures keeps { OnOk result ((object : ℕ) → Contains objects.old.items object
        → Contains objects.new.items object) }
    ensures all { OnOk result ((object above : ℕ) → Has links.now object above
        → Contains objects.new.items object) }
{
    for link in links {
        objects.push(link.object)?;
    }
    Ok(())
}

/// The objects that have something above them, by rising number.
fn objects_of(alloc: Global, containers: &[Link], wholes: &[Link]) -> Result<Vec<u64>, AllocError>
    ensures rises { IfOk result (λ objects. IsStrictlyIncreasing objects.items) }
    ensures contents { IfOk result
        (λ objects. (object above : ℕ) → Has containers.now object above → Contains objects.items object) }
    ensures parts { IfOk result (λ objects. (object above : ℕ) → Has wholes.now object above
        → Contains objects.items object) }
{
    let mut objects = Vec::new(alloc);
    push_objects(&mut objects, containers)?;
    push_objects(&mut objects, wholes)?;
    objects.sort()?;
    objects.dedup();
    Ok(objects)
}

/// Where a number stands in a list that rises.
fn place_in(objects: &[u64], object: u64) -> Option<usize>
    requires { IsNonDecreasing objects.now }
    ensures { IsPlaceIn objects.now object result }
{
    objects.binary_search(&object).ok()
}

/// The step up from an object.
fn step_of(
    containers: &[Link],
    wholes: &[Link],
    storeys: &[u64],
    objects: &[u64],
    object: u64,
) -> Step
    requires contents { IsSortedByKey (λ l. l.object) nat_cmp containers.now }
    requires parts { IsSortedByKey (λ l. l.object) nat_cmp wholes.now }
    requires storeys { IsNonDecreasing storeys.now }
    requires objects { IsNonDecreasing objects.now }
    ensures { IsStepOf (NextIn containers.now wholes.now) (TornIn containers.now wholes.now)
        (Contains storeys.now) objects.now object result }
{
    let container = count_above(containers, object);
    let whole = count_above(wholes, object);
    let torn = is_torn(container, whole);
    match next_above(container, whole) {
        Some(next) => Step {
            torn,
            up: place_in(objects, next),
            storey: match place_in(storeys, next) {
                Some(_) => Some(next),
                None => None,
            },
        },
        None => Step {
            torn,
            up: None,
            storey: None,
        },
    }
}

/// The steps up from the objects.
fn steps_of(
    alloc: Global,
    containers: &[Link],
    wholes: &[Link],
    storeys: &[u64],
    objects: &[u64],
) -> Result<Vec<Step>, AllocError>
    requires contents { IsSortedByKey (λ l. l.object) nat_cmp containers.now }
    requires parts { IsSortedByKey (λ l. l.object) nat_cmp wholes.now }
    requires storeys { IsNonDecreasing storeys.now }
    requires objects { IsNonDecreasing objects.now }
    ensures { IfOk result (λ steps. AreStepsOf (NextIn containers.now wholes.now)
        (TornIn containers.now wholes.now) (Contains storeys.now) objects.now steps.items) }
{
    let mut steps = Vec::with_capacity(alloc, objects.len())?;
    for object in objects {
        steps.push(step_of(containers, wholes, storeys, objects, *object))?;
    }
    Ok(steps)
}

/// The objects that the pairs name first, and their steps up.
pub fn table_of(
    alloc: Global,
    containers: &[Link],
    wholes: &[Link],
    storeys: &[u64],
) -> Result<Table, AllocError>
    requires contents { IsSortedByKey (λ l. l.object) nat_cmp containers.now }
    requires parts { IsSortedByKey (λ l. l.object) nat_cmp wholes.now }
    requires storeys { IsNonDecreasing storeys.now }
    ensures { IfOk result
        (λ table. IsTableOf containers.now wholes.now storeys.now table.objects.items table.steps.items) }
{
    let objects = objects_of(alloc, containers, wholes)?;
    let steps = steps_of(alloc, containers, wholes, storeys, objects.as_slice())?;
    Ok(Table { objects, steps })
}
