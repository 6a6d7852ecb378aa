//! The numbers that the elements of a version had in the version before.
ghost use Rattle.std.specs.Prelude.{◌≡◌, ◌↔◌, ◌<◌, ◌≤◌, length, slice_index_or, IsTrue, IfOk};
ghost use Rattle.bim_model.specs.declared.named_model.NamedModel.{NamedModel};
ghost use Rattle.bim_model.specs.Keys.{key_of, key_cmp};
ghost use Rattle.bucket_check.specs.ClashSets.{IsSame};
ghost use Rattle.clash_delta.specs.inner.ElementNumbers.{subjects, subject_of, AllBelow, IsReached, IsNumberBefore, AreNumbersBefore};

use crate::same::is_like;
use bim_model::{NamedModel, know};
use bucket_grid::{Grid, Member};
use std::alloc::{AllocError, Global};
use std::cmp::Ordering;

// The name of the model at a place.
fn name_at(models: &[NamedModel], place: Member) -> &str
    requires { place.model < length models.now }
    ensures { (d : NamedModel) → result.now ≡ (slice_index_or models.now place.model d).name }
{
    models[place.model].name.as_str()
}

// The name of the model of an element.
fn name_of(grid: &Grid, number: usize) -> &str
    requires { number < length grid.now.places }
    ensures { result.now ≡ (subject_of grid.now number).name }
{
    name_at(grid.models(), grid.places()[number])
}

// The order of the keys of an element before and one after.
fn key_order(before: &Grid, old: usize, after: &Grid, new: usize) -> Ordering
    requires old { old < length before.now.places }
    requires new { new < length after.now.places }
    ensures { result ≡ key_cmp (key_of (subject_of before.now old)) (key_of (subject_of after.now new)) }
{
    match name_of(before, old).cmp(name_of(after, new)) {
        Ordering::Equal => {
            let first = before.element(old);
            let second = after.element(new);
            first.guid.chars.cmp(&second.guid.chars)
        }
        order => order,
    }
}

// Whether an element before and one after are the same in key, class, storey and surface.
fn is_same(before: &Grid, old: usize, after: &Grid, new: usize) -> bool
    requires old { old < length before.now.places }
    requires new { new < length after.now.places }
    ensures { IsTrue result ↔ IsSame (subject_of before.now old) (subject_of after.now new) }
{
    key_order(before, old, after, new).is_eq() && is_like(before.element(old), after.element(new))
}

// From `old` on, the first element before whose key isn't below that of an element after.
fn first_not_below(before: &Grid, old: usize, after: &Grid, new: usize) -> usize
    requires old { old ≤ length before.now.places }
    requires new { new < length after.now.places }
    requires below { AllBelow (subjects before.now) old (subject_of after.now new) }
    ensures within { result ≤ length before.now.places }
    ensures reached { IsReached (subjects before.now) (subject_of after.now new) result }
{
    let count = before.places().len();
    let mut number = old;
    while number < count && key_order(before, number, after, new).is_lt() {
        number += 1;
    }
    number
}

// The number before of an element that is reached.
fn number_before(before: &Grid, old: usize, after: &Grid, new: usize) -> Option<u32>
    requires old { IsReached (subjects before.now) (subject_of after.now new) old }
    requires new { new < length after.now.places }
    ensures { IsNumberBefore (subjects before.now) (subject_of after.now new) result }
{
    know(before.models());
    know(before.boxes());
    if old < before.places().len() && is_same(before, old, after, new) {
        Some(old as u32)
    } else {
        None
    }
}

/// For each element of a version its number in the version before, or none where it is new or changed.
pub fn numbers_before(
    alloc: Global,
    before: &Grid,
    after: &Grid,
) -> Result<Vec<Option<u32>>, AllocError>
    ensures { IfOk result (λ numbers. AreNumbersBefore (subjects before.now)
        (subjects after.now) numbers.items) }
{
    know(after.models());
    let count = after.places().len();
    let mut numbers = Vec::with_capacity(alloc, count)?;
    let mut old = 0;
    for new in 0..count {
        old = first_not_below(before, old, after, new);
        numbers.push(number_before(before, old, after, new))?;
    }
    Ok(numbers)
}
