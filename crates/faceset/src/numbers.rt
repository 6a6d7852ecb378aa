//! The numbers that values refer to.
ghost use Rattle.std.specs.Prelude.{◌≡◌, ◌++◌, ◌∷◌, [], filter_map, IfOk, OnOk};
ghost use Rattle.std.specs.List.Sorted.{IsStrictlyIncreasing};
ghost use Rattle.p21_values.specs.Values.{reference_of};
ghost use Rattle.faceset.specs.inner.FaceNumbers.{HaveSame};

use p21_table::{ValueRef, Values};
use std::alloc::{AllocError, Global};

/// Adds the number that a value refers to.
fn add_number(value: &ValueRef<'_>, ids: &mut Vec<u64>) -> Result<(), AllocError>
    ensures { OnOk result (ids.new.items ≡ ids.old.items ++ filter_map reference_of (value.now ∷ [])) }
{
    let Some(id) = value.reference() else {
        return Ok(());
    };
    ids.push(id)?;
    Ok(())
}

/// The numbers that values refer to, in their order.
fn numbers_of(alloc: Global, values: &Values<'_>) -> Result<Vec<u64>, AllocError>
    ensures { IfOk result (λ ids. ids.items ≡ filter_map reference_of values.now) }
{
    let mut ids = Vec::with_capacity(alloc, values.len())?;
    for value in values.iter() {
        add_number(&value, &mut ids)?;
    }
    Ok(ids)
}

/// The numbers that values refer to, by rising number, each once.
pub fn distinct_numbers(alloc: Global, values: &Values<'_>) -> Result<Vec<u64>, AllocError>
    ensures rises { IfOk result (λ ids. IsStrictlyIncreasing ids.items) }
    ensures same { IfOk result (λ ids. HaveSame ids.items (filter_map reference_of values.now)) }
{
    let mut ids = numbers_of(alloc, values)?;
    ids.sort()?;
    ids.dedup();
    Ok(ids)
}
