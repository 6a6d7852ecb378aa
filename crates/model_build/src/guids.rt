//! Global identifiers that stand twice (IFC4 ADD2 TC1, IfcGloballyUniqueId).
ghost use Rattle.std.specs.Prelude.{ℕ, Contains, IfOk, MatchOption};
ghost use Rattle.std.specs.List.Sorted.{IsStrictlyIncreasing};
ghost use Rattle.model_build.specs.DuplicateGuids.{HasNoGuid, HasThatGuid, IsIdentified, NoneRepeats, IsFirstRepeated};

use bim_model::Guid;
use ifc_elements::guid_of;
use p21_table::Exchange;
use std::alloc::{AllocError, Global};
use std::collections::BTreeSet;

/// The global identifier of the instance of that number.
fn identifier(alloc: Global, exchange: &Exchange, id: u64) -> Result<Option<Guid>, AllocError>
    ensures { IfOk result (λ found. MatchOption found (HasNoGuid exchange.now id)
        (HasThatGuid exchange.now id)) }
{
    match exchange.look(id) {
        Some(instance) => guid_of(alloc, &instance),
        None => Ok(None),
    }
}

/// Of numbers that rise, the least one whose instance has the global identifier of a lower one; none where all of them differ. Each instance
/// has an identifier.
pub fn first_repeated(
    alloc: Global,
    exchange: &Exchange,
    ids: &[u64],
) -> Result<Option<u64>, AllocError>
    requires rise { IsStrictlyIncreasing ids.now }
    requires identified { (id : ℕ) → Contains ids.now id → IsIdentified exchange.now id }
    ensures { IfOk result (λ found. MatchOption found (NoneRepeats exchange.now ids.now)
        (IsFirstRepeated exchange.now ids.now)) }
{
    let mut seen = BTreeSet::new(alloc);
    for id in ids {
        if let Some(guid) = identifier(alloc, exchange, *id)? {
            let added = seen.insert(guid.chars)?;
            if !added {
                return Ok(Some(*id));
            }
        }
    }
    Ok(None)
}
