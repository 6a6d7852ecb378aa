//! The placements that elements name (IFC4 ADD2 TC1, IfcProduct).
ghost use Rattle.std.specs.Prelude.{IfOk, MatchOption};
ghost use Rattle.model_build.specs.NamedPlacements.{NamesPlacement, NamesNone, ListsNamed};

use p21_table::Exchange;
use std::alloc::{AllocError, Global};

/// The number of the placement that an element names.
fn named_by(exchange: &Exchange, element: u64) -> Option<u64>
    ensures { MatchOption result (NamesNone exchange.now element) (NamesPlacement exchange.now element) }
{
    let instance = exchange.look(element)?;
    instance.reference_at(5)
}

/// The numbers of the placements that the listed elements name, in their order; one that several name stands as often.
pub fn placements(alloc: Global, exchange: &Exchange, ids: &[u64]) -> Result<Vec<u64>, AllocError>
    ensures { IfOk result (λ named. ListsNamed exchange.now ids.now named.items) }
{
    let mut named = Vec::new(alloc);
    for id in ids {
        if let Some(placement) = named_by(exchange, *id) {
            named.push(placement)?;
        }
    }
    Ok(named)
}
