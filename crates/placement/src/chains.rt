//! The placements that elements name, and those in which they stand.
ghost use Rattle.std.specs.Prelude.{IfOk, IfErr};
ghost use Rattle.placement.specs.Chains.{AreChains, IsLoopCause};

use crate::walk::Walk;
use bim_model::{BuildError, UploadFault};
use p21_table::Exchange;
use std::alloc::Global;
use std::marker::Model;

/// Placements, each after the one that it stands in. Contracts see them as the list of their numbers.
#[derive(Drop)]
pub struct Chains {
    order: Vec<u64>,
}

impl Model for Chains {
    ghost use Rattle.std.specs.Prelude.{List, ℕ, length, ◌≤◌};
    ghost use Rattle.p21_values.specs.declared.limits.TheConstants.{MOST_INSTANCES};

    ghost Value = { List ℕ };

    ghost view = { λ c. c.order.items };

    ghost invariant = { λ c. length c.order.items ≤ MOST_INSTANCES };
}

impl Chains {
    ghost use Rattle.p21_values.specs.declared.limits.TheConstants.{MOST_INSTANCES};
    ghost use Rattle.std.specs.Prelude.{◌≡◌, ◌≤◌, length};

    /// The placements that are named and all in which they stand (IFC4 ADD2 TC1, IfcLocalPlacement). A fault is `PlacementLoop`, with the
    /// least of those named whose chain never ends.
    pub fn of(alloc: Global, exchange: &Exchange, named: &[u64]) -> Result<Chains, BuildError>
        ensures chains { IfOk result (AreChains exchange.now named.now) }
        ensures fault { IfErr result (IsLoopCause exchange.now named.now) }
    {
        let mut sorted = named.to_vec(alloc)?;
        sorted.sort_unstable();
        let mut walk = Walk::new(alloc, exchange.len())?;
        for id in &sorted {
            if !walk.visit(exchange, *id)? {
                return Err(BuildError::Fault(UploadFault::PlacementLoop { id: *id }));
            }
        }
        Ok(Chains { order: walk.order })
    }

    /// The numbers of the placements.
    pub fn ids(&self) -> &[u64]
        ensures same { result.now ≡ self.now }
        ensures few { length self.now ≤ MOST_INSTANCES }
    {
        self.order.as_slice()
    }
}
