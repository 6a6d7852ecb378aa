//! The storeys that elements stand in (IFC4 ADD2 TC1, IfcBuildingStorey).
ghost use Rattle.std.specs.Prelude.{IfOk};
ghost use Rattle.spatial_tree.specs.Trees.{ListsStoreys};
ghost use Rattle.ifc_elements.specs.StoreyNames.{AreNames};
ghost use Rattle.ifc_elements.specs.Storeys.{IsStoreyName};

use crate::storey_names::Names;
use crate::texts::name_of;
use bim_model::{Duplicate, Text};
use p21_table::Exchange;
use spatial_tree::Tree;
use std::alloc::{AllocError, Global};

/// The name of the storey that an object stands in; none where it stands in none.
pub fn storey_name(
    alloc: Global,
    exchange: &Exchange,
    tree: &Tree,
    names: &Names,
    id: u64,
) -> Result<Option<Text>, AllocError>
    requires storeys { ListsStoreys exchange.now tree.now }
    requires names { AreNames exchange.now names.now }
    ensures { IfOk result (λ name. IsStoreyName exchange.now id name) }
{
    let Some(storey) = tree.storey_of(id) else {
        return Ok(None);
    };
    if let Some(name) = names.get(storey) {
        return Ok(Some(name.copy(alloc)?));
    }
    match exchange.look(storey) {
        Some(instance) => Ok(Some(name_of(alloc, &instance)?)),
        None => Ok(None),
    }
}
