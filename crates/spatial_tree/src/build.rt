//! The spatial tree of a file.
ghost use Rattle.std.specs.Prelude.{◌≡◌, ◌<◌, length, IfOk, IfErr, slice_index};
ghost use Rattle.std.specs.List.Sorted.{IsNonDecreasing};
ghost use Rattle.spatial_tree.specs.Trees.{IsTree, IsRefused, ListsStoreys, ListsStoreyIds};
ghost use Rattle.spatial_tree.specs.inner.TreeFaults.{IsFirstFault};

use crate::mark::{Mark, mark_at, survey};
use crate::relations::links_of;
use crate::step::{Step, table_of};
use crate::storey_tree::{Tree, placed_by};
use bim_model::{BuildError, UploadFault};
use ifc_instances::Entity;
use p21_table::{Exchange, Instances};
use std::alloc::{AllocError, Global};

/// The storeys, by rising number.
fn storeys_of(alloc: Global, instances: &Instances<'_>) -> Result<Vec<u64>, AllocError>
    ensures all { IfOk result (λ ids. ListsStoreyIds instances.now ids.items) }
    ensures rises { IfOk result (λ ids. IsNonDecreasing ids.items) }
{
    let mut storeys = Vec::new(alloc);
    for instance in instances.iter() {
        if Entity::Storey.includes(&instance) {
            storeys.push(instance.id())?;
        }
    }
    storeys.sort()?;
    Ok(storeys)
}

/// The first place at which there is a fault.
fn first_fault(steps: &[Step], marks: &[Mark]) -> Option<usize>
    requires { length marks.now ≡ length steps.now }
    ensures { IsFirstFault steps.now marks.now result }
{
    for at in 0..steps.len() {
        if steps[at].torn || matches!(mark_at(marks, at), Mark::Looped) {
            return Some(at);
        }
    }
    None
}

fn fault_at(objects: &[u64], at: usize) -> BuildError
    requires { at < length objects.now }
    ensures { result ≡ BuildError.Fault (UploadFault.TreeFault (slice_index objects.now at)) }
{
    BuildError::Fault(UploadFault::TreeFault { id: objects[at] })
}

/// Reads which storey each object of a file is in: the first one on its way up, by the container of an object (IfcRelContainedInSpatialStructure)
/// where it has one, else by its whole (IfcRelAggregates).
///
/// A file for which the relations make no tree is refused with `UploadFault::TreeFault`. It names the least object that has two different
/// containers or two different wholes, or that comes again on its own way up. The same container or whole named twice is no fault.
pub fn tree(alloc: Global, exchange: &Exchange) -> Result<Tree, BuildError>
    ensures storeys { IfOk result (λ tree. ListsStoreys exchange.now tree) }
    ensures tree { IfOk result (λ tree. IsTree exchange.now) }
    ensures refused { IfErr result (λ error. IsRefused exchange.now error) }
{
    let containers = links_of(alloc, exchange, Entity::Containment, 4, 5)?;
    let wholes = links_of(alloc, exchange, Entity::Aggregates, 5, 4)?;
    let storeys = storeys_of(alloc, &exchange.iter())?;
    let table = table_of(
        alloc,
        containers.as_slice(),
        wholes.as_slice(),
        storeys.as_slice(),
    )?;
    let marks = survey(alloc, table.steps.as_slice())?;
    if let Some(at) = first_fault(table.steps.as_slice(), marks.as_slice()) {
        return Err(fault_at(table.objects.as_slice(), at));
    }
    let placed = placed_by(alloc, table.objects.as_slice(), marks.as_slice())?;
    Ok(Tree::new(placed))
}
