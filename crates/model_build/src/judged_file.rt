//! A file whose faults are sought.

use bim_model::Mode;
use ifc_schema::Survey;
use ifc_units::Scale;
use p21_table::Exchange;
use placement::Chains;
use spatial_tree::Tree;

/// A file: its instances, how its lengths are read, and what was read of all instances once.
#[derive(Drop)]
pub struct File {
    /// The instances.
    pub exchange: Exchange,
    /// Which of them are used, each with its form.
    pub survey: Survey,
    /// The unit of lengths.
    pub scale: Scale,
    /// What becomes of lengths between two grid numbers.
    pub mode: Mode,
    /// The storeys that objects stand in.
    pub tree: Tree,
    /// The placements that elements name, each after the one that it stands in.
    pub chains: Chains,
}
