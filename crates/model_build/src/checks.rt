//! The checks of a file, one for each kind of fault.
ghost use Rattle.std.specs.Prelude.{ℕ, IfOk, IfErr, MatchOption, sum_by, ◌≤◌};
ghost use Rattle.ifc_schema.specs.Surveys.{Surveyed, used_ids, element_ids};
ghost use Rattle.model_build.specs.StageFaults.{LeastFault};
ghost use Rattle.model_build.specs.DuplicateGuids.{GuidFault, NoneRepeats};
ghost use Rattle.model_build.specs.Stages.{TwiceStage, LoopStage, ObliqueStage, ItemStage, IndexStage, CornersStage, StuckStage, TrianglesStage};
ghost use Rattle.ifc_elements.specs.Items.{count_of};
ghost use Rattle.model_build.specs.Triangles.{most_triangles};
ghost use Rattle.model_build.specs.Unsupported.{IsUnsupported};
ghost use Rattle.model_build.specs.Faces.{IsStuckFace};
ghost use Rattle.model_build.specs.FaultyInstances.{NoneOf, IsBadSet, IsOblique};
ghost use Rattle.model_build.specs.NamedPlacements.{IsNamed};
ghost use Rattle.ifc_elements.specs.PointTables.{IsTable};
ghost use Rattle.ifc_elements.specs.Shapes.{AreShapes};
ghost use Rattle.model_build.specs.inner.Outcomes.{IsErrorOf, HasChains, HaveFewCorners};

use crate::counts::count_triangles;
use crate::full_faces::some_has_many_corners;
use crate::guids::first_repeated;
use crate::least::{first_bad_index, first_oblique};
use crate::mapping::least_mapping;
use crate::named_placements::placements;
use crate::uncut_faces::{first_stuck, some_unbridged};
use crate::unsupported::{least_in_bodies, least_in_mapped, lesser};
use bim_model::{BuildError, Items, Many, Mode, Point, UploadFault};
use ifc_elements::Shapes;
use ifc_schema::Survey;
use ifc_units::Scale;
use p21_table::Exchange;
use placement::Chains;
use std::alloc::{AllocError, Global};

/// The fault of elements of which two have the same global identifier.
pub fn guid_fault(
    alloc: Global,
    exchange: &Exchange,
    survey: &Survey,
) -> Result<Option<UploadFault>, AllocError>
    requires { Surveyed exchange.now survey.now }
    ensures { IfOk result (λ found. MatchOption found (NoneRepeats exchange.now (element_ids survey.now))
        (TwiceStage exchange.now)) }
{
    match first_repeated(alloc, exchange, survey.elements())? {
        Some(id) => Ok(Some(UploadFault::DoubleGuid { id })),
        None => Ok(None),
    }
}

/// The chains of the placements that the elements name. A fault is that of one whose chain never ends.
pub fn chains_of(alloc: Global, exchange: &Exchange, survey: &Survey) -> Result<Chains, BuildError>
    requires { Surveyed exchange.now survey.now }
    ensures chains { IfOk result (HasChains exchange.now (element_ids survey.now)) }
    ensures fault { IfErr result (IsErrorOf (LoopStage exchange.now)) }
{
    let named = placements(alloc, exchange, survey.elements())?;
    Chains::of(alloc, exchange, &named)
}

/// The fault of an axis placement or an operator that gives no axes along the grid's.
pub fn oblique_fault(exchange: &Exchange, survey: &Survey) -> Option<UploadFault>
    requires { Surveyed exchange.now survey.now }
    ensures { MatchOption result (NoneOf (used_ids survey.now) (IsOblique exchange.now))
        (ObliqueStage exchange.now) }
{
    match first_oblique(exchange, survey.used()) {
        Some(id) => Some(UploadFault::Oblique { id }),
        None => None,
    }
}

/// The fault of an item that isn't read, or is mapped in a way that isn't.
pub fn item_fault(
    exchange: &Exchange,
    survey: &Survey,
    scale: Scale,
    mode: Mode,
) -> Option<UploadFault>
    requires { Surveyed exchange.now survey.now }
    ensures { MatchOption result ((id : ℕ) → IsUnsupported exchange.now scale mode id → ⊥)
        (ItemStage exchange.now mode scale) }
{
    let in_bodies = least_in_bodies(exchange, survey.used());
    let in_mapped = least_in_mapped(exchange, survey.mapped());
    let mapping = least_mapping(exchange, survey.used(), scale, mode);
    match lesser(in_bodies, lesser(in_mapped, mapping)) {
        Some(id) => Some(UploadFault::UnsupportedItem { id }),
        None => None,
    }
}

/// The fault of a set with an index that counts nothing.
pub fn index_fault(
    alloc: Global,
    exchange: &Exchange,
    survey: &Survey,
) -> Result<Option<UploadFault>, AllocError>
    requires { Surveyed exchange.now survey.now }
    ensures { IfOk result (λ found. MatchOption found (NoneOf (used_ids survey.now) (IsBadSet exchange.now))
        (IndexStage exchange.now)) }
{
    match first_bad_index(alloc, exchange, survey.used())? {
        Some(id) => Ok(Some(UploadFault::BadIndex { id })),
        None => Ok(None),
    }
}

/// The fault of a face whose loops have more than a thousand corners together.
pub fn corners_fault(exchange: &Exchange, survey: &Survey) -> Option<UploadFault>
    requires { Surveyed exchange.now survey.now }
    ensures { MatchOption result (HaveFewCorners exchange.now (used_ids survey.now))
        (CornersStage exchange.now) }
{
    if some_has_many_corners(exchange, survey.used()) {
        Some(UploadFault::TooMany {
            what: Many::Corners,
        })
    } else {
        None
    }
}

/// The fault of a face that can't be cut, by whether its loops can be joined.
pub fn stuck_fault(
    alloc: Global,
    exchange: &Exchange,
    survey: &Survey,
    table: &[Option<Items<Point>>],
    scale: Scale,
    mode: Mode,
) -> Result<Option<UploadFault>, AllocError>
    requires surveyed { Surveyed exchange.now survey.now }
    requires table { IsTable exchange.now scale mode table.now }
    ensures { IfOk result (λ found. MatchOption found ((id : ℕ) → IsStuckFace exchange.now scale mode id → ⊥)
        (StuckStage exchange.now mode scale)) }
{
    let used = survey.used();
    let Some(id) = first_stuck(alloc, exchange, table, used, scale, mode)? else {
        return Ok(None);
    };
    let apart = some_unbridged(alloc, exchange, table, used, id, scale, mode)?;
    Ok(Some(if apart {
        UploadFault::VoidedFace { id }
    } else {
        UploadFault::FaceStuck { id }
    }))
}

/// The fault of elements with more than a million triangles together.
pub fn triangles_fault(
    alloc: Global,
    exchange: &Exchange,
    survey: &Survey,
    shapes: &Shapes,
) -> Result<Option<UploadFault>, AllocError>
    requires surveyed { Surveyed exchange.now survey.now }
    requires shapes { AreShapes exchange.now shapes.now }
    ensures { IfOk result (λ found. MatchOption found
        (sum_by (count_of exchange.now) (element_ids survey.now) ≤ most_triangles)
        (TrianglesStage exchange.now)) }
{
    match count_triangles(alloc, exchange, shapes, survey.elements())? {
        Some(_count) => Ok(None),
        None => Ok(Some(UploadFault::TooMany {
            what: Many::Triangles,
        })),
    }
}
