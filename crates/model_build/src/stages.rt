//! The model of a file, or its first fault: the checks in their order.
ghost use Rattle.std.specs.Prelude.{◌≡◌, IfOk, IfErr};
ghost use Rattle.ifc_schema.specs.Surveys.{used_ids, element_ids};
ghost use Rattle.placement.specs.Placed.{AreFrames, frame_in};
ghost use Rattle.ifc_elements.specs.StoreyNames.{AreNames};
ghost use Rattle.ifc_elements.specs.PointTables.{IsTable};
ghost use Rattle.ifc_elements.specs.Shapes.{AreShapes};
ghost use Rattle.ifc_elements.specs.Sound.{AreSets};
ghost use Rattle.model_build.specs.StageFaults.{IsClear};
ghost use Rattle.model_build.specs.Stages.{TrianglesStage, FileFault};
ghost use Rattle.model_build.specs.inner.Outcomes.{IsErrorOf, IsOpened, IsSupported, IsMeasured, IsCut, AreReady};
ghost use Rattle.model_build.specs.Profile.{IsModelOf};

use crate::checks::{
    chains_of, corners_fault, guid_fault, index_fault, item_fault, oblique_fault, stuck_fault,
    triangles_fault,
};
use crate::judged_file::File;
use crate::length_faults::first_length_fault;
use crate::order::in_order;
use bim_model::{BuildError, Items, Mode, Model, Point, UploadFault};
use ifc_elements::{ElementLack, Names, Sets, Shapes, elements_of, table_of};
use ifc_schema::survey;
use ifc_units::length_unit;
use p21_table::Exchange;
use placement::Frames;
use spatial_tree::tree;
use std::alloc::{AllocError, Global};

/// The file of instances: their forms, the unit, the tree, the global identifiers and the chains of placements are checked.
fn opened(alloc: Global, exchange: Exchange, mode: Mode) -> Result<File, BuildError>
    ensures same { IfOk result (λ file. (file.exchange ≡ exchange) × (file.mode ≡ mode)) }
    ensures opened { IfOk result (λ file. IsOpened file) }
    ensures fault { IfErr result (IsErrorOf (FileFault exchange mode)) }
{
    let survey = survey(alloc, &exchange)?;
    let scale = length_unit(&exchange)?;
    let tree = tree(alloc, &exchange)?;
    if let Some(fault) = guid_fault(alloc, &exchange, &survey)? {
        return Err(BuildError::Fault(fault));
    }
    let chains = chains_of(alloc, &exchange, &survey)?;
    Ok(File {
        exchange,
        survey,
        scale,
        mode,
        tree,
        chains,
    })
}

/// The checks of what the profile supports: axes, items and indexes.
fn check_support(alloc: Global, file: &File) -> Result<(), BuildError>
    requires { IsOpened file.now }
    ensures supported { IfOk result (λ done. IsSupported file.now) }
    ensures fault { IfErr result (IsErrorOf (FileFault file.now.exchange file.now.mode)) }
{
    if let Some(fault) = oblique_fault(&file.exchange, &file.survey) {
        return Err(BuildError::Fault(fault));
    }
    if let Some(fault) = item_fault(&file.exchange, &file.survey, file.scale, file.mode) {
        return Err(BuildError::Fault(fault));
    }
    if let Some(fault) = index_fault(alloc, &file.exchange, &file.survey)? {
        return Err(BuildError::Fault(fault));
    }
    Ok(())
}

/// The table of the points of a file. Its lengths and the corners of its faces are checked.
fn measured(alloc: Global, file: &File) -> Result<Vec<Option<Items<Point>>>, BuildError>
    requires { IsSupported file.now }
    ensures table { IfOk result
        (λ table. IsTable file.now.exchange file.now.scale file.now.mode table.items) }
    ensures measured { IfOk result (λ table. IsMeasured file.now) }
    ensures fault { IfErr result (IsErrorOf (FileFault file.now.exchange file.now.mode)) }
{
    let exchange = &file.exchange;
    let table = table_of(alloc, &exchange.iter(), file.scale, file.mode)?;
    let used = file.survey.used();
    if let Some(fault) = first_length_fault(exchange, &table, used, file.scale, file.mode) {
        return Err(BuildError::Fault(fault));
    }
    if let Some(fault) = corners_fault(exchange, &file.survey) {
        return Err(BuildError::Fault(fault));
    }
    Ok(table)
}

/// The fault of a file with too many triangles. That of a face that can't be cut stands before it.
fn fault_of_many(
    alloc: Global,
    file: &File,
    table: &[Option<Items<Point>>],
    many: UploadFault,
) -> Result<UploadFault, AllocError>
    requires measured { IsMeasured file.now }
    requires table { IsTable file.now.exchange file.now.scale file.now.mode table.now }
    requires many { TrianglesStage file.now.exchange many }
    ensures { IfOk result (FileFault file.now.exchange file.now.mode) }
{
    match stuck_fault(
        alloc,
        &file.exchange,
        &file.survey,
        table,
        file.scale,
        file.mode,
    )? {
        Some(fault) => Ok(fault),
        None => Ok(many),
    }
}

/// The triangles of the sets that are used, or the fault of a face that can't be cut. The table of points ends here.
fn sets_of(alloc: Global, file: &File, table: Vec<Option<Items<Point>>>) -> Result<Sets, BuildError>
    requires measured { IsMeasured file.now }
    requires table { IsTable file.now.exchange file.now.scale file.now.mode table.items }
    ensures sets { IfOk result
        (AreSets file.now.exchange file.now.scale file.now.mode (used_ids file.now.survey)) }
    ensures fault { IfErr result (IsErrorOf (FileFault file.now.exchange file.now.mode)) }
{
    let used = file.survey.used();
    match Sets::of(alloc, &file.exchange, used, &table, file.scale, file.mode)? {
        Some(sets) => Ok(sets),
        None => match stuck_fault(
            alloc,
            &file.exchange,
            &file.survey,
            &table,
            file.scale,
            file.mode,
        )? {
            Some(fault) => Err(BuildError::Fault(fault)),
            None => unreachable!(),
        },
    }
}

/// The triangles of the sets that are used; the faces and the number of triangles are checked. Where there are too many, none is made.
fn cut(
    alloc: Global,
    file: &File,
    shapes: &Shapes,
    table: Vec<Option<Items<Point>>>,
) -> Result<Sets, BuildError>
    requires measured { IsMeasured file.now }
    requires shapes { AreShapes file.now.exchange shapes.now }
    requires table { IsTable file.now.exchange file.now.scale file.now.mode table.items }
    ensures cut { IfOk result (IsCut file.now) }
    ensures fault { IfErr result (IsErrorOf (FileFault file.now.exchange file.now.mode)) }
{
    let Some(many) = triangles_fault(alloc, &file.exchange, &file.survey, shapes)? else {
        return sets_of(alloc, file, table);
    };
    let fault = fault_of_many(alloc, file, &table, many)?;
    Err(BuildError::Fault(fault))
}

/// The model of the elements of a file whose sets are cut. Their corners in the building are the last check.
fn model_of(
    alloc: Global,
    file: &File,
    names: &Names,
    frames: &Frames,
    shapes: &Shapes,
    sets: &Sets,
) -> Result<Model, BuildError>
    requires measured { IsMeasured file.now }
    requires names { AreNames file.now.exchange names.now }
    requires frames { AreFrames file.now.exchange file.now.scale file.now.mode file.now.chains
        (frame_in frames.now) }
    requires shapes { AreShapes file.now.exchange shapes.now }
    requires cut { IsCut file.now sets.now }
    requires ready { AreReady file.now.exchange file.now.scale file.now.mode file.now.chains
        (used_ids file.now.survey) (element_ids file.now.survey) }
    ensures model { IfOk result (λ model. IsClear (FileFault file.now.exchange file.now.mode)
        × IsModelOf file.now.exchange file.now.mode model) }
    ensures fault { IfErr result (IsErrorOf (FileFault file.now.exchange file.now.mode)) }
{
    match elements_of(
        alloc,
        &file.exchange,
        &file.tree,
        names,
        frames,
        shapes,
        sets,
        file.survey.elements(),
        file.scale,
        file.mode,
    )? {
        Ok(elements) => Ok(Model::of(alloc, in_order(elements))?),
        Err(lacking) => match lacking.lack {
            ElementLack::Beyond => Err(BuildError::Fault(UploadFault::TooFar { id: lacking.id })),
            ElementLack::Unready => unreachable!(),
        },
    }
}

/// The model of a file whose sets are cut: its placements are composed, and the names of its storeys read.
fn placed(alloc: Global, file: &File, shapes: &Shapes, sets: &Sets) -> Result<Model, BuildError>
    requires measured { IsMeasured file.now }
    requires shapes { AreShapes file.now.exchange shapes.now }
    requires cut { IsCut file.now sets.now }
    ensures model { IfOk result (λ model. IsClear (FileFault file.now.exchange file.now.mode)
        × IsModelOf file.now.exchange file.now.mode model) }
    ensures fault { IfErr result (IsErrorOf (FileFault file.now.exchange file.now.mode)) }
{
    let Some(frames) = Frames::of(alloc, &file.exchange, &file.chains, file.scale, file.mode)?
    else {
        unreachable!()
    };
    let names = Names::of(alloc, &file.exchange, file.survey.used())?;
    model_of(alloc, file, &names, &frames, shapes, sets)
}

/// The model of a file, or the first fault of the checks that are left.
fn checked(alloc: Global, file: &File) -> Result<Model, BuildError>
    requires { IsOpened file.now }
    ensures model { IfOk result (λ model. IsClear (FileFault file.now.exchange file.now.mode)
        × IsModelOf file.now.exchange file.now.mode model) }
    ensures fault { IfErr result (IsErrorOf (FileFault file.now.exchange file.now.mode)) }
{
    check_support(alloc, file)?;
    let table = measured(alloc, file)?;
    let shapes = Shapes::of(alloc, &file.exchange, file.survey.used())?;
    let sets = cut(alloc, file, &shapes, table)?;
    placed(alloc, file, &shapes, &sets)
}

/// The model of the instances of a file, or their first fault, by all checks in their order.
pub fn build_file(alloc: Global, exchange: Exchange, mode: Mode) -> Result<Model, BuildError>
    ensures model { IfOk result (λ model. IsClear (FileFault exchange mode)
        × IsModelOf exchange mode model) }
    ensures fault { IfErr result (IsErrorOf (FileFault exchange mode)) }
{
    match opened(alloc, exchange, mode) {
        Ok(file) => checked(alloc, &file),
        Err(error) => Err(error),
    }
}
