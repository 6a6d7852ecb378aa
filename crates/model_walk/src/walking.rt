//! The walk over what is used of a file.
ghost use Rattle.std.specs.Prelude.{◌≡◌, ◌<◌, None, length, map, IfOk, IfSome};
ghost use Rattle.std.specs.Bool.{OnTrue};
ghost use Rattle.ifc_schema.specs.BodyRepresentations.{has_body, bodied_of};
ghost use Rattle.ifc_schema.specs.Flaws.{InstanceFlaw};
ghost use Rattle.ifc_schema.specs.InstanceMarks.{Known, rank_at};
ghost use Rattle.ifc_units.specs.Units.{IsLengthUnit};
ghost use Rattle.placement.specs.Placed.{AllPlaced, frame_in};
ghost use Rattle.spatial_tree.specs.Trees.{IsTree, ListsStoreys};
ghost use Rattle.model_walk.specs.Checked.{IsCleanBy, CleanThere, AllClean, Differ, Alternate};
ghost use Rattle.model_walk.specs.inner.PooledSets.{ArePooled, HasLists, AreReadSets};
ghost use Rattle.model_walk.specs.inner.Stocked.{IsStocked};
ghost use Rattle.model_walk.specs.Walked.{IsWalked};

use crate::distinct_guids::differ_by_hash;
use crate::element_sketches::{Drawn, Stock, Told, drawn_of};
use crate::point_pool::points_in;
use crate::set_pool::{SetRows, keep_set};
use crate::sketched_surfaces::surfaced;
use crate::used_checks::shows_none;
use bim_model::{BuildError, Element, Items, MOST_TRIANGLES, Mode, Point};
use faceset::is_set;
use ifc_elements::Names;
use ifc_instances::Entity;
use ifc_schema::{Mark, Work, bodied_of, instance_flaw, list_elements, mark_used};
use ifc_units::{Scale, length_unit};
use p21_table::{Exchange, InstanceRef};
use placement::{Chains, Frames};
use spatial_tree::{Tree, tree};
use std::alloc::{AllocError, Global};
use std::marker::Model;
use walk_rows::Pool;

/// What a walk found of a file: its elements without their surfaces, and what these are made of. Contracts see it as the elements.
#[derive(Drop)]
pub struct Walked {
    drawn: Drawn,
    stock: Stock,
}

impl Model for Walked {
    ghost use Rattle.std.specs.Prelude.{◌≡◌, List, All, length};
    ghost use Rattle.bim_model.specs.declared.element.Element.{Element};
    ghost use Rattle.model_walk.specs.Sketches.{elements_of, IsSoundStock, IsNearSketch};

    ghost Value = { List Element };

    ghost view = { λ w. elements_of w.stock w.drawn.elements.items w.drawn.sketches };

    ghost invariant = { λ w. IsSoundStock w.stock × All (IsNearSketch w.stock) w.drawn.sketches
        × (length w.drawn.elements.items ≡ length w.drawn.sketches) };
}

/// Whether an instance that is used, and is no list of points nor a set, has the form of its row.
fn is_formed(exchange: &Exchange, bodied: bool, mapped: bool, instance: &InstanceRef<'_>) -> bool
    requires bodied { bodied ≡ has_body exchange.now instance.now }
    ensures { OnTrue result (InstanceFlaw exchange.now mapped instance.now None) }
{
    instance_flaw(exchange, bodied, mapped, instance).is_none()
}

/// Looks at the instance at a place, which is used; whether it is mapped is given. False where it shows a fault, or has more rows than there
/// is room for.
fn look_at(
    alloc: Global,
    exchange: &Exchange,
    bodied: &[bool],
    mapped: bool,
    at: usize,
    scale: Scale,
    mode: Mode,
    points: &Pool<Items<Point>>,
    room: &mut usize,
    sets: &mut Pool<SetRows>,
) -> Result<bool, AllocError>
    requires within { at < length exchange.now }
    requires size { length sets.old ≡ length exchange.now }
    requires bodied { bodied.now ≡ bodied_of exchange.now }
    requires points { ArePooled exchange.now scale mode points.now }
    requires list { HasLists exchange.now (λ k. k ≡ at) points.now }
    ensures clean { IfOk result (λ clean. OnTrue clean (IsCleanBy exchange.now scale mode mapped at)) }
    ensures sets { AreReadSets exchange.now scale mode points.now sets.old
        → IfOk result (λ clean. OnTrue clean (AreReadSets exchange.now scale mode points.now sets.new)) }
    ensures size { IfOk result (λ clean. OnTrue clean (length sets.new ≡ length exchange.now)) }
{
    let instance = exchange.instance(at);
    if !shows_none(exchange, &instance, mapped, scale, mode) {
        return Ok(false);
    }
    if is_set(&instance) {
        return keep_set(alloc, exchange, points, &instance, at, room, sets);
    }
    if Entity::PointList.includes(&instance) {
        return Ok(true);
    }
    Ok(is_formed(exchange, bodied[at], mapped, &instance))
}

/// Looks at the instance at a place, where it is used. False where it shows a fault, or has more rows than there is room for.
fn check_at(
    alloc: Global,
    exchange: &Exchange,
    bodied: &[bool],
    work: &Work,
    at: usize,
    scale: Scale,
    mode: Mode,
    points: &Pool<Items<Point>>,
    room: &mut usize,
    sets: &mut Pool<SetRows>,
) -> Result<bool, AllocError>
    requires known { Known exchange.now work.now }
    requires within { at < length exchange.now }
    requires size { length sets.old ≡ length exchange.now }
    requires bodied { bodied.now ≡ bodied_of exchange.now }
    requires points { ArePooled exchange.now scale mode points.now }
    requires lists { HasLists exchange.now (λ k. 0 < rank_at work.now k) points.now }
    ensures clean { IfOk result (λ clean. OnTrue clean (CleanThere exchange.now scale mode at)) }
    ensures sets { AreReadSets exchange.now scale mode points.now sets.old
        → IfOk result (λ clean. OnTrue clean (AreReadSets exchange.now scale mode points.now sets.new)) }
    ensures size { IfOk result (λ clean. OnTrue clean (length sets.new ≡ length exchange.now)) }
{
    let mark = work.marks[at];
    if !mark.is_seen() {
        return Ok(true);
    }
    let mapped = mark.is_mapped();
    look_at(
        alloc, exchange, bodied, mapped, at, scale, mode, points, room, sets,
    )
}

/// The rows of the sets that are used, where nothing that is used shows a fault and all together have no more rows than a model may have
/// triangles: a set may list a face again and again, so that its rows take much more room than its bytes.
fn sets_in(
    alloc: Global,
    exchange: &Exchange,
    bodied: &[bool],
    work: &Work,
    scale: Scale,
    mode: Mode,
    points: &Pool<Items<Point>>,
) -> Result<Option<Pool<SetRows>>, AllocError>
    requires known { Known exchange.now work.now }
    requires bodied { bodied.now ≡ bodied_of exchange.now }
    requires points { ArePooled exchange.now scale mode points.now }
    requires lists { HasLists exchange.now (λ k. 0 < rank_at work.now k) points.now }
    ensures sets { IfOk result (λ found. IfSome found (AreReadSets exchange.now scale mode points.now)) }
    ensures clean { IfOk result (λ found. IfSome found (λ sets. AllClean exchange.now scale mode)) }
{
    let places = exchange.len();
    let mut room = MOST_TRIANGLES as usize;
    let mut sets = Pool::new(alloc, places)?;
    for at in 0..places {
        let clean = check_at(
            alloc, exchange, bodied, work, at, scale, mode, points, &mut room, &mut sets,
        )?;
        if !clean {
            return Ok(None);
        }
    }
    Ok(Some(sets))
}

/// The identifiers of elements.
fn guids_of(alloc: Global, elements: &[Element]) -> Result<Vec<[u8; 22]>, AllocError>
    ensures { IfOk result (λ guids. guids.items ≡ map (λ (e : Element). e.guid.chars) elements.now) }
{
    let mut guids = Vec::with_capacity(alloc, elements.len())?;
    for element in elements {
        guids.push(element.guid.chars)?;
    }
    Ok(guids)
}

/// Whether no two identifiers that stand side by side are the same.
fn alternate(guids: &[[u8; 22]]) -> bool
    ensures { OnTrue result (Alternate guids.now) }
{
    for at in 1..guids.len() {
        if guids[at - 1] == guids[at] {
            return false;
        }
    }
    true
}

/// Whether no two elements have the same identifier.
fn differ(alloc: Global, elements: &[Element]) -> Result<bool, AllocError>
    ensures { IfOk result (λ differ. OnTrue differ (Differ elements.now)) }
{
    if differ_by_hash(alloc, elements)? {
        return Ok(true);
    }
    let mut guids = guids_of(alloc, elements)?;
    guids.sort_unstable();
    Ok(alternate(&guids))
}

/// The numbers of the storeys and of the placements that are used.
#[derive(Drop)]
struct UsedParts {
    storeys: Vec<u64>,
    placements: Vec<u64>,
}

/// The storeys and placements that are used.
fn used_parts(alloc: Global, exchange: &Exchange, marks: &[Mark]) -> Result<UsedParts, AllocError>
    requires { length marks.now ≡ length exchange.now }
{
    let mut storeys = Vec::new(alloc);
    let mut placements = Vec::new(alloc);
    for at in 0..marks.len() {
        if marks[at].is_seen() {
            let instance = exchange.instance(at);
            match Entity::at(&instance) {
                Some(Entity::Storey) => storeys.push(instance.id())?,
                Some(Entity::Placement) => placements.push(instance.id())?,
                _ => {}
            }
        }
    }
    Ok(UsedParts {
        storeys,
        placements,
    })
}

/// The frames of these placements. None where a chain never ends, or a placement has no frame.
fn frames_of(
    alloc: Global,
    exchange: &Exchange,
    placements: &[u64],
    scale: Scale,
    mode: Mode,
) -> Result<Option<Frames>, AllocError>
    ensures { IfOk result (λ found. IfSome found
        (λ frames. AllPlaced exchange.now scale mode (frame_in frames))) }
{
    match Chains::of(alloc, exchange, placements) {
        Ok(chains) => Frames::of(alloc, exchange, &chains, scale, mode),
        Err(BuildError::Memory) => Err(AllocError),
        Err(BuildError::Fault(_fault)) => Ok(None),
    }
}

/// What is made of the elements, once what is used shows no fault.
fn sketched(
    alloc: Global,
    exchange: &Exchange,
    work: &Work,
    bodied: &[bool],
    spatial: &Tree,
    scale: Scale,
    mode: Mode,
    stock: Stock,
) -> Result<Option<Walked>, AllocError>
    requires known { Known exchange.now work.now }
    requires bodied { bodied.now ≡ bodied_of exchange.now }
    requires storeys { ListsStoreys exchange.now spatial.now }
    requires unit { IsLengthUnit exchange.now scale }
    requires tree { IsTree exchange.now }
    requires stock { IsStocked exchange.now scale mode stock }
    requires clean { AllClean exchange.now scale mode }
    ensures { IfOk result (λ found. IfSome found (IsWalked exchange.now mode)) }
{
    let mut stock = stock;
    let ids = list_elements(alloc, exchange, bodied, work)?;
    let parts = used_parts(alloc, exchange, &work.marks)?;
    let Some(frames) = frames_of(alloc, exchange, &parts.placements, scale, mode)? else {
        return Ok(None);
    };
    let names = Names::of(alloc, exchange, &parts.storeys)?;
    let told = Told {
        exchange,
        tree: spatial,
        names: &names,
        frames: &frames,
        scale,
        mode,
    };
    let Some(drawn) = drawn_of(alloc, &told, &ids, &mut stock)? else {
        return Ok(None);
    };
    if !differ(alloc, &drawn.elements)? {
        return Ok(None);
    }
    Ok(Some(Walked { drawn, stock }))
}

/// The pools of a file whose instances are marked, where nothing that is used shows a fault.
fn stocked(
    alloc: Global,
    exchange: &Exchange,
    work: &Work,
    bodied: &[bool],
    scale: Scale,
    mode: Mode,
) -> Result<Option<Stock>, AllocError>
    requires known { Known exchange.now work.now }
    requires bodied { bodied.now ≡ bodied_of exchange.now }
    ensures stock { IfOk result (λ found. IfSome found (IsStocked exchange.now scale mode)) }
    ensures clean { IfOk result (λ found. IfSome found (λ stock. AllClean exchange.now scale mode)) }
{
    let Some(points) = points_in(alloc, exchange, work, scale, mode)? else {
        return Ok(None);
    };
    let Some(sets) = sets_in(alloc, exchange, bodied, work, scale, mode, &points)? else {
        return Ok(None);
    };
    let shapes = Pool::new(alloc, exchange.len())?;
    Ok(Some(Stock {
        points,
        sets,
        pieces: Vec::new(alloc),
        shapes,
    }))
}

fn tree_of(alloc: Global, exchange: &Exchange) -> Result<Option<Tree>, AllocError>
    ensures storeys { IfOk result (λ found. IfSome found (ListsStoreys exchange.now)) }
    ensures tree { IfOk result (λ found. IfSome found (λ tree. IsTree exchange.now)) }
{
    match tree(alloc, exchange) {
        Ok(tree) => Ok(Some(tree)),
        Err(BuildError::Memory) => Err(AllocError),
        Err(BuildError::Fault(_fault)) => Ok(None),
    }
}

/// Walks over what is used of a file, each list of points and each set read once. What it gives are the elements of a file without a fault.
/// None of any other file.
pub fn walk(alloc: Global, exchange: &Exchange, mode: Mode) -> Result<Option<Walked>, AllocError>
    ensures { IfOk result (λ found. IfSome found (IsWalked exchange.now mode)) }
{
    let Ok(scale) = length_unit(exchange) else {
        return Ok(None);
    };
    let Some(spatial) = tree_of(alloc, exchange)? else {
        return Ok(None);
    };
    let bodied = bodied_of(alloc, exchange)?;
    let work = mark_used(alloc, exchange, &bodied)?;
    let Some(stock) = stocked(alloc, exchange, &work, &bodied, scale, mode)? else {
        return Ok(None);
    };
    sketched(
        alloc, exchange, &work, &bodied, &spatial, scale, mode, stock,
    )
}

impl Walked {
    ghost use Rattle.std.specs.Prelude.{◌≡◌, IfOk};

    /// The elements, each surface made in its place.
    pub fn into_elements(self, alloc: Global) -> Result<Vec<Element>, AllocError>
        ensures { IfOk result (λ made. made.items ≡ self) }
    {
        let Walked { drawn, stock } = self;
        surfaced(alloc, &stock, drawn)
    }
}
