//! What is known of each element once its file is read: all but its surface, and of what that will be made.
ghost use Rattle.std.specs.Prelude.{◌≡◌, ℕ, ◌<◌, List, length, None, IfOk, IfSome};
ghost use Rattle.std.specs.Bool.{OnTrue};
ghost use Rattle.std.specs.List.{HoldsAt};
ghost use Rattle.bim_model.specs.declared.upload.Mode.{Mode};
ghost use Rattle.bim_model.specs.Guids.{IsGuid};
ghost use Rattle.p21_values.specs.declared.value.Instance.{Instance};
ghost use Rattle.ifc_units.specs.declared.scale.Scale.{Scale};
ghost use Rattle.placement.specs.Placed.{AllPlaced, frame_in};
ghost use Rattle.spatial_tree.specs.Trees.{ListsStoreys};
ghost use Rattle.ifc_elements.specs.Framed.{Framed};
ghost use Rattle.ifc_elements.specs.Items.{body_items};
ghost use Rattle.ifc_elements.specs.StoreyNames.{AreNames};
ghost use Rattle.ifc_elements.specs.Surfaces.{IsPlacedBy};
ghost use Rattle.ifc_elements.specs.ElementTexts.{guid_of};
ghost use Rattle.model_walk.specs.inner.Stocked.{shape_items, ShowsItems, IsStocked, Grows, IsPlacing, AddsBare, Draws, AreDrawn};
ghost use Rattle.walk_rows.specs.Pools.{pooled};

use crate::class_texts::LastClass;
use crate::set_pool::SetRows;
use crate::shape_pieces::{Piece, Range, add_shape};
use crate::sketch_list::{Sketch, Sketches};
use crate::sketched_surfaces::are_near;
use bim_model::{Element, Guid, Items, MOST_TRIANGLES, Mode, Point};
use ifc_elements::{Names, guid_of, name_of, storey_name};
use ifc_units::Scale;
use p21_table::{Exchange, InstanceRef};
use placement::{Frame, Frames};
use spatial_tree::Tree;
use std::alloc::{AllocError, Global};
use walk_rows::Pool;

/// Elements without their surfaces, and the sketch of each, in the same order.
#[derive(Drop)]
pub struct Drawn {
    pub elements: Vec<Element>,
    pub sketches: Sketches,
    pub classes: LastClass,
}

/// What elements are made of.
#[derive(Drop)]
pub struct Stock {
    pub points: Pool<Items<Point>>,
    pub sets: Pool<SetRows>,
    pub pieces: Vec<Piece>,
    pub shapes: Pool<Range>,
}

/// What is read of a file once, for all elements.
#[derive(Drop)]
pub struct Told<'a> {
    pub exchange: &'a Exchange,
    pub tree: &'a Tree,
    pub names: &'a Names,
    pub frames: &'a Frames,
    pub scale: Scale,
    pub mode: Mode,
}

/// How an element is placed: by a frame or not at all.
#[derive(Clone, Copy)]
enum Placing {
    Free,
    By(Frame),
    Unknown,
}

/// How an element is placed; unknown where it names a placement that has no frame.
fn placing_of(frames: &Frames, instance: &InstanceRef<'_>) -> Placing
    ensures { (world : List Instance) (scale : Scale) (mode : Mode)
        → AllPlaced world scale mode (frame_in frames.now)
        → IsPlacing world scale mode instance.now result }
{
    let Some(value) = instance.attribute(5) else {
        return Placing::Unknown;
    };
    if value.is_absent() {
        return Placing::Free;
    }
    let Some(id) = value.reference() else {
        return Placing::Unknown;
    };
    match frames.get(id) {
        Some(frame) => Placing::By(frame),
        None => Placing::Unknown,
    }
}

/// Adds the pieces of the shape at a place. None where it shows a fault or no triangle.
fn add_pieces(told: &Told<'_>, at: usize, stock: &mut Stock) -> Result<Option<Range>, AllocError>
    requires within { at < length told.now.exchange.now }
    requires stocked { IsStocked told.now.exchange.now told.now.scale told.now.mode stock.old }
    ensures stocked { IfOk result (λ found. IfSome found (λ range.
        IsStocked told.now.exchange.now told.now.scale told.now.mode stock.new)) }
    ensures grows { IfOk result (λ found. IfSome found (λ range. Grows stock.old stock.new)) }
    ensures shows { IfOk result (λ found. IfSome found (λ range. HoldsAt (λ shape.
        ShowsItems told.now.exchange.now told.now.scale told.now.mode stock.new
        (shape_items told.now.exchange.now shape) range) told.now.exchange.now at)) }
{
    let from = stock.pieces.len();
    let shape = told.exchange.instance(at);
    let Some(count) = add_shape(
        told.exchange,
        &stock.sets,
        &shape,
        told.scale,
        told.mode,
        &mut stock.pieces,
    )?
    else {
        return Ok(None);
    };
    let range = Range {
        from,
        to: stock.pieces.len(),
        count,
    };
    if count == 0 || range.to > MOST_TRIANGLES as usize {
        return Ok(None);
    }
    stock.shapes.put(at, range)?;
    Ok(Some(range))
}

/// What is kept of the shape at a place.
fn kept_range(stock: &Stock, at: usize) -> Option<Range>
    ensures { result ≡ pooled stock.now.shapes at }
{
    stock.shapes.get(at).copied()
}

/// The pieces of the shape of an element, found once for each shape.
fn range_of(
    told: &Told<'_>,
    instance: &InstanceRef<'_>,
    stock: &mut Stock,
) -> Result<Option<Range>, AllocError>
    requires { IsStocked told.now.exchange.now told.now.scale told.now.mode stock.old }
    ensures stocked { IfOk result (λ found. IfSome found (λ range.
        IsStocked told.now.exchange.now told.now.scale told.now.mode stock.new)) }
    ensures grows { IfOk result (λ found. IfSome found (λ range. Grows stock.old stock.new)) }
    ensures shows { IfOk result (λ found. IfSome found
        (ShowsItems told.now.exchange.now told.now.scale told.now.mode stock.new
        (body_items told.now.exchange.now instance.now))) }
{
    let Some(id) = instance.reference_at(6) else {
        return Ok(None);
    };
    let Some(at) = told.exchange.place_of(id) else {
        return Ok(None);
    };
    if let Some(range) = kept_range(stock, at) {
        return Ok(Some(range));
    }
    add_pieces(told, at, stock)
}

/// Adds the element without its surface. False where it has no class.
#[inline(always)]
fn add_bare(
    alloc: Global,
    told: &Told<'_>,
    instance: &InstanceRef<'_>,
    guid: Guid,
    classes: &mut LastClass,
    elements: &mut Vec<Element>,
) -> Result<bool, AllocError>
    requires storeys { ListsStoreys told.now.exchange.now told.now.tree.now }
    requires names { AreNames told.now.exchange.now told.now.names.now }
    requires guid { guid_of instance.now ≡ Some guid.chars }
    requires is_guid { IsGuid guid.chars }
    ensures { IfOk result (λ added. OnTrue added
        (AddsBare told.now.exchange.now instance.now elements.old.items elements.new.items)) }
{
    let Some(class) = classes.class_of(alloc, instance)? else {
        return Ok(false);
    };
    elements.push(Element {
        guid,
        class,
        name: name_of(alloc, instance)?,
        storey: storey_name(alloc, told.exchange, told.tree, told.names, instance.id())?,
        triangles: Items::new(alloc),
    })?;
    Ok(true)
}

/// Adds the element that is placed so, and its sketch, where its corners are in reach: how many triangles it has.
#[inline(always)]
fn draw_by(
    alloc: Global,
    told: &Told<'_>,
    instance: &InstanceRef<'_>,
    frame: Option<Frame>,
    stock: &mut Stock,
    drawn: &mut Drawn,
) -> Result<Option<u64>, AllocError>
    requires storeys { ListsStoreys told.now.exchange.now told.now.tree.now }
    requires names { AreNames told.now.exchange.now told.now.names.now }
    requires placed { IsPlacedBy told.now.exchange.now told.now.scale told.now.mode instance.now frame }
    requires framed { IfSome frame Framed }
    requires stocked { IsStocked told.now.exchange.now told.now.scale told.now.mode stock.old }
    ensures stocked { IfOk result (λ found. IfSome found (λ count.
        IsStocked told.now.exchange.now told.now.scale told.now.mode stock.new)) }
    ensures grows { IfOk result (λ found. IfSome found (λ count. Grows stock.old stock.new)) }
    ensures draws { IfOk result (λ found. IfSome found
        (Draws told.now.exchange.now told.now.scale told.now.mode stock.new instance.now drawn.old drawn.new)) }
{
    let Some(guid) = guid_of(alloc, instance)? else {
        return Ok(None);
    };
    let Some(range) = range_of(told, instance, stock)? else {
        return Ok(None);
    };
    if !are_near(stock, range, frame) {
        return Ok(None);
    }
    if !add_bare(
        alloc,
        told,
        instance,
        guid,
        &mut drawn.classes,
        &mut drawn.elements,
    )? {
        return Ok(None);
    }
    drawn.sketches.push(Sketch { frame, range })?;
    Ok(Some(range.count))
}

/// Adds an element and its sketch. None where it shows a fault.
fn draw(
    alloc: Global,
    told: &Told<'_>,
    instance: &InstanceRef<'_>,
    stock: &mut Stock,
    drawn: &mut Drawn,
) -> Result<Option<u64>, AllocError>
    requires storeys { ListsStoreys told.now.exchange.now told.now.tree.now }
    requires names { AreNames told.now.exchange.now told.now.names.now }
    requires placed { AllPlaced told.now.exchange.now told.now.scale told.now.mode
        (frame_in told.now.frames.now) }
    requires stocked { IsStocked told.now.exchange.now told.now.scale told.now.mode stock.old }
    ensures stocked { IfOk result (λ found. IfSome found (λ count.
        IsStocked told.now.exchange.now told.now.scale told.now.mode stock.new)) }
    ensures grows { IfOk result (λ found. IfSome found (λ count. Grows stock.old stock.new)) }
    ensures draws { IfOk result (λ found. IfSome found
        (Draws told.now.exchange.now told.now.scale told.now.mode stock.new instance.now drawn.old drawn.new)) }
{
    match placing_of(told.frames, instance) {
        Placing::Free => draw_by(alloc, told, instance, None, stock, drawn),
        Placing::By(frame) => draw_by(alloc, told, instance, Some(frame), stock, drawn),
        Placing::Unknown => Ok(None),
    }
}

/// The elements of these numbers and their sketches, in their order. None where one shows a fault, or they have too many triangles together.
pub fn drawn_of(
    alloc: Global,
    told: &Told<'_>,
    ids: &[u64],
    stock: &mut Stock,
) -> Result<Option<Drawn>, AllocError>
    requires storeys { ListsStoreys told.now.exchange.now told.now.tree.now }
    requires names { AreNames told.now.exchange.now told.now.names.now }
    requires placed { AllPlaced told.now.exchange.now told.now.scale told.now.mode
        (frame_in told.now.frames.now) }
    requires stocked { IsStocked told.now.exchange.now told.now.scale told.now.mode stock.old }
    ensures grows { IfOk result (λ found. IfSome found (λ drawn. Grows stock.old stock.new)) }
    ensures drawn { IfOk result (λ found. IfSome found
        (AreDrawn told.now.exchange.now told.now.scale told.now.mode stock.new ids.now)) }
{
    let mut drawn = Drawn {
        elements: Vec::with_capacity(alloc, ids.len())?,
        sketches: Sketches::new(alloc, ids.len())?,
        classes: LastClass::new(),
    };
    let mut count = 0;
    for id in ids {
        let Some(instance) = told.exchange.look(*id) else {
            return Ok(None);
        };
        let Some(more) = draw(alloc, told, &instance, stock, &mut drawn)? else {
            return Ok(None);
        };
        let room = MOST_TRIANGLES - count;
        if more > room {
            return Ok(None);
        }
        count += more;
    }
    Ok(Some(drawn))
}
