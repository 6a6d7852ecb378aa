//! The grid of a version.
ghost use Rattle.std.specs.Prelude.{◌≡◌, ◌+◌, ◌<◌, ◌≤◌, ◌^◌, ◌*◌, ◌++◌, ◌∷◌, [], take, pos, ◌-ℤ◌, length, slice_index_or, true, ℕ, Err, IfOk, IfSome, IfNone, All};
ghost use Rattle.std.specs.List.{AllZip, sum_by};
ghost use Rattle.std.specs.Str.{bytes_eq};
ghost use Rattle.bim_model.specs.Models.{IsModelled};
ghost use Rattle.bim_model.specs.Rules.{IsRules};
ghost use Rattle.bim_model.specs.Snapshots.{IsSnapshot};
ghost use Rattle.bim_model.specs.declared.element.Element.{Element};
ghost use Rattle.bim_model.specs.declared.named_model.NamedModel.{NamedModel};
ghost use Rattle.bucket_grid.specs.inner.Axes.{span_on};
ghost use Rattle.bucket_grid.specs.Cells.{holds, memberships, cell_count, members, IsOwner, IsBucket};
ghost use Rattle.bim_model.specs.Keys.{subjects_of};
ghost use Rattle.box_lanes.specs.BoxPlaces.{box_at};
ghost use Rattle.bucket_grid.specs.Subjects.{AreBoxes, subject_at};
ghost use Rattle.bucket_grid.specs.ElementPlaces.{IsPlace, IsGridBox};
ghost use Rattle.bucket_grid.specs.BucketTable.{upto, table, IsTable};
ghost use Rattle.bucket_grid.specs.Grids.{HasMemberships};
ghost use Rattle.bucket_grid.specs.Search.{IsAfter};
ghost use Rattle.bucket_grid.specs.declared.cell.Cell.{Cell};
ghost use Rattle.bucket_grid.specs.declared.grid.GridError.TheVariants.{TooSpread};

use crate::axis_cells::{Axis, Range, cells_on, range_on, spans_on};
use crate::bucket_table::{Axes, Bucket, table_of};
use crate::cell::{Cell, MOST_CELLS};
use crate::owner::shared_cell;
use crate::search::{place_by, place_of};
use crate::subjects::{Gathered, Member, gather};
use bim_model::{Element, Extent, NamedModel, Rules, Shared, Snapshot, know};
use std::alloc::{AllocError, Global};
use std::marker::Model;

/// The most elements of a version that may get a grid.
pub const MOST_ELEMENTS: usize = 1_000_000;

/// The most cells that hold a box: those of three axes.
pub const MOST_CELLS_OF_BOX: u64 = MOST_CELLS * MOST_CELLS * MOST_CELLS;

/// The most pairs of a cell and a member of it that a grid may have.
pub const MOST_MEMBERSHIPS: u64 = 2_000_000;

/// Why there is no grid.
#[derive(Debug, Drop)]
pub enum GridError {
    /// There are so many pairs of a cell and a member of it, more than 2,000,000.
    TooSpread { count: u64 },
    Memory,
}

impl From<AllocError> for GridError {
    ghost from_gives = { λ _ e. e ≡ Memory };

    ghost use Rattle.bucket_grid.specs.declared.grid.GridError.TheVariants.{Memory};

    fn from(_: AllocError) -> GridError {
        GridError::Memory
    }
}

/// A version's elements by cells of four metres.
#[derive(Drop)]
pub struct Grid {
    snapshot: Shared<Snapshot>,
    places: Vec<Member>,
    boxes: Vec<Extent>,
    buckets: Vec<Bucket>,
    count: u64,
}

impl Model for Grid {
    ghost use Rattle.std.specs.Prelude.{◌≡◌};
    ghost use Rattle.bucket_grid.specs.Cells.{memberships};
    ghost use Rattle.bucket_grid.specs.Grids.{GridValue, IsGrid};

    ghost Value = { GridValue };

    ghost view = { λ g. record {
      version = g.snapshot;
      places = g.places.items;
      boxes = g.boxes.items;
      buckets = g.buckets.items;
    } };

    ghost invariant = { λ g. IsGrid g.snapshot g.places.items g.boxes.items g.buckets.items
        × (g.count ≡ memberships g.boxes.items) };
}

// The pairs of a cell and a member.
fn memberships_of(boxes: &[Extent]) -> u64
    requires near { All IsGridBox boxes.now }
    requires few { length boxes.now ≤ MOST_ELEMENTS }
    ensures { result ≡ memberships boxes.now }
{
    let mut count = 0;
    for extent in boxes {
        count += cells_of(extent);
    }
    count
}

// How many cells hold a box.
fn cells_of(extent: &Extent) -> u64
    requires { IsGridBox extent.now }
    ensures is { result ≡ cell_count extent.now }
    ensures small { result ≤ MOST_CELLS_OF_BOX }
{
    cells_on(Axis::X, extent) * cells_on(Axis::Y, extent) * cells_on(Axis::Z, extent)
}

// 0, 1, .. below the count.
fn numbers_upto(alloc: Global, count: usize) -> Result<Vec<u32>, AllocError>
    requires { count < 2 ^ 32 }
    ensures { IfOk result (λ made. made.items ≡ upto count) }
{
    let mut numbers = Vec::with_capacity(alloc, count)?;
    for number in 0..count {
        numbers.push(number as u32)?;
    }
    Ok(numbers)
}

// The lowest cell.
fn corner(x: Range, y: Range, z: Range) -> Cell
    ensures x { result.x ≡ x.low }
    ensures y { result.y ≡ y.low }
    ensures z { result.z ≡ z.low }
{
    Cell {
        x: x.low,
        y: y.low,
        z: z.low,
    }
}

// The buckets of the boxes, with room taken for so many members of all.
fn buckets_of(
    alloc: Global,
    boxes: &[Extent],
    memberships: usize,
) -> Result<Vec<Bucket>, AllocError>
    requires near { All IsGridBox boxes.now }
    requires few { length boxes.now ≤ MOST_ELEMENTS }
    ensures { IfOk result (λ made. IsTable boxes.now made.items) }
{
    let x = range_on(Axis::X, boxes);
    let y = range_on(Axis::Y, boxes);
    let z = range_on(Axis::Z, boxes);
    let axes = Axes {
        x: spans_on(alloc, Axis::X, x, boxes)?,
        y: spans_on(alloc, Axis::Y, y, boxes)?,
        z: spans_on(alloc, Axis::Z, z, boxes)?,
    };
    let low = corner(x, y, z);
    let numbers = numbers_upto(alloc, boxes.len())?;
    let buckets = table_of(
        alloc,
        low,
        &numbers,
        &axes,
        (x.count, y.count, z.count),
        memberships,
    )?;
    Ok(buckets)
}

impl Grid {
    /// The grid of a version of at most 1,000,000 elements. `TooSpread` where its memberships exceed 2,000,000:
    /// they are counted first, and then nothing is placed. `Memory` if memory runs out.
    pub fn of(alloc: Global, snapshot: Shared<Snapshot>) -> Result<Grid, GridError>
        requires { length (subjects_of snapshot.models) ≤ MOST_ELEMENTS }
        ensures version { IfOk result (λ made. made.version ≡ snapshot) }
        ensures few { IfOk result (λ _. (count : ℕ)
            → HasMemberships snapshot count → count ≤ MOST_MEMBERSHIPS) }
        ensures spread { (count : ℕ) → result ≡ Err (TooSpread count)
            → HasMemberships snapshot count × (MOST_MEMBERSHIPS < count) }
    {
        let Gathered { places, boxes } = gather(alloc, snapshot.get().models())?;
        let count = memberships_of(&boxes);
        if count > MOST_MEMBERSHIPS {
            return Err(GridError::TooSpread { count });
        }
        let buckets = buckets_of(alloc, &boxes, count as usize)?;
        Ok(Grid {
            snapshot,
            places,
            boxes,
            buckets,
            count,
        })
    }
}

impl Grid {
    /// The version.
    pub fn snapshot(&self) -> &Snapshot
        ensures { result.now ≡ self.now.version }
    {
        self.snapshot.get()
    }

    /// Its models, lent.
    pub fn models(&self) -> &[NamedModel]
        ensures same { result.now ≡ self.now.version.models }
        ensures snapshot { IsSnapshot result.now }
    {
        self.snapshot.get().models()
    }

    /// Its rules, lent.
    pub fn rules(&self) -> &Rules
        ensures same { result.now ≡ self.now.version.rules }
        ensures rules { IsRules result.now }
    {
        let rules = self.snapshot.get().rules();
        know(rules.list());
        rules
    }

    /// The number of pairs of a cell and a member of it.
    pub fn memberships(&self) -> u64
        ensures counted { HasMemberships self.now.version result }
        ensures boxes { result ≡ memberships self.now.boxes }
        ensures few { result ≤ MOST_MEMBERSHIPS }
    {
        self.count
    }

    /// The buckets by rising cell, each with the numbers of its members, which rise.
    pub fn buckets(&self) -> &[Bucket]
        ensures buckets { result.now ≡ self.now.buckets }
        ensures table { IsTable self.now.boxes result.now }
    {
        self.buckets.as_slice()
    }

    /// The boxes of all elements by number, lent.
    pub fn boxes(&self) -> &[Extent]
        ensures boxes { result.now ≡ self.now.boxes }
        ensures near { All IsGridBox result.now }
        ensures boxed { AreBoxes (subjects_of self.now.version.models) result.now }
        ensures count { length self.now.places ≡ length result.now }
        ensures small { length result.now ≤ MOST_ELEMENTS }
    {
        self.boxes.as_slice()
    }

    /// Where the elements stand by number, lent.
    pub fn places(&self) -> &[Member]
        ensures places { result.now ≡ self.now.places }
        ensures placed { let models = self.now.version.models in
            AllZip (IsPlace models) (subjects_of models) result.now }
    {
        self.places.as_slice()
    }
}

impl Grid {
    /// The element of that number, lent.
    pub fn element(&self, number: usize) -> &Element
        requires { number < length self.now.places }
        ensures element { result.now ≡ (subject_at (subjects_of self.now.version.models) number).element }
        ensures modelled { IsModelled result.now }
    {
        element_at(self.snapshot().models(), self.places()[number])
    }

    /// The place of the model of that element.
    pub fn model_of(&self, number: usize) -> usize
        requires { number < length self.now.places }
        ensures model { result ≡ (subject_at (subjects_of self.now.version.models) number).model }
        ensures within { number < length (subjects_of self.now.version.models) }
    {
        self.places()[number].model
    }

    /// Whether the elements of two numbers are of one model: whether the names of their models agree.
    pub fn same_model(&self, a: usize, b: usize) -> bool
        requires first { a < length self.now.places }
        requires second { b < length self.now.places }
        ensures { let subjects = subjects_of self.now.version.models in
            result ≡ bytes_eq (subject_at subjects a).name (subject_at subjects b).name }
    {
        know(self.models());
        self.model_of(a) == self.model_of(b)
    }
}

// The element at that place.
fn element_at(models: &[NamedModel], place: Member) -> &Element
    requires model { place.model < length models.now }
    requires element { (d : NamedModel)
        → place.element < length (slice_index_or models.now place.model d).model }
    ensures element { (d : NamedModel) (e : Element)
        → result.now ≡ slice_index_or (slice_index_or models.now place.model d).model place.element e }
    ensures modelled { IsModelled result.now }
{
    let elements = models[place.model].model.get().elements();
    &elements[place.element]
}

impl Grid {
    /// The least cell of which both elements are members, by their numbers, or none where they share no cell.
    pub fn owner(&self, a: u32, b: u32) -> Option<Cell>
        requires first { a < length self.now.boxes }
        requires second { b < length self.now.boxes }
        ensures some { let boxes = self.now.boxes in
            IfSome result (λ cell. IsOwner cell (box_at boxes a) (box_at boxes b)) }
        ensures none { let boxes = self.now.boxes in IfNone result ((cell : Cell)
            → holds cell (box_at boxes a) ≡ true → holds cell (box_at boxes b) ≡ true → ⊥) }
    {
        let boxes = self.boxes();
        shared_cell(&boxes[a as usize], &boxes[b as usize])
    }

    /// The numbers of the members of a bucket, rising; empty where the cell is no bucket.
    pub fn members(&self, cell: Cell) -> &[u32]
        ensures bucket { IsBucket self.now.boxes cell → result.now ≡ members self.now.boxes cell }
        ensures none { (IsBucket self.now.boxes cell → ⊥) → result.now ≡ [] }
    {
        let buckets = self.buckets();
        match place_of(buckets, cell) {
            Some(place) => buckets[place].members.as_slice(),
            None => &[],
        }
    }

    /// The same, for who asks for one bucket after the other: the cell is looked for at the place `next` among the
    /// buckets first, and `next` is then the place after its bucket. Where the cell is no bucket, `next` stays.
    pub fn members_in_turn(&self, cell: Cell, next: &mut usize) -> &[u32]
        ensures bucket { IsBucket self.now.boxes cell → result.now ≡ members self.now.boxes cell }
        ensures none { (IsBucket self.now.boxes cell → ⊥) → result.now ≡ [] }
        ensures next { IsBucket self.now.boxes cell → IsAfter self.now.buckets cell next.new }
        ensures stays { (IsBucket self.now.boxes cell → ⊥) → next.new ≡ next.old }
    {
        let buckets = self.buckets();
        match place_by(buckets, cell, *next) {
            Some(place) => {
                *next = place + 1;
                buckets[place].members.as_slice()
            }
            None => &[],
        }
    }
}
