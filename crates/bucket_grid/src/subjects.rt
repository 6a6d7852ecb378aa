//! The elements of a version in the order of their keys.
ghost use Rattle.std.specs.Prelude.{◌≡◌, ◌<◌, ◌≤◌, ◌↔◌, ◌++◌, List, length, IsTrue, IfOk, OnOk, All};
ghost use Rattle.std.specs.List.{AllZip};
ghost use Rattle.bim_model.specs.declared.named_model.NamedModel.{NamedModel};
ghost use Rattle.bim_model.specs.Keys.{Subject, subjects_of};
ghost use Rattle.bucket_grid.specs.Subjects.{AreBoxes, IsBoxOf, of_model};
ghost use Rattle.bucket_grid.specs.ElementPlaces.{IsPlace, IsGridBox};

use crate::grid::MOST_ELEMENTS;
use bim_model::{Extent, NamedModel};
use std::alloc::{AllocError, Global};

/// An element of a version: the place of its model, and its place in that model.
#[derive(Clone, Copy, Debug, PartialEq, Eq, PartialOrd, Ord)]
pub struct Member {
    pub model: usize,
    pub element: usize,
}

// Adds the places of the elements of a model.
fn add_places(
    models: &[NamedModel],
    model: usize,
    places: &mut Vec<Member>,
) -> Result<(), AllocError>
    requires { model < length models.now }
    ensures { OnOk result ((d : NamedModel) (s : List Subject)
        → AllZip (IsPlace models.now) s places.old.items
        → AllZip (IsPlace models.now) (s ++ of_model models.now model d) places.new.items) }
{
    let elements = models[model].model.get().elements();
    places.reserve(elements.len())?;
    for element in 0..elements.len() {
        places.push(Member { model, element })?;
    }
    Ok(())
}

// Adds the boxes of the elements of a model.
fn add_boxes(models: &[NamedModel], model: usize, boxes: &mut Vec<Extent>) -> Result<(), AllocError>
    requires { model < length models.now }
    ensures boxes { OnOk result ((d : NamedModel) (s : List Subject) → AllZip IsBoxOf s boxes.old.items
        → AllZip IsBoxOf (s ++ of_model models.now model d) boxes.new.items) }
    ensures near { OnOk result (All IsGridBox boxes.old.items → All IsGridBox boxes.new.items) }
{
    let extents = models[model].model.get().extents();
    boxes.reserve(extents.len())?;
    for extent in extents {
        boxes.push(*extent)?;
    }
    Ok(())
}

/// The elements of a version in the order of their keys: where each stands, and its box.
#[derive(Drop)]
pub struct Gathered {
    pub places: Vec<Member>,
    pub boxes: Vec<Extent>,
}

/// The elements of these models in the order of their keys.
pub fn gather(alloc: Global, models: &[NamedModel]) -> Result<Gathered, AllocError>
    ensures places { IfOk result (λ made.
        AllZip (IsPlace models.now) (subjects_of models.now) made.places.items) }
    ensures boxes { IfOk result (λ made. AreBoxes (subjects_of models.now) made.boxes.items) }
    ensures near { IfOk result (λ made. All IsGridBox made.boxes.items) }
    ensures count { IfOk result (λ made. length made.boxes.items ≡ length (subjects_of models.now)) }
{
    let mut places = Vec::new(alloc);
    let mut boxes = Vec::new(alloc);
    for model in 0..models.len() {
        add_places(models, model, &mut places)?;
        add_boxes(models, model, &mut boxes)?;
    }
    Ok(Gathered { places, boxes })
}

/// Whether these models have at most 1,000,000 elements together, so that a version of them may get a grid.
pub fn has_few_elements(models: &[NamedModel]) -> bool
    ensures { IsTrue result ↔ (length (subjects_of models.now) ≤ MOST_ELEMENTS) }
{
    let mut left = MOST_ELEMENTS;
    for model in models {
        let count = model.model.get().elements().len();
        if count > left {
            return false;
        }
        left -= count;
    }
    true
}
