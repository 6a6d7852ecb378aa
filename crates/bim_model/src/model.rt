//! Building models.
ghost use Rattle.std.specs.Prelude.{◌≡◌, ◌↔◌, IfOk, IfSome, IsSome};
ghost use Rattle.bim_model.specs.Models.{triangle_count, IsModel, AreBoxes};

use crate::element::Element;
use crate::geometry::{Extent, extent_of};
use crate::validity::is_model;
use std::alloc::{AllocError, Global};

/// A building model, with the smallest box round each of its elements. Contracts see it as its elements: they rise strictly by identifier,
/// each has a surface within 800 metres of zero, and there are at most 1,000,000 triangles.
#[derive(Drop)]
pub struct Model {
    elements: Vec<Element>,
    extents: Vec<Extent>,
}

impl std::marker::Model for Model {
    ghost use Rattle.std.specs.Prelude.{List};
    ghost use Rattle.bim_model.specs.declared.element.Element.{Element};
    ghost use Rattle.bim_model.specs.Models.{IsModel, AreBoxes};

    ghost Value = { List Element };

    ghost view = { λ m. m.elements.items };

    ghost invariant = { λ m. IsModel m.elements.items × AreBoxes m.elements.items m.extents.items };
}

// The box round each element, in their order.
fn extents_of(alloc: Global, elements: &[Element]) -> Result<Vec<Extent>, AllocError>
    requires { IsModel elements.now }
    ensures { IfOk result (λ extents. AreBoxes elements.now extents.items) }
{
    let mut extents = Vec::with_capacity(alloc, elements.len())?;
    for element in elements {
        extents.push(extent_of(element.triangles.as_slice()))?;
    }
    Ok(extents)
}

impl Model {
    /// The model of these elements, without a copy of them.
    pub fn of(alloc: Global, elements: Vec<Element>) -> Result<Model, AllocError>
        requires { IsModel elements.items }
        ensures { IfOk result (λ made. made ≡ elements.items) }
    {
        let extents = extents_of(alloc, elements.as_slice())?;
        Ok(Model { elements, extents })
    }

    /// The model of these elements where they are one, without a copy of them: they rise strictly by identifier, each has an identifier
    /// that was read, at least one triangle and all corners within 800 metres of zero, and there are at most 1,000,000 triangles.
    pub fn checked(alloc: Global, elements: Vec<Element>) -> Result<Option<Model>, AllocError>
        ensures some { IfOk result (λ made. IsSome made ↔ IsModel elements.items) }
        ensures made { IfOk result (λ made. IfSome made (λ model. model ≡ elements.items)) }
    {
        if !is_model(elements.as_slice()) {
            return Ok(None);
        }
        Ok(Some(Model::of(alloc, elements)?))
    }

    /// Its elements by rising identifier, lent.
    pub fn elements(&self) -> &[Element]
        ensures same { result.now ≡ self.now }
        ensures model { IsModel result.now }
    {
        self.elements.as_slice()
    }

    /// The smallest box round each element, in the order of the elements, lent. They were found once, when the model was made.
    pub fn extents(&self) -> &[Extent]
        ensures boxes { AreBoxes self.now result.now }
        ensures model { IsModel self.now }
    {
        self.extents.as_slice()
    }

    /// How many triangles its elements have together.
    pub fn triangle_count(&self) -> u64
        ensures { result ≡ triangle_count self.now }
    {
        let mut count = 0;
        for element in self.elements.as_slice() {
            count += element.triangles.len() as u64;
        }
        count
    }
}
