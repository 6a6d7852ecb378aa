//! The bodies of product shapes, listed once for each shape.
ghost use Rattle.std.specs.Prelude.{◌≡◌, ℕ, None, IfOk, OnOk, option_copied};
ghost use Rattle.ifc_elements.specs.Items.{bodies};
ghost use Rattle.ifc_elements.specs.Finding.{Number};
ghost use Rattle.ifc_elements.specs.Shapes.{AreShapes, PutsBodies, bodies_in};

use crate::body_items::bodies_of;
use bim_model::Items;
use ifc_instances::Entity;
use p21_table::{Exchange, InstanceRef};
use std::alloc::{AllocError, Global};
use std::collections::BTreeMap;
use std::marker::Model;

/// The numbers of the bodies of product shapes. Contracts see them as the list of the shapes' numbers and those of their bodies.
#[derive(Drop)]
pub struct Shapes {
    shapes: BTreeMap<u64, Items<u64>>,
}

impl Model for Shapes {
    ghost use Rattle.std.specs.Prelude.{ℕ, List};

    ghost Value = { List (ℕ × List ℕ) };

    ghost view = { λ s. s.shapes.entries };
}

impl Shapes {
    /// The bodies of the product shapes among the instances of these numbers. Each shape's representations are looked at once, however many
    /// elements share it.
    pub fn of(alloc: Global, exchange: &Exchange, used: &[u64]) -> Result<Shapes, AllocError>
        ensures { IfOk result (AreShapes exchange.now) }
    {
        let mut shapes = Shapes::new(alloc);
        for id in used {
            shapes.add(alloc, exchange, *id)?;
        }
        Ok(shapes)
    }

    fn new(alloc: Global) -> Shapes
        ensures { (id : ℕ) → bodies_in result id ≡ None }
    {
        Shapes {
            shapes: BTreeMap::new(alloc),
        }
    }

    /// Adds the bodies of the instance of that number, where it is a product shape.
    fn add(&mut self, alloc: Global, exchange: &Exchange, id: u64) -> Result<(), AllocError>
        ensures { AreShapes exchange.now self.old → OnOk result (AreShapes exchange.now self.new) }
    {
        let Some(shape) = exchange.look(id) else {
            return Ok(());
        };
        if !Entity::ProductShape.includes(&shape) {
            return Ok(());
        }
        let found = bodies_of(alloc, exchange, &shape)?;
        self.put(id, Items::from_vec(found))
    }

    fn put(&mut self, id: u64, bodies: Items<u64>) -> Result<(), AllocError>
        ensures { OnOk result (PutsBodies (bodies_in self.old) (bodies_in self.new) id bodies) }
    {
        self.shapes.insert(id, bodies)?;
        Ok(())
    }

    /// The bodies of the shape of that number; none of one that isn't among them.
    fn get(&self, id: u64) -> Option<&[u64]>
        ensures { option_copied result ≡ bodies_in self.now id }
    {
        match self.shapes.get(&id) {
            Some(bodies) => Some(bodies.as_slice()),
            None => None,
        }
    }
}

/// The numbers of the bodies of an element, in their order. One that is listed twice stands twice.
pub fn bodies(
    alloc: Global,
    exchange: &Exchange,
    shapes: &Shapes,
    element: &InstanceRef<'_>,
) -> Result<Vec<u64>, AllocError>
    requires { AreShapes exchange.now shapes.now }
    ensures { IfOk result (λ ids. Number exchange.now ids.items (bodies exchange.now element.now)) }
{
    let Some(id) = element.reference_at(6) else {
        return Ok(Vec::new(alloc));
    };
    if let Some(ids) = shapes.get(id) {
        let copied = ids.to_vec(alloc)?;
        return Ok(copied);
    }
    match exchange.look(id) {
        Some(shape) => bodies_of(alloc, exchange, &shape),
        None => Ok(Vec::new(alloc)),
    }
}
