//! The names of storeys, read once for each storey.
ghost use Rattle.std.specs.Prelude.{◌≡◌, ℕ, None, IfOk, OnOk, option_copied};
ghost use Rattle.ifc_elements.specs.StoreyNames.{AreNames, PutsName, name_in};

use crate::texts::name_of;
use bim_model::Text;
use ifc_instances::Entity;
use p21_table::Exchange;
use std::alloc::{AllocError, Global};
use std::collections::BTreeMap;
use std::marker::Model;

/// The names of storeys. Contracts see them as the list of the storeys' numbers and names.
#[derive(Drop)]
pub struct Names {
    names: BTreeMap<u64, Text>,
}

impl Model for Names {
    ghost use Rattle.std.specs.Prelude.{ℕ, List};

    ghost Value = { List (ℕ × List ℕ) };

    ghost view = { λ n. n.names.entries };
}

impl Names {
    /// The names of the storeys among the instances of these numbers. Each is read once, however many elements stand in its storey.
    pub fn of(alloc: Global, exchange: &Exchange, used: &[u64]) -> Result<Names, AllocError>
        ensures { IfOk result (AreNames exchange.now) }
    {
        let mut names = Names::new(alloc);
        for id in used {
            names.add(alloc, exchange, *id)?;
        }
        Ok(names)
    }

    fn new(alloc: Global) -> Names
        ensures { (id : ℕ) → name_in result id ≡ None }
    {
        Names {
            names: BTreeMap::new(alloc),
        }
    }

    /// Adds the name of the instance of that number, where it is a storey.
    fn add(&mut self, alloc: Global, exchange: &Exchange, id: u64) -> Result<(), AllocError>
        ensures { AreNames exchange.now self.old → OnOk result (AreNames exchange.now self.new) }
    {
        let Some(storey) = exchange.look(id) else {
            return Ok(());
        };
        if !Entity::Storey.includes(&storey) {
            return Ok(());
        }
        let name = name_of(alloc, &storey)?;
        self.put(id, name)
    }

    fn put(&mut self, id: u64, name: Text) -> Result<(), AllocError>
        ensures { OnOk result (PutsName (name_in self.old) (name_in self.new) id name) }
    {
        self.names.insert(id, name)?;
        Ok(())
    }

    /// The name of the storey of that number; none of one that isn't among them.
    pub fn get(&self, id: u64) -> Option<&Text>
        ensures { option_copied result ≡ name_in self.now id }
    {
        self.names.get(&id)
    }
}
