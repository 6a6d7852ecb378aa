//! Versions: the models of a project under their names, and its clash rules.
ghost use Rattle.std.specs.Prelude.{◌≡◌, ◌++◌, ◌∷◌, [], ℕ, List, Bool, filter, not, IfOk, OnOk};
ghost use Rattle.std.specs.Str.{bytes_eq};
ghost use Rattle.bim_model.specs.Models.{is_below};
ghost use Rattle.bim_model.specs.Snapshots.{with_model, without_model, IsSnapshot};
ghost use Rattle.bim_model.specs.declared.named_model.NamedModel.{NamedModel};

use crate::items::Duplicate;
use crate::known::know;
use crate::named_model::NamedModel;
use crate::rules::Rules;
use crate::shared::Shared;
use std::alloc::{AllocError, Global};

/// The models and the rules of a version. Contracts see it as their two lists; the models rise strictly by name.
#[derive(Drop)]
pub struct Snapshot {
    models: Vec<NamedModel>,
    rules: Shared<Rules>,
}

impl std::marker::Model for Snapshot {
    ghost use Rattle.bim_model.specs.Snapshots.{IsSnapshot, Version};

    ghost Value = { Version };

    ghost view = { λ s. record { models = s.models.items; rules = s.rules } };

    ghost invariant = { λ s. IsSnapshot s.models.items };
}

fn is_below(a: &str, b: &str) -> bool
    ensures { result ≡ is_below a.now b.now }
{
    a.cmp(b).is_lt()
}

// Appends the models of lower names.
fn push_below(
    alloc: Global,
    models: &[NamedModel],
    name: &str,
    made: &mut Vec<NamedModel>,
) -> Result<(), AllocError>
    ensures { OnOk result (made.new.items
        ≡ made.old.items ++ filter (λ (m : NamedModel). is_below m.name name.now) models.now) }
{
    for model in models {
        if is_below(model.name.as_str(), name) {
            made.push(model.share(alloc)?)?;
        }
    }
    Ok(())
}

// Appends the models of higher names.
fn push_above(
    alloc: Global,
    models: &[NamedModel],
    name: &str,
    made: &mut Vec<NamedModel>,
) -> Result<(), AllocError>
    ensures { OnOk result (made.new.items
        ≡ made.old.items ++ filter (λ (m : NamedModel). is_below name.now m.name) models.now) }
{
    for model in models {
        if is_below(name, model.name.as_str()) {
            made.push(model.share(alloc)?)?;
        }
    }
    Ok(())
}

// The models of other names.
fn models_but(
    alloc: Global,
    models: &[NamedModel],
    name: &str,
) -> Result<Vec<NamedModel>, AllocError>
    ensures { IfOk result (λ made. made.items ≡ without_model name.now models.now) }
{
    let mut made = Vec::with_capacity(alloc, models.len())?;
    for model in models {
        if !(model.name.as_str() == name) {
            made.push(model.share(alloc)?)?;
        }
    }
    Ok(made)
}

impl Snapshot {
    /// A version without models under these rules. Takes no memory.
    pub fn new(alloc: Global, rules: Shared<Rules>) -> Snapshot
        ensures models { result.models ≡ [] }
        ensures rules { result.rules ≡ rules }
    {
        Snapshot {
            models: Vec::new(alloc),
            rules,
        }
    }

    /// Its models by rising name, lent.
    pub fn models(&self) -> &[NamedModel]
        ensures same { result.now ≡ self.now.models }
        ensures rising { IsSnapshot result.now }
    {
        self.models.as_slice()
    }

    /// Its rules, lent.
    pub fn rules(&self) -> &Rules
        ensures { result.now ≡ self.now.rules }
    {
        self.rules.get()
    }

    /// The same models and this one, or this one in place of the one of its name. The others are shared, as are the rules.
    pub fn with_model(&self, alloc: Global, model: NamedModel) -> Result<Snapshot, AllocError>
        ensures models { IfOk result (λ made. made.models ≡ with_model model self.now.models) }
        ensures rules { IfOk result (λ made. made.rules ≡ self.now.rules) }
    {
        let name = model.name.copy(alloc)?;
        let rules = self.rules.share()?;
        know(model.model.get().elements());
        let mut models = Vec::with_capacity(alloc, self.models.len() + 1)?;
        push_below(alloc, &self.models, name.as_str(), &mut models)?;
        models.push(model)?;
        push_above(alloc, &self.models, name.as_str(), &mut models)?;
        Ok(Snapshot { models, rules })
    }

    /// The same models but the one of this name, if there is one. They are shared, as are the rules.
    pub fn without_model(&self, alloc: Global, name: &str) -> Result<Snapshot, AllocError>
        ensures models { IfOk result (λ made. made.models ≡ without_model name.now self.now.models) }
        ensures rules { IfOk result (λ made. made.rules ≡ self.now.rules) }
    {
        let rules = self.rules.share()?;
        let models = models_but(alloc, &self.models, name)?;
        Ok(Snapshot { models, rules })
    }

    /// The same models, which are shared, under these rules.
    pub fn with_rules(&self, alloc: Global, rules: Shared<Rules>) -> Result<Snapshot, AllocError>
        ensures models { IfOk result (λ made. made.models ≡ self.now.models) }
        ensures rules { IfOk result (λ made. made.rules ≡ rules) }
    {
        let mut models = Vec::with_capacity(alloc, self.models.len())?;
        for model in self.models.as_slice() {
            models.push(model.share(alloc)?)?;
        }
        Ok(Snapshot { models, rules })
    }
}
