//! The length unit of a file.
ghost use Rattle.std.specs.Prelude.{◌≡◌, ◌∷◌, [], ℕ, ℤ, Some, Any, length, IfOk, IfErr, IfSome, IfNone, find};
ghost use Rattle.std.specs.Bool.{MatchBool};
ghost use Rattle.bim_model.specs.declared.upload.UploadFault.{UploadFault};
ghost use Rattle.p21_values.specs.declared.value.Instance.{Instance};
ghost use Rattle.ifc_instances.specs.declared.entity.Entity.TheVariants.{Project};
ghost use Rattle.ifc_instances.specs.EntityLookup.{is_a};
ghost use Rattle.ifc_units.specs.declared.scale.Scale.{Scale};
ghost use Rattle.ifc_units.specs.Units.{is_length_unit, projects, assignment_of, RefersToUnit, IsUnitAmong, IsOnly, RefersToOther, MakesScale, AssignsScale, IsLengthUnit, IsLeastNumber, LengthUnitFault};

use crate::conversion::converted_scale;
use crate::metres::metric_power;
use crate::scale::Scale;
use bim_model::UploadFault;
use ifc_instances::{Entity, says};
use p21_table::{Exchange, InstanceRef, Instances, ValueRef, Values};

#[tactic(auto, unfolding(crate::specs::Units::is_length_unit))]
fn is_length_unit(instance: &InstanceRef<'_>) -> bool
    ensures { result ≡ is_length_unit instance.now }
{
    (Entity::SiUnit.includes(instance) || Entity::ConvertedUnit.includes(instance))
        && says("LENGTHUNIT", instance, 1)
}

// How many projects there are.
fn count_projects(exchange: &Exchange) -> usize
    ensures { result ≡ length (projects exchange.now) }
{
    let mut count = 0;
    for instance in exchange.iter() {
        if Entity::Project.includes(&instance) {
            count += 1;
        }
    }
    count
}

// The first project.
fn first_project<'a>(instances: &Instances<'a>) -> Option<InstanceRef<'a>>
    ensures { result ≡ find (is_a Project) instances.now }
{
    for instance in instances.iter() {
        if Entity::Project.includes(&instance) {
            return Some(instance);
        }
    }
    None
}

// The project, where there is exactly one.
fn only_project(exchange: &Exchange) -> Option<InstanceRef<'_>>
    ensures some { IfSome result (λ project. projects exchange.now ≡ project ∷ []) }
    ensures none { IfNone result ((project : Instance) → projects exchange.now ≡ project ∷ [] → ⊥) }
{
    if count_projects(exchange) != 1 {
        return None;
    }
    first_project(&exchange.iter())
}

// The least number of a project; 0 where there is none.
fn least_project(exchange: &Exchange) -> u64
    ensures { IsLeastNumber (projects exchange.now) result }
{
    match first_project(&exchange.iter()) {
        Some(project) => project.id(),
        None => 0,
    }
}

// The assignment of units of a project.
fn assignment_of<'a>(exchange: &'a Exchange, project: &InstanceRef<'_>) -> Option<InstanceRef<'a>>
    ensures { result ≡ assignment_of exchange.now project.now }
{
    let assignment = exchange.target_at(project, 8)?;
    if Entity::UnitAssignment.includes(&assignment) {
        Some(assignment)
    } else {
        None
    }
}

// The number of the unit of length that a value refers to.
fn unit_named(exchange: &Exchange, value: &ValueRef<'_>) -> Option<u64>
    ensures some { IfSome result (λ id. RefersToUnit exchange.now id value.now) }
    ensures none { IfNone result ((id : ℕ) → RefersToUnit exchange.now id value.now → ⊥) }
{
    let Some(id) = value.reference() else {
        return None;
    };
    let Some(unit) = exchange.look(id) else {
        return None;
    };
    if is_length_unit(&unit) {
        Some(id)
    } else {
        None
    }
}

// The number of the first unit of length among the items.
fn first_unit(exchange: &Exchange, items: &Values<'_>) -> Option<u64>
    ensures some { IfSome result (IsUnitAmong exchange.now items.now) }
    ensures none { IfNone result ((id : ℕ) → IsUnitAmong exchange.now items.now id → ⊥) }
{
    for item in items.iter() {
        if let Some(id) = unit_named(exchange, &item) {
            return Some(id);
        }
    }
    None
}

// Whether a value refers to a unit of length of another number.
fn names_other(exchange: &Exchange, value: &ValueRef<'_>, id: u64) -> bool
    ensures { MatchBool result (RefersToOther exchange.now id value.now)
        (RefersToOther exchange.now id value.now → ⊥) }
{
    match unit_named(exchange, value) {
        Some(other) => other != id,
        None => false,
    }
}

// Whether a unit of length of another number is among the items.
fn has_other(exchange: &Exchange, items: &Values<'_>, id: u64) -> bool
    ensures { MatchBool result (Any (RefersToOther exchange.now id) items.now)
        (Any (RefersToOther exchange.now id) items.now → ⊥) }
{
    for item in items.iter() {
        if names_other(exchange, &item, id) {
            return true;
        }
    }
    false
}

// The number of the unit of length among the items, where there is exactly one.
fn only_unit(exchange: &Exchange, items: &Values<'_>) -> Option<u64>
    ensures some { IfSome result (IsOnly (IsUnitAmong exchange.now items.now)) }
    ensures none { IfNone result ((id : ℕ) → IsOnly (IsUnitAmong exchange.now items.now) id → ⊥) }
{
    let Some(id) = first_unit(exchange, items) else {
        return None;
    };
    if has_other(exchange, items, id) {
        return None;
    }
    Some(id)
}

// The scale that a unit of length makes.
fn unit_scale(exchange: &Exchange, unit: &InstanceRef<'_>) -> Option<Scale>
    ensures some { IfSome result (MakesScale exchange.now unit.now) }
    ensures none { IfNone result ((scale : Scale) → MakesScale exchange.now unit.now scale → ⊥) }
{
    if Entity::ConvertedUnit.includes(unit) {
        return converted_scale(exchange, unit);
    }
    match metric_power(unit) {
        Some(power) => Some(Scale { factor: 1, power }),
        None => None,
    }
}

// The scale that the unit of length of an assignment makes.
fn assigned_scale(exchange: &Exchange, assignment: &InstanceRef<'_>) -> Option<Scale>
    ensures some { IfSome result (AssignsScale exchange.now assignment.now) }
    ensures none { IfNone result ((scale : Scale) → AssignsScale exchange.now assignment.now scale → ⊥) }
{
    let Some(id) = only_unit(exchange, &assignment.listed(0)) else {
        return None;
    };
    let Some(unit) = exchange.look(id) else {
        return None;
    };
    unit_scale(exchange, &unit)
}

// The scale of the file's length unit.
fn scale_of(exchange: &Exchange) -> Option<Scale>
    ensures some { IfSome result (IsLengthUnit exchange.now) }
    ensures none { IfNone result ((scale : Scale) → IsLengthUnit exchange.now scale → ⊥) }
{
    let Some(project) = only_project(exchange) else {
        return None;
    };
    let Some(assignment) = assignment_of(exchange, &project) else {
        return None;
    };
    assigned_scale(exchange, &assignment)
}

/// The scale of a file's length unit: the metre with a prefix, the inch or the foot, the one unit of length in the units that the one
/// project is assigned (IFC4 ADD2 TC1, IfcUnitAssignment, IfcSIUnit, IfcConversionBasedUnit). A unit that stands twice in them is one, and
/// units of other entities are passed over. `LengthUnit` with the number of the least project, else 0, if there isn't exactly one project,
/// its units aren't assigned, there isn't exactly one unit of length, or that one is neither a metre with a prefix from micro to kilo nor
/// converted to one as the inch of 25.4 mm or the foot of 304.8 mm, each less than a millionth of a millimetre off. Takes no memory.
pub fn length_unit(exchange: &Exchange) -> Result<Scale, UploadFault>
    ensures unit { IfOk result (IsLengthUnit exchange.now) }
    ensures clear { IfOk result (λ scale. (fault : UploadFault) → LengthUnitFault exchange.now fault → ⊥) }
    ensures fault { IfErr result (LengthUnitFault exchange.now) }
{
    match scale_of(exchange) {
        Some(scale) => Ok(scale),
        None => Err(UploadFault::LengthUnit {
            id: least_project(exchange),
        }),
    }
}
