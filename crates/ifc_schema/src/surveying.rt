//! The survey of a file: whether all that is used has the form of its row.
ghost use Rattle.std.specs.Prelude.{◌≡◌, ◌+◌, ◌<◌, ℕ, length, IfOk, IfErr, OnOk};
ghost use Rattle.p21_values.specs.InstancePlaces.{IsPlaceOf};
ghost use Rattle.p21_values.specs.InstancePlaces.{Rises};
ghost use Rattle.ifc_schema.specs.Used.{Used, IsMapped};
ghost use Rattle.ifc_schema.specs.BodyRepresentations.{has_body, bodied_of};
ghost use Rattle.ifc_schema.specs.InstanceMarks.{Known, rank_at};
ghost use Rattle.ifc_schema.specs.inner.InstanceFaults.{CheckedAt, Checked, Below};
ghost use Rattle.ifc_schema.specs.Surveys.{UsedFlaw, IsModelElement, Lists, Surveyed, IsSurveyError, is_model_element, fault_of};

use crate::body::bodied_of;
use crate::flaw::{Flaw, instance_flaw};
use crate::outcome::Survey;
use crate::visit::mark_used;
use crate::worklist::Work;
use bim_model::{BuildError, UploadFault};
use ifc_instances::Entity;
use p21_table::{Exchange, InstanceRef};
use std::alloc::{AllocError, Global};

/// The fault of an instance that has this flaw.
fn fault_of(id: u64, flaw: Flaw) -> UploadFault
    ensures { result ≡ fault_of id flaw }
{
    match flaw {
        Flaw::Dangling(to) => UploadFault::Dangling { id, to },
        Flaw::BadShape => UploadFault::BadShape { id },
    }
}

/// What is wrong first with the instance at a place, which is used.
fn flaw_at(exchange: &Exchange, bodied: &[bool], work: &Work, at: usize) -> Option<Flaw>
    requires known { Known exchange.now work.now }
    requires bodied { bodied.now ≡ bodied_of exchange.now }
    requires marked { 0 < rank_at work.now at }
    ensures { (id : ℕ) → IsPlaceOf exchange.now id at → UsedFlaw exchange.now id result }
{
    let mapped = work.marks[at].is_mapped();
    let instance = exchange.instance(at);
    instance_flaw(exchange, bodied[at], mapped, &instance)
}

/// The fault of the instance at a place, where it is used.
fn fault_at(exchange: &Exchange, bodied: &[bool], work: &Work, at: usize) -> Option<UploadFault>
    requires known { Known exchange.now work.now }
    requires within { at < length exchange.now }
    requires bodied { bodied.now ≡ bodied_of exchange.now }
    ensures { CheckedAt exchange.now at result }
{
    if !work.marks[at].is_seen() {
        return None;
    }
    let flaw = flaw_at(exchange, bodied, work, at);
    match flaw {
        Some(flaw) => {
            let fault = fault_of(exchange.instance(at).id(), flaw);
            Some(fault)
        }
        None => None,
    }
}

/// The fault of the least instance that is used and lacks the form of its row.
fn least_fault(exchange: &Exchange, bodied: &[bool], work: &Work) -> Option<UploadFault>
    requires known { Known exchange.now work.now }
    requires bodied { bodied.now ≡ bodied_of exchange.now }
    ensures { Checked exchange.now result }
{
    let instances = exchange.iter();
    for at in 0..instances.len() {
        let fault = fault_at(exchange, bodied, work, at);
        if fault.is_some() {
            return fault;
        }
    }
    None
}

/// Adds the number of the instance at a place, where it is used.
fn push_used(
    exchange: &Exchange,
    work: &Work,
    at: usize,
    ids: &mut Vec<u64>,
) -> Result<(), AllocError>
    requires known { Known exchange.now work.now }
    requires within { at < length exchange.now }
    requires rises { Rises exchange.now }
    requires ids { Lists (Below exchange.now at (Used exchange.now)) ids.old.items }
    ensures { OnOk result (Lists (Below exchange.now (at + 1) (Used exchange.now)) ids.new.items) }
{
    if !work.marks[at].is_seen() {
        return Ok(());
    }
    let id = exchange.instance(at).id();
    ids.push(id)?;
    Ok(())
}

/// The numbers of the instances that are used.
fn list_used(alloc: Global, exchange: &Exchange, work: &Work) -> Result<Vec<u64>, AllocError>
    requires { Known exchange.now work.now }
    ensures { IfOk result (λ ids. Lists (Used exchange.now) ids.items) }
{
    let mut ids = Vec::new(alloc);
    let instances = exchange.iter();
    for at in 0..instances.len() {
        push_used(exchange, work, at, &mut ids)?;
    }
    Ok(ids)
}

/// Adds the number of the instance at a place, where it is a representation that is mapped.
fn push_mapped(
    exchange: &Exchange,
    work: &Work,
    at: usize,
    ids: &mut Vec<u64>,
) -> Result<(), AllocError>
    requires known { Known exchange.now work.now }
    requires within { at < length exchange.now }
    requires rises { Rises exchange.now }
    requires ids { Lists (Below exchange.now at (IsMapped exchange.now)) ids.old.items }
    ensures { OnOk result (Lists (Below exchange.now (at + 1) (IsMapped exchange.now)) ids.new.items) }
{
    if !work.marks[at].is_mapped() {
        return Ok(());
    }
    let id = exchange.instance(at).id();
    ids.push(id)?;
    Ok(())
}

/// The numbers of the representations that are mapped.
fn list_mapped(alloc: Global, exchange: &Exchange, work: &Work) -> Result<Vec<u64>, AllocError>
    requires { Known exchange.now work.now }
    ensures { IfOk result (λ ids. Lists (IsMapped exchange.now) ids.items) }
{
    let mut ids = Vec::new(alloc);
    let instances = exchange.iter();
    for at in 0..instances.len() {
        push_mapped(exchange, work, at, &mut ids)?;
    }
    Ok(ids)
}

/// Whether it is an element that has a body.
fn is_model_element(exchange: &Exchange, bodied: bool, instance: &InstanceRef<'_>) -> bool
    requires bodied { bodied ≡ has_body exchange.now instance.now }
    ensures { result ≡ is_model_element exchange.now instance.now }
{
    match Entity::at(instance) {
        Some(Entity::Subject) => bodied,
        _ => false,
    }
}

/// Adds the number of the instance at a place, where it is an element that has a body.
fn push_element(
    exchange: &Exchange,
    bodied: &[bool],
    work: &Work,
    at: usize,
    ids: &mut Vec<u64>,
) -> Result<(), AllocError>
    requires known { Known exchange.now work.now }
    requires within { at < length exchange.now }
    requires rises { Rises exchange.now }
    requires bodied { bodied.now ≡ bodied_of exchange.now }
    requires ids { Lists (Below exchange.now at (IsModelElement exchange.now)) ids.old.items }
    ensures { OnOk result (Lists (Below exchange.now (at + 1) (IsModelElement exchange.now)) ids.new.items) }
{
    if !work.marks[at].is_seen() {
        return Ok(());
    }
    if !is_model_element(exchange, bodied[at], &exchange.instance(at)) {
        return Ok(());
    }
    let id = exchange.instance(at).id();
    ids.push(id)?;
    Ok(())
}

/// The numbers of the elements that have a body.
pub fn list_elements(
    alloc: Global,
    exchange: &Exchange,
    bodied: &[bool],
    work: &Work,
) -> Result<Vec<u64>, AllocError>
    requires known { Known exchange.now work.now }
    requires bodied { bodied.now ≡ bodied_of exchange.now }
    ensures { IfOk result (λ ids. Lists (IsModelElement exchange.now) ids.items) }
{
    let mut ids = Vec::new(alloc);
    let instances = exchange.iter();
    for at in 0..instances.len() {
        push_element(exchange, bodied, work, at, &mut ids)?;
    }
    Ok(ids)
}

/// Surveys a file: the instances that are used, or the fault of the least one that lacks the form of its row, U6 or U7. Of such an
/// instance the first attribute that has a fault decides, and in a list the first item that has one.
pub fn survey(alloc: Global, exchange: &Exchange) -> Result<Survey, BuildError>
    ensures surveyed { IfOk result (Surveyed exchange.now) }
    ensures fault { IfErr result (IsSurveyError exchange.now) }
{
    let bodied = bodied_of(alloc, exchange)?;
    let work = mark_used(alloc, exchange, &bodied)?;
    let fault = least_fault(exchange, &bodied, &work);
    if let Some(fault) = fault {
        return Err(BuildError::Fault(fault));
    }
    let used = list_used(alloc, exchange, &work)?;
    let mapped = list_mapped(alloc, exchange, &work)?;
    let elements = list_elements(alloc, exchange, &bodied, &work)?;
    Ok(Survey::new(used, mapped, elements))
}
