//! The faults of an upload and of clash rules as JSON values.
ghost use Rattle.std.specs.Prelude.{◌≡◌, IfOk};
ghost use Rattle.serde_json.specs.View.{view};
ghost use Rattle.error_json.specs.FaultTrees.{fields_tree, upload_fault_tree, rule_fault_tree};

use crate::errors::{
    error_at, error_count, error_index, error_many, error_of, error_out, error_to,
};
use crate::fault_words::{
    FaultFields, many_word, rule_code, rule_fields, rule_name, upload_code, upload_fields,
    upload_name,
};
use bim_model::UploadFault;
use clash_rules::RuleFault;
use serde_json::Value;
use std::alloc::{AllocError, Global};

// A fault by its code, its name and its fields.
fn fields_out(
    alloc: Global,
    code: &str,
    name: &str,
    fields: FaultFields,
) -> Result<Value, AllocError>
    ensures { IfOk result (λ v. view v ≡ fields_tree code.now name.now fields) }
{
    match fields {
        FaultFields::Bare => error_out(alloc, code, name),
        FaultFields::Place(at) => error_at(alloc, code, name, at),
        FaultFields::Id(id) => error_of(alloc, code, name, id),
        FaultFields::Reference { id, to } => error_to(alloc, code, name, id, to),
        FaultFields::What(what) => error_many(alloc, code, name, many_word(what)),
        FaultFields::Index(index) => error_index(alloc, code, name, index),
        FaultFields::Count(count) => error_count(alloc, code, name, count),
    }
}

/// A fault of an upload, as an object: its code, its code and name, and its fields.
pub fn upload_fault_out(alloc: Global, fault: UploadFault) -> Result<Value, AllocError>
    ensures { IfOk result (λ v. view v ≡ upload_fault_tree fault) }
{
    fields_out(
        alloc,
        upload_code(fault),
        upload_name(fault),
        upload_fields(fault),
    )
}

/// A fault of clash rules, as an object: its code, its code and name, and its field.
pub fn rule_fault_out(alloc: Global, fault: RuleFault) -> Result<Value, AllocError>
    ensures { IfOk result (λ v. view v ≡ rule_fault_tree fault) }
{
    fields_out(
        alloc,
        rule_code(fault),
        rule_name(fault),
        rule_fields(fault),
    )
}
