//! What is printed of a refusal.
ghost use Rattle.std.specs.Prelude.{◌≡◌, string_bytes, IfOk};
ghost use Rattle.batch_commands.specs.FaultMessages.{fault_words, upload_words, rules_words, version_words};

use crate::rules_file::RulesFault;
use bim_model::UploadFault;
use bucket_grid::MOST_MEMBERSHIPS;
use clash_check::{MOST_VERSION_ELEMENTS, VersionFault};
use error_json::{
    FaultFields, many_word, rule_code, rule_fields, rule_name, upload_code, upload_fields,
    upload_name,
};
use std::alloc::{AllocError, Global};

// A fault by its code, its name and its fields, with a blank before each.
fn fault_words(
    alloc: Global,
    code: &str,
    name: &str,
    fields: FaultFields,
) -> Result<String, AllocError>
    ensures { IfOk result (λ text. string_bytes text ≡ fault_words code.now name.now fields) }
{
    match fields {
        FaultFields::Bare => format!(in alloc; "{code} {name}"),
        FaultFields::Place(at) => format!(in alloc; "{code} {name} {at}"),
        FaultFields::Id(id) => format!(in alloc; "{code} {name} {id}"),
        FaultFields::Reference { id, to } => format!(in alloc; "{code} {name} {id} {to}"),
        FaultFields::What(what) => {
            let word = many_word(what);
            format!(in alloc; "{code} {name} {word}")
        }
        FaultFields::Index(index) => format!(in alloc; "{code} {name} {index}"),
        FaultFields::Count(count) => format!(in alloc; "{code} {name} {count}"),
    }
}

/// The number and the name of a fault of an upload, and its fields.
pub fn upload_words(alloc: Global, fault: UploadFault) -> Result<String, AllocError>
    ensures { IfOk result (λ text. string_bytes text ≡ upload_words fault) }
{
    fault_words(
        alloc,
        upload_code(fault),
        upload_name(fault),
        upload_fields(fault),
    )
}

/// The number and the name of a fault of rules, and its field.
pub fn rules_words(alloc: Global, fault: RulesFault) -> Result<String, AllocError>
    ensures { IfOk result (λ text. string_bytes text ≡ rules_words fault) }
{
    match fault {
        RulesFault::BadJson => format!(in alloc; "H9 BadJson"),
        RulesFault::Rule(fault) => {
            fault_words(
                alloc,
                rule_code(fault),
                rule_name(fault),
                rule_fields(fault),
            )
        }
    }
}

/// The number and the name of the fault of a version that is too large, its count and the limit.
pub fn version_words(alloc: Global, fault: VersionFault) -> Result<String, AllocError>
    ensures { IfOk result (λ text. string_bytes text ≡ version_words fault) }
{
    match fault {
        VersionFault::ElementsFull { count } => {
            format!(in alloc; "K7 ElementsFull {count} {MOST_VERSION_ELEMENTS}")
        }
        VersionFault::TooSpread { count } => {
            format!(in alloc; "K8 TooSpread {count} {MOST_MEMBERSHIPS}")
        }
    }
}
