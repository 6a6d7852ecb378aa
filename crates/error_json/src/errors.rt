//! Errors as JSON values: a code, the code and its name, and the fields of the fault.
ghost use Rattle.std.specs.Prelude.{◌≡◌, ◌++◌, codes, string_bytes, IfOk};
ghost use Rattle.serde_json.specs.View.{view};
ghost use Rattle.error_json.specs.Errors.{message, error_tree, error_at, error_of, error_to, error_many, error_named, error_index, error_count, error_full, error_place, error_turn, error_store, error_newest, error_version};

use serde_json::{Value, json};
use std::alloc::{AllocError, Global};

// A code and a name after it.
fn message(alloc: Global, code: &str, name: &str) -> Result<String, AllocError>
    ensures { IfOk result (λ s. string_bytes s ≡ message code.now name.now) }
{
    let mut text = String::from_str(alloc, code)?;
    text.push_str(" ")?;
    text.push_str(name)?;
    Ok(text)
}

/// An error without fields.
#[tactic(auto, unfolding(crate::specs::Errors::error_tree))]
pub fn error_out(alloc: Global, code: &str, name: &str) -> Result<Value, AllocError>
    ensures { IfOk result (λ v. view v ≡ error_tree code.now name.now) }
{
    let text = message(alloc, code, name)?;
    json!(in alloc; { "code": code, "message": text.as_str() })
}

/// An error at a place of the bytes.
#[tactic(auto, unfolding(crate::specs::Errors::error_at))]
pub fn error_at(alloc: Global, code: &str, name: &str, at: u64) -> Result<Value, AllocError>
    ensures { IfOk result (λ v. view v ≡ error_at code.now name.now at) }
{
    let text = message(alloc, code, name)?;
    json!(in alloc; { "at": at, "code": code, "message": text.as_str() })
}

/// An error of an instance.
#[tactic(auto, unfolding(crate::specs::Errors::error_of))]
pub fn error_of(alloc: Global, code: &str, name: &str, id: u64) -> Result<Value, AllocError>
    ensures { IfOk result (λ v. view v ≡ error_of code.now name.now id) }
{
    let text = message(alloc, code, name)?;
    json!(in alloc; { "code": code, "id": id, "message": text.as_str() })
}

/// An error of an instance that refers to another.
#[tactic(auto, unfolding(crate::specs::Errors::error_to))]
pub fn error_to(
    alloc: Global,
    code: &str,
    name: &str,
    id: u64,
    to: u64,
) -> Result<Value, AllocError>
    ensures { IfOk result (λ v. view v ≡ error_to code.now name.now id to) }
{
    let text = message(alloc, code, name)?;
    json!(in alloc; { "code": code, "id": id, "message": text.as_str(), "to": to })
}

/// An error of too many.
#[tactic(auto, unfolding(crate::specs::Errors::error_many))]
pub fn error_many(alloc: Global, code: &str, name: &str, what: &str) -> Result<Value, AllocError>
    ensures { IfOk result (λ v. view v ≡ error_many code.now name.now what.now) }
{
    let text = message(alloc, code, name)?;
    json!(in alloc; { "code": code, "message": text.as_str(), "what": what })
}

/// An error of something by its name.
#[tactic(auto, unfolding(crate::specs::Errors::error_named))]
pub fn error_named(alloc: Global, code: &str, name: &str, what: &str) -> Result<Value, AllocError>
    ensures { IfOk result (λ v. view v ≡ error_named code.now name.now what.now) }
{
    let text = message(alloc, code, name)?;
    json!(in alloc; { "code": code, "message": text.as_str(), "name": what })
}

/// An error of an item of a list, by its place from 0.
#[tactic(auto, unfolding(crate::specs::Errors::error_index))]
pub fn error_index(alloc: Global, code: &str, name: &str, index: u64) -> Result<Value, AllocError>
    ensures { IfOk result (λ v. view v ≡ error_index code.now name.now index) }
{
    let text = message(alloc, code, name)?;
    json!(in alloc; { "code": code, "index": index, "message": text.as_str() })
}

/// An error of so many things.
#[tactic(auto, unfolding(crate::specs::Errors::error_count))]
pub fn error_count(alloc: Global, code: &str, name: &str, count: u64) -> Result<Value, AllocError>
    ensures { IfOk result (λ v. view v ≡ error_count code.now name.now count) }
{
    let text = message(alloc, code, name)?;
    json!(in alloc; { "code": code, "count": count, "message": text.as_str() })
}

/// An error of more than there may be.
#[tactic(auto, unfolding(crate::specs::Errors::error_full))]
pub fn error_full(
    alloc: Global,
    code: &str,
    name: &str,
    count: u64,
    limit: u64,
) -> Result<Value, AllocError>
    ensures { IfOk result (λ v. view v ≡ error_full code.now name.now count limit) }
{
    let text = message(alloc, code, name)?;
    json!(in alloc; { "code": code, "count": count, "limit": limit, "message": text.as_str() })
}

/// An error of a place, of so many.
#[tactic(auto, unfolding(crate::specs::Errors::error_place))]
pub fn error_place(
    alloc: Global,
    code: &str,
    name: &str,
    place: u64,
    total: u64,
) -> Result<Value, AllocError>
    ensures { IfOk result (λ v. view v ≡ error_place code.now name.now place total) }
{
    let text = message(alloc, code, name)?;
    json!(in alloc; { "code": code, "message": text.as_str(), "place": place, "total": total })
}

/// An error of a turn that is given, in another turn.
#[tactic(auto, unfolding(crate::specs::Errors::error_turn))]
pub fn error_turn(
    alloc: Global,
    code: &str,
    name: &str,
    given: u64,
    turn: u64,
) -> Result<Value, AllocError>
    ensures { IfOk result (λ v. view v ≡ error_turn code.now name.now given turn) }
{
    let text = message(alloc, code, name)?;
    json!(in alloc; { "code": code, "given": given, "message": text.as_str(), "turn": turn })
}

/// An error of more than there may be of a kind of things.
#[tactic(auto, unfolding(crate::specs::Errors::error_store))]
pub fn error_store(
    alloc: Global,
    code: &str,
    name: &str,
    count: u64,
    limit: u64,
    what: &str,
) -> Result<Value, AllocError>
    ensures { IfOk result (λ v. view v ≡ error_store code.now name.now count limit what.now) }
{
    let text = message(alloc, code, name)?;
    json!(in alloc; {
        "code": code,
        "count": count,
        "limit": limit,
        "message": text.as_str(),
        "what": what
    })
}

/// An error of a version that is above the newest.
#[tactic(auto, unfolding(crate::specs::Errors::error_newest))]
pub fn error_newest(alloc: Global, code: &str, name: &str, newest: u64) -> Result<Value, AllocError>
    ensures { IfOk result (λ v. view v ≡ error_newest code.now name.now newest) }
{
    let text = message(alloc, code, name)?;
    json!(in alloc; { "code": code, "message": text.as_str(), "newest": newest })
}

/// An error of a version, beside the newest one.
#[tactic(auto, unfolding(crate::specs::Errors::error_version))]
pub fn error_version(
    alloc: Global,
    code: &str,
    name: &str,
    newest: u64,
    version: u64,
) -> Result<Value, AllocError>
    ensures { IfOk result (λ v. view v ≡ error_version code.now name.now newest version) }
{
    let text = message(alloc, code, name)?;
    json!(in alloc; {
        "code": code,
        "message": text.as_str(),
        "newest": newest,
        "version": version
    })
}
