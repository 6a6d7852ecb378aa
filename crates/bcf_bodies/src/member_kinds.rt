//! Whether members are of the kind that they may be.
ghost use Rattle.std.specs.Prelude.{◌≡◌};
ghost use Rattle.serde_json.specs.View.{view};
ghost use Rattle.bcf_bodies.specs.Members.{is_list, is_table, is_flag};

use serde_json::Value;

/// Whether an array stands under that name, or nothing.
#[tactic(auto, unfolding(crate::specs::Members::is_list))]
pub fn is_list(name: &str, tree: &Value) -> bool
    ensures { result ≡ is_list name.now (view tree.now) }
{
    match tree.get(name) {
        Some(value) => value.is_null() || value.is_array(),
        None => true,
    }
}

/// Whether an object stands under that name, or nothing.
#[tactic(auto, unfolding(crate::specs::Members::is_table))]
pub fn is_table(name: &str, tree: &Value) -> bool
    ensures { result ≡ is_table name.now (view tree.now) }
{
    match tree.get(name) {
        Some(value) => value.is_null() || value.is_object(),
        None => true,
    }
}

/// Whether a truth value stands under that name, or nothing.
#[tactic(auto, unfolding(crate::specs::Members::is_flag))]
pub fn is_flag(name: &str, tree: &Value) -> bool
    ensures { result ≡ is_flag name.now (view tree.now) }
{
    match tree.get(name) {
        Some(value) => value.is_null() || value.is_boolean(),
        None => true,
    }
}
