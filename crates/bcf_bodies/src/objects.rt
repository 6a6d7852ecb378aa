//! The members of objects that go out.
ghost use Rattle.std.specs.Prelude.{◌≡◌, option_map, OnOk};
ghost use Rattle.serde_json.specs.Data.{string};
ghost use Rattle.serde_json.specs.View.{view, members_view};
ghost use Rattle.bcf_bodies.specs.TextMembers.{put_text, put_text_if};
ghost use Rattle.bcf_bodies.specs.TopicTrees.{put_index};

use bim_model::Text;
use serde_json::{Map, Value, put};
use std::alloc::{AllocError, Global};

/// Puts a text under that name.
pub fn put_text(
    alloc: Global,
    members: &mut Map<String, Value>,
    name: &str,
    text: &str,
) -> Result<(), AllocError>
    ensures { OnOk result (members_view members.new.entries
        ≡ put_text name.now text.now (members_view members.old.entries)) }
{
    let value = Value::String(String::from_str(alloc, text)?);
    put(members, alloc, name, value)
}

/// Puts a text under that name, if there is one.
pub fn put_text_if(
    alloc: Global,
    members: &mut Map<String, Value>,
    name: &str,
    text: &Option<Text>,
) -> Result<(), AllocError>
    ensures { OnOk result (members_view members.new.entries
        ≡ put_text_if name.now text.now (members_view members.old.entries)) }
{
    match text {
        Some(text) => put_text(alloc, members, name, text.as_str()),
        None => Ok(()),
    }
}

/// Puts an index, if there is one.
pub fn put_index(
    alloc: Global,
    members: &mut Map<String, Value>,
    index: Option<i32>,
) -> Result<(), AllocError>
    ensures { OnOk result (members_view members.new.entries
        ≡ put_index index (members_view members.old.entries)) }
{
    match index {
        Some(index) => put(members, alloc, "index", Value::from(index)),
        None => Ok(()),
    }
}
