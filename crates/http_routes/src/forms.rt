//! The parameters of a path by their forms.
ghost use Rattle.std.specs.Prelude.{◌≡◌, option_map};
ghost use Rattle.std.specs.List.{list_all};
ghost use Rattle.std.specs.Char.{is_ascii};
ghost use Rattle.matchit.specs.Params.{AllText};
ghost use Rattle.http_routes.specs.PathParameters.{identifier_in, wanted_in};
ghost use Rattle.http_routes.specs.Resources.{place_lent, parts_of, id_in, name_in, version_in, clash_in, topic_place, in_topic, in_clashes, place_for, place_by};

use crate::number_forms::number_in;
use crate::paths::{RoutePath, TopicRow, is_same};
use crate::resource::{Resource, TopicPlace};
use bim_model::is_model_name;
use book_history::Wanted;
use matchit::Params;
use uuid::Uuid;

/// Whether a path has ASCII characters alone.
pub fn are_ascii(path: &[u8]) -> bool
    ensures { result ≡ list_all is_ascii path.now }
{
    path.iter().all(|byte| byte.is_ascii())
}

#[tactic(auto, unfolding(crate::specs::PathParameters::identifier_in), using(crate::proofs::Texts::none_in))]
fn identifier_in(text: &str) -> Option<u128>
    ensures { result ≡ identifier_in text.now }
{
    match Uuid::parse_str(text) {
        Ok(id) => Some(id.as_u128()),
        Err(_) => None,
    }
}

fn wanted_in(text: &str) -> Option<Wanted>
    ensures { result ≡ wanted_in text.now }
{
    if is_same(text.as_bytes(), "newest") {
        return Some(Wanted::Newest);
    }
    match number_in(text) {
        Some(number) => Some(Wanted::Number(number)),
        None => None,
    }
}

// The identifier under that name.
fn id_in(params: &Params<'_, '_>, name: &str) -> Option<u128>
    requires { AllText (parts_of params.now) }
    ensures { result ≡ id_in name.now (parts_of params.now) }
{
    match params.get(name) {
        Some(text) => identifier_in(text),
        None => None,
    }
}

// The name of a model.
fn name_in<'t>(params: &Params<'_, 't>) -> Option<&'t str>
    requires { AllText (parts_of params.now) }
    ensures { option_map (λ name. name.now) result ≡ name_in (parts_of params.now) }
{
    match params.get("name") {
        Some(text) => {
            if is_model_name(text.as_bytes()) {
                Some(text)
            } else {
                None
            }
        }
        None => None,
    }
}

// The version that is wanted.
fn version_in(params: &Params<'_, '_>) -> Option<Wanted>
    requires { AllText (parts_of params.now) }
    ensures { result ≡ version_in (parts_of params.now) }
{
    match params.get("v") {
        Some(text) => wanted_in(text),
        None => None,
    }
}

// The place of a clash.
fn clash_in(params: &Params<'_, '_>) -> Option<u64>
    requires { AllText (parts_of params.now) }
    ensures { result ≡ clash_in (parts_of params.now) }
{
    match params.get("n") {
        Some(text) => number_in(text),
        None => None,
    }
}

// What the parameters name of a topic on a row.
fn topic_place(row: TopicRow, params: &Params<'_, '_>) -> Option<TopicPlace>
    requires { AllText (parts_of params.now) }
    ensures { result ≡ topic_place row (parts_of params.now) }
{
    match row {
        TopicRow::Whole => Some(TopicPlace::Whole),
        TopicRow::Comments => Some(TopicPlace::Comments),
        TopicRow::Comment => match id_in(params, "c") {
            Some(comment) => Some(TopicPlace::Comment(comment)),
            None => None,
        },
        TopicRow::Views => Some(TopicPlace::Views),
        TopicRow::View(part) => match id_in(params, "w") {
            Some(view) => Some(TopicPlace::View(view, part)),
            None => None,
        },
    }
}

// What the parameters name on a row for a topic of a project.
fn in_topic<'t>(
    row: TopicRow,
    params: &Params<'_, 't>,
    project: u128,
    topic: u128,
) -> Option<Resource<'t>>
    requires { AllText (parts_of params.now) }
    ensures { option_map place_lent result ≡ in_topic row (parts_of params.now) project topic }
{
    match topic_place(row, params) {
        Some(place) => Some(Resource::OfTopic {
            project,
            topic,
            place,
        }),
        None => None,
    }
}

// The clash of a version that the parameters name.
fn in_clashes<'t>(params: &Params<'_, 't>, project: u128, wanted: Wanted) -> Option<Resource<'t>>
    requires { AllText (parts_of params.now) }
    ensures { option_map place_lent result ≡ in_clashes (parts_of params.now) project wanted }
{
    match clash_in(params) {
        Some(place) => Some(Resource::Clash {
            project,
            wanted,
            place,
        }),
        None => None,
    }
}

// What the parameters name on a row for a project.
fn resource_for<'t>(row: RoutePath, params: &Params<'_, 't>, project: u128) -> Option<Resource<'t>>
    requires { AllText (parts_of params.now) }
    ensures { option_map place_lent result ≡ place_for row (parts_of params.now) project }
{
    match row {
        RoutePath::Projects => Some(Resource::Projects),
        RoutePath::Project => Some(Resource::Project { project }),
        RoutePath::Topics => Some(Resource::Topics { project }),
        RoutePath::OfTopic(row) => match id_in(params, "t") {
            Some(topic) => in_topic(row, params, project, topic),
            None => None,
        },
        RoutePath::Model => match name_in(params) {
            Some(name) => Some(Resource::Model { project, name }),
            None => None,
        },
        RoutePath::Rules => Some(Resource::Rules { project }),
        RoutePath::Version => match version_in(params) {
            Some(wanted) => Some(Resource::Version { project, wanted }),
            None => None,
        },
        RoutePath::Clashes => match version_in(params) {
            Some(wanted) => Some(Resource::Clashes { project, wanted }),
            None => None,
        },
        RoutePath::ClashTopic => match version_in(params) {
            Some(wanted) => in_clashes(params, project, wanted),
            None => None,
        },
    }
}

/// What the parameters name on a row, where each has its form: an identifier that `uuid` reads, a name of
/// 1 to 64 characters of `A-Za-z0-9_.-`, `newest` or 1 to 15 digits, a place of 1 to 15 digits.
pub fn resource_by<'t>(row: RoutePath, params: &Params<'_, 't>) -> Option<Resource<'t>>
    requires { AllText (parts_of params.now) }
    ensures { option_map place_lent result ≡ place_by row (parts_of params.now) }
{
    if row == RoutePath::Projects {
        return Some(Resource::Projects);
    }
    match id_in(params, "p") {
        Some(project) => resource_for(row, params, project),
        None => None,
    }
}
