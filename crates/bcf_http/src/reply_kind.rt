//! What responses need of their requests.
ghost use Rattle.std.specs.Prelude.{◌≡◌, option_map};
ghost use Rattle.http_routes.specs.Resources.{place_lent};
ghost use Rattle.bcf_http.specs.ReplyKinds.{number_of, number_if, creates, kind_at, no_kind};

use bcf_viewpoints::ViewPart;
use bim_model::id_of;
use http_frame::HttpRequest;
use http_routes::{Resource, RoutePath, is_same};

/// What the response needs of its request.
#[derive(Clone, Copy, Debug, PartialEq, Eq)]
pub struct ReplyKind {
    /// The number of the project that the path names, or 0.
    pub project: u32,
    /// Whether success is answered 201.
    pub created: bool,
    /// Whether the method is HEAD.
    pub head: bool,
    /// The part of a viewpoint that the path names, or a whole one.
    pub part: ViewPart,
}

impl ReplyKind {
    /// For a response where there is no request.
    pub fn none() -> ReplyKind
        ensures { result ≡ no_kind }
    {
        ReplyKind {
            project: 0,
            created: false,
            head: false,
            part: ViewPart::Whole,
        }
    }
}

// The number of the project whose own identifier this is, or 0.
#[tactic(auto, unfolding(crate::specs::ReplyKinds::number_of))]
fn number_of(id: u128) -> u32
    ensures { result ≡ number_of id }
{
    let number = (id >> 96) as u32;
    if id == id_of(number, 0) { number } else { 0 }
}

fn creates(method: &[u8], row: RoutePath) -> bool
    ensures { result ≡ creates method.now row }
{
    is_same(method, "POST") || (row == RoutePath::Model && is_same(method, "PUT"))
}

// The number of a project, if one is named.
fn number_if(id: Option<u128>) -> u32
    ensures { result ≡ number_if id }
{
    match id {
        Some(id) => number_of(id),
        None => 0,
    }
}

/// What the response needs of the request, by what its target names.
pub fn kind_at(request: &HttpRequest, named: Option<Resource<'_>>) -> ReplyKind
    ensures { result ≡ kind_at request.now (option_map place_lent named.entry) }
{
    let method = request.method.as_slice();
    let head = is_same(method, "HEAD");
    match named {
        Some(resource) => ReplyKind {
            project: number_if(resource.project()),
            created: creates(method, resource.row()),
            head,
            part: resource.part(),
        },
        None => ReplyKind {
            project: 0,
            created: false,
            head,
            part: ViewPart::Whole,
        },
    }
}
