//! The rows of the table of routes.
ghost use Rattle.std.specs.Prelude.{◌≡◌, bytes_eq};
ghost use Rattle.http_routes.specs.Paths.{topic_address, address_of, topic_methods, methods_of, has_method, joined};

use bcf_viewpoints::ViewPart;

/// A row of the table of routes.
#[derive(Clone, Copy, Debug, PartialEq, Eq)]
pub enum RoutePath {
    /// The projects: GET.
    Projects,
    /// A project: GET.
    Project,
    /// The topics of a project: GET, POST.
    Topics,
    /// What belongs to a topic.
    OfTopic(TopicRow),
    /// A model of a project: PUT, DELETE.
    Model,
    /// The clash rules of a project: PUT.
    Rules,
    /// A version of a project: GET.
    Version,
    /// The clashes of a version: GET.
    Clashes,
    /// A topic that is made of a clash: POST.
    ClashTopic,
}

/// A row for what belongs to a topic.
#[derive(Clone, Copy, Debug, PartialEq, Eq)]
pub enum TopicRow {
    /// The topic: GET, PUT, DELETE.
    Whole,
    /// The comments on it: GET, POST.
    Comments,
    /// A comment on it: GET, PUT, DELETE.
    Comment,
    /// Its viewpoints: GET, POST.
    Views,
    /// A viewpoint of it: GET, DELETE; a part of one: GET.
    View(ViewPart),
}

/// Whether the bytes are those of the text.
pub fn is_same(bytes: &[u8], text: &str) -> bool
    ensures { result ≡ bytes_eq bytes.now text.now }
{
    bytes == text.as_bytes()
}

// The address of a row for what belongs to a topic.
fn topic_address(row: TopicRow) -> &'static str
    ensures { result.now ≡ topic_address row }
{
    match row {
        TopicRow::Whole => "/bcf/3.0/projects/{p}/topics/{t}",
        TopicRow::Comments => "/bcf/3.0/projects/{p}/topics/{t}/comments",
        TopicRow::Comment => "/bcf/3.0/projects/{p}/topics/{t}/comments/{c}",
        TopicRow::Views => "/bcf/3.0/projects/{p}/topics/{t}/viewpoints",
        TopicRow::View(ViewPart::Whole) => "/bcf/3.0/projects/{p}/topics/{t}/viewpoints/{w}",
        TopicRow::View(ViewPart::Selection) => {
            "/bcf/3.0/projects/{p}/topics/{t}/viewpoints/{w}/selection"
        }
        TopicRow::View(ViewPart::Coloring) => {
            "/bcf/3.0/projects/{p}/topics/{t}/viewpoints/{w}/coloring"
        }
        TopicRow::View(ViewPart::Visibility) => {
            "/bcf/3.0/projects/{p}/topics/{t}/viewpoints/{w}/visibility"
        }
    }
}

/// The address of a row, as the router reads it: each part in braces is a parameter.
pub fn address_of(path: RoutePath) -> &'static str
    ensures { result.now ≡ address_of path }
{
    match path {
        RoutePath::Projects => "/bcf/3.0/projects",
        RoutePath::Project => "/bcf/3.0/projects/{p}",
        RoutePath::Topics => "/bcf/3.0/projects/{p}/topics",
        RoutePath::OfTopic(row) => topic_address(row),
        RoutePath::Model => "/coord/1/projects/{p}/models/{name}",
        RoutePath::Rules => "/coord/1/projects/{p}/rules",
        RoutePath::Version => "/coord/1/projects/{p}/versions/{v}",
        RoutePath::Clashes => "/coord/1/projects/{p}/versions/{v}/clashes",
        RoutePath::ClashTopic => "/coord/1/projects/{p}/versions/{v}/clashes/{n}/topic",
    }
}

// The methods of a row for what belongs to a topic.
fn topic_methods(row: TopicRow) -> &'static str
    ensures { result.now ≡ joined (topic_methods row) }
{
    match row {
        TopicRow::Whole => "GET, PUT, DELETE",
        TopicRow::Comments => "GET, POST",
        TopicRow::Comment => "GET, PUT, DELETE",
        TopicRow::Views => "GET, POST",
        TopicRow::View(ViewPart::Whole) => "GET, DELETE",
        TopicRow::View(ViewPart::Selection) => "GET",
        TopicRow::View(ViewPart::Coloring) => "GET",
        TopicRow::View(ViewPart::Visibility) => "GET",
    }
}

/// The methods of a row, as `Allow` tells them (RFC 9110, 10.2.1).
pub fn methods_text(path: RoutePath) -> &'static str
    ensures { result.now ≡ joined (methods_of path) }
{
    match path {
        RoutePath::Projects => "GET",
        RoutePath::Project => "GET",
        RoutePath::Topics => "GET, POST",
        RoutePath::OfTopic(row) => topic_methods(row),
        RoutePath::Model => "PUT, DELETE",
        RoutePath::Rules => "PUT",
        RoutePath::Version => "GET",
        RoutePath::Clashes => "GET",
        RoutePath::ClashTopic => "POST",
    }
}

// Whether a row for what belongs to a topic has the method.
fn topic_has(row: TopicRow, method: &[u8]) -> bool
    ensures { result ≡ has_method (RoutePath.OfTopic row) method.now }
{
    let get = is_same(method, "GET");
    let put = is_same(method, "PUT");
    let post = is_same(method, "POST");
    let delete = is_same(method, "DELETE");
    match row {
        TopicRow::Whole => get || put || delete,
        TopicRow::Comments => get || post,
        TopicRow::Comment => get || put || delete,
        TopicRow::Views => get || post,
        TopicRow::View(ViewPart::Whole) => get || delete,
        TopicRow::View(ViewPart::Selection) => get,
        TopicRow::View(ViewPart::Coloring) => get,
        TopicRow::View(ViewPart::Visibility) => get,
    }
}

/// Whether a row has the method.
pub fn has_method(path: RoutePath, method: &[u8]) -> bool
    ensures { result ≡ has_method path method.now }
{
    match path {
        RoutePath::Projects => is_same(method, "GET"),
        RoutePath::Project => is_same(method, "GET"),
        RoutePath::Topics => is_same(method, "GET") || is_same(method, "POST"),
        RoutePath::OfTopic(row) => topic_has(row, method),
        RoutePath::Model => is_same(method, "PUT") || is_same(method, "DELETE"),
        RoutePath::Rules => is_same(method, "PUT"),
        RoutePath::Version => is_same(method, "GET"),
        RoutePath::Clashes => is_same(method, "GET"),
        RoutePath::ClashTopic => is_same(method, "POST"),
    }
}
