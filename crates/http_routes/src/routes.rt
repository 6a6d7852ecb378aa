//! The table of routes, as a router.
ghost use Rattle.std.specs.Prelude.{◌≡◌, OnOk, option_map};
ghost use Rattle.std.specs.Str.{IsAscii};
ghost use Rattle.matchit.specs.Seek.{first};
ghost use Rattle.http_routes.specs.Paths.{table, with_row};
ghost use Rattle.http_routes.specs.Resources.{place_lent, place_on, place_at, place_of};

use crate::forms::{are_ascii, resource_by};
use crate::paths::{RoutePath, TopicRow, address_of};
use crate::resource::Resource;
use crate::target::{path_in, split_target};
use bcf_viewpoints::ViewPart;
use matchit::Router;
use std::alloc::{AllocError, Global};
use std::marker::Model;

/// The routes of the table. Making them takes memory, finding one takes none.
#[derive(Drop)]
pub struct Routes {
    router: Router<RoutePath>,
}

impl Model for Routes {
    ghost use Rattle.std.specs.Prelude.{◌≡◌, ⊤};
    ghost use Rattle.http_routes.specs.Paths.{table};

    ghost Value = { ⊤ };

    ghost view = { λ _. tt };

    ghost invariant = { λ r. r.router ≡ table };
}

// The rows, in the order in which they are put in.
const ROWS: [RoutePath; 16] = [
    RoutePath::Projects,
    RoutePath::Project,
    RoutePath::Topics,
    RoutePath::OfTopic(TopicRow::Whole),
    RoutePath::OfTopic(TopicRow::Comments),
    RoutePath::OfTopic(TopicRow::Comment),
    RoutePath::OfTopic(TopicRow::Views),
    RoutePath::OfTopic(TopicRow::View(ViewPart::Whole)),
    RoutePath::OfTopic(TopicRow::View(ViewPart::Selection)),
    RoutePath::OfTopic(TopicRow::View(ViewPart::Coloring)),
    RoutePath::OfTopic(TopicRow::View(ViewPart::Visibility)),
    RoutePath::Model,
    RoutePath::Rules,
    RoutePath::Version,
    RoutePath::Clashes,
    RoutePath::ClashTopic,
];

// Puts in a row.
#[tactic(auto, using(crate::proofs::Routers::put))]
fn put_row(router: &mut Router<RoutePath>, row: RoutePath) -> Result<(), AllocError>
    ensures { OnOk result (router.new ≡ with_row router.old row) }
{
    match router.insert(address_of(row), row) {
        Ok(()) => Ok(()),
        Err(_) => Err(AllocError),
    }
}

// What a path of ASCII characters names.
fn resource_on<'t>(router: &Router<RoutePath>, path: &'t str) -> Option<Resource<'t>>
    requires table { router.now ≡ table }
    requires ascii { IsAscii path.now }
    ensures { option_map place_lent result ≡ place_on path.now (first table path.now) }
{
    match router.at(path) {
        Ok(found) => resource_by(*found.value, &found.params),
        Err(_) => None,
    }
}

// What a path names.
fn resource_at<'t>(router: &Router<RoutePath>, path: &'t [u8]) -> Option<Resource<'t>>
    requires { router.now ≡ table }
    ensures { option_map place_lent result ≡ place_at path.now }
{
    if !are_ascii(path) {
        return None;
    }
    match str::from_utf8(path) {
        Ok(text) => resource_on(router, text),
        Err(_) => unreachable!(),
    }
}

impl Routes {
    /// The routes of the table.
    #[tactic(auto, unfolding(crate::specs::Paths::table))]
    pub fn new(alloc: Global) -> Result<Routes, AllocError> {
        let mut router = Router::new(alloc);
        for row in ROWS {
            put_row(&mut router, row)?;
        }
        Ok(Routes { router })
    }

    /// What a target names, where it names something.
    #[tactic(auto, unfolding(crate::specs::Resources::place_of))]
    pub fn resource_of<'t>(&self, target: &'t [u8]) -> Option<Resource<'t>>
        ensures { option_map place_lent result ≡ place_of target.now }
    {
        let (before, _) = split_target(target);
        match path_in(before) {
            Some(path) => resource_at(&self.router, path),
            None => None,
        }
    }
}
