//! What targets name.
use crate::paths::{RoutePath, TopicRow};
use bcf_viewpoints::ViewPart;
use book_history::Wanted;

/// What the path of a target names. Projects and topics are named by their identifiers.
#[derive(Clone, Copy)]
pub enum Resource<'t> {
    /// The projects.
    Projects,
    /// A project.
    Project {
        project: u128,
    },
    /// The topics of a project.
    Topics {
        project: u128,
    },
    /// What belongs to a topic of a project.
    OfTopic {
        project: u128,
        topic: u128,
        place: TopicPlace,
    },
    /// A model of a project.
    Model {
        project: u128,
        name: &'t str,
    },
    /// The clash rules of a project.
    Rules {
        project: u128,
    },
    /// A version of a project.
    Version {
        project: u128,
        wanted: Wanted,
    },
    /// The clashes of a version of a project.
    Clashes {
        project: u128,
        wanted: Wanted,
    },
    /// The clash at a place of these, from 0.
    Clash {
        project: u128,
        wanted: Wanted,
        place: u64,
    },
}

/// What a path names of a topic.
#[derive(Clone, Copy)]
pub enum TopicPlace {
    /// The topic itself.
    Whole,
    /// The comments on it.
    Comments,
    /// The comment of that identifier.
    Comment(u128),
    /// Its viewpoints.
    Views,
    /// The viewpoint of that identifier, or a part of it.
    View(u128, ViewPart),
}

impl TopicPlace {
    ghost use Rattle.std.specs.Prelude.{◌≡◌};
    ghost use Rattle.http_routes.specs.Resources.{topic_row_of};

    /// The row of the table that it is on.
    pub fn row(&self) -> TopicRow
        ensures { result ≡ topic_row_of self.now }
    {
        match self {
            TopicPlace::Whole => TopicRow::Whole,
            TopicPlace::Comments => TopicRow::Comments,
            TopicPlace::Comment(_) => TopicRow::Comment,
            TopicPlace::Views => TopicRow::Views,
            TopicPlace::View(_, part) => TopicRow::View(*part),
        }
    }
}

impl Resource<'_> {
    ghost use Rattle.std.specs.Prelude.{◌≡◌};
    ghost use Rattle.http_routes.specs.Resources.{place_lent, row_of, project_at, part_at};

    /// The row of the table that it is on.
    pub fn row(&self) -> RoutePath
        ensures { result ≡ row_of (place_lent self.now) }
    {
        match self {
            Resource::Projects => RoutePath::Projects,
            Resource::Project { .. } => RoutePath::Project,
            Resource::Topics { .. } => RoutePath::Topics,
            Resource::OfTopic { place, .. } => RoutePath::OfTopic(place.row()),
            Resource::Model { .. } => RoutePath::Model,
            Resource::Rules { .. } => RoutePath::Rules,
            Resource::Version { .. } => RoutePath::Version,
            Resource::Clashes { .. } => RoutePath::Clashes,
            Resource::Clash { .. } => RoutePath::ClashTopic,
        }
    }

    /// The identifier of its project, where it names one.
    pub fn project(&self) -> Option<u128>
        ensures { result ≡ project_at (place_lent self.now) }
    {
        match self {
            Resource::Projects => None,
            Resource::Project { project } => Some(*project),
            Resource::Topics { project } => Some(*project),
            Resource::OfTopic { project, .. } => Some(*project),
            Resource::Model { project, .. } => Some(*project),
            Resource::Rules { project } => Some(*project),
            Resource::Version { project, .. } => Some(*project),
            Resource::Clashes { project, .. } => Some(*project),
            Resource::Clash { project, .. } => Some(*project),
        }
    }

    /// The part of a viewpoint that it names, or a whole one.
    pub fn part(&self) -> ViewPart
        ensures { result ≡ part_at (place_lent self.now) }
    {
        match self {
            Resource::OfTopic {
                place: TopicPlace::View(_, part),
                ..
            } => *part,
            _ => ViewPart::Whole,
        }
    }
}
