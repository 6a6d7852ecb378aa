//! The data of building models, and of who changes them, that the other crates share.
#![tactic(auto)]

mod author;
mod bytes;
mod distance;
mod element;
mod geometry;
mod guid;
mod identifiers;
mod items;
mod keys;
mod known;
mod laws;
mod limits;
mod model;
mod moment;
mod named_model;
mod names;
mod rules;
mod shared;
mod snapshot;
mod steps;
mod text;
mod upload;
mod validity;

pub use author::Author;
pub use bytes::Bytes;
pub use distance::Distance;
pub use element::Element;
pub use geometry::{Extent, FARTHEST, GRID_LIMIT, PER_MM, Point, Triangle, extent_of};
pub use guid::Guid;
pub use identifiers::{id_of, serial_of};
pub use items::{Duplicate, Items};
pub use keys::{ElementKey, Pair};
pub use known::know;
pub use laws::{keys_rise, names_tell_models, smallest_boxes_are_unique};
pub use limits::{
    MOST_CLASS, MOST_DISTANCE, MOST_LEVEL, MOST_NAME, MOST_RULES, MOST_TRIANGLES, MOST_UPLOAD,
};
pub use model::Model;
pub use moment::Moment;
pub use named_model::NamedModel;
pub use names::is_model_name;
pub use rules::{
    ClassTest, Found, Meeting, ModelTest, Rule, RuleKind, Rules, StoreyTest, greatest_distance,
    rule_of,
};
pub use shared::Shared;
pub use snapshot::Snapshot;
pub use steps::Steps;
pub use text::Text;
pub use upload::{BuildError, Many, Mode, UploadFault};
