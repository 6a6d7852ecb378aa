//! Lists as arrays.
ghost use Rattle.std.specs.Prelude.{◌≡◌, ◌++◌, ◌∷◌, [], map, IfOk, OnOk, MatchOption};
ghost use Rattle.std.specs.List.{slice_get};
ghost use Rattle.serde_json.specs.Data.{array};
ghost use Rattle.serde_json.specs.View.{view};
ghost use Rattle.bcf_bodies.specs.TextMembers.{listed};
ghost use Rattle.bcf_bodies.specs.TopicTrees.{IsTopicTree};
ghost use Rattle.bcf_bodies.specs.CommentTrees.{IsCommentTree};
ghost use Rattle.bcf_bodies.specs.ViewTrees.{whole_tree};
ghost use Rattle.bcf_http.specs.Answers.{project_tree, IsArrayOf};
ghost use Rattle.bcf_http.specs.ListRequests.{topics_at};

use bcf_bodies::{comment_out, topic_out, view_out};
use bcf_json::identifier_out;
use bcf_topics::{Comment, Topic};
use bcf_viewpoints::{CheckedView, ViewPart};
use bim_model::Shared;
use serde_json::{Value, json};
use std::alloc::{AllocError, Global};

/// A project, which is named by its number.
#[tactic(auto, unfolding(crate::specs::Answers::project_tree))]
pub fn project_out(alloc: Global, number: u32) -> Result<Value, AllocError>
    ensures { IfOk result (λ v. view v ≡ project_tree number) }
{
    let name = format!(in alloc; "Project {number}")?;
    let id = identifier_out(alloc, number, 0)?;
    json!(in alloc; { "name": name.as_str(), "project_id": id.as_str() })
}

fn push_project(alloc: Global, trees: &mut Vec<Value>, number: u32) -> Result<(), AllocError>
    ensures { OnOk result (map view trees.new.items
        ≡ map view trees.old.items ++ project_tree number ∷ []) }
{
    trees.push(project_out(alloc, number)?)?;
    Ok(())
}

/// Projects.
pub fn projects_out(alloc: Global, numbers: &[u32]) -> Result<Value, AllocError>
    ensures { IfOk result (λ v. view v ≡ array (listed project_tree numbers.now)) }
{
    let mut trees = Vec::with_capacity(alloc, numbers.len())?;
    for number in numbers {
        push_project(alloc, &mut trees, *number)?;
    }
    Ok(Value::Array(trees))
}

fn push_topic(
    alloc: Global,
    project: u32,
    trees: &mut Vec<Value>,
    topic: &Topic,
) -> Result<(), AllocError>
    ensures { OnOk result ((v : _) × IsTopicTree project topic.now (view v)
        × (trees.new.items ≡ trees.old.items ++ v ∷ [])) }
{
    trees.push(topic_out(alloc, project, topic)?)?;
    Ok(())
}

/// Topics of a project.
pub fn topics_out(
    alloc: Global,
    project: u32,
    topics: &[Shared<Topic>],
) -> Result<Value, AllocError>
    ensures { IfOk result (λ v. IsArrayOf (IsTopicTree project) topics.now (view v)) }
{
    let mut trees = Vec::with_capacity(alloc, topics.len())?;
    for topic in topics {
        push_topic(alloc, project, &mut trees, topic.get())?;
    }
    Ok(Value::Array(trees))
}

// One more of the topics of a project, if there is one at this place.
fn push_topic_at(
    alloc: Global,
    project: u32,
    trees: &mut Vec<Value>,
    topics: &[Shared<Topic>],
    place: u32,
) -> Result<(), AllocError>
    ensures { OnOk result (MatchOption (slice_get topics.now place) (trees.new.items ≡ trees.old.items)
        (λ topic. (v : _) × IsTopicTree project topic (view v)
        × (trees.new.items ≡ trees.old.items ++ v ∷ []))) }
{
    match topics.get(place as usize) {
        Some(topic) => push_topic(alloc, project, trees, topic.get()),
        None => Ok(()),
    }
}

/// The topics of a project at these places.
pub fn topics_at_out(
    alloc: Global,
    project: u32,
    topics: &[Shared<Topic>],
    places: &[u32],
) -> Result<Value, AllocError>
    ensures { IfOk result (λ v. IsArrayOf (IsTopicTree project) (topics_at topics.now places.now) (view v)) }
{
    let mut trees = Vec::with_capacity(alloc, places.len())?;
    for place in places {
        push_topic_at(alloc, project, &mut trees, topics, *place)?;
    }
    Ok(Value::Array(trees))
}

fn push_comment(
    alloc: Global,
    project: u32,
    trees: &mut Vec<Value>,
    comment: &Comment,
) -> Result<(), AllocError>
    ensures { OnOk result ((v : _) × IsCommentTree project comment.now (view v)
        × (trees.new.items ≡ trees.old.items ++ v ∷ [])) }
{
    trees.push(comment_out(alloc, project, comment)?)?;
    Ok(())
}

/// Comments of a project.
pub fn comments_out(alloc: Global, project: u32, comments: &[Comment]) -> Result<Value, AllocError>
    ensures { IfOk result (λ v. IsArrayOf (IsCommentTree project) comments.now (view v)) }
{
    let mut trees = Vec::with_capacity(alloc, comments.len())?;
    for comment in comments {
        push_comment(alloc, project, &mut trees, comment)?;
    }
    Ok(Value::Array(trees))
}

#[tactic(auto, unfolding(bcf_bodies::specs::ViewTrees::view_tree))]
fn push_view(
    alloc: Global,
    project: u32,
    trees: &mut Vec<Value>,
    viewpoint: &CheckedView,
) -> Result<(), AllocError>
    ensures { OnOk result (map view trees.new.items
        ≡ map view trees.old.items ++ whole_tree project viewpoint.now ∷ []) }
{
    trees.push(view_out(alloc, project, viewpoint.get(), ViewPart::Whole)?)?;
    Ok(())
}

/// Viewpoints of a project, without their components.
pub fn views_out(alloc: Global, project: u32, views: &[CheckedView]) -> Result<Value, AllocError>
    ensures { IfOk result (λ v. view v ≡ array (listed (whole_tree project) views.now)) }
{
    let mut trees = Vec::with_capacity(alloc, views.len())?;
    for viewpoint in views {
        push_view(alloc, project, &mut trees, viewpoint)?;
    }
    Ok(Value::Array(trees))
}
