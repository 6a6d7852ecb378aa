//! The viewpoints of a project.
ghost use Rattle.std.specs.Prelude.{◌≡◌, ◌<◌, ◌^◌, [], ℕ, length, option_copied, is_ok, is_some, if◌then◌else◌, IfOk, IfSome, OnOk, OnErr};
ghost use Rattle.bcf_viewpoints.specs.Viewpoints.{IsViewBody, AreViews, view_of, views_of, views_on, views_with, views_but, views_off, deleted};

use crate::checked::CheckedView;
use crate::view::ViewBody;
use bim_model::{Duplicate, Items};
use std::alloc::{AllocError, Global};
use std::collections::BTreeMap;
use std::marker::Model;

/// Why a viewpoint isn't deleted.
#[derive(Clone, Copy, Debug, PartialEq, Eq)]
pub enum ViewError {
    /// B7: the topic has no viewpoint of that number.
    NoViewpoint,
}

/// The viewpoints of a project. Contracts see them as a list: each under its topic's serial number and its
/// own, in the order of these. The identifiers of their components are such.
#[derive(Drop)]
pub struct Viewpoints {
    alloc: Global,
    views: BTreeMap<(u64, u64), ViewBody>,
}

impl Model for Viewpoints {
    ghost use Rattle.bcf_viewpoints.specs.Viewpoints.{Views, AreViews};

    ghost Value = { Views };

    ghost view = { λ v. v.views.entries };

    ghost invariant = { λ v. AreViews v.views.entries };
}

#[tactic(auto, unfolding(crate::specs::Viewpoints::views_with))]
fn insert(
    views: &mut BTreeMap<(u64, u64), ViewBody>,
    topic: u64,
    serial: u64,
    body: ViewBody,
) -> Result<(), AllocError>
    requires kept { AreViews views.old.entries }
    requires body { IsViewBody body }
    ensures ok { OnOk result (views.new.entries ≡ views_with topic serial body views.old.entries) }
    ensures err { OnErr result (views.new.entries ≡ views.old.entries) }
    ensures kept { AreViews views.new.entries }
{
    views.insert((topic, serial), body)?;
    Ok(())
}

#[tactic(auto, unfolding(crate::specs::Viewpoints::view_of, crate::specs::Viewpoints::views_but))]
fn remove(views: &mut BTreeMap<(u64, u64), ViewBody>, topic: u64, serial: u64) -> bool
    requires { AreViews views.old.entries }
    ensures found { result ≡ is_some (view_of topic serial views.old.entries) }
    ensures after { views.new.entries
        ≡ (if result then views_but topic serial views.old.entries else views.old.entries) }
    ensures kept { AreViews views.new.entries }
{
    views.remove(&(topic, serial)).is_some()
}

fn remove_all(views: &mut BTreeMap<(u64, u64), ViewBody>, topic: u64)
    requires { AreViews views.old.entries }
    ensures after { views.new.entries ≡ views_off topic views.old.entries }
    ensures kept { AreViews views.new.entries }
{
    views.retain(|place, _| place.0 != topic);
}

fn list(
    alloc: Global,
    views: &BTreeMap<(u64, u64), ViewBody>,
    topic: u64,
) -> Result<Vec<u64>, AllocError>
    requires { topic < 2 ^ 48 }
    ensures { IfOk result (λ list. list.items ≡ views_of topic views.now.entries) }
{
    let mut list = Vec::new(alloc);
    for (place, _) in views.range((topic, 0)..(topic + 1, 0)) {
        list.push(place.1)?;
    }
    Ok(list)
}

fn listed(
    alloc: Global,
    views: &BTreeMap<(u64, u64), ViewBody>,
    topic: u64,
) -> Result<Items<CheckedView>, AllocError>
    requires few { topic < 2 ^ 48 }
    requires kept { AreViews views.now.entries }
    ensures { IfOk result (λ list. list ≡ views_on topic views.now.entries) }
{
    let mut list = Items::new(alloc);
    for (place, body) in views.range((topic, 0)..(topic + 1, 0)) {
        list.push(CheckedView::of(place.1, body.copy(alloc)?))?;
    }
    Ok(list)
}

impl Viewpoints {
    /// No viewpoints.
    pub fn new(alloc: Global) -> Viewpoints
        ensures { result ≡ [] }
    {
        Viewpoints {
            alloc,
            views: BTreeMap::new(alloc),
        }
    }

    /// Makes a viewpoint of a topic. An `Err` leaves all as it was.
    pub fn post(&mut self, serial: u64, topic: u64, body: ViewBody) -> Result<(), AllocError>
        requires { IsViewBody body }
        ensures ok { OnOk result (self.new ≡ views_with topic serial body self.old) }
        ensures err { OnErr result (self.new ≡ self.old) }
    {
        insert(&mut self.views, topic, serial, body)
    }

    /// How many viewpoints there are of all topics.
    pub fn count(&self) -> u64
        ensures { result ≡ length self.now }
    {
        self.views.len() as u64
    }

    /// Deletes a viewpoint. B7 where the topic has none of that number, and then all stays as it was.
    /// Takes no memory.
    #[tactic(auto, using(crate::proofs::Kept::answered))]
    pub fn delete(&mut self, topic: u64, serial: u64) -> Result<(), ViewError>
        ensures answer { result ≡ deleted (view_of topic serial self.old) }
        ensures after { self.new ≡ (if is_ok result then views_but topic serial self.old else self.old) }
    {
        if remove(&mut self.views, topic, serial) {
            Ok(())
        } else {
            Err(ViewError::NoViewpoint)
        }
    }

    /// Deletes the viewpoints of a topic, in one pass. Takes no memory.
    pub fn drop_topic(&mut self, topic: u64)
        ensures { self.new ≡ views_off topic self.old }
    {
        remove_all(&mut self.views, topic);
    }

    /// The viewpoint of that serial number of that topic.
    #[tactic(auto, unfolding(crate::specs::Viewpoints::view_of))]
    pub fn get(&self, topic: u64, serial: u64) -> Option<&ViewBody>
        ensures value { option_copied result ≡ view_of topic serial self.now }
        ensures good { IfSome result (λ body. IsViewBody body.now) }
    {
        self.views.get(&(topic, serial))
    }

    /// The serial numbers of a topic's viewpoints, rising; none where there is no such topic.
    pub fn list(&self, topic: u64) -> Result<Vec<u64>, AllocError>
        requires { topic < 2 ^ 48 }
        ensures { IfOk result (λ list. list.items ≡ views_of topic self.now) }
    {
        list(self.alloc, &self.views, topic)
    }

    /// The viewpoints of a topic by rising serial number, copied; none where there is no such topic.
    pub fn listed(&self, topic: u64) -> Result<Items<CheckedView>, AllocError>
        requires { topic < 2 ^ 48 }
        ensures { IfOk result (λ list. list ≡ views_on topic self.now) }
    {
        listed(self.alloc, &self.views, topic)
    }
}
