//! Viewpoints come and go.
ghost use Rattle.bcf_viewpoints.specs.Viewpoints.{IsViewBody};

use bcf_viewpoints::{
    CheckedBody, CheckedView, Coloring, Component, ViewBody, ViewError, ViewIs, Viewpoints,
};
use bim_model::{Duplicate, Guid, Items, Text};
use std::alloc::{AllocError, Global};
use std::process::Abort;
use std::test::Fail;

fn component(alloc: Global, system: &str) -> Result<Component, AllocError> {
    Ok(Component {
        ifc_guid: Guid::read(b"0000000000000000000011"),
        originating_system: Some(Text::of(alloc, system)?),
        authoring_tool_id: None,
    })
}

fn no_body(alloc: Global, index: Option<i32>) -> ViewBody
    ensures { IsViewBody result }
{
    ViewBody {
        index,
        selection: Items::new(alloc),
        coloring: Items::new(alloc),
        default_visibility: false,
        exceptions: Items::new(alloc),
    }
}

// Viewpoints 3, 9 and 12 of the topic 1, and 4 of the topic 2.
fn made(alloc: Global) -> Result<Viewpoints, AllocError> {
    let mut views = Viewpoints::new(alloc);
    for (serial, topic) in [(9, 1), (3, 1), (4, 2), (12, 1)] {
        views.post(serial, topic, no_body(alloc, None))?;
    }
    Ok(views)
}

fn serials(alloc: Global, views: &[CheckedView]) -> Result<Vec<u64>, AllocError> {
    let mut serials = Vec::new(alloc);
    for view in views {
        serials.push(view.get().serial)?;
    }
    Ok(serials)
}

#[test]
fn views_are_listed(rt: HostRuntime) -> Result<(), Fail> {
    let views = made(rt.alloc())?;
    assert_eq!(rt; views.count(), 4);
    assert_eq!(rt; views.list(1)?.as_slice(), [3, 9, 12].as_slice());
    let listed = views.listed(1)?;
    let listed = serials(rt.alloc(), listed.as_slice())?;
    assert_eq!(rt; listed.as_slice(), [3, 9, 12].as_slice());
    assert!(rt; views.get(1, 4).is_none());
    assert!(rt; views.get(2, 4).is_some());
    Ok(())
}

#[test]
fn views_are_deleted(rt: HostRuntime) -> Result<(), Fail> {
    let mut views = made(rt.alloc())?;
    assert_eq!(rt; views.delete(2, 9), Err(ViewError::NoViewpoint));
    views.delete(1, 9)?;
    assert_eq!(rt; views.list(1)?.as_slice(), [3, 12].as_slice());
    Ok(())
}

#[test]
fn views_of_a_topic_are_dropped(rt: HostRuntime) -> Result<(), Fail> {
    let mut views = made(rt.alloc())?;
    views.drop_topic(1);
    assert_eq!(rt; views.count(), 1);
    assert_eq!(rt; views.list(1)?.len(), 0);
    Ok(())
}

// One component is red.
fn red(alloc: Global) -> Result<Items<Coloring>, AllocError> {
    let mut components = Items::new(alloc);
    components.push(component(alloc, "Plan")?)?;
    let mut coloring = Items::new(alloc);
    coloring.push(Coloring {
        color: Text::of(alloc, "#ff0000")?,
        components,
    })?;
    Ok(coloring)
}

fn is_plan(rt: &impl Abort, component: &Component) {
    assert!(rt; component.ifc_guid == Guid::read(b"0000000000000000000011"));
    match &component.originating_system {
        Some(system) => assert_eq!(rt; system.as_str(), "Plan"),
        None => assert!(rt; false),
    }
    assert!(rt; component.authoring_tool_id.is_none());
}

fn is_red(rt: &impl Abort, colorings: &[Coloring]) {
    assert_eq!(rt; colorings.len(), 1);
    for coloring in colorings {
        assert_eq!(rt; coloring.color.as_str(), "#ff0000");
        assert_eq!(rt; coloring.components.len(), 1);
        for component in coloring.components.as_slice() {
            is_plan(rt, component);
        }
    }
}

#[test]
fn views_are_copied(rt: HostRuntime) -> Result<(), Fail> {
    let alloc = rt.alloc();
    let mut body = no_body(alloc, Some(-3));
    body.coloring = red(alloc)?;
    let view = ViewIs { serial: 7, body }.copy(alloc)?;
    assert_eq!(rt; view.serial, 7);
    assert_eq!(rt; view.body.index, Some(-3));
    is_red(&rt, view.body.coloring.as_slice());
    Ok(())
}

#[test]
fn checked_bodies_are_copied(rt: HostRuntime) -> Result<(), Fail> {
    let alloc = rt.alloc();
    let body = CheckedBody::of(no_body(alloc, Some(5))).copy(alloc)?;
    assert_eq!(rt; body.get().index, Some(5));
    Ok(())
}
