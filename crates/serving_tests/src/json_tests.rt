//! What routes answer, against texts written by hand. Clashes are written by the sessions of the tests of `bim_server`.
use bim_model::{Many, Rules, Shared, Snapshot, UploadFault};
use clash_rules::RuleFault;
use coord_json::{changed_out, pending_out, version_out};
use error_json::{
    error_full, error_newest, error_out, error_place, error_store, error_turn, error_version,
    rule_fault_out, upload_fault_out,
};
use serde_json::Value;
use std::alloc::{AllocError, Global};
use std::process::Abort;
use std::test::Fail;

fn is_written(rt: &impl Abort, alloc: Global, tree: Value, wanted: &str) -> Result<(), AllocError> {
    let text = tree.to_string(alloc);
    drop(tree);
    let text = text?;
    assert_eq!(rt; text.as_str(), wanted);
    Ok(())
}

#[test]
fn errors_of_the_book_are_written(rt: HostRuntime) -> Result<(), Fail> {
    let alloc = rt.alloc();
    let tree = error_out(alloc, "K1", "NoProject")?;
    let wanted = r#"{"code":"K1","message":"K1 NoProject"}"#;
    is_written(&rt, alloc, tree, wanted)?;
    let tree = error_newest(alloc, "K3", "NoVersion", 17)?;
    let wanted = r#"{"code":"K3","message":"K3 NoVersion","newest":17}"#;
    is_written(&rt, alloc, tree, wanted)?;
    let tree = error_version(alloc, "K4", "VersionDropped", 17, 1)?;
    let wanted = r#"{"code":"K4","message":"K4 VersionDropped","newest":17,"version":1}"#;
    is_written(&rt, alloc, tree, wanted)?;
    let tree = pending_out(alloc, 1, 2)?;
    is_written(&rt, alloc, tree, r#"{"left":1,"version":2}"#)?;
    let tree = error_turn(alloc, "K13", "TurnAhead", 99, 1)?;
    let wanted = r#"{"code":"K13","given":99,"message":"K13 TurnAhead","turn":1}"#;
    is_written(&rt, alloc, tree, wanted)?;
    Ok(())
}

#[test]
fn full_books_are_written(rt: HostRuntime) -> Result<(), Fail> {
    let alloc = rt.alloc();
    let tree = error_store(alloc, "K6", "StoreFull", 2, 1, "triangles")?;
    let wanted = r#"{"code":"K6","count":2,"limit":1,"message":"K6 StoreFull","what":"triangles"}"#;
    is_written(&rt, alloc, tree, wanted)?;
    let tree = error_full(alloc, "K8", "TooSpread", 4, 3)?;
    let wanted = r#"{"code":"K8","count":4,"limit":3,"message":"K8 TooSpread"}"#;
    is_written(&rt, alloc, tree, wanted)?;
    let tree = error_place(alloc, "K12", "NoClash", 5, 4)?;
    let wanted = r#"{"code":"K12","message":"K12 NoClash","place":5,"total":4}"#;
    is_written(&rt, alloc, tree, wanted)?;
    Ok(())
}

#[test]
fn faults_of_bodies_are_written(rt: HostRuntime) -> Result<(), Fail> {
    let alloc = rt.alloc();
    let tree = rule_fault_out(alloc, RuleFault::TooManyRules { count: 201 })?;
    let wanted = r#"{"code":"C2","count":201,"message":"C2 TooManyRules"}"#;
    is_written(&rt, alloc, tree, wanted)?;
    let tree = rule_fault_out(alloc, RuleFault::Distance { index: 0 })?;
    let wanted = r#"{"code":"C3","index":0,"message":"C3 Distance"}"#;
    is_written(&rt, alloc, tree, wanted)?;
    let tree = upload_fault_out(alloc, UploadFault::Dangling { id: 7, to: 9 })?;
    let wanted = r#"{"code":"U6","id":7,"message":"U6 Dangling","to":9}"#;
    is_written(&rt, alloc, tree, wanted)?;
    let what = Many::Corners;
    let tree = upload_fault_out(alloc, UploadFault::TooMany { what })?;
    let wanted = r#"{"code":"U19","message":"U19 TooMany","what":"corners"}"#;
    is_written(&rt, alloc, tree, wanted)?;
    Ok(())
}

// A version without models and rules.
fn empty_version(alloc: Global) -> Result<Value, AllocError> {
    let rules = Shared::new(alloc, Rules::new(alloc))?;
    let snapshot = Snapshot::new(alloc, rules);
    let tree = version_out(alloc, 0, 3, &snapshot);
    drop(snapshot);
    tree
}

#[test]
fn versions_are_written(rt: HostRuntime) -> Result<(), Fail> {
    let alloc = rt.alloc();
    let wanted = r#"{"models":[],"newest":3,"per_mm":10,"rules":[],"version":0}"#;
    is_written(&rt, alloc, empty_version(alloc)?, wanted)?;
    let tree = changed_out(alloc, 1, 2, 6, 2)?;
    let wanted = r#"{"elements":2,"left":2,"triangles":6,"version":1}"#;
    is_written(&rt, alloc, tree, wanted)?;
    Ok(())
}
