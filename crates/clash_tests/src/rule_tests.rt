//! Rules are read where there is memory, and decide. Many texts, their rules and their faults, are end-to-end
//! cases.
use bim_model::{Element, Guid, Items, Rules, Text};
use clash_rules::{RuleError, RuleFault, from_json, rule_of};
use serde_json::Value;
use std::alloc::Global;
use std::test::Fail;

// The rules that a text spells.
fn rules_of(alloc: Global, text: &str) -> Result<Rules, Fail> {
    let tree = Value::from_str(alloc, text)?;
    match from_json(alloc, &tree) {
        Ok(rules) => Ok(rules),
        Err(_) => Err(Fail::from("no rules")),
    }
}

// The fault of a text.
fn fault_of(alloc: Global, text: &str) -> Result<RuleFault, Fail> {
    let tree = Value::from_str(alloc, text)?;
    match from_json(alloc, &tree) {
        Err(RuleError::Fault(fault)) => Ok(fault),
        _ => Err(Fail::from("no fault")),
    }
}

#[test]
fn faults_of_rules_are_told(rt: HostRuntime) -> Result<(), Fail> {
    let alloc = rt.alloc();
    let text =
        r#"{"rules":[{"a":"*","b":"*","kind":"ignore"},{"a":"*","b":"*","distance":1001},{}]}"#;
    assert_eq!(rt; fault_of(alloc, text)?, RuleFault::Distance { index: 1 });
    assert_eq!(rt; fault_of(alloc, "[]")?, RuleFault::BadRule { index: 0 });
    let text =
        r#"{"rules":[{"a":"*","b":"*","kind":"pierce"},{"a":"*","b":"*","kind":"pierce","distance":1001}]}"#;
    assert_eq!(rt; fault_of(alloc, text)?, RuleFault::BadRule { index: 1 });
    Ok(())
}

fn element(alloc: Global, class: &str) -> Result<Element, Fail> {
    Ok(Element {
        guid: Guid::read(b"0000000000000000000001").ok_or("an identifier")?,
        class: Text::of(alloc, class)?,
        name: Text::of(alloc, "")?,
        storey: None,
        triangles: Items::new(alloc),
    })
}

/// The first rule that fits decides, also where it ignores.
#[test]
fn rules_of_elements_are_found(rt: HostRuntime) -> Result<(), Fail> {
    let alloc = rt.alloc();
    let rules = rules_of(
        alloc,
        r#"{"rules":[{"a":"IFCWALL","b":"IFCSLAB","kind":"ignore"},{"a":"IFCWALL","b":"*","distance":9}]}"#,
    )?;
    let wall = element(alloc, "IFCWALL")?;
    let slab = element(alloc, "IFCSLAB")?;
    assert_eq!(rt; rule_of(&rules, &slab, &wall, true).is_none(), true);
    let found = rule_of(&rules, &wall, &wall, true).ok_or("a rule")?;
    assert_eq!(rt; found.rule, 1);
    assert_eq!(rt; found.distance.millimetres(), 9);
    Ok(())
}
