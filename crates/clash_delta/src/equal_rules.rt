//! Lists of rules that are the same.
ghost use Rattle.std.specs.Prelude.{◌≡◌, ◌↔◌, IsTrue};

use crate::same::{same_option, same_text};
use bim_model::{ClassTest, ModelTest, Rule, RuleKind, Rules, StoreyTest};

fn same_class(a: &ClassTest, b: &ClassTest) -> bool
    ensures { IsTrue result ↔ (a.now ≡ b.now) }
{
    match (a, b) {
        (ClassTest::Any, ClassTest::Any) => true,
        (ClassTest::Named(a), ClassTest::Named(b)) => same_text(a, b),
        _ => false,
    }
}

fn same_storey(a: StoreyTest, b: StoreyTest) -> bool
    ensures { IsTrue result ↔ (a ≡ b) }
{
    match (a, b) {
        (StoreyTest::Any, StoreyTest::Any) => true,
        (StoreyTest::Same, StoreyTest::Same) => true,
        (StoreyTest::Different, StoreyTest::Different) => true,
        _ => false,
    }
}

fn same_models(a: ModelTest, b: ModelTest) -> bool
    ensures { IsTrue result ↔ (a ≡ b) }
{
    match (a, b) {
        (ModelTest::Any, ModelTest::Any) => true,
        (ModelTest::Same, ModelTest::Same) => true,
        (ModelTest::Other, ModelTest::Other) => true,
        _ => false,
    }
}

fn same_kind(a: RuleKind, b: RuleKind) -> bool
    ensures { IsTrue result ↔ (a ≡ b) }
{
    match a {
        RuleKind::Clash { distance: first } => match b {
            RuleKind::Clash { distance: second } => first.millimetres() == second.millimetres(),
            RuleKind::Pierce => false,
            RuleKind::Ignore => false,
        },
        RuleKind::Pierce => match b {
            RuleKind::Clash { distance: _ } => false,
            RuleKind::Pierce => true,
            RuleKind::Ignore => false,
        },
        RuleKind::Ignore => match b {
            RuleKind::Clash { distance: _ } => false,
            RuleKind::Pierce => false,
            RuleKind::Ignore => true,
        },
    }
}

fn same_rule(a: &Rule, b: &Rule) -> bool
    ensures { IsTrue result ↔ (a.now ≡ b.now) }
{
    (same_class(&a.a, &b.a) && same_class(&a.b, &b.b))
        && (same_storey(a.storey, b.storey) && same_option(&a.level, &b.level))
        && (same_models(a.models, b.models) && same_kind(a.kind, b.kind))
}

/// Whether two lists of rules are the same.
pub fn same_rules(a: &Rules, b: &Rules) -> bool
    ensures { IsTrue result ↔ (a.now ≡ b.now) }
{
    let first = a.list();
    let second = b.list();
    if first.len() != second.len() {
        return false;
    }
    for place in 0..first.len() {
        if !same_rule(&first[place], &second[place]) {
            return false;
        }
    }
    true
}
