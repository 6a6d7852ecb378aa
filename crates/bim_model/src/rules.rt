//! Clash rules.
ghost use Rattle.std.specs.Prelude.{◌≡◌, ◌≤◌, []};
ghost use Rattle.bim_model.specs.Rules.{passes_class, passes_classes, same_storey, other_storey, passes_storeys, is_at, passes_level, passes_models, fits, rule_of, greatest_distance, IsRules};

use crate::distance::Distance;
use crate::element::Element;
use crate::text::Text;
use std::alloc::Global;

/// Which classes one side of a rule takes.
#[derive(Drop)]
pub enum ClassTest {
    /// Every class.
    Any,
    /// The class of this name alone: 1 to 64 characters of `A-Z0-9_`.
    Named(Text),
}

/// Which storeys a rule takes.
#[derive(Clone, Copy, Debug, PartialEq, Eq)]
pub enum StoreyTest {
    /// Any, also none.
    Any,
    /// Both elements have a storey, of one name.
    Same,
    /// Both elements have a storey, of two names.
    Different,
}

/// Which models a rule takes.
#[derive(Clone, Copy, Debug, PartialEq, Eq)]
pub enum ModelTest {
    Any,
    /// Both elements are of one model.
    Same,
    /// The elements are of two models.
    Other,
}

/// What a rule says of the pairs that it fits.
#[derive(Clone, Copy, Debug, PartialEq, Eq)]
pub enum RuleKind {
    /// They clash where their surfaces come within the distance.
    Clash { distance: Distance },
    /// They clash where their surfaces go through each other; those that only touch don't.
    Pierce,
    /// They never clash.
    Ignore,
}

/// A clash rule. It fits a pair of elements where all its tests pass.
#[derive(Drop)]
pub struct Rule {
    /// The class of one element, either of the two.
    pub a: ClassTest,
    /// The class of the other.
    pub b: ClassTest,
    pub storey: StoreyTest,
    /// The name of the storey that both stand in, at most 256 bytes, or none where any will do.
    pub level: Option<Text>,
    pub models: ModelTest,
    pub kind: RuleKind,
}

/// How two elements have to meet, for them to clash under the rule that decides them.
#[derive(Clone, Copy, Debug, PartialEq, Eq)]
pub enum Meeting {
    /// Their surfaces come within the rule's distance.
    Within,
    /// Their surfaces go through each other, whatever the distance.
    Through,
}

/// The rule of a pair.
#[derive(Clone, Copy, Debug, PartialEq, Eq)]
pub struct Found {
    /// Its number in the list, from 0.
    pub rule: u32,
    /// What it asks of the pair.
    pub meeting: Meeting,
    /// Its distance, 0 where it has none.
    pub distance: Distance,
}

/// A project's clash rules in their order. Contracts see their list: at most 200, each within its bounds.
#[derive(Drop)]
pub struct Rules {
    list: Vec<Rule>,
}

impl std::marker::Model for Rules {
    ghost use Rattle.std.specs.Prelude.{List};
    ghost use Rattle.bim_model.specs.declared.rules.Rule.{Rule};
    ghost use Rattle.bim_model.specs.Rules.{IsRules};

    ghost Value = { List Rule };

    ghost view = { λ r. r.list.items };

    ghost invariant = { λ r. IsRules r.list.items };
}

impl Rules {
    /// No rules, by which nothing clashes. Takes no memory.
    pub fn new(alloc: Global) -> Rules
        ensures { result ≡ [] }
    {
        Rules {
            list: Vec::new(alloc),
        }
    }

    /// These rules, without a copy.
    pub fn from_vec(list: Vec<Rule>) -> Rules
        requires { IsRules list.items }
        ensures { result ≡ list.items }
    {
        Rules { list }
    }

    /// The rules in their order, lent.
    pub fn list(&self) -> &[Rule]
        ensures same { result.now ≡ self.now }
        ensures rules { IsRules result.now }
    {
        self.list.as_slice()
    }
}

fn passes_class(test: &ClassTest, class: &str) -> bool
    ensures { result ≡ passes_class test.now class.now }
{
    match test {
        ClassTest::Any => true,
        ClassTest::Named(name) => name.as_str() == class,
    }
}

fn passes_classes(rule: &Rule, a: &str, b: &str) -> bool
    ensures { result ≡ passes_classes rule.now a.now b.now }
{
    (passes_class(&rule.a, a) && passes_class(&rule.b, b))
        || (passes_class(&rule.a, b) && passes_class(&rule.b, a))
}

fn same_storey(a: &Option<Text>, b: &Option<Text>) -> bool
    ensures { result ≡ same_storey a.now b.now }
{
    match (a, b) {
        (Some(a), Some(b)) => a.as_str() == b.as_str(),
        _ => false,
    }
}

fn other_storey(a: &Option<Text>, b: &Option<Text>) -> bool
    ensures { result ≡ other_storey a.now b.now }
{
    match (a, b) {
        (Some(a), Some(b)) => !(a.as_str() == b.as_str()),
        _ => false,
    }
}

fn passes_storeys(test: StoreyTest, a: &Option<Text>, b: &Option<Text>) -> bool
    ensures { result ≡ passes_storeys test a.now b.now }
{
    match test {
        StoreyTest::Any => true,
        StoreyTest::Same => same_storey(a, b),
        StoreyTest::Different => other_storey(a, b),
    }
}

fn is_at(level: &str, storey: &Option<Text>) -> bool
    ensures { result ≡ is_at level.now storey.now }
{
    match storey {
        Some(storey) => storey.as_str() == level,
        None => false,
    }
}

fn passes_level(level: &Option<Text>, a: &Option<Text>, b: &Option<Text>) -> bool
    ensures { result ≡ passes_level level.now a.now b.now }
{
    match level {
        None => true,
        Some(level) => is_at(level.as_str(), a) && is_at(level.as_str(), b),
    }
}

fn passes_models(test: ModelTest, same_model: bool) -> bool
    ensures { result ≡ passes_models test same_model }
{
    match test {
        ModelTest::Any => true,
        ModelTest::Same => same_model,
        ModelTest::Other => !same_model,
    }
}

fn fits(rule: &Rule, a: &Element, b: &Element, same_model: bool) -> bool
    ensures { result ≡ fits rule.now a.now b.now same_model }
{
    passes_classes(rule, a.class.as_str(), b.class.as_str())
        && passes_storeys(rule.storey, &a.storey, &b.storey)
        && passes_level(&rule.level, &a.storey, &b.storey)
        && passes_models(rule.models, same_model)
}

/// The first rule that fits two elements of one model or of two, or none where no rule fits or the first that fits says that they
/// never clash. Takes no memory.
pub fn rule_of(rules: &Rules, a: &Element, b: &Element, same_model: bool) -> Option<Found>
    ensures { result ≡ rule_of rules.now a.now b.now same_model }
{
    let list = rules.list();
    let mut number = 0;
    for rule in list {
        if fits(rule, a, b, same_model) {
            return match rule.kind {
                RuleKind::Clash { distance } => Some(Found {
                    rule: number,
                    meeting: Meeting::Within,
                    distance,
                }),
                RuleKind::Pierce => Some(Found {
                    rule: number,
                    meeting: Meeting::Through,
                    distance: Distance::new(0),
                }),
                RuleKind::Ignore => None,
            };
        }
        number += 1;
    }
    None
}

/// The greatest distance of the rules, 0 where there is none.
pub fn greatest_distance(rules: &Rules) -> Distance
    ensures { result ≡ greatest_distance rules.now }
{
    let mut greatest = 0;
    for rule in rules.list() {
        if let RuleKind::Clash { distance } = rule.kind {
            greatest = greatest.max(distance.millimetres());
        }
    }
    Distance::new(greatest)
}
