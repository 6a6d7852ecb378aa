//! The members of a rule.
ghost use Rattle.std.specs.Prelude.{◌≡◌, ◌≤◌, IfOk, IfSome, option_and_then};
ghost use Rattle.std.specs.List.{list_all};
ghost use Rattle.serde_json.specs.Find.{as_number, as_integer};
ghost use Rattle.serde_json.specs.View.{view};
ghost use Rattle.bim_model.specs.Rules as rules;
ghost use Rattle.bim_model.specs.Rules.{is_class_char, IsClassTest, IsRule};
ghost use Rattle.clash_rules.specs.Json.{is_class_name, if_class, class_in, storey_named, storey_in, models_named, models_in, word_named, word_in, if_level, level_in, tests_in, if_whole, distance_in, clash_kind, pierce_kind, ignore_kind, kind_of, joined, IsLevel};

use crate::rule_fault::RuleFault;
use bim_model::{
    ClassTest, Distance, MOST_CLASS, MOST_DISTANCE, MOST_LEVEL, ModelTest, Rule, RuleKind,
    StoreyTest, Text,
};
use serde_json::Value;
use std::alloc::{AllocError, Global};

/// What a rule says of the pairs that it fits, as it is spelled.
#[derive(Clone, Copy)]
pub enum Word {
    Clash,
    Pierce,
    Ignore,
}

/// What stands as a rule's distance.
#[derive(Clone, Copy)]
pub enum Spelled {
    /// Nothing, or null.
    Absent,
    /// A whole number from 0 to 1,000.
    Within(Distance),
    /// Another whole number.
    Beyond,
    /// Something else.
    Bad,
}

/// The members of a rule that are words.
#[derive(Clone, Copy)]
pub struct Tests {
    pub storey: StoreyTest,
    pub models: ModelTest,
    pub word: Word,
}

fn is_class_char(byte: u8) -> bool
    ensures { result ≡ is_class_char byte }
{
    byte.is_ascii_uppercase() || byte.is_ascii_digit() || byte == b'_'
}

fn are_class_chars(text: &[u8]) -> bool
    ensures { result ≡ list_all is_class_char text.now }
{
    text.iter().all(|byte| is_class_char(*byte))
}

// 1 to 64 characters of `A-Z0-9_`.
fn is_class_name(text: &str) -> bool
    ensures { result ≡ is_class_name text.now }
{
    0 < text.len() && text.len() <= MOST_CLASS && are_class_chars(text.as_bytes())
}

// The classes that a text names.
#[tactic(auto, unfolding(crate::specs::Json::if_class))]
fn class_named(alloc: Global, text: &str) -> Result<Option<ClassTest>, AllocError>
    ensures read { IfOk result (λ found. found ≡ if_class text.now) }
    ensures good { IfOk result (λ found. IfSome found IsClassTest) }
{
    if text == "*" {
        return Ok(Some(ClassTest::Any));
    }
    if is_class_name(text) {
        return Ok(Some(ClassTest::Named(Text::of(alloc, text)?)));
    }
    Ok(None)
}

/// The classes of a side, or none where the member is bad.
#[tactic(auto, unfolding(crate::specs::Json::class_in))]
pub fn class_in(alloc: Global, rule: &Value, name: &str) -> Result<Option<ClassTest>, AllocError>
    ensures read { IfOk result (λ found. found ≡ class_in name.now (view rule.now)) }
    ensures good { IfOk result (λ found. IfSome found IsClassTest) }
{
    match rule.get(name) {
        Some(value) => match value.as_str() {
            Some(text) => class_named(alloc, text),
            None => Ok(None),
        },
        None => Ok(None),
    }
}

#[tactic(auto, unfolding(crate::specs::Json::storey_named))]
fn storey_named(text: &str) -> Option<StoreyTest>
    ensures { result ≡ storey_named text.now }
{
    if text == "any" {
        return Some(StoreyTest::Any);
    }
    if text == "same" {
        return Some(StoreyTest::Same);
    }
    if text == "different" {
        return Some(StoreyTest::Different);
    }
    None
}

#[tactic(auto, unfolding(crate::specs::Json::storey_in))]
fn storey_in(rule: &Value) -> Option<StoreyTest>
    ensures { result ≡ storey_in (view rule.now) }
{
    match rule.get("storey") {
        Some(value) => {
            if value.is_null() {
                return Some(StoreyTest::Any);
            }
            match value.as_str() {
                Some(text) => storey_named(text),
                None => None,
            }
        }
        None => Some(StoreyTest::Any),
    }
}

#[tactic(auto, unfolding(crate::specs::Json::models_named))]
fn models_named(text: &str) -> Option<ModelTest>
    ensures { result ≡ models_named text.now }
{
    if text == "any" {
        return Some(ModelTest::Any);
    }
    if text == "same" {
        return Some(ModelTest::Same);
    }
    if text == "other" {
        return Some(ModelTest::Other);
    }
    None
}

#[tactic(auto, unfolding(crate::specs::Json::models_in))]
fn models_in(rule: &Value) -> Option<ModelTest>
    ensures { result ≡ models_in (view rule.now) }
{
    match rule.get("models") {
        Some(value) => {
            if value.is_null() {
                return Some(ModelTest::Any);
            }
            match value.as_str() {
                Some(text) => models_named(text),
                None => None,
            }
        }
        None => Some(ModelTest::Any),
    }
}

#[tactic(auto, unfolding(crate::specs::Json::word_named))]
fn word_named(text: &str) -> Option<Word>
    ensures { result ≡ word_named text.now }
{
    if text == "clash" {
        return Some(Word::Clash);
    }
    if text == "pierce" {
        return Some(Word::Pierce);
    }
    if text == "ignore" {
        return Some(Word::Ignore);
    }
    None
}

#[tactic(auto, unfolding(crate::specs::Json::word_in))]
fn word_in(rule: &Value) -> Option<Word>
    ensures { result ≡ word_in (view rule.now) }
{
    match rule.get("kind") {
        Some(value) => {
            if value.is_null() {
                return Some(Word::Clash);
            }
            match value.as_str() {
                Some(text) => word_named(text),
                None => None,
            }
        }
        None => Some(Word::Clash),
    }
}

/// The members that are words, or none where one of them is bad.
#[tactic(auto, unfolding(crate::specs::Json::tests_in))]
pub fn tests_in(rule: &Value) -> Option<Tests>
    ensures { result ≡ tests_in (view rule.now) }
{
    let storey = storey_in(rule)?;
    let models = models_in(rule)?;
    let word = word_in(rule)?;
    Some(Tests {
        storey,
        models,
        word,
    })
}

// The level that a text names.
#[tactic(auto, unfolding(crate::specs::Json::if_level))]
fn level_named(alloc: Global, text: &str) -> Result<Option<Option<Text>>, AllocError>
    ensures read { IfOk result (λ found. found ≡ if_level text.now) }
    ensures good { IfOk result (λ found. IfSome found IsLevel) }
{
    if text.len() <= MOST_LEVEL {
        return Ok(Some(Some(Text::of(alloc, text)?)));
    }
    Ok(None)
}

/// The level, if there is one, or none where the member is bad.
#[tactic(auto, unfolding(crate::specs::Json::level_in))]
pub fn level_in(alloc: Global, rule: &Value) -> Result<Option<Option<Text>>, AllocError>
    ensures read { IfOk result (λ found. found ≡ level_in (view rule.now)) }
    ensures good { IfOk result (λ found. IfSome found IsLevel) }
{
    match rule.get("level") {
        Some(value) => {
            if value.is_null() {
                return Ok(Some(None));
            }
            match value.as_str() {
                Some(text) => level_named(alloc, text),
                None => Ok(None),
            }
        }
        None => Ok(Some(None)),
    }
}

// What a value spells as a distance.
#[tactic(auto, unfolding(crate::specs::Json::if_whole))]
fn distance_of(value: &Value) -> Spelled
    ensures { result ≡ if_whole (option_and_then as_integer (as_number (view value.now))) }
{
    match value.as_number() {
        Some(number) => match number.as_i128() {
            Some(whole) => {
                if 0 <= whole && whole <= MOST_DISTANCE as i128 {
                    Spelled::Within(Distance::new(whole as u32))
                } else {
                    Spelled::Beyond
                }
            }
            None => Spelled::Bad,
        },
        None => Spelled::Bad,
    }
}

/// What stands as the distance.
#[tactic(auto, unfolding(crate::specs::Json::distance_in))]
pub fn distance_in(rule: &Value) -> Spelled
    ensures { result ≡ distance_in (view rule.now) }
{
    match rule.get("distance") {
        Some(value) => {
            if value.is_null() {
                return Spelled::Absent;
            }
            distance_of(value)
        }
        None => Spelled::Absent,
    }
}

// What a clash rule of that number says.
fn clash_kind(index: u64, distance: Spelled) -> Result<RuleKind, RuleFault>
    ensures is { result ≡ clash_kind index distance }
    ensures near { IfOk result (λ kind. rules.distance_of kind ≤ MOST_DISTANCE) }
{
    match distance {
        Spelled::Absent => Err(RuleFault::BadRule { index }),
        Spelled::Within(distance) => Ok(RuleKind::Clash { distance }),
        Spelled::Beyond => Err(RuleFault::Distance { index }),
        Spelled::Bad => Err(RuleFault::BadRule { index }),
    }
}

// What a rule of that number that asks for piercing says.
fn pierce_kind(index: u64, distance: Spelled) -> Result<RuleKind, RuleFault>
    ensures is { result ≡ pierce_kind index distance }
    ensures near { IfOk result (λ kind. rules.distance_of kind ≤ MOST_DISTANCE) }
{
    match distance {
        Spelled::Absent => Ok(RuleKind::Pierce),
        Spelled::Within(_) => Err(RuleFault::BadRule { index }),
        Spelled::Beyond => Err(RuleFault::BadRule { index }),
        Spelled::Bad => Err(RuleFault::BadRule { index }),
    }
}

// What a rule of that number that ignores says.
fn ignore_kind(index: u64, distance: Spelled) -> Result<RuleKind, RuleFault>
    ensures is { result ≡ ignore_kind index distance }
    ensures near { IfOk result (λ kind. rules.distance_of kind ≤ MOST_DISTANCE) }
{
    match distance {
        Spelled::Absent => Ok(RuleKind::Ignore),
        Spelled::Within(_) => Ok(RuleKind::Ignore),
        Spelled::Beyond => Err(RuleFault::Distance { index }),
        Spelled::Bad => Err(RuleFault::BadRule { index }),
    }
}

// What a rule of that number says, by its word and its distance.
fn kind_of(index: u64, word: Word, distance: Spelled) -> Result<RuleKind, RuleFault>
    ensures is { result ≡ kind_of index word distance }
    ensures near { IfOk result (λ kind. rules.distance_of kind ≤ MOST_DISTANCE) }
{
    match word {
        Word::Clash => clash_kind(index, distance),
        Word::Pierce => pierce_kind(index, distance),
        Word::Ignore => ignore_kind(index, distance),
    }
}

/// The rule of that number by its members, each none where it is bad.
#[tactic(auto, unfolding(crate::specs::Json::joined))]
pub fn joined(
    index: u64,
    a: Option<ClassTest>,
    b: Option<ClassTest>,
    level: Option<Option<Text>>,
    tests: Option<Tests>,
    distance: Spelled,
) -> Result<Rule, RuleFault>
    requires a { IfSome a IsClassTest }
    requires b { IfSome b IsClassTest }
    requires level { IfSome level IsLevel }
    ensures is { result ≡ joined index a b level tests distance }
    ensures rule { IfOk result IsRule }
{
    let Some(a) = a else {
        return Err(RuleFault::BadRule { index });
    };
    let Some(b) = b else {
        return Err(RuleFault::BadRule { index });
    };
    let Some(level) = level else {
        return Err(RuleFault::BadRule { index });
    };
    let Some(tests) = tests else {
        return Err(RuleFault::BadRule { index });
    };
    match kind_of(index, tests.word, distance) {
        Ok(kind) => Ok(Rule {
            a,
            b,
            storey: tests.storey,
            level,
            models: tests.models,
            kind,
        }),
        Err(fault) => Err(fault),
    }
}
