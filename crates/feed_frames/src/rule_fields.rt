//! Clash rules.
ghost use Rattle.std.specs.Prelude.{◌≡◌};
ghost use Rattle.std.specs.List.{list_all};
ghost use Rattle.bim_model.specs.Rules.{is_class_char};
ghost use Rattle.feed_frames.specs.FieldBytes.{short_bytes};
ghost use Rattle.feed_frames.specs.EntryBytes.{class_test_bytes, storey_test_bytes, model_test_bytes, rule_kind_bytes, rule_bytes};
ghost use Rattle.feed_frames.specs.inner.Readers.{Gives};
ghost use Rattle.feed_frames.specs.inner.EntryReaders.{is_class_name, class_test_at, storey_test_at, model_test_at, distance_at, rule_kind_at, is_level, level_at, rule_at, rules_at};

use crate::field::Field;
use crate::read_error::ReadError;
use crate::unread::Unread;
use bim_model::{
    ClassTest, Distance, Items, MOST_CLASS, MOST_DISTANCE, MOST_LEVEL, MOST_RULES, ModelTest, Rule,
    RuleKind, Rules, StoreyTest, Text,
};
use std::alloc::{AllocError, Global};

fn is_class_char(byte: u8) -> bool
    ensures { result ≡ is_class_char byte }
{
    byte.is_ascii_uppercase() || byte.is_ascii_digit() || byte == b'_'
}

fn are_class_chars(name: &[u8]) -> bool
    ensures { result ≡ list_all is_class_char name.now }
{
    name.iter().all(|byte| is_class_char(*byte))
}

// Whether a rule may name this class.
fn is_class_name(name: &[u8]) -> bool
    ensures { result ≡ is_class_name name.now }
{
    0 < name.len() && name.len() <= MOST_CLASS && are_class_chars(name)
}

// Whether a rule may name this storey, or none.
fn is_level(level: &Option<Text>) -> bool
    ensures { result ≡ is_level level.now }
{
    match level {
        Some(name) => name.as_str().len() <= MOST_LEVEL,
        None => true,
    }
}

impl Field for ClassTest {
    ghost spelling = { class_test_bytes };

    ghost reading = { class_test_at };

    #[tactic(auto, unfolding(crate::specs::EntryBytes::class_test_bytes))]
    fn write_to(&self, out: &mut Vec<u8>) -> Result<(), AllocError> {
        match self {
            ClassTest::Any => out.push(0)?,
            ClassTest::Named(name) => {
                out.push(1)?;
                name.write_to(out)?;
            }
        }
        Ok(())
    }

    #[tactic(auto, unfolding(crate::specs::inner::EntryReaders::class_test_at))]
    fn read_from(alloc: Global, unread: &mut Unread) -> Result<ClassTest, ReadError> {
        match unread.byte()? {
            0 => Ok(ClassTest::Any),
            1 => {
                let name = Text::read_from(alloc, unread)?;
                if is_class_name(name.as_str().as_bytes()) {
                    Ok(ClassTest::Named(name))
                } else {
                    Err(ReadError::NotSpelled)
                }
            }
            _ => Err(ReadError::NotSpelled),
        }
    }
}

impl Field for StoreyTest {
    ghost spelling = { storey_test_bytes };

    ghost reading = { storey_test_at };

    #[tactic(auto, unfolding(crate::specs::EntryBytes::storey_test_bytes))]
    fn write_to(&self, out: &mut Vec<u8>) -> Result<(), AllocError> {
        let kind = match self {
            StoreyTest::Any => 0,
            StoreyTest::Same => 1,
            StoreyTest::Different => 2,
        };
        out.push(kind)?;
        Ok(())
    }

    #[tactic(auto, unfolding(crate::specs::inner::EntryReaders::storey_test_at))]
    fn read_from(_: Global, unread: &mut Unread) -> Result<StoreyTest, ReadError> {
        match unread.byte()? {
            0 => Ok(StoreyTest::Any),
            1 => Ok(StoreyTest::Same),
            2 => Ok(StoreyTest::Different),
            _ => Err(ReadError::NotSpelled),
        }
    }
}

impl Field for ModelTest {
    ghost spelling = { model_test_bytes };

    ghost reading = { model_test_at };

    #[tactic(auto, unfolding(crate::specs::EntryBytes::model_test_bytes))]
    fn write_to(&self, out: &mut Vec<u8>) -> Result<(), AllocError> {
        let kind = match self {
            ModelTest::Any => 0,
            ModelTest::Same => 1,
            ModelTest::Other => 2,
        };
        out.push(kind)?;
        Ok(())
    }

    #[tactic(auto, unfolding(crate::specs::inner::EntryReaders::model_test_at))]
    fn read_from(_: Global, unread: &mut Unread) -> Result<ModelTest, ReadError> {
        match unread.byte()? {
            0 => Ok(ModelTest::Any),
            1 => Ok(ModelTest::Same),
            2 => Ok(ModelTest::Other),
            _ => Err(ReadError::NotSpelled),
        }
    }
}

impl Field for Distance {
    ghost spelling = { short_bytes };

    ghost reading = { distance_at };

    fn write_to(&self, out: &mut Vec<u8>) -> Result<(), AllocError> {
        let millimetres = self.millimetres();
        millimetres.write_to(out)
    }

    #[tactic(auto, unfolding(crate::specs::inner::EntryReaders::distance_at))]
    fn read_from(_: Global, unread: &mut Unread) -> Result<Distance, ReadError> {
        let millimetres = unread.short()?;
        if millimetres > MOST_DISTANCE {
            return Err(ReadError::NotSpelled);
        }
        Ok(Distance::new(millimetres))
    }
}

impl Field for RuleKind {
    ghost spelling = { rule_kind_bytes };

    ghost reading = { rule_kind_at };

    #[tactic(auto, unfolding(crate::specs::EntryBytes::rule_kind_bytes))]
    fn write_to(&self, out: &mut Vec<u8>) -> Result<(), AllocError> {
        match self {
            RuleKind::Clash { distance } => {
                out.push(0)?;
                distance.write_to(out)?;
            }
            RuleKind::Ignore => out.push(1)?,
            RuleKind::Pierce => out.push(2)?,
        }
        Ok(())
    }

    #[tactic(auto, unfolding(crate::specs::inner::EntryReaders::rule_kind_at))]
    fn read_from(alloc: Global, unread: &mut Unread) -> Result<RuleKind, ReadError> {
        match unread.byte()? {
            0 => {
                let distance = Distance::read_from(alloc, unread)?;
                Ok(RuleKind::Clash { distance })
            }
            1 => Ok(RuleKind::Ignore),
            2 => Ok(RuleKind::Pierce),
            _ => Err(ReadError::NotSpelled),
        }
    }
}

impl Field for Rule {
    ghost spelling = { rule_bytes };

    ghost reading = { rule_at };

    #[tactic(auto, unfolding(crate::specs::EntryBytes::rule_bytes))]
    fn write_to(&self, out: &mut Vec<u8>) -> Result<(), AllocError> {
        self.a.write_to(out)?;
        self.b.write_to(out)?;
        self.storey.write_to(out)?;
        self.level.write_to(out)?;
        self.models.write_to(out)?;
        self.kind.write_to(out)
    }

    #[tactic(auto, unfolding(crate::specs::inner::EntryReaders::rule_at))]
    fn read_from(alloc: Global, unread: &mut Unread) -> Result<Rule, ReadError> {
        let a = ClassTest::read_from(alloc, unread)?;
        let b = ClassTest::read_from(alloc, unread)?;
        let storey = StoreyTest::read_from(alloc, unread)?;
        let level = take_level(alloc, unread)?;
        let models = ModelTest::read_from(alloc, unread)?;
        let kind = RuleKind::read_from(alloc, unread)?;
        Ok(Rule {
            a,
            b,
            storey,
            level,
            models,
            kind,
        })
    }
}

// The storey of a rule, if it names one.
#[tactic(auto, unfolding(crate::specs::inner::EntryReaders::level_at))]
fn take_level(alloc: Global, unread: &mut Unread) -> Result<Option<Text>, ReadError>
    ensures { Gives result unread.new (level_at unread.old) }
{
    let level = Option::<Text>::read_from(alloc, unread)?;
    if !is_level(&level) {
        return Err(ReadError::NotSpelled);
    }
    Ok(level)
}

/// The rules of a project.
#[tactic(auto, unfolding(crate::specs::inner::EntryReaders::rules_at))]
pub(crate) fn take_rules(alloc: Global, unread: &mut Unread) -> Result<Rules, ReadError>
    ensures { Gives result unread.new (rules_at unread.old) }
{
    unread.are_bytes();
    let list = Items::<Rule>::read_from(alloc, unread)?;
    if list.len() > MOST_RULES {
        return Err(ReadError::NotSpelled);
    }
    Ok(Rules::from_vec(list.into_vec()))
}
