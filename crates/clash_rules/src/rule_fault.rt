//! What may be wrong with rules.

use std::alloc::AllocError;

/// What is wrong with a list of rules. Rules are counted from 0.
#[derive(Clone, Copy, Debug, PartialEq, Eq)]
pub enum RuleFault {
    /// C2: there are so many rules, more than 200.
    TooManyRules { count: u64 },
    /// C1: a member of this rule is missing or isn't what it may be, or it is a pierce rule with a distance. It is 0
    /// where there is no list of objects at all.
    BadRule { index: u64 },
    /// C3: the distance of this rule is a whole number outside 0 to 1,000.
    Distance { index: u64 },
}

/// Why rules are not read.
#[derive(Clone, Copy, Debug, PartialEq, Eq)]
pub enum RuleError {
    Fault(RuleFault),
    Memory,
}

impl From<AllocError> for RuleError {
    ghost from_gives = { λ _ e. e ≡ Memory };

    ghost use Rattle.std.specs.Prelude.{◌≡◌};
    ghost use Rattle.clash_rules.specs.declared.rule_fault.RuleError.TheVariants.{Memory};

    fn from(_: AllocError) -> RuleError {
        RuleError::Memory
    }
}
