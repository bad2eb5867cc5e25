//! Rules of a suffix list.

ghost use Rattle.std.specs.Prelude.{◌≡◌, IfOk};
ghost use Rattle.public_suffix.specs.declared.rule.RuleRefusal.TheVariants.{NoMemory as no_memory};
ghost use Rattle.public_suffix.specs.Refusals.{refusal_of};

use idna::Errors;
use jar_values::{NoMemory, Text};
use std::alloc::Global;

/// The mark that a rule begins with.
#[derive(Clone, Copy, Debug, PartialEq, Eq)]
pub enum Mark {
    /// None.
    Plain,
    /// `*` as the first label or as the whole rule.
    Wildcard,
    /// `!`.
    Exception,
}

/// Why a line gives no rule.
#[derive(Clone, Copy, Debug, PartialEq, Eq)]
pub enum RuleRefusal {
    /// The line is no rule.
    NoRule,
    /// Memory was wanting.
    NoMemory,
}

impl From<NoMemory> for RuleRefusal {
    ghost from_gives = { λ _ refusal. refusal ≡ no_memory };

    fn from(_error: NoMemory) -> RuleRefusal {
        RuleRefusal::NoMemory
    }
}

impl From<Errors> for RuleRefusal {
    ghost from_gives = { λ errors refusal. refusal ≡ refusal_of errors };

    fn from(errors: Errors) -> RuleRefusal {
        match errors {
            Errors::Invalid => RuleRefusal::NoRule,
            Errors::OutOfMemory => RuleRefusal::NoMemory,
        }
    }
}

/// A rule of a suffix list: its mark, and its text in ASCII after the mark and a wildcard's dot.
#[derive(Drop)]
pub struct Rule {
    pub mark: Mark,
    pub text: Text,
}

impl Rule {
    /// The same rule again.
    pub fn copy(&self, alloc: Global) -> Result<Rule, NoMemory>
        ensures { IfOk result (λ rule. rule ≡ self.now) }
    {
        Ok(Rule {
            mark: self.mark,
            text: self.text.copy(alloc)?,
        })
    }
}

/// The same rules again.
pub fn copy_rules(alloc: Global, rules: &[Rule]) -> Result<Vec<Rule>, NoMemory>
    ensures { IfOk result (λ copied. copied.items ≡ rules.now) }
{
    let mut copied = Vec::new(alloc);
    for rule in rules {
        copied.push(rule.copy(alloc)?)?;
    }
    Ok(copied)
}
