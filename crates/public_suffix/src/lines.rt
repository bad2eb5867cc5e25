//! The lines of a suffix list.

ghost use Rattle.std.specs.Prelude.{◌≡◌, ◌+◌, ◌<◌, ◌≤◌, ◌++◌, ◌∷◌, [], length, map, MatchOption, MatchResult, OnOk};
ghost use Rattle.public_suffix.specs.Rule.{reading_of};
ghost use Rattle.public_suffix.specs.SuffixList.{lines_of};
ghost use Rattle.public_suffix.specs.Seen.{AddsLine, RefusesLine, ReadsRules, RefusesRules, kept_rules, rule_seen};

use crate::reading::rule_of_line;
use crate::refusal::{MAX_RULES, SuffixRefusal};
use crate::rule::{Rule, RuleRefusal};
use jar_values::{NoMemory, TEXT_END};
use std::alloc::Global;

/// The first line of a text and what follows its LF, if it has one.
fn split_line(text: &str) -> Option<(&str, &str)>
    ensures parts { MatchOption result (lines_of text.now ≡ text.now ∷ [])
        (λ x. lines_of text.now ≡ x.0.now ∷ lines_of x.1.now) }
    ensures shorter { MatchOption result (Unit {0}) (λ x. length x.1.now < length text.now) }
{
    text.split_once('\n')
}

/// The rules of all lines of a text; those past one more than a list may have are left out.
pub fn read_rules(alloc: Global, text: &str) -> Result<Vec<Rule>, SuffixRefusal>
    requires { length text.now < TEXT_END }
    ensures { MatchResult result (λ rules. ReadsRules text.now rules.items) (RefusesRules text.now) }
{
    let mut rules = Vec::new(alloc);
    let mut rest = text;
    let mut number: u32 = 1;
    'lines: while let Some((line, next)) = split_line(rest) {
        add_line(alloc, &mut rules, line, number)?;
        rest = next;
        number += 1;
    }
    add_line(alloc, &mut rules, rest, number)?;
    Ok(rules)
}

/// Adds the rule of the line of a number, if it names one.
fn add_line(
    alloc: Global,
    rules: &mut Vec<Rule>,
    line: &str,
    number: u32,
) -> Result<(), SuffixRefusal>
    requires { length rules.old.items ≤ MAX_RULES + 1 }
    ensures { MatchResult result (λ _. AddsLine (reading_of line.now) rules.old.items rules.new.items)
        (RefusesLine (reading_of line.now) number) }
{
    match rule_of_line(alloc, line) {
        Ok(Some(rule)) => Ok(keep_rule(rules, rule)?),
        Ok(None) => Ok(()),
        Err(RuleRefusal::NoRule) => Err(SuffixRefusal::BadRule { line: number }),
        Err(RuleRefusal::NoMemory) => Err(SuffixRefusal::NoMemory),
    }
}

/// Adds a rule, unless there are more already than a list may have.
fn keep_rule(rules: &mut Vec<Rule>, rule: Rule) -> Result<(), NoMemory>
    requires { length rules.old.items ≤ MAX_RULES + 1 }
    ensures { OnOk result (map rule_seen rules.new.items
        ≡ kept_rules (map rule_seen rules.old.items ++ rule_seen rule ∷ [])) }
{
    if rules.len() <= MAX_RULES {
        rules.push(rule)?;
    }
    Ok(())
}
