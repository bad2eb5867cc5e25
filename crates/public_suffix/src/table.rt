//! Suffix rules in a table that is walked from the end of a host.

ghost use Rattle.std.specs.Prelude.{◌≡◌, ◌+◌, ◌≤◌, List, map, length, false, IfOk};
ghost use Rattle.std.specs.List.{list_any};
ghost use Rattle.public_suffix.specs.declared.rule.Rule.{Rule};
ghost use Rattle.public_suffix.specs.Labels.{labels_of, is_empty};
ghost use Rattle.public_suffix.specs.Seen.{rule_seen};
ghost use Rattle.public_suffix.specs.Steps.{AreInOrder};
ghost use Rattle.public_suffix.specs.Suffix as spec;

use crate::ending::{marks_at, narrow};
use crate::found::Found;
use crate::rule::{Rule, copy_rules};
use crate::steps::{byte_step, rule_cmp};
use jar_values::NoMemory;
use std::alloc::Global;

/// Rules in the order of their steps: the bytes of a rule's text from its end, then its mark. So
/// rules whose texts end alike stand together. Their texts share what those of the list hold.
#[derive(Drop)]
pub struct RuleTable {
    pub sorted: Vec<Rule>,
}

impl RuleTable {
    ghost use Rattle.public_suffix.specs.Tables.{IsTableOf};

    /// The table of some rules.
    pub fn of_rules(alloc: Global, rules: &[Rule]) -> Result<RuleTable, NoMemory>
        ensures { IfOk result (λ table. IsTableOf table rules.now) }
    {
        let mut sorted = copy_rules(alloc, rules)?;
        sorted.sort_unstable_by(rule_cmp);
        Ok(RuleTable { sorted })
    }

    /// The same table again.
    pub fn copy(&self, alloc: Global) -> Result<RuleTable, NoMemory>
        ensures { IfOk result (λ table. table.sorted.items ≡ self.now.sorted.items) }
    {
        Ok(RuleTable {
            sorted: copy_rules(alloc, &self.sorted)?,
        })
    }

    /// How many labels the public suffix of a host has, in one walk from the end of the host.
    pub fn suffix_len(&self, host: &str) -> usize
        requires ordered { AreInOrder self.now.sorted.items }
        requires full { list_any is_empty (labels_of host.now) ≡ false }
        ensures value { (rules : List Rule) → IsTableOf self.now rules
            → result ≡ spec.suffix_len (map rule_seen rules) (labels_of host.now) }
        ensures bound { result ≤ length host.now + 1 }
    {
        let bytes = host.as_bytes();
        let mut ending = self.sorted.as_slice();
        let mut found = Found::none(marks_at(ending, 0));
        let mut depth = 0;
        'bytes: while depth < bytes.len() {
            let byte = bytes[bytes.len() - 1 - depth];
            let narrowed = narrow(ending, depth, byte_step(byte));
            if byte == b'.' {
                found = found.more(marks_at(ending, depth));
            }
            ending = narrowed;
            depth += 1;
        }
        found.more(marks_at(ending, depth)).suffix_len()
    }
}
