//! Suffix lists.

ghost use Rattle.std.specs.Prelude.{◌≡◌, ◌+◌, ◌≤◌, ◌<◌, IfOk, ◌↔◌, true, false, length, IsTrue};
ghost use Rattle.std.specs.List.{list_any};
ghost use Rattle.public_suffix.specs.Labels.{labels_of, is_empty};
ghost use Rattle.public_suffix.specs.Suffix as spec;
ghost use Rattle.public_suffix.specs.SuffixList.{ReadsList};
ghost use Rattle.public_suffix.specs.Suffix.{key_of, IsSuffix};

use crate::labels::{count_labels, has_suffix, last_labels};
use crate::lines::read_rules;
use crate::refusal::{MAX_RULES, SuffixRefusal};
use crate::rule::{Rule, copy_rules};
use crate::table::RuleTable;
use jar_values::{NoMemory, TEXT_END};
use std::alloc::Global;
use std::marker::Model;

/// A list of suffix rules, seen as the list of its rules as they were read.
#[derive(Drop)]
pub struct Suffixes {
    rules: Vec<Rule>,
    table: RuleTable,
}

impl Model for Suffixes {
    ghost use Rattle.std.specs.Prelude.{List, map};
    ghost use Rattle.public_suffix.specs.Rule.{SuffixRule};
    ghost use Rattle.public_suffix.specs.Seen.{rule_seen};
    ghost use Rattle.public_suffix.specs.Tables.{IsTableOf};

    ghost Value = { List SuffixRule };

    ghost view = { λ suffixes. map rule_seen suffixes.rules.items };

    ghost invariant = { λ suffixes. IsTableOf suffixes.table suffixes.rules.items };
}

impl Suffixes {
    /// The list of the rules of a text.
    ///
    /// It is refused as `BadRule` with the first line, counted from 1, that is no rule and is not
    /// skipped, else as `TooMany` where it has more than [`MAX_RULES`] rules.
    ///
    /// The Public Suffix List format; the forms of a bad line are this jar's own rule:
    /// docs/DEFINITIONS.md.
    pub fn read(alloc: Global, text: &str) -> Result<Suffixes, SuffixRefusal>
        requires { length text.now < TEXT_END }
        ensures { ReadsList text.now result }
    {
        let rules = read_rules(alloc, text)?;
        if rules.len() > MAX_RULES {
            return Err(SuffixRefusal::TooMany);
        }
        let table = RuleTable::of_rules(alloc, &rules)?;
        Ok(Suffixes { rules, table })
    }

    /// The same list again.
    pub fn copy(&self, alloc: Global) -> Result<Suffixes, NoMemory>
        ensures { IfOk result (λ suffixes. suffixes ≡ self.now) }
    {
        Ok(Suffixes {
            rules: copy_rules(alloc, &self.rules)?,
            table: self.table.copy(alloc)?,
        })
    }

    /// The registrable domain of a host: its public suffix and one label more, or the host itself
    /// where it has no such label, is an IP address or has an empty label.
    ///
    /// The Public Suffix List format.
    pub fn key<'a>(&self, host: &'a str) -> &'a str
        ensures { result.now ≡ key_of self.now host.now }
    {
        if has_suffix(host) {
            last_labels(host, self.suffix_len(host) + 1)
        } else {
            host
        }
    }

    /// Whether a host is its own public suffix; an IP address and a host with an empty label are
    /// none.
    ///
    /// The Public Suffix List format.
    pub fn is_suffix(&self, host: &str) -> bool
        ensures value { result ≡ spec.is_suffix self.now host.now }
        ensures labels { IsTrue result ↔ IsSuffix self.now host.now }
    {
        has_suffix(host) && self.suffix_len(host) >= count_labels(host)
    }

    /// How many labels the public suffix of a host has.
    fn suffix_len(&self, host: &str) -> usize
        requires { list_any is_empty (labels_of host.now) ≡ false }
        ensures value { result ≡ spec.suffix_len self.now (labels_of host.now) }
        ensures bound { result ≤ length host.now + 1 }
    {
        self.table.suffix_len(host)
    }
}
