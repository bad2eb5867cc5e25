//! The steps of rules, by which a table is put in order and walked.

ghost use Rattle.std.specs.Prelude.{◌≡◌, ◌+◌, ◌≤◌, length};
ghost use Rattle.std.specs.Cmp.Lexicographic.{slice_cmp};
ghost use Rattle.std.specs.Ordering.{nat_cmp};
ghost use Rattle.public_suffix.specs.Steps as spec;
ghost use Rattle.public_suffix.specs.Steps.{rule_steps};

use crate::rule::{Mark, Rule};
use std::cmp::Ordering;

/// Compares the steps of two rules.
pub fn rule_cmp(a: &Rule, b: &Rule) -> Ordering
    ensures { result ≡ slice_cmp nat_cmp (rule_steps a.now) (rule_steps b.now) }
{
    let shorter = a.text.as_str().len().min(b.text.as_str().len());
    let mut depth = 0;
    'steps: while depth <= shorter {
        let (step, other) = (step_at(a, depth), step_at(b, depth));
        if step != other {
            return step.cmp(&other);
        }
        depth += 1;
    }
    a.text.as_str().len().cmp(&b.text.as_str().len())
}

/// The step of a rule at a depth; 0 where it has none.
pub fn step_at(rule: &Rule, depth: usize) -> usize
    ensures { result ≡ spec.step_at depth rule.now }
{
    let bytes = rule.text.as_str().as_bytes();
    if depth < bytes.len() {
        byte_step(bytes[bytes.len() - 1 - depth])
    } else if depth == bytes.len() {
        mark_step(rule.mark)
    } else {
        0
    }
}

/// The step of a byte, past those of marks.
pub fn byte_step(byte: u8) -> usize
    ensures { result ≡ spec.byte_step byte }
{
    byte as usize + 4
}

/// The step of a mark.
pub fn mark_step(mark: Mark) -> usize
    ensures { result ≡ spec.mark_step mark }
{
    match mark {
        Mark::Plain => 1,
        Mark::Wildcard => 2,
        Mark::Exception => 3,
    }
}
