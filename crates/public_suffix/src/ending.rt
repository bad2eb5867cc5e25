//! Rules of a table whose texts end alike, narrowed step by step.

ghost use Rattle.std.specs.Prelude.{◌≡◌, ◌==◌, filter, nat_lt, nat_le};
ghost use Rattle.std.specs.List.{list_any};
ghost use Rattle.public_suffix.specs.declared.rule.Mark.{Mark};
ghost use Rattle.public_suffix.specs.Steps as spec;
ghost use Rattle.public_suffix.specs.Steps.{RiseAt};
ghost use Rattle.public_suffix.specs.Tables.{has_mark};

use crate::marks::Marks;
use crate::rule::{Mark, Rule};
use crate::steps::{mark_step, step_at};

/// Those of some rules that have a step at a depth.
pub fn narrow(rules: &[Rule], depth: usize, step: usize) -> &[Rule]
    requires { RiseAt depth rules.now }
    ensures { result.now ≡ filter (λ rule. spec.step_at depth rule == step) rules.now }
{
    let start = rules.partition_point(
        |rule: &Rule| -> bool
            ensures { result ≡ nat_lt (spec.step_at depth rule.now) step }
        { step_at(rule, depth) < step },
    );
    let from = &rules[start..];
    let end = from.partition_point(
        |rule: &Rule| -> bool
            ensures { result ≡ nat_le (spec.step_at depth rule.now) step }
        { step_at(rule, depth) <= step },
    );
    &from[..end]
}

/// The marks of those of some rules whose texts end at a depth.
pub fn marks_at(rules: &[Rule], depth: usize) -> Marks
    requires { RiseAt depth rules.now }
    ensures { (mark : Mark) → has_mark mark result
        ≡ list_any (λ rule. spec.step_at depth rule == spec.mark_step mark) rules.now }
{
    Marks {
        plain: has_step(rules, depth, mark_step(Mark::Plain)),
        wildcard: has_step(rules, depth, mark_step(Mark::Wildcard)),
        exception: has_step(rules, depth, mark_step(Mark::Exception)),
    }
}

/// Whether one of some rules has a step at a depth.
fn has_step(rules: &[Rule], depth: usize, step: usize) -> bool
    requires { RiseAt depth rules.now }
    ensures { result ≡ list_any (λ rule. spec.step_at depth rule == step) rules.now }
{
    !narrow(rules, depth, step).is_empty()
}
