//! Naming types, by which two locked values and the words belong together.

use std::marker::Brand;

/// Names one jar: the words that it goes to, the rules that it was opened for, and the number of
/// the pass of who loads and commits. It has no calls; what lies under a lock is known by its type
/// alone, so that type has the name.
///
/// This jar's own rule: docs/DEFINITIONS.md.
pub trait JarName {
    ghost use Rattle.atomic_table.specs.Seated.{TableId};
    ghost use Rattle.jar_types.specs.Journals.{Rules};
    ghost use Rattle.std.specs.Prelude.{ℕ};

    ghost table: { TableId };

    ghost rules: { Rules };

    ghost cutter: { ℕ };
}

// What stands here is not used: whoever calls a function with `Brand` picks the jar in its proof.
impl JarName for Brand {
    ghost use Rattle.shared_jar.specs.Sharing.{no_rules, no_table};

    ghost table = { no_table };

    ghost rules = { no_rules };

    ghost cutter = { 0 };
}
