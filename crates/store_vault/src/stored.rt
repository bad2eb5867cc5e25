//! The stored hosts that a jar was opened over.

ghost use Rattle.std.specs.Prelude.{◌≡◌};
ghost use Rattle.std.specs.List.Sorted.{IsStrictlySortedBy, IsStrictlySortedBy-prop};
ghost use Rattle.jar_types.specs.Ids.{text_cmp};
ghost use Rattle.key_loader.specs.Groups.{groups_among};
ghost use Rattle.public_suffix.specs.Suffix.{key_of};

use jar_types::{Moment, Texts};
use key_loader::Plan;
use public_suffix::Suffixes;

/// The hosts of the stored rows, ascending; the same by their keys; the suffix rules by which they have them; and the
/// moment at which the jar becomes whole.
///
/// This jar's own rule: docs/DEFINITIONS.md.
#[derive(Drop)]
pub struct Stored {
    pub hosts: Texts,
    pub plan: Plan,
    pub suffixes: Suffixes,
    pub start: Moment,
    pub ghost rises: { IsStrictlySortedBy text_cmp hosts } by { IsStrictlySortedBy-prop text_cmp hosts },
    pub ghost groups: { plan.groups ≡ groups_among (key_of suffixes) hosts },
}
