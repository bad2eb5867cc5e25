//! The rule of the table of words.

use crate::view::View;
use atomic_table::TableRule;

/// The rule that holds of words and views between any two steps.
///
/// The six points of docs/DEFINITIONS.md follow from it: `the_rule_has_six_points`.
pub struct WordRule;

impl TableRule<u8, View, ()> for WordRule {
    ghost use Rattle.version_cells.specs.Rule.{Rule};
    ghost use Rattle.version_cells.specs.Views.{first_baton};

    ghost holds = { λ _ s. Rule s.words s.views };

    ghost first = { λ _. first_baton };
}
