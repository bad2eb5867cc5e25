//! What the rule of the words says of every world.

ghost use Rattle.version_cells.specs.Rule.{RuleHasSixPoints};
ghost use Rattle.version_cells.specs.Reached.{WordsKeepTheirRule};

/// In every world that meets the table's rule, the six points hold.
///
/// This jar's own rule: docs/DEFINITIONS.md.
#[tactic(auto, using(crate::proofs::Points::rule_has_six_points))]
pub fn the_rule_has_six_points()
    ensures { RuleHasSixPoints }
{}

/// The words keep their rule: in every world that any list of steps reaches, the table's rule and
/// the six points hold.
///
/// This jar's own rule: docs/DEFINITIONS.md.
#[tactic(auto, using(crate::proofs::Reaching::words_keep_their_rule))]
pub fn words_keep_their_rule()
    ensures { WordsKeepTheirRule }
{}
