//! Version words under one rule: the baton that commits, the passes that look, and their permits.
#![tactic(auto)]

mod answer;
mod baton;
mod bump;
mod cells;
mod commit;
mod copies;
mod count;
mod fronts;
mod joins;
mod laws;
mod lend;
mod listing;
mod look;
mod make;
mod meet;
mod pass;
mod rule;
mod view;

pub use baton::Baton;
pub use cells::{CELLS, Cells, MOST_ENTRIES, WORDS};
pub use laws::{the_rule_has_six_points, words_keep_their_rule};
pub use make::Made;
pub use pass::Pass;
