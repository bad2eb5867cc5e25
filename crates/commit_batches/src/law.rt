//! Laws of newer changes over older ones.

ghost use Rattle.commit_batches.specs.Laws.{NewestAreTouched, NewestRise};

/// Over changes whose ids rise, newer ones in any order leave ids that rise.
#[tactic(auto, using(crate::proofs::NewestLemmas::newest_rise))]
pub fn newest_rise()
    ensures { NewestRise }
{}

/// The ids that newer changes touch, beside those of the older ones, are the ids of all of them.
#[tactic(auto, using(crate::proofs::NewestLemmas::newest_are_touched))]
pub fn newest_are_touched()
    ensures { NewestAreTouched }
{}
