//! What holds of every script without a deadlock.

ghost use Rattle.script_text.specs.Deadlocks.{WaitingActorsHaveEnded};

/// Where actors without a deadlock come to stand, in whatever order they ran, so that each that
/// hasn't ended waits, all have ended.
#[tactic(auto, using(crate::proofs::OrderLemmas::waiting_actors_have_ended))]
pub fn waiting_actors_have_ended()
    ensures { WaitingActorsHaveEnded }
{}
