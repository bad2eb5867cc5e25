//! Laws of the definitions.

ghost use Rattle.script_run.specs.Listening.{ListenersAreToldFirst, ListenersAreToldOn};
ghost use Rattle.script_run.specs.Legal.{ItemsFitTheTurns, ItemsNameTheCalls, RunsAreOne, RunsOverRows, SerialJournalsAreLegal};

/// The journal of a script over hosts is legal by its suffix rules: each reply in it is that of the jar of one
/// thread, and each entry may stand where it stands.
pub fn serial_journals_are_legal()
    ensures { SerialJournalsAreLegal }
{}

/// The items of a script name the entries of its caller, each once and in their order.
pub fn items_name_the_calls()
    ensures { ItemsNameTheCalls }
{}

/// Each actor has one item a turn: a turn that the definitions refuse has their name, a read names its
/// entry and the cause or is a text that was used again, and each other one names its entry; or it was
/// refused where callers had as many entries as they may.
pub fn items_fit_the_turns()
    ensures { ItemsFitTheTurns }
{}

/// Over the rows that a keeper holds, which never fails, a script ends in one way alone.
pub fn runs_are_one()
    ensures { RunsAreOne }
{}

/// Such an end is one over the hosts of the rows, so that all else holds of it.
#[tactic(auto, using(crate::proofs::OverLemmas::runs_over_rows))]
pub fn runs_over_rows()
    ensures { RunsOverRows }
{}

/// In a legal journal the first answer to a listener has just the changes that its scope admits, of
/// the entries since it was registered.
pub fn listeners_are_told_first()
    ensures { ListenersAreToldFirst }
{}

/// In a legal journal each later answer to a listener has just those of the entries since the answer
/// before it.
pub fn listeners_are_told_on()
    ensures { ListenersAreToldOn }
{}
