//! Laws of the definitions.

ghost use Rattle.jar_types.specs.Counts.{EntriesCount};
ghost use Rattle.jar_types.specs.HistoryLaws.{ListenersAreTaken, ListenersBegin, ListenersHear, VersionsCountTurns};
ghost use Rattle.jar_types.specs.JournalLaws.{CookiesRise, JournalsGoOn, StatesGoOn};

/// A legal journal stays legal with the entry of an event that may come next.
pub fn journals_go_on()
    ensures { JournalsGoOn }
{}

/// The entry of an event takes the state of a journal one step on.
#[tactic(auto, using(crate::proofs::JournalLemmas::state_push))]
pub fn states_go_on()
    ensures { StatesGoOn }
{}

/// After a legal journal the cookies are in the order of their ids, no two of which are the same.
#[tactic(auto, using(crate::proofs::RisingLemmas::cookies_rise))]
pub fn cookies_rise()
    ensures { CookiesRise }
{}

/// After a journal, a listener that is registered is found by its number, and has nothing untaken.
#[tactic(auto, using(crate::proofs::ListenerLemmas::listeners_begin))]
pub fn listeners_begin()
    ensures { ListenersBegin }
{}

/// A listener gets just the changes that its scope admits, of the entries since it was registered or
/// last asked.
#[tactic(auto, using(crate::proofs::HistoryLemmas::listeners_hear))]
pub fn listeners_hear()
    ensures { ListenersHear }
{}

/// A listener whose changes are taken has nothing untaken.
#[tactic(auto, using(crate::proofs::HistoryLemmas::listeners_are_taken))]
pub fn listeners_are_taken()
    ensures { ListenersAreTaken }
{}

/// The version of a bound key's cell counts the entries since the binding that changed its cookies.
#[tactic(auto, using(crate::proofs::HistoryLemmas::versions_count_turns))]
pub fn versions_count_turns()
    ensures { VersionsCountTurns }
{}

/// No counter passes the number of entries, whatever event comes.
#[tactic(auto, using(crate::proofs::CountLemmas::entries_count))]
pub fn entries_count()
    ensures { EntriesCount }
{}
