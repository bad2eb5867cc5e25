//! Laws of the histories of a jar under its lock.

ghost use Rattle.locked_jar.specs.History.{HistoriesBegin, HistoriesGoOn};
ghost use Rattle.locked_jar.specs.Room.{JournalsHaveRoom, ServedAreOwned};

/// No entry is a history.
///
/// This jar's own rule: docs/DEFINITIONS.md.

pub fn histories_begin()
    ensures { HistoriesBegin }
{}

/// A history goes on with the listing of an event that may come next, for its owner.
///
/// This jar's own rule: docs/DEFINITIONS.md.

pub fn histories_go_on()
    ensures { HistoriesGoOn }
{}

/// A legal journal has no more entries than its callers', three for each of a load or a commit, and one for each stored
/// key and one.
///
/// This jar's own rule: docs/DEFINITIONS.md.
pub fn journals_have_room()
    ensures { JournalsHaveRoom }
{}

/// The pass that owns what loads and commits make, which is no caller's, owns just these entries of a history.
///
/// This jar's own rule: docs/DEFINITIONS.md.
pub fn served_are_owned()
    ensures { ServedAreOwned }
{}
