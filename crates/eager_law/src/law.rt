//! That loading changes no answer.

ghost use Rattle.eager_law.specs.Laws.{LoadingChangesNoAnswer};

/// A legal journal whose loads list just the stored cookies of their keys has the replies of a jar
/// in which all stored cookies are loaded from the start, and its changes of cookies and of rows;
/// and of its state what is loaded.
///
/// This jar's own rule: docs/DEFINITIONS.md.
pub fn loading_changes_no_answer()
    ensures { LoadingChangesNoAnswer }
{}
