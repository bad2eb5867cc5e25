//! Laws of a script's run over a keeper that holds rows and never fails.

ghost use Rattle.script_run.specs.StoredRuns.{StoredRunsAreEager, StoredRunsAreHonest};
ghost use Rattle.script_run.specs.StoredRuns.{StoredRunsAreKept};

/// Each load of such a run lists just the cookies of its key that the rows stand for over which the
/// run began, though the keeper held others by then.
///
/// This jar's own rule: docs/DEFINITIONS.md.
pub fn stored_runs_are_honest()
    ensures { StoredRunsAreHonest }
{}

/// Where the moments of a script are moments, the keeper holds at the run's end, among its sound
/// rows, just those that are to be stored after the journal.
///
/// This jar's own rule: docs/DEFINITIONS.md.
pub fn stored_runs_are_kept()
    ensures { StoredRunsAreKept }
{}

/// The journal of such a run is that of a jar in which all cookies of the rows are loaded from the
/// start: loading them a key at a time changed no answer.
///
/// This jar's own rule: docs/DEFINITIONS.md.
pub fn stored_runs_are_eager()
    ensures { StoredRunsAreEager }
{}
