//! Laws of loads, which ask for the rows of one host after another.

ghost use Rattle.stored_law.specs.HostLoads.{HostsAscend, LoadsAreHonest, RowsAreOfHosts};
ghost use Rattle.stored_law.specs.HostLoads.{LoadsBegin, LoadsFit, LoadsGoOn, StoredCookiesFit};

/// The hosts of rows ascend, and no two are the same.
///
/// This jar's own rule: docs/DEFINITIONS.md.
#[tactic(auto, using(crate::proofs::LoadLemmas::hosts_ascend))]
pub fn hosts_ascend()
    ensures { HostsAscend }
{}

/// The cookies of a key's hosts, host after host, are those that are stored of the key.
///
/// This jar's own rule: docs/DEFINITIONS.md.
#[tactic(auto, using(crate::proofs::LoadLemmas::loads_are_honest))]
pub fn loads_are_honest()
    ensures { LoadsAreHonest }
{}

/// A load of all that is stored of a key fits.
///
/// This jar's own rule: docs/DEFINITIONS.md.
#[tactic(auto, using(crate::proofs::LoadLemmas::stored_cookies_fit))]
pub fn stored_cookies_fit()
    ensures { StoredCookiesFit }
{}

/// The rows of a host, of rows that rise, are of the host alone, and rise.
///
/// This jar's own rule: docs/DEFINITIONS.md.
#[tactic(auto, using(crate::proofs::LoadLemmas::rows_are_of_hosts))]
pub fn rows_are_of_hosts()
    ensures { RowsAreOfHosts }
{}

/// A load begins without hosts and cookies.
///
/// This jar's own rule: docs/DEFINITIONS.md.
#[tactic(auto, using(crate::proofs::LoadLemmas::loads_begin))]
pub fn loads_begin()
    ensures { LoadsBegin }
{}

/// A load goes on with the cookies of one host more.
///
/// This jar's own rule: docs/DEFINITIONS.md.
#[tactic(auto, using(crate::proofs::LoadLemmas::loads_go_on))]
pub fn loads_go_on()
    ensures { LoadsGoOn }
{}

/// A load of all hosts of a key fits.
///
/// This jar's own rule: docs/DEFINITIONS.md.
#[tactic(auto, using(crate::proofs::LoadLemmas::loads_fit))]
pub fn loads_fit()
    ensures { LoadsFit }
{}
