//! Each call of a keeper failing in turn over a script of several keys: the run ends, and has an
//! entry for the fault.

use super::rows::two_keys;
use super::run_with;
use jar_types::{Entry, Journal, Own};
use std::test::Fail;

/// A set and a get of two keys each, by two actors, and all cookies.
const SCRIPT: &str =
    "{\"actors\":[{\"kind\":\"fetch\",\"steps\":[{\"line\":\"m=1; Max-Age=10\",\"now\":0,\"op\":\"set\",\"url\":\"https://b.test/\"},{\"now\":0,\"op\":\"get\",\"url\":\"https://b.test/\"}]},{\"kind\":\"fetch\",\"steps\":[{\"line\":\"n=1; Max-Age=10\",\"now\":0,\"op\":\"set\",\"url\":\"https://www.a.test/\"},{\"now\":0,\"op\":\"all\"}]}],\"suffixes\":\"test\"}";

#[test]
fn each_call_that_fails_is_told_by_one_entry(rt: HostRuntime) -> Result<(), Fail> {
    let alloc = rt.alloc();
    // Call 1 asks for the hosts, 2 to 4 load those of the two keys, 5 is the last commit; there is no sixth where none fails.
    // A set that is told of a lost load stores nothing.
    for (call, faults, rows) in [(2, 1, 4), (3, 1, 4), (4, 1, 4), (5, 1, 3), (7, 0, 5)] {
        let ran = run_with(alloc, SCRIPT, two_keys(alloc, &[call])?)?;
        assert_eq!(rt; faults_of(&ran.journal), faults, "call {call}");
        assert_eq!(rt; ran.status, if faults == 0 { 0 } else { 6 }, "call {call}");
        assert_eq!(rt; ran.keeper.rows().len(), rows, "call {call}");
    }
    Ok(())
}

/// How many entries tell of a fault of the keeper.
fn faults_of(journal: &Journal) -> usize {
    journal
        .as_slice()
        .iter()
        .filter(|entry| matches!(entry, Entry::Jar(Own::Lost(_) | Own::CommitLost(_))))
        .count()
}
