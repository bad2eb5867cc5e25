//! The public call: a report as a value.

use super::no_rows;
use crate::{Report, serial};
use jar_types::NoMemory;
use script_text::{Script, ScriptRefusal};
use std::alloc::Global;
use std::test::Fail;

/// A hear and a get, and a set and a post that is heard.
const TWO_ACTORS: &str =
    "{\"actors\":[{\"kind\":\"fetch\",\"steps\":[{\"actor\":1,\"n\":1,\"now\":5,\"op\":\"hear\"},{\"now\":5,\"op\":\"get\",\"url\":\"http://h.test/\"}]},{\"kind\":\"fetch\",\"steps\":[{\"line\":\"a=1\",\"now\":1,\"op\":\"set\",\"url\":\"http://h.test/\"},{\"now\":2,\"op\":\"post\"}]}]}";

/// The report of a script; none where it is refused.
fn report_of(alloc: Global, script: &str) -> Result<Option<Report>, NoMemory> {
    match Script::read(alloc, script.as_bytes()) {
        Ok(script) => match serial(alloc, &script, no_rows(alloc)) {
            Ok(ran) => Ok(Some(ran.report)),
            Err(_) => Err(NoMemory),
        },
        Err(ScriptRefusal::Refused(_)) => Ok(None),
        Err(ScriptRefusal::NoMemory) => Err(NoMemory),
    }
}

#[test]
fn a_report_has_the_items_of_each_actor_and_the_journal(rt: HostRuntime) -> Result<(), Fail> {
    let Some(report) = report_of(rt.alloc(), TWO_ACTORS)? else {
        return Err("no report".into());
    };
    assert_eq!(rt; report.hosts.len(), 0);
    assert_eq!(rt; report.journal.len(), 5);
    assert_eq!(rt; report.items.len(), 2);
    for items in report.items.as_slice() {
        assert_eq!(rt; items.len(), 2);
    }
    Ok(())
}
