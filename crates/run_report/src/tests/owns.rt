//! The jar's own entries as texts.

use super::{COOKIE, at, cookie, joined, text_of_entry};
use jar_types::{Cookies, Entry, Own};
use jar_values::Text;
use std::alloc::Global;
use std::test::Fail;

/// Whether an entry of the jar's own is written as these parts.
fn is_own(alloc: Global, own: Own, parts: &[&str]) -> Result<bool, Fail> {
    let text = text_of_entry(alloc, Entry::Jar(own))?;
    let due = joined(
        alloc,
        "{\"actors\":[],\"hosts\":[],\"journal\":[",
        parts,
        "]}\n",
    )?;
    Ok(text.as_slice() == due.as_slice())
}

/// The end of a load with one cookie.
fn loaded(alloc: Global) -> Result<Own, Fail> {
    let mut cookies = Cookies::new(alloc);
    cookies.push(cookie(alloc)?)?;
    Ok(Own::Loaded {
        key: Text::of(alloc, "h.test")?,
        cookies,
    })
}

#[test]
fn entries_of_a_load_have_its_key(rt: HostRuntime) -> Result<(), Fail> {
    let alloc = rt.alloc();
    let want = "{\"key\":\"h.test\",\"own\":\"want\"}";
    let begun = "{\"key\":\"h.test\",\"own\":\"begun\"}";
    let lost = "{\"key\":\"h.test\",\"own\":\"lost\"}";
    assert!(rt; is_own(alloc, Own::Want(Text::of(alloc, "h.test")?), &[want])?);
    assert!(rt; is_own(alloc, Own::WantAll, &["{\"own\":\"want_all\"}"])?);
    assert!(rt; is_own(alloc, Own::Begun(Text::of(alloc, "h.test")?), &[begun])?);
    assert!(rt; is_own(alloc, Own::Lost(Text::of(alloc, "h.test")?), &[lost])?);
    assert!(rt;
        is_own(
            alloc,
            loaded(alloc)?,
            &[
                "{\"cookies\":[",
                COOKIE,
                "],\"key\":\"h.test\",\"own\":\"loaded\"}"
            ],
        )?
    );
    assert!(rt;
        is_own(
            alloc,
            Own::Whole(at(5)?),
            &["{\"now\":5,\"own\":\"whole\"}"]
        )?
    );
    Ok(())
}

#[test]
fn entries_of_a_batch_have_the_place_of_its_taking(rt: HostRuntime) -> Result<(), Fail> {
    let alloc = rt.alloc();
    let acked = "{\"own\":\"acked\",\"place\":18446744073709551615}";
    let lost = "{\"own\":\"commit_lost\",\"place\":2}";
    assert!(rt; is_own(alloc, Own::Taken, &["{\"own\":\"taken\"}"])?);
    assert!(rt; is_own(alloc, Own::Acked(18_446_744_073_709_551_615), &[acked])?);
    assert!(rt; is_own(alloc, Own::CommitLost(2), &[lost])?);
    Ok(())
}
