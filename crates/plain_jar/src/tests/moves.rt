//! The keys that an event moves.

use super::plans::add_sets;
use super::rows::{delete, get, moving, set, until};
use super::runs::{all_replies, gives};
use jar_types::NoMemory;
use std::alloc::Global;
use std::test::Fail;

#[test]
fn a_key_is_moved_where_its_cookies_change(rt: HostRuntime) -> Result<(), Fail> {
    let rows = [
        moving(set("a", "/", 0)),
        moving(set("a", "/", 1)),
        moving(get(60_001)),
        moving(until("b", 60_002, 60_100)),
        moving(get(60_100)),
        moving(delete("a", 60_101)),
        moving(delete("a", 60_102)),
    ];
    let due = "moved h.test;moved h.test;moved;moved h.test;moved h.test;moved h.test;moved;";
    assert!(rt; gives(rt.alloc(), &rows, due)?);
    Ok(())
}

/// The keys that a Set moves that is one too many for its key.
fn moved_by_an_eviction(alloc: Global) -> Result<String, NoMemory> {
    let mut rows = Vec::new(alloc);
    add_sets(&mut rows, "h.test", 180)?;
    rows.push(moving(set("last", "/", 181)))?;
    all_replies(alloc, rows.as_slice())
}

#[test]
fn a_set_with_evictions_moves_its_key_once(rt: HostRuntime) -> Result<(), Fail> {
    let text = moved_by_an_eviction(rt.alloc())?;
    assert!(rt; text.as_str().ends_with("stored;moved h.test;"));
    Ok(())
}
