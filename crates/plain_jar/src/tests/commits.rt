//! Commits of changed rows. Places of the journal count from 1.

use super::plans::full_jar;
use super::rows::{Kind, Row, SET, delete, get, numbered, set, storing, until, whole};
use super::runs::{all_replies, gives};
use jar_types::NoMemory;
use std::alloc::Global;
use std::test::Fail;

/// That a batch is taken.
const TAKE: Row = Row {
    kind: Kind::Taken,
    ..SET
};

/// That the batch that was taken at a place was committed.
fn acked(place: u64) -> Row {
    numbered(Kind::Acked, place)
}

/// That it was lost.
fn commit_lost(place: u64) -> Row {
    numbered(Kind::CommitLost, place)
}

#[test]
fn a_batch_is_taken_where_a_row_changed(rt: HostRuntime) -> Result<(), Fail> {
    let rows = [
        TAKE,
        set("a", "/", 0),
        TAKE,
        until("a", 0, 1000),
        TAKE,
        TAKE,
        acked(3),
        TAKE,
    ];
    let due = "no;stored;no;replaced;jar;no;jar;no;";
    assert!(rt; gives(rt.alloc(), &rows, due)?);
    Ok(())
}

// The batch is the one that was taken at the third place, and no other ends.
#[test]
fn a_batch_ends_by_its_place_and_once(rt: HostRuntime) -> Result<(), Fail> {
    let rows = [
        acked(0),
        until("a", 0, 1000),
        until("b", 0, 1000),
        TAKE,
        acked(2),
        commit_lost(4),
        until("c", 0, 1000),
        TAKE,
        storing(acked(3)),
        acked(3),
        commit_lost(3),
        TAKE,
    ];
    let due = "no;stored;stored;jar;no;no;stored;no;rows;no;no;jar;";
    assert!(rt; gives(rt.alloc(), &rows, due)?);
    Ok(())
}

// After a lost batch another is taken though no row changed, and after a committed one none is.
#[test]
fn a_lost_batch_is_made_up_for(rt: HostRuntime) -> Result<(), Fail> {
    let rows = [
        until("a", 0, 1000),
        storing(TAKE),
        storing(commit_lost(2)),
        TAKE,
        commit_lost(4),
        TAKE,
        acked(6),
        TAKE,
        get(1),
    ];
    let due = "stored;rows;rows;jar;jar;jar;jar;no;a 0 0;";
    assert!(rt; gives(rt.alloc(), &rows, due)?);
    Ok(())
}

// A row that came and went since the last batch is touched all the same, and so is one that changed twice.
#[test]
fn a_touched_id_stays_until_it_is_taken(rt: HostRuntime) -> Result<(), Fail> {
    let rows = [
        until("b", 0, 1000),
        until("a", 0, 1000),
        delete("b", 1),
        until("a", 2, 1000),
        until("c", 2, 1000),
        TAKE,
        acked(6),
        TAKE,
        delete("c", 3),
        TAKE,
        acked(9),
    ];
    let due = "stored;stored;there;replaced;stored;jar;jar;no;there;jar;jar;";
    assert!(rt; gives(rt.alloc(), &rows, due)?);
    Ok(())
}

/// What a jar answers that becomes whole, and in which a batch is taken then, when many stored cookies have expired.
fn replies_of_a_sweep(alloc: Global) -> Result<String, NoMemory> {
    let mut rows = full_jar(alloc)?;
    for row in rows.as_mut_slice() {
        if row.host == "a.test" && row.number > 170 {
            row.expiry = Some(1000);
        }
    }
    rows.push(TAKE)?;
    rows.push(acked(3307))?;
    rows.push(TAKE)?;
    rows.push(storing(whole(2_592_000_005)))?;
    rows.push(TAKE)?;
    all_replies(alloc, rows.as_slice())
}

#[test]
fn a_sweep_drops_the_rows_of_what_leaves(rt: HostRuntime) -> Result<(), Fail> {
    let text = replies_of_a_sweep(rt.alloc())?;
    let due = ";jar;jar;no;rows [drop n171] [drop n172] [drop n173] [drop n174];jar;";
    assert!(rt; text.as_str().ends_with(due));
    Ok(())
}
