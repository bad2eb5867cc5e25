use crate::{Called, each_calls, one_call, three_entries};
use jar_types::{Entry, Moment, Own};
use std::test::Fail;
use version_cells::{CELLS, Cells, Made};

/// The entry of each commit, which the words never read.
fn entry_at(now: Moment) -> Entry {
    Entry::Jar(Own::Whole(now))
}

// One entry moves cells 1 and 2: both words are 1, and a third stays 0.
#[test]
fn two_passes_see_both_cells_of_an_entry(rt: HostRuntime) -> Result<(), Fail> {
    let (Ok(made), Some(now)) = (Cells::make(rt.alloc(), 2), Moment::of(1)) else {
        panic!(rt; "no memory")
    };
    let entry = entry_at(now);
    let Made {
        cells,
        mut baton,
        mut cutter,
        mut passes,
    } = made;
    cells.bump(&mut baton, 1);
    cells.bump(&mut baton, 2);
    cells.commit(&mut baton, None, &[2, 1], &entry);
    let first = cells.look(&mut passes[0], 1);
    let second = cells.look(&mut passes[1], 2);
    let other = cells.look(&mut cutter, 3);
    assert!(rt;
        first == 1 && second == 1 && other == 0,
        "{first} {second} {other}"
    );
    assert!(rt; cutter.caller() == 2 && cutter.looks() == 1 && cutter.front() == 0);
    Ok(())
}

// The cell was moved once by the first call and twice under the lent permit; the front ends with
// the call that was answered.
#[test]
fn a_permit_comes_home_through_several_commits(rt: HostRuntime) -> Result<(), Fail> {
    let (Ok(made), Some(now)) = (Cells::make(rt.alloc(), 1), Moment::of(1)) else {
        panic!(rt; "no memory")
    };
    let entry = entry_at(now);
    let Made {
        cells,
        mut baton,
        mut cutter,
        passes: _,
    } = made;
    one_call(&cells, &mut baton, &mut cutter, CELLS, &entry);
    three_entries(&cells, &mut baton, &mut cutter, CELLS, &entry);
    let found = cells.look(&mut cutter, CELLS);
    let front = cutter.front();
    assert!(rt; found == 3 && front == 1, "{found} {front}");
    Ok(())
}

// Three callers with two calls each: six entries move the cell, and each pass looked twice. Each
// front ends with the pass's own last entry, so no two have one length, and the longest has all
// six.
#[test]
fn each_entry_of_three_threads_counts_once(rt: HostRuntime) -> Result<(), Fail> {
    let Some(now) = Moment::of(1) else {
        panic!(rt; "no moment")
    };
    let Ok(called) = each_calls(&rt, rt.alloc(), 3, now) else {
        panic!(rt; "no memory")
    };
    let Called {
        cells,
        mut cutter,
        passes,
    } = called;
    let found = cells.look(&mut cutter, 5);
    let mut looks = 0u64;
    for pass in &passes {
        looks = looks.saturating_add(pass.looks());
    }
    assert!(rt; found == 6 && looks == 6, "{found} {looks}");
    let [first, second, third] = passes.as_slice() else {
        panic!(rt; "not three passes")
    };
    let (a, b, c) = (first.front(), second.front(), third.front());
    assert!(rt;
        a != b && b != c && c != a && a.max(b).max(c) == 6,
        "{a} {b} {c}"
    );
    Ok(())
}
