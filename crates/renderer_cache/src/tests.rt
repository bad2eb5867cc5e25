ghost use Rattle.std.specs.Prelude.{◌≡◌};

use crate::{Kept, Reuse};
use jar_types::{Entry, Moment, Own, Text};
use std::alloc::Global;
use std::test::Fail;
use version_cells::{Cells, Made, Pass};

/// The text `a=1` of cell 7, kept at version 0 until 10.
fn keep(alloc: Global) -> Option<Kept> {
    let Ok(text) = Text::of(alloc, "a=1") else {
        return None;
    };
    Some(Kept {
        cell: 7,
        version: 0,
        until: 10,
        text,
    })
}

/// 0 for late, 1 for a hit with the kept text, 2 for 0 kept and 1 found, and 3 for anything else.
fn number_of(reuse: Reuse<'_>) -> u8 {
    match reuse {
        Reuse::Late => 0,
        Reuse::Hit(text) => if text == "a=1" { 1 } else { 3 },
        Reuse::Moved { kept, found } => if kept == 0 && found == 1 { 2 } else { 3 },
    }
}

/// What a try to reuse gives at a moment, 4 where there is no such moment.
fn answer_at(kept: &Kept, cells: &Cells, pass: &mut Pass, ms: u64) -> u8
    requires same { pass.old.table ≡ cells.now }
    ensures same { pass.new.table ≡ cells.now }
{
    match Moment::of(ms) {
        Some(now) => number_of(kept.try_reuse(cells, pass, now)),
        None => 4,
    }
}

// A text kept at version 0 until 10: below 10 the look decides, from 10 on it is late without a
// look.
#[test]
fn a_kept_text_is_reused_until_its_moment_or_a_move(rt: HostRuntime) -> Result<(), Fail> {
    let (Ok(made), Some(kept)) = (Cells::make(rt.alloc(), 0), keep(rt.alloc())) else {
        panic!(rt; "no memory")
    };
    let Some(now) = Moment::of(8) else {
        panic!(rt; "no moment")
    };
    let Made {
        cells,
        mut baton,
        mut cutter,
        passes: _,
    } = made;
    let hit = answer_at(&kept, &cells, &mut cutter, 9);
    let late = answer_at(&kept, &cells, &mut cutter, 10);
    assert!(rt;
        hit == 1 && late == 0 && cutter.looks() == 1,
        "{hit} {late}"
    );
    cells.bump(&mut baton, 7);
    cells.commit(&mut baton, None, &[7], &Entry::Jar(Own::Whole(now)));
    let moved = answer_at(&kept, &cells, &mut cutter, 9);
    let late = answer_at(&kept, &cells, &mut cutter, 10);
    assert!(rt;
        moved == 2 && late == 0 && cutter.looks() == 2,
        "{moved} {late}"
    );
    Ok(())
}
