//! The loops that are timed.

ghost use Rattle.std.specs.Prelude.{◌≡◌, ◌≤◌};
ghost use Rattle.jar_bench.specs.Looked.{HasLooked, LooksOnce, StaysCaller};

use jar_types::{Moment, Text};
use restricted_manager::{Manager, ReadTurn};
use std::alloc::Global;
use std::sync::atomic::{AtomicU64, Ordering};
use version_cells::{Cells, Pass};

/// What rounds gave: the sum of the lengths of the texts, and how many reads reused the kept text.
#[derive(Clone, Copy)]
pub struct Given {
    pub sum: u64,
    pub hits: u64,
}

/// Reads the document's cookies so many times.
pub fn reuses(
    alloc: Global,
    manager: &Manager,
    cells: &Cells,
    pass: &mut Pass,
    now: Moment,
    rounds: u64,
) -> Given
    requires same { pass.old.table ≡ cells.now }
    ensures same { pass.new.table ≡ cells.now }
    ensures looked { HasLooked pass.old pass.new result.hits rounds }
    ensures stays { StaysCaller pass.old pass.new }
{
    let mut sum = 0u64;
    let mut hits = 0u64;
    for _ in 0..rounds {
        if let Some(length) = reused(alloc, manager, cells, pass, now) {
            sum = sum.wrapping_add(length);
            hits += 1;
        }
    }
    Given { sum, hits }
}

/// The length of the text of a read that reused it.
fn reused(
    alloc: Global,
    manager: &Manager,
    cells: &Cells,
    pass: &mut Pass,
    now: Moment,
) -> Option<u64>
    requires same { pass.old.table ≡ cells.now }
    ensures same { pass.new.table ≡ cells.now }
    ensures looked { LooksOnce pass.old pass.new result }
    ensures stays { StaysCaller pass.old pass.new }
{
    match manager.begin_read(alloc, cells, pass, None, now) {
        Ok(ReadTurn::Reused(text)) => Some(text.as_str().len() as u64),
        _ => None,
    }
}

/// Loads the word and copies the text so many times.
pub fn copies(alloc: Global, word: &AtomicU64, text: &Text, rounds: u64) -> Given
    ensures none { result.hits ≡ 0 }
{
    let mut sum = 0u64;
    for _ in 0..rounds {
        if word.load(Ordering::SeqCst) == 1 {
            sum = sum.wrapping_add(copied(alloc, text));
        }
    }
    Given { sum, hits: 0 }
}

/// The length of a copy of a text, 0 where there was no memory for it.
fn copied(alloc: Global, text: &Text) -> u64 {
    match text.copy(alloc) {
        Ok(copy) => copy.as_str().len() as u64,
        Err(_) => 0,
    }
}
