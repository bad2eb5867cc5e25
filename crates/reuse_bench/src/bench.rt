//! The word, the cells and the kept text that the loops use.

ghost use Rattle.std.specs.Prelude.{◌≡◌, ◌<◌, ◌-◌, ◌^◌, [], IfOk, length, min};
ghost use Rattle.reuse_bench.specs.declared.bench.TheConstants.{CELL};
ghost use Rattle.reuse_bench.specs.Looked.{HasLooked, looks_of};

use crate::task::Task;
use jar_types::{Entry, Moment, NoMemory, Own, Text};
use renderer_cache::{Kept, Reuse};
use std::alloc::Global;
use std::sync::atomic::{AtomicU64, Ordering};
use version_cells::{Cells, Made, Pass};

/// The answer text that is copied.
const ANSWER: &str = "SID=31d4d96e407aad42; theme=dark; lang=en-GB";

/// The cell of the text.
const CELL: u32 = 7;

/// A bare word of 1, and a cell of version 1 with a text that is kept at it.
///
/// Word and text lie in boxes, so that the compiler knows neither and each round reads them anew.
#[derive(Drop)]
pub struct Bench {
    word: Box<AtomicU64>,
    cells: Cells,
    pass: Pass,
    kept: Box<Kept>,
    ghost same: { pass.table ≡ cells },
}

impl Bench {
    /// The word and the cell, which one entry at `now` moved, and the kept text.
    pub fn make(alloc: Global, now: Moment) -> Result<Bench, NoMemory>
        ensures kept { IfOk result (λ bench. (bench.kept.value.cell ≡ CELL)
            × (bench.kept.value.version ≡ 1) × (bench.kept.value.until ≡ 1)) }
        ensures unlooked { IfOk result (λ bench. bench.pass.view.looks ≡ []) }
    {
        let Made {
            cells,
            mut baton,
            cutter,
            passes: _,
        } = Cells::make(alloc, 0)?;
        cells.bump(&mut baton, CELL);
        cells.commit(&mut baton, None, &[CELL], &Entry::Jar(Own::Whole(now)));
        let kept = Kept {
            cell: CELL,
            version: 1,
            until: 1,
            text: Text::of(alloc, ANSWER)?,
        };
        Ok(Bench {
            word: Box::new(alloc, AtomicU64::new(1))?,
            cells,
            pass: cutter,
            kept: Box::new(alloc, kept)?,
        })
    }

    /// How many looks were made.
    pub fn looks(&self) -> u64
        ensures { result ≡ min (length self.now.pass.view.looks) (2 ^ 64 - 1) }
    {
        self.pass.looks()
    }

    /// Does a task so many times at a moment, and sums up what each round gives: a number or a
    /// length.
    pub fn sum(&mut self, alloc: Global, task: Task, now: Moment, rounds: u64) -> u64
        requires early { now < self.old.kept.value.until }
        ensures looked { HasLooked self.old.pass self.new.pass (looks_of task rounds) }
    {
        match task {
            Task::Load => loads(&self.word, rounds),
            Task::Look => looks(&self.cells, &mut self.pass, rounds),
            Task::LoadCopy => load_copies(alloc, &self.word, &self.kept.text, rounds),
            Task::ReuseCopy => {
                reuse_copies(alloc, &self.kept, &self.cells, &mut self.pass, now, rounds)
            }
        }
    }
}

/// The sum of loads of the word.
fn loads(word: &AtomicU64, rounds: u64) -> u64 {
    let mut sum = 0u64;
    for _ in 0..rounds {
        sum = sum.wrapping_add(word.load(Ordering::SeqCst));
    }
    sum
}

/// The sum of looks at the cell.
fn looks(cells: &Cells, pass: &mut Pass, rounds: u64) -> u64
    requires same { pass.old.table ≡ cells.now }
    ensures same { pass.new.table ≡ cells.now }
    ensures looked { HasLooked pass.old pass.new rounds }
{
    let mut sum = 0u64;
    for _ in 0..rounds {
        sum = sum.wrapping_add(cells.look(pass, CELL));
    }
    sum
}

/// The length of a copy of a text, 0 where there was no memory for it.
fn copied_len(alloc: Global, text: &str) -> u64 {
    match Text::of(alloc, text) {
        Ok(copy) => copy.as_str().len() as u64,
        Err(_) => 0,
    }
}

/// The lengths of copies of the text, one for each load of the word.
fn load_copies(alloc: Global, word: &AtomicU64, text: &Text, rounds: u64) -> u64 {
    let mut sum = 0u64;
    for _ in 0..rounds {
        if word.load(Ordering::SeqCst) == 1 {
            sum = sum.wrapping_add(copied_len(alloc, text.as_str()));
        }
    }
    sum
}

/// The lengths of copies of the kept text, one for each reuse that is a hit.
fn reuse_copies(
    alloc: Global,
    kept: &Kept,
    cells: &Cells,
    pass: &mut Pass,
    now: Moment,
    rounds: u64,
) -> u64
    requires same { pass.old.table ≡ cells.now }
    requires early { now < kept.now.until }
    ensures same { pass.new.table ≡ cells.now }
    ensures looked { HasLooked pass.old pass.new rounds }
{
    let mut sum = 0u64;
    for _ in 0..rounds {
        if let Reuse::Hit(text) = kept.try_reuse(cells, pass, now) {
            sum = sum.wrapping_add(copied_len(alloc, text));
        }
    }
    sum
}
