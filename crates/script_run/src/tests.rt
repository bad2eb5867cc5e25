//! The program over streams in memory: its statuses, and what is written under each.

ghost use Rattle.std.specs.Prelude.{◌≤◌};

mod commits;
mod faults;
mod loads;
mod refusals;
mod renderers;
mod reports;
mod rows;
mod runs;

use crate::serial_tool;
use jar_edge::{MemSink, MemSource};
use jar_keeper::MemKeeper;
use jar_types::{Journal, Rows};
use std::alloc::Global;
use std::test::Fail;

/// What a run came to.
#[derive(Drop)]
pub struct Ran {
    pub status: u8,
    pub written: Vec<u8>,
    pub keeper: MemKeeper,
    pub journal: Journal,
}

/// A keeper without rows that never fails.
#[tactic(auto, using(jar_keeper::proofs::RowLemmas::none_rise))]
fn no_rows(alloc: Global) -> MemKeeper {
    MemKeeper::of(alloc, Rows::new(alloc), Vec::new(alloc))
}

/// A run of `serial` over a keeper, whose reads and writes fail at these numbers, and whose writes
/// take `piece` bytes.
fn run_over(
    alloc: Global,
    input: &str,
    keeper: MemKeeper,
    reads: &[u64],
    piece: usize,
    writes: &[u64],
) -> Result<Ran, Fail>
    requires { 1 ≤ piece }
{
    let bytes = Vec::from_slice(alloc, input.as_bytes())?;
    let mut source = MemSource::of(bytes, 7, Vec::from_slice(alloc, reads)?);
    let mut sink = MemSink::of(alloc, 1_048_576, piece, Vec::from_slice(alloc, writes)?)?;
    let outcome = serial_tool(alloc, &["serial"], &mut source, &mut sink, keeper);
    Ok(Ran {
        status: outcome.status,
        written: Vec::from_slice(alloc, sink.written())?,
        keeper: outcome.keeper,
        journal: outcome.journal,
    })
}

/// A run of `serial` over no rows, whose reads and writes fail at these numbers, and whose writes
/// take `piece` bytes.
fn run_serial(
    alloc: Global,
    input: &str,
    reads: &[u64],
    piece: usize,
    writes: &[u64],
) -> Result<Ran, Fail>
    requires { 1 ≤ piece }
{
    run_over(alloc, input, no_rows(alloc), reads, piece, writes)
}

/// A run of `serial` over a keeper, of which nothing else fails.
pub fn run_with(alloc: Global, input: &str, keeper: MemKeeper) -> Result<Ran, Fail> {
    run_over(alloc, input, keeper, &[], 4096, &[])
}

/// Whether `serial` answers an input with this status, and just this line.
pub fn answers(alloc: Global, input: &str, status: u8, line: &str) -> Result<bool, Fail> {
    let run = run_serial(alloc, input, &[], 64, &[])?;
    let written = run.written.as_slice();
    Ok(
        run.status == status
            && written.ends_with(b"\n")
            && written.starts_with(line.as_bytes())
            && written.len() == line.len() + 1,
    )
}

/// A script of no actor.
const NO_ACTOR: &str = "{\"actors\":[]}";

#[test]
fn a_failed_read_ends_with_4_and_writes_nothing(rt: HostRuntime) -> Result<(), Fail> {
    let run = run_serial(rt.alloc(), NO_ACTOR, &[1], 64, &[])?;
    assert_eq!(rt; run.status, 4);
    assert!(rt; run.written.is_empty());
    Ok(())
}

#[test]
fn a_failed_write_ends_with_5_behind_the_bytes_before(rt: HostRuntime) -> Result<(), Fail> {
    let run = run_serial(rt.alloc(), NO_ACTOR, &[], 1, &[3])?;
    assert_eq!(rt; run.status, 5);
    assert!(rt; run.written.as_slice() == b"{\"".as_slice());
    Ok(())
}

#[test]
fn other_words_get_the_usage_line(rt: HostRuntime) -> Result<(), Fail> {
    let alloc = rt.alloc();
    let mut source = MemSource::of(Vec::new(alloc), 1, Vec::new(alloc));
    let mut sink = MemSink::of(alloc, 80, 80, Vec::new(alloc))?;
    let words = ["serial", "serial"];
    let outcome = serial_tool(alloc, &words, &mut source, &mut sink, no_rows(alloc));
    assert_eq!(rt; outcome.status, 2);
    assert_eq!(rt; outcome.journal.len(), 0);
    assert!(rt;
        sink.written()
            == b"usage: cookiejar run|serial [--store FILE] | check | sample N\n".as_slice()
    );
    Ok(())
}
