//! The jar is shared, and each thread reads.

ghost use Rattle.std.specs.Prelude.{◌≡◌, true, IfOk};
ghost use Rattle.std.specs.List.{AllByRecursion};
ghost use Rattle.jar_types.specs.Journals.{is_well_keyed};
ghost use Rattle.public_suffix.specs.Suffix.{key_of};
ghost use Rattle.shared_jar.specs.Together.{IsCaller};
ghost use Rattle.store_vault.specs.Loading.{rules_of};

use crate::jar::{document, set_op};
use crate::reader::{Reader, TheJar};
use crate::words::Task;
use jar_keeper::MemKeeper;
use jar_types::{Moment, NoMemory, Op};
use plain_jar::PlainJar;
use public_suffix::Suffixes;
use shared_jar::{JarName, Opened};
use site_match::Place;
use std::alloc::Global;
use std::sync::Wait;
use std::sync::atomic::AtomicU64;
use std::thread;
use std::thread::Threads;
use version_cells::Pass;

/// What all threads gave: the sum of lengths, and how many looks were made.
#[derive(Clone, Copy)]
pub struct Tally {
    pub sum: u64,
    pub looks: u64,
}

/// Shares the jar under its name, sets the document's cookie, has each reader keep it, and then does
/// the task on a thread for each.
pub fn run<N: JarName + Send + Sync, R: Threads + Wait + Sync>(
    rt: &R,
    alloc: Global,
    opened: Opened<PlainJar, MemKeeper>,
    task: Task,
    threads: u32,
    rounds: u64,
) -> Result<Tally, NoMemory>
    requires words { opened.jar.cells ≡ N.table }
    requires rules { rules_of opened.jar.vault.stored opened.jar.callers
        opened.jar.locked.jar.limit ≡ N.rules }
    requires cutter { opened.jar.vault.cutter.view.number ≡ N.cutter }
    requires passes { AllByRecursion (IsCaller N.rules N.table) opened.passes.items }
{
    let Some(now) = Moment::of(0) else {
        return Err(NoMemory);
    };
    let Opened { jar, passes, .. } = opened;
    let (set, mut readers) = crew::<N>(alloc, &jar.vault.stored.suffixes, passes, threads, now)?;
    let shared = jar.share::<N>();
    reads(
        rt,
        alloc,
        &shared,
        readers.as_mut_slice(),
        &set,
        task,
        now,
        rounds,
    )?;
    Ok(tally_of(readers.as_slice()))
}

/// What sets the cookie, and who reads.
fn crew<N: JarName>(
    alloc: Global,
    suffixes: &Suffixes,
    passes: Vec<Pass>,
    threads: u32,
    now: Moment,
) -> Result<(Op, Vec<Reader<N>>), NoMemory>
    requires keys { N.rules.key_of ≡ key_of suffixes.now }
    requires passes { AllByRecursion (IsCaller N.rules N.table) passes.items }
    ensures keyed { IfOk result (λ made. is_well_keyed N.rules made.0 ≡ true) }
{
    let set = set_op::<N>(alloc, suffixes, "h.test", now)?;
    let document = document(alloc, suffixes)?;
    let readers = readers::<N>(alloc, passes, &document, threads)?;
    Ok((set, readers))
}

/// The document's cookies are set and kept, and then the task is done.
fn reads<N: JarName + Send + Sync, R: Threads + Wait + Sync>(
    rt: &R,
    alloc: Global,
    shared: &TheJar<N>,
    readers: &mut [Reader<N>],
    set: &Op,
    task: Task,
    now: Moment,
    rounds: u64,
) -> Result<(), NoMemory>
    requires keyed { is_well_keyed N.rules set.now ≡ true }
{
    warm(rt, alloc, shared, readers, set, now)?;
    let word = Box::new(alloc, AtomicU64::new(1))?;
    play_all(rt, alloc, shared, readers, &word, task, now, rounds);
    Ok(())
}

/// A reader for each pass.
fn readers<N: JarName>(
    alloc: Global,
    passes: Vec<Pass>,
    document: &Place,
    threads: u32,
) -> Result<Vec<Reader<N>>, NoMemory>
    requires { AllByRecursion (IsCaller N.rules N.table) passes.items }
{
    let mut passes = passes;
    let mut all = Vec::new(alloc);
    for _ in 0..threads {
        let Some(pass) = passes.pop() else {
            return Ok(all);
        };
        all.push(Reader::of(alloc, pass, document)?)?;
    }
    Ok(all)
}

/// The first reader sets the cookie, and then each keeps the document's cookies.
fn warm<N: JarName, R: Wait>(
    rt: &R,
    alloc: Global,
    shared: &TheJar<N>,
    readers: &mut [Reader<N>],
    set: &Op,
    now: Moment,
) -> Result<(), NoMemory>
    requires keyed { is_well_keyed N.rules set.now ≡ true }
{
    if let Some(first) = readers.first_mut() {
        first.ask(rt, alloc, shared, set, now)?;
    }
    for reader in readers {
        reader.warm(rt, alloc, shared, now)?;
    }
    Ok(())
}

/// Each reader does the task on a thread of its own.
fn play_all<N: JarName + Send + Sync, R: Threads + Sync>(
    rt: &R,
    alloc: Global,
    shared: &TheJar<N>,
    readers: &mut [Reader<N>],
    word: &AtomicU64,
    task: Task,
    now: Moment,
    rounds: u64,
) {
    let count = readers.len();
    if count == 0 {
        return;
    }
    thread::for_each_mut(
        rt,
        readers,
        count,
        &|_, reader: &mut Reader<N>| reader.play(alloc, shared, word, task, now, rounds),
    );
}

/// The sum of what the readers gave, and of their looks.
fn tally_of<N: JarName>(readers: &[Reader<N>]) -> Tally {
    let mut tally = Tally { sum: 0, looks: 0 };
    for reader in readers {
        tally.sum = tally.sum.wrapping_add(reader.given.sum);
        tally.looks = tally.looks.wrapping_add(reader.pass.looks());
    }
    tally
}
