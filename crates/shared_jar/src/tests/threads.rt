//! Eight threads set and read the cookies of two keys of one jar; what the journal has then is
//! judged by a jar of one thread, and by what each caller was told.

ghost use Rattle.std.specs.Prelude.{◌≡◌};
ghost use Rattle.std.specs.List.{AllByRecursion};
ghost use Rattle.std.proofs.Props.{props};
ghost use Rattle.locked_jar.specs.Passes.{IsHome};
ghost use Rattle.public_suffix.specs.Suffix.{key_of};
ghost use Rattle.shared_jar.specs.Together.{IsCaller};
ghost use Rattle.store_vault.specs.Loading.{rules_of};

use super::asks::{ASKS, Asked, asks};
use super::judge::{empty, judged, stands_at};
use super::opened;
use crate::{JarName, Opened, SharedJar};
use jar_keeper::MemKeeper;
use jar_types::{Journal, NoMemory};
use locked_jar::Receipt;
use plain_jar::PlainJar;
use public_suffix::Suffixes;
use std::alloc::Global;
use std::marker::{Brand, PhantomData};
use std::process::Abort;
use std::sync::Wait;
use std::test::Fail;
use std::thread;
use std::thread::Threads;
use store_vault::LoadStep;
use version_cells::Pass;

/// How many threads ask.
const WORKERS: u32 = 8;

/// The jar that they share.
type TheJar<N> = SharedJar<N, PlainJar, MemKeeper>;

/// Who asks: a caller's pass, what it was told, and whether an answer was missing.
#[derive(Drop)]
struct Worker<N: JarName> {
    pass: Pass,
    told: Vec<Receipt>,
    failed: bool,
    of: PhantomData<N>,
    ghost is: { IsCaller N.rules N.table pass } by { Prim.hlevel props },
}

impl<N: JarName> Worker<N> {
    /// Nobody has asked yet.
    fn of(alloc: Global, pass: Pass) -> Worker<N>
        requires { IsCaller N.rules N.table pass }
    {
        Worker {
            pass,
            told: Vec::new(alloc),
            failed: false,
            of: PhantomData,
        }
    }

    /// Asks once, and keeps what it is told.
    fn ask<R: Wait>(&mut self, rt: &R, alloc: Global, jar: &TheJar<N>, asked: &Asked<N>) {
        match jar.call(rt, alloc, &mut self.pass, &asked.op, asked.now) {
            Ok(receipt) => {
                if self.told.push(receipt).is_err() {
                    self.failed = true;
                }
            }
            Err(_) => self.failed = true,
        }
    }

    /// Asks each of these in turn.
    fn ask_each<R: Wait>(&mut self, rt: &R, alloc: Global, jar: &TheJar<N>, asks: &[Asked<N>]) {
        for asked in asks {
            self.ask(rt, alloc, jar, asked);
        }
    }
}

/// A worker for each pass.
fn workers<N: JarName>(alloc: Global, passes: Vec<Pass>) -> Result<Vec<Worker<N>>, NoMemory>
    requires { AllByRecursion (IsCaller N.rules N.table) passes.items }
{
    let mut passes = passes;
    let mut all = Vec::new(alloc);
    for _ in 0..WORKERS {
        let Some(pass) = passes.pop() else {
            return Ok(all);
        };
        all.push(Worker::of(alloc, pass))?;
    }
    Ok(all)
}

/// Whether a caller was told of all that it asked, at places that rise, where its entries stand.
fn was_told<N: JarName>(journal: &Journal, worker: &Worker<N>) -> bool {
    let mut last = 0u64;
    for receipt in &worker.told {
        if receipt.place <= last || !stands_at(journal, worker.pass.caller(), receipt) {
            return false;
        }
        last = receipt.place;
    }
    !worker.failed && worker.told.len() == ASKS
}

/// The jar is shared under its name, and asked by eight threads.
fn shared_by_all<N: JarName + Send + Sync, R: Threads + Wait + Abort + Sync>(
    rt: &R,
    alloc: Global,
    opened: Opened<PlainJar, MemKeeper>,
) -> Result<(), Fail>
    requires words { opened.jar.cells ≡ N.table }
    requires rules { rules_of opened.jar.vault.stored opened.jar.callers
        opened.jar.locked.jar.limit ≡ N.rules }
    requires cutter { opened.jar.vault.cutter.view.number ≡ N.cutter }
    requires passes { AllByRecursion (IsCaller N.rules N.table) opened.passes.items }
    requires home { IsHome N.table opened.loader × IsHome N.table opened.committer }
{
    let Opened {
        jar,
        passes,
        mut loader,
        mut committer,
    } = opened;
    let (asks, mut workers) = crew(alloc, &jar.vault.stored.suffixes, passes)?;
    let shared = jar.share::<N>();
    play(
        rt,
        alloc,
        &shared,
        workers.as_mut_slice(),
        &mut loader,
        &mut committer,
        asks.as_slice(),
    );
    let journal = journal_of(shared);
    judge_all(rt, alloc, &journal, workers.as_slice())
}

/// What is asked, and who asks.
fn crew<N: JarName>(
    alloc: Global,
    suffixes: &Suffixes,
    passes: Vec<Pass>,
) -> Result<(Vec<Asked<N>>, Vec<Worker<N>>), Fail>
    requires keys { N.rules.key_of ≡ key_of suffixes.now }
    requires passes { AllByRecursion (IsCaller N.rules N.table) passes.items }
{
    let Ok(asks) = asks::<N>(alloc, suffixes) else {
        return Err("no memory".into());
    };
    let Ok(workers) = workers::<N>(alloc, passes) else {
        return Err("no memory".into());
    };
    Ok((asks, workers))
}

/// The jar becomes whole, eight threads ask, and what they set is committed.
fn play<N: JarName + Send + Sync, R: Threads + Wait + Abort + Sync>(
    rt: &R,
    alloc: Global,
    shared: &TheJar<N>,
    workers: &mut [Worker<N>],
    loader: &mut Pass,
    committer: &mut Pass,
    asks: &[Asked<N>],
)
    requires home { IsHome N.table loader.old × IsHome N.table committer.old }
{
    let whole = becomes_whole(rt, alloc, shared, loader);
    assert!(rt; whole);
    ask_all(rt, alloc, shared, workers, asks);
    let place = commits(rt, alloc, shared, committer);
    // The Whole, the entries of the callers, and then the Taken.
    assert!(rt; place == 34);
}

/// Whether the jar becomes whole.
fn becomes_whole<N: JarName, R: Wait>(
    rt: &R,
    alloc: Global,
    shared: &TheJar<N>,
    loader: &mut Pass,
) -> bool
    requires home { IsHome N.table loader.old }
{
    matches!(shared.load_next(rt, alloc, loader), Ok(LoadStep::Whole))
}

/// The place of the last batch, once a flush was forced; 0 where it was refused.
fn commits<N: JarName, R: Wait>(
    rt: &R,
    alloc: Global,
    shared: &TheJar<N>,
    committer: &mut Pass,
) -> u64
    requires home { IsHome N.table committer.old }
{
    shared.flush(rt, alloc, committer, true).unwrap_or(0)
}

/// The journal of a jar that is shared no more.
fn journal_of<N: JarName>(shared: TheJar<N>) -> Journal {
    let own = shared.unshare();
    let (_, journal) = own.locked.into_parts();
    journal
}

/// Each worker asks on a thread of its own.
fn ask_all<N: JarName + Send + Sync, R: Threads + Wait + Sync>(
    rt: &R,
    alloc: Global,
    shared: &TheJar<N>,
    workers: &mut [Worker<N>],
    asks: &[Asked<N>],
) {
    let count = workers.len();
    if count == 0 {
        return;
    }
    thread::for_each_mut(
        rt,
        workers,
        count,
        &|_, worker: &mut Worker<N>| worker.ask_each(rt, alloc, shared, asks),
    );
}

/// The journal is legal, and has just what each was told, once and in order.
fn judge_all<N: JarName, R: Abort>(
    rt: &R,
    alloc: Global,
    journal: &Journal,
    workers: &[Worker<N>],
) -> Result<(), Fail> {
    let Ok(mut core) = empty(alloc) else {
        return Err("no memory".into());
    };
    let good = judged(alloc, &mut core, journal)?;
    assert!(rt; workers.len() == 8 && journal.len() == 35 && good == 35);
    for worker in workers {
        assert!(rt; was_told(journal, worker));
    }
    Ok(())
}

#[test]
fn eight_threads_make_one_legal_journal(rt: HostRuntime) -> Result<(), Fail> {
    let opened = opened(rt.alloc(), Vec::new(rt.alloc()), WORKERS)?;
    shared_by_all::<Brand, _>(&rt, rt.alloc(), opened)
}
