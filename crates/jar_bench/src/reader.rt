//! One thread's pass, manager and text.

ghost use Rattle.std.specs.Prelude.{◌≡◌, true, IfOk};
ghost use Rattle.std.proofs.Props.{props};
ghost use Rattle.jar_types.specs.Journals.{is_well_keyed};
ghost use Rattle.jar_bench.specs.Looked.{HasLooked};
ghost use Rattle.restricted_manager.specs.Managers.{MayBeBound};
ghost use Rattle.shared_jar.specs.Together.{IsCaller};

use crate::jar::ANSWER;
use crate::rounds::{Given, copies, reuses};
use crate::words::Task;
use jar_keeper::MemKeeper;
use jar_types::{Moment, NoMemory, Op, Reply, Text};
use plain_jar::PlainJar;
use restricted_manager::{Manager, ReadTurn};
use shared_jar::{JarName, SharedJar};
use site_match::Place;
use std::alloc::Global;
use std::marker::PhantomData;
use std::sync::Wait;
use std::sync::atomic::AtomicU64;
use version_cells::{CELLS, Pass};

/// The jar that the threads share.
pub type TheJar<N> = SharedJar<N, PlainJar, MemKeeper>;

/// Who reads on one thread: a caller's pass, the manager of the document, a text as long as what is
/// kept, and what the rounds gave.
#[derive(Drop)]
pub struct Reader<N: JarName> {
    pub pass: Pass,
    manager: Manager,
    text: Text,
    pub given: Given,
    of: PhantomData<N>,
    ghost is: { IsCaller N.rules N.table pass } by { Prim.hlevel props },
}

impl<N: JarName> Reader<N> {
    /// A reader of the document, who keeps nothing.
    pub fn of(alloc: Global, pass: Pass, document: &Place) -> Result<Reader<N>, NoMemory>
        requires { IsCaller N.rules N.table pass }
    {
        let site = document.copy(alloc)?;
        Ok(Reader {
            pass,
            manager: Manager::make(alloc, document.copy(alloc)?, Some(site))?,
            text: Text::of(alloc, ANSWER)?,
            given: Given { sum: 0, hits: 0 },
            of: PhantomData,
        })
    }

    /// Asks the jar for this, of which nothing is kept. Every refusal is told as want of memory.
    pub fn ask<R: Wait>(
        &mut self,
        rt: &R,
        alloc: Global,
        jar: &TheJar<N>,
        op: &Op,
        now: Moment,
    ) -> Result<(), NoMemory>
        requires keyed { is_well_keyed N.rules op.now ≡ true }
    {
        match jar.call(rt, alloc, &mut self.pass, op, now) {
            Ok(_) => Ok(()),
            Err(_) => Err(NoMemory),
        }
    }

    /// Binds the document's key, and keeps the answer of a first read.
    pub fn warm<R: Wait>(
        &mut self,
        rt: &R,
        alloc: Global,
        jar: &TheJar<N>,
        now: Moment,
    ) -> Result<(), NoMemory> {
        self.bind(rt, alloc, jar, now)?;
        self.read(rt, alloc, jar, now)
    }

    /// Binds the document's key, to no cell where the jar refuses.
    fn bind<R: Wait>(
        &mut self,
        rt: &R,
        alloc: Global,
        jar: &TheJar<N>,
        now: Moment,
    ) -> Result<(), NoMemory> {
        let op = self.manager.bind_op(alloc)?;
        let cell = match jar.call(rt, alloc, &mut self.pass, &op, now) {
            Ok(receipt) => cell_in(&receipt.reply),
            Err(_) => None,
        };
        self.manager.bound(cell);
        Ok(())
    }

    /// Asks what a first read asks, and keeps the answer. Every refusal is told as want of memory.
    fn read<R: Wait>(
        &mut self,
        rt: &R,
        alloc: Global,
        jar: &TheJar<N>,
        now: Moment,
    ) -> Result<(), NoMemory> {
        let op = self.first_read(alloc, jar, now)?;
        match jar.call(rt, alloc, &mut self.pass, &op, now) {
            Ok(receipt) => self.manager.end_read(alloc, None, &receipt.reply),
            Err(_) => Err(NoMemory),
        }
    }

    /// What a first read asks.
    fn first_read(&mut self, alloc: Global, jar: &TheJar<N>, now: Moment) -> Result<Op, NoMemory>
        ensures keyed { IfOk result (λ op. is_well_keyed N.rules op ≡ true) }
    {
        match self
            .manager
            .begin_read(alloc, jar.cells(), &mut self.pass, None, now)
        {
            Ok(ReadTurn::Ask { op, .. }) => Ok(op),
            _ => Err(NoMemory),
        }
    }

    /// Does a task in so many rounds.
    pub fn play(
        &mut self,
        alloc: Global,
        jar: &TheJar<N>,
        word: &AtomicU64,
        task: Task,
        now: Moment,
        rounds: u64,
    )
        ensures looked { HasLooked self.old.pass self.new.pass self.new.given.hits rounds }
    {
        match task {
            Task::Reuse => self.reuse(alloc, jar, now, rounds),
            Task::Copy => self.given = copies(alloc, word, &self.text, rounds),
        }
    }

    /// Reads the document's cookies so many times.
    fn reuse(&mut self, alloc: Global, jar: &TheJar<N>, now: Moment, rounds: u64)
        ensures looked { HasLooked self.old.pass self.new.pass self.new.given.hits rounds }
    {
        self.given = reuses(
            alloc,
            &self.manager,
            jar.cells(),
            &mut self.pass,
            now,
            rounds,
        );
    }
}

/// The cell that a reply gives, if it gives one.
fn cell_in(reply: &Reply) -> Option<u32>
    ensures { MayBeBound result }
{
    match reply {
        Reply::Cell(Some(cell)) if *cell > 0 && *cell <= CELLS => Some(*cell),
        _ => None,
    }
}
