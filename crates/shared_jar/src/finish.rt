//! A jar is closed.

ghost use Rattle.std.specs.Prelude.{◌≡◌};
ghost use Rattle.std.specs.List.{AllByRecursion};
ghost use Rattle.jar_types.specs.Journals.{IsLegal, state_of, stored_keys};
ghost use Rattle.locked_jar.specs.LockedJars.{journal_of};
ghost use Rattle.locked_jar.specs.Passes.{IsHome};
ghost use Rattle.shared_jar.specs.Finishing.{AreFinished, IsFinished};
ghost use Rattle.shared_jar.specs.Together.{IsCaller};
ghost use Rattle.store_vault.specs.Loading.{rules_of};

use crate::own_jar::OwnJar;
use jar_keeper::Keeper;
use jar_types::{JarCore, Journal, Texts};
use locked_jar::Locked;
use store_vault::{Stored, Vault};
use version_cells::{Cells, Pass};

/// What a jar is once it is closed: its core, its keeper, the hosts that it was opened over, its
/// journal, and the passes that it was closed with, in their order.
///
/// This jar's own rule: docs/DEFINITIONS.md.
#[derive(Drop)]
pub struct Closed<C: JarCore + Drop, K: Keeper + Drop> {
    pub core: C,
    pub keeper: K,
    pub hosts: Texts,
    pub journal: Journal,
    pub passes: Vec<Pass>,
}

impl<C: JarCore + Drop, K: Keeper + Drop> OwnJar<C, K> {
    /// The jar closed: each of the passes is shown once all that stands in the journal, in their
    /// order, and they are handed back in it. It takes no memory.
    ///
    /// This jar's own rule: docs/DEFINITIONS.md.
    pub fn finish(self, passes: Vec<Pass>) -> Closed<C, K>
        requires passes { AllByRecursion (IsCaller
            (rules_of self.vault.stored self.callers self.locked.jar.limit) self.cells)
            passes.items }

        ensures kept { (C.state result.core ≡ self.locked.jar.state)
            × (result.keeper ≡ self.vault.keeper) × (result.hosts ≡ self.vault.stored.hosts) }
        ensures journal { result.journal.list ≡ journal_of self.locked.jar.seen }
        ensures legal { IsLegal (rules_of self.vault.stored self.callers self.locked.jar.limit)
            result.journal.list }
        ensures state { C.state result.core ≡ state_of
            (stored_keys (rules_of self.vault.stored self.callers self.locked.jar.limit))
            result.journal.list }
        ensures passes { AreFinished self.locked.jar.seen passes.items result.passes.items }
    {
        let OwnJar {
            mut locked,
            vault,
            cells,
            callers: _,
        } = self;
        let mut passes = passes;
        meet_each(&mut locked, &cells, passes.as_mut_slice());
        let (core, journal) = locked.into_parts();
        let Vault {
            keeper,
            stored,
            cutter: _,
            kept: _,
            acked: _,
            owns: _,
            starved: _,
        } = vault;
        let Stored {
            hosts,
            plan: _,
            suffixes: _,
            start: _,
        } = stored;
        Closed {
            core,
            keeper,
            hosts,
            journal,
            passes,
        }
    }
}

/// Shows each of these passes once all that stands in the journal.
fn meet_each<C: JarCore + Drop>(locked: &mut Locked<C>, cells: &Cells, passes: &mut [Pass])
    requires same { locked.old.jar.table ≡ cells.now }
    requires home { AllByRecursion (IsHome cells.now) passes.old }
    ensures same { locked.new ≡ locked.old }
    ensures passes { AreFinished locked.old.jar.seen passes.old passes.new }
{
    for pass in passes.iter_mut() {
        meet_last(locked, cells, pass);
    }
}

/// Shows a pass for the last time all that stands in the journal.
fn meet_last<C: JarCore + Drop>(locked: &mut Locked<C>, cells: &Cells, pass: &mut Pass)
    requires same { locked.old.jar.table ≡ cells.now }
    requires home { IsHome cells.now pass.old }
    ensures same { locked.new ≡ locked.old }
    ensures home { IsHome cells.now pass.new }
    ensures pass { IsFinished locked.old.jar.seen pass.old pass.new }
{
    // By its clause the front begins what the pass has seen.
    let _front = pass.front();
    locked.meet(cells, pass);
}
