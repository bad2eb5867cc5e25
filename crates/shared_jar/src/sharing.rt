//! A jar that threads share, under two locks.

ghost use Rattle.std.specs.Prelude.{◌≡◌, ◌≤◌, true, IfErr, IfOk};
ghost use Rattle.jar_types.specs.Journals.{is_well_keyed};
ghost use Rattle.locked_jar.specs.Passes.{IsHome};
ghost use Rattle.shared_jar.specs.Knowing.{LearnsAnswer, LearnsFlush, LearnsLoad, LearnsRefusal};
ghost use Rattle.shared_jar.specs.Together.{IsCaller};
ghost use Rattle.store_vault.specs.Loading.{rules_of};
ghost use Rattle.version_cells.specs.Listings.{IsCell, turns};
ghost use Rattle.version_cells.specs.Moves.{after_look};
ghost use Rattle.version_cells.specs.Standing.{pass_with_view};

use crate::jar_state::JarState;
use crate::naming::JarName;
use crate::own_jar::OwnJar;
use crate::vault_state::VaultState;
use jar_keeper::Keeper;
use jar_types::{JarCore, Moment, Op};
use locked_jar::{CallRefusal, Receipt};
use std::alloc::Global;
use std::sync::{Mutex, Wait};
use store_vault::{FlushRefusal, LoadRefusal, LoadStep};
use version_cells::{Cells, Pass};

/// The jar that `N` names, which threads share: the locked jar and the vault, each under a lock of
/// its own, the words, and how many callers it was opened for. Where both locks are taken, the
/// vault's is taken first.
///
/// This jar's own rule: docs/DEFINITIONS.md.
#[derive(Drop)]
pub struct SharedJar<N: JarName, C: JarCore + Drop, K: Keeper + Drop> {
    state: Mutex<JarState<N, C>>,
    vault: Mutex<VaultState<N, K>>,
    cells: Cells,
    callers: u32,
    ghost named: { (cells ≡ N.table) × (callers ≡ N.rules.callers) },
}

impl<C: JarCore + Drop, K: Keeper + Drop> OwnJar<C, K> {
    /// The jar under two locks, where it is the one that `N` names. It takes no memory and waits
    /// for nobody.
    ///
    /// This jar's own rule: docs/DEFINITIONS.md.
    pub fn share<N: JarName>(self) -> SharedJar<N, C, K>
        requires words { self.cells ≡ N.table }
        requires rules { rules_of self.vault.stored self.callers self.locked.jar.limit ≡ N.rules }
        requires cutter { self.vault.cutter.view.number ≡ N.cutter }
    {
        let OwnJar {
            mut locked,
            mut vault,
            cells,
            callers,
        } = self;
        locked.meet(&cells, &mut vault.cutter);
        SharedJar {
            state: Mutex::new(JarState::of(locked)),
            vault: Mutex::new(VaultState::of(vault)),
            cells,
            callers,
        }
    }
}

impl<N: JarName, C: JarCore + Drop, K: Keeper + Drop> SharedJar<N, C, K> {
    /// The jar out of its locks, once no other thread has it. It takes no memory and waits for
    /// nobody.
    ///
    /// This jar's own rule: docs/DEFINITIONS.md.
    pub fn unshare(self) -> OwnJar<C, K>
        ensures words { result.cells ≡ N.table }
        ensures rules { rules_of result.vault.stored result.callers result.locked.jar.limit
            ≡ N.rules }
        ensures cutter { result.vault.cutter.view.number ≡ N.cutter }
    {
        let SharedJar {
            state,
            vault,
            cells,
            callers,
        } = self;
        let mut jar = state.into_inner().into_locked();
        let mut vault = vault.into_inner().into_vault();
        jar.meet(&cells, &mut vault.cutter);
        OwnJar {
            locked: jar,
            vault,
            cells,
            callers,
        }
    }

    /// Adds one entry of the pass's caller, who is told its place and its reply. It may wait for
    /// the jar's lock, which it holds for one entry.
    ///
    /// It is refused as `Spent`, `Pending` or `NotYet`, where that cause stands in what the pass
    /// has seen then; then for want of memory, which leaves the pass as it was. A refusal leaves
    /// the pass's front and calls. This jar's own rule: docs/DEFINITIONS.md.
    pub fn call<R: Wait>(
        &self,
        rt: &R,
        alloc: Global,
        pass: &mut Pass,
        op: &Op,
        now: Moment,
    ) -> Result<Receipt, CallRefusal>
        requires pass { IsCaller N.rules N.table pass.old }
        requires keyed { is_well_keyed N.rules op.now ≡ true }

        ensures answered { IfOk result
            (LearnsAnswer N.rules N.cutter pass.old pass.new op.now now) }
        ensures refused { IfErr result (LearnsRefusal N.rules N.cutter pass.old pass.new op.now) }
        ensures pass { IsCaller N.rules N.table pass.new }
    {
        self.state.lock(rt).call(alloc, &self.cells, pass, op, now)
    }

    /// One key is loaded, host after host, or the jar becomes whole at its start; the pass sees the
    /// history then. It may wait for the vault's lock and then for the jar's, and holds both
    /// meanwhile.
    ///
    /// The answer is that of [`OwnJar::load_next`], and its cause stands in what the pass has seen.
    /// This jar's own rule: docs/DEFINITIONS.md.
    pub fn load_next<R: Wait>(
        &self,
        rt: &R,
        alloc: Global,
        pass: &mut Pass,
    ) -> Result<LoadStep, LoadRefusal>
        requires home { IsHome N.table pass.old }
        ensures learned { LearnsLoad N.rules N.cutter pass.old pass.new result }
        ensures home { IsHome N.table pass.new }
    {
        let mut vault = self.vault.lock(rt);
        let mut state = self.state.lock(rt);
        vault.load_next(alloc, &self.cells, &mut *state, pass)
    }

    /// The changed rows are committed, where a batch is due; the pass sees the history then. The
    /// answer is the place of the last batch that was committed, counted from 1, and 0 for none. It
    /// may wait for the vault's lock and then for the jar's, and holds both meanwhile.
    ///
    /// The answer is that of [`OwnJar::flush`], and its cause stands in what the pass has seen.
    /// This jar's own rule: docs/DEFINITIONS.md.
    pub fn flush<R: Wait>(
        &self,
        rt: &R,
        alloc: Global,
        pass: &mut Pass,
        force: bool,
    ) -> Result<u64, FlushRefusal>
        requires home { IsHome N.table pass.old }
        ensures learned { LearnsFlush N.rules N.cutter force pass.old pass.new result }
        ensures home { IsHome N.table pass.new }
    {
        let mut vault = self.vault.lock(rt);
        let mut state = self.state.lock(rt);
        vault.flush(alloc, &self.cells, &mut *state, pass, force)
    }

    /// Reads the version of a cell, by one load, which the pass notes. It takes no memory and waits
    /// for nobody.
    ///
    /// This jar's own rule: docs/DEFINITIONS.md.
    pub fn look(&self, pass: &mut Pass, cell: u32) -> u64
        requires same { pass.old.table ≡ N.table }
        requires cell { IsCell cell }
        ensures noted { pass.new ≡ pass_with_view pass.old (after_look pass.old.view cell result) }
        ensures never_back { turns cell pass.old.view.own.seen ≤ result }
    {
        self.cells.look(pass, cell)
    }

    /// The words. It takes no memory and waits for nobody.
    ///
    /// This jar's own rule: docs/DEFINITIONS.md.
    pub fn cells(&self) -> &Cells
        ensures { result.now ≡ N.table }
    {
        &self.cells
    }
}
