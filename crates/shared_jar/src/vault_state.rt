//! What lies under the vault's lock, and its loads and commits while both locks are held.

ghost use Rattle.std.specs.Prelude.{◌≡◌};
ghost use Rattle.std.proofs.Props.{props};
ghost use Rattle.locked_jar.specs.Passes.{IsHome};
ghost use Rattle.shared_jar.specs.Knowing.{LearnsFlush, LearnsLoad};
ghost use Rattle.shared_jar.specs.Sharing.{IsVault};

use crate::jar_state::JarState;
use crate::naming::JarName;
use jar_keeper::Keeper;
use jar_types::JarCore;
use std::alloc::Global;
use std::marker::PhantomData;
use store_vault::{FlushRefusal, LoadRefusal, LoadStep, Vault};
use version_cells::{Cells, Pass};

/// The vault of the jar that `N` names: its pass is that of who loads and commits there.
#[derive(Drop)]
pub struct VaultState<N: JarName, K: Keeper + Drop> {
    pub vault: Vault<K>,
    of: PhantomData<N>,
    pub ghost is: { IsVault N.rules N.table N.cutter vault.stored vault.cutter vault.owns
        vault.acked } by { Prim.hlevel props },
}

impl<N: JarName, K: Keeper + Drop> VaultState<N, K> {
    /// The vault, which is that of the jar that `N` names.
    pub fn of(vault: Vault<K>) -> VaultState<N, K>
        requires { IsVault N.rules N.table N.cutter vault.stored vault.cutter vault.owns
            vault.acked }
    {
        VaultState {
            vault,
            of: PhantomData,
        }
    }

    /// The vault.
    pub fn into_vault(self) -> Vault<K>
        ensures { IsVault N.rules N.table N.cutter result.stored result.cutter result.owns
            result.acked }
    {
        self.vault
    }

    /// One key is loaded, or the jar becomes whole, as
    /// [`SharedJar::load_next`](crate::SharedJar::load_next). The vault's pass meets the jar
    /// before, which ties both; the given pass meets it before and behind.
    pub fn load_next<C: JarCore + Drop>(
        &mut self,
        alloc: Global,
        cells: &Cells,
        state: &mut JarState<N, C>,
        pass: &mut Pass,
    ) -> Result<LoadStep, LoadRefusal>
        requires same { cells.now ≡ N.table }
        requires home { IsHome N.table pass.old }
        ensures learned { LearnsLoad N.rules N.cutter pass.old pass.new result }
        ensures home { IsHome N.table pass.new }
    {
        state.locked.meet(cells, pass);
        state.locked.meet(cells, &mut self.vault.cutter);
        state.locked.is_counted();
        let step = self.vault.load_next(alloc, cells, &mut state.locked);
        state.locked.meet(cells, pass);
        step
    }

    /// The changed rows are committed, where a batch is due, as
    /// [`SharedJar::flush`](crate::SharedJar::flush). The vault's pass meets the jar before, which
    /// ties both; the given pass meets it before and behind.
    pub fn flush<C: JarCore + Drop>(
        &mut self,
        alloc: Global,
        cells: &Cells,
        state: &mut JarState<N, C>,
        pass: &mut Pass,
        force: bool,
    ) -> Result<u64, FlushRefusal>
        requires same { cells.now ≡ N.table }
        requires home { IsHome N.table pass.old }
        ensures learned { LearnsFlush N.rules N.cutter force pass.old pass.new result }
        ensures home { IsHome N.table pass.new }
    {
        state.locked.meet(cells, pass);
        state.locked.meet(cells, &mut self.vault.cutter);
        state.locked.is_counted();
        let place = self.vault.flush(alloc, cells, &mut state.locked, force);
        state.locked.meet(cells, pass);
        place
    }
}
