//! Loads, a key at a time.

ghost use Rattle.std.specs.Prelude.{◌≡◌, ◌+◌, ◌<◌, List, None, Some, true, false, IfOk};
ghost use Rattle.jar_types.specs.Loads as loads;
ghost use Rattle.jar_types.specs.declared.row.Row.{Row as RowData};
ghost use Rattle.locked_jar.specs.Passes.{IsHome};
ghost use Rattle.store_vault.specs.declared.vault.TheConstants.{MOST_OWNS as most_owns};
ghost use Rattle.store_vault.specs.Cutting.{HasRoomFor};
ghost use Rattle.store_vault.specs.Loading as spec;
ghost use Rattle.store_vault.specs.Loading.{CountsLoad, IsLoad, IsLoadOver, rules_of};
ghost use Rattle.store_vault.specs.Looking.{HasLooked};

use crate::cutting::{begin, enter};
use crate::host_loads::load_key;
use crate::refusal::{LoadRefusal, LoadStep};
use crate::vault::{MOST_OWNS, Vault};
use jar_keeper::{Keeper, KeeperRefusal};
use jar_types::{JarCore, LoadWish, NoMemory, Own, Text};
use locked_jar::Locked;
use std::alloc::Global;
use version_cells::Cells;

impl<K: Keeper + Drop> Vault<K> {
    /// One key is loaded, host after host, or the jar becomes whole at its start.
    ///
    /// `Idle` exactly where nothing is left to load. It is refused as `Spent` exactly where something is, and loads and
    /// commits have as many entries as they may; then as `StoreFault` exactly where the keeper's count rose and a Lost
    /// tells so; then for want of memory, where a Begun may stand. Where the keeper failed and no memory was left for the
    /// Lost, the vault is starved from then on. This jar's own rule: docs/DEFINITIONS.md.
    pub fn load_next<C: JarCore + Drop>(
        &mut self,
        alloc: Global,
        cells: &Cells,
        locked: &mut Locked<C>,
    ) -> Result<LoadStep, LoadRefusal>
        requires same { (locked.old.jar.table ≡ cells.now) × HasRoomFor 2 locked.old.jar }
        requires home { IsHome cells.now self.old.cutter }

        // What it did, whatever the keeper is, and over a keeper that tells its rows.
        ensures load { IsLoad self.old.stored self.old.owns locked.old.jar locked.new.jar
            self.old.cutter self.new.cutter result }
        ensures over { K.undisturbed self.new.keeper → (held : List RowData) → K.tells self.old.keeper held
            → IsLoadOver (rules_of self.old.stored 0 0) held locked.old.jar locked.new.jar self.old.cutter result }

        ensures looked { HasLooked (K.tells self.old.keeper) (K.tells self.new.keeper)
            (K.leaves self.old.keeper) (K.leaves self.new.keeper)
            (K.undisturbed self.old.keeper) (K.undisturbed self.new.keeper) }
        ensures count { CountsLoad (K.faults self.old.keeper) (K.faults self.new.keeper)
            self.old.starved self.new.starved result }

        // The rest of the vault stays, and the entries of the cutter are counted.
        ensures kept { (self.new.stored ≡ self.old.stored) × (self.new.kept ≡ self.old.kept)
            × (self.new.acked ≡ self.old.acked)
            × (self.new.owns + self.old.cutter.view.calls ≡ self.old.owns + self.new.cutter.view.calls) }
    {
        if is_idle(locked) {
            return Ok(LoadStep::Idle);
        }
        if self.owns >= MOST_OWNS {
            return Err(LoadRefusal::Spent);
        }
        match next_key(alloc, locked)? {
            Some(key) => self.load_one(alloc, cells, locked, key),
            None => {
                let whole = Own::Whole(self.stored.start);
                enter(
                    alloc,
                    cells,
                    locked,
                    &mut self.cutter,
                    &mut self.owns,
                    whole,
                )?;
                Ok(LoadStep::Whole)
            }
        }
    }

    /// A key is loaded, whose load begins where it hasn't yet.
    fn load_one<C: JarCore + Drop>(
        &mut self,
        alloc: Global,
        cells: &Cells,
        locked: &mut Locked<C>,
        key: Text,
    ) -> Result<LoadStep, LoadRefusal>
        requires same { (locked.old.jar.table ≡ cells.now) × HasRoomFor 2 locked.old.jar }
        requires home { IsHome cells.now self.old.cutter }
        requires next { loads.next_key locked.old.jar.state.loads.keys ≡ Some key }
        requires few { self.old.owns < most_owns }

        ensures load { IsLoad self.old.stored self.old.owns locked.old.jar locked.new.jar
            self.old.cutter self.new.cutter result }
        ensures over { K.undisturbed self.new.keeper → (held : List RowData) → K.tells self.old.keeper held
            → IsLoadOver (rules_of self.old.stored 0 0) held locked.old.jar locked.new.jar self.old.cutter result }

        ensures looked { HasLooked (K.tells self.old.keeper) (K.tells self.new.keeper)
            (K.leaves self.old.keeper) (K.leaves self.new.keeper)
            (K.undisturbed self.old.keeper) (K.undisturbed self.new.keeper) }
        ensures count { CountsLoad (K.faults self.old.keeper) (K.faults self.new.keeper)
            self.old.starved self.new.starved result }

        ensures kept { (self.new.stored ≡ self.old.stored) × (self.new.kept ≡ self.old.kept)
            × (self.new.acked ≡ self.old.acked)
            × (self.new.owns + self.old.cutter.view.calls ≡ self.old.owns + self.new.cutter.view.calls) }
    {
        begin(alloc, cells, locked, &mut self.cutter, &mut self.owns, &key)?;
        match load_key(alloc, &mut self.keeper, &self.stored, &key) {
            Ok(cookies) => {
                let own = Own::Loaded { key, cookies };
                enter(alloc, cells, locked, &mut self.cutter, &mut self.owns, own)?;
                Ok(LoadStep::Key)
            }
            Err(KeeperRefusal::Failed) => {
                let own = Own::Lost(key);
                match enter(alloc, cells, locked, &mut self.cutter, &mut self.owns, own) {
                    Ok(()) => Err(LoadRefusal::StoreFault),
                    Err(_) => {
                        self.starved = true;
                        Err(LoadRefusal::NoMemory)
                    }
                }
            }
            Err(KeeperRefusal::NoMemory) => Err(LoadRefusal::NoMemory),
        }
    }
}

/// Whether nothing is left to load.
fn is_idle<C: JarCore + Drop>(locked: &Locked<C>) -> bool
    ensures { result ≡ spec.is_idle locked.now.jar.state }
{
    matches!(locked.core().next_load(), LoadWish::Idle)
}

/// The key that is loaded next; none where each key is loaded.
fn next_key<C: JarCore + Drop>(alloc: Global, locked: &Locked<C>) -> Result<Option<Text>, NoMemory>
    ensures { IfOk result (λ key. key ≡ loads.next_key locked.now.jar.state.loads.keys) }
{
    match locked.core().next_load() {
        LoadWish::Key(key) => Ok(Some(key.copy(alloc)?)),
        LoadWish::Whole | LoadWish::Idle => Ok(None),
    }
}
