//! Commits of changed rows, a batch at a time.

ghost use Rattle.std.specs.Prelude.{◌≡◌, [], ◌+◌, ◌<◌, ◌≤◌, ◌^◌, true, IfOk, OnErr};
ghost use Rattle.commit_batches.specs.Waiting.{ChangesRise};
ghost use Rattle.jar_types.specs.Steps.{own_may_stand};
ghost use Rattle.jar_types.specs.declared.entry.Own.TheVariants.{Taken};
ghost use Rattle.locked_jar.specs.LockedJars.{HasRoom};
ghost use Rattle.locked_jar.specs.Owns.{is_batch_due, is_ending};
ghost use Rattle.locked_jar.specs.Passes.{IsHome};
ghost use Rattle.store_vault.specs.Cutting.{HasDone, HasRoomFor, Stays};
ghost use Rattle.store_vault.specs.Flushing.{CountsFlush, FlushLeaves, FlushTells, HasTaken, IsFlush, batch_of};

use crate::refusal::FlushRefusal;
use crate::vault::{MOST_OWNS, Vault};
use jar_keeper::{Keeper, KeeperRefusal};
use jar_types::{JarCore, NoMemory, Own, RowChanges};
use locked_jar::Locked;
use std::alloc::Global;
use version_cells::{Cells, Pass};

impl<K: Keeper + Drop> Vault<K> {
    /// The changed rows are committed, where a batch is due: with force where a row changed or the last batch was lost,
    /// and else where enough rows changed too. The answer is the place of the last batch that was committed, counted
    /// from 1, and 0 for none.
    ///
    /// Where a batch is due, it is refused as `Spent` exactly where loads and commits have as many entries as they may;
    /// then as `StoreFault` exactly where the keeper's count rose; then for want of memory: where a batch was taken the
    /// vault is starved from then on. A batch that was taken and refused is lost, and its changes are kept for the next.
    /// This jar's own rule: docs/DEFINITIONS.md.
    pub fn flush<C: JarCore + Drop>(
        &mut self,
        alloc: Global,
        cells: &Cells,
        locked: &mut Locked<C>,
        force: bool,
    ) -> Result<u64, FlushRefusal>
        requires same { (locked.old.jar.table ≡ cells.now) × HasRoomFor 2 locked.old.jar }
        requires home { IsHome cells.now self.old.cutter }

        // What it did, and what the keeper tells then.
        ensures flush { IsFlush force self.old.owns locked.old.jar locked.new.jar self.old.cutter self.new.cutter
            (record { changes = self.old.kept; acked = self.old.acked })
            (record { changes = self.new.kept; acked = self.new.acked }) result }
        ensures told { FlushTells (is_batch_due force locked.old.jar.state)
            (batch_of (record { changes = self.old.kept; acked = self.old.acked }) locked.old.jar)
            (K.tells self.old.keeper) (K.tells self.new.keeper) result }

        ensures since { K.undisturbed self.new.keeper → K.undisturbed self.old.keeper
            × FlushLeaves (is_batch_due force locked.old.jar.state)
            (batch_of (record { changes = self.old.kept; acked = self.old.acked }) locked.old.jar)
            (K.tells self.old.keeper) (K.leaves self.old.keeper) (K.leaves self.new.keeper) result }
        ensures count { CountsFlush (K.faults self.old.keeper) (K.faults self.new.keeper)
            self.old.cutter.view.calls self.new.cutter.view.calls self.old.starved self.new.starved result }

        // The stored hosts stay, and the entries of the cutter are counted.
        ensures kept { (self.new.stored ≡ self.old.stored)
            × (self.new.owns + self.old.cutter.view.calls ≡ self.old.owns + self.new.cutter.view.calls) }
    {
        if !locked.is_due(force) {
            return Ok(self.acked);
        }
        if self.owns >= MOST_OWNS {
            return Err(FlushRefusal::Spent);
        }
        let place = take(
            alloc,
            cells,
            locked,
            &mut self.cutter,
            &mut self.owns,
            &mut self.kept,
        )?;
        match self.keeper.commit(alloc, &self.kept) {
            Ok(()) => {
                let own = Own::Acked(place);
                end(alloc, cells, locked, &mut self.cutter, &mut self.owns, own);
                self.kept = no_changes(alloc);
                self.acked = place;
                Ok(place)
            }
            Err(KeeperRefusal::Failed) => {
                let own = Own::CommitLost(place);
                end(alloc, cells, locked, &mut self.cutter, &mut self.owns, own);
                Err(FlushRefusal::StoreFault)
            }
            Err(KeeperRefusal::NoMemory) => {
                let own = Own::CommitLost(place);
                end(alloc, cells, locked, &mut self.cutter, &mut self.owns, own);
                self.starved = true;
                Err(FlushRefusal::NoMemory)
            }
        }
    }
}

/// A batch is taken, over the changes that are kept, and its changes are kept then. The answer is its place. Where memory
/// is wanting all stays.
fn take<C: JarCore + Drop>(
    alloc: Global,
    cells: &Cells,
    locked: &mut Locked<C>,
    cutter: &mut Pass,
    owns: &mut u64,
    kept: &mut RowChanges,
) -> Result<u64, NoMemory>
    requires same { (locked.old.jar.table ≡ cells.now) × HasRoomFor 1 locked.old.jar }
    requires home { IsHome cells.now cutter.old }
    requires stands { (own_may_stand locked.old.jar.state Taken ≡ true) × ChangesRise kept.old }
    requires few { owns.old < 2 ^ 63 }

    ensures ok { IfOk result (HasTaken locked.old.jar locked.new cutter.old cutter.new kept.old kept.new) }
    ensures err { OnErr result (Stays locked.old.jar locked.new.jar cutter.old cutter.new × (kept.new ≡ kept.old)) }
    ensures owns { owns.new + cutter.old.view.calls ≡ owns.old + cutter.new.view.calls }
    ensures rises { ChangesRise kept.new }
{
    *kept = locked.take(alloc, cells, cutter, kept)?;
    *owns += 1;
    Ok(locked.journal().len() as u64)
}

/// A batch has ended, which the cutter owns, and is counted. It takes no memory.
fn end<C: JarCore + Drop>(
    alloc: Global,
    cells: &Cells,
    locked: &mut Locked<C>,
    cutter: &mut Pass,
    owns: &mut u64,
    own: Own,
)
    requires same { (locked.old.jar.table ≡ cells.now) × HasRoom locked.old.jar × (1 ≤ locked.old.spare) }
    requires home { IsHome cells.now cutter.old }
    requires stands { (own_may_stand locked.old.jar.state own ≡ true) × (is_ending own ≡ true) }
    requires few { owns.old < 2 ^ 63 }
    ensures done { HasDone own locked.old.jar locked.new.jar cutter.old cutter.new }
    ensures owns { owns.new + cutter.old.view.calls ≡ owns.old + cutter.new.view.calls }
{
    locked.end_batch(alloc, cells, cutter, own);
    *owns += 1;
}

/// No changes.
#[tactic(auto, using(crate::proofs::FlushLemmas::none_rise))]
fn no_changes(alloc: Global) -> RowChanges
    ensures none { result ≡ [] }
    ensures rises { ChangesRise result }
{
    RowChanges::new(alloc)
}
