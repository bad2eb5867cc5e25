//! Batches of changed rows, from when they are taken to when they have ended.

ghost use Rattle.std.specs.Prelude.{◌≡◌, ◌≤◌, Some, true, IfOk, OnErr, OnOk};
ghost use Rattle.commit_batches.specs.Waiting.{ChangesRise};
ghost use Rattle.jar_types.specs.RowChanges.{newest_over};
ghost use Rattle.jar_types.specs.Steps.{own_may_stand};
ghost use Rattle.jar_types.specs.declared.entry.Event.TheVariants.{Jar as JarEvent};
ghost use Rattle.jar_types.specs.declared.entry.Own.TheVariants.{Taken};
ghost use Rattle.locked_jar.specs.LockedJars.{HasRoom, entered, listing_at};
ghost use Rattle.locked_jar.specs.Owns.{is_batch_due, is_ending};
ghost use Rattle.locked_jar.specs.Passes.{HasAdded, IsHome};

use crate::locked::Locked;
use commit_batches::overlay;
use jar_types::{JarCore, NoMemory, Own, RowChanges};
use std::alloc::Global;
use version_cells::{Cells, Pass};

impl<C: JarCore + Drop> Locked<C> {
    /// Whether a batch is due: with force where a row changed or the last batch was lost, and else where enough rows
    /// changed too.
    pub fn is_due(&self, force: bool) -> bool
        ensures { result ≡ is_batch_due force self.now.jar.state }
    {
        self.parts.core.stands(&Own::Taken) && (force || self.parts.pending.due())
    }

    /// A batch is taken, which the pass owns: the changes of rows that wait, over older ones that weren't committed. There
    /// is room for the entry by which it ends. Where memory is wanting all stays.
    pub fn take(
        &mut self,
        alloc: Global,
        cells: &Cells,
        cutter: &mut Pass,
        older: &RowChanges,
    ) -> Result<RowChanges, NoMemory>
        requires same { (self.old.jar.table ≡ cells.now) × HasRoom self.old.jar }
        requires pass { IsHome cells.now cutter.old }
        requires stands { (own_may_stand self.old.jar.state Taken ≡ true) × ChangesRise older.now }

        ensures batch { IfOk result (λ batch. (batch ≡ newest_over older.now self.old.jar.pending)
            × ChangesRise batch × (1 ≤ self.new.spare)) }
        ensures jar { OnOk result
            (self.new.jar ≡ entered self.old.jar (Some cutter.old.view.number) (JarEvent Taken)) }
        ensures pass { OnOk result (HasAdded self.old.jar.seen
            (listing_at (Some cutter.old.view.number) self.old.jar.state (JarEvent Taken)) cutter.old cutter.new) }

        ensures err { OnErr result ((self.new.jar ≡ self.old.jar) × (cutter.new ≡ cutter.old)) }
    {
        let batch = overlay(alloc, older, &self.parts.pending)?;
        let ready = self.parts.make_own_ready(alloc, Own::Taken)?;
        self.parts.journal.reserve(2)?;
        self.parts.add_own(cells, cutter, ready);
        drop(self.parts.pending.take());
        Ok(batch)
    }

    /// A batch has ended, by an entry for which there is room, and which the pass owns. It takes no memory.
    pub fn end_batch(&mut self, alloc: Global, cells: &Cells, cutter: &mut Pass, own: Own)
        requires same { (self.old.jar.table ≡ cells.now) × HasRoom self.old.jar × (1 ≤ self.old.spare) }
        requires pass { IsHome cells.now cutter.old }
        requires stands { (own_may_stand self.old.jar.state own ≡ true) × (is_ending own ≡ true) }
        ensures jar { self.new.jar ≡ entered self.old.jar (Some cutter.old.view.number) (JarEvent own) }
        ensures pass { HasAdded self.old.jar.seen
            (listing_at (Some cutter.old.view.number) self.old.jar.state (JarEvent own)) cutter.old cutter.new }
    {
        let ready = self.parts.make_end_ready(alloc, own);
        self.parts.add_own(cells, cutter, ready);
    }
}
