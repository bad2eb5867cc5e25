//! What the jar does itself, in the name of the pass of who loads and commits.

ghost use Rattle.std.specs.Prelude.{◌≡◌, Some, true, false, OnErr, OnOk};
ghost use Rattle.jar_types.specs.Steps.{own_may_stand};
ghost use Rattle.jar_types.specs.declared.entry.Event.TheVariants.{Jar as JarEvent};
ghost use Rattle.locked_jar.specs.LockedJars.{HasRoom, entered, listing_at};
ghost use Rattle.locked_jar.specs.Owns.{is_taking};
ghost use Rattle.locked_jar.specs.Passes.{HasAdded, IsHome};

use crate::locked::Locked;
use jar_types::{JarCore, NoMemory, Own};
use std::alloc::Global;
use version_cells::{Cells, Pass};

impl<C: JarCore + Drop> Locked<C> {
    /// The jar does this itself, which the pass owns; a batch is taken by [`Locked::take`]. Where memory is wanting all
    /// stays.
    pub fn own(
        &mut self,
        alloc: Global,
        cells: &Cells,
        cutter: &mut Pass,
        own: Own,
    ) -> Result<(), NoMemory>
        requires same { (self.old.jar.table ≡ cells.now) × HasRoom self.old.jar }
        requires pass { IsHome cells.now cutter.old }
        requires stands { own_may_stand self.old.jar.state own ≡ true }
        requires leaves { is_taking own ≡ false }

        ensures jar { OnOk result
            (self.new.jar ≡ entered self.old.jar (Some cutter.old.view.number) (JarEvent own)) }
        ensures pass { OnOk result (HasAdded self.old.jar.seen
            (listing_at (Some cutter.old.view.number) self.old.jar.state (JarEvent own)) cutter.old cutter.new) }

        ensures err { OnErr result ((self.new.jar ≡ self.old.jar) × (cutter.new ≡ cutter.old)) }
    {
        let ready = self.parts.make_own_ready(alloc, own)?;
        self.parts.add_own(cells, cutter, ready);
        Ok(())
    }
}
