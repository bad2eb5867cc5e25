//! What a call waits for becomes wanted.

ghost use Rattle.std.specs.Prelude.{◌≡◌, IfOk, OnErr, OnOk};
ghost use Rattle.locked_jar.specs.Calls as spec;
ghost use Rattle.locked_jar.specs.Calls.{wanted};
ghost use Rattle.locked_jar.specs.LockedJars.{HasRoom};

use crate::locked::Locked;
use jar_types::{Awaited, JarCore, NoMemory, Own};
use std::alloc::Global;
use version_cells::Cells;

impl<C: JarCore + Drop> Locked<C> {
    /// Notes that a caller waits for this, for nobody, where that may be noted. Where memory is wanting the jar stays.
    pub fn want(&mut self, alloc: Global, cells: &Cells, what: &Awaited) -> Result<(), NoMemory>
        requires same { self.old.jar.table ≡ cells.now }
        requires room { HasRoom self.old.jar }
        ensures ok { OnOk result (self.new.jar ≡ wanted self.old.jar what.now) }
        ensures err { OnErr result (self.new.jar ≡ self.old.jar) }
    {
        let own = want_of(alloc, what)?;
        if !self.parts.core.stands(&own) {
            return Ok(());
        }
        let ready = self.parts.make_own_ready(alloc, own)?;
        self.parts.enter(cells, None, ready);
        Ok(())
    }
}

/// What the jar notes where a caller waits for this.
fn want_of(alloc: Global, what: &Awaited) -> Result<Own, NoMemory>
    ensures { IfOk result (λ own. own ≡ spec.want_of what.now) }
{
    match what {
        Awaited::Key(key) => Ok(Own::Want(key.copy(alloc)?)),
        Awaited::All => Ok(Own::WantAll),
    }
}
