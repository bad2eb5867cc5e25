//! Entries in the name of the pass of who loads and commits, who is called the cutter.

ghost use Rattle.std.specs.Prelude.{◌≡◌, ◌+◌, ◌<◌, ◌^◌, true, false, OnErr, OnOk};
ghost use Rattle.jar_types.specs.Steps.{own_may_stand};
ghost use Rattle.jar_types.specs.declared.entry.Own.TheVariants.{Begun};
ghost use Rattle.locked_jar.specs.Owns.{is_taking};
ghost use Rattle.locked_jar.specs.Passes.{IsHome};
ghost use Rattle.store_vault.specs.Cutting.{HasDone, HasRoomFor, Stays};
ghost use Rattle.store_vault.specs.Loading.{BeginsIfMay};

use jar_types::{JarCore, NoMemory, Own, Text};
use locked_jar::Locked;
use std::alloc::Global;
use version_cells::{Cells, Pass};

/// The jar does this itself, which the cutter owns, and is counted. Where memory is wanting all stays.
pub fn enter<C: JarCore + Drop>(
    alloc: Global,
    cells: &Cells,
    locked: &mut Locked<C>,
    cutter: &mut Pass,
    owns: &mut u64,
    own: Own,
) -> Result<(), NoMemory>
    requires same { (locked.old.jar.table ≡ cells.now) × HasRoomFor 1 locked.old.jar }
    requires home { IsHome cells.now cutter.old }
    requires stands { (own_may_stand locked.old.jar.state own ≡ true) × (is_taking own ≡ false) }
    requires few { owns.old < 2 ^ 63 }

    ensures ok { OnOk result (HasDone own locked.old.jar locked.new.jar cutter.old cutter.new) }
    ensures err { OnErr result (Stays locked.old.jar locked.new.jar cutter.old cutter.new) }
    ensures owns { owns.new + cutter.old.view.calls ≡ owns.old + cutter.new.view.calls }
{
    locked.own(alloc, cells, cutter, own)?;
    *owns += 1;
    Ok(())
}

/// The load of a key begins, where it hasn't yet. Where memory is wanting all stays.
pub fn begin<C: JarCore + Drop>(
    alloc: Global,
    cells: &Cells,
    locked: &mut Locked<C>,
    cutter: &mut Pass,
    owns: &mut u64,
    key: &Text,
) -> Result<(), NoMemory>
    requires same { (locked.old.jar.table ≡ cells.now) × HasRoomFor 1 locked.old.jar }
    requires home { IsHome cells.now cutter.old }
    requires few { owns.old < 2 ^ 63 }

    ensures ok { OnOk result (BeginsIfMay (own_may_stand locked.old.jar.state (Begun key.now)) key.now
        locked.old.jar locked.new.jar cutter.old cutter.new) }
    ensures err { OnErr result (Stays locked.old.jar locked.new.jar cutter.old cutter.new) }
    ensures owns { owns.new + cutter.old.view.calls ≡ owns.old + cutter.new.view.calls }
{
    let own = Own::Begun(key.copy(alloc)?);
    if !locked.core().stands(&own) {
        return Ok(());
    }
    enter(alloc, cells, locked, cutter, owns, own)
}
