//! A permit that is lent for several commits.

ghost use Rattle.std.specs.Prelude.{◌≡◌, ◌<◌, ◌+◌, ◌∷◌, ◌++◌, [], length, None};
ghost use Rattle.version_cells.specs.declared.cells.TheConstants.{MOST_ENTRIES};
ghost use Rattle.version_cells.specs.Standing.{listing_of};
ghost use Rattle.version_cells_uses.specs.Ready.{IsFree, IsHome, MayCall, HasCounted, HasMetOnce, call_of};

use jar_types::Entry;
use version_cells::{Baton, Cells, Pass};

/// Commits two entries of the pass's caller that move a cell, and between them one of nobody that
/// moves none, while the permit is lent.
///
/// No call is answered by them, so the pass's front stays.
pub fn three_entries(cells: &Cells, baton: &mut Baton, pass: &mut Pass, cell: u32, entry: &Entry)
    requires may { MayCall cells.now baton.old pass.old cell }
    requires room { length baton.old.view.own.seen + 2 < MOST_ENTRIES }
    ensures home { IsFree cells.now baton.new × IsHome cells.now pass.new }
    ensures added { baton.new.view.own.seen ≡ baton.old.view.own.seen
        ++ call_of pass.old cell entry.now ∷ listing_of [] None entry.now
        ∷ call_of pass.old cell entry.now ∷ [] }
    ensures seen { pass.new.view.own.seen ≡ baton.new.view.own.seen }
    ensures counted { HasCounted pass.old pass.new 2 × HasMetOnce pass.old pass.new }
    ensures front { pass.new.front ≡ pass.old.front }
{
    let caller = pass.caller();
    cells.lend(pass, baton);
    cells.bump(baton, cell);
    cells.commit(baton, Some(caller), &[cell], entry);
    cells.commit(baton, None, &[], entry);
    cells.bump(baton, cell);
    cells.commit(baton, Some(caller), &[cell], entry);
    cells.meet(pass, baton);
}
