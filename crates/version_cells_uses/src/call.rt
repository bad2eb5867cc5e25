//! One call of a pass's caller.

ghost use Rattle.std.specs.Prelude.{◌≡◌, ◌++◌, ◌∷◌, []};
ghost use Rattle.version_cells.specs.Told.{CoversLook};
ghost use Rattle.version_cells_uses.specs.Ready.{IsFree, IsReady, MayCall, HasCalled, call_of};

use jar_types::Entry;
use version_cells::{Baton, Cells, Pass};

/// Commits an entry of the pass's caller that moves one cell, and answers the call with it.
///
/// The baton is free before and after, and the pass's front is then the whole history.
pub fn one_call(cells: &Cells, baton: &mut Baton, pass: &mut Pass, cell: u32, entry: &Entry)
    requires may { MayCall cells.now baton.old pass.old cell }
    ensures ready { IsFree cells.now baton.new × IsReady cells.now pass.new }
    ensures added { baton.new.view.own.seen
        ≡ baton.old.view.own.seen ++ call_of pass.old cell entry.now ∷ [] }
    ensures seen { pass.new.view.own.seen ≡ baton.new.view.own.seen }
    ensures called { HasCalled pass.old pass.new }
    ensures covered { CoversLook baton.old.view pass.old.view.own.last }
{
    let caller = pass.caller();
    cells.lend(pass, baton);
    cells.bump(baton, cell);
    cells.commit(baton, Some(caller), &[cell], entry);
    cells.meet(pass, baton);
    cells.answered(pass);
}
