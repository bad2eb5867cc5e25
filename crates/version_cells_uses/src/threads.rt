//! Passes that call on threads of their own.

ghost use Rattle.std.specs.Prelude.{◌≡◌, ◌≤◌, [], ◌∷◌, ◌++◌, IfOk, IfErr, length};
ghost use Rattle.version_cells.specs.Listings.{IsCell, turns, EndsWith};
ghost use Rattle.version_cells.specs.Moves.{look_of};
ghost use Rattle.version_cells.specs.Standing.{new_pass_standing};
ghost use Rattle.version_cells_uses.specs.Ready.{IsFree, IsReady, AllReady, HasCounted, call_of};

use crate::desk::{Desk, Full};
use crate::name::Name;
use jar_types::{Entry, Moment, NoMemory, Own};
use std::alloc::Global;
use std::marker::Brand;
use std::sync::{Mutex, Wait};
use std::thread;
use std::thread::Threads;
use version_cells::{Baton, Cells, Made, Pass};

/// The words and the passes after their calls.
#[derive(Drop)]
pub struct Called {
    /// The words.
    pub cells: Cells,
    /// The pass that made no call.
    pub cutter: Pass,
    /// The passes of the callers.
    pub passes: Vec<Pass>,
    ghost cutter_ready: { IsReady cells cutter },
}

/// One call under the lock of the desk, and a look outside it that finds at least what was seen.
///
/// `Full` leaves the pass as it was, without a look.
pub fn call_and_look<N: Name, R: Wait>(
    rt: &R,
    cells: &Cells,
    desk: &Mutex<Desk<N>>,
    pass: &mut Pass,
    cell: u32,
    entry: &Entry,
) -> Result<u64, Full>
    requires same { cells.now ≡ N.table }
    requires pass { IsReady N.table pass.old }
    requires cell { IsCell cell }
    ensures pass { IsReady N.table pass.new }
    ensures called { IfOk result (λ _. HasCounted pass.old pass.new 1
        × (pass.new.front ≡ pass.new.view.own.seen)
        × EndsWith pass.new.front (call_of pass.old cell entry.now)) }
    ensures looked { IfOk result (λ found. pass.new.view.looks
        ≡ pass.old.view.looks ++ look_of pass.new.view cell found ∷ []) }
    ensures never_back { IfOk result (λ found. turns cell pass.new.view.own.seen ≤ found) }
    ensures full { IfErr result (λ _. pass.new ≡ pass.old) }
{
    desk.lock(rt).call(cells, pass, cell, entry)?;
    Ok(cells.look(pass, cell))
}

/// Makes words and passes, and tries two calls of each pass on a thread, each moving cell 5.
///
/// The entry of each call is Whole at `now`, and each call is made under the lock of one `Desk`.
/// After them each entry that a pass owns and has seen counts once among its calls, and stands in
/// its front. `NoMemory` leaves nothing behind.
pub fn each_calls<R: Threads + Wait + Sync>(
    rt: &R,
    alloc: Global,
    callers: u32,
    now: Moment,
) -> Result<Called, NoMemory>
    ensures all { IfOk result (λ c. length c.passes.items ≡ callers) }
    ensures cutter { IfOk result (λ c. c.cutter ≡ new_pass_standing c.cells callers) }
    ensures ready { IfOk result (λ c. AllReady c.cells c.passes.items) }
{
    let Made {
        cells,
        baton,
        cutter,
        mut passes,
    } = Cells::make(alloc, callers)?;
    each_named::<Brand, R>(rt, &cells, baton, passes.as_mut_slice(), now);
    Ok(Called {
        cells,
        cutter,
        passes,
    })
}

/// Two calls of each pass on a thread, by a lock over the baton of the table that `N` names.
fn each_named<N: Name + Send + Sync, R: Threads + Wait + Sync>(
    rt: &R,
    cells: &Cells,
    baton: Baton,
    passes: &mut [Pass],
    now: Moment,
)
    requires same { cells.now ≡ N.table }
    requires baton { IsFree N.table baton × (baton.view.own.seen ≡ []) }
    requires ready { AllReady N.table passes.old }
    ensures ready { AllReady N.table passes.new }
{
    let desk = Mutex::new(Desk::<N>::new(baton));
    let shared = &desk;
    let count = passes.len();
    if count == 0 {
        return;
    }
    thread::for_each_mut(
        rt,
        passes,
        count,
        &|_, pass: &mut Pass|
            requires { (cells.now ≡ N.table) × IsReady N.table pass.now }
            ensures { IsReady N.table pass.exit.now }
        {
            let entry = Entry::Jar(Own::Whole(now));
            let _ = call_and_look(rt, cells, shared, pass, 5, &entry);
            let _ = call_and_look(rt, cells, shared, pass, 5, &entry);
        },
    );
}
