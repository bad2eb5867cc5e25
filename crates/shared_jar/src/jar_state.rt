//! What lies under the jar's lock, and a call of it.

ghost use Rattle.std.specs.Prelude.{◌≡◌, true, IfErr, IfOk};
ghost use Rattle.std.proofs.Props.{props};
ghost use Rattle.jar_types.specs.Journals.{is_well_keyed};
ghost use Rattle.locked_jar.specs.History.{Lists-prop};
ghost use Rattle.shared_jar.specs.Knowing.{LearnsAnswer, LearnsRefusal};
ghost use Rattle.shared_jar.specs.Sharing.{IsState};
ghost use Rattle.shared_jar.specs.Together.{IsCaller};

use crate::naming::JarName;
use jar_types::{JarCore, Moment, Op};
use locked_jar::{CallRefusal, Locked, Receipt};
use std::alloc::Global;
use std::marker::PhantomData;
use version_cells::{Cells, Pass};

/// The locked jar of the jar that `N` names: its history is legal by the rules of that, and its
/// state is the journal's.
#[derive(Drop)]
pub struct JarState<N: JarName, C: JarCore + Drop> {
    pub locked: Locked<C>,
    of: PhantomData<N>,
    pub ghost is: { IsState N.rules N.table N.cutter locked.jar } by { Prim.hlevel (props, Lists-prop) },
}

impl<N: JarName, C: JarCore + Drop> JarState<N, C> {
    /// The locked jar, which is the one that `N` names.
    pub fn of(locked: Locked<C>) -> JarState<N, C>
        requires { IsState N.rules N.table N.cutter locked.jar }
    {
        JarState {
            locked,
            of: PhantomData,
        }
    }

    /// The locked jar.
    pub fn into_locked(self) -> Locked<C>
        ensures { IsState N.rules N.table N.cutter result.jar }
    {
        self.locked
    }

    /// Adds one entry of the pass's caller, as [`SharedJar::call`](crate::SharedJar::call).
    pub fn call(
        &mut self,
        alloc: Global,
        cells: &Cells,
        pass: &mut Pass,
        op: &Op,
        now: Moment,
    ) -> Result<Receipt, CallRefusal>
        requires same { cells.now ≡ N.table }
        requires pass { IsCaller N.rules N.table pass.old }
        requires keyed { is_well_keyed N.rules op.now ≡ true }

        ensures answered { IfOk result
            (LearnsAnswer N.rules N.cutter pass.old pass.new op.now now) }
        ensures refused { IfErr result (LearnsRefusal N.rules N.cutter pass.old pass.new op.now) }
        ensures pass { IsCaller N.rules N.table pass.new }
    {
        self.locked.is_counted();
        self.locked.call(alloc, cells, pass, op, now)
    }
}
