//! One call under the lock.

ghost use Rattle.std.specs.Prelude.{◌≡◌, IfOk, IfErr};
ghost use Rattle.locked_jar.specs.Calls.{Answers, Refuses, RefusesCall};
ghost use Rattle.locked_jar.specs.LockedJars.{HasRoom};
ghost use Rattle.locked_jar.specs.Passes.{IsReady};
ghost use Rattle.locked_jar.specs.Readying.{reply_in};

use crate::locked::Locked;
use crate::receipt::{CallRefusal, Receipt};
use jar_types::{CoreRefusal, Entry, JarCore, Moment, NoMemory, Op, Reply};
use std::alloc::Global;
use version_cells::{Cells, Pass};

impl<C: JarCore + Drop> Locked<C> {
    /// Adds one entry of the pass's caller, who is told its place and its reply. The pass's front is then the whole
    /// history.
    ///
    /// It is refused as `Spent` exactly where callers have as many entries as they may; then as `Pending` or `NotYet`
    /// exactly where the op waits so, and what is pending is wanted then; then for want of memory, which leaves all as it
    /// was. This jar's own rule: docs/DEFINITIONS.md.
    pub fn call(
        &mut self,
        alloc: Global,
        cells: &Cells,
        pass: &mut Pass,
        op: &Op,
        now: Moment,
    ) -> Result<Receipt, CallRefusal>
        requires same { self.old.jar.table ≡ cells.now }
        requires pass { IsReady cells.now pass.old }
        requires room { HasRoom self.old.jar }

        ensures answered { IfOk result (Answers self.old.jar self.new.jar pass.old pass.new op.now now) }
        ensures refused { IfErr result (RefusesCall self.old.jar self.new.jar pass.old pass.new op.now) }
    {
        if self.calls == self.limit {
            self.meet(cells, pass);
            return Err(CallRefusal::Spent);
        }
        match self.parts.make_call_ready(alloc, pass.caller(), now, op) {
            Ok(ready) => {
                let Some(reply) = reply_of(alloc, &ready.prepared.entry)? else {
                    unreachable!()
                };
                let place = self.parts.answer(cells, pass, ready);
                self.calls += 1;
                Ok(Receipt { place, reply })
            }
            Err(refusal) => Err(self.refuse(alloc, cells, pass, refusal)),
        }
    }

    /// Why a call is refused for which the core refuses an entry: what is pending is wanted then, and the pass sees the
    /// history. Where memory is wanting all stays.
    fn refuse(
        &mut self,
        alloc: Global,
        cells: &Cells,
        pass: &mut Pass,
        refusal: CoreRefusal,
    ) -> CallRefusal
        requires same { self.old.jar.table ≡ cells.now }
        requires pass { IsReady cells.now pass.old }
        requires room { HasRoom self.old.jar }
        ensures { Refuses self.old.jar self.new.jar pass.old pass.new refusal result }
    {
        match refusal {
            CoreRefusal::Pending(what) => {
                if self.want(alloc, cells, &what).is_err() {
                    return CallRefusal::NoMemory;
                }
                self.meet(cells, pass);
                CallRefusal::Pending(what)
            }
            CoreRefusal::NotYet { found } => {
                self.meet(cells, pass);
                CallRefusal::NotYet { found }
            }
            CoreRefusal::NoMemory => CallRefusal::NoMemory,
        }
    }
}

/// The reply in a caller's entry.
fn reply_of(alloc: Global, entry: &Entry) -> Result<Option<Reply>, NoMemory>
    ensures { IfOk result (λ reply. reply ≡ reply_in entry.now) }
{
    match entry {
        Entry::Call { reply, .. } => Ok(Some(reply.copy(alloc)?)),
        Entry::Jar(_) => Ok(None),
    }
}
