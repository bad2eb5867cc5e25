//! Entries that are made ready: all memory that they take is there.

ghost use Rattle.std.specs.Prelude.{◌≡◌, ◌<◌, ◌≤◌, ◌-◌, ◌^◌, true, None, IfOk, IfErr, OnOk};
ghost use Rattle.jar_types.specs.Steps.{OwnMayStand, own_may_stand};
ghost use Rattle.jar_types.specs.Waits.{op_waits, waits};
ghost use Rattle.jar_types.specs.declared.entry.Event.TheVariants.{Call as CallEvent, Jar as JarEvent};
ghost use Rattle.locked_jar.specs.Owns.{is_ending};
ghost use Rattle.locked_jar.specs.Readying.{EndsBatch, IsRefused, IsSame, ReadyFor};

use crate::enter::Parts;
use crate::moving::cells_of;
use jar_types::{CoreRefusal, Event, JarCore, Moment, NoMemory, Op, Own, Prepared};
use std::alloc::Global;

/// An entry that the core has made ready, and the cells that it moves.
#[derive(Drop)]
pub struct Ready {
    pub prepared: Prepared,
    pub cells: Vec<u32>,
}

impl<C: JarCore + Drop> Parts<C> {
    /// Makes the entry of an event ready, and room for it and for its changes of rows. The jar stays.
    ///
    /// A call that waits is refused so, and then want of memory.
    pub fn make_ready(&mut self, alloc: Global, event: &Event) -> Result<Ready, CoreRefusal>
        requires room { (C.state self.old.core).entries < 2 ^ 64 - 1 }
        requires stands { OwnMayStand (C.state self.old.core) event.now }

        ensures ready { IfOk result (λ ready. C.ready self.new.core ready.prepared
            × ReadyFor (C.state self.old.core) event.now ready self.new.journal.spare self.new.pending.spare) }

        ensures there { OnOk result (waits (C.state self.old.core) event.now ≡ None) }
        ensures err { IfErr result (IsRefused (C.state self.old.core) event.now) }

        ensures same { IsSame (C.state self.old.core) (C.state self.new.core) self.old.baton self.new.baton
            self.old.journal.list self.new.journal.list self.old.pending.list self.new.pending.list }
    {
        let prepared = self.core.prepare(alloc, event)?;
        self.journal.reserve(1)?;
        self.pending.reserve(prepared.rows.len())?;
        let cells = cells_of(alloc, &self.core, &prepared.moved)?;
        Ok(Ready { prepared, cells })
    }

    /// The same of a caller's call.
    pub fn make_call_ready(
        &mut self,
        alloc: Global,
        caller: u32,
        now: Moment,
        op: &Op,
    ) -> Result<Ready, CoreRefusal>
        requires room { (C.state self.old.core).entries < 2 ^ 64 - 1 }

        ensures ready { IfOk result (λ ready. C.ready self.new.core ready.prepared
            × ReadyFor (C.state self.old.core) (CallEvent caller now op.now) ready
            self.new.journal.spare self.new.pending.spare) }

        ensures there { OnOk result (op_waits (C.state self.old.core) op.now ≡ None) }
        ensures err { IfErr result (IsRefused (C.state self.old.core) (CallEvent caller now op.now)) }

        ensures same { IsSame (C.state self.old.core) (C.state self.new.core) self.old.baton self.new.baton
            self.old.journal.list self.new.journal.list self.old.pending.list self.new.pending.list }
    {
        let op = op.copy(alloc)?;
        self.make_ready(alloc, &Event::Call { caller, now, op })
    }

    /// The same of what the jar does itself: only want of memory refuses it.
    pub fn make_own_ready(&mut self, alloc: Global, own: Own) -> Result<Ready, NoMemory>
        requires room { (C.state self.old.core).entries < 2 ^ 64 - 1 }
        requires stands { own_may_stand (C.state self.old.core) own ≡ true }

        ensures ready { IfOk result (λ ready. C.ready self.new.core ready.prepared
            × ReadyFor (C.state self.old.core) (JarEvent own) ready
            self.new.journal.spare self.new.pending.spare) }

        ensures same { IsSame (C.state self.old.core) (C.state self.new.core) self.old.baton self.new.baton
            self.old.journal.list self.new.journal.list self.old.pending.list self.new.pending.list }
    {
        match self.make_ready(alloc, &Event::Jar(own)) {
            Ok(ready) => Ok(ready),
            Err(_) => Err(NoMemory),
        }
    }

    /// Makes the entry ready by which a batch ends, for which there is room. The jar stays. It takes no memory.
    pub fn make_end_ready(&mut self, alloc: Global, own: Own) -> Ready
        requires room { ((C.state self.old.core).entries < 2 ^ 64 - 1) × (1 ≤ self.old.journal.spare) }
        requires stands { (own_may_stand (C.state self.old.core) own ≡ true) × (is_ending own ≡ true) }
        ensures ready { C.ready self.new.core result.prepared
            × ReadyFor (C.state self.old.core) (JarEvent own) result self.new.journal.spare self.new.pending.spare }
        ensures same { IsSame (C.state self.old.core) (C.state self.new.core) self.old.baton self.new.baton
            self.old.journal.list self.new.journal.list self.old.pending.list self.new.pending.list }
    {
        self.make_ready_within(alloc, &Event::Jar(own))
    }

    /// Makes the entry ready by which a batch ends, for which there is room. The jar stays. It takes no memory.
    pub fn make_ready_within(&mut self, alloc: Global, event: &Event) -> Ready
        requires room { ((C.state self.old.core).entries < 2 ^ 64 - 1) × (1 ≤ self.old.journal.spare) }
        requires stands { OwnMayStand (C.state self.old.core) event.now }
        requires ends { EndsBatch event.now }
        ensures ready { C.ready self.new.core result.prepared }
        ensures value { ReadyFor (C.state self.old.core) event.now result self.new.journal.spare self.new.pending.spare }
        ensures same { IsSame (C.state self.old.core) (C.state self.new.core) self.old.baton self.new.baton
            self.old.journal.list self.new.journal.list self.old.pending.list self.new.pending.list }
    {
        match self.core.prepare(alloc, event) {
            Ok(prepared) => Ready {
                prepared,
                cells: Vec::new(alloc),
            },
            Err(_) => unreachable!(),
        }
    }
}
