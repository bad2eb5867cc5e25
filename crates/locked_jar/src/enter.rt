//! One entry more: in the words, in the core and in the journal.

ghost use Rattle.std.specs.Prelude.{◌≡◌, ◌<◌, ◌≤◌, ◌+◌, [], Some, length};
ghost use Rattle.jar_types.specs.Steps.{event_of, rows_at};
ghost use Rattle.version_cells.specs.Listings.{IsDistinct};
ghost use Rattle.version_cells.specs.Moves.{IsAllowed};
ghost use Rattle.version_cells.specs.Standing.{baton_with_listing, listing_of};
ghost use Rattle.locked_jar.specs.Moving.{AreCells};
ghost use Rattle.locked_jar.specs.Passes.{HasAdded, HasAnswered, HasSeen, IsHome, IsReady};
ghost use Rattle.locked_jar.specs.Entering.{HasEntered, HasListed, IsFree, MayEnter};

use crate::moving::bump_each;
use crate::ready::Ready;
use commit_batches::Pending;
use jar_types::{JarCore, Journal};
use version_cells::{Baton, Cells, Pass};

/// The parts of a locked jar, of which nothing is said.
#[derive(Drop)]
pub struct Parts<C: JarCore + Drop> {
    pub core: C,
    pub journal: Journal,
    pub pending: Pending,
    pub baton: Baton,
}

impl<C: JarCore + Drop> Parts<C> {
    /// An entry that was made ready is committed for an owner, behind the bumps of all its cells, the core takes its step,
    /// it stands in the journal, and its changes of rows wait. It takes no memory.
    pub fn enter(&mut self, cells: &Cells, owner: Option<u32>, ready: Ready)
        requires words { (self.old.baton.table ≡ cells.now) × (self.old.baton.view.pending ≡ [])
            × IsAllowed owner self.old.baton.view.permit × MayEnter self.old.baton }
        requires ready { C.ready self.old.core ready.prepared }
        requires cells { IsDistinct ready.cells.items × AreCells ready.cells.items }
        requires room { (1 ≤ self.old.journal.spare)
            × (length (rows_at (C.state self.old.core) (event_of ready.prepared.entry)) ≤ self.old.pending.spare) }

        ensures words { self.new.baton
            ≡ baton_with_listing self.old.baton (listing_of ready.cells.items owner ready.prepared.entry) }
        ensures entered { HasEntered ready.prepared.entry (C.state self.old.core) (C.state self.new.core)
            self.old.journal.list self.new.journal.list self.old.pending.list self.new.pending.list }
        ensures spare { self.new.journal.spare + 1 ≡ self.old.journal.spare }
    {
        let Ready {
            prepared,
            cells: moved,
        } = ready;
        bump_each(cells, &mut self.baton, moved.as_slice());
        cells.commit(&mut self.baton, owner, moved.as_slice(), &prepared.entry);
        let (entry, rows) = self.core.settle(prepared);
        self.journal.add(entry);
        self.pending.add(rows);
    }

    /// Shows a pass all that stands in the journal.
    pub fn meet(&mut self, cells: &Cells, pass: &mut Pass)
        requires words { IsFree cells.now self.old.baton }
        requires home { IsHome cells.now pass.old }
        ensures pass { HasSeen self.old.baton.view.own.seen pass.old pass.new }
        ensures words { IsFree cells.now self.new.baton }
        ensures seen { self.new.baton.view.own.seen ≡ self.old.baton.view.own.seen }
        ensures same { (self.new.core ≡ self.old.core) × (self.new.journal ≡ self.old.journal)
            × (self.new.pending ≡ self.old.pending) }
    {
        cells.meet(pass, &mut self.baton);
    }

    /// A call of the pass is answered by an entry that was made ready, and the pass's front is then the whole history: the
    /// answer is how many entries that has. It takes no memory.
    pub fn answer(&mut self, cells: &Cells, pass: &mut Pass, ready: Ready) -> u64
        requires words { IsFree cells.now self.old.baton × MayEnter self.old.baton }
        requires pass { IsReady cells.now pass.old }
        requires ready { C.ready self.old.core ready.prepared }
        requires cells { IsDistinct ready.cells.items × AreCells ready.cells.items }
        requires room { (1 ≤ self.old.journal.spare)
            × (length (rows_at (C.state self.old.core) (event_of ready.prepared.entry)) ≤ self.old.pending.spare) }

        ensures place { result ≡ length self.new.journal.list }
        ensures words { HasListed (listing_of ready.cells.items (Some pass.old.view.number) ready.prepared.entry)
            self.old.baton self.new.baton }
        ensures pass { HasAnswered self.old.baton.view.own.seen
            (listing_of ready.cells.items (Some pass.old.view.number) ready.prepared.entry) pass.old pass.new }
        ensures entered { HasEntered ready.prepared.entry (C.state self.old.core) (C.state self.new.core)
            self.old.journal.list self.new.journal.list self.old.pending.list self.new.pending.list }
    {
        // By its clause the front begins what the pass has seen.
        let _front = pass.front();
        let caller = pass.caller();
        cells.lend(pass, &mut self.baton);
        self.enter(cells, Some(caller), ready);
        cells.meet(pass, &mut self.baton);
        cells.answered(pass);
        self.journal.len() as u64
    }

    /// An entry that was made ready, which the pass owns, and which is no answer to a call of it, is added. It takes no
    /// memory.
    pub fn add_own(&mut self, cells: &Cells, cutter: &mut Pass, ready: Ready)
        requires words { IsFree cells.now self.old.baton × MayEnter self.old.baton }
        requires pass { IsHome cells.now cutter.old }
        requires ready { C.ready self.old.core ready.prepared }
        requires cells { IsDistinct ready.cells.items × AreCells ready.cells.items }
        requires room { (1 ≤ self.old.journal.spare)
            × (length (rows_at (C.state self.old.core) (event_of ready.prepared.entry)) ≤ self.old.pending.spare) }

        ensures words { HasListed (listing_of ready.cells.items (Some cutter.old.view.number) ready.prepared.entry)
            self.old.baton self.new.baton }
        ensures pass { HasAdded self.old.baton.view.own.seen
            (listing_of ready.cells.items (Some cutter.old.view.number) ready.prepared.entry) cutter.old cutter.new }
        ensures entered { HasEntered ready.prepared.entry (C.state self.old.core) (C.state self.new.core)
            self.old.journal.list self.new.journal.list self.old.pending.list self.new.pending.list }
        ensures spare { self.new.journal.spare + 1 ≡ self.old.journal.spare }
    {
        let owner = cutter.caller();
        cells.lend(cutter, &mut self.baton);
        self.enter(cells, Some(owner), ready);
        cells.meet(cutter, &mut self.baton);
    }
}
