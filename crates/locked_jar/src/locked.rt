//! What lies under the jar's lock.

ghost use Rattle.std.specs.Prelude.{◌≡◌, ◌≤◌, [], None, IfOk, length};
ghost use Rattle.std.specs.List.Sorted.{IsStrictlySortedBy};
ghost use Rattle.jar_types.specs.Ids.{text_cmp};
ghost use Rattle.locked_jar.specs.LockedJars.{journal_of, opened};
ghost use Rattle.locked_jar.specs.Passes.{HasSeen, IsHome};

use crate::enter::Parts;
use commit_batches::Pending;
use jar_types::{JarCore, Journal, NoMemory, Texts};
use std::alloc::Global;
use std::marker::Model;
use version_cells::{Baton, Cells, Pass};

/// A core of the jar, its journal, the baton of its words, and the changes of rows since a batch was taken.
///
/// This jar's own rule: docs/DEFINITIONS.md.
#[derive(Drop)]
pub struct Locked<C: JarCore + Drop> {
    pub(crate) parts: Parts<C>,
    pub(crate) calls: u64,
    pub(crate) limit: u64,
}

impl<C: JarCore + Drop> Model for Locked<C> {
    ghost use Rattle.locked_jar.specs.LockedJars.{LockedView, IsAtRest};

    ghost Value = { LockedView };

    ghost view = { λ l. record {
      jar = record {
        table = l.parts.baton.table;
        state = C.state l.parts.core;
        seen = l.parts.baton.view.own.seen;
        pending = l.parts.pending.list;
        limit = l.limit;
      };
      spare = l.parts.journal.spare;
    } };

    ghost invariant = { λ l. IsAtRest l.calls l.parts.baton.view l.parts.journal.list (record {
      table = l.parts.baton.table;
      state = C.state l.parts.core;
      seen = l.parts.baton.view.own.seen;
      pending = l.parts.pending.list;
      limit = l.limit;
    }) };
}

impl<C: JarCore + Drop> Locked<C> {
    /// A jar without an entry, in which every key but these is loaded, under a baton that has committed nothing. Callers
    /// may have so many entries.
    pub fn of(alloc: Global, keys: Texts, baton: Baton, limit: u64) -> Result<Locked<C>, NoMemory>
        requires rises { IsStrictlySortedBy text_cmp keys }
        requires free { (baton.view.pending ≡ []) × (baton.view.permit ≡ None) }
        requires empty { baton.view.own.seen ≡ [] }
        ensures { IfOk result (λ l. l.jar ≡ opened baton.table keys limit) }
    {
        Ok(Locked {
            parts: Parts {
                core: C::fresh(alloc, keys)?,
                journal: Journal::new(alloc),
                pending: Pending::fresh(alloc),
                baton,
            },
            calls: 0,
            limit,
        })
    }

    /// The core of the jar.
    pub fn core(&self) -> &C
        ensures { C.state result.now ≡ self.now.jar.state }
    {
        &self.parts.core
    }

    /// The journal: it has as many entries as were counted.
    pub fn journal(&self) -> &Journal
        ensures value { result.now.list ≡ journal_of self.now.jar.seen }
        ensures counted { length self.now.jar.seen ≡ self.now.jar.state.entries }
    {
        &self.parts.journal
    }

    /// Its entries are counted, and callers have no more than they may.
    pub fn is_counted(&self)
        ensures entries { length self.now.jar.seen ≡ self.now.jar.state.entries }
        ensures calls { self.now.jar.state.calls ≤ self.now.jar.limit }
    {
        let _calls = self.calls;
    }

    /// Shows a pass all that stands in the journal.
    pub fn meet(&mut self, cells: &Cells, pass: &mut Pass)
        requires same { self.old.jar.table ≡ cells.now }
        requires home { IsHome cells.now pass.old }
        ensures same { self.new ≡ self.old }
        ensures pass { HasSeen self.old.jar.seen pass.old pass.new }
    {
        self.parts.meet(cells, pass);
    }

    /// The core and the journal.
    pub fn into_parts(self) -> (C, Journal)
        ensures { (C.state result.0 ≡ self.jar.state) × (result.1.list ≡ journal_of self.jar.seen) }
    {
        (self.parts.core, self.parts.journal)
    }
}
