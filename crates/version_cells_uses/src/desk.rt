//! What lies under the lock.

ghost use Rattle.std.specs.Prelude.{◌≡◌, ◌<◌, ◌≤◌, ◌-◌, ◌+◌, [], length, IfOk, IfErr, IsOk};
ghost use Rattle.version_cells.specs.Listings.{IsCell, EndsWith};
ghost use Rattle.version_cells_uses.specs.declared.desk.TheConstants.{LIMIT};
ghost use Rattle.version_cells_uses.specs.Ready.{IsFree, IsReady, HasCalled, call_of};

use crate::call::one_call;
use crate::name::Name;
use jar_types::Entry;
use std::error::Error;
use std::fmt;
use std::marker::PhantomData;
use version_cells::{Baton, Cells, Pass};

/// How many entries a desk takes. A choice of this crate.
pub const LIMIT: u64 = 1_000_000;

/// The desk has as many entries as it takes. A desk alone makes one.
#[derive(Clone, Copy, Debug)]
pub struct Full(());

impl fmt::Display for Full {
    fn fmt<W: fmt::Write>(&self, f: &mut fmt::Formatter<W>) -> fmt::Result {
        write!(f, "the desk is full")
    }
}

impl Error for Full {}

/// The baton of the named table, free of cells and permits, with the number of its entries.
#[derive(Drop)]
pub struct Desk<N: Name> {
    baton: Baton,
    /// How many entries were committed.
    pub entries: u64,
    of: PhantomData<N>,
    ghost free: { IsFree N.table baton },
    ghost counted: { entries ≡ length baton.view.own.seen },
    ghost room: { entries ≤ LIMIT },
}

impl<N: Name> Desk<N> {
    /// A desk with a baton that has committed nothing.
    pub fn new(baton: Baton) -> Desk<N>
        requires free { IsFree N.table baton }
        requires empty { baton.view.own.seen ≡ [] }
        ensures empty { result.entries ≡ 0 }
    {
        Desk {
            baton,
            entries: 0,
            of: PhantomData,
        }
    }

    /// Commits an entry of the pass's caller that moves a cell, and answers the call with it.
    ///
    /// `Full`, exactly where the desk has `LIMIT` entries, leaves desk and pass as they were.
    pub fn call(
        &mut self,
        cells: &Cells,
        pass: &mut Pass,
        cell: u32,
        entry: &Entry,
    ) -> Result<(), Full>
        requires may { (cells.now ≡ N.table) × IsReady N.table pass.old × IsCell cell }
        ensures pass { IsReady N.table pass.new }
        ensures ok { IfOk result (λ _. (self.new.entries ≡ self.old.entries + 1)
            × HasCalled pass.old pass.new) }
        ensures moved { IfOk result
            (λ _. EndsWith pass.new.view.own.seen (call_of pass.old cell entry.now)) }
        ensures full { IfErr result (λ _. (self.old.entries ≡ LIMIT)
            × (self.new.entries ≡ LIMIT) × (pass.new ≡ pass.old)) }
        ensures succeeds { self.old.entries < LIMIT → IsOk result }
    {
        if self.entries >= LIMIT {
            return Err(Full(()));
        }
        one_call(cells, &mut self.baton, pass, cell, entry);
        self.entries += 1;
        Ok(())
    }
}
