//! A keeper in memory.

ghost use Rattle.std.specs.Prelude.{◌≡◌, ◌↔◌, ◌++◌, ◌∷◌, [], ⊤, IfOk, OnOk, OnErr, IsErr, IsErrOf, IsTrue};
ghost use Rattle.std.specs.List.Sorted.{IsStrictlySortedBy};
ghost use Rattle.std.proofs.Common.{sym, ◌∙◌};
ghost use Rattle.jar_edge.specs.Faults.{Rose, one_more};
ghost use Rattle.jar_types.specs.Ids.{text_cmp};
ghost use Rattle.jar_types.specs.RowChanges.{RowsRise};
ghost use Rattle.jar_types.specs.Stored.{hosts_of};
ghost use Rattle.jar_keeper.specs.HostRows.{AreOfHost, rows_of_host};
ghost use Rattle.jar_keeper.specs.Keepers.{CommitLeaves, CommitTells, CountsFault};
ghost use Rattle.jar_keeper.specs.MemoryRows.{AfterCommit, AfterLook, IsCallFailing, KeepsRows, MayLeaveRows, called};

use crate::change::changed;
use crate::host::{hosts_in, rows_in};
use crate::keeper::Keeper;
use crate::refusal::KeeperRefusal;
use jar_types::{NoMemory, RowChanges, Rows, Texts};
use std::alloc::Global;
use std::marker::Model;

/// A keeper of rows in memory.
///
/// Its calls of [`Keeper`] are numbered from 1, and those whose numbers are given are Failed, and no
/// others.
///
/// This jar's own rule: docs/DEFINITIONS.md.
#[derive(Drop)]
pub struct MemKeeper {
    rows: Rows,
    also_leaves: Vec<Rows>,
    failing: Vec<u64>,
    calls: u64,
    faults: u64,
}

impl Model for MemKeeper {
    ghost use Rattle.std.specs.List.{AllByRecursion};
    ghost use Rattle.jar_types.specs.RowChanges.{RowsRise};
    ghost use Rattle.jar_keeper.specs.MemoryRows.{MemoryRows};

    ghost Value = { MemoryRows };

    ghost view = { λ k. record {
      rows = k.rows;
      also_leaves = k.also_leaves.items;
      failing = k.failing.items;
      calls = k.calls;
      faults = k.faults;
    } };

    ghost invariant = { λ k. RowsRise k.rows × AllByRecursion RowsRise k.also_leaves.items };
}

impl MemKeeper {
    /// A keeper of these rows, whose calls fail at these numbers.
    pub fn of(alloc: Global, rows: Rows, failing: Vec<u64>) -> MemKeeper
        requires { RowsRise rows }
        ensures { result ≡ record {
          rows = rows;
          also_leaves = [];
          failing = failing.items;
          calls = 0;
          faults = 0;
        } }
    {
        MemKeeper {
            rows,
            also_leaves: Vec::new(alloc),
            failing,
            calls: 0,
            faults: 0,
        }
    }

    /// The rows.
    pub fn rows(&self) -> &Rows
        ensures value { result.now ≡ self.now.rows }
        ensures rises { RowsRise self.now.rows }
    {
        &self.rows
    }

    /// The lists of rows that a crash may leave, beside the rows.
    pub fn also_leaves(&self) -> &[Rows]
        ensures { result.now ≡ self.now.also_leaves }
    {
        &self.also_leaves
    }

    /// Counts a call, and says whether it is one that fails.
    fn begin_call(&mut self) -> bool
        ensures fails { IsTrue result ↔ IsCallFailing self.old }
        ensures count { self.new ≡ called self.old }
    {
        self.calls = self.calls.saturating_add(1);
        self.failing.contains(&self.calls)
    }

    /// Counts a fault.
    fn fail(&mut self)
        ensures count { self.new ≡ record self.old { faults = one_more self.old.faults } }
        ensures rose { Rose self.old.faults self.new.faults }
    {
        self.faults = self.faults.saturating_add(1);
    }

    /// Puts these rows in the place of the others, and a crash leaves just these. It takes no memory.
    fn replace(&mut self, alloc: Global, rows: Rows)
        requires { RowsRise rows }
        ensures { self.new ≡ record self.old { rows = rows; also_leaves = [] } }
    {
        self.rows = rows;
        self.also_leaves = Vec::new(alloc);
    }

    /// Notes that a crash may leave these rows too. Where memory is wanting the keeper stays.
    fn note(&mut self, rows: Rows) -> Result<(), NoMemory>
        requires { RowsRise rows }
        ensures ok { OnOk result (self.new
            ≡ record self.old { also_leaves = self.old.also_leaves ++ rows ∷ [] }) }
        ensures err { OnErr result (self.new ≡ self.old) }
    {
        self.also_leaves.push(rows)?;
        Ok(())
    }
}

impl Keeper for MemKeeper {
    ghost tells = { KeepsRows };

    ghost undisturbed = { λ _. ⊤ };

    ghost leaves = { MayLeaveRows };

    ghost faults = { λ keeper. keeper.faults };

    fn hosts(&mut self, alloc: Global) -> Result<Texts, KeeperRefusal>
        ensures rises { IfOk result (IsStrictlySortedBy text_cmp) }
        ensures value { IfOk result (λ hosts. hosts ≡ hosts_of self.old.rows) }

        ensures failed { IsErrOf result KeeperRefusal.Failed ↔ IsCallFailing self.old }
        ensures after { AfterLook self.old self.new result }
        ensures count { CountsFault self.old.faults self.new.faults result }
    {
        if self.begin_call() {
            self.fail();
            return Err(KeeperRefusal::Failed);
        }
        Ok(hosts_in(alloc, self.rows.as_slice())?)
    }

    fn load(&mut self, alloc: Global, host: &str) -> Result<Rows, KeeperRefusal>
        ensures rises { IfOk result (λ rows. AreOfHost host.now rows × RowsRise rows) }
        ensures value { IfOk result (λ rows. rows ≡ rows_of_host host.now self.old.rows) }

        ensures failed { IsErrOf result KeeperRefusal.Failed ↔ IsCallFailing self.old }
        ensures after { AfterLook self.old self.new result }
        ensures count { CountsFault self.old.faults self.new.faults result }
    {
        if self.begin_call() {
            self.fail();
            return Err(KeeperRefusal::Failed);
        }
        Ok(rows_in(alloc, host, self.rows.as_slice())?)
    }

    fn commit(&mut self, alloc: Global, changes: &RowChanges) -> Result<(), KeeperRefusal>
        ensures told { CommitTells changes.now (KeepsRows self.old) (KeepsRows self.new) result }
        ensures left { CommitLeaves changes.now (KeepsRows self.old)
            (MayLeaveRows self.old) (MayLeaveRows self.new) result }

        ensures failed { IsErrOf result KeeperRefusal.Failed → IsCallFailing self.old }
        ensures fails { IsCallFailing self.old → IsErr result }
        ensures after { AfterCommit changes.now self.old self.new result }
        ensures count { CountsFault self.old.faults self.new.faults result }
    {
        let fails = self.begin_call();
        let rows = changed(alloc, &self.rows, changes.as_slice())?;
        if fails {
            self.note(rows)?;
            self.fail();
            return Err(KeeperRefusal::Failed);
        }
        self.replace(alloc, rows);
        Ok(())
    }

    ghost told_rise = { λ keeper rows told. told.1 };

    ghost told_once = { λ keeper rows others told also. told.0 ∙ sym also.0 };

    ghost left_rise = { λ keeper rows left. left.1 };
}
