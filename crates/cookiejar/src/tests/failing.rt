//! A keeper of which one call fails.

ghost use Rattle.std.specs.Prelude.{◌≡◌, ◌+◌, min};
ghost use Rattle.jar_edge.specs.Faults.{Rose, last_count, one_more};

use jar_keeper::{Keeper, KeeperRefusal};
use jar_types::{RowChanges, Rows, Texts};
use std::alloc::Global;

/// Another keeper, of which the call of this number is Failed, counted from 1.
#[derive(Drop)]
pub struct FailsAt<K: Keeper + Drop> {
    pub inner: K,
    pub call: u64,
    pub calls: u64,
    pub failed: u64,
}

impl<K: Keeper + Drop> FailsAt<K> {
    /// A keeper whose calls begin at 1; at 0 none fails.
    pub fn of(inner: K, call: u64) -> FailsAt<K> {
        FailsAt {
            inner,
            call,
            calls: 0,
            failed: 0,
        }
    }

    /// Counts a call, and says whether it is the one that fails.
    fn begin_call(&mut self) -> bool
        ensures inner { self.new.inner ≡ self.old.inner }
        ensures failed { self.new.failed ≡ self.old.failed }
    {
        self.calls = self.calls.saturating_add(1);
        self.calls == self.call
    }

    /// Counts a fault.
    fn fail(&mut self) -> KeeperRefusal
        ensures inner { self.new.inner ≡ self.old.inner }
        ensures failed { self.new.failed ≡ one_more self.old.failed }
        ensures result { result ≡ KeeperRefusal.Failed }
    {
        self.failed = self.failed.saturating_add(1);
        KeeperRefusal::Failed
    }
}

impl<K: Keeper + Drop> Keeper for FailsAt<K> {
    ghost tells = { λ keeper. K.Keeper.tells keeper.inner };

    ghost undisturbed = { λ keeper. K.Keeper.undisturbed keeper.inner };

    ghost leaves = { λ keeper. K.Keeper.leaves keeper.inner };

    ghost faults = { λ keeper. min (K.Keeper.faults keeper.inner + keeper.failed) last_count };

    fn hosts(&mut self, alloc: Global) -> Result<Texts, KeeperRefusal> {
        if self.begin_call() {
            return Err(self.fail());
        }
        self.inner.hosts(alloc)
    }

    fn load(&mut self, alloc: Global, host: &str) -> Result<Rows, KeeperRefusal> {
        if self.begin_call() {
            return Err(self.fail());
        }
        self.inner.load(alloc, host)
    }

    fn commit(&mut self, alloc: Global, changes: &RowChanges) -> Result<(), KeeperRefusal> {
        if self.begin_call() {
            return Err(self.fail());
        }
        self.inner.commit(alloc, changes)
    }

    ghost told_rise = { λ keeper rows told. K.Keeper.told_rise keeper.inner rows told };

    ghost told_once = { λ keeper rows others told also. K.Keeper.told_once keeper.inner rows others told also };

    ghost left_rise = { λ keeper rows left. K.Keeper.left_rise keeper.inner rows left };
}
