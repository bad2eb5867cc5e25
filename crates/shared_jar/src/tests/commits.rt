//! A commit that fails.

ghost use Rattle.std.specs.Prelude.{◌≡◌};
ghost use Rattle.std.specs.List.{AllByRecursion};
ghost use Rattle.std.proofs.Props.{props};
ghost use Rattle.jar_values.specs.Hosts.{undotted};
ghost use Rattle.public_suffix.specs.Suffix.{key_of};
ghost use Rattle.shared_jar.specs.Together.{IsCaller};
ghost use Rattle.store_vault.specs.Loading.{rules_of};

use super::asks::cookie_of;
use super::opened;
use crate::{Opened, OwnJar};
use jar_keeper::MemKeeper;
use jar_types::{Cookie, Entry, Moment, Op, Own};
use plain_jar::PlainJar;
use std::alloc::Global;
use std::process::Abort;
use std::test::Fail;
use version_cells::Pass;

/// A jar and the pass of its one caller.
#[derive(Drop)]
struct Alone {
    jar: OwnJar<PlainJar, MemKeeper>,
    pass: Pass,
    ghost is: { IsCaller (rules_of jar.vault.stored jar.callers jar.locked.jar.limit) jar.cells pass } by { Prim.hlevel props },
}

impl Alone {
    /// Over a keeper without rows, whose calls fail at these numbers.
    fn of(alloc: Global, failing: Vec<u64>) -> Result<Alone, Fail> {
        let Opened { jar, passes, .. } = opened(alloc, failing, 1)?;
        Alone::with_last(jar, passes)
    }

    /// The jar with the last of its callers' passes.
    fn with_last(jar: OwnJar<PlainJar, MemKeeper>, passes: Vec<Pass>) -> Result<Alone, Fail>
        requires { AllByRecursion (IsCaller (rules_of jar.vault.stored jar.callers jar.locked.jar.limit) jar.cells) passes.items }
    {
        let mut passes = passes;
        match passes.pop() {
            Some(pass) => Ok(Alone { jar, pass }),
            None => Err("no pass".into()),
        }
    }

    /// The place of a Set of a cookie of `h.test` at this moment, 0 where it is refused.
    fn set(&mut self, alloc: Global, name: &str, now: Moment) -> u64 {
        let stored = &self.jar.vault.stored;
        let Ok(cookie) = cookie_of(alloc, &stored.suffixes, "h.test", name, now) else {
            return 0;
        };
        self.ask(alloc, cookie, now)
    }

    /// The place of a Set of this cookie, 0 where it is refused.
    fn ask(&mut self, alloc: Global, cookie: Cookie, now: Moment) -> u64
        requires keyed { cookie.key ≡ key_of self.old.jar.vault.stored.suffixes cookie.host }
        requires plain { undotted cookie.host ≡ cookie.host }
    {
        let op = Op::Set {
            cookie,
            script: false,
            secure: false,
        };
        match self.jar.call(alloc, &mut self.pass, &op, now) {
            Ok(receipt) => receipt.place,
            Err(_) => 0,
        }
    }

    /// The place of the last batch, once a flush was forced; `None` where the keeper failed.
    fn flush(&mut self, alloc: Global) -> Option<u64> {
        match self.jar.flush(alloc, true) {
            Ok(place) => Some(place),
            Err(_) => None,
        }
    }

    /// How many rows the keeper has, and how many the list has that a crash may leave beside it.
    fn rows(&self) -> (usize, usize) {
        let keeper = &self.jar.vault.keeper;
        let beside = match keeper.also_leaves().first() {
            Some(rows) => rows.len(),
            None => 0,
        };
        (keeper.rows().len(), beside)
    }

    /// Whether the journal has as many entries as this, of which that at a place, counted from 0, is
    /// the jar's own and this.
    fn has_lost(&self, entries: usize, at: usize, lost: u64) -> bool {
        let journal = self.jar.locked.journal();
        journal.len() == entries
            && matches!(journal.get(at), Some(Entry::Jar(Own::CommitLost(place))) if *place == lost)
    }
}

/// One cookie is set and its commit fails; another is set, and one commit has both.
fn play<R: Abort>(rt: &R, alloc: Global, alone: &mut Alone, now: Moment) {
    assert!(rt; alone.set(alloc, "a", now) == 1);
    assert!(rt; alone.flush(alloc).is_none());
    assert!(rt; alone.rows() == (0, 1));
    assert!(rt; alone.set(alloc, "b", now) == 4);
    assert!(rt; alone.flush(alloc) == Some(5));
    assert!(rt; alone.rows() == (2, 0));
    assert!(rt; alone.flush(alloc) == Some(5));
    // Set, Taken, CommitLost, Set, Taken, Acked.
    assert!(rt; alone.has_lost(6, 2, 2));
}

#[test]
fn what_a_failed_commit_took_goes_with_the_next(rt: HostRuntime) -> Result<(), Fail> {
    let alloc = rt.alloc();
    let Some(now) = Moment::of(0) else {
        return Err("no moment".into());
    };
    // Call 1 asks for the hosts, and call 2 is the first commit.
    let mut alone = Alone::of(alloc, Vec::from_slice(alloc, &[2])?)?;
    play(&rt, alloc, &mut alone, now);
    Ok(())
}
