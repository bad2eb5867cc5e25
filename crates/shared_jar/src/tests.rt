//! The jar on one thread, and the jar that threads share. The values are this jar's own rules.

ghost use Rattle.std.specs.Prelude.{◌≡◌, ◌≤◌, IfOk};
ghost use Rattle.shared_jar.specs.Opening.{HasPasses};
ghost use Rattle.shared_jar.specs.declared.opening.TheConstants.{MOST_CALLERS};

mod asks;
mod commits;
mod judge;
mod threads;

use crate::{Opened, OwnJar};
use jar_keeper::MemKeeper;
use jar_types::{Moment, Rows};
use plain_jar::PlainJar;
use public_suffix::Suffixes;
use std::alloc::Global;
use std::test::Fail;

/// A keeper without rows, whose calls fail at these numbers.
#[tactic(auto, using(jar_keeper::proofs::RowLemmas::none_rise))]
fn keeper(alloc: Global, failing: Vec<u64>) -> MemKeeper {
    MemKeeper::of(alloc, Rows::new(alloc), failing)
}

/// A jar over this keeper, for so many callers, who may have a hundred entries.
pub fn opened(
    alloc: Global,
    failing: Vec<u64>,
    callers: u32,
) -> Result<Opened<PlainJar, MemKeeper>, Fail>
    requires few { callers ≤ MOST_CALLERS }
    ensures { IfOk result
        (λ o. HasPasses o.jar.cells o.jar.callers o.passes.items o.loader o.committer) }
{
    let suffixes = match Suffixes::read(alloc, "test") {
        Ok(suffixes) => suffixes,
        Err(_) => return Err("no suffixes".into()),
    };
    let Some(start) = Moment::of(0) else {
        return Err("no moment".into());
    };
    match OwnJar::<PlainJar, MemKeeper>::begin(
        alloc,
        keeper(alloc, failing),
        suffixes,
        callers,
        100,
        start,
    ) {
        Ok(opened) => Ok(opened),
        Err(_) => Err("no jar".into()),
    }
}
