//! Counts by caller.

ghost use Rattle.std.specs.Prelude.{◌≡◌, ◌-◌, ◌^◌, IfOk, OnOk, position};
ghost use Rattle.jar_types.specs.Counts.{TalliesUpTo};
ghost use Rattle.jar_types.specs.Tallies as spec;

use jar_types::{NoMemory, Tallies, Tally};
use std::alloc::Global;

/// How often a caller did it.
pub fn tally_of(tallies: &[Tally], caller: u32) -> u64
    ensures { result ≡ spec.tally_of caller tallies.now }
{
    for tally in tallies {
        if tally.caller == caller {
            return tally.count;
        }
    }
    0
}

/// The tallies, in which a caller did it once more.
pub fn counted(alloc: Global, tallies: &Tallies, caller: u32) -> Result<Tallies, NoMemory>
    requires { TalliesUpTo (2 ^ 64 - 2) tallies.now }
    ensures { IfOk result (λ all. all ≡ spec.counted caller tallies.now) }
{
    let mut all = tallies.copy(alloc)?.into_vec();
    count(&mut all, caller)?;
    Ok(Tallies::from_vec(all))
}

/// Counts one more for a caller.
#[tactic(auto, using(crate::proofs::TallyLemmas::counted_there, crate::proofs::TallyLemmas::counted_new))]
fn count(all: &mut Vec<Tally>, caller: u32) -> Result<(), NoMemory>
    requires { TalliesUpTo (2 ^ 64 - 2) all.old.items }
    ensures { OnOk result (all.new.items ≡ spec.counted caller all.old.items) }
{
    match place_of(all.as_slice(), caller) {
        Some(place) => all[place].count += 1,
        None => all.push(Tally { caller, count: 1 })?,
    }
    Ok(())
}

/// The place of a caller's tally; none where he has none.
fn place_of(tallies: &[Tally], caller: u32) -> Option<usize>
    ensures { result ≡ position (spec.is_of caller) tallies.now }
{
    tallies.iter().position(|tally| tally.caller == caller)
}
