//! A jar is opened over a keeper.

ghost use Rattle.std.specs.Prelude.{◌≡◌, ◌<◌, ◌≤◌, ◌+◌, List, IfErr, IfOk, MatchResult, length};
ghost use Rattle.std.specs.List.Sorted.{IsStrictlySortedBy};
ghost use Rattle.jar_types.specs.Ids.{text_cmp};
ghost use Rattle.jar_types.specs.Journals.{stored_keys};
ghost use Rattle.jar_types.specs.Stored.{hosts_of};
ghost use Rattle.jar_types.specs.declared.row.Row.{Row as RowData};
ghost use Rattle.locked_jar.specs.LockedJars.{journal_of, opened};
ghost use Rattle.shared_jar.specs.Faults.{FaultsAre};
ghost use Rattle.shared_jar.specs.Holding.{BeginsOver, IsBeside};
ghost use Rattle.shared_jar.specs.Opening.{BeginsJar, FailsBegin, HasPasses, IsNewVault};
ghost use Rattle.shared_jar.specs.declared.opening.TheConstants.{MOST_CALLERS, MOST_HOSTS, MOST_LIMIT};
ghost use Rattle.store_vault.specs.Loading.{rules_of};
ghost use Rattle.store_vault.specs.Looking.{HasLooked};
ghost use Rattle.version_cells.specs.Standing.{new_pass_standing, new_passes};

use crate::opening::{BeginFail, BeginRefusal, MOST_HOSTS, Opened};
use crate::own_jar::OwnJar;
use jar_keeper::{Keeper, KeeperRefusal};
use jar_types::{JarCore, Moment, NoMemory, RowChanges, Texts};
use key_loader::Plan;
use locked_jar::Locked;
use public_suffix::Suffixes;
use std::alloc::Global;
use store_vault::{Stored, Vault};
use version_cells::{Cells, Made, Pass};

/// The parts of a jar that is opened, but for its keeper.
#[derive(Drop)]
struct Parts<C: JarCore + Drop> {
    locked: Locked<C>,
    stored: Stored,
    cells: Cells,
    cutter: Pass,
    passes: Vec<Pass>,
}

/// The jar over these hosts, but for its keeper. Only want of memory refuses it.
fn parts_of<C: JarCore + Drop>(
    alloc: Global,
    hosts: Texts,
    suffixes: Suffixes,
    callers: u32,
    limit: u64,
    start: Moment,
) -> Result<Parts<C>, NoMemory>
    requires rises { IsStrictlySortedBy text_cmp hosts }
    requires few { callers ≤ MOST_CALLERS }
    requires bounded { limit ≤ MOST_LIMIT }
    ensures stored { IfOk result (λ p. (p.stored.hosts ≡ hosts) × (p.stored.suffixes ≡ suffixes)
        × (p.stored.start ≡ start)) }
    ensures few { IfOk result (λ p. length hosts < MOST_HOSTS) }
    ensures locked { IfOk result (λ p. p.locked.jar
        ≡ opened p.cells (stored_keys (rules_of p.stored callers limit)) limit) }
    ensures cutter { IfOk result (λ p. p.cutter ≡ new_pass_standing p.cells (callers + 2)) }
    ensures passes { IfOk result (λ p. p.passes.items ≡ new_passes p.cells (callers + 2)) }
{
    if hosts.len() >= MOST_HOSTS {
        return Err(NoMemory);
    }
    let plan = Plan::of_hosts(alloc, &suffixes, &hosts)?;
    let keys = plan.keys(alloc)?;
    let Made {
        cells,
        baton,
        cutter,
        passes,
    } = Cells::make(alloc, callers + 2)?;
    let locked = Locked::of(alloc, keys, baton, limit)?;
    Ok(Parts {
        locked,
        stored: Stored {
            hosts,
            plan,
            suffixes,
            start,
        },
        cells,
        cutter,
        passes,
    })
}

/// The jar of these parts over a keeper, with the passes in their order.
fn assembled<C: JarCore + Drop, K: Keeper + Drop>(
    alloc: Global,
    parts: Parts<C>,
    keeper: K,
    callers: u32,
) -> Opened<C, K>
    requires bounded { parts.locked.jar.limit ≤ MOST_LIMIT }
    requires few { length parts.stored.hosts < MOST_HOSTS }
    requires locked { parts.locked.jar ≡ opened parts.cells
        (stored_keys (rules_of parts.stored callers parts.locked.jar.limit)) parts.locked.jar.limit }
    requires cutter { parts.cutter ≡ new_pass_standing parts.cells (callers + 2) }
    requires passes { parts.passes.items ≡ new_passes parts.cells (callers + 2) }
    ensures passes { HasPasses result.jar.cells callers result.passes.items result.loader result.committer }
    ensures jar { (result.jar.locked.jar ≡ parts.locked.jar) × (result.jar.callers ≡ callers)
        × (result.jar.vault.stored ≡ parts.stored) × (result.jar.vault.keeper ≡ keeper) }
    ensures beside { IsBeside (rules_of result.jar.vault.stored callers result.jar.locked.jar.limit)
        result.jar.locked.jar result.jar.vault.kept result.jar.vault.acked }
    ensures vault { IsNewVault result.jar.vault.kept result.jar.vault.acked result.jar.vault.owns result.jar.vault.starved }
{
    let Parts {
        locked,
        stored,
        cells,
        cutter,
        mut passes,
    } = parts;
    let (Some(committer), Some(loader)) = (passes.pop(), passes.pop()) else {
        unreachable!()
    };
    let vault = Vault {
        keeper,
        cutter,
        stored,
        kept: RowChanges::new(alloc),
        acked: 0,
        owns: 0,
        starved: false,
    };
    Opened {
        jar: OwnJar {
            locked,
            vault,
            cells,
            callers,
        },
        passes,
        loader,
        committer,
    }
}

impl<C: JarCore + Drop, K: Keeper + Drop> OwnJar<C, K> {
    /// A jar over the keeper's rows, whose keys are by these suffix rules, for so many callers, who may have so many
    /// entries, and which becomes whole at its start; with the passes of its callers, of who loads and of who commits.
    ///
    /// It is refused as `StoreFault` only where the keeper failed at its hosts, and then for want of memory, also where
    /// there are [`MOST_HOSTS`] hosts or more; the keeper is handed back. This jar's own rule: docs/DEFINITIONS.md.
    pub fn begin(
        alloc: Global,
        keeper: K,
        suffixes: Suffixes,
        callers: u32,
        limit: u64,
        start: Moment,
    ) -> Result<Opened<C, K>, BeginFail<K>>
        requires few { callers ≤ MOST_CALLERS }
        requires bounded { limit ≤ MOST_LIMIT }

        ensures passes { IfOk result (λ opened. HasPasses opened.jar.cells callers
            opened.passes.items opened.loader opened.committer) }
        ensures jar { IfOk result (λ opened. BeginsJar suffixes callers limit start opened.jar.vault.stored
            opened.jar.cells opened.jar.locked.jar opened.jar.callers
            × IsNewVault opened.jar.vault.kept opened.jar.vault.acked opened.jar.vault.owns opened.jar.vault.starved) }

        // The hosts are those of the rows that the keeper tells; it was only read.
        ensures over { IfOk result (λ opened. (K.faults opened.jar.vault.keeper ≡ K.faults keeper)
            × (K.undisturbed opened.jar.vault.keeper → (rows : List RowData) → K.tells keeper rows
            → opened.jar.vault.stored.hosts ≡ hosts_of rows)) }

        // What waits, waits beside the journal; the keeper holds what is held beside it; and it tells of
        // its faults.
        ensures beside { IfOk result (λ opened. IsBeside
            (rules_of opened.jar.vault.stored callers opened.jar.locked.jar.limit)
            opened.jar.locked.jar opened.jar.vault.kept opened.jar.vault.acked) }
        ensures held { IfOk result (λ opened. K.undisturbed opened.jar.vault.keeper
            → BeginsOver (rules_of opened.jar.vault.stored callers limit) opened.jar.locked.jar
            (K.tells keeper) (K.tells opened.jar.vault.keeper)) }
        ensures faults { IfOk result (λ opened. FaultsAre (K.faults keeper)
            (journal_of opened.jar.locked.jar.seen) (K.faults opened.jar.vault.keeper)
            opened.jar.vault.starved) }

        ensures looked { MatchResult result
            (λ opened. HasLooked (K.tells keeper) (K.tells opened.jar.vault.keeper) (K.leaves keeper)
            (K.leaves opened.jar.vault.keeper) (K.undisturbed keeper) (K.undisturbed opened.jar.vault.keeper))
            (λ fail. HasLooked (K.tells keeper) (K.tells fail.keeper) (K.leaves keeper)
            (K.leaves fail.keeper) (K.undisturbed keeper) (K.undisturbed fail.keeper)) }

        ensures err { IfErr result (λ fail. FailsBegin fail.refusal (K.faults keeper) (K.faults fail.keeper)) }
    {
        let mut keeper = keeper;
        match keeper.hosts(alloc) {
            Ok(hosts) => match parts_of(alloc, hosts, suffixes, callers, limit, start) {
                Ok(parts) => Ok(assembled(alloc, parts, keeper, callers)),
                Err(_) => Err(BeginFail {
                    keeper,
                    refusal: BeginRefusal::NoMemory,
                }),
            },
            Err(KeeperRefusal::Failed) => Err(BeginFail {
                keeper,
                refusal: BeginRefusal::StoreFault,
            }),
            Err(KeeperRefusal::NoMemory) => Err(BeginFail {
                keeper,
                refusal: BeginRefusal::NoMemory,
            }),
        }
    }
}
