//! A script, run on one thread in rounds over a keeper of rows.

ghost use Rattle.std.specs.Prelude.{◌≡◌, ◌==◌, [], List, false, IfOk, IfErr, OnOk, MatchResult, length};
ghost use Rattle.std.specs.List.{AllByRecursion};
ghost use Rattle.std.specs.List.Sorted.{IsStrictlySortedBy};
ghost use Rattle.jar_types.specs.Ids.{text_cmp};
ghost use Rattle.jar_types.specs.Stored.{hosts_of};
ghost use Rattle.jar_types.specs.declared.row.Row.{Row as RowData};
ghost use Rattle.locked_jar.specs.LockedJars.{journal_of};
ghost use Rattle.script_text.specs.Admitted.{IsAdmitted};
ghost use Rattle.shared_jar.specs.Faults.{CountsFaults, FaultsAre, RoseTimes, faults_in};
ghost use Rattle.shared_jar.specs.Together.{IsCaller};
ghost use Rattle.store_vault.specs.Loading as vault;
ghost use Rattle.script_run.specs.Players.{ArePlaying, BeginsPlay, run_of};
ghost use Rattle.script_run.specs.Rounds.{Ends, IsHistory, rounds};
ghost use Rattle.script_run.specs.Runs.{tried_first};
ghost use Rattle.script_run.specs.Services.{EndedOver, FailsRun, PlayedOver, RanOver, RoundBy, RoundOver, refusal_of};
ghost use Rattle.script_run.specs.declared.rounds.RunRefusal.TheVariants.{NoMemory as WantOfMemory};
ghost use Rattle.script_run.specs.Turns.{turns_left};

use crate::players::Players;
use crate::services::{flush, load_next};
use crate::timed::see_moments;
use crate::tries::try_next;
use jar_keeper::Keeper;
use jar_types::{JarCore, Journal, NoMemory};
use plain_jar::PlainJar;
use run_report::{ItemLists, Items, Report};
use script_text::Script;
use shared_jar::{BeginFail, BeginRefusal, Closed, Opened, OwnJar};
use std::alloc::Global;

/// What a script gave: its report, and the keeper.
#[derive(Drop)]
pub struct Ran<K: Keeper + Drop> {
    pub report: Report,
    pub keeper: K,
}

/// Why a script has no report.
///
/// This jar's own rule: docs/DEFINITIONS.md.
#[derive(Clone, Copy, Debug, PartialEq, Eq)]
pub enum RunRefusal {
    /// The keeper failed at its hosts: nothing was run.
    StoreFault,
    /// Memory was wanting.
    NoMemory,
}

/// A refusal, with the keeper, and the journal so far: empty where nothing was run.
#[derive(Drop)]
pub struct RunFail<K: Keeper + Drop> {
    pub keeper: K,
    pub journal: Journal,
    pub refusal: RunRefusal,
}

/// The report of a script over a keeper of rows: in each round each actor in order tries its next
/// turn, then a key is loaded or the jar becomes whole, then changed rows are committed where many
/// wait; the rounds end behind the first in which no turn is left, and then what changed is
/// committed.
///
/// A fault of the keeper at its hosts is refused, and then want of memory, also where it has
/// [`MOST_HOSTS`](shared_jar::MOST_HOSTS) hosts or more. This jar's own rule: docs/DEFINITIONS.md.
pub fn serial<K: Keeper + Drop>(
    alloc: Global,
    script: &Script,
    keeper: K,
) -> Result<Ran<K>, RunFail<K>>
    requires admitted { IsAdmitted script.now }

    // Whatever the keeper is: a history over its hosts, with an entry for each of its faults.
    ensures hosts { IfOk result (λ ran. IsStrictlySortedBy text_cmp ran.report.hosts) }
    ensures history { IfOk result (λ ran. IsHistory script.entry.now
        ran.report.hosts ran.report.items ran.report.journal.list) }
    ensures count { IfOk result (λ ran. RoseTimes (faults_in ran.report.journal.list)
        (K.faults keeper) (K.faults ran.keeper)) }

    // A keeper that tells its rows, and doesn't fail: the history over these rows, and what it holds then.
    ensures over { IfOk result (λ ran. K.undisturbed ran.keeper → (rows : List RowData)
        → K.tells keeper rows → faults_in ran.report.journal.list ≡ 0
        → RanOver script.entry.now rows (K.tells ran.keeper)
        ran.report.hosts ran.report.items ran.report.journal.list) }

    ensures err { IfErr result (λ fail. FailsRun fail.refusal fail.journal.list
        (K.faults keeper) (K.faults fail.keeper)) }
    ensures since { MatchResult result (λ ran. K.undisturbed ran.keeper → K.undisturbed keeper)
        (λ fail. K.undisturbed fail.keeper → K.undisturbed keeper) }
{
    let Ok(suffixes) = script.suffixes.copy(alloc) else {
        return Err(no_run(alloc, keeper));
    };
    let callers = script.actors.len() as u32;
    match OwnJar::begin(alloc, keeper, suffixes, callers, script.limit, script.start) {
        Ok(opened) => play::<PlainJar, K>(alloc, script, opened),
        Err(fail) => Err(unopened(alloc, fail)),
    }
}

/// Nothing was run, since the jar wasn't opened.
fn unopened<K: Keeper + Drop>(alloc: Global, fail: BeginFail<K>) -> RunFail<K>
    ensures keeper { result.keeper ≡ fail.keeper }
    ensures none { result.journal.list ≡ [] }
    ensures refusal { result.refusal ≡ refusal_of fail.refusal }
{
    let refusal = match fail.refusal {
        BeginRefusal::StoreFault => RunRefusal::StoreFault,
        BeginRefusal::NoMemory => RunRefusal::NoMemory,
    };
    RunFail {
        keeper: fail.keeper,
        journal: Journal::new(alloc),
        refusal,
    }
}

/// Nothing was run, since memory was wanting.
fn no_run<K: Keeper + Drop>(alloc: Global, keeper: K) -> RunFail<K>
    ensures keeper { result.keeper ≡ keeper }
    ensures refusal { result.refusal ≡ WantOfMemory }
{
    RunFail {
        keeper,
        journal: Journal::new(alloc),
        refusal: RunRefusal::NoMemory,
    }
}

/// The report of a script over a jar that was opened by its rules.
fn play<C: JarCore + Drop, K: Keeper + Drop>(
    alloc: Global,
    script: &Script,
    opened: Opened<C, K>,
) -> Result<Ran<K>, RunFail<K>>
    requires admitted { IsAdmitted script.now }
    requires begins { BeginsPlay script.now opened.jar.vault.stored opened.jar.callers
        opened.jar.cells opened.jar.locked.jar opened.jar.vault.kept opened.passes.items }

    ensures hosts { IfOk result (λ ran. ran.report.hosts ≡ opened.jar.vault.stored.hosts) }
    ensures history { IfOk result (λ ran. IsHistory script.entry.now opened.jar.vault.stored.hosts
        ran.report.items ran.report.journal.list) }
    ensures count { IfOk result (λ ran. opened.jar.vault.starved ≡ false → RoseTimes
        (faults_in ran.report.journal.list) (K.faults opened.jar.vault.keeper) (K.faults ran.keeper)) }
    ensures over { IfOk result (λ ran. K.undisturbed ran.keeper → (rows : List RowData)
        → opened.jar.vault.stored.hosts ≡ hosts_of rows → K.tells opened.jar.vault.keeper rows
        → faults_in ran.report.journal.list ≡ 0
        → PlayedOver script.entry.now rows (K.tells ran.keeper)
        ran.report.items ran.report.journal.list) }

    ensures err { IfErr result (λ fail. fail.refusal ≡ WantOfMemory) }
    ensures since { MatchResult result
        (λ ran. K.undisturbed ran.keeper → K.undisturbed opened.jar.vault.keeper)
        (λ fail. K.undisturbed fail.keeper → K.undisturbed opened.jar.vault.keeper) }
{
    see_moments(script);
    let Opened {
        mut jar,
        passes,
        loader: _,
        committer: _,
    } = opened;
    match Players::of(alloc, script, passes) {
        Ok(mut players) => match all_rounds(alloc, &mut jar, &mut players, script) {
            Ok(()) => ended(jar, players),
            Err(NoMemory) => Err(failed(jar.finish(players.passes))),
        },
        Err(passes) => Err(failed(jar.finish(passes))),
    }
}

/// What a jar and its players came to behind the last commit: the report; but none where the vault is
/// starved.
fn ended<C: JarCore + Drop, K: Keeper + Drop>(
    jar: OwnJar<C, K>,
    players: Players,
) -> Result<Ran<K>, RunFail<K>>
    requires passes { AllByRecursion (IsCaller (vault.rules_of jar.vault.stored jar.callers
        jar.locked.jar.limit) jar.cells) players.passes }

    ensures hosts { IfOk result (λ ran. ran.report.hosts ≡ jar.vault.stored.hosts) }
    ensures items { IfOk result (λ ran. ran.report.items ≡ players.items) }
    ensures journal { IfOk result (λ ran. ran.report.journal.list ≡ journal_of jar.locked.jar.seen) }
    ensures fed { IfOk result (λ ran. jar.vault.starved ≡ false) }
    ensures keeper { IfOk result (λ ran. ran.keeper ≡ jar.vault.keeper) }

    ensures err { IfErr result (λ fail. fail.refusal ≡ WantOfMemory) }
    ensures back { IfErr result (λ fail. fail.keeper ≡ jar.vault.keeper) }
{
    let starved = jar.starved();
    let Players {
        passes,
        managers: _,
        items,
    } = players;
    let closed = jar.finish(passes);
    if starved {
        return Err(failed(closed));
    }
    let report = Report {
        hosts: closed.hosts,
        items: ItemLists::from_vec(items),
        journal: closed.journal,
    };
    Ok(Ran {
        report,
        keeper: closed.keeper,
    })
}

/// A jar was closed without a report, since memory was wanting.
fn failed<C: JarCore + Drop, K: Keeper + Drop>(closed: Closed<C, K>) -> RunFail<K>
    ensures keeper { result.keeper ≡ closed.keeper }
    ensures journal { result.journal.list ≡ closed.journal.list }
    ensures refusal { result.refusal ≡ WantOfMemory }
{
    RunFail {
        keeper: closed.keeper,
        journal: closed.journal,
        refusal: RunRefusal::NoMemory,
    }
}

/// The rounds of a run, up to the first behind which no turn is left, and the last commit.
fn all_rounds<C: JarCore + Drop, K: Keeper + Drop>(
    alloc: Global,
    jar: &mut OwnJar<C, K>,
    players: &mut Players,
    script: &Script,
) -> Result<(), NoMemory>
    requires admitted { IsAdmitted script.now }
    requires playing { ArePlaying script.now jar.old.vault.stored jar.old.callers
        jar.old.locked.jar.limit jar.old.cells players.old }
    requires begins { run_of jar.old.locked.jar jar.old.vault.kept players.old
        ≡ rounds script.now jar.old.vault.stored.hosts [] }

    ensures ends { OnOk result (Ends script.entry.now jar.old.vault.stored.hosts
        (run_of jar.new.locked.jar jar.new.vault.kept players.new)) }
    ensures over { OnOk result (K.undisturbed jar.new.vault.keeper → (rows : List RowData)
        → jar.old.vault.stored.hosts ≡ hosts_of rows → K.tells jar.old.vault.keeper rows
        → faults_in (journal_of jar.new.locked.jar.seen) ≡ 0
        → EndedOver script.entry.now rows (K.tells jar.new.vault.keeper)
        (run_of jar.new.locked.jar jar.new.vault.kept players.new)) }

    ensures since { K.undisturbed jar.new.vault.keeper → K.undisturbed jar.old.vault.keeper }
    ensures faults { CountsFaults jar.old.locked.jar jar.new.locked.jar
        (K.faults jar.old.vault.keeper) (K.faults jar.new.vault.keeper)
        jar.old.vault.starved jar.new.vault.starved }
    ensures playing { ArePlaying script.now jar.old.vault.stored jar.old.callers
        jar.old.locked.jar.limit jar.old.cells players.new }
    ensures same { (jar.new.vault.stored ≡ jar.old.vault.stored) × (jar.new.cells ≡ jar.old.cells)
        × (jar.new.callers ≡ jar.old.callers)
        × (jar.new.locked.jar.limit ≡ jar.old.locked.jar.limit) }
{
    one_round(alloc, jar, players, script)?;
    'rounds: while !is_done(script, players.items.as_slice()) {
        one_round(alloc, jar, players, script)?;
    }
    flush(alloc, jar, true)
}

/// Whether no turn of a script is left, where actors have these items.
fn is_done(script: &Script, items: &[Items]) -> bool
    requires { length items.now ≡ length script.now.actors }
    ensures { result ≡ (turns_left script.now.actors items.now == 0) }
{
    for (a, actor) in script.actors.as_slice().iter().enumerate() {
        let lead = if actor.view.is_some() { 1 } else { 0 };
        let done = items[a].len();
        if done < lead || done - lead < actor.steps.len() {
            return false;
        }
    }
    true
}

/// Each actor in order tries its next turn, then a key is loaded, then many changed rows are
/// committed.
fn one_round<C: JarCore + Drop, K: Keeper + Drop>(
    alloc: Global,
    jar: &mut OwnJar<C, K>,
    players: &mut Players,
    script: &Script,
) -> Result<(), NoMemory>
    requires admitted { IsAdmitted script.now }
    requires playing { ArePlaying script.now jar.old.vault.stored jar.old.callers
        jar.old.locked.jar.limit jar.old.cells players.old }

    ensures round { OnOk result (RoundBy script.entry.now jar.old.vault.stored.hosts
        (run_of jar.old.locked.jar jar.old.vault.kept players.old)
        (run_of jar.new.locked.jar jar.new.vault.kept players.new)) }
    ensures over { OnOk result (K.undisturbed jar.new.vault.keeper → (held : List RowData)
        → K.tells jar.old.vault.keeper held
        → faults_in (journal_of jar.new.locked.jar.seen) ≡ 0
        → RoundOver script.entry.now jar.old.vault.stored.hosts (K.tells jar.new.vault.keeper) held
        (run_of jar.old.locked.jar jar.old.vault.kept players.old)
        (run_of jar.new.locked.jar jar.new.vault.kept players.new)) }

    ensures since { K.undisturbed jar.new.vault.keeper → K.undisturbed jar.old.vault.keeper }
    ensures faults { CountsFaults jar.old.locked.jar jar.new.locked.jar
        (K.faults jar.old.vault.keeper) (K.faults jar.new.vault.keeper)
        jar.old.vault.starved jar.new.vault.starved }
    ensures playing { ArePlaying script.now jar.old.vault.stored jar.old.callers
        jar.old.locked.jar.limit jar.old.cells players.new }
    ensures same { (jar.new.vault.stored ≡ jar.old.vault.stored) × (jar.new.cells ≡ jar.old.cells)
        × (jar.new.callers ≡ jar.old.callers)
        × (jar.new.locked.jar.limit ≡ jar.old.locked.jar.limit) }
{
    try_all(alloc, jar, players, script)?;
    load_next(alloc, jar)?;
    flush(alloc, jar, false)
}

/// Each actor in order tries its next turn.
fn try_all<C: JarCore + Drop, K: Keeper + Drop>(
    alloc: Global,
    jar: &mut OwnJar<C, K>,
    players: &mut Players,
    script: &Script,
) -> Result<(), NoMemory>
    requires admitted { IsAdmitted script.now }
    requires playing { ArePlaying script.now jar.old.vault.stored jar.old.callers
        jar.old.locked.jar.limit jar.old.cells players.old }

    ensures tried { OnOk result (run_of jar.new.locked.jar jar.new.vault.kept players.new
        ≡ tried_first script.entry.now (length script.now.actors)
        (run_of jar.old.locked.jar jar.old.vault.kept players.old)) }

    ensures faults { CountsFaults jar.old.locked.jar jar.new.locked.jar
        (K.faults jar.old.vault.keeper) (K.faults jar.new.vault.keeper)
        jar.old.vault.starved jar.new.vault.starved }
    ensures playing { ArePlaying script.now jar.old.vault.stored jar.old.callers
        jar.old.locked.jar.limit jar.old.cells players.new }
    ensures same { (jar.new.vault ≡ jar.old.vault) × (jar.new.cells ≡ jar.old.cells)
        × (jar.new.callers ≡ jar.old.callers) × (jar.new.locked.jar.limit ≡ jar.old.locked.jar.limit) }
{
    'actors: for a in 0..script.actors.len() {
        try_next(alloc, jar, players, script, a)?;
    }
    Ok(())
}
