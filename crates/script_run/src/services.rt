//! How the keeper serves a run: one load and one commit after the tries of a round.

ghost use Rattle.std.specs.Prelude.{◌≡◌, List, OnOk, true};
ghost use Rattle.jar_keeper.specs.Keepers.{TellsSame};
ghost use Rattle.jar_types.specs.declared.row.Row.{Row as RowData};
ghost use Rattle.script_text.specs.declared.script.Script.{Script as ScriptData};
ghost use Rattle.shared_jar.specs.Faults.{CountsFaults, faults_in};
ghost use Rattle.store_vault.specs.Loading as vault;
ghost use Rattle.script_run.specs.Players.{PlayersStanding, run_of};
ghost use Rattle.script_run.specs.Rounds.{flushed, gives_of, held_where, is_due, loaded, rules_of};
ghost use Rattle.script_run.specs.Services.{FlushedBy, LoadedBy};

use jar_keeper::Keeper;
use jar_types::{JarCore, NoMemory};
use shared_jar::OwnJar;
use std::alloc::Global;
use store_vault::{FlushRefusal, LoadRefusal};

/// One key is loaded, host after host, or the jar becomes whole, where something is left to load.
///
/// A load that fails is noted as lost. Only want of memory refuses, and more loads and commits than
/// there may be.
pub fn load_next<C: JarCore + Drop, K: Keeper + Drop>(
    alloc: Global,
    jar: &mut OwnJar<C, K>,
) -> Result<(), NoMemory>
    ensures loaded { OnOk result ((script : ScriptData) (players : PlayersStanding)
        → vault.rules_of jar.old.vault.stored jar.old.callers jar.old.locked.jar.limit
        ≡ rules_of script jar.old.vault.stored.hosts
        → LoadedBy (rules_of script jar.old.vault.stored.hosts) script.start
        (run_of jar.old.locked.jar jar.old.vault.kept players)
        (run_of jar.new.locked.jar jar.new.vault.kept players)) }
    ensures over { OnOk result ((script : ScriptData) (players : PlayersStanding)
        → vault.rules_of jar.old.vault.stored jar.old.callers jar.old.locked.jar.limit
        ≡ rules_of script jar.old.vault.stored.hosts
        → K.undisturbed jar.new.vault.keeper → (held : List RowData)
        → K.tells jar.old.vault.keeper held
        → faults_in (run_of jar.new.locked.jar jar.new.vault.kept players).journal ≡ 0
        → run_of jar.new.locked.jar jar.new.vault.kept players
        ≡ loaded script.start (gives_of (rules_of script jar.old.vault.stored.hosts) held)
        (run_of jar.old.locked.jar jar.old.vault.kept players)) }

    ensures told { TellsSame (K.tells jar.old.vault.keeper) (K.tells jar.new.vault.keeper) }
    ensures since { K.undisturbed jar.new.vault.keeper → K.undisturbed jar.old.vault.keeper }
    ensures faults { CountsFaults jar.old.locked.jar jar.new.locked.jar
        (K.faults jar.old.vault.keeper) (K.faults jar.new.vault.keeper)
        jar.old.vault.starved jar.new.vault.starved }
    ensures same { (jar.new.vault.stored ≡ jar.old.vault.stored) × (jar.new.cells ≡ jar.old.cells)
        × (jar.new.callers ≡ jar.old.callers)
        × (jar.new.locked.jar.limit ≡ jar.old.locked.jar.limit) }
{
    match jar.load_next(alloc) {
        Ok(_) | Err(LoadRefusal::StoreFault) => Ok(()),
        Err(LoadRefusal::NoMemory | LoadRefusal::Spent) => Err(NoMemory),
    }
}

/// The changed rows are committed, where a batch is due: with force where a row changed or the last
/// batch was lost, and else where enough rows changed too.
///
/// A commit that fails is noted as lost, and the changes are kept for the next. Only want of memory
/// refuses, and more loads and commits than there may be.
pub fn flush<C: JarCore + Drop, K: Keeper + Drop>(
    alloc: Global,
    jar: &mut OwnJar<C, K>,
    force: bool,
) -> Result<(), NoMemory>
    ensures flushed { OnOk result ((players : PlayersStanding) → FlushedBy force
        (run_of jar.old.locked.jar jar.old.vault.kept players)
        (run_of jar.new.locked.jar jar.new.vault.kept players)) }
    ensures over { OnOk result ((players : PlayersStanding)
        → faults_in (run_of jar.new.locked.jar jar.new.vault.kept players).journal ≡ 0
        → run_of jar.new.locked.jar jar.new.vault.kept players
        ≡ flushed force true (run_of jar.old.locked.jar jar.old.vault.kept players)) }

    ensures told { OnOk result ((players : PlayersStanding) (held : List RowData)
        → K.tells jar.old.vault.keeper held
        → faults_in (run_of jar.new.locked.jar jar.new.vault.kept players).journal ≡ 0
        → K.tells jar.new.vault.keeper
        (held_where (is_due force (run_of jar.old.locked.jar jar.old.vault.kept players))
        (run_of jar.old.locked.jar jar.old.vault.kept players) held)) }
    ensures since { K.undisturbed jar.new.vault.keeper → K.undisturbed jar.old.vault.keeper }
    ensures faults { CountsFaults jar.old.locked.jar jar.new.locked.jar
        (K.faults jar.old.vault.keeper) (K.faults jar.new.vault.keeper)
        jar.old.vault.starved jar.new.vault.starved }
    ensures same { (jar.new.vault.stored ≡ jar.old.vault.stored) × (jar.new.cells ≡ jar.old.cells)
        × (jar.new.callers ≡ jar.old.callers)
        × (jar.new.locked.jar.limit ≡ jar.old.locked.jar.limit) }
{
    match jar.flush(alloc, force) {
        Ok(_) | Err(FlushRefusal::StoreFault) => Ok(()),
        Err(FlushRefusal::NoMemory | FlushRefusal::Spent) => Err(NoMemory),
    }
}
