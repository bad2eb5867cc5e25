//! The tries of an actor at its next turn.

ghost use Rattle.std.specs.Prelude.{◌≡◌, ◌<◌, None, IsSome, OnOk, true, length, nat_le, slice_index_or, option_copied};
ghost use Rattle.jar_types.specs.Journals.{is_well_keyed};
ghost use Rattle.script_text.specs.Admitted.{IsAdmitted};
ghost use Rattle.script_text.specs.declared.step.What.TheVariants as what;
ghost use Rattle.shared_jar.specs.Together.{IsCaller};
ghost use Rattle.store_vault.specs.Loading as vault;
ghost use Rattle.script_run.specs.Ask as asks;
ghost use Rattle.script_run.specs.Ask.{MayBeAsked};
ghost use Rattle.script_run.specs.Players.{ArePlaying, Decides, IsMeant, run_of};
ghost use Rattle.script_run.specs.Rounds.{rules_of};
ghost use Rattle.script_run.specs.Runs as spec;
ghost use Rattle.script_run.specs.Turns as turns;
ghost use Rattle.script_run.specs.Turns.{binds, does, view_at};
ghost use Rattle.shared_jar.specs.Faults.{CountsFaults};

use crate::ask::{Ask, ask_of};
use crate::players::Players;
use crate::purpose::{Purpose, Wanted};
use jar_keeper::Keeper;
use jar_types::{JarCore, Moment, NoMemory};
use locked_jar::CallRefusal;
use restricted_manager::{Manager, ReadTurn, ReadTurnRefusal};
use run_report::{Item, RefusalName};
use script_text::{Actor, Script, Step, What};
use shared_jar::OwnJar;
use site_match::Place;
use std::alloc::Global;
use version_cells::Pass;

/// An actor tries its next turn, where one is left: a renderer's first turn is its Bind.
///
/// Only want of memory refuses.
pub fn try_next<C: JarCore + Drop, K: Keeper + Drop>(
    alloc: Global,
    jar: &mut OwnJar<C, K>,
    players: &mut Players,
    script: &Script,
    a: usize,
) -> Result<(), NoMemory>
    requires admitted { IsAdmitted script.now }
    requires actor { a < length script.now.actors }
    requires playing { ArePlaying script.now jar.old.vault.stored jar.old.callers
        jar.old.locked.jar.limit jar.old.cells players.old }

    ensures tried { OnOk result (run_of jar.new.locked.jar jar.new.vault.kept players.new
        ≡ spec.tried script.entry.now a (run_of jar.old.locked.jar jar.old.vault.kept players.old)) }

    ensures playing { ArePlaying script.now jar.old.vault.stored jar.old.callers
        jar.old.locked.jar.limit jar.old.cells players.new }
    ensures same { (jar.new.vault ≡ jar.old.vault) × (jar.new.cells ≡ jar.old.cells)
        × (jar.new.callers ≡ jar.old.callers) × (jar.new.locked.jar.limit ≡ jar.old.locked.jar.limit) }
    ensures faults { CountsFaults jar.old.locked.jar jar.new.locked.jar
        (K.faults jar.old.vault.keeper) (K.faults jar.new.vault.keeper)
        jar.old.vault.starved jar.new.vault.starved }
{
    let Some(actor) = script.actors.get(a) else {
        return Ok(());
    };
    let done = players.items[a].len();
    let lead = lead_of(actor);
    if done < lead {
        return bind(alloc, jar, players, script, a);
    }
    match actor.steps.get(done - lead) {
        Some(step) => try_step(alloc, jar, players, script, a, step),
        None => Ok(()),
    }
}

/// How many turns an actor has before its first step: a renderer has its Bind.
fn lead_of(actor: &Actor) -> usize
    ensures { result ≡ turns.lead_of actor.now }
{
    if actor.view.is_some() { 1 } else { 0 }
}

/// A renderer binds its document's key, at the script's start.
fn bind<C: JarCore + Drop, K: Keeper + Drop>(
    alloc: Global,
    jar: &mut OwnJar<C, K>,
    players: &mut Players,
    script: &Script,
    a: usize,
) -> Result<(), NoMemory>
    requires actor { a < length script.now.actors }
    requires renders { IsSome (view_at script.now.actors a) }
    requires playing { ArePlaying script.now jar.old.vault.stored jar.old.callers
        jar.old.locked.jar.limit jar.old.cells players.old }

    ensures tried { OnOk result (run_of jar.new.locked.jar jar.new.vault.kept players.new
        ≡ spec.tried_turn script.entry.now a
        (run_of jar.old.locked.jar jar.old.vault.kept players.old) binds) }

    ensures playing { ArePlaying script.now jar.old.vault.stored jar.old.callers
        jar.old.locked.jar.limit jar.old.cells players.new }
    ensures same { (jar.new.vault ≡ jar.old.vault) × (jar.new.cells ≡ jar.old.cells)
        × (jar.new.callers ≡ jar.old.callers) × (jar.new.locked.jar.limit ≡ jar.old.locked.jar.limit) }
    ensures faults { CountsFaults jar.old.locked.jar jar.new.locked.jar
        (K.faults jar.old.vault.keeper) (K.faults jar.new.vault.keeper)
        jar.old.vault.starved jar.new.vault.starved }
{
    let wanted = Wanted {
        op: players.bind_op(alloc, a)?,
        now: script.start,
        why: Purpose::Bind,
    };
    call(alloc, jar, players, script, a, &wanted)
}

/// An actor tries a step.
fn try_step<C: JarCore + Drop, K: Keeper + Drop>(
    alloc: Global,
    jar: &mut OwnJar<C, K>,
    players: &mut Players,
    script: &Script,
    a: usize,
    step: &Step,
) -> Result<(), NoMemory>
    requires actor { a < length script.now.actors }
    requires asks { MayBeAsked (rules_of script.now jar.old.vault.stored.hosts)
        (asks.ask_of script.now.suffixes (view_at script.now.actors a) (does step.now)) }
    requires playing { ArePlaying script.now jar.old.vault.stored jar.old.callers
        jar.old.locked.jar.limit jar.old.cells players.old }

    ensures tried { OnOk result (run_of jar.new.locked.jar jar.new.vault.kept players.new
        ≡ spec.tried_turn script.entry.now a
        (run_of jar.old.locked.jar jar.old.vault.kept players.old) (does step.entry.now)) }

    ensures playing { ArePlaying script.now jar.old.vault.stored jar.old.callers
        jar.old.locked.jar.limit jar.old.cells players.new }
    ensures same { (jar.new.vault ≡ jar.old.vault) × (jar.new.cells ≡ jar.old.cells)
        × (jar.new.callers ≡ jar.old.callers) × (jar.new.locked.jar.limit ≡ jar.old.locked.jar.limit) }
    ensures faults { CountsFaults jar.old.locked.jar jar.new.locked.jar
        (K.faults jar.old.vault.keeper) (K.faults jar.new.vault.keeper)
        jar.old.vault.starved jar.new.vault.starved }
{
    if let What::Read { url } = &step.what {
        return read(alloc, jar, players, script, a, url.as_ref(), step.now);
    }
    match ask_of(alloc, &script.suffixes, &players.managers[a], step)? {
        Ask::Op(op) => {
            let wanted = Wanted {
                op,
                now: step.now,
                why: Purpose::Call,
            };
            call(alloc, jar, players, script, a, &wanted)
        }
        Ask::Refused(name) => players.note(a, Item::Refused { name }),
    }
}

/// A renderer reads the cookies of a URL, or of its document where none is given: it uses the text
/// again that it keeps, or asks the jar.
fn read<C: JarCore + Drop, K: Keeper + Drop>(
    alloc: Global,
    jar: &mut OwnJar<C, K>,
    players: &mut Players,
    script: &Script,
    a: usize,
    url: Option<&Place>,
    now: Moment,
) -> Result<(), NoMemory>
    requires actor { a < length script.now.actors }
    requires renders { IsSome (view_at script.now.actors a) }
    requires playing { ArePlaying script.now jar.old.vault.stored jar.old.callers
        jar.old.locked.jar.limit jar.old.cells players.old }

    ensures tried { OnOk result (run_of jar.new.locked.jar jar.new.vault.kept players.new
        ≡ spec.tried_turn script.entry.now a
        (run_of jar.old.locked.jar jar.old.vault.kept players.old)
        (does (record { now = now; what = what.Read (option_copied url.entry) }))) }

    ensures playing { ArePlaying script.now jar.old.vault.stored jar.old.callers
        jar.old.locked.jar.limit jar.old.cells players.new }
    ensures same { (jar.new.vault ≡ jar.old.vault) × (jar.new.cells ≡ jar.old.cells)
        × (jar.new.callers ≡ jar.old.callers) × (jar.new.locked.jar.limit ≡ jar.old.locked.jar.limit) }
    ensures faults { CountsFaults jar.old.locked.jar jar.new.locked.jar
        (K.faults jar.old.vault.keeper) (K.faults jar.new.vault.keeper)
        jar.old.vault.starved jar.new.vault.starved }
{
    let Some(manager) = &players.managers[a] else {
        unreachable!()
    };
    match find(alloc, jar, &mut players.passes[a], manager, url, now) {
        Ok(ReadTurn::Reused(text)) => players.note(a, Item::Reused { text }),
        Ok(ReadTurn::Ask { op, cause }) => {
            let wanted = Wanted {
                op,
                now,
                why: Purpose::Read(cause),
            };
            call(alloc, jar, players, script, a, &wanted)
        }
        Err(ReadTurnRefusal::OriginMismatch) => {
            let name = RefusalName::OriginMismatch;
            players.note(a, Item::Refused { name })
        }
        Err(ReadTurnRefusal::NoMemory) => Err(NoMemory),
    }
}

/// How a renderer's read goes on. Its pass sees the whole history before the one look and behind it,
/// so that the look finds just the version that the jar has.
fn find<C: JarCore + Drop, K: Keeper + Drop>(
    alloc: Global,
    jar: &mut OwnJar<C, K>,
    pass: &mut Pass,
    manager: &Manager,
    url: Option<&Place>,
    now: Moment,
) -> Result<ReadTurn, ReadTurnRefusal>
    requires pass { IsCaller (vault.rules_of jar.old.vault.stored jar.old.callers
        jar.old.locked.jar.limit) jar.old.cells pass.old }

    ensures decides { Decides jar.old.locked.jar.state now manager.now (option_copied url.entry) result }

    ensures pass { IsCaller (vault.rules_of jar.old.vault.stored jar.old.callers
        jar.old.locked.jar.limit) jar.old.cells pass.new }
    ensures number { pass.new.view.number ≡ pass.old.view.number }
    ensures same { (jar.new.locked.jar ≡ jar.old.locked.jar) × (jar.new.vault ≡ jar.old.vault)
        × (jar.new.cells ≡ jar.old.cells) × (jar.new.callers ≡ jar.old.callers) }
{
    jar.meet(pass);
    let turn = manager.begin_read(alloc, jar.cells(), pass, url, now);
    jar.meet(pass);
    turn
}

/// An actor makes a call, unless callers have as many entries as they may, or it waits.
fn call<C: JarCore + Drop, K: Keeper + Drop>(
    alloc: Global,
    jar: &mut OwnJar<C, K>,
    players: &mut Players,
    script: &Script,
    a: usize,
    wanted: &Wanted,
) -> Result<(), NoMemory>
    requires actor { a < length script.now.actors }
    requires keyed { is_well_keyed (rules_of script.now jar.old.vault.stored.hosts) wanted.now.op ≡ true }
    requires meant { IsMeant wanted.now.why wanted.now.op
        (slice_index_or players.old.managers a None) }
    requires playing { ArePlaying script.now jar.old.vault.stored jar.old.callers
        jar.old.locked.jar.limit jar.old.cells players.old }

    ensures called { OnOk result (run_of jar.new.locked.jar jar.new.vault.kept players.new
        ≡ spec.called_within (nat_le script.entry.now.limit jar.old.locked.jar.state.calls) a
        (run_of jar.old.locked.jar jar.old.vault.kept players.old)
        wanted.entry.now.now wanted.entry.now.op wanted.entry.now.why) }

    ensures playing { ArePlaying script.now jar.old.vault.stored jar.old.callers
        jar.old.locked.jar.limit jar.old.cells players.new }
    ensures same { (jar.new.vault ≡ jar.old.vault) × (jar.new.cells ≡ jar.old.cells)
        × (jar.new.callers ≡ jar.old.callers) × (jar.new.locked.jar.limit ≡ jar.old.locked.jar.limit) }
    ensures faults { CountsFaults jar.old.locked.jar jar.new.locked.jar
        (K.faults jar.old.vault.keeper) (K.faults jar.new.vault.keeper)
        jar.old.vault.starved jar.new.vault.starved }
{
    match jar.call(alloc, &mut players.passes[a], &wanted.op, wanted.now) {
        Ok(receipt) => players.answer(alloc, a, wanted.why, &receipt),
        Err(CallRefusal::Spent) => {
            let name = RefusalName::Spent;
            players.note(a, Item::Refused { name })
        }
        Err(CallRefusal::Pending(_) | CallRefusal::NotYet { .. }) => Ok(()),
        Err(CallRefusal::NoMemory) => Err(NoMemory),
    }
}
