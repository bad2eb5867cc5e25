//! Who plays the actors of a script.

ghost use Rattle.std.specs.Prelude.{◌≡◌, ◌<◌, ◌++◌, ◌∷◌, [], None, IfOk, IfSome, IsSome, MatchResult, OnOk, length, map, replicate, slice_index_or, slice_set};
ghost use Rattle.restricted_manager.specs.Requests.{bind_of};
ghost use Rattle.script_run.specs.Players.{MayMean, holding_of, sight, view_of, with_item};
ghost use Rattle.script_run.specs.Reads as reads;
ghost use Rattle.script_run.specs.Reads.{holding_then, nothing};
ghost use Rattle.script_run.specs.Runs as spec;

use crate::purpose::Purpose;
use jar_types::{AskCause, NoMemory, Op, Reply};
use locked_jar::Receipt;
use restricted_manager::Manager;
use run_report::{Item, Items};
use script_text::{Actor, Script};
use std::alloc::Global;
use std::marker::Model;
use version_cells::Pass;

/// The players of a script's actors, in their order: the pass of each to the jar, its manager where
/// it renders, and an item for each turn that it has done.
#[derive(Drop)]
pub struct Players {
    pub passes: Vec<Pass>,
    pub managers: Vec<Option<Manager>>,
    pub items: Vec<Items>,
}

impl Model for Players {
    ghost use Rattle.script_run.specs.Players.{PlayersStanding};

    ghost Value = { PlayersStanding };

    ghost view = { λ p. record {
      passes = p.passes.items;
      managers = p.managers.items;
      items = p.items.items;
    } };
}

impl Players {
    /// The players of a script's actors, who have done nothing, with these passes.
    ///
    /// Only want of memory refuses, and then the passes are handed back.
    pub fn of(alloc: Global, script: &Script, passes: Vec<Pass>) -> Result<Players, Vec<Pass>>
        ensures passes { MatchResult result (λ players. players.passes ≡ passes.items)
            (λ back. back.items ≡ passes.items) }
        ensures items { IfOk result (λ players. players.items
            ≡ replicate (length script.now.actors) []) }
        ensures holdings { IfOk result (λ players. map holding_of players.managers
            ≡ replicate (length script.now.actors) nothing) }
        ensures views { IfOk result (λ players. map view_of players.managers
            ≡ map sight script.now.actors) }
    {
        match (
            no_items(alloc, script.actors.len()),
            managers_of(alloc, script.actors.as_slice()),
        ) {
            (Ok(items), Ok(managers)) => Ok(Players {
                passes,
                managers,
                items,
            }),
            _ => Err(passes),
        }
    }

    /// Notes the item of an actor's next turn.
    ///
    /// Only want of memory refuses. Passes and managers stay.
    pub fn note(&mut self, a: usize, item: Item) -> Result<(), NoMemory>
        requires { a < length self.old.items }
        ensures noted { OnOk result (self.new ≡ with_item self.old a item) }
        ensures passes { self.new.passes ≡ self.old.passes }
        ensures managers { self.new.managers ≡ self.old.managers }
        ensures many { length self.new.items ≡ length self.old.items }
    {
        self.items[a].push(item)
    }

    /// The op by which a renderer binds its document's key.
    ///
    /// Only want of memory refuses.
    pub fn bind_op(&self, alloc: Global, a: usize) -> Result<Op, NoMemory>
        requires { IsSome (slice_index_or self.now.managers a None) }
        ensures { IfOk result (λ op. IfSome (slice_index_or self.now.managers a None) (λ m. op ≡ bind_of m)) }
    {
        match &self.managers[a] {
            Some(manager) => manager.bind_op(alloc),
            None => unreachable!(),
        }
    }

    /// Notes the item of an actor's call, by its purpose, and gives its manager what the reply says.
    ///
    /// Only want of memory refuses. Passes stay, and what the actors see.
    pub fn answer(
        &mut self,
        alloc: Global,
        a: usize,
        why: Purpose,
        receipt: &Receipt,
    ) -> Result<(), NoMemory>
        requires actor { a < length self.old.items }
        requires same { length self.old.managers ≡ length self.old.items }
        requires means { MayMean why receipt.now.reply (slice_index_or self.old.managers a None) }

        ensures items { OnOk result (self.new.items ≡ slice_set self.old.items a
            (slice_index_or self.old.items a [] ++ spec.item_of why receipt.now.place ∷ [])) }
        ensures holdings { OnOk result (map holding_of self.new.managers
            ≡ slice_set (map holding_of self.old.managers) a (holding_then why receipt.now.reply
            (slice_index_or (map holding_of self.old.managers) a nothing))) }

        ensures passes { self.new.passes ≡ self.old.passes }
        ensures views { map view_of self.new.managers ≡ map view_of self.old.managers }
        ensures many { length self.new.items ≡ length self.old.items }
    {
        self.note(a, item_of(why, receipt.place))?;
        tell(alloc, &mut self.managers[a], why, &receipt.reply)
    }
}

/// The item of a call for a purpose, whose entry has this place.
fn item_of(why: Purpose, place: u64) -> Item
    ensures { result ≡ spec.item_of why place }
{
    match why {
        Purpose::Call | Purpose::Bind => Item::At { place },
        Purpose::Read(cause) => Item::Asked { place, cause },
    }
}

/// Gives a manager what the reply to a call for a purpose says: the cell that is bound, or the answer
/// to a read of its document's URL.
///
/// Only want of memory refuses. What is seen stays.
fn tell(
    alloc: Global,
    manager: &mut Option<Manager>,
    why: Purpose,
    reply: &Reply,
) -> Result<(), NoMemory>
    requires means { MayMean why reply.now manager.old }
    ensures holds { OnOk result (holding_of manager.new
        ≡ holding_then why reply.now (holding_of manager.old)) }
    ensures sees { view_of manager.new ≡ view_of manager.old }
{
    let Some(manager) = manager else {
        return Ok(());
    };
    match why {
        Purpose::Call => Ok(()),
        Purpose::Bind => {
            manager.bound(cell_in(reply));
            Ok(())
        }
        Purpose::Read(cause) => {
            if is_own_read(cause) {
                manager.end_read(alloc, None, reply)
            } else {
                Ok(())
            }
        }
    }
}

/// Whether a read for this cause is of the document's URL.
fn is_own_read(cause: AskCause) -> bool
    ensures { result ≡ reads.is_own_read cause }
{
    !matches!(cause, AskCause::Other)
}

/// The cell that a reply binds, where it is that of a Bind.
fn cell_in(reply: &Reply) -> Option<u32>
    ensures { result ≡ reads.cell_in reply.now }
{
    match reply {
        Reply::Cell(cell) => *cell,
        _ => None,
    }
}

/// That many lists without an item.
fn no_items(alloc: Global, count: usize) -> Result<Vec<Items>, NoMemory>
    ensures { IfOk result (λ lists. lists.items ≡ replicate count []) }
{
    let mut lists = Vec::new(alloc);
    'lists: for _ in 0..count {
        lists.push(Items::new(alloc))?;
    }
    Ok(lists)
}

/// The managers of these actors: one for each that renders.
fn managers_of(alloc: Global, actors: &[Actor]) -> Result<Vec<Option<Manager>>, NoMemory>
    ensures holdings { IfOk result (λ managers. map holding_of managers.items
        ≡ replicate (length actors.now) nothing) }
    ensures views { IfOk result (λ managers. map view_of managers.items ≡ map sight actors.now) }
{
    let mut managers = Vec::new(alloc);
    'actors: for actor in actors {
        managers.push(manager_of(alloc, actor)?)?;
    }
    Ok(managers)
}

/// The manager of an actor, where it renders.
fn manager_of(alloc: Global, actor: &Actor) -> Result<Option<Manager>, NoMemory>
    ensures holds { IfOk result (λ manager. holding_of manager ≡ nothing) }
    ensures sees { IfOk result (λ manager. view_of manager ≡ sight actor.now) }
{
    let Some((document, site)) = &actor.view else {
        return Ok(None);
    };
    let site = match site {
        Some(site) => Some(site.copy(alloc)?),
        None => None,
    };
    Ok(Some(Manager::make(alloc, document.copy(alloc)?, site)?))
}
