//! Items: what a report says of each step.

ghost use Rattle.jar_types.specs.declared.ask_cause.AskCause.TheVariants.{Late, Moved};
ghost use Rattle.run_report.specs.declared.item.Item.TheVariants.{At, Reused, Refused};
ghost use Rattle.run_report.specs.Items.{cause_data, item_data, items_data, item_lists_data, asked_data};
ghost use Rattle.run_report.specs.Tokens.{WritesData};

use crate::member::{write_count, write_text, write_word};
use crate::refusal_name::RefusalName;
use jar_types::AskCause;
use jar_values::{Listed, Text};
use json::Writer;
use std::alloc::AllocError;

/// The item of a step. Places are those of entries in the journal, counted from 1.
///
/// This jar's own rule: docs/DEFINITIONS.md.
#[derive(Drop)]
pub enum Item {
    /// The step, which is no read, made the entry at this place.
    At { place: u64 },
    /// A read asked the jar for this cause, and made the entry at this place.
    Asked { place: u64, cause: AskCause },
    /// A read used again this text, which was kept, and made no entry.
    Reused { text: Text },
    /// The step made no entry for this reason.
    Refused { name: RefusalName },
}

/// The items of one actor, in the order of its steps, seen as their list.
pub type Items = Listed<Item>;

/// A list of items for each actor, seen as the list of these lists.
pub type ItemLists = Listed<Items>;

/// Writes the list of these lists of items.
pub fn write_item_lists(out: &mut Writer, lists: &[Items]) -> Result<(), AllocError>
    ensures { WritesData result out.old out.new (item_lists_data lists.now) }
{
    out.begin_array()?;
    for items in lists {
        write_items(out, items.as_slice())?;
    }
    out.end_array()
}

/// Writes the list of these items.
fn write_items(out: &mut Writer, items: &[Item]) -> Result<(), AllocError>
    ensures { WritesData result out.old out.new (items_data items.now) }
{
    out.begin_array()?;
    for item in items {
        write_item(out, item)?;
    }
    out.end_array()
}

/// Writes an item.
fn write_item(out: &mut Writer, item: &Item) -> Result<(), AllocError>
    ensures { WritesData result out.old out.new (item_data item.now) }
{
    match item {
        Item::At { place } => write_at(out, *place),
        Item::Asked { place, cause } => write_asked(out, *place, *cause),
        Item::Reused { text } => write_reused(out, text),
        Item::Refused { name } => write_refused(out, *name),
    }
}

/// Writes the item of a step that made the entry at this place.
fn write_at(out: &mut Writer, place: u64) -> Result<(), AllocError>
    ensures { WritesData result out.old out.new (item_data (At place)) }
{
    out.begin_object()?;
    write_count(out, "at", place)?;
    out.end_object()
}

/// Writes the item of a read that asked for this cause, and made the entry at this place.
fn write_asked(out: &mut Writer, place: u64, cause: AskCause) -> Result<(), AllocError>
    ensures { WritesData result out.old out.new (asked_data place cause) }
{
    match cause {
        AskCause::Other => write_cause(out, place, "other"),
        AskCause::NoCell => write_cause(out, place, "no_cell"),
        AskCause::Cold => write_cause(out, place, "cold"),
        AskCause::Late { until } => write_late(out, place, until),
        AskCause::Moved { kept, found } => write_moved(out, place, kept, found),
    }
}

/// Writes the item of a read that asked for a cause of which there is no more to say than its word.
fn write_cause(out: &mut Writer, place: u64, cause: &str) -> Result<(), AllocError>
    ensures { WritesData result out.old out.new (cause_data place cause.now) }
{
    out.begin_object()?;
    write_count(out, "at", place)?;
    write_word(out, "cause", cause)?;
    out.end_object()
}

/// Writes the item of a read that asked since what was kept was right until this moment only, in
/// milliseconds since 1970.
fn write_late(out: &mut Writer, place: u64, until: u64) -> Result<(), AllocError>
    ensures { WritesData result out.old out.new (asked_data place (Late until)) }
{
    out.begin_object()?;
    write_count(out, "at", place)?;
    write_word(out, "cause", "late")?;
    write_count(out, "until", until)?;
    out.end_object()?;
    Ok(())
}

/// Writes the item of a read that asked since the version that it kept isn't the one that it found.
fn write_moved(out: &mut Writer, place: u64, kept: u64, found: u64) -> Result<(), AllocError>
    ensures { WritesData result out.old out.new (asked_data place (Moved kept found)) }
{
    out.begin_object()?;
    write_count(out, "at", place)?;
    write_word(out, "cause", "moved")?;
    write_count(out, "found", found)?;
    write_count(out, "kept", kept)?;
    out.end_object()?;
    Ok(())
}

/// Writes the item of a read that used again this text.
fn write_reused(out: &mut Writer, text: &Text) -> Result<(), AllocError>
    ensures { WritesData result out.old out.new (item_data (Reused text.now)) }
{
    out.begin_object()?;
    write_text(out, "reused", text)?;
    out.end_object()
}

/// Writes the item of a step that was refused by this name.
fn write_refused(out: &mut Writer, name: RefusalName) -> Result<(), AllocError>
    ensures { WritesData result out.old out.new (item_data (Refused name)) }
{
    out.begin_object()?;
    write_word(out, "refused", name.word())?;
    out.end_object()
}
