//! Entries of the journal as JSON.

ghost use Rattle.jar_types.specs.declared.entry.Entry.TheVariants.{Call};
ghost use Rattle.run_report.specs.Entries.{entry_data, entries_data};
ghost use Rattle.run_report.specs.Tokens.{WritesData};

use crate::member::{write_count, write_moment};
use crate::op::write_op;
use crate::own::write_own;
use crate::reply::write_reply;
use jar_types::{Entry, Op, Reply};
use jar_values::Moment;
use json::Writer;
use std::alloc::AllocError;

/// Writes the list of these entries.
pub fn write_entries(out: &mut Writer, entries: &[Entry]) -> Result<(), AllocError>
    ensures { WritesData result out.old out.new (entries_data entries.now) }
{
    out.begin_array()?;
    for entry in entries {
        write_entry(out, entry)?;
    }
    out.end_array()
}

/// Writes an entry.
fn write_entry(out: &mut Writer, entry: &Entry) -> Result<(), AllocError>
    ensures { WritesData result out.old out.new (entry_data entry.now) }
{
    match entry {
        Entry::Call {
            caller,
            now,
            op,
            reply,
        } => write_call(out, *caller, *now, op, reply),
        Entry::Jar(own) => write_own(out, own),
    }
}

/// Writes the entry of a caller's op.
fn write_call(
    out: &mut Writer,
    caller: u32,
    now: Moment,
    op: &Op,
    reply: &Reply,
) -> Result<(), AllocError>
    ensures { WritesData result out.old out.new (entry_data (Call caller now op.now reply.now)) }
{
    out.begin_object()?;
    write_count(out, "by", u64::from(caller))?;
    write_moment(out, "now", now)?;
    out.key("op")?;
    write_op(out, op)?;
    out.key("reply")?;
    write_reply(out, reply)?;
    out.end_object()?;
    Ok(())
}
