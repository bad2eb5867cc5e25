//! Replies as JSON: a word, true or false, or an object.

ghost use Rattle.jar_types.specs.declared.op.Reply.TheVariants.{Cell, Cookies, Script, Changes};
ghost use Rattle.run_report.specs.Values.{count_data, sole};
ghost use Rattle.run_report.specs.Replies.{reply_data};
ghost use Rattle.run_report.specs.Tokens.{WritesData};

use crate::change::write_changes;
use crate::cookie::write_cookies;
use crate::member::{write_count, write_count_or_null, write_text};
use jar_types::{Change, Cookie, Reply};
use jar_values::Text;
use json::Writer;
use std::alloc::AllocError;

/// Writes a reply.
pub fn write_reply(out: &mut Writer, reply: &Reply) -> Result<(), AllocError>
    ensures { WritesData result out.old out.new (reply_data reply.now) }
{
    match reply {
        Reply::Cell(cell) => write_cell(out, *cell),
        Reply::Stored => out.string("stored"),
        Reply::Replaced => out.string("replaced"),
        Reply::Removed => out.string("removed"),
        Reply::NothingThere => out.string("nothing_there"),
        Reply::OverwriteSecure => out.string("overwrite_secure"),
        Reply::OverwriteHttpOnly => out.string("overwrite_http_only"),
        Reply::Cookies(cookies) => write_got(out, cookies.as_slice()),
        Reply::Script {
            text,
            version,
            until,
        } => write_script(out, text, *version, *until),
        Reply::Flag(flag) => out.boolean(*flag),
        Reply::Count(count) => write_sole_count(out, "count", *count),
        Reply::Listener(number) => write_sole_count(out, "listener", *number),
        Reply::Changes(changes) => write_taken(out, changes.as_slice()),
        Reply::NoListener => out.string("no_listener"),
        Reply::Posted(count) => write_sole_count(out, "post", *count),
        Reply::Heard => out.string("heard"),
        Reply::StoreFault => out.string("store_fault"),
    }
}

/// Writes the reply that names the cell of a key, or none.
fn write_cell(out: &mut Writer, cell: Option<u32>) -> Result<(), AllocError>
    ensures { WritesData result out.old out.new (reply_data (Cell cell)) }
{
    out.begin_object()?;
    out.key("cell")?;
    match cell {
        None => out.null()?,
        Some(cell) => out.u64(u64::from(cell))?,
    }
    out.end_object()
}

/// Writes the reply that has the cookies of a request of HTTP.
fn write_got(out: &mut Writer, cookies: &[Cookie]) -> Result<(), AllocError>
    ensures { WritesData result out.old out.new (reply_data (Cookies cookies.now)) }
{
    out.begin_object()?;
    out.key("cookies")?;
    write_cookies(out, cookies)?;
    out.end_object()?;
    Ok(())
}

/// Writes the reply to a request of a script: the text of the cookies, the version of the key's
/// cell, and until when, in milliseconds since 1970, the text may be kept.
fn write_script(
    out: &mut Writer,
    text: &Text,
    version: Option<u64>,
    until: u64,
) -> Result<(), AllocError>
    ensures { WritesData result out.old out.new (reply_data (Script text.now version until)) }
{
    out.begin_object()?;
    write_text(out, "text", text)?;
    write_count(out, "until", until)?;
    write_count_or_null(out, "version", version)?;
    out.end_object()?;
    Ok(())
}

/// Writes the reply that has the changes of a listener.
fn write_taken(out: &mut Writer, changes: &[Change]) -> Result<(), AllocError>
    ensures { WritesData result out.old out.new (reply_data (Changes changes.now)) }
{
    out.begin_object()?;
    out.key("changes")?;
    write_changes(out, changes)?;
    out.end_object()?;
    Ok(())
}

/// Writes a reply that has one whole number.
fn write_sole_count(out: &mut Writer, name: &str, count: u64) -> Result<(), AllocError>
    ensures { WritesData result out.old out.new (sole name.now (count_data count)) }
{
    out.begin_object()?;
    write_count(out, name, count)?;
    out.end_object()
}
