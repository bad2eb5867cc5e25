//! Changes and their causes as JSON.

ghost use Rattle.std.specs.Prelude.{◌≡◌};
ghost use Rattle.run_report.specs.Changes.{cause_word, change_data, changes_data};
ghost use Rattle.run_report.specs.Tokens.{WritesData};

use crate::cookie::write_cookie;
use crate::member::write_word;
use jar_types::{Cause, Change};
use json::Writer;
use std::alloc::AllocError;

/// Writes the list of these changes.
pub fn write_changes(out: &mut Writer, changes: &[Change]) -> Result<(), AllocError>
    ensures { WritesData result out.old out.new (changes_data changes.now) }
{
    out.begin_array()?;
    for change in changes {
        write_change(out, change)?;
    }
    out.end_array()
}

/// Writes a change.
fn write_change(out: &mut Writer, change: &Change) -> Result<(), AllocError>
    ensures { WritesData result out.old out.new (change_data change.now) }
{
    out.begin_object()?;
    write_word(out, "cause", cause_word(change.cause))?;
    out.key("cookie")?;
    write_cookie(out, &change.cookie)?;
    out.end_object()?;
    Ok(())
}

/// The word of a cause.
fn cause_word(cause: Cause) -> &'static str
    ensures { result.now ≡ cause_word cause }
{
    match cause {
        Cause::Inserted => "inserted",
        Cause::Explicit => "explicit",
        Cause::Overwrite => "overwrite",
        Cause::Expired => "expired",
        Cause::Evicted => "evicted",
        Cause::ExpiredOverwrite => "expired_overwrite",
    }
}
