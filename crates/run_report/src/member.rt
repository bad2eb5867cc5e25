//! Members of objects, a name and a value each.

ghost use Rattle.std.specs.Prelude.{option_copied};
ghost use Rattle.serde_json.specs.Data.{string, boolean};
ghost use Rattle.run_report.specs.Values.{count_data, count_or_null, text_or_null};
ghost use Rattle.run_report.specs.Tokens.{WritesMember};

use jar_values::{Moment, Text};
use json::Writer;
use std::alloc::AllocError;

/// Writes a member that is a text.
pub fn write_text(out: &mut Writer, name: &str, text: &Text) -> Result<(), AllocError>
    ensures { WritesMember result out.old out.new name.now (string text.now) }
{
    out.key(name)?;
    out.string(text.as_str())
}

/// Writes a member that is a text, or null.
pub fn write_text_or_null(
    out: &mut Writer,
    name: &str,
    text: Option<&Text>,
) -> Result<(), AllocError>
    ensures { WritesMember result out.old out.new name.now (text_or_null (option_copied text.entry)) }
{
    out.key(name)?;
    match text {
        None => out.null(),
        Some(text) => out.string(text.as_str()),
    }
}

/// Writes a member that is a word.
pub fn write_word(out: &mut Writer, name: &str, word: &str) -> Result<(), AllocError>
    ensures { WritesMember result out.old out.new name.now (string word.now) }
{
    out.key(name)?;
    out.string(word)
}

/// Writes a member that is true or false.
pub fn write_flag(out: &mut Writer, name: &str, flag: bool) -> Result<(), AllocError>
    ensures { WritesMember result out.old out.new name.now (boolean flag) }
{
    out.key(name)?;
    out.boolean(flag)
}

/// Writes a member that is a whole number.
pub fn write_count(out: &mut Writer, name: &str, count: u64) -> Result<(), AllocError>
    ensures { WritesMember result out.old out.new name.now (count_data count) }
{
    out.key(name)?;
    out.u64(count)
}

/// Writes a member that is a whole number, or null.
pub fn write_count_or_null(
    out: &mut Writer,
    name: &str,
    count: Option<u64>,
) -> Result<(), AllocError>
    ensures { WritesMember result out.old out.new name.now (count_or_null count) }
{
    out.key(name)?;
    match count {
        None => out.null(),
        Some(count) => out.u64(count),
    }
}

/// Writes a member that is a moment, in milliseconds since 1970.
pub fn write_moment(out: &mut Writer, name: &str, moment: Moment) -> Result<(), AllocError>
    ensures { WritesMember result out.old out.new name.now (count_data moment) }
{
    out.key(name)?;
    out.u64(moment.ms())
}

/// Writes a member that is a moment, in milliseconds since 1970, or null.
pub fn write_moment_or_null(
    out: &mut Writer,
    name: &str,
    moment: Option<Moment>,
) -> Result<(), AllocError>
    ensures { WritesMember result out.old out.new name.now (count_or_null moment) }
{
    out.key(name)?;
    match moment {
        None => out.null(),
        Some(moment) => out.u64(moment.ms()),
    }
}
