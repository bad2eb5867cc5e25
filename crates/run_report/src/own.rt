//! Entries of the jar's own as JSON.

ghost use Rattle.jar_types.specs.declared.entry.Own.TheVariants.{Loaded, Whole};
ghost use Rattle.run_report.specs.Owns.{keyed_data, kind_data, own_data, placed_data};
ghost use Rattle.run_report.specs.Tokens.{WritesData};

use crate::cookie::write_cookies;
use crate::member::{write_count, write_moment, write_text, write_word};
use jar_types::{Cookie, Own};
use jar_values::{Moment, Text};
use json::Writer;
use std::alloc::AllocError;

/// Writes an entry of the jar's own.
pub fn write_own(out: &mut Writer, own: &Own) -> Result<(), AllocError>
    ensures { WritesData result out.old out.new (own_data own.now) }
{
    match own {
        Own::Want(key) => write_keyed(out, key, "want"),
        Own::WantAll => write_own_kind(out, "want_all"),
        Own::Begun(key) => write_keyed(out, key, "begun"),
        Own::Loaded { key, cookies } => write_loaded(out, key, cookies.as_slice()),
        Own::Lost(key) => write_keyed(out, key, "lost"),
        Own::Whole(now) => write_whole(out, *now),
        Own::Taken => write_own_kind(out, "taken"),
        Own::Acked(place) => write_placed(out, "acked", *place),
        Own::CommitLost(place) => write_placed(out, "commit_lost", *place),
    }
}

/// Writes an entry that has nothing but its kind.
fn write_own_kind(out: &mut Writer, kind: &str) -> Result<(), AllocError>
    ensures { WritesData result out.old out.new (kind_data kind.now) }
{
    out.begin_object()?;
    write_word(out, "own", kind)?;
    out.end_object()
}

/// Writes an entry of this kind on a key.
fn write_keyed(out: &mut Writer, key: &Text, kind: &str) -> Result<(), AllocError>
    ensures { WritesData result out.old out.new (keyed_data key.now kind.now) }
{
    out.begin_object()?;
    write_text(out, "key", key)?;
    write_word(out, "own", kind)?;
    out.end_object()
}

/// Writes the entry of a load that ended with these cookies.
fn write_loaded(out: &mut Writer, key: &Text, cookies: &[Cookie]) -> Result<(), AllocError>
    ensures { WritesData result out.old out.new (own_data (Loaded key.now cookies.now)) }
{
    out.begin_object()?;
    out.key("cookies")?;
    write_cookies(out, cookies)?;
    write_text(out, "key", key)?;
    write_word(out, "own", "loaded")?;
    out.end_object()?;
    Ok(())
}

/// Writes the entry in which the jar became whole.
fn write_whole(out: &mut Writer, now: Moment) -> Result<(), AllocError>
    ensures { WritesData result out.old out.new (own_data (Whole now)) }
{
    out.begin_object()?;
    write_moment(out, "now", now)?;
    write_word(out, "own", "whole")?;
    out.end_object()?;
    Ok(())
}

/// Writes an entry of this kind on the batch that was taken at a place.
fn write_placed(out: &mut Writer, kind: &str, place: u64) -> Result<(), AllocError>
    ensures { WritesData result out.old out.new (placed_data kind.now place) }
{
    out.begin_object()?;
    write_word(out, "own", kind)?;
    write_count(out, "place", place)?;
    out.end_object()?;
    Ok(())
}
