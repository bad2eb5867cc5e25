//! Set-Cookie lines.

ghost use Rattle.std.specs.Prelude.{◌≡◌, IfOk, option_copied, option_map};
ghost use Rattle.std.specs.List.{list_any};
ghost use Rattle.std.specs.Str.{str_to_ascii_lowercase};
ghost use Rattle.jar_values.specs.Bytes.{is_control};
ghost use Rattle.set_cookie_line.specs.Cut as cut_spec;
ghost use Rattle.set_cookie_line.specs.Kept.{kept_view};
ghost use Rattle.set_cookie_line.specs.Line as spec;

use crate::blanks::trim;
use crate::cut::cut;
use crate::kept::{Kept, attributes_between, no_attributes};
use jar_values::{MAX_PAIR_BYTES, Moment, NoMemory, Priority, SameSite, Text, is_control};
use std::alloc::Global;
use std::error::Error;
use std::fmt;

/// Why a line is refused, in the order in which the causes apply.
#[derive(Clone, Copy, Debug, PartialEq, Eq)]
pub enum LineRefusal {
    /// The line has a byte of 00 to 08, 0A to 1F or 7F.
    Control,
    /// Both the name and the value are empty.
    Empty,
    /// The name and the value have more than [`MAX_PAIR_BYTES`] together.
    TooLong,
    /// Memory was wanting.
    NoMemory,
}

/// The parts of a Set-Cookie line.
///
/// The domain has small ASCII letters and no dot in front. `max_age` is in seconds.
///
/// The 6265bis draft, section 5.6.
#[derive(Drop)]
pub struct Line {
    pub name: Text,
    pub value: Text,
    pub domain: Option<Text>,
    pub path: Option<Text>,
    pub expires: Option<Moment>,
    pub max_age: Option<u32>,
    pub secure: bool,
    pub http_only: bool,
    pub same_site: SameSite,
    pub priority: Priority,
}

/// Reads a Set-Cookie line.
///
/// Refusals, in this order: a control byte other than the tab; neither a name nor a value; more
/// than [`MAX_PAIR_BYTES`] of name and value; want of memory.
///
/// The 6265bis draft, section 5.6.
#[tactic(auto, unfolding(crate::specs::Line::read_line))]
pub fn read_line(alloc: Global, line: &str) -> Result<Line, LineRefusal>
    ensures { spec.Reads line.now result }
{
    let (pair, rest) = cut(line, ';');
    let (name, value) = pair_parts(pair);
    if let Some(refusal) = first_refusal(line, name, value) {
        return Err(refusal);
    }
    Ok(line_of(alloc, name, value, attributes_after(rest))?)
}

/// The name and the value of a line's pair.
fn pair_parts(pair: &str) -> (&str, &str)
    ensures name { result.0.now ≡ spec.name_of (cut_spec.cut 0x3D pair.now) }
    ensures value { result.1.now ≡ spec.value_of (cut_spec.cut 0x3D pair.now) }
{
    match cut(pair, '=') {
        (name, Some(value)) => (trim(name), trim(value)),
        (value, None) => ("", trim(value)),
    }
}

/// The first refusal of a line with this name and value.
fn first_refusal(line: &str, name: &str, value: &str) -> Option<LineRefusal>
    ensures { result ≡ spec.first_refusal line.now name.now value.now }
{
    if has_control(line.as_bytes()) {
        return Some(LineRefusal::Control);
    }
    if name.is_empty() && value.is_empty() {
        return Some(LineRefusal::Empty);
    }
    if name.len() + value.len() > MAX_PAIR_BYTES {
        return Some(LineRefusal::TooLong);
    }
    None
}

/// Whether a line has a control byte other than the tab.
fn has_control(bytes: &[u8]) -> bool
    ensures { result ≡ list_any is_control bytes.now }
{
    bytes.iter().any(|byte| is_control(*byte))
}

/// The attributes in what follows the pair of a line.
fn attributes_after(rest: Option<&str>) -> Kept<'_>
    ensures { kept_view result ≡ spec.attributes_after (option_copied rest.entry) }
{
    match rest {
        Some(rest) => attributes_between(rest),
        None => no_attributes(),
    }
}

/// The line of a name, a value and attributes.
fn line_of(alloc: Global, name: &str, value: &str, kept: Kept<'_>) -> Result<Line, NoMemory>
    ensures { IfOk result (λ line. line ≡ spec.line_of name.now value.now (kept_view kept.entry)) }
{
    Ok(Line {
        name: Text::of(alloc, name)?,
        value: Text::of(alloc, value)?,
        domain: lowered_copy_of(alloc, kept.domain)?,
        path: copy_of(alloc, kept.path)?,
        expires: kept.expires,
        max_age: kept.max_age,
        secure: kept.secure,
        http_only: kept.http_only,
        same_site: kept.same_site,
        priority: kept.priority,
    })
}

/// A copy of a text that may be missing.
fn copy_of(alloc: Global, text: Option<&str>) -> Result<Option<Text>, NoMemory>
    ensures { IfOk result (λ copied. copied ≡ option_copied text.entry) }
{
    match text {
        Some(text) => Ok(Some(Text::of(alloc, text)?)),
        None => Ok(None),
    }
}

/// A copy, in small ASCII letters, of a text that may be missing.
fn lowered_copy_of(alloc: Global, text: Option<&str>) -> Result<Option<Text>, NoMemory>
    ensures { IfOk result
        (λ copied. copied ≡ option_map str_to_ascii_lowercase (option_copied text.entry)) }
{
    match text {
        Some(text) => {
            let mut string = String::from_str(alloc, text)?;
            string.make_ascii_lowercase();
            Ok(Some(Text::from_string(string)?))
        }
        None => Ok(None),
    }
}

impl fmt::Display for LineRefusal {
    fn fmt<W: fmt::Write>(&self, f: &mut fmt::Formatter<W>) -> fmt::Result {
        match self {
            LineRefusal::Control => write!(f, "a control byte"),
            LineRefusal::Empty => write!(f, "no name and no value"),
            LineRefusal::TooLong => write!(f, "name and value are too long"),
            LineRefusal::NoMemory => write!(f, "out of memory"),
        }
    }
}

impl Error for LineRefusal {}

impl From<NoMemory> for LineRefusal {
    ghost use Rattle.set_cookie_line.specs.declared.line.LineRefusal.TheVariants as refusal;

    ghost from_gives = { λ _ e. e ≡ refusal.NoMemory };

    fn from(_: NoMemory) -> LineRefusal {
        LineRefusal::NoMemory
    }
}

#[cfg(test)]
mod tests;
