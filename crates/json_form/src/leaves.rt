//! Values without parts.

ghost use Rattle.std.specs.Prelude.{◌≡◌, ◌||◌, option_map, option_and_then, is_some, map, bytes_eq, string_bytes};
ghost use Rattle.std.specs.List.{list_any};
ghost use Rattle.serde_json.specs.View.{view};
ghost use Rattle.serde_json.specs.Find.{as_str};
ghost use Rattle.json_form.specs.Leaves.{shape, is_text, is_word, is_within, is_moment, is_below, whole_of};

use crate::paths::here_unless;
use crate::setting::{Pass, Setting};
use jar_values::{MAX_MOMENT, TEXT_END};
use serde_json::Value;
use std::alloc::Global;

/// The path of the value itself, unless it fits or shapes aren't looked for.
pub fn shape(alloc: Global, setting: Setting, fits: bool) -> Option<String>
    ensures { option_map string_bytes result ≡ shape setting fits }
{
    here_unless(alloc, setting.pass != Pass::Shapes || fits)
}

/// Whether a value is a text that isn't too long.
pub fn is_text(value: &Value) -> bool
    ensures { result ≡ is_text (as_str (view value.now)) }
{
    match value.as_str() {
        Some(text) => text.len() < TEXT_END,
        None => false,
    }
}

/// Whether a value is one of some texts.
pub fn is_word(words: &[&str], value: &Value) -> bool
    ensures { result ≡ is_word (map (λ word. word.now) words.now) (as_str (view value.now)) }
{
    match value.as_str() {
        Some(text) => is_one_of(words, text),
        None => false,
    }
}

/// Whether a text is one of some.
fn is_one_of(words: &[&str], text: &str) -> bool
    ensures { result
        ≡ list_any (λ word. bytes_eq word text.now) (map (λ word. word.now) words.now) }
{
    for word in words {
        if *word == text {
            return true;
        }
    }
    false
}

/// Whether a value is a whole number of a range.
pub fn is_within(least: u64, most: u64, value: &Value) -> bool
    ensures { result ≡ is_within least most (whole_of (view value.now)) }
{
    match value.as_u64() {
        Some(n) => least <= n && n <= most,
        None => false,
    }
}

/// Whether a value is a whole number, or in the pass of moments a moment.
pub fn is_moment(pass: Pass, value: &Value) -> bool
    ensures { result ≡ is_moment pass (view value.now) }
{
    match pass {
        Pass::Shapes => value.is_u64() || value.is_i64(),
        Pass::Moments => is_within(0, MAX_MOMENT, value),
    }
}

/// Whether a value is a whole number below another.
pub fn is_below(end: usize, value: &Value) -> bool
    ensures { result ≡ is_below end (whole_of (view value.now)) }
{
    match value.as_u64() {
        Some(n) => n < end as u64,
        None => false,
    }
}
