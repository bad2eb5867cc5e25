//! Members of the JSON objects of a script, each read as some value.

ghost use Rattle.std.specs.Prelude.{◌≡◌, ◌<◌, length, map, option_map, MatchOption};
ghost use Rattle.jar_values.specs.declared.text.TheConstants.{TEXT_END};
ghost use Rattle.serde_json.specs.View.{view};
ghost use Rattle.script_text.specs.Members as spec;

use jar_values::{MAX_MOMENT, Moment, TEXT_END};
use serde_json::Value;

/// The text that a value is; empty where it is none, or too long.
pub fn text_of(value: &Value) -> &str
    ensures value { result.now ≡ spec.text_of (view value.now) }
    ensures short { length result.now < TEXT_END }
{
    short_text(value.as_str().unwrap_or(""))
}

/// A text; empty where it is too long.
fn short_text(text: &str) -> &str
    ensures value { result.now ≡ spec.short_text text.now }
    ensures short { length result.now < TEXT_END }
{
    if text.len() < TEXT_END { text } else { "" }
}

/// The text of a member that may be absent.
pub fn text_if<'a>(value: &'a Value, key: &str) -> Option<&'a str>
    ensures value { option_map (λ text. text.now) result ≡ spec.text_if key.now (view value.now) }
    ensures short { MatchOption result (Unit {0}) (λ text. length text.now < TEXT_END) }
{
    match value.get(key) {
        Some(member) => Some(text_of(member)),
        None => None,
    }
}

/// The text of a member.
pub fn text_at<'a>(value: &'a Value, key: &str) -> &'a str
    ensures value { result.now ≡ spec.text_at key.now (view value.now) }
    ensures short { length result.now < TEXT_END }
{
    match value.get(key) {
        Some(member) => text_of(member),
        None => "",
    }
}

/// The whole number that a value is; 0 where it is none.
fn number_of(value: &Value) -> u64
    ensures { result ≡ spec.number_of (view value.now) }
{
    value.as_u64().unwrap_or(0)
}

/// The whole number of a member that may be absent.
pub fn number_if(value: &Value, key: &str) -> Option<u64>
    ensures { result ≡ spec.number_if key.now (view value.now) }
{
    match value.get(key) {
        Some(member) => Some(number_of(member)),
        None => None,
    }
}

/// The whole number of a member.
pub fn number_at(value: &Value, key: &str) -> u64
    ensures { result ≡ spec.number_at key.now (view value.now) }
{
    number_if(value, key).unwrap_or(0)
}

/// The moment of a member; the last one where its number lies past it.
pub fn moment_at(value: &Value, key: &str) -> Moment
    ensures { result ≡ spec.moment_at key.now (view value.now) }
{
    Moment::of(number_at(value, key).min(MAX_MOMENT)).unwrap()
}

/// Whether a member is true.
pub fn flag_at(value: &Value, key: &str) -> bool
    ensures { result ≡ spec.flag_at key.now (view value.now) }
{
    match value.get(key) {
        Some(member) => member.as_bool().unwrap_or(false),
        None => false,
    }
}

/// The items of the list that a member is; none where it is no list.
pub fn list_at<'a>(value: &'a Value, key: &str) -> &'a [Value]
    ensures { map view result.now ≡ spec.list_at key.now (view value.now) }
{
    match value.get(key) {
        Some(member) => list_of(member),
        None => &[],
    }
}

/// The items of the list that a value is; none where it is no list.
fn list_of(value: &Value) -> &[Value]
    ensures { map view result.now ≡ spec.items_of (view value.now) }
{
    match value.as_array() {
        Some(list) => list.as_slice(),
        None => &[],
    }
}
