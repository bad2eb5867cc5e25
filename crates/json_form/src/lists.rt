//! Lists.

ghost use Rattle.std.specs.Prelude.{◌≡◌};
ghost use Rattle.serde_json.specs.View.{view, items_view};
ghost use Rattle.json_form.specs.Forms.{Finds};
ghost use Rattle.json_form.specs.Lists.{list_of, items_misfit, measured, counting, counted_misfit, has_word};
ghost use Rattle.json_form.specs.Meaning.{form_of};

use crate::form::Form;
use crate::paths::{here, in_item};
use crate::setting::Setting;
use crate::walk::misfit_of;
use jar_values::NoMemory;
use serde_json::Value;
use std::alloc::Global;

/// The first misfit of a list.
#[cycle(walk)]
pub fn list_misfit(
    alloc: Global,
    setting: Setting,
    form: &Form,
    value: &Value,
) -> Result<Option<String>, NoMemory>
    ensures { Finds result (list_of (form_of form.now) setting (view value.now)) }
{
    match value.as_array() {
        Some(items) => items_misfit(alloc, setting, form, items.as_slice()),
        None => Ok(here(alloc)),
    }
}

/// The first misfit of a list that is measured.
#[cycle(walk)]
pub fn measured_misfit(
    alloc: Global,
    setting: Setting,
    form: &Form,
    value: &Value,
) -> Result<Option<String>, NoMemory>
    ensures { Finds result (measured (form_of form.now) setting (view value.now)) }
{
    match value.as_array() {
        Some(items) => items_misfit(alloc, setting.measured_by(items), form, items.as_slice()),
        None => Ok(here(alloc)),
    }
}

/// The first misfit among items.
#[cycle(walk)]
fn items_misfit(
    alloc: Global,
    setting: Setting,
    form: &Form,
    items: &[Value],
) -> Result<Option<String>, NoMemory>
    ensures { Finds result
        (items_misfit (λ i. form_of form.now setting) 0 (items_view items.now)) }
{
    let mut index = 0;
    for value in items {
        if let Some(rest) = misfit_of(alloc, setting, form, value)? {
            return Ok(Some(in_item(alloc, index, &rest)?));
        }
        index += 1;
    }
    Ok(None)
}

/// The first misfit of a list of which some items are counted.
#[cycle(walk)]
pub fn counting_misfit(
    alloc: Global,
    setting: Setting,
    form: &Form,
    tag: &str,
    word: &str,
    value: &Value,
) -> Result<Option<String>, NoMemory>
    ensures { Finds result
        (counting tag.now word.now (form_of form.now) setting (view value.now)) }
{
    match value.as_array() {
        Some(items) => counted_items_misfit(alloc, setting, form, tag, word, items.as_slice()),
        None => Ok(here(alloc)),
    }
}

/// The first misfit among items of which some are counted.
#[cycle(walk)]
fn counted_items_misfit(
    alloc: Global,
    setting: Setting,
    form: &Form,
    tag: &str,
    word: &str,
    items: &[Value],
) -> Result<Option<String>, NoMemory>
    ensures { let ds = items_view items.now in Finds result
        (items_misfit (counted_misfit tag.now word.now (form_of form.now) setting ds) 0 ds) }
{
    let mut index = 0;
    let mut count = 0;
    for value in items {
        if let Some(rest) = misfit_of(alloc, setting.counted_as(count), form, value)? {
            return Ok(Some(in_item(alloc, index, &rest)?));
        }
        if has_word(tag, word, value) {
            count += 1;
        }
        index += 1;
    }
    Ok(None)
}

/// Whether a value has a word at a tag.
fn has_word(tag: &str, word: &str, value: &Value) -> bool
    ensures { result ≡ has_word tag.now word.now (view value.now) }
{
    match value.get(tag) {
        Some(member) => match member.as_str() {
            Some(text) => text == word,
            None => false,
        },
        None => false,
    }
}
