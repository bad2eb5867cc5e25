//! The walk that finds where a value isn't of its form.

ghost use Rattle.std.specs.Prelude.{◌≡◌, IfOk};
ghost use Rattle.serde_json.specs.View.{view};
ghost use Rattle.json_form.specs.Forms.{Finds, misfit};
ghost use Rattle.json_form.specs.Meaning.{form_of};

use crate::alternatives::{outlined_misfit, tagged_misfit};
use crate::form::Form;
use crate::leaves::{is_below, is_moment, is_text, is_within, is_word, shape};
use crate::lists::{counting_misfit, list_misfit, measured_misfit};
use crate::objects::object_misfit;
use crate::paths::here_unless;
use crate::setting::{Pass, Setting};
use jar_values::{NoMemory, Text};
use serde_json::Value;
use std::alloc::Global;

/// The first path, as a JSON Pointer, at which a value isn't of a form, and none where it is.
///
/// The walk visits a value, then its members in ascending order of their names, or its items in
/// order. A value that fits takes no memory, but for the paths of alternatives that it isn't of.
///
/// RFC 6901, sections 3 and 4; for the forms this jar's own rule: docs/DEFINITIONS.md.
pub fn first_misfit(
    alloc: Global,
    pass: Pass,
    form: &Form,
    value: &Value,
) -> Result<Option<Text>, NoMemory>
    ensures { IfOk result (λ path. path ≡ misfit pass (form_of form.now) (view value.now)) }
{
    match misfit_of(alloc, Setting::outset(pass), form, value)? {
        Some(path) => Ok(Some(Text::from_string(path)?)),
        None => Ok(None),
    }
}

/// The first misfit of a value in a setting.
#[cycle(walk)]
pub fn misfit_of(
    alloc: Global,
    setting: Setting,
    form: &Form,
    value: &Value,
) -> Result<Option<String>, NoMemory>
    ensures { Finds result (form_of form.now setting (view value.now)) }
{
    match form {
        Form::Null => Ok(shape(alloc, setting, value.is_null())),
        Form::Flag => Ok(shape(alloc, setting, value.is_boolean())),
        Form::Text => Ok(shape(alloc, setting, is_text(value))),
        Form::Words(words) => Ok(shape(alloc, setting, is_word(words, value))),
        Form::Whole(least, most) => Ok(shape(alloc, setting, is_within(*least, *most, value))),
        Form::Moment => Ok(here_unless(alloc, is_moment(setting.pass, value))),
        Form::BelowLength => Ok(shape(alloc, setting, is_below(setting.length, value))),
        Form::UpToCount => Ok(shape(alloc, setting, is_within(1, setting.count as u64, value))),
        Form::ListOf(form) => list_misfit(alloc, setting, form, value),
        Form::Measured(form) => measured_misfit(alloc, setting, form, value),
        Form::Counting(tag, word, form) => {
            counting_misfit(alloc, setting, form, tag, word, value)
        }
        Form::Object(members) => object_misfit(alloc, setting, members, value),
        Form::OrNull(form) => {
            if value.is_null() {
                Ok(None)
            } else {
                misfit_of(alloc, setting, form, value)
            }
        }
        Form::IfHas(name, there, absent) => {
            if value.get(*name).is_some() {
                misfit_of(alloc, setting, there, value)
            } else {
                misfit_of(alloc, setting, absent, value)
            }
        }
        Form::Tagged(tag, words) => tagged_misfit(alloc, setting, tag, words, value),
        Form::Either(first, second) => {
            if misfit_of(alloc, setting.by_shape(), first, value)?.is_some() {
                return misfit_of(alloc, setting, second, value);
            }
            match setting.pass {
                Pass::Shapes => Ok(None),
                Pass::Moments => misfit_of(alloc, setting, first, value),
            }
        }
        Form::OneOf(outlines) => outlined_misfit(alloc, setting, outlines, value),
    }
}
