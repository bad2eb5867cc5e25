//! Values that may be of several forms.

ghost use Rattle.std.specs.Prelude.{◌≡◌, IfOk, map};
ghost use Rattle.std.specs.List.{list_any};
ghost use Rattle.serde_json.specs.View.{view, members_view};
ghost use Rattle.json_form.specs.Forms.{Finds};
ghost use Rattle.json_form.specs.Alternatives.{tagged, word_misfit, one_of, outline_misfit, has_outline, is_amiss};
ghost use Rattle.json_form.specs.Meaning.{member_of, word_of, outline_of};

use crate::form::{Member, Outline, Presence, Word};
use crate::members::{Given, all_are_named, lacks_any, value_at};
use crate::objects::members_misfit;
use crate::paths::{here, in_member};
use crate::setting::Setting;
use crate::walk::misfit_of;
use jar_values::NoMemory;
use serde_json::Value;
use std::alloc::Global;

/// The first misfit of an object whose form goes by the word of a tag.
#[cycle(walk)]
pub fn tagged_misfit(
    alloc: Global,
    setting: Setting,
    tag: &str,
    words: &[Word],
    value: &Value,
) -> Result<Option<String>, NoMemory>
    ensures { Finds result (tagged tag.now (map word_of words.now) setting (view value.now)) }
{
    match value.get(tag) {
        Some(member) => match member.as_str() {
            Some(word) => word_misfit(alloc, setting, tag, words, word, value),
            None => Ok(Some(in_member(alloc, tag, "")?)),
        },
        None => Ok(here(alloc)),
    }
}

/// The first misfit of an object whose tag has this word.
#[cycle(walk)]
fn word_misfit(
    alloc: Global,
    setting: Setting,
    tag: &str,
    words: &[Word],
    word: &str,
    value: &Value,
) -> Result<Option<String>, NoMemory>
    ensures { Finds result
        (word_misfit tag.now (map word_of words.now) word.now setting (view value.now)) }
{
    for known in words {
        if known.0 == word {
            return misfit_of(alloc, setting, &known.1, value);
        }
    }
    Ok(Some(in_member(alloc, tag, "")?))
}

/// The first misfit of an object that has one of several outlines.
#[cycle(walk)]
pub fn outlined_misfit(
    alloc: Global,
    setting: Setting,
    outlines: &[Outline],
    value: &Value,
) -> Result<Option<String>, NoMemory>
    ensures { Finds result (one_of (map outline_of outlines.now) setting (view value.now)) }
{
    match value.as_object() {
        Some(given) => outline_misfit(alloc, setting, outlines, given),
        None => Ok(here(alloc)),
    }
}

/// The first misfit of an object by its outline.
#[cycle(walk)]
fn outline_misfit(
    alloc: Global,
    setting: Setting,
    outlines: &[Outline],
    given: &Given,
) -> Result<Option<String>, NoMemory>
    ensures { Finds result
        (outline_misfit (map outline_of outlines.now) setting (members_view given.now.entries)) }
{
    for outline in outlines {
        if has_outline(alloc, setting.by_shape(), outline.0, given)? {
            return members_misfit(alloc, setting, outline.0, given);
        }
    }
    Ok(here(alloc))
}

/// Whether an object has just these members, and its keys fit.
#[cycle(walk)]
fn has_outline(
    alloc: Global,
    setting: Setting,
    members: &[Member],
    given: &Given,
) -> Result<bool, NoMemory>
    ensures { IfOk result (λ has. has
        ≡ has_outline (map member_of members.now) setting (members_view given.now.entries)) }
{
    if lacks_any(given, members) || !all_are_named(members, given) {
        return Ok(false);
    }
    Ok(!any_is_amiss(alloc, setting, members, given)?)
}

/// Whether a key is amiss, of several members.
#[cycle(walk)]
fn any_is_amiss(
    alloc: Global,
    setting: Setting,
    members: &[Member],
    given: &Given,
) -> Result<bool, NoMemory>
    ensures { let given = members_view given.now.entries in IfOk result
        (λ amiss. amiss ≡ list_any (is_amiss setting given) (map member_of members.now)) }
{
    for member in members {
        if is_amiss(alloc, setting, member, given)? {
            return Ok(true);
        }
    }
    Ok(false)
}

/// Whether a member is a key that is amiss.
#[cycle(walk)]
fn is_amiss(
    alloc: Global,
    setting: Setting,
    member: &Member,
    given: &Given,
) -> Result<bool, NoMemory>
    ensures { IfOk result (λ amiss. amiss
        ≡ is_amiss setting (members_view given.now.entries) (member_of member.now)) }
{
    match member.1 {
        Presence::Key => match value_at(given, member.0) {
            Some(value) => Ok(misfit_of(alloc, setting, &member.2, value)?.is_some()),
            None => Ok(false),
        },
        _ => Ok(false),
    }
}
