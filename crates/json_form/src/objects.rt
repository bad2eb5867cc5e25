//! Objects.

ghost use Rattle.std.specs.Prelude.{◌≡◌, map};
ghost use Rattle.serde_json.specs.View.{view, members_view};
ghost use Rattle.json_form.specs.Forms.{Finds};
ghost use Rattle.json_form.specs.Objects.{object, given_misfit, members_misfit, member_misfit};
ghost use Rattle.json_form.specs.Meaning.{member_of};

use crate::form::Member;
use crate::members::{Given, lacks_any};
use crate::paths::{here, in_member};
use crate::setting::Setting;
use crate::walk::misfit_of;
use jar_values::NoMemory;
use serde_json::Value;
use std::alloc::Global;

/// The first misfit of an object.
#[cycle(walk)]
pub fn object_misfit(
    alloc: Global,
    setting: Setting,
    members: &[Member],
    value: &Value,
) -> Result<Option<String>, NoMemory>
    ensures { Finds result (object (map member_of members.now) setting (view value.now)) }
{
    match value.as_object() {
        Some(given) => given_misfit(alloc, setting, members, given),
        None => Ok(here(alloc)),
    }
}

/// The first misfit of an object of these members.
#[cycle(walk)]
fn given_misfit(
    alloc: Global,
    setting: Setting,
    members: &[Member],
    given: &Given,
) -> Result<Option<String>, NoMemory>
    ensures { Finds result
        (given_misfit (map member_of members.now) setting (members_view given.now.entries)) }
{
    if lacks_any(given, members) {
        return Ok(here(alloc));
    }
    members_misfit(alloc, setting, members, given)
}

/// The first misfit among members.
#[cycle(walk)]
pub fn members_misfit(
    alloc: Global,
    setting: Setting,
    members: &[Member],
    given: &Given,
) -> Result<Option<String>, NoMemory>
    ensures { Finds result
        (members_misfit (map member_of members.now) setting (members_view given.now.entries)) }
{
    for (name, value) in given.iter() {
        if let Some(rest) = member_misfit(alloc, setting, members, name.as_str(), value)? {
            return Ok(Some(in_member(alloc, name.as_str(), &rest)?));
        }
    }
    Ok(None)
}

/// The first misfit in the member of a name.
#[cycle(walk)]
fn member_misfit(
    alloc: Global,
    setting: Setting,
    members: &[Member],
    name: &str,
    value: &Value,
) -> Result<Option<String>, NoMemory>
    ensures { Finds result
        (member_misfit (map member_of members.now) name.now setting (view value.now)) }
{
    for member in members {
        if member.0 == name {
            return misfit_of(alloc, setting, &member.2, value);
        }
    }
    Ok(here(alloc))
}
