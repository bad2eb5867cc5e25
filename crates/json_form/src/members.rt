//! The members that an object has, against those that a form names.

ghost use Rattle.std.specs.Prelude.{◌≡◌, map, option_map};
ghost use Rattle.std.specs.List.{list_any};
ghost use Rattle.serde_json.specs.View.{view, members_view};
ghost use Rattle.serde_json.specs.Find.{get_member};
ghost use Rattle.json_form.specs.Objects.{is_missing, lacks_any, is_named, all_are_named};
ghost use Rattle.json_form.specs.Meaning.{member_of};

use crate::form::{Member, Presence};
use serde_json::Value;
use std::collections::BTreeMap;

/// The members that an object has, by name.
pub type Given = BTreeMap<String, Value>;

/// The member of a name.
pub fn value_at<'v>(given: &'v Given, name: &str) -> Option<&'v Value>
    ensures { option_map (λ v. view v.now) result
        ≡ get_member name.now (members_view given.now.entries) }
{
    given.get(name)
}

/// Whether a member that has to be there isn't.
fn is_missing(given: &Given, member: &Member) -> bool
    ensures { result ≡ is_missing (members_view given.now.entries) (member_of member.now) }
{
    match member.1 {
        Presence::Required | Presence::Key => value_at(given, member.0).is_none(),
        Presence::Optional => false,
    }
}

/// Whether a member that has to be there isn't, of several.
pub fn lacks_any(given: &Given, members: &[Member]) -> bool
    ensures { result
        ≡ lacks_any (map member_of members.now) (members_view given.now.entries) }
{
    for member in members {
        if is_missing(given, member) {
            return true;
        }
    }
    false
}

/// Whether a form names a member.
fn is_one_of(members: &[Member], name: &str) -> bool
    ensures { result ≡ list_any (is_named name.now) (map member_of members.now) }
{
    for member in members {
        if member.0 == name {
            return true;
        }
    }
    false
}

/// Whether a form names each member.
pub fn all_are_named(members: &[Member], given: &Given) -> bool
    ensures { result ≡ all_are_named (map member_of members.now) (members_view given.now.entries) }
{
    for (name, _) in given.iter() {
        if !is_one_of(members, name.as_str()) {
            return false;
        }
    }
    true
}
