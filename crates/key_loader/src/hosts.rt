//! Hosts by their keys.

ghost use Rattle.std.specs.Prelude.{◌≡◌, IfOk, OnOk, map};
ghost use Rattle.std.specs.List.Sorted.{IsStrictlySortedBy};
ghost use Rattle.jar_types.specs.Ids.{text_cmp};
ghost use Rattle.key_loader.specs.Groups as spec;
ghost use Rattle.key_loader.specs.Groups.{groups_among, keys_of, with_host};
ghost use Rattle.public_suffix.specs.Suffix.{key_of};

use crate::group::Group;
use crate::places::place_of;
use jar_values::{NoMemory, Text, Texts, undotted};
use public_suffix::Suffixes;
use std::alloc::Global;

/// The keys of hosts, ascending, each once.
pub fn keys_among(alloc: Global, suffixes: &Suffixes, hosts: &Texts) -> Result<Texts, NoMemory>
    ensures { IfOk result (λ keys. keys ≡ spec.keys_among (key_of suffixes.now) hosts.now) }
{
    let mut keys = Vec::new(alloc);
    for host in hosts.as_slice() {
        keys.push(Text::of(alloc, suffixes.key(undotted(host.as_str())))?)?;
    }
    keys.sort_unstable();
    keys.dedup();
    Ok(Texts::from_vec(keys))
}

/// The groups of these keys, which have no hosts.
pub fn without_hosts(alloc: Global, keys: Texts) -> Result<Vec<Group>, NoMemory>
    ensures { IfOk result (λ groups. groups.items ≡ map spec.without_hosts keys) }
{
    let mut groups = Vec::new(alloc);
    for key in keys.into_vec() {
        let hosts = Texts::new(alloc);
        groups.push(Group { key, hosts })?;
    }
    Ok(groups)
}

/// The keys of groups.
pub fn keys_in(alloc: Global, groups: &[Group]) -> Result<Texts, NoMemory>
    ensures { IfOk result (λ keys. keys ≡ keys_of groups.now) }
{
    let mut keys = Texts::new(alloc);
    for group in groups {
        keys.push(group.key.copy(alloc)?)?;
    }
    Ok(keys)
}

/// The groups of hosts, where these are their keys.
pub fn grouped(
    alloc: Global,
    suffixes: &Suffixes,
    hosts: &Texts,
    keys: Texts,
) -> Result<Vec<Group>, NoMemory>
    requires { keys ≡ spec.keys_among (key_of suffixes.now) hosts.now }
    ensures { IfOk result (λ groups. groups.items ≡ groups_among (key_of suffixes.now) hosts.now) }
{
    let mut groups = without_hosts(alloc, keys)?;
    for host in hosts.as_slice() {
        let key = suffixes.key(undotted(host.as_str()));
        add_host(alloc, &mut groups, key, host)?;
    }
    Ok(groups)
}

/// Adds a host to the group of a key, where there is one.
fn add_host(alloc: Global, groups: &mut Vec<Group>, key: &str, host: &Text) -> Result<(), NoMemory>
    requires { IsStrictlySortedBy text_cmp (keys_of groups.old.items) }
    ensures { OnOk result (groups.new.items ≡ with_host key.now host.now groups.old.items) }
{
    if let Some(place) = place_of(groups, key) {
        groups[place].hosts.push(host.copy(alloc)?)?;
    }
    Ok(())
}
