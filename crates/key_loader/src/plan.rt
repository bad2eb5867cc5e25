//! Which keys are to be loaded, and which first.

ghost use Rattle.std.specs.Prelude.{◌≡◌, IfOk, OnOk, map, option_copied, is_none, IsTrue, Some};
ghost use Rattle.std.specs.List.Sorted.{IsStrictlySortedBy};
ghost use Rattle.jar_types.specs.Ids.{text_cmp};
ghost use Rattle.jar_types.specs.Loads as loads;
ghost use Rattle.key_loader.specs.Groups as spec;
ghost use Rattle.key_loader.specs.Planned.{asked, may_be_wanted};
ghost use Rattle.public_suffix.specs.Suffix.{key_of};

use crate::group::Group;
use crate::hosts::{grouped, keys_among, keys_in, without_hosts};
use crate::places::{
    first_places, has_place, is_unloaded, may_want, next_place, place_of, take_out,
};
use jar_values::{NoMemory, Texts};
use public_suffix::Suffixes;
use std::alloc::Global;
use std::marker::Model;

/// Hosts by their keys, and which of the keys aren't loaded, are wanted, being loaded or marked.
///
/// This jar's own rule: docs/DEFINITIONS.md.
#[derive(Drop)]
pub struct Plan {
    groups: Vec<Group>,
    unloaded: Vec<usize>,
    wanted: Vec<usize>,
    begun: Option<usize>,
    lost: Vec<usize>,
}

impl Model for Plan {
    ghost use Rattle.std.specs.Prelude.{◌≤◌, vec_len, map};
    ghost use Rattle.std.specs.Vec.{vec_capacity};
    ghost use Rattle.key_loader.specs.Planned.{Planned};
    ghost use Rattle.key_loader.specs.Groups.{keys_of};
    ghost use Rattle.key_loader.specs.Places.{loads_at, IsPlanned};

    ghost Value = { Planned };

    ghost view = { λ p. record {
      groups = p.groups.items;
      loads = loads_at (keys_of p.groups.items) p.unloaded.items p.wanted.items p.begun p.lost.items;
    } };

    ghost invariant = { λ p.
        IsPlanned (keys_of p.groups.items) p.unloaded.items p.wanted.items p.begun p.lost.items
        × (vec_len p.unloaded ≤ vec_capacity p.wanted)
        × (vec_len p.unloaded ≤ vec_capacity p.lost) };
}

impl Plan {
    /// The plan of the keys of these hosts, of which none is loaded.
    ///
    /// The key of a host with a dot before it is that of the host without the dot.
    pub fn of_hosts(alloc: Global, suffixes: &Suffixes, hosts: &Texts) -> Result<Plan, NoMemory>
        ensures groups { IfOk result (λ p.
            p.groups ≡ spec.groups_among (key_of suffixes.now) hosts.now) }
        ensures loads { IfOk result (λ p.
            p.loads ≡ loads.none_loaded (spec.keys_among (key_of suffixes.now) hosts.now)) }
        ensures keys { IfOk result (λ p.
            spec.keys_of p.groups ≡ spec.keys_among (key_of suffixes.now) hosts.now) }
    {
        let keys = keys_among(alloc, suffixes, hosts)?;
        let groups = grouped(alloc, suffixes, hosts, keys)?;
        Plan::of_groups(alloc, groups)
    }

    /// The plan of these keys, of which none is loaded and none has hosts. They ascend, and no two
    /// are the same.
    pub fn of_keys(alloc: Global, keys: Texts) -> Result<Plan, NoMemory>
        requires { IsStrictlySortedBy text_cmp keys }
        ensures groups { IfOk result (λ p. p.groups ≡ map spec.without_hosts keys) }
        ensures loads { IfOk result (λ p. p.loads ≡ loads.none_loaded keys) }
        ensures keys { IfOk result (λ p. spec.keys_of p.groups ≡ keys) }
    {
        let groups = without_hosts(alloc, keys)?;
        Plan::of_groups(alloc, groups)
    }

    /// The plan of these groups, whose keys ascend.
    fn of_groups(alloc: Global, groups: Vec<Group>) -> Result<Plan, NoMemory>
        requires { IsStrictlySortedBy text_cmp (spec.keys_of groups.items) }
        ensures groups { IfOk result (λ p. p.groups ≡ groups.items) }
        ensures loads { IfOk result (λ p. p.loads ≡ loads.none_loaded (spec.keys_of groups.items)) }
    {
        let unloaded = first_places(alloc, groups.len())?;
        let wanted = Vec::with_capacity(alloc, groups.len())?;
        let lost = Vec::with_capacity(alloc, groups.len())?;
        Ok(Plan {
            groups,
            unloaded,
            wanted,
            begun: None,
            lost,
        })
    }

    /// The keys, ascending, no two of them the same.
    pub fn keys(&self, alloc: Global) -> Result<Texts, NoMemory>
        ensures value { IfOk result (λ keys. keys ≡ spec.keys_of self.now.groups) }
        ensures rises { IfOk result (λ keys. IsStrictlySortedBy text_cmp keys) }
    {
        keys_in(alloc, &self.groups)
    }

    /// The hosts of a key, in the order in which they came; none where the key isn't in the plan. It
    /// takes no memory.
    pub fn hosts_of(&self, key: &str) -> Option<&Texts>
        ensures { option_copied result ≡ spec.hosts_of key.now self.now.groups }
    {
        match place_of(&self.groups, key) {
            Some(place) => Some(&self.groups[place].hosts),
            None => None,
        }
    }

    /// Whether a key is loaded, as each is that isn't in the plan. It takes no memory.
    pub fn is_loaded(&self, key: &str) -> bool
        ensures { result ≡ loads.is_loaded key.now self.now.loads }
    {
        match place_of(&self.groups, key) {
            Some(place) => !is_unloaded(&self.unloaded, place),
            None => true,
        }
    }

    /// Whether a key is wanted. It takes no memory.
    pub fn is_wanted(&self, key: &str) -> bool
        ensures { result ≡ loads.is_wanted key.now self.now.loads }
    {
        match place_of(&self.groups, key) {
            Some(place) => has_place(&self.wanted, place),
            None => false,
        }
    }

    /// Whether a load of a key was lost while it was wanted. It takes no memory.
    pub fn is_marked(&self, key: &str) -> bool
        ensures { result ≡ loads.is_marked key.now self.now.loads }
    {
        match place_of(&self.groups, key) {
            Some(place) => has_place(&self.lost, place),
            None => false,
        }
    }

    /// Makes a key wanted, after those that are. It is false, and all stays, where the key is
    /// loaded, wanted or marked. It takes no memory.
    pub fn want(&mut self, key: &str) -> bool
        ensures value { result ≡ may_be_wanted key.now self.old.loads }
        ensures loads { self.new.loads ≡ asked key.now self.old.loads }
        ensures groups { self.new.groups ≡ self.old.groups }
    {
        match place_of(&self.groups, key) {
            Some(place) => {
                if !may_want(&self.unloaded, &self.wanted, &self.lost, place) {
                    return false;
                }
                self.wanted.push_reserved(place);
                true
            }
            None => false,
        }
    }

    /// The key that is to be loaded next: the one whose load has begun, else the first that is
    /// wanted, else the least that isn't loaded. None exactly where every key is loaded. It takes no
    /// memory.
    pub fn next(&self) -> Option<&str>
        ensures value { option_copied result ≡ loads.next_key self.now.loads }
        ensures none { is_none result ≡ loads.all_loaded self.now.loads }
    {
        match next_place(&self.unloaded, &self.wanted, self.begun) {
            Some(place) => Some(self.groups[place].key.as_str()),
            None => None,
        }
    }

    /// Notes that the load of a key has begun, which is to be loaded next. It takes no memory.
    pub fn begin_load(&mut self, key: &str)
        requires { loads.next_key self.old.loads ≡ Some key.now }
        ensures loads { self.new.loads ≡ loads.with_begun key.now self.old.loads }
        ensures groups { self.new.groups ≡ self.old.groups }
    {
        self.begun = place_of(&self.groups, key);
    }

    /// Notes that a key is loaded, whose load had begun: its want and its mark go. It takes no
    /// memory.
    pub fn done(&mut self, key: &str)
        requires { IsTrue (loads.is_begun key.now self.old.loads) }
        ensures loads { self.new.loads ≡ loads.with_loaded key.now self.old.loads }
        ensures groups { self.new.groups ≡ self.old.groups }
    {
        self.begun = None;
        if let Some(place) = place_of(&self.groups, key) {
            let _was_unloaded = take_out(&mut self.unloaded, place);
            let _was_wanted = take_out(&mut self.wanted, place);
            let _was_marked = take_out(&mut self.lost, place);
        }
    }

    /// Notes that the load of a key is lost, which had begun. Whether a want of it was turned into a
    /// mark. It takes no memory.
    pub fn lost(&mut self, key: &str) -> bool
        requires { IsTrue (loads.is_begun key.now self.old.loads) }
        ensures value { result ≡ loads.is_wanted key.now self.old.loads }
        ensures loads { self.new.loads ≡ loads.with_lost key.now self.old.loads }
        ensures groups { self.new.groups ≡ self.old.groups }
    {
        self.begun = None;
        match place_of(&self.groups, key) {
            Some(place) => {
                let was_wanted = take_out(&mut self.wanted, place);
                if was_wanted {
                    self.lost.push_reserved(place);
                }
                was_wanted
            }
            None => false,
        }
    }

    /// Takes the mark of a key away. Whether there was one. It takes no memory.
    pub fn unmark(&mut self, key: &str) -> bool
        ensures value { result ≡ loads.is_marked key.now self.old.loads }
        ensures loads { self.new.loads ≡ loads.without_mark key.now self.old.loads }
        ensures groups { self.new.groups ≡ self.old.groups }
    {
        match place_of(&self.groups, key) {
            Some(place) => take_out(&mut self.lost, place),
            None => false,
        }
    }
}
