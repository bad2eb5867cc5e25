//! The loading of stored cookies a key at a time.

ghost use Rattle.std.specs.Prelude.{◌≡◌, ◌&&◌, IfOk, OnOk, is_none, option_copied};
ghost use Rattle.jar_types.specs.Loads as spec;

use crate::texts::{copied, has_text, take_out};
use jar_types::{NoMemory, Text, Texts};
use std::alloc::Global;
use std::marker::Model;

/// The keys that aren't loaded, those of them that callers wait for, the one whose load has begun, and those whose load
/// was lost while callers waited.
#[derive(Drop)]
pub struct KeyLoads {
    unloaded: Vec<Text>,
    wanted: Vec<Text>,
    begun: Option<Text>,
    lost: Vec<Text>,
}

impl Model for KeyLoads {
    ghost use Rattle.jar_types.specs.Loads.{KeyLoads};

    ghost Value = { KeyLoads };

    ghost view = { λ l. record {
      unloaded = l.unloaded.items;
      wanted = l.wanted.items;
      begun = l.begun;
      lost = l.lost.items;
    } };
}

impl KeyLoads {
    /// Of these keys none is loaded, and nobody waits.
    pub fn new(alloc: Global, keys: Texts) -> KeyLoads
        ensures { result ≡ spec.none_loaded keys }
    {
        KeyLoads {
            unloaded: keys.into_vec(),
            wanted: Vec::new(alloc),
            begun: None,
            lost: Vec::new(alloc),
        }
    }

    /// The same again.
    pub fn copy(&self, alloc: Global) -> Result<KeyLoads, NoMemory>
        ensures { IfOk result (λ loads. loads ≡ self.now) }
    {
        Ok(KeyLoads {
            unloaded: copied(alloc, self.unloaded.as_slice())?,
            wanted: copied(alloc, self.wanted.as_slice())?,
            begun: copy_of(alloc, self.begun.as_ref())?,
            lost: copied(alloc, self.lost.as_slice())?,
        })
    }

    /// Whether the stored cookies of a key are loaded.
    pub fn is_loaded(&self, key: &str) -> bool
        ensures { result ≡ spec.is_loaded key.now self.now }
    {
        !has_text(self.unloaded.as_slice(), key)
    }

    /// Whether callers wait for a key.
    pub fn is_wanted(&self, key: &str) -> bool
        ensures { result ≡ spec.is_wanted key.now self.now }
    {
        has_text(self.wanted.as_slice(), key)
    }

    /// Whether a load of a key was lost that callers waited for.
    pub fn is_marked(&self, key: &str) -> bool
        ensures { result ≡ spec.is_marked key.now self.now }
    {
        has_text(self.lost.as_slice(), key)
    }

    /// Whether the load of a key has begun.
    pub fn is_begun(&self, key: &str) -> bool
        ensures { result ≡ spec.is_begun key.now self.now }
    {
        is_the(key, self.begun.as_ref())
    }

    /// Whether the load of a key may begin: no other has begun, and it is the next one.
    pub fn may_begin(&self, key: &str) -> bool
        ensures { result ≡ (is_none self.now.begun && spec.is_the key.now (spec.next_key self.now)) }
    {
        self.begun.is_none() && is_the(key, self.next_key())
    }

    /// The key that is loaded next: the one whose load has begun, else the first that is wanted, else the least.
    pub fn next_key(&self) -> Option<&Text>
        ensures { option_copied result ≡ spec.next_key self.now }
    {
        if self.begun.is_some() {
            self.begun.as_ref()
        } else if self.wanted.is_empty() {
            self.unloaded.first()
        } else {
            self.wanted.first()
        }
    }

    /// Whether no key is left to load.
    pub fn all_loaded(&self) -> bool
        ensures { result ≡ spec.all_loaded self.now }
    {
        self.unloaded.is_empty()
    }

    /// A key is wanted, last.
    pub fn want(&mut self, key: Text) -> Result<(), NoMemory>
        ensures { OnOk result (self.new ≡ spec.with_want key self.old) }
    {
        self.wanted.push(key)?;
        Ok(())
    }

    /// The load of a key has begun.
    pub fn begin(&mut self, key: Text)
        ensures { self.new ≡ spec.with_begun key self.old }
    {
        self.begun = Some(key);
    }

    /// A key is loaded, and neither wanted nor marked.
    pub fn loaded(&mut self, key: &str)
        ensures { self.new ≡ spec.with_loaded key.now self.old }
    {
        take_out(&mut self.unloaded, key);
        take_out(&mut self.wanted, key);
        take_out(&mut self.lost, key);
        self.begun = None;
    }

    /// The load of a key is lost, and a want of it becomes a mark.
    pub fn lose(&mut self, key: Text) -> Result<(), NoMemory>
        ensures { OnOk result (self.new ≡ spec.with_lost key self.old) }
    {
        let wanted = self.is_wanted(key.as_str());
        take_out(&mut self.wanted, key.as_str());
        self.begun = None;
        if wanted {
            self.lost.push(key)?;
        }
        Ok(())
    }

    /// A key is no longer marked.
    pub fn unmark(&mut self, key: &str)
        ensures { self.new ≡ spec.without_mark key.now self.old }
    {
        take_out(&mut self.lost, key);
    }
}

/// Whether the text that is there is this one.
fn is_the(key: &str, there: Option<&Text>) -> bool
    ensures { result ≡ spec.is_the key.now (option_copied there.entry) }
{
    match there {
        Some(other) => key == other.as_str(),
        None => false,
    }
}

/// The same text again, where one is there.
fn copy_of(alloc: Global, there: Option<&Text>) -> Result<Option<Text>, NoMemory>
    ensures { IfOk result (λ copy. copy ≡ option_copied there.entry) }
{
    match there {
        Some(text) => Ok(Some(text.copy(alloc)?)),
        None => Ok(None),
    }
}
