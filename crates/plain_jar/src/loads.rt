//! The loading of stored cookies: by keys, and of the whole jar.

ghost use Rattle.std.specs.Prelude.{◌≡◌, false, true, None, IfOk, OnOk};
ghost use Rattle.jar_types.specs.Loads as spec;
ghost use Rattle.jar_types.specs.Waits as waits;
ghost use Rattle.plain_jar.specs.Needs.{awaited_of};

use crate::key_loads::KeyLoads;
use crate::need::Need;
use jar_types::{Awaited, LoadWish, NoMemory, Own, Text, Texts};
use std::alloc::Global;
use std::marker::Model;

/// The loading of keys, whether the jar is whole, whether a caller waits for that, and whether a load was lost meanwhile.
#[derive(Drop)]
pub struct Loads {
    keys: KeyLoads,
    whole: bool,
    all_wanted: bool,
    all_lost: bool,
}

impl Model for Loads {
    ghost use Rattle.jar_types.specs.Loads.{Loads};

    ghost Value = { Loads };

    ghost view = { λ l. record {
      keys = l.keys;
      whole = l.whole;
      all_wanted = l.all_wanted;
      all_lost = l.all_lost;
    } };
}

impl Loads {
    /// Those of a jar in which these keys aren't loaded, and nobody waits.
    pub fn new(alloc: Global, keys: Texts) -> Loads
        ensures { result ≡ spec.not_whole keys }
    {
        Loads {
            keys: KeyLoads::new(alloc, keys),
            whole: false,
            all_wanted: false,
            all_lost: false,
        }
    }

    /// The same again.
    pub fn copy(&self, alloc: Global) -> Result<Loads, NoMemory>
        ensures { IfOk result (λ loads. loads ≡ self.now) }
    {
        Ok(Loads {
            keys: self.keys.copy(alloc)?,
            whole: self.whole,
            all_wanted: self.all_wanted,
            all_lost: self.all_lost,
        })
    }

    /// Whether every key is loaded, and the jar was swept.
    pub fn is_whole(&self) -> bool
        ensures { result ≡ self.now.whole }
    {
        self.whole
    }

    /// Whether what an op needs is there.
    pub fn is_there(&self, need: Need) -> bool
        ensures { result ≡ waits.is_there self.now (awaited_of need.entry) }
    {
        match need {
            Need::Key(key) => self.keys.is_loaded(key.as_str()),
            Need::All => self.whole,
        }
    }

    /// Whether a load of what an op needs was lost while callers waited.
    pub fn is_lost(&self, need: Need) -> bool
        ensures { result ≡ waits.is_lost self.now (awaited_of need.entry) }
    {
        match need {
            Need::Key(key) => self.keys.is_marked(key.as_str()),
            Need::All => self.all_lost,
        }
    }

    /// The mark of what an op needs goes.
    pub fn unmark(&mut self, need: Need)
        ensures { self.new ≡ waits.unmarked (awaited_of need.entry) self.old }
    {
        match need {
            Need::Key(key) => self.keys.unmark(key.as_str()),
            Need::All => self.all_lost = false,
        }
    }

    /// Whether a caller waits for this.
    pub fn is_awaited(&self, awaited: &Awaited) -> bool
        ensures { result ≡ waits.is_awaited self.now awaited.now }
    {
        match awaited {
            Awaited::Key(key) => self.keys.is_wanted(key.as_str()),
            Awaited::All => self.all_wanted,
        }
    }

    /// What is to be loaded next: a key, else the whole jar, else nothing.
    ///
    /// This jar's own rule: docs/DEFINITIONS.md.
    pub fn wish(&self) -> LoadWish
        ensures { waits.IsWish self.now result }
    {
        match self.keys.next_key() {
            Some(key) => LoadWish::Key(key),
            None => self.wish_of_all(),
        }
    }

    /// What is to be loaded next where no key is.
    fn wish_of_all(&self) -> LoadWish
        requires { spec.next_key self.now.keys ≡ None }
        ensures { waits.IsWish self.now result }
    {
        if self.whole {
            LoadWish::Idle
        } else {
            LoadWish::Whole
        }
    }

    /// Whether the loading lets the jar do this itself.
    ///
    /// This jar's own rule: docs/DEFINITIONS.md.
    pub fn may(&self, own: &Own) -> bool
        ensures { result ≡ spec.may_load own.now self.now }
    {
        match own {
            Own::Want(key) => self.may_want(key.as_str()),
            Own::WantAll => !self.whole && !self.all_wanted && !self.all_lost,
            Own::Begun(key) => self.keys.may_begin(key.as_str()),
            Own::Loaded { key, .. } => self.keys.is_begun(key.as_str()),
            Own::Lost(key) => self.keys.is_begun(key.as_str()),
            Own::Whole(_) => !self.whole && self.keys.all_loaded(),
            Own::Taken | Own::Acked(_) | Own::CommitLost(_) => true,
        }
    }

    /// Whether a key may be wanted: it isn't loaded, and neither wanted nor marked.
    fn may_want(&self, key: &str) -> bool
        ensures { result ≡ spec.may_load (Own.Want key.now) self.now }
    {
        !self.keys.is_loaded(key) && !self.keys.is_wanted(key) && !self.keys.is_marked(key)
    }

    /// Takes the step of what the jar does itself.
    ///
    /// This jar's own rule: docs/DEFINITIONS.md.
    pub fn step(&mut self, alloc: Global, own: &Own) -> Result<(), NoMemory>
        ensures { OnOk result (self.new ≡ spec.own_loads own.now self.old) }
    {
        match own {
            Own::Want(key) => self.keys.want(key.copy(alloc)?)?,
            Own::WantAll => self.all_wanted = true,
            Own::Begun(key) => self.keys.begin(key.copy(alloc)?),
            Own::Loaded { key, .. } => self.keys.loaded(key.as_str()),
            Own::Lost(key) => self.lose(key.copy(alloc)?)?,
            Own::Whole(_) => self.become_whole(),
            Own::Taken | Own::Acked(_) | Own::CommitLost(_) => {}
        }
        Ok(())
    }

    /// The load of a key is lost, and that of the whole jar where a caller waits for it.
    fn lose(&mut self, key: Text) -> Result<(), NoMemory>
        ensures { OnOk result (self.new ≡ spec.own_loads (Own.Lost key) self.old) }
    {
        self.keys.lose(key)?;
        if self.all_wanted {
            self.all_wanted = false;
            self.all_lost = true;
        }
        Ok(())
    }

    /// Every key is loaded, and nobody waits for that any more.
    fn become_whole(&mut self)
        ensures { self.new ≡ record self.old { whole = true; all_wanted = false; all_lost = false } }
    {
        self.whole = true;
        self.all_wanted = false;
        self.all_lost = false;
    }
}
