//! What a plain jar holds.

ghost use Rattle.std.specs.Prelude.{◌≡◌, ◌<◌, ◌-◌, ◌^◌, false, IfOk, OnOk};
ghost use Rattle.std.specs.List.Sorted.{IsStrictlySortedBy};
ghost use Rattle.jar_types.specs.RowChanges.{change_cmp};
ghost use Rattle.jar_types.specs.States.{opening};
ghost use Rattle.jar_types.specs.Steps as steps;
ghost use Rattle.jar_types.specs.Waits.{takes_memory};

use crate::batches::Batches;
use crate::by_id::ById;
use crate::loads::Loads;
use jar_types::{BoundKeys, Entry, Listeners, NoMemory, RowChange, Tallies, Texts};
use std::alloc::Global;
use std::marker::Model;

/// The content of a jar, seen as its state.
#[derive(Drop)]
pub struct Content {
    pub cookies: ById,
    pub loads: Loads,
    pub bound: BoundKeys,
    pub posts: Tallies,
    pub listens: Tallies,
    pub listeners: Listeners,
    pub batches: Batches,
    pub calls: u64,
    pub entries: u64,
}

impl Model for Content {
    ghost use Rattle.jar_types.specs.States.{JarState};

    ghost Value = { JarState };

    ghost view = { λ c. record {
      cookies = c.cookies;
      loads = c.loads;
      bound = c.bound;
      posts = c.posts;
      listens = c.listens;
      listeners = c.listeners;
      batches = c.batches;
      calls = c.calls;
      entries = c.entries;
    } };
}

impl Content {
    /// That of a jar in which these keys aren't loaded.
    pub fn new(alloc: Global, keys: Texts) -> Content
        ensures { result ≡ opening keys }
    {
        Content {
            cookies: ById::new(alloc),
            loads: Loads::new(alloc, keys),
            bound: BoundKeys::new(alloc),
            posts: Tallies::new(alloc),
            listens: Tallies::new(alloc),
            listeners: Listeners::new(alloc),
            batches: Batches::new(alloc),
            calls: 0,
            entries: 0,
        }
    }

    /// The same content again.
    pub fn copy(&self, alloc: Global) -> Result<Content, NoMemory>
        ensures { IfOk result (λ next. next ≡ self.now) }
    {
        let cookies = self.cookies.copy(alloc)?;
        self.with_cookies(alloc, cookies)
    }

    /// The same content with other cookies.
    pub fn with_cookies(&self, alloc: Global, cookies: ById) -> Result<Content, NoMemory>
        ensures { IfOk result (λ next. next ≡ record self.now { cookies = cookies }) }
    {
        Ok(Content {
            cookies,
            loads: self.loads.copy(alloc)?,
            bound: self.bound.copy(alloc)?,
            posts: self.posts.copy(alloc)?,
            listens: self.listens.copy(alloc)?,
            listeners: self.listeners.copy(alloc)?,
            batches: self.batches.copy(alloc)?,
            calls: self.calls,
            entries: self.entries,
        })
    }

    /// Notes one more entry of a caller.
    pub fn count_call(&mut self)
        requires calls { self.old.calls < 2 ^ 64 - 1 }
        requires entries { self.old.entries < 2 ^ 64 - 1 }
        ensures { self.new ≡ steps.called self.old }
    {
        self.calls += 1;
        self.entries += 1;
    }

    /// Notes one more entry of the jar's own.
    pub fn count_own(&mut self)
        requires { self.old.entries < 2 ^ 64 - 1 }
        ensures { self.new ≡ steps.noted self.old }
    {
        self.entries += 1;
    }

    /// Notes that these rows are to be committed.
    pub fn touch(&mut self, alloc: Global, changes: &[RowChange]) -> Result<(), NoMemory>
        requires { IsStrictlySortedBy change_cmp changes.now }
        ensures { OnOk result (self.new ≡ steps.batched changes.now self.old) }
    {
        self.batches.touch(alloc, changes)
    }

    /// Takes the step of an entry that is of the batches alone. It takes no memory.
    pub fn take_step(&mut self, entry: &Entry)
        requires batches { takes_memory (steps.event_of entry.now) ≡ false }
        requires room { self.old.entries < 2 ^ 64 - 1 }
        ensures { self.new ≡ steps.after self.old (steps.event_of entry.now) }
    {
        if let Entry::Jar(own) = entry {
            self.batches.step(self.entries + 1, own);
            self.count_own();
        }
    }
}
