//! The jar.

use crate::bind::cell_of;
use crate::content::Content;
use crate::own::of_batches;
use crate::step::{Next, step};
use jar_types::{
    Awaited, CoreRefusal, Entry, Event, JarCore, LoadWish, NoMemory, Own, Prepared, RowChanges,
    Texts,
};
use std::alloc::Global;
use std::marker::Model;

/// A jar whose content is a plain list of cookies, seen as its state and the next one.
///
/// An entry that was made ready has the whole content after it beside it, so settling takes no
/// memory. One of the batches alone has none, since its step is taken in place.
#[derive(Drop)]
pub struct PlainJar {
    content: Content,
    next: Option<Content>,
}

impl Model for PlainJar {
    ghost use Rattle.std.specs.Prelude.{IfSome};
    ghost use Rattle.jar_types.specs.Counts.{IsCounted};
    ghost use Rattle.plain_jar.specs.Contents.{Contents};

    ghost Value = { Contents };

    ghost view = { λ j. record { state = j.content; next = j.next } };

    ghost invariant = { λ j. record {
      content : IsCounted j.content;
      next : IfSome j.next IsCounted;
    } };
}

impl JarCore for PlainJar {
    ghost use Rattle.plain_jar.specs.Contents.{IsReady};

    ghost state = { λ j. j.state };

    ghost ready = { λ j p. IsReady j p };

    fn fresh(alloc: Global, keys: Texts) -> Result<PlainJar, NoMemory> {
        Ok(PlainJar {
            content: Content::new(alloc, keys),
            next: None,
        })
    }

    #[tactic(auto, using(jar_types::proofs::JournalLemmas::event_back, jar_types::proofs::CountLemmas::entries_count))]
    fn prepare(&mut self, alloc: Global, event: &Event) -> Result<Prepared, CoreRefusal> {
        if let Some(own) = of_batches(event) {
            self.next = None;
            return Ok(Prepared {
                entry: Entry::Jar(own),
                moved: Texts::new(alloc),
                rows: RowChanges::new(alloc),
            });
        }
        let Next { content, prepared } = step(alloc, &self.content, event)?;
        self.next = Some(content);
        Ok(prepared)
    }

    fn cell_of(&self, key: &str) -> Option<u32> {
        cell_of(&self.content.bound, key)
    }

    fn stands(&self, own: &Own) -> bool {
        self.content.loads.may(own) && self.content.batches.may(own)
    }

    fn next_load(&self) -> LoadWish {
        self.content.loads.wish()
    }

    fn is_wanted(&self, awaited: &Awaited) -> bool {
        self.content.loads.is_awaited(awaited)
    }

    #[tactic(auto, using(jar_types::proofs::CountLemmas::entries_count))]
    fn settle(&mut self, prepared: Prepared) -> (Entry, RowChanges) {
        let Prepared { entry, rows, .. } = prepared;
        match self.next.take() {
            Some(next) => self.content = next,
            None => self.content.take_step(&entry),
        }
        (entry, rows)
    }
}
