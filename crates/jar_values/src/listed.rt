//! Lists of values of one type.

ghost use Rattle.std.specs.Prelude.{◌≡◌, ◌++◌, ◌∷◌, [], IfNone, OnOk, OnErr, length, slice_get};
ghost use Rattle.std.specs.Prelude.{option_copied, option_to_list};

use crate::memory::NoMemory;
use std::alloc::Global;
use std::marker::Model;

/// Values in their order, seen as their list.
#[derive(Drop)]
pub struct Listed<T> {
    items: Vec<T>,
}

impl<T> Model for Listed<T> {
    ghost use Rattle.std.specs.Prelude.{List};

    ghost Value = { List T };

    ghost view = { λ listed. listed.items.items };
}

impl<T> Listed<T> {
    /// No value.
    pub fn new(alloc: Global) -> Listed<T>
        ensures { result ≡ [] }
    {
        Listed {
            items: Vec::new(alloc),
        }
    }

    /// The values of a vector, which it keeps.
    pub fn from_vec(items: Vec<T>) -> Listed<T>
        ensures { result ≡ items.items }
    {
        Listed { items }
    }

    /// Their vector.
    pub fn into_vec(self) -> Vec<T>
        ensures { result.items ≡ self }
    {
        self.items
    }

    /// How many there are.
    pub fn len(&self) -> usize
        ensures { result ≡ length self.now }
    {
        self.items.len()
    }

    /// The one at an index, counted from 0; none past the last.
    pub fn get(&self, index: usize) -> Option<&T>
        ensures { option_copied result ≡ slice_get self.now index }
    {
        self.items.get(index)
    }

    /// All of them.
    pub fn as_slice(&self) -> &[T]
        ensures { result.now ≡ self.now }
    {
        self.items.as_slice()
    }

    /// Takes the last one out; none where there is none.
    pub fn pop(&mut self) -> Option<T>
        ensures taken { self.old ≡ self.new ++ option_to_list result }
        ensures none { IfNone result (self.old ≡ []) }
    {
        self.items.pop()
    }
}

impl<T: Drop> Listed<T> {
    /// Adds one at the end. Where memory is wanting the list stays.
    pub fn push(&mut self, item: T) -> Result<(), NoMemory>
        ensures ok { OnOk result (self.new ≡ self.old ++ item ∷ []) }
        ensures err { OnErr result (self.new ≡ self.old) }
    {
        self.items.push(item)?;
        Ok(())
    }
}

impl<T: Copied + Drop> Listed<T> {
    ghost use Rattle.std.specs.Prelude.{◌≡◌, IfOk};

    /// The same list again.
    pub fn copy(&self, alloc: Global) -> Result<Listed<T>, NoMemory>
        ensures { IfOk result (λ copies. copies ≡ self.now) }
    {
        let mut copies = Listed::new(alloc);
        for item in self.as_slice() {
            copies.push(item.copied(alloc)?)?;
        }
        Ok(copies)
    }
}

/// What can be copied, so that lists of it can.
pub trait Copied {
    ghost use Rattle.std.specs.Prelude.{◌≡◌, IfOk};

    /// The same value again.
    fn copied(&self, alloc: Global) -> Result<Self, NoMemory>
        ensures { IfOk result (λ again. again ≡ self.now) };
}
