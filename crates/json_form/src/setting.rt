//! How a value is judged.

ghost use Rattle.std.specs.Prelude.{◌≡◌};
ghost use Rattle.serde_json.specs.View.{items_view};
ghost use Rattle.json_form.specs.Forms.{outset, by_shape};
ghost use Rattle.json_form.specs.Lists.{measured_by, counted_as};

use serde_json::Value;

/// A pass over a value.
#[derive(Clone, Copy, PartialEq, Eq)]
pub enum Pass {
    /// It finds what is out of form.
    Shapes,
    /// It finds what is no moment, in a value that is of its form.
    Moments,
}

/// The pass, and what is known of the lists round a value.
#[derive(Clone, Copy)]
pub struct Setting {
    /// The pass.
    pub pass: Pass,
    /// How long the list is that is measured.
    pub length: usize,
    /// How many items before this one are counted.
    pub count: usize,
}

impl Setting {
    /// Outside of all lists.
    pub fn outset(pass: Pass) -> Setting
        ensures { result ≡ outset pass }
    {
        Setting {
            pass,
            length: 0,
            count: 0,
        }
    }

    /// The same place in the pass of shapes.
    pub fn by_shape(self) -> Setting
        ensures { result ≡ by_shape self }
    {
        Setting {
            pass: Pass::Shapes,
            length: self.length,
            count: self.count,
        }
    }

    /// Within a list that is measured.
    pub fn measured_by(self, items: &Vec<Value>) -> Setting
        ensures { result ≡ measured_by self (items_view items.now.items) }
    {
        Setting {
            pass: self.pass,
            length: items.len(),
            count: self.count,
        }
    }

    /// Behind this many items that are counted.
    pub fn counted_as(self, count: usize) -> Setting
        ensures { result ≡ counted_as self count }
    {
        Setting {
            pass: self.pass,
            length: self.length,
            count,
        }
    }
}
