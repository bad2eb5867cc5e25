//! Texts.

ghost use Rattle.std.specs.Prelude.{◌≡◌, IfOk, string_bytes};
ghost use Rattle.std.specs.Prelude.{◌==◌};
ghost use Rattle.std.specs.Cmp.{partial_order_from_own_ties};
ghost use Rattle.std.specs.Cmp.Rules.{comparing};
ghost use Rattle.std.specs.Cmp.Lexicographic.{slice_cmp, pointwise};
ghost use Rattle.std.specs.Ordering.{nat_cmp, as_partial_cmp};
ghost use Rattle.std.proofs.Common.{rules};

use crate::listed::{Copied, Listed};
use crate::memory::NoMemory;
use std::alloc::Global;
use std::cmp::Ordering;
use std::marker::Model;
use std::sync::ArcStr;

/// The length in bytes from which on a text is too long for the readers of lists, places and scripts.
///
/// This jar's own rule: docs/DEFINITIONS.md.
pub const TEXT_END: usize = 1_073_741_824;

/// A text, seen as the list of its bytes, in their order. Its copies share one allocation.
#[derive(Drop)]
pub struct Text {
    shared: ArcStr,
}

/// Texts, seen as their list.
pub type Texts = Listed<Text>;

impl Model for Text {
    ghost use Rattle.std.specs.Prelude.{List, ℕ};
    ghost use Rattle.std.specs.Arc.{arc_str_bytes};

    ghost Value = { List ℕ };

    ghost view = { λ text. arc_str_bytes text.shared };
}

impl Text {
    /// A text of these bytes.
    pub fn of(alloc: Global, source: &str) -> Result<Text, NoMemory>
        ensures { IfOk result (λ text. text ≡ source.now) }
    {
        Ok(Text {
            shared: ArcStr::from_str(alloc, source)?,
        })
    }

    /// The text of a string.
    pub fn from_string(string: String) -> Result<Text, NoMemory>
        ensures { IfOk result (λ text. text ≡ string_bytes string) }
    {
        Ok(Text {
            shared: ArcStr::from_string(string)?,
        })
    }

    /// The text.
    pub fn as_str(&self) -> &str
        ensures { result.now ≡ self.now }
    {
        self.shared.as_str()
    }

    /// The same text again, which shares what this one holds. It takes no memory, and wants it only
    /// where there are more copies than can be counted.
    pub fn copy(&self, _alloc: Global) -> Result<Text, NoMemory>
        ensures { IfOk result (λ text. text ≡ self.now) }
    {
        Ok(Text {
            shared: self.shared.clone()?,
        })
    }
}

impl Copied for Text {
    fn copied(&self, alloc: Global) -> Result<Text, NoMemory> {
        self.copy(alloc)
    }
}

impl PartialEq for Text {
    ghost eq = { pointwise ◌==◌ };

    ghost laws = { Prim.search (comparing, rules) };

    fn eq(&self, other: &Text) -> bool {
        self.as_str() == other.as_str()
    }
}

impl Eq for Text {
    ghost laws = { Prim.search (comparing, rules) };
}

impl PartialOrd for Text {
    ghost partial_cmp = { as_partial_cmp (slice_cmp nat_cmp) };

    ghost laws = { partial_order_from_own_ties (Prim.search (comparing, rules)) (Prim.search (comparing, rules)) };

    fn partial_cmp(&self, other: &Text) -> Option<Ordering> {
        Some(self.cmp(other))
    }
}

impl Ord for Text {
    ghost cmp = { slice_cmp nat_cmp };

    ghost total = { Prim.search (comparing, rules) };

    ghost matches_partial_cmp = { Prim.search (comparing, rules) };

    ghost matches_eq = { Prim.search (comparing, rules) };

    fn cmp(&self, other: &Text) -> Ordering {
        self.as_str().cmp(other.as_str())
    }
}
