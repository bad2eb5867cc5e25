//! Why an input is refused.

use jar_values::{NoMemory, Text};

/// The names of refusals of an input, in the order in which they apply.
#[derive(Clone, Copy, Debug, PartialEq, Eq)]
pub enum Refusal {
    /// It has too many bytes.
    TooLarge,
    /// It is no JSON text.
    NotJson,
    /// It isn't of the form of a script.
    Shape,
    /// It has too many actors, or too many steps.
    TooMany,
    /// A moment lies outside the years 1970 to 9999.
    BadMoment,
    /// Its suffix list is refused.
    BadSuffixes,
    /// A URL is no place, and those before it are.
    BadPlace,
    /// Its actors wait for one another.
    Deadlock,
}

/// A refusal of an input: its name, and the path in the input, a JSON Pointer.
///
/// RFC 6901; the names are this jar's own rule: docs/DEFINITIONS.md.
#[derive(Drop)]
pub struct Refused {
    pub name: Refusal,
    pub path: Text,
}

/// Why an input gives no script.
#[derive(Drop)]
pub enum ScriptRefusal {
    /// It is refused.
    Refused(Refused),
    /// Memory was wanting.
    NoMemory,
}

impl From<NoMemory> for ScriptRefusal {
    ghost use Rattle.std.specs.Prelude.{◌≡◌};
    ghost use Rattle.script_text.specs.declared.refused.ScriptRefusal.TheVariants.{NoMemory as WantOfMemory};

    ghost from_gives = { λ _ refusal. refusal ≡ WantOfMemory };

    fn from(_error: NoMemory) -> ScriptRefusal {
        ScriptRefusal::NoMemory
    }
}
