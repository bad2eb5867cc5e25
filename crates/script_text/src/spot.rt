//! Where the members of a script stand.

ghost use Rattle.std.specs.Prelude.{◌≡◌, IfOk, string_bytes};
ghost use Rattle.script_text.specs.Walk as spec;

use jar_values::{NoMemory, Text};
use std::alloc::Global;

/// An actor of a script, or a step of one, each counted from 0.
#[derive(Clone, Copy)]
pub enum Spot {
    OfActor { actor: usize },
    OfStep { actor: usize, step: usize },
}

impl Spot {
    /// The path of a member there.
    pub fn member_path(self, alloc: Global, key: &str) -> Result<Text, NoMemory>
        ensures { IfOk result (λ path. path ≡ spec.member_path self key.now) }
    {
        let path = self.path(alloc)?;
        let path = format!(in alloc; "{path}/{key}")?;
        Text::from_string(path)
    }

    /// Its path.
    fn path(self, alloc: Global) -> Result<String, NoMemory>
        ensures { IfOk result (λ path. string_bytes path ≡ spec.path_of self) }
    {
        match self {
            Spot::OfActor { actor } => Ok(format!(in alloc; "/actors/{actor}")?),
            Spot::OfStep { actor, step } => Ok(format!(in alloc; "/actors/{actor}/steps/{step}")?),
        }
    }

    /// Its path, as a text.
    pub fn path_text(self, alloc: Global) -> Result<Text, NoMemory>
        ensures { IfOk result (λ path. path ≡ spec.path_of self) }
    {
        Text::from_string(self.path(alloc)?)
    }
}
