//! What ops need of the stored cookies.

ghost use Rattle.std.specs.Prelude.{◌≡◌, true, IfOk, OnErr, option_map};
ghost use Rattle.jar_types.specs.Waits.{needs};
ghost use Rattle.plain_jar.specs.Needs.{awaited_of, is_of_key};

use jar_types::{Awaited, NoMemory, Op, Text};
use std::alloc::Global;

/// What has to be loaded for an op: the stored cookies of a key, or all.
#[derive(Clone, Copy)]
pub enum Need<'op> {
    Key(&'op Text),
    All,
}

impl Need<'_> {
    /// What is awaited, with a text of its own. Memory is wanted only for the text of a key.
    pub fn awaited(self, alloc: Global) -> Result<Awaited, NoMemory>
        ensures value { IfOk result (λ awaited. awaited ≡ awaited_of self.entry) }
        ensures key { OnErr result (is_of_key self.entry ≡ true) }
    {
        match self {
            Need::Key(key) => Ok(Awaited::Key(key.copy(alloc)?)),
            Need::All => Ok(Awaited::All),
        }
    }
}

/// What has to be loaded for an op; none where it needs nothing of the stored cookies.
///
/// This jar's own rule: docs/DEFINITIONS.md.
pub fn need_of(op: &Op) -> Option<Need<'_>>
    ensures { option_map awaited_of result ≡ needs op.now }
{
    match op {
        Op::Set { cookie, .. } => Some(Need::Key(&cookie.key)),
        Op::Get(request) => Some(Need::Key(&request.key)),
        Op::Delete { key, .. } => Some(Need::Key(key)),
        Op::All | Op::Clear => Some(Need::All),
        Op::Bind(_)
        | Op::Listen(_)
        | Op::Changes(_)
        | Op::Unlisten(_)
        | Op::Post
        | Op::Hear { .. } => None,
    }
}
