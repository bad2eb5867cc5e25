//! Posts and hears.

ghost use Rattle.std.specs.Prelude.{◌≡◌, ◌-◌, ◌^◌, IfOk};
ghost use Rattle.jar_types.specs.Counts.{TalliesUpTo};
ghost use Rattle.jar_types.specs.Posts as posts;

use crate::content::Content;
use crate::stepped::Stepped;
use crate::tally::{counted, tally_of};
use jar_types::{NoMemory, Op, Reply};
use std::alloc::Global;

/// The caller made one more post.
///
/// This jar's own rule: docs/DEFINITIONS.md.
pub fn post(alloc: Global, content: &Content, caller: u32) -> Result<Stepped, NoMemory>
    requires { TalliesUpTo (2 ^ 64 - 2) content.now.posts }
    ensures { IfOk result (λ s. s ≡ posts.post_step content.now caller) }
{
    let mut next = content.copy(alloc)?;
    next.posts = counted(alloc, &content.posts, caller)?;
    let made = tally_of(next.posts.as_slice(), caller);
    Ok(Stepped {
        content: next,
        reply: Reply::Posted(made),
        changes: Vec::new(alloc),
    })
}

/// A post that has been made is heard.
///
/// This jar's own rule: docs/DEFINITIONS.md.
pub fn hear(alloc: Global, content: &Content) -> Result<Stepped, NoMemory>
    ensures { IfOk result (λ s. s ≡ posts.hear_step content.now) }
{
    Ok(Stepped {
        content: content.copy(alloc)?,
        reply: Reply::Heard,
        changes: Vec::new(alloc),
    })
}

/// How many posts were made, where an op is a Hear that wants more.
///
/// This jar's own rule: docs/DEFINITIONS.md.
pub fn op_wanting(content: &Content, op: &Op) -> Option<u64>
    ensures { result ≡ posts.op_wanting content.now op.now }
{
    match op {
        Op::Hear { actor, n } => fewer_posts(content, *actor, *n),
        Op::Bind(_)
        | Op::Set { .. }
        | Op::Get(_)
        | Op::Delete { .. }
        | Op::All
        | Op::Clear
        | Op::Listen(_)
        | Op::Changes(_)
        | Op::Unlisten(_)
        | Op::Post => None,
    }
}

/// How many posts an actor has made, where that is fewer than these.
fn fewer_posts(content: &Content, actor: u32, n: u64) -> Option<u64>
    ensures { result ≡ posts.fewer_posts content.now actor n }
{
    let made = tally_of(content.posts.as_slice(), actor);
    if made < n { Some(made) } else { None }
}
