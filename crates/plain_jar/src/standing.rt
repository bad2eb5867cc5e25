//! How what an op needs stands.

ghost use Rattle.std.specs.Prelude.{◌≡◌, IfOk, Some};
ghost use Rattle.jar_types.specs.Waits as waits;
ghost use Rattle.plain_jar.specs.Needs.{awaited_of, pending_in, lost_in};

use crate::content::Content;
use crate::loads::Loads;
use crate::need::{Need, need_of};
use crate::stepped::Stepped;
use jar_types::{NoMemory, Op, Reply};
use std::alloc::Global;

/// How what an op needs stands: it isn't there, and no load of it was lost, or one was; or the op needs nothing that
/// isn't there.
#[derive(Clone, Copy)]
pub enum Standing<'op> {
    Pending(Need<'op>),
    Lost(Need<'op>),
    There,
}

/// How what an op needs stands.
///
/// This jar's own rule: docs/DEFINITIONS.md.
pub fn standing_of<'op>(loads: &Loads, op: &'op Op) -> Standing<'op>
    ensures pending { pending_in result ≡ waits.pending loads.now (waits.needs op.now) }
    ensures lost { lost_in result ≡ waits.faulted loads.now (waits.needs op.now) }
{
    match need_of(op) {
        Some(need) => of_need(loads, need),
        None => Standing::There,
    }
}

/// How a need stands.
fn of_need<'op>(loads: &Loads, need: Need<'op>) -> Standing<'op>
    ensures pending { pending_in result ≡ waits.pending loads.now (Some (awaited_of need.entry)) }
    ensures lost { lost_in result ≡ waits.faulted loads.now (Some (awaited_of need.entry)) }
{
    if loads.is_there(need) {
        Standing::There
    } else if loads.is_lost(need) {
        Standing::Lost(need)
    } else {
        Standing::Pending(need)
    }
}

/// A call that needs what was lost is told so, and the mark goes.
///
/// This jar's own rule: docs/DEFINITIONS.md.
pub fn fault(alloc: Global, content: &Content, need: Need) -> Result<Stepped, NoMemory>
    ensures { IfOk result (λ s. s ≡ waits.fault_step content.now (awaited_of need.entry)) }
{
    let mut next = content.copy(alloc)?;
    next.loads.unmark(need);
    Ok(Stepped {
        content: next,
        reply: Reply::StoreFault,
        changes: Vec::new(alloc),
    })
}
