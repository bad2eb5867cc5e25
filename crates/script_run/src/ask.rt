//! What a step asks of the jar.

ghost use Rattle.std.specs.Prelude.{◌≡◌, IfOk, IsSome, Some, false};
ghost use Rattle.restricted_manager.specs.Documents.{asked_place};
ghost use Rattle.restricted_manager.specs.Requests as requests;
ghost use Rattle.restricted_manager.specs.Writes.{write_at};
ghost use Rattle.set_cookie_line.specs.Line.{read_line as line_read};
ghost use Rattle.script_run.specs.Ask as spec;
ghost use Rattle.script_run.specs.Legal.{is_read};
ghost use Rattle.script_run.specs.Players.{view_of};

use canonical_cookie::make;
use jar_types::{CookieId, Moment, NoMemory, Op, Request, Scope, Text, undotted};
use public_suffix::Suffixes;
use restricted_manager::{Manager, WriteRefusal};
use run_report::RefusalName;
use script_text::{Step, What};
use set_cookie_line::{Line, read_line};
use site_match::{FetchAsk, Place, context};
use std::alloc::Global;

/// What a step asks of the jar.
#[derive(Drop)]
pub enum Ask {
    /// An op.
    Op(Op),
    /// Nothing, since its line or its cookie is refused by this name.
    Refused(RefusalName),
}

/// What a step that is no read asks by the suffix rules, of an actor with this manager where it
/// renders. A line is read here, once.
///
/// Only want of memory refuses. This jar's own rule: docs/DEFINITIONS.md.
pub fn ask_of(
    alloc: Global,
    suffixes: &Suffixes,
    manager: &Option<Manager>,
    step: &Step,
) -> Result<Ask, NoMemory>
    requires asks { IsSome (spec.ask_at suffixes.now (view_of manager.now) step.now.now step.now.what) }
    requires unread { is_read step.now.what ≡ false }
    ensures { IfOk result (λ ask. spec.ask_at suffixes.now (view_of manager.now)
        step.entry.now.now step.entry.now.what ≡ Some ask) }
{
    match manager {
        Some(manager) => ask_of_renderer(alloc, suffixes, manager, step),
        None => ask_of_fetch(alloc, suffixes, step),
    }
}

/// What a step of a fetch asks.
fn ask_of_fetch(alloc: Global, suffixes: &Suffixes, step: &Step) -> Result<Ask, NoMemory>
    requires { IsSome (spec.ask_of_fetch suffixes.now step.now.now step.now.what) }
    ensures { IfOk result (λ ask. spec.ask_of_fetch suffixes.now step.entry.now.now
        step.entry.now.what ≡ Some ask) }
{
    match &step.what {
        What::Set { ask, line } => ask_of_text(alloc, suffixes, ask, step.now, line),
        What::Get { ask } => Ok(Ask::Op(Op::Get(request_of(alloc, ask)?))),
        What::Delete { host, name, path } => delete_of(alloc, suffixes, host, name, path),
        What::All => Ok(Ask::Op(Op::All)),
        What::Clear => Ok(Ask::Op(Op::Clear)),
        What::Listen { ask, name } => Ok(Ask::Op(Op::Listen(scope_of(alloc, ask, name)?))),
        What::Changes { listener } => Ok(Ask::Op(Op::Changes(*listener))),
        What::Unlisten { listener } => Ok(Ask::Op(Op::Unlisten(*listener))),
        What::Post => Ok(Ask::Op(Op::Post)),
        What::Hear { actor, n } => Ok(Ask::Op(Op::Hear {
            actor: *actor,
            n: *n,
        })),
        What::Read { .. } | What::Write { .. } => unreachable!(),
    }
}

/// What a step of a renderer that is no read asks.
fn ask_of_renderer(
    alloc: Global,
    suffixes: &Suffixes,
    manager: &Manager,
    step: &Step,
) -> Result<Ask, NoMemory>
    requires asks { IsSome (spec.ask_of_renderer suffixes.now
        (manager.now.document, manager.now.site) step.now.now step.now.what) }
    requires unread { is_read step.now.what ≡ false }
    ensures { IfOk result (λ ask. spec.ask_of_renderer suffixes.now
        (manager.now.document, manager.now.site) step.entry.now.now step.entry.now.what ≡ Some ask) }
{
    match &step.what {
        What::Listen { ask: _, name } => Ok(Ask::Op(listen_of(alloc, manager, name)?)),
        What::Changes { listener } => Ok(Ask::Op(Op::Changes(*listener))),
        What::Unlisten { listener } => Ok(Ask::Op(Op::Unlisten(*listener))),
        What::Post => Ok(Ask::Op(Op::Post)),
        What::Hear { actor, n } => Ok(Ask::Op(Op::Hear {
            actor: *actor,
            n: *n,
        })),
        What::Write { line, url } => ask_of_write(alloc, suffixes, manager, url, line, step.now),
        _ => unreachable!(),
    }
}

/// What a listen of a renderer asks, to all of its document's cookies or to those of a name.
fn listen_of(alloc: Global, manager: &Manager, name: &Option<Text>) -> Result<Op, NoMemory>
    ensures { IfOk result (λ op. op ≡ requests.listen_of manager.now name.now) }
{
    match name {
        Some(name) => manager.listen_op(alloc, Some(name.as_str())),
        None => manager.listen_op(alloc, None),
    }
}

/// What a write of this line by a renderer asks.
fn ask_of_write(
    alloc: Global,
    suffixes: &Suffixes,
    manager: &Manager,
    url: &Option<Place>,
    line: &Text,
    now: Moment,
) -> Result<Ask, NoMemory>
    ensures { IfOk result (λ ask. ask ≡ spec.ask_of_write (write_at suffixes.now
        manager.now (asked_place manager.now.document url.now) line.now now)) }
{
    match manager.write_op(alloc, suffixes, url.as_ref(), line.as_str(), now) {
        Ok(op) => Ok(Ask::Op(op)),
        Err(WriteRefusal::OriginMismatch) => Ok(Ask::Refused(RefusalName::OriginMismatch)),
        Err(WriteRefusal::Line(why)) => Ok(Ask::Refused(RefusalName::of_line(why)?)),
        Err(WriteRefusal::Cookie(why)) => Ok(Ask::Refused(RefusalName::of_cookie(why)?)),
        Err(WriteRefusal::NoMemory) => Err(NoMemory),
    }
}

/// What a set of this line asks.
fn ask_of_text(
    alloc: Global,
    suffixes: &Suffixes,
    ask: &FetchAsk,
    now: Moment,
    line: &Text,
) -> Result<Ask, NoMemory>
    ensures { IfOk result (λ a. a
        ≡ spec.ask_of_line suffixes.now ask.entry.now now (line_read line.now)) }
{
    match read_line(alloc, line.as_str()) {
        Ok(line) => ask_of_line(alloc, suffixes, ask, now, &line),
        Err(refusal) => Ok(Ask::Refused(RefusalName::of_line(refusal)?)),
    }
}

/// What a set of a line that reads so asks.
fn ask_of_line(
    alloc: Global,
    suffixes: &Suffixes,
    ask: &FetchAsk,
    now: Moment,
    line: &Line,
) -> Result<Ask, NoMemory>
    ensures { IfOk result (λ a. a
        ≡ spec.ask_of_line suffixes.now ask.entry.now now (Ok line.entry.now)) }
{
    match make(alloc, suffixes, line, &ask.place, context(ask), false, now) {
        Ok(cookie) => Ok(Ask::Op(Op::Set {
            cookie,
            script: false,
            secure: ask.place.scheme.is_secure(),
        })),
        Err(refusal) => Ok(Ask::Refused(RefusalName::of_cookie(refusal)?)),
    }
}

/// What a delete of the cookie of these texts asks.
fn delete_of(
    alloc: Global,
    suffixes: &Suffixes,
    host: &Text,
    name: &Text,
    path: &Text,
) -> Result<Ask, NoMemory>
    ensures { IfOk result (λ a. Some a ≡ spec.ask_of_fetch suffixes.now 0
        (What.Delete host.now name.now path.now)) }
{
    Ok(Ask::Op(Op::Delete {
        key: Text::of(alloc, suffixes.key(undotted(host.as_str())))?,
        id: CookieId {
            host: host.copy(alloc)?,
            name: name.copy(alloc)?,
            path: path.copy(alloc)?,
        },
    }))
}

/// Which changes a fetch listens to.
fn scope_of(alloc: Global, ask: &Option<FetchAsk>, name: &Option<Text>) -> Result<Scope, NoMemory>
    ensures { IfOk result (λ scope. scope ≡ spec.scope_of ask.entry.now name.now) }
{
    let Some(ask) = ask else {
        return Ok(Scope::All);
    };
    let request = request_of(alloc, ask)?;
    match name {
        Some(name) => Ok(Scope::Named(request, name.copy(alloc)?)),
        None => Ok(Scope::Seen(request)),
    }
}

/// The request of a fetch.
fn request_of(alloc: Global, ask: &FetchAsk) -> Result<Request, NoMemory>
    ensures { IfOk result (λ q. q ≡ spec.request_of ask.entry.now) }
{
    Ok(Request {
        key: ask.place.key.copy(alloc)?,
        host: ask.place.host.copy(alloc)?,
        path: ask.place.path.copy(alloc)?,
        secure: ask.place.scheme.is_secure(),
        script: false,
        context: context(ask),
    })
}
