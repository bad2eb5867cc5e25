//! Ops as JSON, each with its kind.

ghost use Rattle.std.specs.Prelude.{option_copied};
ghost use Rattle.jar_types.specs.declared.op.Op.TheVariants.{Bind, Set, Get, Delete, Listen, Hear};
ghost use Rattle.run_report.specs.Ops.{op_data, kind_data, listen_data, listener_op_data};
ghost use Rattle.run_report.specs.Tokens.{WritesData};

use crate::cookie::write_cookie;
use crate::member::{write_count, write_flag, write_text, write_text_or_null, write_word};
use crate::request::{write_request, write_request_or_null};
use jar_types::{Cookie, CookieId, Op, Request, Scope};
use jar_values::Text;
use json::Writer;
use std::alloc::AllocError;

/// Writes an op.
pub fn write_op(out: &mut Writer, op: &Op) -> Result<(), AllocError>
    ensures { WritesData result out.old out.new (op_data op.now) }
{
    match op {
        Op::Bind(key) => write_bind(out, key),
        Op::Set {
            cookie,
            script,
            secure,
        } => write_set(out, cookie, *script, *secure),
        Op::Get(request) => write_get(out, request),
        Op::Delete { key, id } => write_delete(out, key, id),
        Op::All => write_kind(out, "all"),
        Op::Clear => write_kind(out, "clear"),
        Op::Listen(scope) => write_listen(out, scope),
        Op::Changes(number) => write_listener_op(out, "changes", *number),
        Op::Unlisten(number) => write_listener_op(out, "unlisten", *number),
        Op::Post => write_kind(out, "post"),
        Op::Hear { actor, n } => write_hear(out, *actor, *n),
    }
}

/// Writes the op that binds a key to a cell.
fn write_bind(out: &mut Writer, key: &Text) -> Result<(), AllocError>
    ensures { WritesData result out.old out.new (op_data (Bind key.now)) }
{
    out.begin_object()?;
    write_text(out, "key", key)?;
    write_word(out, "kind", "bind")?;
    out.end_object()
}

/// Writes the op that sets a cookie.
fn write_set(
    out: &mut Writer,
    cookie: &Cookie,
    script: bool,
    secure: bool,
) -> Result<(), AllocError>
    ensures { WritesData result out.old out.new (op_data (Set cookie.now script secure)) }
{
    out.begin_object()?;
    out.key("cookie")?;
    write_cookie(out, cookie)?;
    write_word(out, "kind", "set")?;
    write_flag(out, "script", script)?;
    write_flag(out, "secure", secure)?;
    out.end_object()?;
    Ok(())
}

/// Writes the op that gets a request's cookies.
fn write_get(out: &mut Writer, request: &Request) -> Result<(), AllocError>
    ensures { WritesData result out.old out.new (op_data (Get request.now)) }
{
    out.begin_object()?;
    write_word(out, "kind", "get")?;
    out.key("request")?;
    write_request(out, request)?;
    out.end_object()?;
    Ok(())
}

/// Writes the op that takes the cookie of an id away.
fn write_delete(out: &mut Writer, key: &Text, id: &CookieId) -> Result<(), AllocError>
    ensures { WritesData result out.old out.new (op_data (Delete key.now id.now)) }
{
    out.begin_object()?;
    write_text(out, "host", &id.host)?;
    write_text(out, "key", key)?;
    write_word(out, "kind", "delete")?;
    write_text(out, "name", &id.name)?;
    write_text(out, "path", &id.path)?;
    out.end_object()?;
    Ok(())
}

/// Writes the op that registers a listener of a scope.
fn write_listen(out: &mut Writer, scope: &Scope) -> Result<(), AllocError>
    ensures { WritesData result out.old out.new (op_data (Listen scope.now)) }
{
    match scope {
        Scope::All => write_listen_for(out, None, None),
        Scope::Seen(request) => write_listen_for(out, None, Some(request)),
        Scope::Named(request, name) => write_listen_for(out, Some(name), Some(request)),
    }
}

/// Writes the op that registers a listener for a name and a request, where they are there.
fn write_listen_for(
    out: &mut Writer,
    name: Option<&Text>,
    request: Option<&Request>,
) -> Result<(), AllocError>
    ensures { WritesData result out.old out.new
        (listen_data (option_copied name.entry) (option_copied request.entry)) }
{
    out.begin_object()?;
    write_word(out, "kind", "listen")?;
    write_text_or_null(out, "name", name)?;
    write_request_or_null(out, "request", request)?;
    out.end_object()?;
    Ok(())
}

/// Writes an op of this kind on the listener of a number.
fn write_listener_op(out: &mut Writer, kind: &str, number: u64) -> Result<(), AllocError>
    ensures { WritesData result out.old out.new (listener_op_data kind.now number) }
{
    out.begin_object()?;
    write_word(out, "kind", kind)?;
    write_count(out, "listener", number)?;
    out.end_object()?;
    Ok(())
}

/// Writes an op that has nothing but its kind.
fn write_kind(out: &mut Writer, kind: &str) -> Result<(), AllocError>
    ensures { WritesData result out.old out.new (kind_data kind.now) }
{
    out.begin_object()?;
    write_word(out, "kind", kind)?;
    out.end_object()
}

/// Writes the op that waits for the n-th Post of an actor.
fn write_hear(out: &mut Writer, actor: u32, n: u64) -> Result<(), AllocError>
    ensures { WritesData result out.old out.new (op_data (Hear actor n)) }
{
    out.begin_object()?;
    write_count(out, "actor", u64::from(actor))?;
    write_word(out, "kind", "hear")?;
    write_count(out, "n", n)?;
    out.end_object()
}
