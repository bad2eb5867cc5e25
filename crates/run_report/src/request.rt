//! Requests as JSON.

ghost use Rattle.std.specs.Prelude.{◌≡◌, option_copied};
ghost use Rattle.run_report.specs.Requests.{context_word, request_data, request_or_null};
ghost use Rattle.run_report.specs.Tokens.{WritesData, WritesMember};

use crate::member::{write_flag, write_text, write_word};
use jar_types::{Context, Request};
use json::Writer;
use std::alloc::AllocError;

/// Writes a request.
pub fn write_request(out: &mut Writer, request: &Request) -> Result<(), AllocError>
    ensures { WritesData result out.old out.new (request_data request.now) }
{
    out.begin_object()?;
    write_word(out, "context", context_word(request.context))?;
    write_text(out, "host", &request.host)?;
    write_text(out, "key", &request.key)?;
    write_text(out, "path", &request.path)?;
    write_flag(out, "script", request.script)?;
    write_flag(out, "secure", request.secure)?;
    out.end_object()?;
    Ok(())
}

/// Writes a member that is a request, or null.
pub fn write_request_or_null(
    out: &mut Writer,
    name: &str,
    request: Option<&Request>,
) -> Result<(), AllocError>
    ensures { WritesMember result out.old out.new name.now
        (request_or_null (option_copied request.entry)) }
{
    out.key(name)?;
    match request {
        None => out.null(),
        Some(request) => write_request(out, request),
    }
}

/// The word of a context.
fn context_word(context: Context) -> &'static str
    ensures { result.now ≡ context_word context }
{
    match context {
        Context::Strict => "strict",
        Context::Lax => "lax",
        Context::LaxUnsafe => "lax_unsafe",
        Context::Cross => "cross",
    }
}
