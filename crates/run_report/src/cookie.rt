//! Cookies as JSON.

ghost use Rattle.std.specs.Prelude.{◌≡◌};
ghost use Rattle.run_report.specs.Cookies.{priority_word, same_site_word, cookie_data, cookies_data};
ghost use Rattle.run_report.specs.Tokens.{WritesData};

use crate::member::{write_flag, write_moment, write_moment_or_null, write_text, write_word};
use jar_types::Cookie;
use jar_values::{Priority, SameSite};
use json::Writer;
use std::alloc::AllocError;

/// Writes a cookie.
pub fn write_cookie(out: &mut Writer, cookie: &Cookie) -> Result<(), AllocError>
    ensures { WritesData result out.old out.new (cookie_data cookie.now) }
{
    out.begin_object()?;
    write_moment(out, "access", cookie.access)?;
    write_moment(out, "creation", cookie.creation)?;
    write_moment_or_null(out, "expiry", cookie.expiry)?;
    write_text(out, "host", &cookie.host)?;
    write_flag(out, "http_only", cookie.http_only)?;
    write_text(out, "key", &cookie.key)?;
    write_text(out, "name", &cookie.name)?;
    write_text(out, "path", &cookie.path)?;
    write_word(out, "priority", priority_word(cookie.priority))?;
    write_word(out, "same_site", same_site_word(cookie.same_site))?;
    write_flag(out, "secure", cookie.secure)?;
    write_text(out, "value", &cookie.value)?;
    out.end_object()?;
    Ok(())
}

/// Writes the list of these cookies.
pub fn write_cookies(out: &mut Writer, cookies: &[Cookie]) -> Result<(), AllocError>
    ensures { WritesData result out.old out.new (cookies_data cookies.now) }
{
    out.begin_array()?;
    for cookie in cookies {
        write_cookie(out, cookie)?;
    }
    out.end_array()
}

/// The word of a priority.
fn priority_word(priority: Priority) -> &'static str
    ensures { result.now ≡ priority_word priority }
{
    match priority {
        Priority::Low => "low",
        Priority::Medium => "medium",
        Priority::High => "high",
    }
}

/// The word of a SameSite.
fn same_site_word(same_site: SameSite) -> &'static str
    ensures { result.now ≡ same_site_word same_site }
{
    match same_site {
        SameSite::Unspecified => "unspecified",
        SameSite::NoLimit => "none",
        SameSite::Lax => "lax",
        SameSite::Strict => "strict",
    }
}
