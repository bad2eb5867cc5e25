//! Which cookies a request gets.

ghost use Rattle.std.specs.Prelude.{◌≡◌};
ghost use Rattle.jar_types.specs.Matches as spec;

use crate::host::host_match;
use crate::path::path_match;
use jar_types::{Context, Cookie, Request, UNSAFE_GRACE};
use jar_values::{Moment, SameSite};

/// Whether a request gets a cookie at a moment, its expiry aside.
///
/// RFC 6265, section 5.4, and the 6265bis draft, section 5.8.3; that keys are equal is this jar's
/// own rule: docs/DEFINITIONS.md.
pub fn matches(request: &Request, cookie: &Cookie, now: Moment) -> bool
    ensures { result ≡ spec.matches request.now cookie.now now }
{
    request.key == cookie.key
        && host_match(request.host.as_str(), cookie.host.as_str())
        && path_match(request.path.as_str(), cookie.path.as_str())
        && (!cookie.secure || request.secure)
        && (!cookie.http_only || !request.script)
        && site_allows(cookie.same_site, request.context, cookie.creation, now)
}

/// Whether SameSite lets a cookie of a creation go along in a context.
fn site_allows(same_site: SameSite, context: Context, creation: Moment, now: Moment) -> bool
    ensures { result ≡ spec.site_allows same_site context creation now }
{
    match same_site {
        SameSite::NoLimit => true,
        SameSite::Strict => matches!(context, Context::Strict),
        SameSite::Lax => matches!(context, Context::Strict | Context::Lax),
        SameSite::Unspecified => match context {
            Context::Strict | Context::Lax => true,
            Context::LaxUnsafe => now.ms() <= creation.ms() + UNSAFE_GRACE,
            Context::Cross => false,
        },
    }
}
