//! Paths.

ghost use Rattle.std.specs.Prelude.{◌≡◌, ◌==◌, count_by};
ghost use Rattle.std.specs.List.{before_last};
ghost use Rattle.jar_values.specs.Paths.{path_matches};
ghost use Rattle.jar_values.specs.Paths as paths;
ghost use Rattle.site_match.specs.DefaultPaths as spec;

/// Whether a request's path is a cookie's, or goes on below it.
///
/// RFC 6265, section 5.1.4.
pub fn path_match(request: &str, cookie: &str) -> bool
    ensures { result ≡ path_matches request.now cookie.now }
{
    request == cookie || goes_below(request, cookie)
}

/// Whether a request's path begins with a cookie's, up to a slash.
fn goes_below(request: &str, cookie: &str) -> bool
    ensures { result ≡ paths.goes_below request.now cookie.now }
{
    match request.as_bytes().strip_prefix(cookie.as_bytes()) {
        Some(rest) => cookie.as_bytes().ends_with(b"/") || rest.starts_with(b"/"),
        None => false,
    }
}

/// The path of a cookie that names none, from the path of its URL.
///
/// RFC 6265, section 5.1.4.
pub fn default_path(path: &str) -> &str
    ensures { result.now ≡ spec.default_path path.now }
{
    if !path.as_bytes().starts_with(b"/") || slash_count(path) <= 1 {
        "/"
    } else {
        before_last_slash(path)
    }
}

/// How many slashes a path has.
fn slash_count(path: &str) -> usize
    ensures { result ≡ count_by (λ b. b == 47) path.now }
{
    path.bytes().filter(|b| *b == b'/').count()
}

/// What stands before the last slash of a path.
fn before_last_slash(path: &str) -> &str
    ensures { result.now ≡ before_last (λ b. b == 47) path.now }
{
    match path.rsplit_once('/') {
        Some((front, _)) => front,
        None => "",
    }
}
