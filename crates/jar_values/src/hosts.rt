//! Hosts of cookies.

ghost use Rattle.std.specs.Prelude.{◌≡◌};
ghost use Rattle.jar_values.specs.Hosts as spec;

/// The host or the domain of a cookie, without one leading dot.
///
/// RFC 6265, section 5.2.3.
pub fn undotted(host: &str) -> &str
    ensures { result.now ≡ spec.undotted host.now }
{
    if host.starts_with(".") {
        &host[1..]
    } else {
        host
    }
}
