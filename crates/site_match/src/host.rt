//! Domain matching.

ghost use Rattle.std.specs.Prelude.{◌≡◌, ◌&&◌, nat_eq, codes, drop};
ghost use Rattle.std.specs.List.{starts_with};
ghost use Rattle.jar_values.specs.Hosts.{domain_matches};
ghost use Rattle.jar_values.specs.Hosts as hosts;
ghost use Rattle.jar_types.specs.Matches.{host_matches};

use public_suffix::is_ip_host;

/// Whether a host is a domain, or a name below it and no IP address.
///
/// RFC 6265, section 5.1.3.
pub fn domain_match(host: &str, domain: &str) -> bool
    ensures { result ≡ domain_matches host.now domain.now }
{
    host == domain || (is_below(host, domain) && !is_ip_host(host))
}

/// Whether a host ends with a dot and a domain.
fn is_below(host: &str, domain: &str) -> bool
    ensures { result ≡ hosts.is_below host.now domain.now }
{
    match host.as_bytes().strip_suffix(domain.as_bytes()) {
        Some(front) => front.ends_with(b"."),
        None => false,
    }
}

/// Whether a host is the one of a cookie, or below its domain where that follows a dot.
///
/// RFC 6265, section 5.4, step 1.
pub fn host_match(host: &str, cookie: &str) -> bool
    ensures { result ≡ host_matches host.now cookie.now }
{
    host == cookie || is_in_domain(host, cookie)
}

/// Whether a cookie's host is a dot and a domain that a host matches.
fn is_in_domain(host: &str, cookie: &str) -> bool
    ensures { result ≡ (starts_with nat_eq cookie.now (codes ".")
        && domain_matches host.now (drop 1 cookie.now)) }
{
    cookie.starts_with(".") && domain_match(host, &cookie[1..])
}
