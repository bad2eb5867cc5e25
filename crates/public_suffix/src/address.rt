//! Hosts that are IP addresses.

ghost use Rattle.std.specs.Prelude.{◌≡◌};
ghost use Rattle.std.specs.Char.{is_ascii_digit};
ghost use Rattle.std.specs.List.{list_all};
ghost use Rattle.jar_values.specs.Hosts as spec;

/// Whether a host is an IP address: it begins with `[`, or its last label is a decimal number.
///
/// The URL Standard, section 3.5 (host serializing); that any number ends an address is this jar's
/// own rule: docs/DEFINITIONS.md.
pub fn is_ip_host(host: &str) -> bool
    ensures { result ≡ spec.is_ip_host host.now }
{
    host.starts_with("[") || is_number(last_label(host))
}

/// The label after the last dot.
fn last_label(host: &str) -> &str
    ensures { result.now ≡ spec.last_label host.now }
{
    match host.rsplit_once('.') {
        Some((_, label)) => label,
        None => host,
    }
}

/// Whether a label is a decimal number.
fn is_number(label: &str) -> bool
    ensures { result ≡ spec.is_number label.now }
{
    !label.is_empty() && has_only_digits(label)
}

/// Whether each byte of a label is a decimal digit.
fn has_only_digits(label: &str) -> bool
    ensures { result ≡ list_all is_ascii_digit label.now }
{
    label.bytes().all(|b| b.is_ascii_digit())
}
