//! The labels of hosts.

ghost use Rattle.std.specs.Prelude.{◌+◌, ◌≡◌, ◌<◌, ◌≤◌, ◌∷◌, [], length, MatchOption};
ghost use Rattle.std.specs.List.{list_any};
ghost use Rattle.public_suffix.specs.Labels as spec;
ghost use Rattle.public_suffix.specs.Labels.{labels_of, dotted, is_empty};

use crate::address::is_ip_host;

/// The first label of a host and what follows its dot, if it has one.
pub fn split_label(host: &str) -> Option<(&str, &str)>
    ensures parts { MatchOption result (labels_of host.now ≡ host.now ∷ [])
        (λ x. labels_of host.now ≡ x.0.now ∷ labels_of x.1.now) }
    ensures shorter { MatchOption result (Unit {0}) (λ x. length x.1.now < length host.now) }
{
    host.split_once('.')
}

/// How many labels a host has.
pub fn count_labels(host: &str) -> usize
    ensures value { result ≡ length (labels_of host.now) }
    ensures bound { result ≤ length host.now + 1 }
{
    let mut rest = host;
    let mut count = 1;
    'labels: while let Some((_, next)) = split_label(rest) {
        rest = next;
        count += 1;
    }
    count
}

/// Its last `n` labels, with their dots; the host where it has fewer.
pub fn last_labels(host: &str, n: usize) -> &str
    requires { 0 < n }
    ensures { result.now ≡ dotted (spec.last_labels n (labels_of host.now)) }
{
    let mut rest = host;
    let mut left = count_labels(host);
    'labels: while left > n {
        let Some((_, next)) = split_label(rest) else {
            return rest;
        };
        rest = next;
        left -= 1;
    }
    rest
}

/// Whether a host has an empty label.
pub fn has_empty_label(host: &str) -> bool
    ensures { result ≡ list_any is_empty (labels_of host.now) }
{
    let mut rest = host;
    'labels: while let Some((label, next)) = split_label(rest) {
        if label.is_empty() {
            return true;
        }
        rest = next;
    }
    rest.is_empty()
}

/// Whether a host has a public suffix.
pub fn has_suffix(host: &str) -> bool
    ensures { result ≡ spec.has_suffix host.now }
{
    !is_ip_host(host) && !has_empty_label(host)
}
