//! Names of a reserved form.

ghost use Rattle.std.specs.Prelude.{◌≡◌};
ghost use Rattle.jar_values.specs.Names as spec;

/// The most bytes of a cookie's name and value together.
///
/// The 6265bis draft, section 5.6.
pub const MAX_PAIR_BYTES: usize = 4096;

/// Whether a text begins as a name does that asks for Secure: with `__Secure-`, in any case.
///
/// The 6265bis draft, section 5.4.
pub fn has_secure_prefix(text: &str) -> bool
    ensures { result ≡ spec.has_secure_prefix text.now }
{
    begins_with(b"__Secure-", text.as_bytes())
}

/// Whether a text begins as a name does that asks for Secure, one host and the path of its root:
/// with `__Host-`, in any case.
///
/// The 6265bis draft, section 5.4.
pub fn has_host_prefix(text: &str) -> bool
    ensures { result ≡ spec.has_host_prefix text.now }
{
    begins_with(b"__Host-", text.as_bytes())
}

/// Whether a text begins as a name of a reserved form does.
///
/// The 6265bis draft, section 5.4.
pub fn is_reserved(text: &str) -> bool
    ensures { result ≡ spec.is_reserved text.now }
{
    has_secure_prefix(text) || has_host_prefix(text)
}

/// Whether a text begins with another, without ASCII case.
fn begins_with(head: &[u8], text: &[u8]) -> bool
    ensures { result ≡ spec.begins_with head.now text.now }
{
    head.len() <= text.len() && text[..head.len()].eq_ignore_ascii_case(head)
}
