//! The value of a Max-Age attribute.

ghost use Rattle.std.specs.Prelude.{◌≡◌, true};
ghost use Rattle.std.specs.List.{list_all};
ghost use Rattle.std.specs.Char.{is_ascii_digit};
ghost use Rattle.set_cookie_line.specs.MaxAge as spec;

/// The most seconds that a Max-Age keeps a cookie: 400 days.
///
/// The 6265bis draft, section 5.5.
pub const MAX_AGE_SECONDS: u32 = 34_560_000;

/// The seconds of a Max-Age value, at most [`MAX_AGE_SECONDS`], and 0 for a negative one; none
/// where it is no number.
///
/// The 6265bis draft, section 5.6.2.
pub fn read_max_age(value: &[u8]) -> Option<u32>
    ensures { result ≡ spec.read_max_age value.now }
{
    if let Some(digits) = value.strip_prefix(b"-") {
        return if is_numeral(digits) { Some(0) } else { None };
    }
    if is_numeral(value) {
        Some(seconds_of(value))
    } else {
        None
    }
}

/// Whether the bytes are digits, and one at least.
fn is_numeral(bytes: &[u8]) -> bool
    ensures { result ≡ spec.is_numeral bytes.now }
{
    !bytes.is_empty() && are_digits(bytes)
}

/// Whether the bytes are digits.
fn are_digits(bytes: &[u8]) -> bool
    ensures { result ≡ list_all is_ascii_digit bytes.now }
{
    bytes.iter().all(|byte| byte.is_ascii_digit())
}

/// The seconds that digits write, or the most that is kept.
fn seconds_of(digits: &[u8]) -> u32
    requires { list_all is_ascii_digit digits.now ≡ true }
    ensures { result ≡ spec.seconds_of digits.now }
{
    let mut seconds = 0u32;
    for digit in digits {
        seconds = (seconds * 10 + u32::from(*digit - b'0')).min(MAX_AGE_SECONDS);
    }
    seconds
}
