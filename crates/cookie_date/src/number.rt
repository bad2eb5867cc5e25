//! Numbers at the front of a token.

ghost use Rattle.std.specs.Prelude.{◌≡◌, ◌<◌, ◌≤◌, IfSome};
ghost use Rattle.cookie_date.specs.Number as spec;

/// The number at the front of the bytes and what follows it; none where it has fewer than `least`
/// digits or more than `most`.
#[tactic(auto, unfolding(crate::specs::Number::read_number), using(crate::proofs::NumberLemmas::front_digits))]
pub fn read_number(bytes: &[u8], least: usize, most: usize) -> Option<(u16, &[u8])>
    requires { most ≤ 4 }
    ensures value { spec.read_view result ≡ spec.read_number least most bytes.now }
    ensures bound { IfSome result (λ read. read.0 < 10_000) }
{
    let count = leading_digits(bytes);
    if count < least || count > most {
        return None;
    }
    Some((digits_value(&bytes[..count]), &bytes[count..]))
}

/// How many digits the bytes begin with.
fn leading_digits(bytes: &[u8]) -> usize
    ensures { result ≡ spec.leading_digits bytes.now }
{
    bytes
        .iter()
        .take_while(|byte| byte.is_ascii_digit())
        .count()
}

/// The number that at most four digits write.
fn digits_value(digits: &[u8]) -> u16
    requires all { spec.AreDigits digits.now }
    requires few { spec.IsShort digits.now }
    ensures value { result ≡ spec.digits_value digits.now }
    ensures bound { result < 10_000 }
{
    let mut number = 0u16;
    for digit in digits {
        number = number * 10 + u16::from(*digit - b'0');
    }
    number
}
