//! The parts of a date that one token may be.

ghost use Rattle.std.specs.Prelude.{◌≡◌, ◌<◌, ◌≤◌, IfSome, MatchOption, length, map, take, position, bytes_eq, option_copied};
ghost use Rattle.std.specs.Char.{to_ascii_lowercase};
ghost use Rattle.cookie_date.specs.Token as spec;

use crate::number::read_number;

const MONTHS: [[u8; 3]; 12] = [
    *b"jan", *b"feb", *b"mar", *b"apr", *b"may", *b"jun", *b"jul", *b"aug", *b"sep", *b"oct",
    *b"nov", *b"dec",
];

/// A time of day, with the numbers as they were written.
#[derive(Clone, Copy)]
pub struct Time {
    pub hour: u16,
    pub minute: u16,
    pub second: u16,
}

/// The time that a token is.
///
/// The 6265bis draft, section 5.1.1: `time`.
#[tactic(auto, unfolding(crate::specs::Token::read_time))]
pub fn read_time(token: &[u8]) -> Option<Time>
    ensures { result ≡ spec.read_time token.now }
{
    let (hour, rest) = read_number(token, 1, 2)?;
    let (minute, rest) = read_number(after_colon(rest)?, 1, 2)?;
    let (second, _) = read_number(after_colon(rest)?, 1, 2)?;
    Some(Time {
        hour,
        minute,
        second,
    })
}

/// The day of the month that a token is.
///
/// The 6265bis draft, section 5.1.1: `day-of-month`.
#[tactic(auto, unfolding(crate::specs::Token::read_day))]
pub fn read_day(token: &[u8]) -> Option<u16>
    ensures { result ≡ spec.read_day token.now }
{
    let (day, _) = read_number(token, 1, 2)?;
    Some(day)
}

/// The month that a token is, from 1.
///
/// The 6265bis draft, section 5.1.1: `month`.
#[tactic(auto, unfolding(crate::specs::Token::read_month))]
pub fn read_month(token: &[u8]) -> Option<u8>
    ensures value { result ≡ spec.read_month token.now }
    ensures bound { IfSome result (λ month. month ≤ 12) }
{
    Some(month_place(token)? as u8 + 1)
}

/// The year that a token is, as it was written.
///
/// The 6265bis draft, section 5.1.1: `year`.
#[tactic(auto, unfolding(crate::specs::Token::read_year))]
pub fn read_year(token: &[u8]) -> Option<u16>
    ensures value { result ≡ spec.read_year token.now }
    ensures bound { IfSome result (λ year. year < 10_000) }
{
    let (year, _) = read_number(token, 2, 4)?;
    Some(year)
}

/// What follows a colon.
#[tactic(auto, unfolding(crate::specs::Token::after_colon))]
fn after_colon(bytes: &[u8]) -> Option<&[u8]>
    ensures { option_copied result ≡ spec.after_colon bytes.now }
{
    bytes.strip_prefix(b":")
}

/// The place of the month in the year, from 0.
fn month_place(token: &[u8]) -> Option<usize>
    ensures value { result ≡ spec.month_place token.now }
    ensures bound { IfSome result (λ place. place < 12) }
{
    place_of(front_letters(token)?)
}

/// The first three bytes of a token, with ASCII letters made small; none where it has fewer.
fn front_letters(token: &[u8]) -> Option<[u8; 3]>
    ensures { MatchOption result (length token.now < 3)
        (λ letters. letters ≡ map to_ascii_lowercase (take 3 token.now)) }
{
    match token {
        [first, second, third, ..] => Some([
            first.to_ascii_lowercase(),
            second.to_ascii_lowercase(),
            third.to_ascii_lowercase(),
        ]),
        _ => None,
    }
}

/// The place of a month's name in the year, from 0.
fn place_of(letters: [u8; 3]) -> Option<usize>
    ensures value { result ≡ position (bytes_eq letters) spec.month_names }
    ensures bound { IfSome result (λ place. place < 12) }
{
    MONTHS.iter().position(|name| letters == *name)
}
