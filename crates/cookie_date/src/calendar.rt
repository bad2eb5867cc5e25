//! The moment of a date and a time of day.

ghost use Rattle.std.specs.Prelude.{◌≡◌, ◌<◌, ◌≤◌, ◌+◌, ◌*◌, IfSome};
ghost use Rattle.cookie_date.specs.Parts.{FitParts};
ghost use Rattle.cookie_date.specs.Date as spec;
ghost use Rattle.jiff_core.specs.Calendar.{IsEpochDay};

use crate::parts::Parts;
use crate::token::Time;
use jar_values::Moment;
use jiff_core::civil::Date;

/// The first year that a cookie date may name, a year of the Gregorian calendar.
///
/// RFC 6265, section 5.1.1.
pub const MIN_YEAR: u16 = 1601;

/// The moment of a date's parts; none where one is missing or there is no such time.
///
/// RFC 6265, section 5.1.1.
#[tactic(auto, unfolding(crate::specs::Date::moment_of_parts))]
pub fn moment_of_parts(parts: Parts) -> Option<Moment>
    requires { FitParts parts }
    ensures { result ≡ spec.moment_of_parts parts }
{
    let time = parts.time?;
    let day = parts.day?;
    let month = parts.month?;
    let year = parts.year?;
    let second = second_of_day(time)?;
    let number = day_number(full_year(year), month, day)?;
    moment_of(number, second)
}

/// The year that a year as it was written means.
///
/// RFC 6265, section 5.1.1.
fn full_year(year: u16) -> u16
    requires { year < 10_000 }
    ensures value { result ≡ spec.full_year year }
    ensures bound { result < 10_000 }
{
    match year {
        0..=69 => 2000 + year,
        70..=99 => 1900 + year,
        _ => year,
    }
}

/// The day number, in days since 1970; none where the year is below [`MIN_YEAR`] or the calendar
/// has no such day.
#[tactic(auto, unfolding(crate::specs::Date::day_number))]
fn day_number(year: u16, month: u8, day: u16) -> Option<i32>
    requires year_fits { year < 10_000 }
    requires month_fits { month ≤ 12 }
    ensures value { result ≡ spec.day_number year month day }
    ensures bound { IfSome result IsEpochDay }
{
    if year < MIN_YEAR || day > 31 {
        return None;
    }
    match Date::new(year as i16, month as i8, day as i8) {
        Ok(date) => Some(date.to_unix_epoch_day()),
        Err(_) => None,
    }
}

/// The seconds since midnight; none where the clock has no such time.
#[tactic(auto, unfolding(crate::specs::Date::second_of_day))]
fn second_of_day(time: Time) -> Option<u32>
    ensures value { result ≡ spec.second_of_day time }
    ensures bound { IfSome result (λ second. second < 86_400) }
{
    if time.hour > 23 || time.minute > 59 || time.second > 59 {
        return None;
    }
    Some(u32::from(time.hour) * 3600 + u32::from(time.minute) * 60 + u32::from(time.second))
}

/// The moment of a second of a day, which is 0 before 1970.
fn moment_of(day: i32, second: u32) -> Option<Moment>
    requires day_fits { IsEpochDay day }
    requires second_fits { second < 86_400 }
    ensures { result ≡ Some (spec.moment_of day second) }
{
    if day < 0 {
        return Moment::of(0);
    }
    Moment::of((day as u64 * 86_400 + u64::from(second)) * 1000)
}
