//! Dates as text.

ghost use Rattle.std.specs.Prelude.{◌≡◌, ◌<◌, ◌≤◌, ◌++◌, OnOk, string_bytes};
ghost use Rattle.mp4_show.specs.Dates.{date_shown, dated, day_text, days_in_month, days_in_year, has_date, is_leap};
ghost use Rattle.mp4_show.specs.Dates.{month_from, month_text, time_text, two_digits, year_from};

use crate::number_text::push_number;
use mp4_shown::Result;

/// The days of 400 years.
const CYCLE: u64 = 146_097;

/// The seconds of a day.
const DAY: u64 = 86_400;

/// The seconds from the start of 1904 to the last day of 9999.
const END: u64 = 255_485_059_200;

/// Returns whether `year` has a leap day.
fn is_leap(year: u64) -> bool
    ensures { result ≡ is_leap year }
{
    year % 4 == 0 && (year % 100 != 0 || year % 400 == 0)
}

/// Returns the number of days of `year`.
fn days_in_year(year: u64) -> u64
    ensures { result ≡ days_in_year year }
{
    if is_leap(year) { 366 } else { 365 }
}

/// Returns the number of days of the month `month` of `year`.
fn days_in_month(year: u64, month: u64) -> u64
    ensures { result ≡ days_in_month year month }
{
    match month {
        2 if is_leap(year) => 29,
        2 => 28,
        4 | 6 | 9 | 11 => 30,
        _ => 31,
    }
}

/// Returns the year and the place in it, from 0, of the day that is `days` after the start of 1904. At most 400 years
/// pass.
fn year_of(days: u64) -> (u64, u64)
    ensures place { result ≡ year_from 400 1904 days }
    ensures year { result.0 ≤ 2304 }
    ensures day { result.1 ≤ days }
{
    let mut year: u64 = 1904;
    let mut day = days;
    let mut left: u64 = 400;
    while left > 0 {
        let long = days_in_year(year);
        if day < long {
            return (year, day);
        }
        day -= long;
        year += 1;
        left -= 1;
    }
    (year, day)
}

/// Returns the month and the place in it, from 0, of the day that is `days` after the start of `year`. At most 12
/// months pass.
fn month_of(year: u64, days: u64) -> (u64, u64)
    ensures place { result ≡ month_from 12 year 1 days }
    ensures day { result.1 ≤ days }
{
    let mut month: u64 = 1;
    let mut day = days;
    let mut left: u64 = 12;
    while left > 0 {
        let long = days_in_month(year, month);
        if day < long {
            return (month, day);
        }
        day -= long;
        month += 1;
        left -= 1;
    }
    (month, day)
}

/// Appends a number below 100 in two digits.
fn push_two(number: u64, out: &mut String) -> Result<()>
    ensures text { OnOk result (string_bytes out.new ≡ string_bytes out.old ++ two_digits number) }
{
    push_number(number / 10, out)?;
    push_number(number % 10, out)
}

/// Appends a date: a year, and a month of it with a place in the month.
fn push_month(year: u64, month: (u64, u64), out: &mut String) -> Result<()>
    requires { month.1 < 146_097 }
    ensures text { OnOk result (string_bytes out.new ≡ string_bytes out.old ++ month_text year month) }
{
    push_number(year, out)?;
    out.push('-')?;
    push_two(month.0, out)?;
    out.push('-')?;
    push_two(month.1 + 1, out)
}

/// Appends the date of the day that is `days` after the start of 1904.
#[tactic(auto, unfolding(crate::specs::Dates::day_text))]
fn push_day(days: u64, out: &mut String) -> Result<()>
    ensures text { OnOk result (string_bytes out.new ≡ string_bytes out.old ++ day_text days) }
{
    let place = year_of(days % CYCLE);
    let month = month_of(place.0, place.1);
    push_month(400 * (days / CYCLE) + place.0, month, out)
}

/// Appends the time of a day, of which `seconds` have passed.
fn push_time(seconds: u64, out: &mut String) -> Result<()>
    ensures text { OnOk result (string_bytes out.new ≡ string_bytes out.old ++ time_text seconds) }
{
    push_two(seconds / 3600, out)?;
    out.push(':')?;
    push_two(seconds / 60 % 60, out)?;
    out.push(':')?;
    push_two(seconds % 60, out)
}

/// Returns whether `seconds` stands for a date.
fn has_date(seconds: u64) -> bool
    ensures { result ≡ has_date seconds }
{
    0 < seconds && seconds < END
}

/// Appends the date and time that are `seconds` after the start of 1904, as ISO 8601 writes them, and `seconds`.
fn push_dated(seconds: u64, out: &mut String) -> Result<()>
    ensures text { OnOk result (string_bytes out.new ≡ string_bytes out.old ++ dated seconds) }
{
    push_day(seconds / DAY, out)?;
    out.push('T')?;
    push_time(seconds % DAY, out)?;
    out.push_str("Z (")?;
    push_number(seconds, out)?;
    out.push(')')
}

/// Appends the date that is `seconds` after the start of 1904, and `seconds`. Appends only `seconds` if it is 0, which
/// stands for no date, or if the date is the last day of 9999 or later.
pub(crate) fn push_date(seconds: u64, out: &mut String) -> Result<()>
    ensures text { OnOk result (string_bytes out.new ≡ string_bytes out.old ++ date_shown seconds) }
{
    if has_date(seconds) {
        push_dated(seconds, out)
    } else {
        push_number(seconds, out)
    }
}
