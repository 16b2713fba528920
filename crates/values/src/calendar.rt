// Which six bytes are a day, and which of two days is the earlier.
ghost use Rattle.std.specs.Prelude.{◌≡◌, ◌^◌, ◌<◌};
ghost use Rattle.values.specs.Days.{full_year, date_of, is_leap, days_of_month, is_date, is_day, is_earlier};

use recordbytes::{Digit, all_inside, number_at};

// A year, a month and a day of the month, whether there is such a day or not.
#[derive(Clone, Copy, PartialEq, Eq, PartialOrd, Ord)]
struct Date {
    year: u64,
    month: u64,
    day: u64,
}

// The century rule: the year that two digits mean.
fn full_year(digits: u64) -> u64
    requires { digits < 2 ^ 55 }
    ensures { result ≡ full_year digits }
{
    2000 + digits
}

// What six bytes DDMMYY write.
fn date_of(bytes: &[u8]) -> Date
    ensures { result ≡ date_of bytes.now }
{
    Date {
        year: full_year(number_at(bytes, 5, 6)),
        month: number_at(bytes, 3, 4),
        day: number_at(bytes, 1, 2),
    }
}

// Whether the year has a 29 February.
fn is_leap(year: u64) -> bool
    ensures { result ≡ is_leap year }
{
    year % 4 == 0 && (year % 100 != 0 || year % 400 == 0)
}

// The number of days in a month; a number that is no month has 31.
fn days_of_month(year: u64, month: u64) -> u64
    ensures { result ≡ days_of_month year month }
{
    match month {
        2 => if is_leap(year) { 29 } else { 28 },
        4 | 6 | 9 | 11 => 30,
        _ => 31,
    }
}

// Whether there is such a day in the calendar.
fn is_date(date: Date) -> bool
    ensures { result ≡ is_date date }
{
    date.month >= 1
        && date.month <= 12
        && date.day >= 1
        && date.day <= days_of_month(date.year, date.month)
}

// Whether six bytes are a day of the calendar, DDMMYY.
pub fn is_day(bytes: &[u8]) -> bool
    ensures { result ≡ is_day bytes.now }
{
    bytes.len() == 6 && all_inside::<Digit>(bytes) && is_date(date_of(bytes))
}

// Whether the date that the first six bytes write is before that of the other six.
pub fn is_earlier(one: &[u8], other: &[u8]) -> bool
    ensures { result ≡ is_earlier one.now other.now }
{
    date_of(one) < date_of(other)
}
