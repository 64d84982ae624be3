// Date and time as 2016-02-29T08:05:00.
ghost use Rattle.std.specs.Prelude.{◌≡◌, ◌+◌, ◌≤◌, length};
ghost use Rattle.primitives.specs.Place.{overwrite};
ghost use Rattle.receipt.specs.DateTime.{leap, days_in, day_good, time_good, date_good, pair, date_text, two_at, read_date};

use super::bytes::put8;
use super::decimal::put_fixed;

#[derive(Clone, Copy)]
pub struct DateTime {
    pub year: u32,
    pub month: u32,
    pub day: u32,
    pub hour: u32,
    pub minute: u32,
    pub second: u32,
}

// A leap year of the Gregorian calendar.
#[tactic(auto, unfolding(crate::specs::DateTime::leap))]
fn leap(year: u32) -> bool
    ensures { result ≡ leap year }
{
    year % 400 == 0 || year % 100 != 0 && year % 4 == 0
}

// The days of each month from 1 to 12, in a year that is no leap year.
const DAYS: [u32; 13] = [0, 31, 28, 31, 30, 31, 30, 31, 31, 30, 31, 30, 31];

// The number of days of a month from 1 to 12.
#[tactic(auto, unfolding(crate::specs::DateTime::days_in))]
fn days_in(year: u32, month: u32) -> u32
    requires { month ≤ 12 }
    ensures { result ≡ days_in year month }
{
    if month == 2 && leap(year) {
        29
    } else {
        DAYS[month as usize]
    }
}

// A day of the Gregorian calendar, in the years 2000 to 2099.
#[tactic(auto, unfolding(crate::specs::DateTime::day_good))]
fn day_good(t: DateTime) -> bool
    ensures { result ≡ day_good t }
{
    (2000..=2099).contains(&t.year)
        && (1..=12).contains(&t.month)
        && (1..=days_in(t.year, t.month)).contains(&t.day)
}

// A time of day.
#[tactic(auto, unfolding(crate::specs::DateTime::time_good))]
fn time_good(t: DateTime) -> bool
    ensures { result ≡ time_good t }
{
    t.hour <= 23 && t.minute <= 59 && t.second <= 59
}

// Question 8: a date of the years 2000 to 2099 in the Gregorian calendar, with a time of day.
#[tactic(auto, unfolding(crate::specs::DateTime::date_good))]
pub fn date_good(t: DateTime) -> bool
    ensures { result ≡ date_good t }
{
    day_good(t) && time_good(t)
}

// Writes a letter and two digits at a place.
fn put_pair(out: &mut [u8], at: usize, letter: u8, n: u32)
    requires { at + 3 ≤ length out.old }
    ensures { out.new ≡ overwrite out.old at (pair letter n) }
{
    put8(out, at, letter);
    put_fixed(out, at + 1, 2, u64::from(n));
}

// Writes a date and time at a place.
pub(crate) fn put_date(out: &mut [u8], at: usize, t: DateTime)
    requires { at + 19 ≤ length out.old }
    ensures { out.new ≡ overwrite out.old at (date_text t) }
{
    put_fixed(out, at, 4, u64::from(t.year));
    put_pair(out, at + 4, b'-', t.month);
    put_pair(out, at + 7, b'-', t.day);
    put_pair(out, at + 10, b'T', t.hour);
    put_pair(out, at + 13, b':', t.minute);
    put_pair(out, at + 16, b':', t.second);
}

// Two digits at a place, read loosely.
#[tactic(auto, unfolding(crate::specs::DateTime::two_at))]
fn two_at(text: &[u8], k: usize) -> u32
    requires { k + 2 ≤ length text.now }
    ensures { (result ≡ two_at text.now k) × (result ≤ 165) }
{
    u32::from(text[k] % 16) * 10 + u32::from(text[k + 1] % 16)
}

// The date and time at the start of a text, read loosely.
#[tactic(auto, unfolding(crate::specs::DateTime::read_date))]
pub(crate) fn read_date(text: &[u8]) -> DateTime
    requires { 19 ≤ length text.now }
    ensures { result ≡ read_date text.now }
{
    DateTime {
        year: two_at(text, 0) * 100 + two_at(text, 2),
        month: two_at(text, 5),
        day: two_at(text, 8),
        hour: two_at(text, 11),
        minute: two_at(text, 14),
        second: two_at(text, 17),
    }
}
