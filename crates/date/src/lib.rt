// Whether bytes are a DateTime, as `19980717T14:08:55`, of a day that there is.
#![tactic(auto)]

ghost use Rattle.std.specs.Prelude.{◌≡◌, ◌+◌, ◌≤◌, ◌<◌, length};
ghost use Rattle.lexical.specs.Digits.{pair, two};
ghost use Rattle.lexical.specs.DateTime.{leap, month_days, is_day, is_date, pair_to, is_time, parted, is_date_time};

use digits::{is_digit, value_of};

// The days of the months: of a year that is no leap year, and of one that is.
const DAYS: [[u8; 12]; 2] = [
    [31, 28, 31, 30, 31, 30, 31, 31, 30, 31, 30, 31],
    [31, 29, 31, 30, 31, 30, 31, 31, 30, 31, 30, 31],
];

// Whether a year is a leap year, by the Gregorian rule.
fn is_leap(year: usize) -> bool
    ensures { result ≡ leap year }
{
    (year % 4 == 0) & (year % 100 != 0) | (year % 400 == 0)
}

// How many days a month has, counted from 1.
fn month_days(year: usize, month: usize) -> u8
    requires { (1 ≤ month) × (month ≤ 12) }
    ensures { result ≡ month_days (leap year) month }
{
    DAYS[usize::from(is_leap(year))][month - 1]
}

// Whether there is such a day. Every month has 28 days, so the table is looked at only for the last ones.
fn is_day(year: usize, month: usize, day: usize) -> bool
    ensures { result ≡ is_day year month day }
{
    if month < 1 || 12 < month {
        return false;
    }
    if day <= 28 {
        return 1 <= day;
    }
    day <= usize::from(month_days(year, month))
}

// Whether the bytes at `at` and behind it are digits.
fn is_pair(s: &[u8], at: usize) -> bool
    requires { at + 1 < length s.now }
    ensures { result ≡ pair s.now at }
{
    is_digit(s[at]) & is_digit(s[at + 1])
}

// The number that two digits write.
fn two_digits(s: &[u8], at: usize) -> usize
    requires { at + 1 < length s.now }
    ensures { (result ≡ two s.now at) × (result < 2816) }
{
    10 * value_of(s[at]) + value_of(s[at + 1])
}

// Whether they are digits that write at most a number.
fn is_pair_to(s: &[u8], at: usize, most: usize) -> bool
    requires { at + 1 < length s.now }
    ensures { result ≡ pair_to s.now at most }
{
    is_pair(s, at) && two_digits(s, at) <= most
}

// Whether they are a minute or a second, digits that write at most 59: the first of them says it.
fn is_sixtieth(s: &[u8], at: usize) -> bool
    requires { at + 1 < length s.now }
    ensures { result ≡ pair_to s.now at 59 }
{
    (b'0' <= s[at]) & (s[at] <= b'5') & is_digit(s[at + 1])
}

// Whether 17 bytes have a `T` and each `:` in their places.
fn is_parted(s: &[u8]) -> bool
    requires { length s.now ≡ 17 }
    ensures { result ≡ parted s.now }
{
    (s[8] == b'T') & (s[11] == b':') & (s[14] == b':')
}

// Whether 17 bytes have a time.
fn is_time(s: &[u8]) -> bool
    requires { length s.now ≡ 17 }
    ensures { result ≡ is_time s.now }
{
    is_pair_to(s, 9, 23) && is_sixtieth(s, 12) & is_sixtieth(s, 15)
}

// Whether 17 bytes have the date of a day that there is.
fn is_date(s: &[u8]) -> bool
    requires { length s.now ≡ 17 }
    ensures { result ≡ is_date s.now }
{
    if !(is_pair(s, 0) & is_pair(s, 2) & is_pair(s, 4) & is_pair(s, 6)) {
        return false;
    }
    let year = 100 * two_digits(s, 0) + two_digits(s, 2);
    is_day(year, two_digits(s, 4), two_digits(s, 6))
}

pub fn is_datetime(s: &[u8]) -> bool
    ensures { result ≡ is_date_time s.now }
{
    if s.len() != 17 {
        return false;
    }
    is_parted(s) & is_time(s) && is_date(s)
}
