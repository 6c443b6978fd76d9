//! The date and the time of day of a second, and their text.
ghost use Rattle.std.specs.Prelude.{◌≡◌, ◌+◌, ◌*◌, ◌≤◌, ◌%◌, pos, unsigned_abs};
ghost use Rattle.jiff.specs.Words.{civil_nanos};
ghost use Rattle.ifmap_io.specs.Calendar.{civil_text, last_digit, last_moment, two_digits};

use jiff::civil::{DateTime, datetime};
use std::time::Duration;

// The date and the time of the second, counted from 1970-01-01T00:00:00Z.
pub(crate) fn civil_at(seconds: u64) -> DateTime
    requires { seconds ≤ last_moment }
    ensures { civil_nanos result ≡ pos (seconds * 1000000000) }
{
    datetime(1970, 1, 1, 0, 0, 0, 0) + Duration::from_secs(seconds)
}

// `YYYY-MM-DDThh:mm:ssZ`
pub(crate) fn text_of(civil: DateTime) -> [u8; 20]
    ensures { result ≡ civil_text (record {
      year = unsigned_abs civil.date.year;
      month = civil.date.month;
      day = civil.date.day;
      hour = civil.time.hour;
      minute = civil.time.minute;
      second = civil.time.second;
    }) }
{
    let year = civil.year().unsigned_abs();
    let month = two_digits(civil.month());
    let day = two_digits(civil.day());
    let hour = two_digits(civil.hour());
    let minute = two_digits(civil.minute());
    let second = two_digits(civil.second());
    [
        digit(year / 1000),
        digit(year / 100),
        digit(year / 10),
        digit(year),
        b'-',
        month[0],
        month[1],
        b'-',
        day[0],
        day[1],
        b'T',
        hour[0],
        hour[1],
        b':',
        minute[0],
        minute[1],
        b':',
        second[0],
        second[1],
        b'Z',
    ]
}

// The last two decimal digits of a number of two at most.
fn two_digits(number: i8) -> [u8; 2]
    ensures { result ≡ two_digits (unsigned_abs number) }
{
    let number = u16::from(number.unsigned_abs());
    [digit(number / 10), digit(number)]
}

// The last decimal digit.
fn digit(number: u16) -> u8
    ensures { result ≡ last_digit number }
{
    b'0' + (number % 10) as u8
}
