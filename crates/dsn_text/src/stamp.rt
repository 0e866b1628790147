//! Moments, in whole seconds since 1 January 1970 UTC, and their text (RFC 5322 section 3.3).
//! Implements noticed-notice(5).
ghost use Rattle.std.specs.Prelude.{◌≡◌, ◌/◌, ◌%◌, ◌<◌, ◌≤◌, ◌↔◌, IsSome, IfSome};
ghost use Rattle.std.specs.Int.{IsInRange};
ghost use Rattle.jiff.specs.Words.{monday_zero, weekday_of};
ghost use Rattle.dsn_text.specs.inner.Kept.{IsCivil};
ghost use Rattle.dsn_text.specs.Stamp.{last_moment, civil_after, weekday_after, day_name, month_name, two_digits, day_text, time_text, date_text};

use jiff::civil::{Date, Weekday};
use std::marker::Model;

/// The last second of the year 9999 UTC, after which a year has more than four digits.
pub const LAST_MOMENT: u64 = 253_402_300_799;

/// A moment: whole seconds since 1 January 1970 UTC, without leap seconds, up to [`LAST_MOMENT`].
#[derive(Clone, Copy, Debug, PartialEq, Eq, PartialOrd, Ord)]
pub struct Stamp {
    seconds: u64,
}

impl Model for Stamp {
    ghost use Rattle.std.specs.Prelude.{ℕ, ◌≤◌};
    ghost use Rattle.dsn_text.specs.Stamp.{last_moment};

    ghost Value = { ℕ };

    ghost view = { λ stamp. stamp.seconds };

    ghost invariant = { λ stamp. stamp.seconds ≤ last_moment };

    ghost inverse = { λ seconds. record { seconds = seconds } };
}

impl Stamp {
    /// Returns the moment this number of seconds after 1970 began, or `None` if it is after
    /// [`LAST_MOMENT`].
    pub fn new(seconds: u64) -> Option<Stamp>
        ensures bound { IsSome result ↔ (seconds ≤ last_moment) }
        ensures value { IfSome result (λ stamp. stamp ≡ seconds) }
    {
        if seconds > LAST_MOMENT {
            return None;
        }
        Some(Stamp { seconds })
    }

    /// The seconds since 1970 began.
    pub fn seconds(self) -> u64
        ensures value { result ≡ self }
        ensures bound { result ≤ last_moment }
    {
        self.seconds
    }

    /// The text, as `Thu, 01 Jan 1970 00:00:00 +0000` (RFC 5322 section 3.3).
    pub fn date(self) -> [u8; 31]
        ensures { result ≡ date_text self }
    {
        let mut text = *b"Thu, 01 Jan 1970 00:00:00 +0000";
        text[..16].copy_from_slice(&self.day());
        text[17..25].copy_from_slice(&self.time());
        text
    }

    // The weekday and the date, as `Thu, 01 Jan 1970`.
    fn day(self) -> [u8; 16]
        ensures { result ≡ day_text (self / 86_400) }
    {
        let date = self.civil_date();
        let year = date.year().unsigned_abs();
        let [w0, w1, w2] = *name_of_day(date.weekday());
        let [d0, d1] = digits(date.day().unsigned_abs());
        let [m0, m1, m2] = *name_of_month(date.month().unsigned_abs());
        let [y0, y1] = digits((year / 100) as u8);
        let [y2, y3] = digits((year % 100) as u8);
        [
            w0, w1, w2, b',', b' ', d0, d1, b' ', m0, m1, m2, b' ', y0, y1, y2, y3,
        ]
    }

    // The date of the moment.
    fn civil_date(self) -> Date
        ensures date { IsCivil (civil_after (self / 86_400)) result }
        ensures weekday { weekday_of result ≡ weekday_after (self / 86_400) }
    {
        // `jiff_core` computes the date of a day number, and `jiff` the weekday, year, month and
        // day of a date. In the RFC 5322 text that `jiff` writes, a day below 10 has no leading
        // zero, so `date` writes its own text.
        let day = (self.seconds / 86_400) as i64;
        Date::from_plain(jiff_core::civil::Date::from_unix_epoch_day(day).unwrap())
    }

    // The time of day, as `23:59:59`.
    fn time(self) -> [u8; 8]
        ensures { result ≡ time_text (self % 86_400) }
    {
        let second = self.seconds % 86_400;
        let [h0, h1] = digits((second / 3600) as u8);
        let [m0, m1] = digits((second / 60 % 60) as u8);
        let [s0, s1] = digits((second % 60) as u8);
        [h0, h1, b':', m0, m1, b':', s0, s1]
    }
}

// A number in two digits. Requires that it is below 100.
fn digits(number: u8) -> [u8; 2]
    requires { number < 100 }
    ensures { result ≡ two_digits number }
{
    [b'0' + number / 10, b'0' + number % 10]
}

fn name_of_day(weekday: Weekday) -> &'static [u8; 3]
    ensures { result.now ≡ day_name (monday_zero weekday) }
{
    match weekday {
        Weekday::Monday => b"Mon",
        Weekday::Tuesday => b"Tue",
        Weekday::Wednesday => b"Wed",
        Weekday::Thursday => b"Thu",
        Weekday::Friday => b"Fri",
        Weekday::Saturday => b"Sat",
        Weekday::Sunday => b"Sun",
    }
}

fn name_of_month(month: u8) -> &'static [u8; 3]
    requires { IsInRange 1 12 month }
    ensures { result.now ≡ month_name month }
{
    match month {
        1 => b"Jan",
        2 => b"Feb",
        3 => b"Mar",
        4 => b"Apr",
        5 => b"May",
        6 => b"Jun",
        7 => b"Jul",
        8 => b"Aug",
        9 => b"Sep",
        10 => b"Oct",
        11 => b"Nov",
        _ => b"Dec",
    }
}
