// The beginning of a record's validity.
ghost use Rattle.std.specs.Prelude.{◌≡◌, ◌<◌, ◌≤◌, true};
ghost use Rattle.id_ranges.specs.Calendar.{is_date};
ghost use Rattle.id_ranges.specs.NotBefore as spec;
ghost use Rattle.id_ranges.specs.NotBefore.{is_not_before, not_before_of};

use crate::fault::RangeFault;
use jiff::civil::Date;
use std::marker::Model;
use text_core::Time;

/// The beginning of the validity of a record: a certificate's notBefore as GeneralizedTime has it (RFC
/// 5280, section 4.1.2.5.2), in UTC and to the second. Its day is one of the Gregorian calendar (ISO
/// 8601-1) in the years 0000 to 9999, its hour 00 to 23, its minute and its second 00 to 59. It lies in
/// place.
#[derive(Clone, Copy)]
pub struct NotBefore(Time);

impl Model for NotBefore {
    ghost use Rattle.std.specs.Prelude.{List, ℕ, ◌≡◌, true};
    ghost use Rattle.id_ranges.specs.NotBefore.{is_not_before};

    ghost Value = { List ℕ };

    ghost view = { λ x. x.0 };

    ghost invariant = { λ x. is_not_before x.0 ≡ true };

    ghost inverse = { λ text. record { 0 = text } };
}

impl NotBefore {
    /// Reads 14 digits, of the year, the month, the day, the hour, the minute and the second, and a `Z`.
    /// `BadNotBefore` where the text is of another form, the day doesn't exist, the hour is above 23, or
    /// the minute or the second is above 59. It takes no memory.
    pub fn read(text: &str) -> Result<NotBefore, RangeFault>
        ensures { result ≡ not_before_of text.now }
    {
        let Some(time) = Time::parse(text) else {
            return Err(RangeFault::BadNotBefore);
        };
        if !has_date(&time) || !has_clock(&time) {
            return Err(RangeFault::BadNotBefore);
        }
        Ok(NotBefore(time))
    }

    /// The text of the time: 14 digits and a `Z`.
    pub fn as_str(&self) -> &str
        ensures same { result.now ≡ self.now }
        ensures is_one { is_not_before result.now ≡ true }
    {
        self.0.as_str()
    }
}

/// Whether the calendar has the day of a time.
fn has_date(time: &Time) -> bool
    ensures { result ≡ spec.has_date time.now }
{
    let year = u16::from(two_digits(time, 0)) * 100 + u16::from(two_digits(time, 2));
    is_date(year, two_digits(time, 4), two_digits(time, 6))
}

/// Whether the hour, the minute and the second of a time are those of a day.
fn has_clock(time: &Time) -> bool
    ensures { result ≡ spec.has_clock time.now }
{
    two_digits(time, 8) < 24 && two_digits(time, 10) < 60 && two_digits(time, 12) < 60
}

/// The number that two digits of a time write, the first of them at this place.
fn two_digits(time: &Time, place: usize) -> u8
    requires { place < 13 }
    ensures same { result ≡ spec.two_digits time.now place }
    ensures bound { result < 100 }
{
    let digits = time.as_str().as_bytes();
    (digits[place] - b'0') * 10 + (digits[place + 1] - b'0')
}

/// Whether the calendar has this day.
fn is_date(year: u16, month: u8, day: u8) -> bool
    requires { (year ≤ 9999) × (month < 100) × (day < 100) }
    ensures { result ≡ is_date year month day }
{
    Date::new(year as i16, month as i8, day as i8).is_ok()
}
