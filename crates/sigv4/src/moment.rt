//! Moments: the seconds since 1970-01-01T00:00:00Z, and their text in a request.
ghost use Rattle.std.specs.Prelude.{◌≡◌, ℕ, ◌+◌, ◌/◌, ◌%◌, ◌<◌, ◌≤◌, List, pos, slice_index, IfSome, IfNone, SomeIff};
ghost use Rattle.sigv4.specs.Dates.{WritesMoment};
ghost use Rattle.jiff.specs.Words.{epoch_day};

use jiff::civil::Date;
use jiff_core::civil;
use std::marker::Model;

const SECONDS_PER_DAY: u64 = 86_400;

// 9999-12-31T23:59:59Z
const LAST_SECOND: u64 = 253_402_300_799;

// A date and a time of day as sixteen bytes write them. The date need not exist in the calendar.
#[derive(Clone, Copy)]
struct Stamp {
    year: u16,
    month: u8,
    day: u8,
    hour: u8,
    minute: u8,
    second: u8,
    ghost year_fits: { year < 10000 },
    ghost month_fits: { month < 100 },
    ghost day_fits: { day < 100 },
    ghost hour_fits: { hour < 100 },
    ghost minute_fits: { minute < 100 },
    ghost second_fits: { second < 100 },
}

// The digit of the number at this power of ten.
fn digit(number: u16, unit: u16) -> u8
    requires { 0 < unit }
    ensures { result ≡ 48 + number / unit % 10 }
{
    b'0' + (number / unit % 10) as u8
}

// The number that two digits write.
fn pair(text: &[u8; 16], at: usize) -> Option<u8>
    requires { at < 15 }
    ensures found { IfSome result
        (λ n. (n < 100) × (slice_index text.now at ≡ 48 + n / 10 % 10)
        × (slice_index text.now (at + 1) ≡ 48 + n % 10)) }
    ensures absent { IfNone result
        ((n : ℕ) → slice_index text.now at ≡ 48 + n / 10 % 10
        → slice_index text.now (at + 1) ≡ 48 + n % 10 → ⊥) }
{
    let tens = text[at];
    let ones = text[at + 1];
    if tens.is_ascii_digit() && ones.is_ascii_digit() {
        Some((tens - b'0') * 10 + (ones - b'0'))
    } else {
        None
    }
}

// The date that is this many days after 1970-01-01.
fn date_of(day: u32) -> civil::Date
    requires { day ≤ 2932896 }
    ensures { epoch_day result ≡ pos day }
{
    civil::Date::from_unix_epoch_day(i64::from(day)).unwrap()
}

impl Stamp {
    ghost use Rattle.sigv4.specs.Dates as dates;
    ghost use Rattle.sigv4.specs.Stamps.{stamp_of};

    // The date and the time of a moment.
    fn at(seconds: u64) -> Stamp
        requires { seconds ≤ 253402300799 }
        ensures on_the_calendar { dates.IsCivilTime (stamp_of result) }
        ensures same { dates.IsSeconds (stamp_of result) seconds }
    {
        let date = date_of((seconds / SECONDS_PER_DAY) as u32);
        let second = (seconds % SECONDS_PER_DAY) as u32;
        Stamp {
            year: date.year.unsigned_abs(),
            month: date.month,
            day: date.day,
            hour: (second / 3600) as u8,
            minute: (second / 60 % 60) as u8,
            second: (second % 60) as u8,
        }
    }

    // The moment, if the date exists in the calendar, its year is 1970 or later, and the time is from 00:00:00 to 23:59:59.
    fn seconds(&self) -> Option<u64>
        ensures found { IfSome result
            (λ n. dates.IsCivilTime (stamp_of self.now) × dates.IsSeconds (stamp_of self.now) n) }
        ensures absent { IfNone result (dates.IsCivilTime (stamp_of self.now) → ⊥) }
    {
        if self.year < 1970 || self.hour > 23 || self.minute > 59 || self.second > 59 {
            return None;
        }
        let date = Date::new(self.year as i16, self.month as i8, self.day as i8).ok()?;
        let day = date.to_plain().to_unix_epoch_day().unsigned_abs();
        let time = 3600 * u64::from(self.hour)
            + 60 * u64::from(self.minute)
            + u64::from(self.second);
        Some(u64::from(day) * SECONDS_PER_DAY + time)
    }

    // The stamp that the bytes write, if they have the form `yyyyMMddTHHmmssZ`.
    fn read(text: &[u8; 16]) -> Option<Stamp>
        ensures found { IfSome result (λ s. text.now ≡ dates.civil_time_text (stamp_of s)) }
        ensures absent { IfNone result
            ((s : dates.CivilTime) → text.now ≡ dates.civil_time_text s → ⊥) }
    {
        if text[8] != b'T' || text[15] != b'Z' {
            return None;
        }
        let century = pair(text, 0)?;
        let year = pair(text, 2)?;
        let month = pair(text, 4)?;
        let day = pair(text, 6)?;
        let hour = pair(text, 9)?;
        let minute = pair(text, 11)?;
        let second = pair(text, 13)?;
        Some(Stamp {
            year: 100 * u16::from(century) + u16::from(year),
            month,
            day,
            hour,
            minute,
            second,
        })
    }

    // yyyyMMddTHHmmssZ
    fn text(&self) -> [u8; 16]
        ensures { result ≡ dates.civil_time_text (stamp_of self.now) }
    {
        let month = u16::from(self.month);
        let day = u16::from(self.day);
        let hour = u16::from(self.hour);
        let minute = u16::from(self.minute);
        let second = u16::from(self.second);
        [
            digit(self.year, 1000),
            digit(self.year, 100),
            digit(self.year, 10),
            digit(self.year, 1),
            digit(month, 10),
            digit(month, 1),
            digit(day, 10),
            digit(day, 1),
            b'T',
            digit(hour, 10),
            digit(hour, 1),
            digit(minute, 10),
            digit(minute, 1),
            digit(second, 10),
            digit(second, 1),
            b'Z',
        ]
    }
}

/// A moment from 1970-01-01T00:00:00Z to 9999-12-31T23:59:59Z, in whole seconds.
#[derive(Clone, Copy, PartialEq, Eq, PartialOrd, Ord)]
pub struct Moment {
    seconds: u64,
}

impl Model for Moment {
    ghost Value = { ℕ };

    ghost view = { λ m. m.seconds };

    ghost invariant = { λ m. m.seconds ≤ 253402300799 };

    ghost inverse = { λ n. record { seconds = n } };
}

impl Moment {
    /// The moment this many seconds after 1970-01-01T00:00:00Z. `None` above 253402300799, since its year must have four digits.
    pub fn new(seconds: u64) -> Option<Moment>
        ensures { SomeIff result (seconds ≤ 253402300799) seconds }
    {
        if seconds <= LAST_SECOND {
            Some(Moment { seconds })
        } else {
            None
        }
    }

    /// The seconds since 1970-01-01T00:00:00Z.
    pub fn seconds(&self) -> u64
        ensures value { result ≡ self.now }
        ensures bound { result ≤ 253402300799 }
    {
        self.seconds
    }

    /// The text of the moment as `X-Amz-Date` writes it: `yyyyMMddTHHmmssZ` (ISO 8601, basic format).
    pub fn text(&self) -> [u8; 16]
        ensures { WritesMoment result self.now }
    {
        Stamp::at(self.seconds).text()
    }

    /// Reads `yyyyMMddTHHmmssZ`, the value of `X-Amz-Date`. Returns `None` if the text has another form, the date does not exist
    /// in the calendar, the year is before 1970, or the time is not one from 00:00:00 to 23:59:59.
    pub fn read(text: &[u8; 16]) -> Option<Moment>
        ensures found { IfSome result (λ m. WritesMoment text.now m) }
        ensures absent { IfNone result ((m : ℕ) → WritesMoment text.now m → ⊥) }
    {
        let seconds = Stamp::read(text)?.seconds()?;
        Some(Moment { seconds })
    }
}

/// The law of moments and their texts: a text writes at most one moment, and a moment has at most one text. So `read` gives
/// back the moment that `text` wrote, and `text` gives back the text that `read` accepted.
pub fn law_read_back()
    ensures one_moment { (text : List ℕ) (m n : ℕ) → WritesMoment text m → WritesMoment text n
        → n ≡ m }
    ensures one_text { (t u : List ℕ) (m : ℕ) → WritesMoment t m → WritesMoment u m → t ≡ u }
{}
