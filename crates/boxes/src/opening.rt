//! When a box is open, and which names it takes.
ghost use Rattle.std.specs.Prelude.{◌≡◌, ◌<◌, ◌↔◌, IsTrue, true, Some, slice_get};
ghost use Rattle.boxes.specs.Opening.{IsOpen, Fits, local_second, local_weekday, local_minute};
ghost use Rattle.boxes.specs.Rows.{name_rule_of, settings_of};

use crate::rows::{BoxRow, NameRule};
use sigv4::Moment;

const SECONDS_PER_DAY: i64 = 86_400;

// The second on the office's clock. It may be before 1970.
fn second_there(east: i16, now: Moment) -> i64
    ensures { result ≡ local_second east now }
{
    now.seconds() as i64 + 60 * i64::from(east)
}

// The weekday on the office's clock. Monday is 0. 1970-01-01 was a Thursday.
fn weekday_there(east: i16, now: Moment) -> usize
    ensures weekday { result ≡ local_weekday east now }
    ensures in_week { result < 7 }
{
    let day = second_there(east, now).div_euclid(SECONDS_PER_DAY);
    (day + 3).rem_euclid(7) as usize
}

// The minute of the day on the office's clock: 0 to 1439.
fn minute_there(east: i16, now: Moment) -> u16
    ensures { result ≡ local_minute east now }
{
    let second = second_there(east, now).rem_euclid(SECONDS_PER_DAY);
    (second / 60) as u16
}

// Whether the box is open on the current weekday of the office's clock.
fn is_marked(row: &BoxRow, east: i16, now: Moment) -> bool
    ensures { IsTrue result ↔ slice_get row.now.days (local_weekday east now) ≡ Some true }
{
    row.days[weekday_there(east, now)]
}

/// Whether the box is open at a moment by the office's clock, which is `east` minutes east of UTC. Takes no memory.
pub fn open_at(row: &BoxRow, east: i16, now: Moment) -> bool
    ensures { IsTrue result ↔ IsOpen (settings_of row.now) east now }
{
    if now.seconds() < row.opens || row.closes <= now.seconds() || !is_marked(row, east, now) {
        return false;
    }
    let minute = minute_there(east, now);
    row.from_minute <= minute && minute < row.to_minute
}

/// Whether the rule accepts the name. Takes no memory.
pub fn name_fits(rule: &NameRule, name: &[u8]) -> bool
    ensures { IsTrue result ↔ Fits (name_rule_of rule.now) name.now }
{
    match rule {
        NameRule::Any => true,
        NameRule::Ends(texts) => texts.iter().any(|text| name.ends_with(text)),
        NameRule::Begins(text) => name.starts_with(text),
    }
}
