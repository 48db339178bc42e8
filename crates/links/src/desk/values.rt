//! The words in a desk command: roles, modes, days, minutes and numbers.
ghost use Rattle.std.specs.Prelude.{◌≡◌, ◌+◌, ◌/◌, ◌%◌, ◌<◌, ℕ, Bool, List, IfSome, IfNone, length};
ghost use Rattle.boxes.specs.declared.rows.Role as role;
ghost use Rattle.boxes.specs.declared.rows.Mode as mode;
ghost use Rattle.links.specs.CommandTexts.{role_word, mode_word, day_digit, days_word, minute_word, IsNumber};

use boxes::{Mode, Role};
use sigtext::read_digits;

const MOST_DIGITS: usize = 13;

/// `clerk` or `link`.
pub(crate) fn read_role(word: &[u8]) -> Option<Role>
    ensures some { IfSome result (λ r. word.now ≡ role_word r) }
    ensures none { IfNone result ((r : role.Role) → word.now ≡ role_word r → ⊥) }
{
    match word {
        b"clerk" => Some(Role::Clerk),
        b"link" => Some(Role::Link),
        _ => None,
    }
}

/// `keep` or `replace`.
pub(crate) fn read_mode(word: &[u8]) -> Option<Mode>
    ensures some { IfSome result (λ m. word.now ≡ mode_word m) }
    ensures none { IfNone result ((m : mode.Mode) → word.now ≡ mode_word m → ⊥) }
{
    match word {
        b"keep" => Some(Mode::Keep),
        b"replace" => Some(Mode::Replace),
        _ => None,
    }
}

// One day: `1` if the box is open on it, `0` if it is not.
fn read_day(digit: u8) -> Option<bool>
    ensures some { IfSome result (λ day. digit ≡ day_digit day) }
    ensures none { IfNone result ((day : Bool) → digit ≡ day_digit day → ⊥) }
{
    match digit {
        b'0' => Some(false),
        b'1' => Some(true),
        _ => None,
    }
}

/// Seven digits, each 0 or 1, Monday first.
pub(crate) fn read_days(word: &[u8]) -> Option<[bool; 7]>
    ensures some { IfSome result (λ days. word.now ≡ days_word days) }
    ensures none { IfNone result
        ((days : List Bool) → length days ≡ 7 → word.now ≡ days_word days → ⊥) }
{
    let [a, b, c, d, e, f, g] = word else {
        return None;
    };
    Some([
        read_day(*a)?,
        read_day(*b)?,
        read_day(*c)?,
        read_day(*d)?,
        read_day(*e)?,
        read_day(*f)?,
        read_day(*g)?,
    ])
}

// The number that two digits spell.
fn read_two(high: u8, low: u8) -> Option<u16>
    ensures some { IfSome result
        (λ n. (n < 100) × (high ≡ 48 + n / 10 % 10) × (low ≡ 48 + n % 10)) }
    ensures none { IfNone result ((n : ℕ) → high ≡ 48 + n / 10 % 10 → low ≡ 48 + n % 10 → ⊥) }
{
    if high.is_ascii_digit() && low.is_ascii_digit() {
        Some(u16::from(high - b'0') * 10 + u16::from(low - b'0'))
    } else {
        None
    }
}

/// The minute of a day, written `HHmm`.
pub(crate) fn read_minute(word: &[u8]) -> Option<u16>
    ensures some { IfSome result (λ m. word.now ≡ minute_word m) }
    ensures bound { IfSome result (λ m. m < 6000) }
    ensures none { IfNone result ((m : ℕ) → m < 6000 → word.now ≡ minute_word m → ⊥) }
{
    let [a, b, c, d] = word else {
        return None;
    };
    let hours = read_two(*a, *b)?;
    let minutes = read_two(*c, *d)?;
    if minutes < 60 {
        Some(hours * 60 + minutes)
    } else {
        None
    }
}

/// A whole number of 1 to 13 digits. Only `0` itself may begin with a zero.
pub fn read_number(text: &[u8]) -> Option<u64>
    ensures some { IfSome result (IsNumber text.now) }
    ensures none { IfNone result ((n : ℕ) → IsNumber text.now n → ⊥) }
{
    let number = read_digits(text, MOST_DIGITS)?;
    if text.len() > 1 && text[0] == b'0' {
        return None;
    }
    Some(number)
}
