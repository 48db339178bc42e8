//! The texts of a list's fields.
ghost use Rattle.std.specs.Prelude.{◌≡◌, ◌+◌, ◌%◌, IfOk, map};
ghost use Rattle.std.specs.List.{join_with_byte};
ghost use Rattle.boxes.specs.Rows.{name_rule_of};
ghost use Rattle.links.specs.CommandTexts.{day_digit, days_word, minute_word, mode_word, role_word, rule_words};
ghost use Rattle.lists.specs.Keys.{answer_word};

use boxes::{Mode, NameRule, Role};
use std::alloc::{AllocError, Global};

/// `clerk` or `link`.
pub(crate) fn role_text<'a>(role: Role) -> &'a [u8]
    ensures { result.now ≡ role_word role }
{
    match role {
        Role::Clerk => b"clerk",
        Role::Link => b"link",
    }
}

/// `keep` or `replace`.
pub(crate) fn mode_text<'a>(mode: Mode) -> &'a [u8]
    ensures { result.now ≡ mode_word mode }
{
    match mode {
        Mode::Keep => b"keep",
        Mode::Replace => b"replace",
    }
}

/// `yes` or `no`.
pub(crate) fn answer_text<'a>(answer: bool) -> &'a [u8]
    ensures { result.now ≡ answer_word answer }
{
    match answer {
        true => b"yes",
        false => b"no",
    }
}

// `1` if the box is open on the day, else `0`.
fn digit_of(is_open: bool) -> u8
    ensures { result ≡ day_digit is_open }
{
    match is_open {
        true => b'1',
        false => b'0',
    }
}

/// A digit for each day, Monday first: `1` if the box is open on it, else `0`.
pub(crate) fn days_text(days: &[bool; 7]) -> [u8; 7]
    ensures { result ≡ days_word days.now }
{
    let [
        monday,
        tuesday,
        wednesday,
        thursday,
        friday,
        saturday,
        sunday,
    ] = *days;
    [
        digit_of(monday),
        digit_of(tuesday),
        digit_of(wednesday),
        digit_of(thursday),
        digit_of(friday),
        digit_of(saturday),
        digit_of(sunday),
    ]
}

// The last digit of the number.
fn last_digit(number: u16) -> u8
    ensures { result ≡ 48 + number % 10 }
{
    b'0' + (number % 10) as u8
}

/// The minute of a day as `HHmm`.
pub(crate) fn minute_text(minute: u16) -> [u8; 4]
    ensures { result ≡ minute_word minute }
{
    let hours = minute / 60;
    let minutes = minute % 60;
    [
        last_digit(hours / 10),
        last_digit(hours),
        last_digit(minutes / 10),
        last_digit(minutes),
    ]
}

/// The texts joined, with this byte between them.
pub(crate) fn joined(alloc: Global, texts: &[Vec<u8>], between: u8) -> Result<Vec<u8>, AllocError>
    ensures { IfOk result (λ text.
        text.items ≡ join_with_byte between (map (λ t. t.items) texts.now)) }
{
    let mut text = Vec::new(alloc);
    let Some((first, others)) = texts.split_first() else {
        return Ok(text);
    };
    text.extend_from_slice(first)?;
    'others: for other in others {
        text.push(between)?;
        text.extend_from_slice(other)?;
    }
    Ok(text)
}

/// A name rule in words: `any`, `ends .pdf,.zip` or `begins offer-`.
pub(crate) fn rule_text(alloc: Global, rule: &NameRule) -> Result<Vec<u8>, AllocError>
    ensures { IfOk result (λ text.
        text.items ≡ join_with_byte 32 (rule_words (name_rule_of rule.now))) }
{
    let mut text = Vec::new(alloc);
    match rule {
        NameRule::Any => text.extend_from_slice(b"any")?,
        NameRule::Ends(texts) => {
            text.extend_from_slice(b"ends ")?;
            text.extend_from_slice(&joined(alloc, texts, b',')?)?;
        }
        NameRule::Begins(front) => {
            text.extend_from_slice(b"begins ")?;
            text.extend_from_slice(front)?;
        }
    }
    Ok(text)
}
