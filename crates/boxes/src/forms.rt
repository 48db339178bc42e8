//! The forms of the texts and numbers in a desk command.
ghost use Rattle.std.specs.Prelude.{◌≡◌, ◌≤◌, ◌↔◌, length, map, IsTrue};
ghost use Rattle.std.specs.List.{AllByRecursion};
ghost use Rattle.sigv4.specs.Allowances.{most_allowance};
ghost use Rattle.boxes.specs.Changes.{command_of};
ghost use Rattle.boxes.specs.Commands.{HasForm};
ghost use Rattle.boxes.specs.Rows.{name_rule_of, settings_of};
ghost use Rattle.boxes.specs.Rules.{IsName};
ghost use Rattle.boxes.specs.Sound.{is_box_byte, is_rule_byte, AreSettings, IsBoxName, IsMoment, IsNameRule, IsRuleText};

use crate::change::Command;
use crate::places::{MOST_NAME_BYTES, is_name};
use crate::rows::{BoxRow, NameRule};
use sigtext::is_word;
use sigv4::{Allowance, Moment, is_key_id, is_secret};
use std::str;

const MOST_BOX_NAME_BYTES: usize = 63;

const MOST_ENDING_BYTES: usize = 32;

const MOST_BEGINNING_BYTES: usize = 64;

const MOST_ENDINGS: usize = 8;

const MINUTES_PER_DAY: u16 = 1440;

const MOST_QUOTA: u64 = 1_000_000_000_000;

const MOST_FILES: u64 = 1_000_000;

// Whether the second is in the years 1970 to 9999.
fn is_moment(moment: u64) -> bool
    ensures { IsTrue result ↔ IsMoment moment }
{
    Moment::new(moment).is_some()
}

// Whether an office may let links begin this many seconds early.
fn is_allowance(seconds: u64) -> bool
    ensures { IsTrue result ↔ seconds ≤ most_allowance }
{
    Allowance::new(seconds).is_some()
}

// Whether the byte may occur in the name of a box: a-z 0-9 - .
fn is_box_byte(byte: u8) -> bool
    ensures { result ≡ is_box_byte byte }
{
    byte.is_ascii_lowercase() || byte.is_ascii_digit() || matches!(byte, b'-' | b'.')
}

// Whether the text may be the name of a box.
fn is_box_name(name: &[u8]) -> bool
    ensures { IsTrue result ↔ IsBoxName name.now }
{
    is_word(name, MOST_BOX_NAME_BYTES, is_box_byte)
}

// Whether the byte may occur in a text of a name rule: no control byte, no space and no comma.
fn is_rule_byte(byte: u8) -> bool
    ensures { result ≡ is_rule_byte byte }
{
    !matches!(byte, 0..=0x20 | b',' | 0x7F)
}

// Whether the text may occur in a name rule, if at most `most` bytes are allowed.
fn is_rule_text(text: &[u8], most: usize) -> bool
    ensures { IsTrue result ↔ IsRuleText most text.now }
{
    is_word(text, most, is_rule_byte) && str::from_utf8(text).is_ok()
}

// Whether each of the texts may be the ending of a name.
fn are_endings(texts: &[Vec<u8>]) -> bool
    ensures { IsTrue result ↔ AllByRecursion (IsRuleText 32) (map (λ t. t.items) texts.now) }
{
    texts
        .iter()
        .all(|text| is_rule_text(text, MOST_ENDING_BYTES))
}

// Whether a box may have this name rule.
fn is_name_rule(rule: &NameRule) -> bool
    ensures { IsTrue result ↔ IsNameRule (name_rule_of rule.now) }
{
    match rule {
        NameRule::Any => true,
        NameRule::Ends(texts) => {
            !texts.is_empty() && texts.len() <= MOST_ENDINGS && are_endings(texts)
        }
        NameRule::Begins(text) => is_rule_text(text, MOST_BEGINNING_BYTES),
    }
}

// Whether a box may have these settings.
fn are_settings(row: &BoxRow) -> bool
    ensures { IsTrue result ↔ AreSettings (settings_of row.now) }
{
    is_moment(row.opens)
        && is_moment(row.closes)
        && row.from_minute < row.to_minute
        && row.to_minute <= MINUTES_PER_DAY
        && row.quota <= MOST_QUOTA
        && row.max_files <= MOST_FILES
        && is_name_rule(&row.rule)
}

// Whether the text may be the name of a file in any box.
fn is_file_name(name: &[u8]) -> bool
    ensures { IsTrue result ↔ (IsName name.now × (length name.now ≤ 1024)) }
{
    name.len() <= MOST_NAME_BYTES && is_name(name)
}

/// Whether each text and number of the command has its form: key ids and secrets as `sigv4` defines them, names of boxes,
/// settings and allowances within their limits, moments in the years 1970 to 9999, and names of files. It does not check
/// whether the office knows the keys, boxes and files that are named: `desk` does. Takes no memory.
pub fn has_form(command: &Command<'_>) -> bool
    ensures { IsTrue result ↔ HasForm (command_of command.now) }
{
    match command {
        Command::AddKey { id, secret, .. } => is_key_id(id) && is_secret(secret),
        Command::RevokeKey { id } => is_key_id(id),
        Command::AddBox { name, row } => is_box_name(name) && are_settings(row),
        Command::CloseBox { name, moment } => is_box_name(name) && is_moment(*moment),
        Command::DropFile { in_box, name } => is_box_name(in_box) && is_file_name(name),
        Command::LimitKey { id, in_box } => is_key_id(id) && is_box_name(in_box),
        Command::SetAllowance { seconds } => is_allowance(*seconds),
    }
}
