//! Converts the lines of the boxes to boxes.

ghost use Rattle.std.specs.Prelude.{◌≡◌, ◌↔◌, ◌≤◌, ◌==◌, ℕ, Bool, List, length, pos, IsTrue, IfOk, MatchOption};
ghost use Rattle.sigtext.specs.Bytes.{bytes_cmp};
ghost use Rattle.boxes.specs.declared.rows.Mode.{Mode};
ghost use Rattle.boxes.specs.State.{NameRule as Rule};
ghost use Rattle.boxes.specs.Rows.{name_rule_of, settings_of};
ghost use Rattle.boxes.specs.Sound.{IsNameRule};
ghost use Rattle.boxes.specs.Maps.{found};
ghost use Rattle.sqltables.specs.Tables.{Box, days_text, mode_number, rule_number, rule_text};
ghost use Rattle.sqlaudit.specs.Outlines.{IsBoxEntry, IsBoxRule};
ghost use Rattle.sqlaudit.specs.Sorting.{HaveSameNumbers, IsGood, IsRead, TellsRule, box_in, text_of};

use crate::lines::BoxLine;
use crate::receipt_rules::natural;
use boxes::{BoxRow, Command, Mode, NameRule, has_form};
use sqltables::reading::{cut_texts, days_told, digits_of_days};
use std::alloc::{AllocError, Global};
use std::collections::BTreeMap;

/// A box, as given by its line.
#[derive(Drop)]
pub(crate) struct BoxEntry {
    pub(crate) row: BoxRow,
    pub(crate) used: u64,
    pub(crate) count: u64,
}

/// The boxes, keyed by name.
pub(crate) type Boxes<'a> = BTreeMap<&'a [u8], BoxEntry>;

/// The mode with this number: 0 is keep, 1 is replace.
fn mode_of(number: i64) -> Option<Mode>
    ensures { MatchOption result ((mode : Mode) → number ≡ mode_number mode → ⊥)
        (λ mode. number ≡ mode_number mode) }
{
    match number {
        0 => Some(Mode::Keep),
        1 => Some(Mode::Replace),
        _ => None,
    }
}

/// A minute of the day, from 0 to 1440.
fn minute_of(number: i64) -> Option<u16>
    ensures { MatchOption result ((n : ℕ) → n ≤ 1440 → number ≡ pos n → ⊥) (λ n. number ≡ pos n) }
{
    if number < 0 || number > 1440 {
        return None;
    }
    Some(number as u16)
}

/// The days given by a text, if it has seven marks, each `0` or `1`.
fn days_of(text: &[u8]) -> Option<[bool; 7]>
    ensures { MatchOption result ((days : List Bool) → length days ≡ 7 → text.now ≡ days_text days
        → ⊥) (λ days. text.now ≡ days_text days) }
{
    let Ok(marks) = <&[u8; 7]>::try_from(text) else {
        return None;
    };
    let days = days_told(marks);
    if digits_of_days(days) != *marks {
        return None;
    }
    Some(days)
}

/// The name rule given by a number and a text: 0 accepts every name, 1 lists the allowed endings, 2 gives the required beginning.
fn rule_of(alloc: Global, kind: i64, text: &[u8]) -> Result<Option<NameRule>, AllocError>
    ensures { IfOk result (λ found. MatchOption found
        ((rule : Rule) → IsNameRule rule → kind ≡ rule_number rule → text.now ≡ rule_text rule → ⊥)
        (λ r. TellsRule kind text.now (name_rule_of r))) }
{
    match kind {
        0 if text.is_empty() => Ok(Some(NameRule::Any)),
        1 => Ok(Some(NameRule::Ends(cut_texts(alloc, text)?))),
        2 => Ok(Some(NameRule::Begins(Vec::from_slice(alloc, text)?))),
        _ => Ok(None),
    }
}

/// Whether a box of this name obeys its rules.
fn is_box(name: &[u8], entry: &BoxEntry) -> bool
    ensures { IsTrue result ↔ IsBoxRule name.now (box_in entry.now) }
{
    let row = &entry.row;
    if !has_form(&Command::AddBox { name, row }) {
        return false;
    }
    entry.used <= row.quota && entry.count <= row.max_files
}

/// The box given by the numbers of a line, with this rule for names.
fn entry_of(line: &BoxLine, rule: NameRule) -> Option<BoxEntry>
    ensures { MatchOption result ((name : List ℕ) (b : Box)
        → IsGood IsBoxEntry IsBoxRule line.now name b → ⊥)
        (λ e. TellsRule line.now.rule_kind line.now.rule_text.items (name_rule_of rule)
        → IsBoxEntry line.now line.now.name.items (box_in e)
        × (name_rule_of e.row.rule ≡ name_rule_of rule)) }
{
    let (
        Some(opens),
        Some(closes),
        Some(days),
        Some(from_minute),
        Some(to_minute),
        Some(quota),
        Some(max_files),
        Some(mode),
        Some(used),
        Some(count),
    ) = (
        natural(line.opens),
        natural(line.closes),
        days_of(&line.days),
        minute_of(line.from_minute),
        minute_of(line.to_minute),
        natural(line.quota),
        natural(line.max_files),
        mode_of(line.mode),
        natural(line.used),
        natural(line.count),
    ) else {
        return None;
    };
    let row = BoxRow {
        opens,
        closes,
        days,
        from_minute,
        to_minute,
        quota,
        max_files,
        mode,
        rule,
    };
    Some(BoxEntry { row, used, count })
}

/// Whether two rules are the same.
fn is_same_rule(a: &NameRule, b: &NameRule) -> bool
    ensures { IsTrue result ↔ name_rule_of a.now ≡ name_rule_of b.now }
{
    match a {
        NameRule::Any => matches!(b, NameRule::Any),
        NameRule::Ends(texts) => match b {
            NameRule::Ends(others) => texts == others,
            _ => false,
        },
        NameRule::Begins(text) => match b {
            NameRule::Begins(other) => text == other,
            _ => false,
        },
    }
}

/// Whether two rows have the same numbers.
fn have_same_numbers(a: &BoxRow, b: &BoxRow) -> bool
    ensures { IsTrue result ↔ HaveSameNumbers (settings_of a.now) (settings_of b.now) }
{
    a.opens == b.opens
        && a.closes == b.closes
        && a.from_minute == b.from_minute
        && a.to_minute == b.to_minute
        && a.quota == b.quota
        && a.max_files == b.max_files
}

/// Whether two modes are the same.
fn is_same_mode(a: Mode, b: Mode) -> bool
    ensures { IsTrue result ↔ a ≡ b }
{
    a == b
}

/// Whether two sets of days are the same.
fn are_same_days(a: &[bool; 7], b: &[bool; 7]) -> bool
    ensures { IsTrue result ↔ a.now ≡ b.now }
{
    a == b
}

/// Whether two rows describe the same box.
fn is_same_row(a: &BoxRow, b: &BoxRow) -> bool
    ensures { IsTrue result ↔ settings_of a.now ≡ settings_of b.now }
{
    if !is_same_rule(&a.rule, &b.rule) {
        return false;
    }
    if !are_same_days(&a.days, &b.days) {
        return false;
    }
    if !is_same_mode(a.mode, b.mode) {
        return false;
    }
    have_same_numbers(a, b)
}

/// Whether two entries are the same box.
fn is_same_box(a: &BoxEntry, b: &BoxEntry) -> bool
    ensures { IsTrue result ↔ box_in a.now ≡ box_in b.now }
{
    is_same_row(&a.row, &b.row) && a.used == b.used && a.count == b.count
}

/// The box of a line, if the line is a box that obeys its rules.
fn box_of(alloc: Global, line: &BoxLine) -> Result<Option<BoxEntry>, AllocError>
    ensures { IfOk result (λ found. MatchOption found
        ((name : List ℕ) (b : Box) → IsGood IsBoxEntry IsBoxRule line.now name b → ⊥)
        (λ e. IsGood IsBoxEntry IsBoxRule line.now line.now.name.items (box_in e))) }
{
    let kind = line.rule_kind;
    let Some(rule) = rule_of(alloc, kind, &line.rule_text)? else {
        return Ok(None);
    };
    let Some(entry) = entry_of(line, rule) else {
        return Ok(None);
    };
    if !is_box(&line.name, &entry) {
        return Ok(None);
    }
    Ok(Some(entry))
}

/// Whether no different box has this name.
fn agrees<'a>(boxes: &Boxes<'a>, name: &'a [u8], entry: &BoxEntry) -> bool
    ensures { MatchOption (found bytes_cmp text_of boxes.now.entries name.now) (IsTrue result)
        (λ first. IsTrue result ↔ box_in first ≡ box_in entry.now) }
{
    match boxes.get(&name) {
        Some(first) => is_same_box(first, entry),
        None => true,
    }
}

/// The boxes of the lines, if each line is a box and no two different boxes have the same name.
pub(crate) fn boxes_by_name<'a>(
    alloc: Global,
    lines: &'a [BoxLine],
) -> Result<Option<Boxes<'a>>, AllocError>
    ensures { IfOk result (IsRead bytes_cmp text_of box_in
        (IsGood IsBoxEntry IsBoxRule) lines.now) }
{
    let mut boxes = BTreeMap::new(alloc);
    for line in lines {
        let Some(entry) = box_of(alloc, line)? else {
            return Ok(None);
        };
        let name = line.name.as_slice();
        if !agrees(&boxes, name, &entry) {
            return Ok(None);
        }
        boxes.insert(name, entry)?;
    }
    Ok(Some(boxes))
}
