//! The rules that relate the lines of an office's tables, without SQL.

ghost use Rattle.std.specs.Prelude.{◌↔◌, ◌≤ℤ◌, ℤ, pos, neg_ℤ, Contains, MatchBool, Some, IsTrue, IfOk};
ghost use Rattle.sqlaudit.specs.declared.lines.OfficeLine.{OfficeLine};
ghost use Rattle.sqlaudit.specs.Outlines.{AreEntries, IsOfficeEntry, AreSoundLines};
ghost use Rattle.sqlaudit.specs.Sorting.{AreRising, AreRuled};

use crate::box_rules::boxes_by_name;
use crate::key_rules::keys_by_id;
use crate::limit_rules::{are_limits, has_allowance};
use crate::lines::{BoxLine, KeyLine, LimitLine, OfficeLine, ReceiptLine, RulesLine};
use crate::piece_rules::has_clerk;
use crate::receipt_rules::are_receipts;
use std::alloc::{AllocError, Global};

/// The lines of the tables of an office, except its files and pieces.
#[derive(Clone, Copy)]
pub(crate) struct Lines<'a> {
    pub(crate) office: &'a [OfficeLine],
    pub(crate) keys: &'a [KeyLine],
    pub(crate) boxes: &'a [BoxLine],
    pub(crate) receipts: &'a [ReceiptLine],
    pub(crate) rules: &'a [RulesLine],
    pub(crate) limits: &'a [LimitLine],
}

// The maximum offset of an office's clock, in minutes.
const MOST_EAST: i64 = 840;

/// Whether the line is the office's, with the same offset as the first.
fn is_office_line(line: &OfficeLine, first: &OfficeLine) -> bool
    ensures { IsTrue result ↔ IsOfficeEntry line.now tt first.now.east }
{
    line.id == 1 && line.east == first.east
}

/// Whether each line is the office's, with the same offset as the first.
fn are_office_lines(lines: &[OfficeLine], first: &OfficeLine) -> bool
    ensures { IsTrue result ↔ ((line : OfficeLine) → Contains lines.now line
        → IsOfficeEntry line tt first.now.east) }
{
    for line in lines {
        if !is_office_line(line, first) {
            return false;
        }
    }
    true
}

/// Whether the offset is within the limits of a clock.
fn is_offset(line: &OfficeLine) -> bool
    ensures { IsTrue result ↔ ((neg_ℤ (pos 840) ≤ℤ line.now.east) × (line.now.east ≤ℤ pos 840)) }
{
    line.east >= -MOST_EAST && line.east <= MOST_EAST
}

/// Whether there is a line, and every line is the one line of the office, with the same offset, within the limits of a clock.
pub(crate) fn is_office(lines: &[OfficeLine]) -> bool
    ensures { IsTrue result ↔ ((east : ℤ) × AreEntries IsOfficeEntry (λ one. Some east) lines.now
        × ((neg_ℤ (pos 840) ≤ℤ east) × (east ≤ℤ pos 840))) }
{
    let Some(first) = lines.first() else {
        return false;
    };
    if !is_offset(first) {
        return false;
    }
    are_office_lines(lines, first)
}

/// Whether the lines obey every rule that needs no file. The lines of the receipts are in the order of their numbers.
pub(crate) fn are_sound(alloc: Global, lines: &Lines<'_>) -> Result<bool, AllocError>
    ensures { AreRising lines.now.receipts.now → IfOk result
        (λ b. MatchBool b (AreRuled lines.now) (AreSoundLines lines.now → ⊥)) }
{
    if !is_office(lines.office) {
        return Ok(false);
    }
    if !has_allowance(lines.rules) {
        return Ok(false);
    }
    let Some(keys) = keys_by_id(alloc, lines.keys)? else {
        return Ok(false);
    };
    let Some(boxes) = boxes_by_name(alloc, lines.boxes)? else {
        return Ok(false);
    };
    if !are_limits(lines.limits, &keys, &boxes) {
        return Ok(false);
    }
    if !are_receipts(lines.receipts, &keys, &boxes) {
        return Ok(false);
    }
    Ok(has_clerk(lines.keys))
}
