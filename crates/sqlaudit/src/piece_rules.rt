//! The rules about which pieces, boxes and keys exist.

ghost use Rattle.std.specs.Prelude.{◌≡◌, ◌↔◌, ℕ, ◌*◌, ◌-◌, ◌<◌, pos, min, List, Contains, IsTrue, slice_get};
ghost use Rattle.std.specs.FinMap.{FinMap, get};
ghost use Rattle.sigtext.specs.Bytes.{bytes_cmp};
ghost use Rattle.boxes.specs.State.{Key, Receipt, place_cmp};
ghost use Rattle.sqlaudit.specs.declared.lines.BoxLine.{BoxLine};
ghost use Rattle.sqlaudit.specs.declared.lines.PieceLine.{PieceLine};
ghost use Rattle.sqlaudit.specs.Outlines.{AreEntries, HasClerkIn, IsKeyEntry, IsKeyRule, IsPieceIn, size_in};
ghost use Rattle.sqlaudit.specs.Sorting.{AreSums, HasTotals, HoldsFiles, HoldsReceipts, IsGood, capped};

use crate::file_rules::{Files, Sums, held_by};
use crate::lines::{BoxLine, KeyLine, PieceLine, ReceiptLine};
use crate::receipt_rules::{length_in, natural, receipt_at};

// The length of a piece that is not the last, in bytes.
const PIECE_BYTES: u64 = 65_536;

/// The size in the receipt of this number; 0 if there is no such receipt.
fn size_of(receipts: &[ReceiptLine], number: u64) -> u64
    ensures { (rs : List Receipt) → HoldsReceipts receipts.now rs
        → result ≡ size_in (slice_get rs) number }
{
    match receipt_at(receipts, number.saturating_sub(1)) {
        Some(receipt) => length_in(receipt).unwrap_or(0),
        None => 0,
    }
}

/// Whether a piece of this length fits this part of a file of this size.
fn is_stretch(size: u64, part: u64, length: u64) -> bool
    ensures { IsTrue result ↔ ((65536 * part < size) × (length ≡ min 65536 (size - 65536 * part))) }
{
    let begin = PIECE_BYTES.saturating_mul(part);
    begin < size && length == PIECE_BYTES.min(size - begin)
}

/// The number of the receipt of a piece's file.
fn number_of<'a>(line: &'a PieceLine, files: &Files<'a>) -> Option<u64>
    ensures { (m : FinMap place_cmp ℕ) → HoldsFiles files.now m
        → result ≡ get m (record { box = line.now.in_box.items; name = line.now.name.items }) }
{
    files
        .get(&(line.in_box.as_slice(), line.name.as_slice()))
        .copied()
}

/// Whether the line is a piece of one of the files.
fn is_piece<'a>(line: &'a PieceLine, files: &Files<'a>, receipts: &[ReceiptLine]) -> bool
    ensures { (rs : List Receipt) (m : FinMap place_cmp ℕ) → HoldsReceipts receipts.now rs
        → HoldsFiles files.now m → IsTrue result ↔ IsPieceIn (slice_get rs) m line.now }
{
    let (part, length) = (line.part, line.length);
    let Some(number) = number_of(line, files) else {
        return false;
    };
    let Some(part) = natural(part) else {
        return false;
    };
    let Some(length) = natural(length) else {
        return false;
    };
    is_stretch(size_of(receipts, number), part, length)
}

/// Whether each line is a piece of one of the files.
pub(crate) fn are_pieces<'a>(
    lines: &'a [PieceLine],
    files: &Files<'a>,
    receipts: &[ReceiptLine],
) -> bool
    ensures { (rs : List Receipt) (m : FinMap place_cmp ℕ) → HoldsReceipts receipts.now rs
        → HoldsFiles files.now m
        → IsTrue result ↔ ((line : PieceLine) → Contains lines.now line
        → IsPieceIn (slice_get rs) m line) }
{
    for line in lines {
        if !is_piece(line, files, receipts) {
            return false;
        }
    }
    true
}

/// Whether a stored number equals a sum. Sums are capped at the greatest 64-bit number.
fn is_sum(told: i64, sum: u64) -> bool
    ensures { (n : ℕ) → sum ≡ capped n → IsTrue result ↔ told ≡ pos n }
{
    match natural(told) {
        Some(told) => told == sum && sum < u64::MAX,
        None => false,
    }
}

/// Whether the line's totals are what its box holds.
fn has_totals<'a>(line: &'a BoxLine, sums: &Sums<'a>) -> bool
    ensures { (rs : List Receipt) (m : FinMap place_cmp ℕ) → AreSums rs m sums.now.entries
        → IsTrue result ↔ HasTotals rs m line.now }
{
    let (used, count) = (line.used, line.count);
    let held = held_by(sums, &line.name);
    is_sum(used, held.used) && is_sum(count, held.count)
}

/// Whether each line's totals are what its box holds.
pub(crate) fn have_totals<'a>(lines: &'a [BoxLine], sums: &Sums<'a>) -> bool
    ensures { (rs : List Receipt) (m : FinMap place_cmp ℕ) → AreSums rs m sums.now.entries
        → IsTrue result ↔ ((line : BoxLine) → Contains lines.now line → HasTotals rs m line) }
{
    for line in lines {
        if !has_totals(line, sums) {
            return false;
        }
    }
    true
}

/// Whether the line is an unrevoked clerk's key.
fn is_clerk(line: &KeyLine) -> bool
    ensures { IsTrue result ↔ ((line.now.role ≡ pos 1) × (line.now.revoked ≡ pos 0)) }
{
    line.role == 1 && line.revoked == 0
}

/// Whether an unrevoked clerk's key exists.
pub(crate) fn has_clerk(lines: &[KeyLine]) -> bool
    ensures { (ks : FinMap bytes_cmp Key) → AreEntries (IsGood IsKeyEntry IsKeyRule)
        (get ks) lines.now → IsTrue result ↔ HasClerkIn ks }
{
    for line in lines {
        if is_clerk(line) {
            return true;
        }
    }
    false
}
