//! Converts the lines of the files to files with their receipts, and computes what the boxes hold.

ghost use Rattle.std.specs.Prelude.{◌≡◌, ℕ, List, [], ◌∷◌, ◌++◌, slice_get, IfOk, OnOk, MatchBool, MatchOption};
ghost use Rattle.sigtext.specs.Bytes.{bytes_cmp};
ghost use Rattle.boxes.specs.State.{Place, Receipt};
ghost use Rattle.boxes.specs.Maps.{found};
ghost use Rattle.sqlaudit.specs.Outlines.{size_in};
ghost use Rattle.sqlaudit.specs.declared.lines.FileLine.{FileLine};
ghost use Rattle.sqlaudit.specs.Sorting.{AddsTo, AreFiled, AreUnfiled, HoldsReceipts, IsFiled, count_at, spot_of, text_of, used_at};

use crate::lines::{FileLine, ReceiptLine};
use crate::receipt_rules::{length_in, place_of, receipt_at};
use boxes::Totals;
use std::alloc::AllocError;
use std::collections::BTreeMap;

/// A file, as given by its line and its receipt.
#[derive(Clone, Copy)]
pub(crate) struct FileEntry<'a> {
    /// Its box, as named in its receipt.
    pub(crate) in_box: &'a [u8],
    /// Its name, as given in its receipt.
    pub(crate) name: &'a [u8],
    /// The number of its receipt.
    pub(crate) number: u64,
    /// Its length according to that receipt, in bytes.
    pub(crate) size: u64,
}

/// The numbers of the files' receipts, keyed by the files' boxes and names.
pub(crate) type Files<'a> = BTreeMap<(&'a [u8], &'a [u8]), u64>;

/// What the boxes hold, keyed by box name.
pub(crate) type Sums<'a> = BTreeMap<&'a [u8], Totals>;

/// The files, and what the boxes hold according to them.
#[derive(Drop)]
pub(crate) struct Filed<'a> {
    pub(crate) files: Files<'a>,
    pub(crate) sums: Sums<'a>,
}

/// The file of a line, if its receipt exists and has the same place.
fn file_of<'a>(line: &FileLine, receipts: &'a [ReceiptLine]) -> Option<FileEntry<'a>>
    ensures { (rs : List Receipt) → HoldsReceipts receipts.now rs
        → MatchOption result ((place : Place) (n : ℕ) → IsFiled rs line.now place n → ⊥)
        (λ e. IsFiled rs line.now (spot_of (e.in_box, e.name)) e.number
        × (e.size ≡ size_in (slice_get rs) e.number)) }
{
    let number = line.receipt;
    let at = place_of(number)?;
    let receipt = receipt_at(receipts, at)?;
    if receipt.in_box != line.in_box {
        return None;
    }
    if receipt.name != line.name {
        return None;
    }
    Some(FileEntry {
        in_box: &receipt.in_box,
        name: &receipt.name,
        number: at + 1,
        size: length_in(receipt)?,
    })
}

/// What the box holds so far.
pub(crate) fn held_by<'a>(sums: &Sums<'a>, in_box: &'a [u8]) -> Totals
    ensures used { result.used ≡ used_at (found bytes_cmp text_of sums.now.entries in_box.now) }
    ensures count { result.count ≡ count_at (found bytes_cmp text_of sums.now.entries in_box.now) }
{
    match sums.get(&in_box) {
        Some(totals) => *totals,
        None => Totals { used: 0, count: 0 },
    }
}

/// Adds a file of this length to what the box holds.
fn add_file<'a>(sums: &mut Sums<'a>, in_box: &'a [u8], size: u64) -> Result<(), AllocError>
    ensures { OnOk result (AddsTo in_box.now size sums.old.entries sums.new.entries) }
{
    let old = held_by(sums, in_box);
    let totals = Totals {
        used: old.used.saturating_add(size),
        count: old.count.saturating_add(1),
    };
    sums.insert(in_box, totals)?;
    Ok(())
}

/// Adds the file of a line to the earlier files, if the line is a file and its place has no different file.
fn add_line<'a>(
    files: &mut Files<'a>,
    sums: &mut Sums<'a>,
    line: &FileLine,
    receipts: &'a [ReceiptLine],
) -> Result<bool, AllocError>
    ensures { (rs : List Receipt) (before : List FileLine) → HoldsReceipts receipts.now rs
        → AreFiled rs before files.old sums.old → IfOk result (λ added. MatchBool added
        (AreFiled rs (before ++ line.now ∷ []) files.new sums.new)
        (AreUnfiled rs (before ++ line.now ∷ []))) }
{
    let Some(file) = file_of(line, receipts) else {
        return Ok(false);
    };
    match files.insert((file.in_box, file.name), file.number)? {
        Some(first) => Ok(first == file.number),
        None => {
            add_file(sums, file.in_box, file.size)?;
            Ok(true)
        }
    }
}

/// Adds the files of the lines to the earlier files, if each line is a file and no two different files have the same place.
pub(crate) fn add_lines<'a>(
    files: &mut Files<'a>,
    sums: &mut Sums<'a>,
    lines: &[FileLine],
    receipts: &'a [ReceiptLine],
) -> Result<bool, AllocError>
    ensures { (rs : List Receipt) (before : List FileLine) → HoldsReceipts receipts.now rs
        → AreFiled rs before files.old sums.old → IfOk result (λ added. MatchBool added
        (AreFiled rs (before ++ lines.now) files.new sums.new)
        (AreUnfiled rs (before ++ lines.now))) }
{
    for line in lines {
        if !add_line(files, sums, line, receipts)? {
            return Ok(false);
        }
    }
    Ok(true)
}
