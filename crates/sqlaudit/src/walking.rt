//! Reads and tests the files of an office in portions. The database need not mean an office.

ghost use Rattle.std.specs.Prelude.{◌≡◌, ℕ, List, IfOk, OnOk, MatchOption};
ghost use Rattle.boxes.specs.State.{Receipt};
ghost use Rattle.sqltables.specs.Inside.{seen, GoesOnWhere};
ghost use Rattle.sqltables.specs.Means.{IsRunning};
ghost use Rattle.sqlaudit.specs.Portions.{AreRowids};
ghost use Rattle.sqlaudit.specs.Sorting.{HoldsReceipts};
ghost use Rattle.sqlaudit.specs.Walking.{AreAllFiles, LackFiles, OfRunningOffice};

use crate::digests::have_bytes;
use crate::file_rules::{Filed, add_lines};
use crate::lines::{FileLine, ReceiptLine};
use crate::portions::{PORTION, list_between};
use sqlite::Error;
use sqltables::calls::Ledger;
use std::alloc::Global;
use std::collections::BTreeMap;

/// The files with these rowids, if each has the receipt that it names, and its bytes.
pub(crate) fn test_files<'a, T: Ledger>(
    tx: &mut T,
    alloc: Global,
    numbers: &[i64],
    receipts: &'a [ReceiptLine],
) -> Result<Option<Filed<'a>>, Error>
    ensures read { (rs : List Receipt) → HoldsReceipts receipts.now rs
        → AreRowids ((seen T.view tx.old).now.trees 6) numbers.now
        → OfRunningOffice T.view tx.old tx.new (λ v. IfOk result (λ found. MatchOption found
        (LackFiles rs receipts.now (seen T.view tx.old).now)
        (AreAllFiles rs receipts.now (seen T.view tx.old).now))) }
    ensures same { OfRunningOffice T.view tx.old tx.new
        (λ v. OnOk result ((seen T.view tx.new).now ≡ (seen T.view tx.old).now)) }
    ensures rest { GoesOnWhere (IsRunning (seen T.view tx.old))
        (IsRunning (seen T.view tx.old)) T.view tx.old tx.new result }
{
    let mut files = BTreeMap::new(alloc);
    let mut sums = BTreeMap::new(alloc);
    let mut at: usize = 0;
    while at < numbers.len() {
        let end = at + PORTION.min(numbers.len() - at);
        let lines: Vec<FileLine> = list_between(
            tx,
            "SELECT rowid, box, name, receipt FROM files WHERE rowid >= ?1 AND rowid <= ?2",
            numbers[at],
            numbers[end - 1],
        )?;
        if !add_lines(&mut files, &mut sums, &lines, receipts)? {
            return Ok(None);
        }
        if !have_bytes(tx, alloc, receipts, &lines)? {
            return Ok(None);
        }
        at = end;
    }
    Ok(Some(Filed { files, sums }))
}
