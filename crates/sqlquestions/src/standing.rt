//! The file under a name, inside a transaction.

ghost use Rattle.std.specs.Prelude.{◌≡◌, ◌↔◌, length, option_map, IsTrue, IfOk};
ghost use Rattle.std.specs.FinMap.{get};
ghost use Rattle.sqlite.specs.State.{HasCleanDisk};
ghost use Rattle.sqlite.specs.Held.{state};
ghost use Rattle.boxes.specs.State.{State};
ghost use Rattle.boxes.specs.Rows.{IsFileAt};
ghost use Rattle.boxes.specs.Rules.{HasBytes};
ghost use Rattle.boxes.specs.Views.{IsReceiptAt};
ghost use Rattle.boxes.specs.Sound.{IsSound};
ghost use Rattle.sqltables.specs.Schema.{Version, IsVersion};
ghost use Rattle.sqltables.specs.Tables.{placed, tables_of};
ghost use Rattle.sqltables.specs.Inside.{seen, GoesOnBegun, Still, FindsOf};
ghost use Rattle.sqltables.specs.Means.{Pends};
ghost use Rattle.sqltables.specs.Staging.{held};

use crate::comparing::has_pieces;
use crate::questions::{file_bytes, file_number, receipt};
use boxes::{FileRow, ReceiptRow};
use sqlite::Error;
use sqltables::calls::Ledger;
use sqltables::staging::Pieces;
use std::alloc::Global;

/// The receipt of the file with this box and name.
pub fn standing_receipt<T: Ledger>(
    tx: &mut T,
    in_box: &str,
    name: &str,
) -> Result<Option<ReceiptRow>, Error>
    ensures found { FindsOf T.view tx.old tx.new result
        (λ s. IsReceiptAt s (placed in_box.now name.now)) }
    ensures still { Still T.view tx.old tx.new result }
    ensures rest { GoesOnBegun T.view tx.old tx.new result }
{
    match file_number(tx, in_box, name)? {
        Some(number) => receipt(tx, number),
        None => Ok(None),
    }
}

/// The size in bytes of the file with this box and name, in a sound state. It is read from the file's receipt.
pub fn standing_size<T: Ledger>(tx: &mut T, in_box: &str, name: &str) -> Result<Option<u64>, Error>
    ensures found { (v : Version) (s : State) → IsVersion v → Pends v (seen T.view tx.old) (tables_of s)
        → IsSound s
        → IsTrue (seen T.view tx.old).in_transaction → HasCleanDisk (seen T.view tx.new)
        → IfOk result (λ size. size ≡ option_map (λ f. length f.bytes)
        (get s.files (placed in_box.now name.now))) }
    ensures still { Still T.view tx.old tx.new result }
    ensures rest { GoesOnBegun T.view tx.old tx.new result }
{
    let Some(receipt) = standing_receipt(tx, in_box, name)? else {
        return Ok(None);
    };
    Ok(Some(receipt.size))
}

/// The file with this box and name, with its receipt.
pub fn file<T: Ledger>(
    tx: &mut T,
    alloc: Global,
    in_box: &str,
    name: &str,
) -> Result<Option<FileRow>, Error>
    ensures found { FindsOf T.view tx.old tx.new result
        (λ s. IsFileAt s (placed in_box.now name.now)) }
    ensures still { Still T.view tx.old tx.new result }
    ensures rest { GoesOnBegun T.view tx.old tx.new result }
{
    let Some(receipt) = standing_receipt(tx, in_box, name)? else {
        return Ok(None);
    };
    let bytes = file_bytes(tx, alloc, in_box, name, receipt.size)?;
    Ok(Some(FileRow { bytes, receipt }))
}

/// Whether the file with this box and name has exactly these bytes. The size in its receipt is checked first.
pub fn has_bytes<T: Ledger>(
    tx: &mut T,
    in_box: &str,
    name: &str,
    bytes: &Pieces,
) -> Result<bool, Error>
    ensures found { FindsOf T.view tx.old tx.new result
        (λ s has. IsTrue has ↔ HasBytes s (placed in_box.now name.now) (held bytes.now)) }
    ensures still { Still T.view tx.old tx.new result }
    ensures rest { GoesOnBegun T.view tx.old tx.new result }
{
    let Some(size) = standing_size(tx, in_box, name)? else {
        return Ok(false);
    };
    if size != bytes.len() as u64 {
        return Ok(false);
    }
    has_pieces(tx, in_box, name, bytes)
}
