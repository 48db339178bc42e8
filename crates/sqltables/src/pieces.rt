//! Reads the bytes of a file piece by piece, inside a transaction. The database need not mean an office.

ghost use Rattle.std.specs.Prelude.{◌≡◌, ◌⊎◌, IsTrue, OnOk, IfOk, drop, length, take};
ghost use Rattle.sqlite.specs.State.{HasCleanDisk};
ghost use Rattle.sqltables.specs.Inside.{seen, GoesOnWhere, GoesOnBegun, SameOffice, OfWholeOffice};
ghost use Rattle.sqltables.specs.Means.{IsRunning};
ghost use Rattle.sqltables.specs.Pieces.{IsPieceAt, IsAppended, AreFound};
ghost use Rattle.sqltables.specs.Tables.{placed};

use crate::calls::Ledger;
use crate::{MOST_BYTES, PIECE};
use sqlite::types::ValueRef;
use sqlite::{Error, ErrorCode, params};
use std::alloc::Global;

/// The query for one piece of a file.
const SELECT_PIECE: &str = "SELECT bytes FROM pieces WHERE box = ?1 AND name = ?2 AND part = ?3";

/// One piece of a file, if it exists.
pub fn read_piece<T: Ledger>(
    tx: &mut T,
    in_box: &str,
    name: &str,
    part: u32,
) -> Result<Option<Vec<u8>>, Error>
    ensures read { OfWholeOffice T.view tx.old tx.new
        (IfOk result (IsPieceAt ((seen T.view tx.old).now.trees 9) (placed in_box.now name.now) part)) }
    ensures same { SameOffice T.view tx.old tx.new result }
    ensures mode { HasCleanDisk (seen T.view tx.new)
        → OnOk result ((seen T.view tx.new).in_transaction ≡ (seen T.view tx.old).in_transaction) }
    ensures rest { GoesOnBegun T.view tx.old tx.new result }
{
    let rows = tx.query(SELECT_PIECE, params![in_box, name, part])?;
    let Some(row) = rows.first() else {
        return Ok(None);
    };
    let piece: Vec<u8> = row.get(0)?;
    Ok(Some(piece))
}

/// Appends one piece of a file to these bytes, if it exists. Returns whether it does. It is copied once.
fn append_piece<T: Ledger>(
    tx: &mut T,
    in_box: &str,
    name: &str,
    part: u32,
    bytes: &mut Vec<u8>,
) -> Result<bool, Error>
    ensures added { OnOk result (take (length bytes.old.items) bytes.new.items ≡ bytes.old.items) }
    ensures read { OfWholeOffice T.view tx.old tx.new
        (IfOk result (IsAppended ((seen T.view tx.old).now.trees 9) (placed in_box.now name.now) part
        (drop (length bytes.old.items) bytes.new.items))) }
    ensures same { SameOffice T.view tx.old tx.new result }
    ensures mode { HasCleanDisk (seen T.view tx.new)
        → OnOk result ((seen T.view tx.new).in_transaction ≡ (seen T.view tx.old).in_transaction) }
    ensures rest { GoesOnBegun T.view tx.old tx.new result }
{
    let rows = tx.query(SELECT_PIECE, params![in_box, name, part])?;
    let Some(row) = rows.first() else {
        return Ok(false);
    };
    let ValueRef::Blob(piece) = row.get_ref(0)? else {
        return Err(Error::SqliteFailure(ErrorCode::DatabaseCorrupt));
    };
    bytes.extend_from_slice(piece)?;
    Ok(true)
}

/// The bytes of a file of this size, if all its pieces exist. A piece with a wrong length is the error `DatabaseCorrupt`.
pub fn read_file<T: Ledger>(
    tx: &mut T,
    alloc: Global,
    in_box: &str,
    name: &str,
    size: u64,
) -> Result<Option<Vec<u8>>, Error>
    ensures read { OfWholeOffice T.view tx.old tx.new
        (IfOk result (AreFound ((seen T.view tx.old).now.trees 9) (placed in_box.now name.now) size)) }
    ensures same { SameOffice T.view tx.old tx.new result }
    ensures opened { HasCleanDisk (seen T.view tx.new) → IsTrue (seen T.view tx.old).in_transaction
        → OnOk result ((size ≡ 0) ⊎ IsTrue (seen T.view tx.old).is_open) }
    ensures mode { HasCleanDisk (seen T.view tx.new)
        → OnOk result ((seen T.view tx.new).in_transaction ≡ (seen T.view tx.old).in_transaction) }
    ensures rest { GoesOnWhere (IsRunning (seen T.view tx.old))
        (IsTrue (seen T.view tx.old).in_transaction) T.view tx.old tx.new result }
{
    let mut bytes = Vec::with_capacity(alloc, size.min(MOST_BYTES as u64) as usize)?;
    let mut part: u32 = 0;
    while (bytes.len() as u64) < size {
        let before = bytes.len();
        let is_there = append_piece(tx, in_box, name, part, &mut bytes)?;
        if !is_there {
            return Ok(None);
        }
        let rest = size - before as u64;
        if (bytes.len() - before) as u64 != rest.min(PIECE as u64) {
            return Err(Error::SqliteFailure(ErrorCode::DatabaseCorrupt));
        }
        match part.checked_add(1) {
            Some(next) => part = next,
            None => return Err(Error::SqliteFailure(ErrorCode::TooBig)),
        }
    }
    Ok(Some(bytes))
}
