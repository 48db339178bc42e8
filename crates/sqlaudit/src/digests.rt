//! Checks the bytes of the files against the digests in their receipts. The database need not mean an office.

ghost use Rattle.std.specs.Prelude.{◌↔◌, ◌≡◌, Contains, MatchBool, IsTrue, OnOk, IfOk, IfSome};
ghost use Rattle.sigtext.specs.Bytes.{AreBytes};
ghost use Rattle.sigv4.specs.Hmac.{sha256};
ghost use Rattle.sqlite.specs.State.{HasCleanDisk};
ghost use Rattle.sqlaudit.specs.declared.lines.FileLine.{FileLine};
ghost use Rattle.sqltables.specs.Schema.{Version, IsVersion};
ghost use Rattle.sqltables.specs.Inside.{seen, GoesOnBegun, GoesOnWhere, SameOffice, HasSchema, HasWhole, OfWholeOffice};
ghost use Rattle.sqltables.specs.Means.{IsRunning};
ghost use Rattle.sqltables.specs.Tables.{placed};
ghost use Rattle.sqlaudit.specs.Opened.{AreBytesFound, IsBare, IsGivenFor, IsNotBare, HasBytes, LacksBytes};

use crate::lines::{FileLine, ReceiptLine};
use sigv4::Sha;
use sqlite::{Error, ErrorCode};
use sqltables::calls::Ledger;
use sqltables::pieces::read_piece;
use sqltables::{MOST_BYTES, PIECE};
use std::alloc::Global;
use std::str;

/// The receipt of the file, if the first receipt has number 1 and none is missing.
fn receipt_for<'a>(receipts: &'a [ReceiptLine], file: &FileLine) -> Option<&'a ReceiptLine>
    ensures { IfSome result (λ given. IsGivenFor receipts.now file.now given.now) }
{
    let at = usize::try_from(file.receipt.checked_sub(1)?).ok()?;
    let given = receipts.get(at)?;
    if given.number == file.receipt {
        Some(given)
    } else {
        None
    }
}

/// Whether the bytes have the digest in the receipt.
fn have_digest(bytes: &[u8], given: &ReceiptLine) -> bool
    ensures told { IsTrue result ↔ sha256 bytes.now ≡ given.now.digest.items }
    ensures octets { AreBytes bytes.now }
{
    Sha::digest(bytes).as_slice() == given.digest.as_slice()
}

/// Whether there is no first piece, and the receipt has the digest of no bytes.
fn is_bare<T: Ledger>(
    tx: &mut T,
    in_box: &str,
    name: &str,
    given: &ReceiptLine,
) -> Result<bool, Error>
    ensures read { OfWholeOffice T.view tx.old tx.new
        (IfOk result (λ bare. MatchBool bare
        (IsBare ((seen T.view tx.old).now.trees 9) (placed in_box.now name.now) given.now)
        (IsNotBare ((seen T.view tx.old).now.trees 9) (placed in_box.now name.now) given.now))) }
    ensures same { SameOffice T.view tx.old tx.new result }
    ensures rest { GoesOnBegun T.view tx.old tx.new result }
{
    if read_piece(tx, in_box, name, 0)?.is_some() {
        return Ok(false);
    }
    Ok(have_digest(&[], given))
}

/// The bytes of a file of this size, if all its pieces exist and have their right length.
fn find_bytes<T: Ledger>(
    tx: &mut T,
    alloc: Global,
    in_box: &str,
    name: &str,
    size: u64,
) -> Result<Option<Vec<u8>>, Error>
    ensures read { OfWholeOffice T.view tx.old tx.new
        (IfOk result (AreBytesFound ((seen T.view tx.old).now.trees 9)
        (placed in_box.now name.now) size)) }
    ensures same { SameOffice T.view tx.old tx.new result }
    ensures rest { GoesOnWhere (IsRunning (seen T.view tx.old))
        (IsTrue (seen T.view tx.old).in_transaction) T.view tx.old tx.new result }
{
    let mut bytes = Vec::with_capacity(alloc, size.min(MOST_BYTES as u64) as usize)?;
    let mut part: u32 = 0;
    while (bytes.len() as u64) < size {
        let Some(piece) = read_piece(tx, in_box, name, part)? else {
            return Ok(None);
        };
        let rest = size - bytes.len() as u64;
        if piece.len() as u64 != rest.min(PIECE as u64) {
            return Ok(None);
        }
        bytes.extend_from_slice(&piece)?;
        match part.checked_add(1) {
            Some(next) => part = next,
            None => return Err(Error::SqliteFailure(ErrorCode::TooBig)),
        }
    }
    Ok(Some(bytes))
}

/// Whether the file's pieces are bytes with the length and the digest in its receipt. An empty file has no first piece.
/// A missing receipt is the error `DatabaseCorrupt`.
fn has_bytes<T: Ledger>(
    tx: &mut T,
    alloc: Global,
    receipts: &[ReceiptLine],
    file: &FileLine,
) -> Result<bool, Error>
    ensures read { OfWholeOffice T.view tx.old tx.new
        (IfOk result
        (λ has. MatchBool has (HasBytes ((seen T.view tx.old).now.trees 9) receipts.now file.now)
        (LacksBytes ((seen T.view tx.old).now.trees 9) receipts.now file.now))) }
    ensures same { SameOffice T.view tx.old tx.new result }
    ensures rest { GoesOnWhere (IsRunning (seen T.view tx.old))
        (IsTrue (seen T.view tx.old).in_transaction) T.view tx.old tx.new result }
{
    let Some(given) = receipt_for(receipts, file) else {
        return Err(Error::SqliteFailure(ErrorCode::DatabaseCorrupt));
    };
    let (Ok(in_box), Ok(name)) = (str::from_utf8(&file.in_box), str::from_utf8(&file.name)) else {
        return Err(Error::SqliteFailure(ErrorCode::DatabaseCorrupt));
    };
    let Ok(size) = u64::try_from(given.length) else {
        return Err(Error::SqliteFailure(ErrorCode::DatabaseCorrupt));
    };
    if size == 0 {
        return is_bare(tx, in_box, name, given);
    }
    let Some(bytes) = find_bytes(tx, alloc, in_box, name, size)? else {
        return Ok(false);
    };
    Ok(have_digest(&bytes, given))
}

/// Whether each file's pieces are bytes with the length and the digest in its receipt, and no empty file has a first
/// piece. Only one file is read at a time.
pub(crate) fn have_bytes<T: Ledger>(
    tx: &mut T,
    alloc: Global,
    receipts: &[ReceiptLine],
    files: &[FileLine],
) -> Result<bool, Error>
    ensures read { (v : Version) → IsVersion v → HasSchema v.schema (seen T.view tx.old)
        → HasWhole (seen T.view tx.old)
        → IsRunning (seen T.view tx.old) → HasCleanDisk (seen T.view tx.new)
        → IfOk result (λ have. MatchBool have
        ((file : FileLine) → Contains files.now file
        → HasBytes ((seen T.view tx.old).now.trees 9) receipts.now file)
        ((file : FileLine) × Contains files.now file
        × LacksBytes ((seen T.view tx.old).now.trees 9) receipts.now file)) }
    ensures same { (v : Version) → IsVersion v → HasSchema v.schema (seen T.view tx.old)
        → IsRunning (seen T.view tx.old) → HasCleanDisk (seen T.view tx.new)
        → OnOk result ((seen T.view tx.new).now ≡ (seen T.view tx.old).now) }
    ensures rest { GoesOnWhere (IsRunning (seen T.view tx.old))
        (IsRunning (seen T.view tx.old)) T.view tx.old tx.new result }
{
    for file in files {
        if !has_bytes(tx, alloc, receipts, file)? {
            return Ok(false);
        }
    }
    Ok(true)
}
