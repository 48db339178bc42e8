//! What a change writes, inside its transaction. The caller knows what was there before.

ghost use Rattle.std.specs.Prelude.{◌≡◌, ◌+◌, ℕ, None, Some, is_some, OnOk};
ghost use Rattle.boxes.specs.State.{Receipt, State};
ghost use Rattle.boxes.specs.Steps.{AddKey, RevokeKey, AddBox, CloseBox, LimitKey, SetAllowance};
ghost use Rattle.boxes.specs.Rows.{settings_of};
ghost use Rattle.boxes.specs.Sound.{IsSound};
ghost use Rattle.boxes.specs.Changes.{IsObeyed};
ghost use Rattle.sqltables.specs.Schema.{Version, IsVersion, v2};
ghost use Rattle.sqltables.specs.Tables.{Tables, Box, placed, tables_of};
ghost use Rattle.sqltables.specs.Changes.{with_file, with_receipt, without_pieces, with_upload, with_drop, with_totals, with_box};
ghost use Rattle.sqltables.specs.Inside.{seen, GoesOnInside};
ghost use Rattle.sqltables.specs.Means.{Pends};
ghost use Rattle.sqltables.specs.Staging.{held};

use crate::box_rows::insert_box;
use crate::statements::{
    delete_file, delete_pieces, insert_file, insert_key, insert_limit, insert_pieces,
    insert_receipt, update_allowance, update_closes, update_file, update_revoked, update_totals,
};
use boxes::{BoxRow, NewFile, Role, Totals};
use sqlite::{Error, ErrorCode};
use sqltables::MOST_BYTES;
use sqltables::calls::Ledger;
use sqltables::reading::text_of;
use sqltables::staging::Pieces;

/// The error for a number that does not fit in its column.
const TOO_BIG: Error = Error::SqliteFailure(ErrorCode::TooBig);

/// Sets the row of a file, which may already exist.
fn set_row<T: Ledger>(
    tx: &mut T,
    in_box: &str,
    name: &str,
    stands: bool,
    receipt: u32,
) -> Result<(), Error>
    ensures done { (v : Version) (tables : Tables) → IsVersion v → Pends v (seen T.view tx.old) tables
        → stands ≡ is_some (tables.file (placed in_box.now name.now))
        → OnOk result (Pends v (seen T.view tx.new)
        (with_file tables (placed in_box.now name.now) receipt)) }
    ensures rest { GoesOnInside T.view tx.old tx.new result }
{
    if stands {
        update_file(tx, in_box, name, receipt)
    } else {
        insert_file(tx, in_box, name, receipt)
    }
}

/// Sets the totals of the box of this name.
fn set_totals<T: Ledger>(tx: &mut T, name: &str, totals: Totals) -> Result<(), Error>
    ensures done { (v : Version) (tables : Tables) (b : Box) → IsVersion v
        → Pends v (seen T.view tx.old) tables → tables.box name.now ≡ Some b
        → OnOk result (Pends v (seen T.view tx.new)
        (with_box tables name.now (with_totals totals.used totals.count b))) }
    ensures rest { GoesOnInside T.view tx.old tx.new result }
{
    let (Ok(used), Ok(count)) = (i64::try_from(totals.used), u32::try_from(totals.count)) else {
        return Err(TOO_BIG);
    };
    update_totals(tx, name, used, count)
}

/// Adds the receipt of a file that is set.
fn add_receipt<T: Ledger>(
    tx: &mut T,
    number: u32,
    file: &NewFile<'_>,
    in_box: &str,
    name: &str,
) -> Result<(), Error>
    ensures done { (v : Version) (tables : Tables) (at : ℕ) (r : Receipt) → IsVersion v
        → Pends v (seen T.view tx.old) tables → tables.receipt at ≡ None
        → number ≡ at + 1 → r.box ≡ in_box.now → r.name ≡ name.now → r.size ≡ file.now.size
        → r.digest ≡ file.now.digest → r.moment ≡ file.now.moment → r.key ≡ file.now.key.now
        → OnOk result (Pends v (seen T.view tx.new) (with_receipt tables at r)) }
    ensures rest { GoesOnInside T.view tx.old tx.new result }
{
    let key = text_of(file.key)?;
    let (Ok(size), Ok(moment)) = (u32::try_from(file.size), i64::try_from(file.moment)) else {
        return Err(TOO_BIG);
    };
    insert_receipt(tx, number, in_box, name, size, &file.digest, moment, key)
}

/// Writes the rows of a file that is set: the old pieces are deleted, and its receipt and its own row are written.
fn write_rows<T: Ledger>(
    tx: &mut T,
    file: &NewFile<'_>,
    in_box: &str,
    name: &str,
    stands: bool,
) -> Result<(), Error>
    ensures done { (v : Version) (tables : Tables) (at : ℕ) (r : Receipt) → IsVersion v
        → Pends v (seen T.view tx.old) tables
        → tables.receipt at ≡ None → stands ≡ is_some (tables.file (placed in_box.now name.now))
        → file.now.number ≡ at + 1 → r.box ≡ in_box.now → r.name ≡ name.now → r.size ≡ file.now.size
        → r.digest ≡ file.now.digest → r.moment ≡ file.now.moment → r.key ≡ file.now.key.now
        → OnOk result (Pends v (seen T.view tx.new)
        (with_file (with_receipt (without_pieces tables (placed in_box.now name.now)) at r)
        (placed in_box.now name.now) (at + 1))) }
    ensures rest { GoesOnInside T.view tx.old tx.new result }
{
    let Ok(number) = u32::try_from(file.number) else {
        return Err(TOO_BIG);
    };
    delete_pieces(tx, in_box, name)?;
    add_receipt(tx, number, file, in_box, name)?;
    set_row(tx, in_box, name, stands, number)
}

/// Writes a file with its receipt and pieces, and the new totals of its box. `stands`: whether there is a file of this name.
///
/// # Errors
///
/// The database's errors, `TooBig` for a number that does not fit in its column or for bytes over 8 MiB, and `Utf8Error` for
/// a key that is not UTF-8.
pub fn write_file<T: Ledger>(
    tx: &mut T,
    file: &NewFile<'_>,
    in_box: &str,
    name: &str,
    bytes: &Pieces,
    stands: bool,
    totals: Totals,
) -> Result<(), Error>
    ensures done { (v : Version) (tables : Tables) (b : Box) (at : ℕ) (r : Receipt) → IsVersion v
        → Pends v (seen T.view tx.old) tables
        → tables.receipt at ≡ None → stands ≡ is_some (tables.file (placed in_box.now name.now))
        → tables.box in_box.now ≡ Some b
        → file.now.number ≡ at + 1 → r.box ≡ in_box.now → r.name ≡ name.now → r.size ≡ file.now.size
        → r.digest ≡ file.now.digest → r.moment ≡ file.now.moment → r.key ≡ file.now.key.now
        → OnOk result (Pends v (seen T.view tx.new)
        (with_upload tables (placed in_box.now name.now) (held bytes.now) at r
        (with_totals totals.used totals.count b))) }
    ensures rest { GoesOnInside T.view tx.old tx.new result }
{
    if bytes.len() > MOST_BYTES {
        return Err(TOO_BIG);
    }
    write_rows(tx, file, in_box, name, stands)?;
    insert_pieces(tx, in_box, name, bytes)?;
    set_totals(tx, in_box, totals)
}

/// Adds a key, unrevoked.
pub fn add_key<T: Ledger>(tx: &mut T, id: &[u8], role: Role, secret: &[u8]) -> Result<(), Error>
    ensures done { (v : Version) (s after : State) → IsVersion v
        → Pends v (seen T.view tx.old) (tables_of s)
        → IsObeyed s (AddKey id.now role secret.now) after
        → OnOk result (Pends v (seen T.view tx.new) (tables_of after)) }
    ensures rest { GoesOnInside T.view tx.old tx.new result }
{
    insert_key(tx, text_of(id)?, role, secret)
}

/// Marks a key revoked.
pub fn revoke_key<T: Ledger>(tx: &mut T, id: &[u8]) -> Result<(), Error>
    ensures done { (v : Version) (s after : State) → IsVersion v
        → Pends v (seen T.view tx.old) (tables_of s) → IsObeyed s (RevokeKey id.now) after
        → OnOk result (Pends v (seen T.view tx.new) (tables_of after)) }
    ensures rest { GoesOnInside T.view tx.old tx.new result }
{
    update_revoked(tx, text_of(id)?)
}

/// Adds a box. It holds nothing.
pub fn add_box<T: Ledger>(tx: &mut T, name: &[u8], row: &BoxRow) -> Result<(), Error>
    ensures done { (v : Version) (s after : State) → IsVersion v
        → Pends v (seen T.view tx.old) (tables_of s) → IsSound s
        → IsObeyed s (AddBox name.now (settings_of row.now)) after
        → OnOk result (Pends v (seen T.view tx.new) (tables_of after)) }
    ensures rest { GoesOnInside T.view tx.old tx.new result }
{
    insert_box(tx, text_of(name)?, row)
}

/// Sets the second at which a box closes for good, since 1970-01-01T00:00:00Z.
pub fn close_box<T: Ledger>(tx: &mut T, name: &[u8], moment: u64) -> Result<(), Error>
    ensures done { (v : Version) (s after : State) → IsVersion v
        → Pends v (seen T.view tx.old) (tables_of s) → IsObeyed s (CloseBox name.now moment) after
        → OnOk result (Pends v (seen T.view tx.new) (tables_of after)) }
    ensures rest { GoesOnInside T.view tx.old tx.new result }
{
    let Ok(moment) = i64::try_from(moment) else {
        return Err(TOO_BIG);
    };
    update_closes(tx, text_of(name)?, moment)
}

/// Deletes the rows of a file and sets the new totals of its box.
pub fn take_rows<T: Ledger>(
    tx: &mut T,
    in_box: &str,
    name: &str,
    totals: Totals,
) -> Result<(), Error>
    ensures done { (v : Version) (tables : Tables) (b : Box) → IsVersion v
        → Pends v (seen T.view tx.old) tables → tables.box in_box.now ≡ Some b
        → OnOk result (Pends v (seen T.view tx.new)
        (with_drop tables (placed in_box.now name.now) (with_totals totals.used totals.count b))) }
    ensures rest { GoesOnInside T.view tx.old tx.new result }
{
    delete_pieces(tx, in_box, name)?;
    delete_file(tx, in_box, name)?;
    set_totals(tx, in_box, totals)
}

/// Limits a key to this box, in addition to those that it is already limited to.
pub fn limit_key<T: Ledger>(tx: &mut T, id: &[u8], in_box: &[u8]) -> Result<(), Error>
    ensures done { (s after : State) → Pends v2 (seen T.view tx.old) (tables_of s)
        → IsObeyed s (LimitKey id.now in_box.now) after
        → OnOk result (Pends v2 (seen T.view tx.new) (tables_of after)) }
    ensures rest { GoesOnInside T.view tx.old tx.new result }
{
    insert_limit(tx, text_of(id)?, text_of(in_box)?)
}

/// Sets how many seconds early a link may begin.
pub fn set_allowance<T: Ledger>(tx: &mut T, seconds: u64) -> Result<(), Error>
    ensures done { (s after : State) → Pends v2 (seen T.view tx.old) (tables_of s)
        → IsObeyed s (SetAllowance seconds) after
        → OnOk result (Pends v2 (seen T.view tx.new) (tables_of after)) }
    ensures rest { GoesOnInside T.view tx.old tx.new result }
{
    let Ok(seconds) = u32::try_from(seconds) else {
        return Err(TOO_BIG);
    };
    update_allowance(tx, seconds)
}
