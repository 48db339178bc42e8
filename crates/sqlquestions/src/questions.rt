//! Queries inside a transaction. They change nothing.

ghost use Rattle.std.specs.Prelude.{◌≡◌, ◌↔◌, ◌+◌, ◌-◌, ℕ, List, length, map, take, drop, slice_get, None, Some, IsTrue, OnOk, IfOk, option_map};
ghost use Rattle.std.specs.FinMap.{get};
ghost use Rattle.std.specs.List.{AllByRecursion};
ghost use Rattle.sqlite.specs.State.{HasCleanDisk};
ghost use Rattle.sqlite.specs.Held.{state};
ghost use Rattle.sqlite.specs.Values.{bound};
ghost use Rattle.sqlite.specs.Given.{IsPlain};
ghost use Rattle.sqlite.specs.Listing.{understood};
ghost use Rattle.boxes.specs.State.{Receipt, State};
ghost use Rattle.boxes.specs.Rows.{key_of, settings_of, numbered, numbered_receipt};
ghost use Rattle.boxes.specs.Clerks.{clerks};
ghost use Rattle.boxes.specs.Sound.{AreSettings, IsDigest};
ghost use Rattle.sqltables.specs.Schema.{Version, IsVersion};
ghost use Rattle.sqltables.specs.Tables.{Tables, Box, piece_of, placed};
ghost use Rattle.sqltables.specs.Inside.{seen, GoesOnWhere, GoesOnBegun, Still, FindsIn, StillSecond, FindsInSecond};
ghost use Rattle.sqltables.specs.Means.{Pends, IsRunning};
ghost use Rattle.sqltables.specs.Questions.{last_rows, ShowsRow, shown_office, shown_key, shown_box, shown_totals, shown_receipt, shown_number, AreTotalsOf, IsReceiptOf, AreActing, different_texts, AreLimits, HasLimit, ReachesBox, ShowsText};

use boxes::{BoxRow, KeyRow, ReceiptRow, Totals};
use sigv4::Allowance;
use sqlite::types::ValueRef;
use sqlite::{Error, ErrorCode, Row, params};
use sqltables::calls::Ledger;
use sqltables::pieces::read_file;
use sqltables::reading::{read_box, read_key, read_receipt, read_text};
use std::alloc::Global;
use std::collections::BTreeSet;

/// The last row that a query of the office's own tables shows, if it shows any.
pub(crate) fn select_row<T: Ledger>(
    tx: &mut T,
    sql: &str,
    params: &[ValueRef<'_>],
) -> Result<Option<Row>, Error>
    ensures shown { HasCleanDisk (seen T.view tx.new)
        → IfOk result (ShowsRow sql.now (bound params.now) (seen T.view tx.old)
        (seen T.view tx.new)) }
    ensures still { (v : Version) (tables : Tables) → IsPlain (understood v.schema sql.now)
        → Pends v (seen T.view tx.old) tables
        → OnOk result (Pends v (seen T.view tx.new) tables) }
    ensures rest { GoesOnBegun T.view tx.old tx.new result }
{
    let mut rows = tx.query(sql, params)?;
    Ok(rows.pop())
}

/// The row of a key: its role, its secret and whether it is revoked.
fn select_key<T: Ledger>(tx: &mut T, id: &str) -> Result<Option<Row>, Error>
    ensures found { FindsIn T.view tx.old tx.new result
        (λ tables row. row ≡ option_map shown_key (tables.key id.now)) }
    ensures still { Still T.view tx.old tx.new result }
    ensures rest { GoesOnBegun T.view tx.old tx.new result }
{
    select_row(
        tx,
        "SELECT role, secret, revoked FROM keys WHERE id = ?1",
        params![id],
    )
}

/// The office's own row: its version and its offset.
fn select_office<T: Ledger>(tx: &mut T) -> Result<Option<Row>, Error>
    ensures found { (v : Version) (tables : Tables) → IsVersion v → Pends v (seen T.view tx.old) tables
        → IsTrue (seen T.view tx.old).in_transaction → HasCleanDisk (seen T.view tx.new)
        → IfOk result (λ row. row ≡ Some (shown_office v.number tables.offset)) }
    ensures still { Still T.view tx.old tx.new result }
    ensures rest { GoesOnBegun T.view tx.old tx.new result }
{
    select_row(tx, "SELECT version, east FROM office", &[])
}

/// The row of a box, without its name.
fn select_box<T: Ledger>(tx: &mut T, name: &str) -> Result<Option<Row>, Error>
    ensures found { FindsIn T.view tx.old tx.new result
        (λ tables row. row ≡ option_map shown_box (tables.box name.now)) }
    ensures still { Still T.view tx.old tx.new result }
    ensures rest { GoesOnBegun T.view tx.old tx.new result }
{
    select_row(
        tx,
        "SELECT opens, closes, days, from_minute, to_minute, quota, max_files, mode, rule_kind, rule_text, used, count FROM boxes WHERE name = ?1",
        params![name],
    )
}

/// The totals in the row of a box.
fn select_totals<T: Ledger>(tx: &mut T, name: &str) -> Result<Option<Row>, Error>
    ensures found { FindsIn T.view tx.old tx.new result
        (λ tables row. row ≡ option_map shown_totals (tables.box name.now)) }
    ensures still { Still T.view tx.old tx.new result }
    ensures rest { GoesOnBegun T.view tx.old tx.new result }
{
    select_row(
        tx,
        "SELECT used, count FROM boxes WHERE name = ?1",
        params![name],
    )
}

/// The number in the row of a file.
fn select_file<T: Ledger>(tx: &mut T, in_box: &str, name: &str) -> Result<Option<Row>, Error>
    ensures found { FindsIn T.view tx.old tx.new result
        (λ tables row. row ≡ option_map shown_number (tables.file (placed in_box.now name.now))) }
    ensures still { Still T.view tx.old tx.new result }
    ensures rest { GoesOnBegun T.view tx.old tx.new result }
{
    select_row(
        tx,
        "SELECT receipt FROM files WHERE box = ?1 AND name = ?2",
        params![in_box, name],
    )
}

/// The row of a receipt, without its number.
fn select_receipt<T: Ledger>(tx: &mut T, number: u64) -> Result<Option<Row>, Error>
    ensures found { (v : Version) (tables : Tables) (at : ℕ) → IsVersion v
        → Pends v (seen T.view tx.old) tables → number ≡ at + 1
        → IsTrue (seen T.view tx.old).in_transaction → HasCleanDisk (seen T.view tx.new)
        → IfOk result (λ row. row ≡ option_map shown_receipt (tables.receipt at)) }
    ensures still { Still T.view tx.old tx.new result }
    ensures rest { GoesOnBegun T.view tx.old tx.new result }
{
    let Ok(number) = i64::try_from(number) else {
        return Err(Error::SqliteFailure(ErrorCode::TooBig));
    };
    select_row(
        tx,
        "SELECT box, name, length, digest, moment, key_id FROM receipts WHERE number = ?1",
        params![number],
    )
}

/// The offset of the office's clock east of UTC, in minutes.
pub fn east<T: Ledger>(tx: &mut T) -> Result<i16, Error>
    ensures found { FindsIn T.view tx.old tx.new result (λ tables east. east ≡ tables.offset) }
    ensures still { Still T.view tx.old tx.new result }
    ensures rest { GoesOnBegun T.view tx.old tx.new result }
{
    let Some(row) = select_office(tx)? else {
        return Err(Error::QueryReturnedNoRows);
    };
    match i16::try_from(row.get::<i64>(1)?) {
        Ok(east) => Ok(east),
        Err(_) => Err(Error::IntegralValueOutOfRange(1)),
    }
}

/// The row of the rules: the allowance.
fn select_allowance<T: Ledger>(tx: &mut T) -> Result<Option<Row>, Error>
    ensures found { FindsInSecond T.view tx.old tx.new result
        (λ tables row. row ≡ Some (shown_number tables.allowance)) }
    ensures still { StillSecond T.view tx.old tx.new result }
    ensures rest { GoesOnBegun T.view tx.old tx.new result }
{
    select_row(tx, "SELECT allowance FROM rules", &[])
}

/// How early a link may begin.
pub fn allowance<T: Ledger>(tx: &mut T) -> Result<Allowance, Error>
    ensures found { FindsInSecond T.view tx.old tx.new result
        (λ tables allowance. allowance ≡ tables.allowance) }
    ensures still { StillSecond T.view tx.old tx.new result }
    ensures rest { GoesOnBegun T.view tx.old tx.new result }
{
    let Some(row) = select_allowance(tx)? else {
        return Err(Error::QueryReturnedNoRows);
    };
    match Allowance::new(row.get(0)?) {
        Some(allowance) => Ok(allowance),
        None => Err(Error::IntegralValueOutOfRange(0)),
    }
}

/// The rows of the boxes that a key is limited to. Each row is a name, and they have no order.
fn select_limits<T: Ledger>(tx: &mut T, id: &str) -> Result<Vec<Row>, Error>
    ensures found { FindsInSecond T.view tx.old tx.new result
        (λ tables rows. AreLimits tables.limit id.now rows.items) }
    ensures still { StillSecond T.view tx.old tx.new result }
    ensures rest { GoesOnBegun T.view tx.old tx.new result }
{
    tx.query("SELECT box FROM key_box WHERE key_id = ?1", params![id])
}

/// Whether the first column of some row is this text. If an earlier row does not begin with a text, that is an error.
fn shows_text(rows: &[Row], text: &[u8]) -> Result<bool, Error>
    ensures { IfOk result (λ shown. IsTrue shown ↔ ShowsText rows.now text.now) }
{
    for row in rows {
        if read_text(row, 0)?.as_slice() == text {
            return Ok(true);
        }
    }
    Ok(false)
}

/// Whether this box is one of those that the key of this id is limited to.
pub fn has_limit<T: Ledger>(tx: &mut T, id: &str, in_box: &[u8]) -> Result<bool, Error>
    ensures found { FindsInSecond T.view tx.old tx.new result
        (λ tables has. IsTrue has ↔ HasLimit tables id.now in_box.now) }
    ensures still { StillSecond T.view tx.old tx.new result }
    ensures rest { GoesOnBegun T.view tx.old tx.new result }
{
    let rows = select_limits(tx, id)?;
    shows_text(&rows, in_box)
}

/// Whether the key of this id may use this box: either it is limited to no box, or this box is among those that it is limited to.
pub fn may_use<T: Ledger>(tx: &mut T, id: &str, in_box: &[u8]) -> Result<bool, Error>
    ensures found { FindsInSecond T.view tx.old tx.new result
        (λ tables may. IsTrue may ↔ ReachesBox tables id.now in_box.now) }
    ensures still { StillSecond T.view tx.old tx.new result }
    ensures rest { GoesOnBegun T.view tx.old tx.new result }
{
    let rows = select_limits(tx, id)?;
    if rows.is_empty() {
        return Ok(true);
    }
    shows_text(&rows, in_box)
}

/// The key of this id.
pub fn key<T: Ledger>(tx: &mut T, id: &str) -> Result<Option<KeyRow>, Error>
    ensures found { FindsIn T.view tx.old tx.new result
        (λ tables key. option_map key_of key ≡ tables.key id.now) }
    ensures still { Still T.view tx.old tx.new result }
    ensures rest { GoesOnBegun T.view tx.old tx.new result }
{
    let Some(row) = select_key(tx, id)? else {
        return Ok(None);
    };
    Ok(Some(read_key(&row)?))
}

/// The box of this name. Its settings must be those of a sound state.
pub fn box_row<T: Ledger>(tx: &mut T, name: &str) -> Result<Option<BoxRow>, Error>
    ensures found { (v : Version) (tables : Tables) → IsVersion v
        → Pends v (seen T.view tx.old) tables
        → ((b : Box) → tables.box name.now ≡ Some b → AreSettings b.settings)
        → IsTrue (seen T.view tx.old).in_transaction → HasCleanDisk (seen T.view tx.new)
        → IfOk result (λ row. option_map settings_of row ≡ option_map (λ b. b.settings)
        (tables.box name.now)) }
    ensures still { Still T.view tx.old tx.new result }
    ensures rest { GoesOnBegun T.view tx.old tx.new result }
{
    let Some(row) = select_box(tx, name)? else {
        return Ok(None);
    };
    Ok(Some(read_box(&row)?))
}

/// The totals of the box of this name; zero if the box does not exist.
pub fn totals<T: Ledger>(tx: &mut T, name: &str) -> Result<Totals, Error>
    ensures found { FindsIn T.view tx.old tx.new result
        (λ tables. AreTotalsOf (tables.box name.now)) }
    ensures still { Still T.view tx.old tx.new result }
    ensures rest { GoesOnBegun T.view tx.old tx.new result }
{
    let Some(row) = select_totals(tx, name)? else {
        return Ok(Totals { used: 0, count: 0 });
    };
    Ok(Totals {
        used: row.get(0)?,
        count: row.get(1)?,
    })
}

/// The number of the receipt of the file with this box and name.
pub(crate) fn file_number<T: Ledger>(
    tx: &mut T,
    in_box: &str,
    name: &str,
) -> Result<Option<u64>, Error>
    ensures found { FindsIn T.view tx.old tx.new result
        (λ tables number. number ≡ tables.file (placed in_box.now name.now)) }
    ensures still { Still T.view tx.old tx.new result }
    ensures rest { GoesOnBegun T.view tx.old tx.new result }
{
    let Some(row) = select_file(tx, in_box, name)? else {
        return Ok(None);
    };
    Ok(Some(row.get(0)?))
}

/// The receipt of this number. Its digest must have 32 bytes.
pub(crate) fn receipt<T: Ledger>(tx: &mut T, number: u64) -> Result<Option<ReceiptRow>, Error>
    ensures found { (v : Version) (tables : Tables) (at : ℕ) → IsVersion v
        → Pends v (seen T.view tx.old) tables → number ≡ at + 1
        → ((r : Receipt) → tables.receipt at ≡ Some r → IsDigest r.digest)
        → IsTrue (seen T.view tx.old).in_transaction → HasCleanDisk (seen T.view tx.new)
        → IfOk result (IsReceiptOf number (tables.receipt at)) }
    ensures still { Still T.view tx.old tx.new result }
    ensures rest { GoesOnBegun T.view tx.old tx.new result }
{
    let Some(row) = select_receipt(tx, number)? else {
        return Ok(None);
    };
    Ok(Some(read_receipt(&row, number)?))
}

/// The bytes of the file, which has this size, read from its pieces.
pub(crate) fn file_bytes<T: Ledger>(
    tx: &mut T,
    alloc: Global,
    in_box: &str,
    name: &str,
    size: u64,
) -> Result<Vec<u8>, Error>
    ensures found { (v : Version) (tables : Tables) (bytes : List ℕ) → IsVersion v
        → Pends v (seen T.view tx.old) tables → length bytes ≡ size
        → ((at : ℕ) → tables.piece (record { place = placed in_box.now name.now; at = at })
        ≡ piece_of bytes at)
        → IsTrue (seen T.view tx.old).in_transaction → HasCleanDisk (seen T.view tx.new)
        → IfOk result (λ found. found.items ≡ bytes) }
    ensures still { Still T.view tx.old tx.new result }
    ensures rest { GoesOnWhere (IsRunning (seen T.view tx.old))
        (IsTrue (seen T.view tx.old).in_transaction) T.view tx.old tx.new result }
{
    match read_file(tx, alloc, in_box, name, size)? {
        Some(bytes) => Ok(bytes),
        None => Err(Error::QueryReturnedNoRows),
    }
}

/// The rows of the unrevoked clerk keys. Each row is an id, and they have no order.
fn select_clerks<T: Ledger>(tx: &mut T) -> Result<Vec<Row>, Error>
    ensures found { FindsIn T.view tx.old tx.new result
        (λ tables rows. AreActing tables.key rows.items) }
    ensures still { Still T.view tx.old tx.new result }
    ensures rest { GoesOnBegun T.view tx.old tx.new result }
{
    tx.query("SELECT id FROM keys WHERE role = 1 AND revoked = 0", &[])
}

/// How many different texts the first columns of the rows hold. A row that does not begin with a text is an error.
fn count_texts(alloc: Global, rows: &[Row]) -> Result<u64, Error>
    ensures { IfOk result (λ count. count ≡ different_texts rows.now) }
{
    let mut texts = BTreeSet::new(alloc);
    for row in rows {
        texts.insert(read_text(row, 0)?)?;
    }
    Ok(texts.len() as u64)
}

/// The number of unrevoked clerk keys.
pub fn clerks<T: Ledger>(tx: &mut T, alloc: Global) -> Result<u64, Error>
    ensures found { (v : Version) (tables : Tables) (s : State) → IsVersion v
        → Pends v (seen T.view tx.old) tables → tables.key ≡ get s.keys
        → IsTrue (seen T.view tx.old).in_transaction → HasCleanDisk (seen T.view tx.new)
        → IfOk result (λ count. count ≡ clerks s) }
    ensures still { Still T.view tx.old tx.new result }
    ensures rest { GoesOnBegun T.view tx.old tx.new result }
{
    let rows = select_clerks(tx)?;
    count_texts(alloc, &rows)
}

/// The row of the last receipt, which holds only its number.
fn select_last<T: Ledger>(tx: &mut T) -> Result<Vec<Row>, Error>
    ensures found { (v : Version) (tables : Tables) (receipts : List Receipt) → IsVersion v
        → Pends v (seen T.view tx.old) tables → tables.receipt ≡ slice_get receipts
        → IsTrue (seen T.view tx.old).in_transaction → HasCleanDisk (seen T.view tx.new)
        → IfOk result (λ rows. rows.items ≡ last_rows (length receipts)) }
    ensures still { Still T.view tx.old tx.new result }
    ensures rest { GoesOnBegun T.view tx.old tx.new result }
{
    tx.query(
        "SELECT number FROM receipts ORDER BY number DESC LIMIT 1",
        &[],
    )
}

/// The number that the next receipt gets.
pub fn next_number<T: Ledger>(tx: &mut T) -> Result<u32, Error>
    ensures found { (v : Version) (tables : Tables) (receipts : List Receipt) → IsVersion v
        → Pends v (seen T.view tx.old) tables → tables.receipt ≡ slice_get receipts
        → IsTrue (seen T.view tx.old).in_transaction → HasCleanDisk (seen T.view tx.new)
        → IfOk result (λ number. number ≡ length receipts + 1) }
    ensures still { Still T.view tx.old tx.new result }
    ensures rest { GoesOnBegun T.view tx.old tx.new result }
{
    let rows = select_last(tx)?;
    let Some(row) = rows.first() else {
        return Ok(1);
    };
    let last: u32 = row.get(0)?;
    match last.checked_add(1) {
        Some(next) => Ok(next),
        None => Err(Error::SqliteFailure(ErrorCode::TooBig)),
    }
}

/// The receipts numbered `from` or higher, ascending, at most `most` of them. Their digests must have 32 bytes.
pub fn receipts<T: Ledger>(
    tx: &mut T,
    alloc: Global,
    from: u64,
    most: usize,
) -> Result<Vec<ReceiptRow>, Error>
    ensures found { (v : Version) (tables : Tables) (receipts : List Receipt) → IsVersion v
        → Pends v (seen T.view tx.old) tables → tables.receipt ≡ slice_get receipts
        → AllByRecursion (λ r. IsDigest r.digest) receipts
        → IsTrue (seen T.view tx.old).in_transaction → HasCleanDisk (seen T.view tx.new)
        → IfOk result (λ rows. map numbered_receipt rows.items ≡ take most
        (drop (from - 1) (numbered 1 receipts))) }
    ensures still { Still T.view tx.old tx.new result }
    ensures rest { GoesOnWhere (IsRunning (seen T.view tx.old))
        (IsTrue (seen T.view tx.old).in_transaction) T.view tx.old tx.new result }
{
    let mut rows = Vec::new(alloc);
    let mut number = from.max(1);
    while rows.len() < most {
        let Some(row) = receipt(tx, number)? else {
            return Ok(rows);
        };
        rows.push(row)?;
        match number.checked_add(1) {
            Some(next) => number = next,
            None => return Err(Error::SqliteFailure(ErrorCode::TooBig)),
        }
    }
    Ok(rows)
}
