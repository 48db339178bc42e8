//! The rows of each table, read as values.

ghost use Rattle.std.specs.Prelude.{◌≡◌, ◌<◌, ℕ, pos, get_or, IfOk, IsTrue, length, map};
ghost use Rattle.std.specs.List.{AllZip, AllAdjacentBelow};
ghost use Rattle.std.specs.Ordering.{int_cmp};
ghost use Rattle.std.specs.declared.cmp.Ordering.TheVariants.{Less};
ghost use Rattle.sqlite_value.specs.declared.value.Value.TheVariants.{Int, Text};
ghost use Rattle.sqlite_value.specs.Order.{Row as Values, column};
ghost use Rattle.sqlaudit.specs.Lines.{IsOfficeLine, IsKeyLine, IsBoxLine, IsReceiptLine, IsFileLine, ShowsPiece, IsRulesLine, IsLimitLine, AreNumbersOf};

use sqlite::types::ValueRef;
use sqlite::{Error, ErrorCode, Row};
use std::alloc::Global;

/// The row of the office.
#[derive(Drop)]
pub(crate) struct OfficeLine {
    pub(crate) id: i64,
    pub(crate) version: i64,
    /// The offset of the office's clock east of UTC, in minutes.
    pub(crate) east: i64,
}

/// A key.
#[derive(Drop)]
pub(crate) struct KeyLine {
    pub(crate) id: Vec<u8>,
    /// 1 for a clerk, 0 for someone known by a link.
    pub(crate) role: i64,
    pub(crate) secret: Vec<u8>,
    /// 1 if the key is revoked, otherwise 0.
    pub(crate) revoked: i64,
}

/// A box, with its totals.
#[derive(Drop)]
pub(crate) struct BoxLine {
    pub(crate) name: Vec<u8>,
    /// The first second at which the box may be open, since 1970-01-01T00:00:00Z.
    pub(crate) opens: i64,
    /// The first second at which the box is closed for good.
    pub(crate) closes: i64,
    /// Seven digits, Monday first: '1' if the box is open on the day, otherwise '0'.
    pub(crate) days: Vec<u8>,
    /// The first minute of the office's day at which the box is open.
    pub(crate) from_minute: i64,
    /// The first later minute at which the box is closed.
    pub(crate) to_minute: i64,
    /// The maximum total size of its files, in bytes.
    pub(crate) quota: i64,
    /// The maximum number of its files.
    pub(crate) max_files: i64,
    /// 1 if new bytes may replace a file of the same name, otherwise 0.
    pub(crate) mode: i64,
    /// 0 if the box accepts all names, 1 if it checks their ending, 2 if it checks their beginning.
    pub(crate) rule_kind: i64,
    /// The texts of its rule, joined by commas.
    pub(crate) rule_text: Vec<u8>,
    /// The total size of its files, in bytes.
    pub(crate) used: i64,
    /// The number of its files.
    pub(crate) count: i64,
}

/// A receipt.
#[derive(Drop)]
pub(crate) struct ReceiptLine {
    pub(crate) number: i64,
    pub(crate) in_box: Vec<u8>,
    pub(crate) name: Vec<u8>,
    /// The size of the file, in bytes.
    pub(crate) length: i64,
    pub(crate) digest: Vec<u8>,
    /// Seconds since 1970-01-01T00:00:00Z.
    pub(crate) moment: i64,
    /// The id of the key.
    pub(crate) key: Vec<u8>,
}

/// A file, without its pieces.
#[derive(Drop)]
pub(crate) struct FileLine {
    pub(crate) in_box: Vec<u8>,
    pub(crate) name: Vec<u8>,
    /// The number of its receipt.
    pub(crate) receipt: i64,
}

/// A piece of a file, without its bytes.
#[derive(Drop)]
pub(crate) struct PieceLine {
    pub(crate) in_box: Vec<u8>,
    pub(crate) name: Vec<u8>,
    /// Its position among the pieces of the file, from 0.
    pub(crate) part: i64,
    /// Its length in bytes.
    pub(crate) length: i64,
}

/// The row of the settings that apply to the whole office.
#[derive(Drop)]
pub(crate) struct RulesLine {
    pub(crate) id: i64,
    /// How many seconds early a link may begin.
    pub(crate) allowance: i64,
}

/// A box that a limited key may use.
#[derive(Drop)]
pub(crate) struct LimitLine {
    /// The id of the key.
    pub(crate) key: Vec<u8>,
    pub(crate) in_box: Vec<u8>,
}

/// A value read from a row that a query shows. The first column is the rowid, and the others are the table's columns.
pub(crate) trait Line: Sized {
    ghost reads: { Values → Self → Type 0 };

    /// Fails for a value of another type and for lack of memory. Texts are taken unchecked.
    fn of_row(alloc: Global, row: &Row) -> Result<Self, Error>
        ensures { IfOk result (reads row.now) };
}

/// The bytes of a text, which need not be UTF-8.
fn text(alloc: Global, row: &Row, at: usize) -> Result<Vec<u8>, Error>
    ensures { IfOk result (λ bytes. column row.now at ≡ Text bytes.items) }
{
    let ValueRef::Text(text) = row.get_ref(at)? else {
        return Err(Error::SqliteFailure(ErrorCode::TypeMismatch));
    };
    let mut bytes = Vec::new(alloc);
    bytes.extend_from_slice(text)?;
    Ok(bytes)
}

/// The integers in these columns.
fn integers<const N: usize>(row: &Row, columns: [usize; N]) -> Result<[i64; N], Error>
    ensures { IfOk result (λ numbers. (k : ℕ) → k < N
        → column row.now (get_or columns.entry k 0) ≡ Int (get_or numbers k (pos 0))) }
{
    let mut numbers = [0; N];
    for at in 0..N {
        numbers[at] = row.get(columns[at])?;
    }
    Ok(numbers)
}

impl Line for OfficeLine {
    ghost reads = { IsOfficeLine };

    fn of_row(_alloc: Global, row: &Row) -> Result<OfficeLine, Error> {
        let [id, version, east] = integers(row, [0, 2, 3])?;
        Ok(OfficeLine { id, version, east })
    }
}

impl Line for KeyLine {
    ghost reads = { IsKeyLine };

    fn of_row(alloc: Global, row: &Row) -> Result<KeyLine, Error> {
        let [role, revoked] = integers(row, [2, 4])?;
        Ok(KeyLine {
            id: text(alloc, row, 1)?,
            role,
            secret: row.get(3)?,
            revoked,
        })
    }
}

impl Line for BoxLine {
    ghost reads = { IsBoxLine };

    fn of_row(alloc: Global, row: &Row) -> Result<BoxLine, Error> {
        let [
            opens,
            closes,
            from_minute,
            to_minute,
            quota,
            max_files,
            mode,
            rule_kind,
            used,
            count,
        ] = integers(row, [2, 3, 5, 6, 7, 8, 9, 10, 12, 13])?;
        Ok(BoxLine {
            name: text(alloc, row, 1)?,
            opens,
            closes,
            days: text(alloc, row, 4)?,
            from_minute,
            to_minute,
            quota,
            max_files,
            mode,
            rule_kind,
            rule_text: text(alloc, row, 11)?,
            used,
            count,
        })
    }
}

impl Line for ReceiptLine {
    ghost reads = { IsReceiptLine };

    fn of_row(alloc: Global, row: &Row) -> Result<ReceiptLine, Error> {
        let [number, length, moment] = integers(row, [0, 4, 6])?;
        Ok(ReceiptLine {
            number,
            in_box: text(alloc, row, 2)?,
            name: text(alloc, row, 3)?,
            length,
            digest: row.get(5)?,
            moment,
            key: text(alloc, row, 7)?,
        })
    }
}

impl Line for FileLine {
    ghost reads = { IsFileLine };

    fn of_row(alloc: Global, row: &Row) -> Result<FileLine, Error> {
        Ok(FileLine {
            in_box: text(alloc, row, 1)?,
            name: text(alloc, row, 2)?,
            receipt: row.get(3)?,
        })
    }
}

impl Line for PieceLine {
    ghost reads = { ShowsPiece };

    fn of_row(alloc: Global, row: &Row) -> Result<PieceLine, Error> {
        let [part, length] = integers(row, [3, 4])?;
        Ok(PieceLine {
            in_box: text(alloc, row, 1)?,
            name: text(alloc, row, 2)?,
            part,
            length,
        })
    }
}

impl Line for RulesLine {
    ghost reads = { IsRulesLine };

    fn of_row(_alloc: Global, row: &Row) -> Result<RulesLine, Error> {
        let [id, allowance] = integers(row, [0, 2])?;
        Ok(RulesLine { id, allowance })
    }
}

impl Line for LimitLine {
    ghost reads = { IsLimitLine };

    fn of_row(alloc: Global, row: &Row) -> Result<LimitLine, Error> {
        Ok(LimitLine {
            key: text(alloc, row, 1)?,
            in_box: text(alloc, row, 2)?,
        })
    }
}

/// Reads each row as a line, in order.
pub(crate) fn lines_of<L: Line + Drop>(alloc: Global, rows: &[Row]) -> Result<Vec<L>, Error>
    ensures { IfOk result (λ lines. AllZip L.reads rows.now lines.items) }
{
    let mut lines = Vec::new(alloc);
    for row in rows {
        let line = L::of_row(alloc, row)?;
        lines.push(line)?;
    }
    Ok(lines)
}

/// The numbers in the first column.
fn first_numbers(alloc: Global, rows: &[Row]) -> Result<Vec<i64>, Error>
    ensures { IfOk result (λ numbers. map (λ r. column r 0) rows.now ≡ map Int numbers.items) }
{
    let mut numbers = Vec::new(alloc);
    for row in rows {
        let number: i64 = row.get(0)?;
        numbers.push(number)?;
    }
    Ok(numbers)
}

/// Whether each number is greater than the one before it.
fn rise(numbers: &[i64]) -> bool
    ensures { IsTrue result → AllAdjacentBelow (λ a b. int_cmp a b ≡ Less) numbers.now
        (length numbers.now) }
{
    numbers.is_sorted_by(|a, b| a.cmp(b).is_lt())
}

/// The numbers in the first column, ascending. Two rows with the same number are the error `DatabaseCorrupt`.
pub(crate) fn numbers_of(alloc: Global, rows: &[Row]) -> Result<Vec<i64>, Error>
    ensures { IfOk result (λ numbers. AreNumbersOf rows.now numbers.items) }
{
    let mut numbers = first_numbers(alloc, rows)?;
    numbers.sort_unstable();
    if !rise(&numbers) {
        return Err(Error::SqliteFailure(ErrorCode::DatabaseCorrupt));
    }
    Ok(numbers)
}
