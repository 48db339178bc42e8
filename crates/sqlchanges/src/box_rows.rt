//! The row of a box.

ghost use Rattle.std.specs.Prelude.{◌≡◌, pos, map, None, OnOk, IfOk};
ghost use Rattle.boxes.specs.State.{Settings};
ghost use Rattle.boxes.specs.Rows.{settings_of, name_rule_of};
ghost use Rattle.sqltables.specs.Schema.{Version, IsVersion};
ghost use Rattle.sqltables.specs.Tables.{Tables, mode_number, rule_number, rule_text, days_text, joined};
ghost use Rattle.sqltables.specs.Changes.{with_box};
ghost use Rattle.sqltables.specs.Inside.{seen, GoesOnInside};
ghost use Rattle.sqltables.specs.Means.{Pends};
ghost use Rattle.sqlchanges.specs.BoxRows.{AreValuesOf};

use crate::running::run;
use boxes::{BoxRow, Mode, NameRule};
use sqlite::{Error, ErrorCode, params};
use sqltables::calls::Ledger;
use sqltables::reading::digits_of_days;
use std::alloc::{AllocError, Global};

/// The column that holds a rule's text.
const RULE_TEXT: usize = 10;

/// The values of a box's row, without its name and totals.
#[derive(Clone, Copy)]
pub(crate) struct BoxValues<'a> {
    /// The first second at which the box may be open, since 1970-01-01T00:00:00Z.
    pub opens: i64,
    /// The first second at which the box is closed for good.
    pub closes: i64,
    /// Seven digits, Monday first: '1' if the box is open on the day, otherwise '0'.
    pub days: &'a str,
    /// The first minute of the office's day at which the box is open.
    pub from_minute: i32,
    /// The first later minute at which the box is closed.
    pub to_minute: i32,
    /// The maximum total size of its files, in bytes.
    pub quota: i64,
    /// The maximum number of its files.
    pub max_files: i64,
    /// 1 if new bytes may replace a file of the same name, otherwise 0.
    pub mode: i32,
    /// 0 if the box accepts all names, 1 if it checks their ending, 2 if it checks their beginning.
    pub kind: i32,
    /// The texts of its rule, joined by commas.
    pub text: &'a str,
}

/// Inserts a box that holds nothing.
pub(crate) fn insert_values<T: Ledger>(
    tx: &mut T,
    name: &str,
    values: &BoxValues<'_>,
) -> Result<(), Error>
    ensures done { (v : Version) (tables : Tables) (b : Settings) → IsVersion v
        → Pends v (seen T.view tx.old) tables → tables.box name.now ≡ None
        → AreValuesOf values.now b
        → OnOk result (Pends v (seen T.view tx.new)
        (with_box tables name.now (record { settings = b; used = 0; count = 0 }))) }
    ensures rest { GoesOnInside T.view tx.old tx.new result }
{
    run(
        tx,
        "INSERT INTO boxes VALUES (?1, ?2, ?3, ?4, ?5, ?6, ?7, ?8, ?9, ?10, ?11, 0, 0)",
        params![
            name,
            values.opens,
            values.closes,
            values.days,
            values.from_minute,
            values.to_minute,
            values.quota,
            values.max_files,
            values.mode,
            values.kind,
            values.text
        ],
    )
}

/// The number as an SQL integer. A number that does not fit in `i64` is refused with `TooBig`.
fn integer(number: u64) -> Result<i64, Error>
    ensures value { IfOk result (λ n. pos number ≡ n) }
{
    i64::try_from(number).map_err(|_| Error::SqliteFailure(ErrorCode::TooBig))
}

/// The number of a mode.
fn number_of_mode(mode: Mode) -> i32
    ensures value { mode_number mode ≡ result }
{
    match mode {
        Mode::Keep => 0,
        Mode::Replace => 1,
    }
}

/// The number of a kind of rule.
fn number_of_rule(rule: &NameRule) -> i32
    ensures value { rule_number (name_rule_of rule.now) ≡ result }
{
    match rule {
        NameRule::Any => 0,
        NameRule::Ends(_) => 1,
        NameRule::Begins(_) => 2,
    }
}

/// The texts joined by commas.
fn join(alloc: Global, texts: &[Vec<u8>]) -> Result<Vec<u8>, AllocError>
    ensures value { IfOk result (λ text. text.items ≡ joined (map (λ t. t.items) texts.now)) }
{
    let mut text = Vec::new(alloc);
    let Some((first, others)) = texts.split_first() else {
        return Ok(text);
    };
    text.extend_from_slice(first)?;
    'others: for other in others {
        text.push(b',')?;
        text.extend_from_slice(other)?;
    }
    Ok(text)
}

/// The values of a box whose texts are given.
fn values_of<'a>(row: &BoxRow, days: &'a str, text: &'a str) -> Result<BoxValues<'a>, Error>
    ensures values { days.now ≡ days_text row.now.days
        → text.now ≡ rule_text (name_rule_of row.now.rule)
        → IfOk result (λ values. AreValuesOf values (settings_of row.now)) }
{
    Ok(BoxValues {
        opens: integer(row.opens)?,
        closes: integer(row.closes)?,
        days,
        from_minute: i32::from(row.from_minute),
        to_minute: i32::from(row.to_minute),
        quota: integer(row.quota)?,
        max_files: integer(row.max_files)?,
        mode: number_of_mode(row.mode),
        kind: number_of_rule(&row.rule),
        text,
    })
}

/// Inserts a box that holds nothing. The text of its rule is given as bytes.
fn insert_with_text<T: Ledger>(
    tx: &mut T,
    name: &str,
    row: &BoxRow,
    text: &[u8],
) -> Result<(), Error>
    ensures done { (v : Version) (tables : Tables) → IsVersion v
        → Pends v (seen T.view tx.old) tables → tables.box name.now ≡ None
        → text.now ≡ rule_text (name_rule_of row.now.rule)
        → OnOk result (Pends v (seen T.view tx.new)
        (with_box tables name.now
        (record { settings = settings_of row.now; used = 0; count = 0 }))) }
    ensures rest { GoesOnInside T.view tx.old tx.new result }
{
    let digits = digits_of_days(row.days);
    let days = str::from_utf8(&digits).unwrap();
    let text = str::from_utf8(text).map_err(|_| Error::Utf8Error(RULE_TEXT))?;
    insert_values(tx, name, &values_of(row, days, text)?)
}

/// Inserts a box that holds nothing. No box of its name exists yet.
///
/// A number that does not fit in `i64` is refused with `TooBig`, a rule text that is not UTF-8 with `Utf8Error`, and a text
/// for which there is no memory with `OutOfMemory`. In these cases nothing is written.
pub fn insert_box<T: Ledger>(tx: &mut T, name: &str, row: &BoxRow) -> Result<(), Error>
    ensures done { (v : Version) (tables : Tables) → IsVersion v
        → Pends v (seen T.view tx.old) tables → tables.box name.now ≡ None
        → OnOk result (Pends v (seen T.view tx.new)
        (with_box tables name.now
        (record { settings = settings_of row.now; used = 0; count = 0 }))) }
    ensures rest { GoesOnInside T.view tx.old tx.new result }
{
    match &row.rule {
        NameRule::Any => insert_with_text(tx, name, row, b""),
        NameRule::Ends(texts) => {
            let text = join(*texts.allocator(), texts)?;
            insert_with_text(tx, name, row, &text)
        }
        NameRule::Begins(text) => insert_with_text(tx, name, row, text),
    }
}
