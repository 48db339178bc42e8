//! Converts the rows that queries show to what they mean.

ghost use Rattle.std.specs.Prelude.{◌≡◌, ◌==◌, List, Bool, map, pos, IfOk};
ghost use Rattle.std.specs.List.{slice_split};
ghost use Rattle.sqlite_value.specs.declared.value.Value.TheVariants.{Int, Text, Blob};
ghost use Rattle.sqlite_value.specs.Order.{column};
ghost use Rattle.boxes.specs.State.{Key, Receipt, NameRule as Rule};
ghost use Rattle.boxes.specs.Rows.{key_of, name_rule_of, settings_of, receipt_in};
ghost use Rattle.boxes.specs.Sound.{AreSettings, IsNameRule};
ghost use Rattle.sqltables.specs.Tables.{Box, role_number, mode_number, rule_number, rule_text, days_text, flag};
ghost use Rattle.sqltables.specs.Questions.{shown_key, shown_box, shown_receipt};

use boxes::{BoxRow, KeyRow, Mode, NameRule, ReceiptRow, Role};
use sqlite::{Error, Row};
use std::alloc::{AllocError, Global};
use std::str;

/// Reads a role from its number: 0 is a link, 1 a clerk. Any other number is an error.
fn read_role(row: &Row, at: usize) -> Result<Role, Error>
    ensures { IfOk result (λ role. column row.now at ≡ Int (role_number role)) }
{
    match row.get::<i64>(at)? {
        0 => Ok(Role::Link),
        1 => Ok(Role::Clerk),
        _ => Err(Error::IntegralValueOutOfRange(at)),
    }
}

/// Reads a flag from its number, 0 or 1. Any other number is an error.
fn read_flag(row: &Row, at: usize) -> Result<bool, Error>
    ensures { IfOk result (λ is. column row.now at ≡ Int (flag is)) }
{
    match row.get::<i64>(at)? {
        0 => Ok(false),
        1 => Ok(true),
        _ => Err(Error::IntegralValueOutOfRange(at)),
    }
}

/// Reads a mode from its number: 0 is keep, 1 is replace. Any other number is an error.
fn read_mode(row: &Row, at: usize) -> Result<Mode, Error>
    ensures { IfOk result (λ mode. column row.now at ≡ Int (mode_number mode)) }
{
    match row.get::<i64>(at)? {
        0 => Ok(Mode::Keep),
        1 => Ok(Mode::Replace),
        _ => Err(Error::IntegralValueOutOfRange(at)),
    }
}

/// The bytes of a text.
pub fn read_text(row: &Row, at: usize) -> Result<Vec<u8>, Error>
    ensures { IfOk result (λ text. column row.now at ≡ Text text.items) }
{
    Ok(row.get::<String>(at)?.into_bytes())
}

/// These bytes as a text. Bytes that are not UTF-8 are refused with `Utf8Error`.
pub fn text_of(bytes: &[u8]) -> Result<&str, Error>
    ensures { IfOk result (λ text. text.now ≡ bytes.now) }
{
    match str::from_utf8(bytes) {
        Ok(text) => Ok(text),
        Err(error) => Err(Error::Utf8Error(error.valid_up_to())),
    }
}

/// Reads a minute of the day. A number above 65535 is an error.
fn read_minute(row: &Row, at: usize) -> Result<u16, Error>
    ensures { IfOk result (λ minute. column row.now at ≡ Int (pos minute)) }
{
    let minute: u64 = row.get(at)?;
    match u16::try_from(minute) {
        Ok(minute) => Ok(minute),
        Err(_) => Err(Error::IntegralValueOutOfRange(at)),
    }
}

/// Reads a digest. A length other than 32 bytes is an error.
fn read_digest(row: &Row, at: usize) -> Result<[u8; 32], Error>
    ensures { IfOk result (λ digest. column row.now at ≡ Blob digest) }
{
    let bytes: Vec<u8> = row.get(at)?;
    match <[u8; 32]>::try_from(bytes.as_slice()) {
        Ok(digest) => Ok(digest),
        Err(_) => Err(Error::IntegralValueOutOfRange(at)),
    }
}

/// The days given by seven marks: `1` marks a day on which a box is open.
pub fn days_told(marks: &[u8; 7]) -> [bool; 7]
    ensures { (days : List Bool) → marks.now ≡ days_text days → result ≡ days }
{
    let [
        monday,
        tuesday,
        wednesday,
        thursday,
        friday,
        saturday,
        sunday,
    ] = *marks;
    [
        monday == b'1',
        tuesday == b'1',
        wednesday == b'1',
        thursday == b'1',
        friday == b'1',
        saturday == b'1',
        sunday == b'1',
    ]
}

/// Reads the days of a box. A text that is not seven bytes long is an error.
fn read_days(row: &Row, at: usize) -> Result<[bool; 7], Error>
    ensures { (days : List Bool) → column row.now at ≡ Text (days_text days)
        → IfOk result (λ found. found ≡ days) }
{
    let text = read_text(row, at)?;
    match <&[u8; 7]>::try_from(text.as_slice()) {
        Ok(marks) => Ok(days_told(marks)),
        Err(_) => Err(Error::IntegralValueOutOfRange(at)),
    }
}

/// Splits a text at its commas.
pub fn cut_texts(alloc: Global, text: &[u8]) -> Result<Vec<Vec<u8>>, AllocError>
    ensures { IfOk result (λ texts. map (λ t. t.items) texts.items
        ≡ slice_split (λ b. b == 44) text.now) }
{
    let mut texts = Vec::new(alloc);
    for piece in text.split(|byte| *byte == b',') {
        texts.push(Vec::from_slice(alloc, piece)?)?;
    }
    Ok(texts)
}

/// Reads a name rule from its number and text: 0 accepts every name, 1 lists the allowed endings, 2 gives the required beginning.
fn read_rule(row: &Row) -> Result<NameRule, Error>
    ensures { (rule : Rule) → IsNameRule rule → column row.now 8 ≡ Int (rule_number rule)
        → column row.now 9 ≡ Text (rule_text rule)
        → IfOk result (λ found. name_rule_of found ≡ rule) }
{
    let text = read_text(row, 9)?;
    match row.get::<i64>(8)? {
        0 => Ok(NameRule::Any),
        1 => Ok(NameRule::Ends(cut_texts(*text.allocator(), &text)?)),
        2 => Ok(NameRule::Begins(text)),
        _ => Err(Error::IntegralValueOutOfRange(8)),
    }
}

/// Reads a key: its role, its secret and whether it is revoked.
pub fn read_key(row: &Row) -> Result<KeyRow, Error>
    ensures { (k : Key) → row.now ≡ shown_key k → IfOk result (λ key. key_of key ≡ k) }
{
    Ok(KeyRow {
        role: read_role(row, 0)?,
        secret: row.get(1)?,
        revoked: read_flag(row, 2)?,
    })
}

/// Reads a box from all columns of its row except the name.
pub fn read_box(row: &Row) -> Result<BoxRow, Error>
    ensures { (b : Box) → row.now ≡ shown_box b → AreSettings b.settings
        → IfOk result (λ found. settings_of found ≡ b.settings) }
{
    Ok(BoxRow {
        opens: row.get(0)?,
        closes: row.get(1)?,
        days: read_days(row, 2)?,
        from_minute: read_minute(row, 3)?,
        to_minute: read_minute(row, 4)?,
        quota: row.get(5)?,
        max_files: row.get(6)?,
        mode: read_mode(row, 7)?,
        rule: read_rule(row)?,
    })
}

/// Reads a receipt from its number and the other columns of its row.
pub fn read_receipt(row: &Row, number: u64) -> Result<ReceiptRow, Error>
    ensures { (r : Receipt) → row.now ≡ shown_receipt r
        → IfOk result (λ found. (receipt_in found ≡ r) × (found.number ≡ number)) }
{
    Ok(ReceiptRow {
        number,
        in_box: read_text(row, 0)?,
        name: read_text(row, 1)?,
        size: row.get(2)?,
        digest: read_digest(row, 3)?,
        moment: row.get(4)?,
        key: read_text(row, 5)?,
    })
}

/// The days, Monday first: '1' for a day on which the box is open, otherwise '0'.
pub fn digits_of_days(days: [bool; 7]) -> [u8; 7]
    ensures value { result ≡ days_text days }
{
    days.map(|is_open| if is_open { b'1' } else { b'0' })
}
