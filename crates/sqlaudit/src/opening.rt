//! Tests what an office file contains when it is opened.

ghost use Rattle.std.specs.Prelude.{◌↔◌, ◌≡◌, ◌≢◌, false, ℤ, Contains, MatchBool, MatchOption, None, Some, IsTrue, IfOk, OnOk};
ghost use Rattle.sqlite_schema.specs.declared.schema.Table.{Table};
ghost use Rattle.sqlite.specs.State.{HasCleanDisk};
ghost use Rattle.sqlite.specs.Held.{state};
ghost use Rattle.boxes.specs.State.{State as Office};
ghost use Rattle.sqlaudit.specs.declared.lines.OfficeLine.{OfficeLine};
ghost use Rattle.sqltables.specs.Schema.{v2};
ghost use Rattle.sqltables.specs.Inside.{seen, GoesOnWhere, GoesOnBegun};
ghost use Rattle.sqltables.specs.Means.{IsRunning};
ghost use Rattle.sqlaudit.specs.Formats.{version_of};
ghost use Rattle.sqlaudit.specs.Listing.{OfVersion};
ghost use Rattle.sqlaudit.specs.Opened.{HasOurs, IsOurs, AreTables, IsExtent, IsTableAt, BeginNamed, AreNamed, AreFirstNamed, AreNamedAs, IsAtRest, IsSettled, IsBegunAs, LeavesUntouched, IsFound, IsEither, HasNamesOf, AreOffice, AreOfVersion};

use crate::formats::Format;
use crate::lines::OfficeLine;
use crate::listing::{Listed, list_all, list_office};
use crate::piece_rules::{are_pieces, have_totals};
use crate::receipt_rules::{are_rising, fit_version};
use crate::rules::{Lines, are_sound};
use crate::walking::test_files;
use sqlite::{Alter, Connection, Error, ErrorCode};
use sqlite_schema::schema::{Schema, Table};
use sqltables::calls::Ledger;
use std::alloc::Global;

/// The result of testing an office file for one version.
#[derive(Clone, Copy, PartialEq, Eq)]
pub enum Finding {
    /// The tables of an office that obeys every rule.
    Sound,
    /// An office of another version.
    OtherVersion,
    /// Not an office, or an office that breaks a rule.
    Damaged,
}

/// The version that an office file is found to have.
#[derive(Clone, Copy, PartialEq, Eq)]
pub enum Found {
    /// The tables of an office of version 1 that obeys every rule.
    First,
    /// The tables of an office of version 2 that obeys every rule.
    Second,
    /// An office of a version that is neither 1 nor 2.
    OtherVersion,
    /// Not an office, or an office that breaks a rule.
    Damaged,
}

/// How many of an office's tables exist.
#[derive(Clone, Copy, PartialEq, Eq)]
pub(crate) enum Extent {
    /// The first table does not exist.
    Nothing,
    /// The first table exists, but the tables are not exactly those of the version.
    Begun,
    /// All tables exist, and no others.
    Whole,
}

/// Whether the table at this position has this name and this number of columns.
fn is_table(tables: &[Table], at: usize, name: &str, columns: usize) -> bool
    ensures { IsTrue result ↔ IsTableAt tables.now at name.now columns }
{
    let Some(table) = tables.get(at) else {
        return false;
    };
    table.name.as_slice() == name.as_bytes() && table.columns.len() == columns
}

/// Whether the first six tables are those of version 1, by their names and the number of their columns.
fn begin_named(schema: &Schema) -> bool
    ensures { IsTrue result ↔ BeginNamed schema.now }
{
    let tables = schema.tables.as_slice();
    is_table(tables, 0, "office", 3)
        && is_table(tables, 1, "keys", 4)
        && is_table(tables, 2, "boxes", 13)
        && is_table(tables, 3, "receipts", 7)
        && is_table(tables, 4, "files", 3)
        && is_table(tables, 5, "pieces", 4)
}

/// Whether these are the tables of version 1, with the indexes of their keys and no others.
fn are_first_named(schema: &Schema) -> bool
    ensures { IsTrue result ↔ AreFirstNamed schema.now }
{
    schema.tables.len() == 6
        && begin_named(schema)
        && schema.indexes.len() == 5
        && schema.views.is_empty()
}

/// Whether these are the tables of version 2, with the indexes of their keys and no others.
fn are_second_named(schema: &Schema) -> bool
    ensures { IsTrue result ↔ AreNamed schema.now }
{
    let tables = schema.tables.as_slice();
    tables.len() == 9
        && begin_named(schema)
        && is_table(tables, 6, "rules", 2)
        && is_table(tables, 7, "key_box", 2)
        && is_table(tables, 8, "staged", 2)
        && schema.indexes.len() == 6
        && schema.views.is_empty()
}

/// Whether these are the tables of this version, by their names, and no others.
fn are_named(schema: &Schema, format: Format) -> bool
    ensures { IsTrue result ↔ AreNamedAs format schema.now }
{
    match format {
        Format::First => are_first_named(schema),
        Format::Second => are_second_named(schema),
    }
}

/// How many of the tables of this version exist in a database.
fn extent_of(schema: &Schema, format: Format) -> Extent
    ensures is { IsOurs schema.now → IsExtent (version_of format) result schema.now }
    ensures named { result ≡ Extent.Whole → AreNamedAs format schema.now }
{
    if !is_table(schema.tables.as_slice(), 0, "office", 3) {
        Extent::Nothing
    } else if are_named(schema, format) {
        Extent::Whole
    } else {
        Extent::Begun
    }
}

/// Whether the line has the same version as the other.
fn is_of_version(line: &OfficeLine, first: &OfficeLine) -> bool
    ensures { IsTrue result ↔ line.now.version ≡ first.now.version }
{
    line.version == first.version
}

/// Whether each line has the same version as this one.
fn are_of_version(lines: &[OfficeLine], first: &OfficeLine) -> bool
    ensures { IsTrue result ↔ ((line : OfficeLine) → Contains lines.now line
        → line.version ≡ first.now.version) }
{
    for line in lines {
        if !is_of_version(line, first) {
            return false;
        }
    }
    true
}

/// The first row of the office, if every row has the same version.
fn versioned(lines: &[OfficeLine]) -> Option<&OfficeLine>
    ensures { MatchOption result ((version : ℤ) → AreOfVersion lines.now version → ⊥)
        (λ line. AreOfVersion lines.now line.now.version) }
{
    let first = lines.first()?;
    if are_of_version(lines, first) {
        Some(first)
    } else {
        None
    }
}

/// Whether the lines are those of an office of this version whose files have their bytes. Receipts that are not in the order
/// of their numbers are the error `DatabaseCorrupt`.
fn is_sound<T: Ledger>(
    tx: &mut T,
    alloc: Global,
    office: &[OfficeLine],
    listed: &Listed,
    format: Format,
) -> Result<bool, Error>
    ensures found { OfVersion (version_of format) T.view tx.old tx.new office.now
        (AreTables (version_of format) (seen T.view tx.old).now listed.now → IfOk result
        (λ sound. MatchBool sound
        ((office : Office) × AreOffice (version_of format) (seen T.view tx.old).now office)
        ((office : Office) → AreOffice (version_of format) (seen T.view tx.old).now office
        → ⊥))) }
    ensures rest { GoesOnWhere (IsRunning (seen T.view tx.old))
        (IsRunning (seen T.view tx.old)) T.view tx.old tx.new result }
{
    let lines = Lines {
        office,
        keys: &listed.keys,
        boxes: &listed.boxes,
        receipts: &listed.receipts,
        rules: &listed.added.rules,
        limits: &listed.added.limits,
    };
    if !are_rising(lines.receipts) {
        return Err(Error::SqliteFailure(ErrorCode::DatabaseCorrupt));
    }
    if !fit_version(lines.receipts, format) {
        return Ok(false);
    }
    let Ok(sound) = are_sound(alloc, &lines) else {
        return Err(Error::SqliteFailure(ErrorCode::OutOfMemory));
    };
    if !sound {
        return Ok(false);
    }
    let Some(filed) = test_files(tx, alloc, &listed.files, &listed.receipts)? else {
        return Ok(false);
    };
    if !have_totals(&listed.boxes, &filed.sums) {
        return Ok(false);
    }
    Ok(are_pieces(&listed.pieces, &filed.files, &listed.receipts))
}

// The finding for a file of the version looked for.
fn finding_of(sound: bool) -> Finding
    ensures { MatchBool sound (result ≡ Finding.Sound) (result ≡ Finding.Damaged) }
{
    if sound {
        Finding::Sound
    } else {
        Finding::Damaged
    }
}

/// Tests the whole tables of an office of this version.
fn look_at_all<T: Ledger>(
    tx: &mut T,
    alloc: Global,
    office: &[OfficeLine],
    format: Format,
) -> Result<Finding, Error>
    ensures found { OfVersion (version_of format) T.view tx.old tx.new office.now (IfOk result
        (λ finding. IsFound (version_of format) finding (seen T.view tx.old).now)) }
    ensures rest { GoesOnWhere (IsRunning (seen T.view tx.old))
        (IsRunning (seen T.view tx.old)) T.view tx.old tx.new result }
{
    let listed = list_all(tx, alloc, format)?;
    let sound = is_sound(tx, alloc, office, &listed, format)?;
    Ok(finding_of(sound))
}

/// Tests the tables of an office, starting with its version.
fn look<T: Ledger>(
    tx: &mut T,
    alloc: Global,
    extent: Extent,
    format: Format,
) -> Result<Finding, Error>
    ensures found { IsBegunAs (version_of format) extent (seen T.view tx.old)
        → IsTrue (seen T.view tx.old).in_transaction → HasCleanDisk (seen T.view tx.new)
        → IfOk result
        (λ finding. IsFound (version_of format) finding (seen T.view tx.old).now) }
    ensures whole { IfOk result (λ finding. finding ≡ Finding.Sound → extent ≡ Extent.Whole) }
    ensures rest { GoesOnBegun T.view tx.old tx.new result }
{
    let office = list_office(tx)?;
    let Some(line) = versioned(&office) else {
        return Ok(Finding::Damaged);
    };
    if line.version != format.number() {
        return Ok(Finding::OtherVersion);
    }
    if extent != Extent::Whole {
        return Ok(Finding::Damaged);
    }
    look_at_all(tx, alloc, &office, format)
}

/// Tests the tables in a transaction that is rolled back.
fn examine<S: Alter>(
    conn: &mut Connection<S>,
    alloc: Global,
    extent: Extent,
    format: Format,
) -> Result<Finding, Error>
    requires { conn.old.in_transaction ≡ false }
    ensures found { IsBegunAs (version_of format) extent (state S.Store conn.old)
        → HasCleanDisk (state S.Store conn.new)
        → IfOk result
        (λ finding. IsFound (version_of format) finding (state S.Store conn.old).now) }
    ensures whole { IfOk result (λ finding. finding ≡ Finding.Sound → extent ≡ Extent.Whole) }
    ensures rest { IsSettled (state S.Store conn.old)
        → LeavesUntouched (state S.Store conn.old) (state S.Store conn.new) }
{
    let mut tx = conn.transaction();
    look(&mut tx, alloc, extent, format)
}

/// Tests the whole file as one of this version.
fn find_as<S: Alter>(
    conn: &mut Connection<S>,
    alloc: Global,
    format: Format,
) -> Result<Finding, Error>
    ensures found { HasOurs (state S.Store conn.old) → HasCleanDisk (state S.Store conn.new)
        → IsTrue (state S.Store conn.old).is_open → IfOk result
        (λ finding. IsFound (version_of format) finding (state S.Store conn.old).now) }
    ensures named { IfOk result (λ finding. finding ≡ Finding.Sound
        → AreNamedAs format (state S.Store conn.old).now.schema) }
    ensures opened { HasCleanDisk (state S.Store conn.new)
        → IfOk result (λ finding. finding ≢ Finding.Damaged → IsTrue (state S.Store conn.new).is_open) }
    ensures at_rest { HasCleanDisk (state S.Store conn.new)
        → OnOk result (IsAtRest (state S.Store conn.new)) }
    ensures rest { LeavesUntouched (state S.Store conn.old) (state S.Store conn.new) }
{
    if !conn.is_autocommit() {
        return Err(Error::SqliteFailure(ErrorCode::TransactionState));
    }
    let extent = extent_of(conn.schema(), format);
    if extent == Extent::Nothing {
        return Ok(Finding::Damaged);
    }
    let finding = examine(conn, alloc, extent, format)?;
    if finding != Finding::Damaged {
        // A store that has shut itself down compiles no statement.
        conn.prepare("SELECT version FROM office")?;
    }
    Ok(finding)
}

/// Tests the whole file as one of version 2. Nothing is written, and any file is left unchanged. An office's file
/// is still open afterwards, and has exactly the tables of an office of version 2, by their names.
pub fn find<S: Alter>(conn: &mut Connection<S>, alloc: Global) -> Result<Finding, Error>
    ensures found { HasOurs (state S.Store conn.old) → HasCleanDisk (state S.Store conn.new)
        → IsTrue (state S.Store conn.old).is_open
        → IfOk result (λ finding. IsFound v2 finding (state S.Store conn.old).now) }
    ensures named { IfOk result (λ finding. finding ≡ Finding.Sound
        → AreNamed (state S.Store conn.old).now.schema) }
    ensures opened { HasCleanDisk (state S.Store conn.new)
        → IfOk result (λ finding. finding ≢ Finding.Damaged → IsTrue (state S.Store conn.new).is_open) }
    ensures at_rest { HasCleanDisk (state S.Store conn.new)
        → OnOk result (IsAtRest (state S.Store conn.new)) }
    ensures rest { LeavesUntouched (state S.Store conn.old) (state S.Store conn.new) }
{
    find_as(conn, alloc, Format::Second)
}

/// Tests the whole file as one of version 2 and, if its office says another version, as one of version 1. Nothing is
/// written, and any file is left unchanged. An office's file is still open afterwards.
pub fn find_either<S: Alter>(conn: &mut Connection<S>, alloc: Global) -> Result<Found, Error>
    ensures found { HasOurs (state S.Store conn.old) → HasCleanDisk (state S.Store conn.new)
        → IsTrue (state S.Store conn.old).is_open
        → IfOk result (λ found. IsEither found (state S.Store conn.old).now) }
    ensures named { HasCleanDisk (state S.Store conn.new)
        → IfOk result (λ found. HasNamesOf found (state S.Store conn.old).now.schema) }
    ensures opened { HasCleanDisk (state S.Store conn.new)
        → IfOk result (λ found. found ≢ Found.Damaged → IsTrue (state S.Store conn.new).is_open) }
    ensures at_rest { HasCleanDisk (state S.Store conn.new)
        → OnOk result (IsAtRest (state S.Store conn.new)) }
    ensures rest { LeavesUntouched (state S.Store conn.old) (state S.Store conn.new) }
{
    match find(conn, alloc)? {
        Finding::Sound => Ok(Found::Second),
        Finding::Damaged => Ok(Found::Damaged),
        Finding::OtherVersion => match find_as(conn, alloc, Format::First)? {
            Finding::Sound => Ok(Found::First),
            Finding::Damaged => Ok(Found::Damaged),
            Finding::OtherVersion => Ok(Found::OtherVersion),
        },
    }
}
