//! The tables of a new office, and those that version 2 adds, inside a transaction.

ghost use Rattle.std.specs.Prelude.{ℕ, List, [], ◌∷◌, OnOk, false};
ghost use Rattle.boxes.specs.declared.rows.Role.TheVariants.{Clerk};
ghost use Rattle.sqlite_schema.specs.declared.schema.Schema.{Schema};
ghost use Rattle.sqltables.specs.Schema.{v1, v2, s0, s6, s9};
ghost use Rattle.sqltables.specs.Changes.{no_rows, with_allowance, with_key};
ghost use Rattle.sqltables.specs.Inside.{seen, GoesOnInside};
ghost use Rattle.sqltables.specs.Means.{SeesNothing, Pends, Creates, SeesMore, SeesRules, SeesUnstaged, AddsTable};
ghost use Rattle.sqltables.specs.Tables.{Tables};

use crate::running::run;
use crate::statements::insert_key;
use boxes::Role;
use sigv4::Allowance;
use sqlite::{Error, params};
use sqltables::calls::Ledger;

/// Creates a table without rows, besides the existing tables, by running this text.
fn create_table<T: Ledger>(tx: &mut T, sql: &str) -> Result<(), Error>
    ensures done { (before after : Schema)
        → Creates sql.now before after (seen T.view tx.old) (seen T.view tx.new)
        → SeesNothing before (seen T.view tx.old)
        → OnOk result (SeesNothing after (seen T.view tx.new)) }
    ensures added { (before after : Schema) (empty more : List ℕ) (tables : Tables)
        → AddsTable sql.now before after empty more tables (seen T.view tx.old) (seen T.view tx.new)
        → SeesMore before empty (seen T.view tx.old) tables
        → OnOk result (SeesMore after more (seen T.view tx.new) tables) }
    ensures rest { GoesOnInside T.view tx.old tx.new result }
{
    run(tx, sql, &[])
}

/// Creates the six tables of version 1: the office's own, its keys, its boxes, its receipts, its files without their bytes,
/// and those bytes.
fn create_tables<T: Ledger>(tx: &mut T) -> Result<(), Error>
    ensures done { SeesNothing s0 (seen T.view tx.old)
        → OnOk result (SeesNothing s6 (seen T.view tx.new)) }
    ensures rest { GoesOnInside T.view tx.old tx.new result }
{
    create_table(
        tx,
        "CREATE TABLE office (id INTEGER PRIMARY KEY NOT NULL CHECK (id = 1), version INTEGER NOT NULL, east INTEGER NOT NULL CHECK (east BETWEEN -840 AND 840)) STRICT",
    )?;
    create_table(
        tx,
        "CREATE TABLE keys (id TEXT PRIMARY KEY NOT NULL, role INTEGER NOT NULL CHECK (role BETWEEN 0 AND 1), secret BLOB NOT NULL, revoked INTEGER NOT NULL CHECK (revoked BETWEEN 0 AND 1)) STRICT",
    )?;
    create_table(
        tx,
        "CREATE TABLE boxes (name TEXT PRIMARY KEY NOT NULL, opens INTEGER NOT NULL CHECK (opens BETWEEN 0 AND 253402300799), closes INTEGER NOT NULL CHECK (closes BETWEEN 0 AND 253402300799), days TEXT NOT NULL, from_minute INTEGER NOT NULL, to_minute INTEGER NOT NULL, quota INTEGER NOT NULL CHECK (quota BETWEEN 0 AND 1000000000000), max_files INTEGER NOT NULL CHECK (max_files BETWEEN 0 AND 1000000), mode INTEGER NOT NULL CHECK (mode BETWEEN 0 AND 1), rule_kind INTEGER NOT NULL CHECK (rule_kind BETWEEN 0 AND 2), rule_text TEXT NOT NULL, used INTEGER NOT NULL, count INTEGER NOT NULL, CHECK (0 <= from_minute AND from_minute < to_minute AND to_minute <= 1440)) STRICT",
    )?;
    create_table(
        tx,
        "CREATE TABLE receipts (number INTEGER PRIMARY KEY NOT NULL, box TEXT NOT NULL REFERENCES boxes (name) ON DELETE RESTRICT ON UPDATE RESTRICT, name TEXT NOT NULL, length INTEGER NOT NULL, digest BLOB NOT NULL, moment INTEGER NOT NULL CHECK (moment BETWEEN 0 AND 253402300799), key_id TEXT NOT NULL REFERENCES keys (id) ON DELETE RESTRICT ON UPDATE RESTRICT) STRICT",
    )?;
    create_table(
        tx,
        "CREATE TABLE files (box TEXT NOT NULL REFERENCES boxes (name) ON DELETE RESTRICT ON UPDATE RESTRICT, name TEXT NOT NULL, receipt INTEGER NOT NULL UNIQUE REFERENCES receipts (number) ON DELETE RESTRICT ON UPDATE RESTRICT, PRIMARY KEY (box, name)) STRICT",
    )?;
    create_table(
        tx,
        "CREATE TABLE pieces (box TEXT NOT NULL, name TEXT NOT NULL, part INTEGER NOT NULL, bytes BLOB NOT NULL, PRIMARY KEY (box, name, part), FOREIGN KEY (box, name) REFERENCES files (box, name) ON DELETE RESTRICT ON UPDATE RESTRICT) STRICT",
    )
}

/// Inserts the row of the office: version 1, and the offset of its clock east of UTC, in minutes.
fn insert_office<T: Ledger>(tx: &mut T, east: i16) -> Result<(), Error>
    ensures done { SeesNothing s6 (seen T.view tx.old)
        → OnOk result (Pends v1 (seen T.view tx.new) (no_rows east 0)) }
    ensures rest { GoesOnInside T.view tx.old tx.new result }
{
    run(
        tx,
        "INSERT INTO office VALUES (1, 1, ?1)",
        params![i32::from(east)],
    )
}

/// Creates the three tables that version 2 adds: the office's rules, the boxes of limited keys, and what is staged.
fn add_tables<T: Ledger>(tx: &mut T) -> Result<(), Error>
    ensures done { (tables : Tables) → Pends v1 (seen T.view tx.old) tables
        → OnOk result (SeesMore s9 (14 ∷ 12 ∷ 11 ∷ []) (seen T.view tx.new) tables) }
    ensures rest { GoesOnInside T.view tx.old tx.new result }
{
    create_table(
        tx,
        "CREATE TABLE rules (id INTEGER PRIMARY KEY NOT NULL CHECK (id = 1), allowance INTEGER NOT NULL CHECK (allowance BETWEEN 0 AND 900)) STRICT",
    )?;
    create_table(
        tx,
        "CREATE TABLE key_box (key_id TEXT NOT NULL REFERENCES keys (id) ON DELETE RESTRICT ON UPDATE RESTRICT, box TEXT NOT NULL REFERENCES boxes (name) ON DELETE RESTRICT ON UPDATE RESTRICT, PRIMARY KEY (key_id, box)) STRICT",
    )?;
    create_table(
        tx,
        "CREATE TABLE staged (part INTEGER PRIMARY KEY NOT NULL, bytes BLOB NOT NULL) STRICT",
    )
}

/// Inserts the row of the rules: how many seconds early a link may begin.
fn insert_rules<T: Ledger>(tx: &mut T, seconds: u32) -> Result<(), Error>
    ensures done { (tables : Tables) → SeesMore s9 (14 ∷ 12 ∷ 11 ∷ []) (seen T.view tx.old) tables
        → OnOk result (SeesRules (seen T.view tx.new) tables seconds) }
    ensures rest { GoesOnInside T.view tx.old tx.new result }
{
    run(tx, "INSERT INTO rules VALUES (1, ?1)", params![seconds])
}

/// Sets the version in the office's row to 2.
fn update_version<T: Ledger>(tx: &mut T) -> Result<(), Error>
    ensures done { (tables : Tables) (seconds : ℕ) → SeesRules (seen T.view tx.old) tables seconds
        → OnOk result (Pends v2 (seen T.view tx.new) (with_allowance tables seconds)) }
    ensures unstaged { (tables : Tables) (seconds : ℕ) → SeesRules (seen T.view tx.old) tables seconds
        → OnOk result (SeesUnstaged (seen T.view tx.new)) }
    ensures rest { GoesOnInside T.view tx.old tx.new result }
{
    run(tx, "UPDATE office SET version = 2", &[])
}

/// Upgrades the tables of an office from version 1 to version 2. All rows stay, no key is limited, and nothing is staged.
pub fn upgrade<T: Ledger>(tx: &mut T, allowance: Allowance) -> Result<(), Error>
    ensures done { (tables : Tables) → Pends v1 (seen T.view tx.old) tables
        → OnOk result (Pends v2 (seen T.view tx.new) (with_allowance tables allowance)) }
    ensures unstaged { (tables : Tables) → Pends v1 (seen T.view tx.old) tables
        → OnOk result (SeesUnstaged (seen T.view tx.new)) }
    ensures rest { GoesOnInside T.view tx.old tx.new result }
{
    add_tables(tx)?;
    insert_rules(tx, allowance.seconds() as u32)?;
    update_version(tx)
}

/// Creates the tables of an office of version 2 that has one key, a clerk's, and nothing else. Nothing is staged. An office of
/// version 1 is created first.
pub fn make_office<T: Ledger>(
    tx: &mut T,
    east: i16,
    allowance: Allowance,
    id: &str,
    secret: &[u8],
) -> Result<(), Error>
    ensures done { SeesNothing s0 (seen T.view tx.old)
        → OnOk result (Pends v2 (seen T.view tx.new)
        (with_key (no_rows east allowance) id.now
        (record { role = Clerk; secret = secret.now; revoked = false }))) }
    ensures unstaged { SeesNothing s0 (seen T.view tx.old)
        → OnOk result (SeesUnstaged (seen T.view tx.new)) }
    ensures rest { GoesOnInside T.view tx.old tx.new result }
{
    create_tables(tx)?;
    insert_office(tx, east)?;
    insert_key(tx, id, Role::Clerk, secret)?;
    upgrade(tx, allowance)
}
