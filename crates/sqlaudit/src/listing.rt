//! Whole tables, each read inside a transaction. The database need not mean an office.

ghost use Rattle.std.specs.Prelude.{◌≡◌, IsTrue, OnOk, IfOk};
ghost use Rattle.sqlite.specs.State.{HasCleanDisk};
ghost use Rattle.sqltables.specs.Schema.{v2};
ghost use Rattle.sqltables.specs.Inside.{seen, GoesOnBegun, GoesOnWhere};
ghost use Rattle.sqltables.specs.Means.{IsRunning};
ghost use Rattle.sqlaudit.specs.Formats.{version_of};
ghost use Rattle.sqlaudit.specs.Opened.{AreAdded, AreTables, SayUnlimited};
ghost use Rattle.sqlaudit.specs.Listing.{OfBegunOffice, OfTables, OfWholeTables};
ghost use Rattle.sqlaudit.specs.Lines.{IsOfficeLine, AreLines, AreRead, HaveRowids};

use crate::formats::Format;
use crate::lines::{
    BoxLine, KeyLine, LimitLine, Line, OfficeLine, PieceLine, ReceiptLine, RulesLine, lines_of,
    numbers_of,
};
use crate::portions::{PORTION, list_long, list_numbers};
use sqlite::Error;
use sqltables::calls::Ledger;
use std::alloc::Global;

/// Each row that the query shows. Two rows with the same number in the first column are the error `DatabaseCorrupt`.
fn list<T: Ledger, L: Line + Drop>(tx: &mut T, sql: &str) -> Result<Vec<L>, Error>
    ensures read { HasCleanDisk (seen T.view tx.new)
        → IfOk result (λ lines. AreRead L.reads sql.now (seen T.view tx.old)
        (seen T.view tx.new) lines.items) }
    ensures rest { GoesOnBegun T.view tx.old tx.new result }
{
    let rows = tx.query(sql, &[])?;
    let alloc = *rows.allocator();
    numbers_of(alloc, &rows)?;
    lines_of(alloc, &rows)
}

/// The row of the office. The tables after the office's own need not exist yet.
pub(crate) fn list_office<T: Ledger>(tx: &mut T) -> Result<Vec<OfficeLine>, Error>
    ensures listed { OfBegunOffice T.view tx.old tx.new (IfOk result
        (λ lines. AreLines IsOfficeLine ((seen T.view tx.old).now.trees 0) lines.items)) }
    ensures rowids { OfBegunOffice T.view tx.old tx.new
        (OnOk result (HaveRowids ((seen T.view tx.old).now.trees 0))) }
    ensures same { OfBegunOffice T.view tx.old tx.new
        (OnOk result ((seen T.view tx.new).now ≡ (seen T.view tx.old).now)) }
    ensures rest { GoesOnBegun T.view tx.old tx.new result }
{
    list(
        tx,
        "SELECT rowid, id, version, east FROM office ORDER BY id",
    )
}

/// The rows of the tables that version 2 adds.
#[derive(Drop)]
pub(crate) struct Added {
    pub(crate) rules: Vec<RulesLine>,
    pub(crate) limits: Vec<LimitLine>,
}

/// The values that version 2 would have for an office of version 1: no link begins early, and no key is limited.
fn unlimited(alloc: Global) -> Result<Added, Error>
    ensures { IfOk result (λ added. SayUnlimited added.rules.items added.limits.items) }
{
    let mut rules = Vec::new(alloc);
    rules.push(RulesLine {
        id: 1,
        allowance: 0,
    })?;
    Ok(Added {
        rules,
        limits: Vec::new(alloc),
    })
}

/// The tables that version 2 adds.
fn list_second<T: Ledger>(tx: &mut T) -> Result<Added, Error>
    ensures listed { OfTables v2 T.view tx.old tx.new (IfOk result
        (λ added. AreAdded v2 (seen T.view tx.old).now added.rules.items added.limits.items)) }
    ensures same { OfTables v2 T.view tx.old tx.new
        (OnOk result ((seen T.view tx.new).now ≡ (seen T.view tx.old).now)) }
    ensures rest { GoesOnBegun T.view tx.old tx.new result }
{
    Ok(Added {
        rules: list(tx, "SELECT rowid, id, allowance FROM rules ORDER BY id")?,
        limits: list(
            tx,
            "SELECT rowid, key_id, box FROM key_box ORDER BY key_id, box",
        )?,
    })
}

/// The tables that version 2 adds; for an office of version 1, the equivalent values.
fn list_added<T: Ledger>(tx: &mut T, alloc: Global, format: Format) -> Result<Added, Error>
    ensures listed { OfTables (version_of format) T.view tx.old tx.new (IfOk result
        (λ added. AreAdded (version_of format) (seen T.view tx.old).now
        added.rules.items added.limits.items)) }
    ensures same { OfTables (version_of format) T.view tx.old tx.new
        (OnOk result ((seen T.view tx.new).now ≡ (seen T.view tx.old).now)) }
    ensures rest { GoesOnWhere (IsRunning (seen T.view tx.old))
        (IsTrue (seen T.view tx.old).in_transaction) T.view tx.old tx.new result }
{
    match format {
        Format::First => unlimited(alloc),
        Format::Second => list_second(tx),
    }
}

/// The rows of every table except the office's own. For the files these are only the rowids.
#[derive(Drop)]
pub(crate) struct Listed {
    pub(crate) keys: Vec<KeyLine>,
    pub(crate) boxes: Vec<BoxLine>,
    /// The pieces that are not the first of their file.
    pub(crate) pieces: Vec<PieceLine>,
    /// The rowids of the files, ascending.
    pub(crate) files: Vec<i64>,
    pub(crate) receipts: Vec<ReceiptLine>,
    pub(crate) added: Added,
}

/// Reads every table except the office's own: of the files only the rowids, and of the pieces those that are not the first of
/// their file.
pub(crate) fn list_all<T: Ledger>(
    tx: &mut T,
    alloc: Global,
    format: Format,
) -> Result<Listed, Error>
    ensures listed { OfWholeTables (version_of format) T.view tx.old tx.new
        (IfOk result (AreTables (version_of format) (seen T.view tx.old).now)) }
    ensures same { OfTables (version_of format) T.view tx.old tx.new
        (OnOk result ((seen T.view tx.new).now ≡ (seen T.view tx.old).now)) }
    ensures rest { GoesOnBegun T.view tx.old tx.new result }
{
    Ok(Listed {
        keys: list(
            tx,
            "SELECT rowid, id, role, secret, revoked FROM keys ORDER BY id",
        )?,
        boxes: list(
            tx,
            "SELECT rowid, name, opens, closes, days, from_minute, to_minute, quota, max_files, mode, rule_kind, rule_text, used, count FROM boxes ORDER BY name",
        )?,
        pieces: list_long(
            tx,
            alloc,
            PORTION,
            "SELECT rowid FROM pieces",
            "SELECT rowid, box, name, part, length(bytes) FROM pieces WHERE rowid >= ?1 AND rowid <= ?2 AND part <> 0",
        )?,
        files: list_numbers(tx, "SELECT rowid FROM files")?,
        receipts: list_long(
            tx,
            alloc,
            usize::MAX,
            "SELECT rowid FROM receipts",
            "SELECT rowid, number, box, name, length, digest, moment, key_id FROM receipts WHERE rowid >= ?1 AND rowid <= ?2",
        )?,
        added: list_added(tx, alloc, format)?,
    })
}
