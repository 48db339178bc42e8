//! Queries inside a transaction to walk through an office: what comes first after a text, in byte order.
//! They change nothing.

ghost use Rattle.std.specs.Prelude.{OnOk, IfOk, IsTrue, IsSome};
ghost use Rattle.sqlite.specs.State.{HasCleanDisk};
ghost use Rattle.sqlite.specs.Values.{bound};
ghost use Rattle.sqlite.specs.Given.{IsPlain};
ghost use Rattle.sqlite.specs.Listing.{understood};
ghost use Rattle.sqltables.specs.Schema.{Version};
ghost use Rattle.sqltables.specs.Tables.{Tables, placed};
ghost use Rattle.sqltables.specs.Inside.{seen, GoesOnBegun, Still, FindsIn, StillSecond, FindsInSecond};
ghost use Rattle.sqltables.specs.Means.{Pends};
ghost use Rattle.sqltables.specs.Questions.{HasLimit};
ghost use Rattle.sqlquestions.specs.Following.{IsFirstBehind, ShowsFirstText, bytes_in};

use crate::questions::select_row;
use sqlite::types::ValueRef;
use sqlite::{Error, params};
use sqltables::calls::Ledger;
use sqltables::reading::read_text;

/// The text in the first column of the last row that a query of the office's own tables shows, if it shows any row.
fn select_text<T: Ledger>(
    tx: &mut T,
    sql: &str,
    params: &[ValueRef<'_>],
) -> Result<Option<Vec<u8>>, Error>
    ensures shown { HasCleanDisk (seen T.view tx.new)
        → IfOk result (λ text. ShowsFirstText sql.now (bound params.now) (seen T.view tx.old)
        (seen T.view tx.new) (bytes_in text)) }
    ensures still { (v : Version) (tables : Tables) → IsPlain (understood v.schema sql.now)
        → Pends v (seen T.view tx.old) tables
        → OnOk result (Pends v (seen T.view tx.new) tables) }
    ensures rest { GoesOnBegun T.view tx.old tx.new result }
{
    let Some(row) = select_row(tx, sql, params)? else {
        return Ok(None);
    };
    Ok(Some(read_text(&row, 0)?))
}

/// The id of the first key after this text.
pub fn key_after<T: Ledger>(tx: &mut T, after: &str) -> Result<Option<Vec<u8>>, Error>
    ensures found { FindsIn T.view tx.old tx.new result
        (λ tables found. IsFirstBehind (λ id. IsSome (tables.key id)) after.now (bytes_in found)) }
    ensures still { Still T.view tx.old tx.new result }
    ensures rest { GoesOnBegun T.view tx.old tx.new result }
{
    select_text(
        tx,
        "SELECT id FROM keys WHERE id > ?1 ORDER BY id LIMIT 1",
        params![after],
    )
}

/// The name of the first box after this text.
pub fn box_after<T: Ledger>(tx: &mut T, after: &str) -> Result<Option<Vec<u8>>, Error>
    ensures found { FindsIn T.view tx.old tx.new result
        (λ tables found. IsFirstBehind (λ name. IsSome (tables.box name)) after.now
        (bytes_in found)) }
    ensures still { Still T.view tx.old tx.new result }
    ensures rest { GoesOnBegun T.view tx.old tx.new result }
{
    select_text(
        tx,
        "SELECT name FROM boxes WHERE name > ?1 ORDER BY name LIMIT 1",
        params![after],
    )
}

/// The name of the first file of this box after this text.
pub fn file_after<T: Ledger>(
    tx: &mut T,
    in_box: &str,
    after: &str,
) -> Result<Option<Vec<u8>>, Error>
    ensures found { FindsIn T.view tx.old tx.new result
        (λ tables found. IsFirstBehind (λ name. IsSome (tables.file (placed in_box.now name)))
        after.now (bytes_in found)) }
    ensures still { Still T.view tx.old tx.new result }
    ensures rest { GoesOnBegun T.view tx.old tx.new result }
{
    select_text(
        tx,
        "SELECT name FROM files WHERE box = ?1 AND name > ?2 ORDER BY name LIMIT 1",
        params![in_box, after],
    )
}

/// The name of the first box after this text among those that the key of this id is limited to.
pub fn limit_after<T: Ledger>(tx: &mut T, id: &str, after: &str) -> Result<Option<Vec<u8>>, Error>
    ensures found { FindsInSecond T.view tx.old tx.new result
        (λ tables found. IsFirstBehind (HasLimit tables id.now) after.now (bytes_in found)) }
    ensures still { StillSecond T.view tx.old tx.new result }
    ensures rest { GoesOnBegun T.view tx.old tx.new result }
{
    select_text(
        tx,
        "SELECT box FROM key_box WHERE key_id = ?1 AND box > ?2 ORDER BY box LIMIT 1",
        params![id, after],
    )
}
