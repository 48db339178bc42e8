//! The rows that another program left staged, inside a transaction.

ghost use Rattle.std.specs.Prelude.{◌≡◌, ◌≢◌, ◌↔◌, IsFalse, IsTrue, IfOk, OnOk};
ghost use Rattle.std.specs.List.{AllByRecursion};
ghost use Rattle.sqlite.specs.State.{HasCleanDisk};
ghost use Rattle.sqlite.specs.Held.{state};
ghost use Rattle.sqltables.specs.Schema.{v2, staged_tree};
ghost use Rattle.sqltables.specs.Tables.{NoneStaged, IsEmptied};
ghost use Rattle.sqltables.specs.Inside.{seen, GoesOnInside, GoesOnBegun, StillSecond, HasSchema};

use crate::running::run;
use sqlite::{Error, ErrorCode};
use sqltables::calls::Ledger;

/// Whether any row is staged.
fn has_staged<T: Ledger>(tx: &mut T) -> Result<bool, Error>
    ensures found { HasSchema v2.schema (seen T.view tx.old)
        → IsTrue (seen T.view tx.old).in_transaction → HasCleanDisk (seen T.view tx.new)
        → IfOk result (λ has. IsFalse has ↔ NoneStaged (seen T.view tx.old).now.trees) }
    ensures same { HasSchema v2.schema (seen T.view tx.old)
        → IsTrue (seen T.view tx.old).in_transaction → HasCleanDisk (seen T.view tx.new)
        → OnOk result ((seen T.view tx.new).now ≡ (seen T.view tx.old).now) }
    ensures still { StillSecond T.view tx.old tx.new result }
    ensures rest { GoesOnBegun T.view tx.old tx.new result }
{
    let rows = tx.query("SELECT 1 FROM staged LIMIT 1", &[])?;
    Ok(!rows.is_empty())
}

/// Deletes the staged rows, and no others.
fn delete_staged<T: Ledger>(tx: &mut T) -> Result<(), Error>
    ensures done { StillSecond T.view tx.old tx.new result }
    ensures schema { HasSchema v2.schema (seen T.view tx.old) → HasCleanDisk (seen T.view tx.new)
        → OnOk result ((seen T.view tx.new).now.schema ≡ (seen T.view tx.old).now.schema) }
    ensures others { HasSchema v2.schema (seen T.view tx.old) → HasCleanDisk (seen T.view tx.new)
        → OnOk result (AllByRecursion (λ t. t.tree ≢ staged_tree
        → (seen T.view tx.new).now.trees t.tree ≡ (seen T.view tx.old).now.trees t.tree)
        (seen T.view tx.old).now.schema.tables) }
    ensures rest { GoesOnInside T.view tx.old tx.new result }
{
    run(tx, "DELETE FROM staged", &[])
}

/// Deletes the staged rows, if there are any. The office's tables are unchanged. If there are none, nothing is
/// written. A row that cannot be deleted is reported as `DatabaseCorrupt`.
pub fn empty_staged<T: Ledger>(tx: &mut T) -> Result<(), Error>
    ensures done { StillSecond T.view tx.old tx.new result }
    ensures emptied { HasSchema v2.schema (seen T.view tx.old)
        → IsTrue (seen T.view tx.old).in_transaction → HasCleanDisk (seen T.view tx.new)
        → OnOk result (IsEmptied (seen T.view tx.old).now (seen T.view tx.new).now) }
    ensures same { HasSchema v2.schema (seen T.view tx.old)
        → IsTrue (seen T.view tx.old).in_transaction → HasCleanDisk (seen T.view tx.new)
        → NoneStaged (seen T.view tx.old).now.trees
        → OnOk result ((seen T.view tx.new).now ≡ (seen T.view tx.old).now) }
    ensures rest { GoesOnBegun T.view tx.old tx.new result }
{
    if !has_staged(tx)? {
        return Ok(());
    }
    delete_staged(tx)?;
    if has_staged(tx)? {
        return Err(Error::SqliteFailure(ErrorCode::DatabaseCorrupt));
    }
    Ok(())
}
