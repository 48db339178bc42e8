//! Runs statements that write.

ghost use Rattle.std.specs.Prelude.{OnOk};
ghost use Rattle.sqlite.specs.State.{HasCleanDisk};
ghost use Rattle.sqlite.specs.Values.{bound};
ghost use Rattle.sqltables.specs.Inside.{seen, GoesOnInside};
ghost use Rattle.sqlchanges.specs.Running.{HasRun};

use sqlite::Error;
use sqlite::types::ValueRef;
use sqltables::calls::Ledger;

/// Runs a statement that writes, inside a transaction. How many rows it writes is not told.
pub(crate) fn run<T: Ledger>(tx: &mut T, sql: &str, params: &[ValueRef<'_>]) -> Result<(), Error>
    ensures ran { HasCleanDisk (seen T.view tx.new)
        → OnOk result (HasRun sql.now (bound params.now)
        (seen T.view tx.old) (seen T.view tx.new)) }
    ensures rest { GoesOnInside T.view tx.old tx.new result }
{
    tx.execute(sql, params)?;
    Ok(())
}
