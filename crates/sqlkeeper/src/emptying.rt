//! Deletes what another program left staged in an office file, in a transaction of its own.

ghost use Rattle.std.specs.Prelude.{OnOk, OnErr};
ghost use Rattle.sqlite.specs.State.{HasCleanDisk};
ghost use Rattle.sqlite.specs.Held.{state};
ghost use Rattle.boxes.specs.State.{State};
ghost use Rattle.sqltables.specs.Schema.{v2};
ghost use Rattle.sqltables.specs.Means.{Means, LeavesOnly, AddsOnly};
ghost use Rattle.sqlaudit.specs.Opened.{IsSettled, OnlyLooks, LeavesUntouched};
ghost use Rattle.sqlkeeper.specs.Committing.{EndsOpen};
ghost use Rattle.sqlkeeper.specs.Emptying.{EmptiesStaged, HasNoneStaged};

use sqlchanges::staged::empty_staged;
use sqlite::{Alter, Connection, Error, ErrorCode};

/// Deletes the staged rows, all or none. The office is unchanged. The rows are permanently gone when the call returns `Ok`.
///
/// # Errors
///
/// The database's errors, including a pending transaction. The file is then unchanged.
pub(crate) fn empty_file<S: Alter>(conn: &mut Connection<S>) -> Result<(), Error>
    ensures made { (s : State) → Means v2 (state S.Store conn.old) s
        → OnOk result (Means v2 (state S.Store conn.new) s) }
    ensures emptied { (s : State) → Means v2 (state S.Store conn.old) s
        → OnOk result (EmptiesStaged (state S.Store conn.old) (state S.Store conn.new)) }
    ensures kept { IsSettled (state S.Store conn.old)
        → OnErr result (OnlyLooks (state S.Store conn.old) (state S.Store conn.new)) }
    ensures spared { (s : State) → Means v2 (state S.Store conn.old) s
        → HasNoneStaged (state S.Store conn.old)
        → LeavesUntouched (state S.Store conn.old) (state S.Store conn.new) }
    ensures durable { (s : State) → Means v2 (state S.Store conn.old) s
        → OnOk result (LeavesOnly v2 (state S.Store conn.new) s) }
    ensures crash { (s : State) → Means v2 (state S.Store conn.old) s
        → AddsOnly v2 (state S.Store conn.old) (state S.Store conn.new) s }
    ensures honest { HasCleanDisk (state S.Store conn.new) → HasCleanDisk (state S.Store conn.old) }
    ensures opened { EndsOpen (state S.Store conn.new) result }
{
    if !conn.is_autocommit() {
        return Err(Error::SqliteFailure(ErrorCode::TransactionState));
    }
    let mut tx = conn.transaction();
    empty_staged(&mut tx)?;
    tx.commit()
}
