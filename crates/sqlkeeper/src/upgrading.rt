//! Upgrades an office file from version 1 to version 2 in a transaction of its own.

ghost use Rattle.std.specs.Prelude.{OnOk, OnErr};
ghost use Rattle.sqlite.specs.State.{HasCleanDisk};
ghost use Rattle.sqlite.specs.Held.{state};
ghost use Rattle.boxes.specs.State.{State};
ghost use Rattle.sqltables.specs.Schema.{v1, v2};
ghost use Rattle.sqltables.specs.Means.{Means, LeavesOnly, AddsOnly};
ghost use Rattle.sqlaudit.specs.Opened.{IsSettled, OnlyLooks};
ghost use Rattle.sqlkeeper.specs.Committing.{EndsOpen};
ghost use Rattle.sqlkeeper.specs.Emptying.{HasNoneStaged};

use sigv4::Allowance;
use sqlchanges::making::upgrade;
use sqlite::{Alter, Connection, Error, ErrorCode};

/// Upgrades an office from version 1 to version 2, completely or not at all. The state is the same, with no allowance and no
/// limits, and nothing is staged. It is committed when the call returns `Ok`.
///
/// # Errors
///
/// The database's errors, including a pending transaction. The office is then unchanged.
pub(crate) fn upgrade_file<S: Alter>(conn: &mut Connection<S>) -> Result<(), Error>
    ensures made { (s : State) → Means v1 (state S.Store conn.old) s
        → OnOk result (Means v2 (state S.Store conn.new) s) }
    ensures unstaged { (s : State) → Means v1 (state S.Store conn.old) s
        → OnOk result (HasCleanDisk (state S.Store conn.new) → HasNoneStaged (state S.Store conn.new)) }
    ensures kept { IsSettled (state S.Store conn.old)
        → OnErr result (OnlyLooks (state S.Store conn.old) (state S.Store conn.new)) }
    ensures durable { (s : State) → Means v1 (state S.Store conn.old) s
        → OnOk result (LeavesOnly v2 (state S.Store conn.new) s) }
    ensures crash { (s : State) → Means v1 (state S.Store conn.old) s
        → AddsOnly v2 (state S.Store conn.old) (state S.Store conn.new) s }
    ensures honest { HasCleanDisk (state S.Store conn.new) → HasCleanDisk (state S.Store conn.old) }
    ensures opened { EndsOpen (state S.Store conn.new) result }
{
    if !conn.is_autocommit() {
        return Err(Error::SqliteFailure(ErrorCode::TransactionState));
    }
    let mut tx = conn.transaction();
    upgrade(&mut tx, Allowance::none())?;
    tx.commit()
}
