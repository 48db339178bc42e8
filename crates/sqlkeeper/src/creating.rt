//! Makes a new office in a transaction of its own.

ghost use Rattle.std.specs.Prelude.{OnOk, OnErr};
ghost use Rattle.sqlite.specs.State.{HasCleanDisk};
ghost use Rattle.sqlite.specs.Held.{state};
ghost use Rattle.boxes.specs.FirstState.{first_state};
ghost use Rattle.sqltables.specs.Schema.{v2};
ghost use Rattle.sqltables.specs.Means.{IsBare, Means, LeavesOnly, AddsOnly};
ghost use Rattle.sqlkeeper.specs.Committing.{EndsOpen};
ghost use Rattle.sqlkeeper.specs.Emptying.{HasNoneStaged};

use sigv4::Allowance;
use sqlchanges::making::make_office;
use sqlite::{Alter, Connection, Error, ErrorCode};

/// Makes a new office in a database without tables, completely or not at all. Nothing is staged.
///
/// # Errors
///
/// The database's errors, including a pending transaction. The database is then unchanged.
pub(crate) fn create<S: Alter>(
    conn: &mut Connection<S>,
    east: i16,
    allowance: Allowance,
    id: &str,
    secret: &[u8],
) -> Result<(), Error>
    ensures made { IsBare (state S.Store conn.old)
        → OnOk result (Means v2 (state S.Store conn.new) (first_state east allowance id.now secret.now)) }
    ensures unstaged { IsBare (state S.Store conn.old)
        → OnOk result (HasCleanDisk (state S.Store conn.new) → HasNoneStaged (state S.Store conn.new)) }
    ensures kept { IsBare (state S.Store conn.old)
        → OnErr result (IsBare (state S.Store conn.new)) }
    ensures durable { IsBare (state S.Store conn.old)
        → OnOk result (LeavesOnly v2 (state S.Store conn.new)
        (first_state east allowance id.now secret.now)) }
    ensures crash { IsBare (state S.Store conn.old)
        → AddsOnly v2 (state S.Store conn.old) (state S.Store conn.new)
        (first_state east allowance id.now secret.now) }
    ensures honest { HasCleanDisk (state S.Store conn.new) → HasCleanDisk (state S.Store conn.old) }
    ensures opened { EndsOpen (state S.Store conn.new) result }
{
    if !conn.is_autocommit() {
        return Err(Error::SqliteFailure(ErrorCode::TransactionState));
    }
    let mut tx = conn.transaction();
    make_office(&mut tx, east, allowance, id, secret)?;
    tx.commit()
}
