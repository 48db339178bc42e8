//! Makes a change, in a transaction of its own or in that of a group.

ghost use Rattle.std.specs.Prelude.{◌≡◌, OnOk, OnErr};
ghost use Rattle.sqlite.specs.State.{HasCleanDisk};
ghost use Rattle.sqlite.specs.Held.{state};
ghost use Rattle.boxes.specs.State.{State};
ghost use Rattle.boxes.specs.Sound.{IsSound};
ghost use Rattle.boxes.specs.Changes.{IsChangeOf};
ghost use Rattle.sqltables.specs.Schema.{v2};
ghost use Rattle.sqltables.specs.Tables.{tables_of};
ghost use Rattle.sqltables.specs.Means.{Means, LeavesOnly, AddsOnly, Pends};
ghost use Rattle.sqltables.specs.Staging.{held};
ghost use Rattle.sqlkeeper.specs.Committing.{EndsOpen};
ghost use Rattle.sqlkeeper.specs.Grouping.{GoesOnInGroup};

use crate::changing::write_change;
use crate::grouping::undo;
use boxes::Change;
use sqlite::{Alter, Connection, Error, ErrorCode};
use sqltables::staging::Pieces;

/// Makes a change that the rules allow for the office, completely or not at all. It is committed when the call returns `Ok`.
///
/// # Errors
///
/// The database's errors, including a pending transaction, and an error for a text that is not UTF-8 or a number that does
/// not fit in the file. The office is then unchanged.
pub(crate) fn apply_change<S: Alter>(
    conn: &mut Connection<S>,
    change: &Change<'_>,
    staged: &Pieces,
) -> Result<(), Error>
    ensures made { (s after : State) → Means v2 (state S.Store conn.old) s → IsSound s → IsChangeOf (λ bytes. held staged.now ≡ bytes) s change.now after
        → OnOk result (Means v2 (state S.Store conn.new) after) }
    ensures kept { (s : State) → Means v2 (state S.Store conn.old) s
        → OnErr result (Means v2 (state S.Store conn.new) s) }
    ensures durable { (s after : State) → Means v2 (state S.Store conn.old) s → IsSound s → IsChangeOf (λ bytes. held staged.now ≡ bytes) s change.now after
        → OnOk result (LeavesOnly v2 (state S.Store conn.new) after) }
    ensures crash { (s after : State) → Means v2 (state S.Store conn.old) s → IsSound s → IsChangeOf (λ bytes. held staged.now ≡ bytes) s change.now after
        → AddsOnly v2 (state S.Store conn.old) (state S.Store conn.new) after }
    ensures honest { HasCleanDisk (state S.Store conn.new) → HasCleanDisk (state S.Store conn.old) }
    ensures opened { EndsOpen (state S.Store conn.new) result }
{
    if !conn.is_autocommit() {
        return Err(Error::SqliteFailure(ErrorCode::TransactionState));
    }
    let mut tx = conn.transaction();
    write_change(&mut tx, change, staged)?;
    tx.commit()
}

/// Makes a change that the rules allow for the office, within the transaction of a group.
///
/// # Errors
///
/// The errors of `apply_change`, and an error if no transaction is pending. The transaction is then undone.
pub(crate) fn apply_in_group<S: Alter>(
    conn: &mut Connection<S>,
    change: &Change<'_>,
    staged: &Pieces,
) -> Result<(), Error>
    ensures made { (s after : State) → Pends v2 (state S.Store conn.old) (tables_of s) → IsSound s
        → IsChangeOf (λ bytes. held staged.now ≡ bytes) s change.now after
        → OnOk result (Pends v2 (state S.Store conn.new) (tables_of after)) }
    ensures undone { (s : State) → Pends v2 (state S.Store conn.old) (tables_of s)
        → OnErr result (Pends v2 (state S.Store conn.new) (tables_of s)) }
    ensures rest { GoesOnInGroup (state S.Store conn.old) (state S.Store conn.new) result }
{
    if conn.is_autocommit() {
        return Err(Error::SqliteFailure(ErrorCode::TransactionState));
    }
    let mut mark = conn.savepoint()?;
    let written = write_change(&mut mark, change, staged);
    match written {
        Ok(()) => mark.commit(),
        Err(error) => {
            let _ = mark.finish();
            undo(conn);
            Err(error)
        }
    }
}
