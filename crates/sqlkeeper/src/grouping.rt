//! Groups of changes: one transaction for all changes of a group.

ghost use Rattle.std.specs.Prelude.{◌≡◌, ◌⊎◌, true, false, OnOk, OnErr, IsTrue};
ghost use Rattle.sqlite.specs.State.{HasCleanDisk, IsRolledBack, IsUnchanged, KeepsCommit, Shows, Survives};
ghost use Rattle.sqlite.specs.Held.{state};

use sqlite::{Alter, Connection, Error, ErrorCode};

/// Where the changes of a keeper go.
#[derive(Clone, Copy)]
pub(crate) enum Group {
    /// There is no group. Each change is a transaction.
    Alone,
    /// A group in which nothing was changed yet. No transaction is pending.
    Idle,
    /// A group whose transaction was begun. If none is pending, a failure has undone it.
    Begun,
}

/// Begins the transaction of a group. After an error nothing is pending that was not pending before.
pub(crate) fn begin<S: Alter>(conn: &mut Connection<S>) -> Result<(), Error>
    ensures begun { HasCleanDisk (state S.Store conn.new)
        → OnOk result (Shows (state S.Store conn.old) (state S.Store conn.new)
        (state S.Store conn.old).now (state S.Store conn.old).committed true) }
    ensures free { HasCleanDisk (state S.Store conn.new)
        → OnOk result ((state S.Store conn.old).in_transaction ≡ false) }
    ensures kept { HasCleanDisk (state S.Store conn.new)
        → OnErr result (IsUnchanged (state S.Store conn.old) (state S.Store conn.new)
        ⊎ IsRolledBack (state S.Store conn.old) (state S.Store conn.new)) }
    ensures survives { Survives (state S.Store conn.old) (state S.Store conn.new) (λ _. ⊥) }
{
    conn.execute("BEGIN", &[])?;
    Ok(())
}

/// Commits the transaction of a group. After an error nothing of it is kept, and none is pending.
pub(crate) fn commit<S: Alter>(conn: &mut Connection<S>) -> Result<(), Error>
    ensures committed { HasCleanDisk (state S.Store conn.new)
        → OnOk result (IsTrue (state S.Store conn.old).in_transaction
        × Shows (state S.Store conn.old) (state S.Store conn.new)
        (state S.Store conn.old).now (state S.Store conn.old).now false) }
    ensures undone { HasCleanDisk (state S.Store conn.new)
        → OnErr result (IsRolledBack (state S.Store conn.old) (state S.Store conn.new)) }
    ensures survives { Survives (state S.Store conn.old) (state S.Store conn.new)
        (λ db. IsTrue (state S.Store conn.old).in_transaction
        × (db ≡ (state S.Store conn.old).now.trees)) }
{
    if conn.is_autocommit() {
        conn.transaction().rollback();
        return Err(Error::SqliteFailure(ErrorCode::TransactionState));
    }
    conn.execute("COMMIT", &[])?;
    Ok(())
}

/// Undoes the transaction of a group, if it is still pending.
pub(crate) fn undo<S: Alter>(conn: &mut Connection<S>)
    ensures undone { HasCleanDisk (state S.Store conn.new)
        → (state S.Store conn.new).in_transaction ≡ false }
    ensures keeps { HasCleanDisk (state S.Store conn.new)
        → KeepsCommit (state S.Store conn.old) (state S.Store conn.new) }
    ensures survives { Survives (state S.Store conn.old) (state S.Store conn.new) (λ _. ⊥) }
{
    if !conn.is_autocommit() {
        let _ = conn.execute("ROLLBACK", &[]);
    }
}
