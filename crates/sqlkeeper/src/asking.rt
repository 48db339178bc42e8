//! Asks the office file. Outside a group's transaction each question is put in one of its own, which writes nothing. It commits if
//! there is an answer, so that a store that has shut itself down gives none.

ghost use Rattle.std.specs.Prelude.{IsTrue, IfOk, OnOk};
ghost use Rattle.sqlite.specs.State.{HasCleanDisk};
ghost use Rattle.sqlite.specs.Held.{Held, state};
ghost use Rattle.boxes.specs.State.{State};
ghost use Rattle.boxes.specs.Sound.{IsSound};
ghost use Rattle.sqltables.specs.Schema.{v2};
ghost use Rattle.sqltables.specs.Tables.{tables_of};
ghost use Rattle.sqltables.specs.Inside.{seen, GoesOnBegun};
ghost use Rattle.sqltables.specs.Means.{Pends};
ghost use Rattle.sqlkeeper.specs.Asking.{AnswersOf, LeavesOffice};
ghost use Rattle.sqlkeeper.specs.Grouping.{AsksIn, GoesOnInGroup, IsGrouped, MeansIn};

use crate::grouping::{Group, undo};
use sqlite::{Alter, Connection, Error, ErrorCode};
use sqltables::calls::Ledger;

/// A question about an office.
pub(crate) trait Question {
    /// Its answer.
    type Answer: Drop;

    /// The answer is right for this office.
    ghost says: { Self → State → Self.Answer → Type 0 };

    /// Puts the question inside a transaction. Nothing is written.
    fn put<T: Ledger>(&self, tx: &mut T) -> Result<Self::Answer, Error>
        ensures found { (s : State) → Pends v2 (seen T.view tx.old) (tables_of s) → IsSound s
            → IsTrue (seen T.view tx.old).in_transaction → HasCleanDisk (seen T.view tx.new)
            → IfOk result (says self.now s) }
        ensures still { (s : State) → Pends v2 (seen T.view tx.old) (tables_of s)
            → OnOk result (Pends v2 (seen T.view tx.new) (tables_of s)) }
        ensures rest { GoesOnBegun T.view tx.old tx.new result };
}

/// The answer to this question, in the transaction of the group if one was begun.
pub(crate) fn ask_in<S: Alter, Q: Question>(
    conn: &mut Connection<S>,
    group: Group,
    question: &Q,
) -> Result<Q::Answer, Error>
    ensures found { (s : State) → MeansIn group (state S.Store conn.old) s → IsSound s
        → HasCleanDisk (state S.Store conn.new) → IfOk result (Q.says question.now s) }
    ensures rest { AsksIn group (state S.Store conn.old) (state S.Store conn.new) result }
    ensures grouped { (first : Held S) → IsGrouped (state S.Store first) group (state S.Store conn.old)
        → IsGrouped (state S.Store first) group (state S.Store conn.new) }
{
    match group {
        Group::Alone | Group::Idle => ask(conn, question),
        Group::Begun => ask_in_group(conn, question),
    }
}

// The answer to this question, in a transaction of its own.
fn ask<S: Alter, Q: Question>(conn: &mut Connection<S>, question: &Q) -> Result<Q::Answer, Error>
    ensures found { AnswersOf (state S.Store conn.old) (state S.Store conn.new) result
        (Q.says question.now) }
    ensures rest { LeavesOffice (state S.Store conn.old) (state S.Store conn.new) result }
{
    if !conn.is_autocommit() {
        return Err(Error::SqliteFailure(ErrorCode::TransactionState));
    }
    let mut tx = conn.transaction();
    let answer = question.put(&mut tx)?;
    tx.commit()?;
    Ok(answer)
}

// The answer to this question, within the transaction of a group. An error undoes the transaction.
fn ask_in_group<S: Alter, Q: Question>(
    conn: &mut Connection<S>,
    question: &Q,
) -> Result<Q::Answer, Error>
    ensures found { (s : State) → Pends v2 (state S.Store conn.old) (tables_of s) → IsSound s
        → HasCleanDisk (state S.Store conn.new) → IfOk result (Q.says question.now s) }
    ensures still { (s : State) → Pends v2 (state S.Store conn.old) (tables_of s)
        → Pends v2 (state S.Store conn.new) (tables_of s) }
    ensures rest { GoesOnInGroup (state S.Store conn.old) (state S.Store conn.new) result }
{
    if conn.is_autocommit() {
        return Err(Error::SqliteFailure(ErrorCode::TransactionState));
    }
    let mut mark = conn.savepoint()?;
    let answer = question.put(&mut mark);
    match answer {
        Ok(answer) => {
            mark.commit()?;
            Ok(answer)
        }
        Err(error) => {
            let _ = mark.finish();
            undo(conn);
            Err(error)
        }
    }
}
