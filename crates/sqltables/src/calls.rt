//! Statements and queries in a transaction, over whatever runs them.

ghost use Rattle.std.specs.Prelude.{IfOk, IsTrue, Ok};
ghost use Rattle.sqlite.specs.Held.{state};
ghost use Rattle.sqlite.specs.State.{HasCleanDisk, ExecutesInside, Shown};
ghost use Rattle.sqlite.specs.Values.{bound};
ghost use Rattle.sqltables.specs.Apart.{IsApart};
ghost use Rattle.sqltables.specs.Inside.{View, seen, GoesOnInside, GoesOnBegun};

use sqlite::types::ValueRef;
use sqlite::{Alter, Error, Row, Savepoint, Transaction};

/// A transaction: it runs statements and queries.
pub trait Ledger {
    /// What its connection shows, which reference it has to it, and what holds of its savepoint.
    ghost view: { Self → View };

    /// Runs a statement that writes, and returns how many rows it wrote.
    ///
    /// # Errors
    ///
    /// The database's errors. If the transaction is over, the error for the transaction's state.
    fn execute(&mut self, sql: &str, params: &[ValueRef<'_>]) -> Result<usize, Error>
        ensures ran { HasCleanDisk (seen view self.new)
            → IfOk result (λ count. IsTrue (seen view self.old).in_transaction
            × ExecutesInside 0 sql.now (bound params.now) (seen view self.old) (seen view self.new)
            (Ok count)) }
        ensures rest { GoesOnInside view self.old self.new result };

    /// The rows that a query shows.
    ///
    /// # Errors
    ///
    /// The database's errors.
    fn query(&mut self, sql: &str, params: &[ValueRef<'_>]) -> Result<Vec<Row>, Error>
        ensures ok { HasCleanDisk (seen view self.new)
            → IfOk result (λ rows. Shown sql.now (bound params.now) (seen view self.old)
            (seen view self.new) rows.items) }
        ensures rest { GoesOnBegun view self.old self.new result };
}

impl<'conn, S: Alter> Ledger for Transaction<'conn, S> {
    ghost view = { λ tx. record { state = state S.Store tx.conn.now; name = tx.conn.ghost_name; apart = Unit {0} } };

    fn execute(&mut self, sql: &str, params: &[ValueRef<'_>]) -> Result<usize, Error> {
        Transaction::execute(self, sql, params)
    }

    fn query(&mut self, sql: &str, params: &[ValueRef<'_>]) -> Result<Vec<Row>, Error> {
        self.query_all(sql, params)
    }
}

// A savepoint within a transaction. It keeps a text from ending the transaction.
impl<'conn, S: Alter> Ledger for Savepoint<'conn, S> {
    ghost view = { λ mark. record {
      state = state S.Store mark.conn.now;
      name = mark.conn.ghost_name;
      apart = IsApart (state S.Store mark.conn.now) mark.at;
    } };

    fn execute(&mut self, sql: &str, params: &[ValueRef<'_>]) -> Result<usize, Error> {
        Savepoint::execute(self, sql, params)
    }

    fn query(&mut self, sql: &str, params: &[ValueRef<'_>]) -> Result<Vec<Row>, Error> {
        Savepoint::query_all(self, sql, params)
    }
}
