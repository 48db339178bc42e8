//! Long tables, each read in portions inside a transaction. The database need not mean an office.

ghost use Rattle.std.specs.Prelude.{◌≡◌, ℕ, List, [], ◌∷◌, IsTrue, OnOk, IfOk};
ghost use Rattle.sqlite_value.specs.declared.value.Value.TheVariants.{Int};
ghost use Rattle.sqlite_value.specs.Order.{Row};
ghost use Rattle.sqlite_sql.specs.Term.{Term};
ghost use Rattle.sqlite.specs.State.{HasCleanDisk};
ghost use Rattle.sqltables.specs.Schema.{Version};
ghost use Rattle.sqltables.specs.Inside.{seen, GoesOnBegun, GoesOnWhere};
ghost use Rattle.sqltables.specs.Means.{IsRunning};
ghost use Rattle.sqlaudit.specs.Lines.{AreLinesWhere, HaveRowids};
ghost use Rattle.sqlaudit.specs.Portions.{AreRowids, AsksBetween, AsksNumbers, OfRunning, OfTable, Passes, Shows, ShowsNumbers};

use crate::lines::{Line, lines_of, numbers_of};
use sqlite::{Error, params};
use sqltables::calls::Ledger;
use std::alloc::Global;

/// The maximum number of rows that one query shows.
pub(crate) const PORTION: usize = 512;

/// The numbers in the only column that the query shows, ascending. Two rows with the same number are `DatabaseCorrupt`.
pub(crate) fn list_numbers<T: Ledger>(tx: &mut T, sql: &str) -> Result<Vec<i64>, Error>
    ensures read { HasCleanDisk (seen T.view tx.new)
        → IfOk result (λ numbers. ShowsNumbers sql.now (seen T.view tx.old) (seen T.view tx.new)
        numbers.items) }
    ensures rest { GoesOnBegun T.view tx.old tx.new result }
{
    let rows = tx.query(sql, &[])?;
    numbers_of(*rows.allocator(), &rows)
}

/// What the query shows of the rows with rowids from `first` to `last`.
pub(crate) fn list_between<T: Ledger, L: Line + Drop>(
    tx: &mut T,
    sql: &str,
    first: i64,
    last: i64,
) -> Result<Vec<L>, Error>
    ensures read { HasCleanDisk (seen T.view tx.new)
        → IfOk result (λ lines. Shows L.reads sql.now (Int first ∷ Int last ∷ [])
        (seen T.view tx.old) (seen T.view tx.new) lines.items) }
    ensures rest { GoesOnBegun T.view tx.old tx.new result }
{
    let rows = tx.query(sql, params![first, last])?;
    lines_of(*rows.allocator(), &rows)
}

/// What the query shows of the rows with these rowids that pass its test, one portion at a time. The initial capacity is `room`
/// lines.
fn list_portions<T: Ledger, L: Line + Drop>(
    tx: &mut T,
    alloc: Global,
    room: usize,
    numbers: &[i64],
    sql: &str,
) -> Result<Vec<L>, Error>
    ensures read { (v : Version) (tree : ℕ) (test : List Term) (show : Row → Row)
        → AsksBetween v sql.now tree test show
        → AreRowids ((seen T.view tx.old).now.trees tree) numbers.now
        → OfRunning v T.view tx.old tx.new (IfOk result
        (λ lines. AreLinesWhere (Passes test) (λ row line. L.reads (show row) line)
        ((seen T.view tx.old).now.trees tree) lines.items)) }
    ensures same { (v : Version) (tree : ℕ) (test : List Term) (show : Row → Row)
        → AsksBetween v sql.now tree test show → OfRunning v T.view tx.old tx.new
        (OnOk result ((seen T.view tx.new).now ≡ (seen T.view tx.old).now)) }
    ensures rest { GoesOnWhere (IsRunning (seen T.view tx.old))
        (IsRunning (seen T.view tx.old)) T.view tx.old tx.new result }
{
    let mut lines = Vec::with_capacity(alloc, room)?;
    let mut at: usize = 0;
    while at < numbers.len() {
        let end = at + PORTION.min(numbers.len() - at);
        let mut more = list_between(tx, sql, numbers[at], numbers[end - 1])?;
        lines.append(&mut more)?;
        at = end;
    }
    Ok(lines)
}

/// The rows of a table that pass a test. One query reads all rowids, and another reads the passing rows of a range of rowids.
/// Two rows with the same rowid are `DatabaseCorrupt`. The initial capacity is one line per row, but at most `room` lines.
pub(crate) fn list_long<T: Ledger, L: Line + Drop>(
    tx: &mut T,
    alloc: Global,
    room: usize,
    rowids: &str,
    sql: &str,
) -> Result<Vec<L>, Error>
    ensures read { (v : Version) (tree : ℕ) (test : List Term) (show : Row → Row)
        → AsksNumbers v rowids.now tree → AsksBetween v sql.now tree test show
        → OfTable v T.view tx.old tx.new (IfOk result
        (λ lines. AreLinesWhere (Passes test) (λ row line. L.reads (show row) line)
        ((seen T.view tx.old).now.trees tree) lines.items)) }
    ensures rowids { (v : Version) (tree : ℕ) → AsksNumbers v rowids.now tree
        → OfTable v T.view tx.old tx.new
        (OnOk result (HaveRowids ((seen T.view tx.old).now.trees tree))) }
    ensures same { (v : Version) (tree : ℕ) (test : List Term) (show : Row → Row)
        → AsksNumbers v rowids.now tree → AsksBetween v sql.now tree test show → OfTable v T.view tx.old tx.new
        (OnOk result ((seen T.view tx.new).now ≡ (seen T.view tx.old).now)) }
    ensures rest { GoesOnBegun T.view tx.old tx.new result }
{
    let numbers = list_numbers(tx, rowids)?;
    list_portions(tx, alloc, numbers.len().min(room), &numbers, sql)
}
