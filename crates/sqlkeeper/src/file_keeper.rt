//! The keeper over an office file.

ghost use Rattle.std.specs.Prelude.{◌≡◌, ◌≢◌, ◌↔◌, ◌⊎◌, [], pos, neg_ℤ, ◌≤ℤ◌, Ok, IfOk, IfErr, OnOk, OnErr, IsErr, IsTrue, ⊤};
ghost use Rattle.sigv4.specs.Credential.{IsKeyId, IsSecret};
ghost use Rattle.boxes.specs.FirstState.{first_state};
ghost use Rattle.boxes.specs.Sound.{IsSound};
ghost use Rattle.boxes.specs.State.{State};
ghost use Rattle.boxes.specs.Changes.{IsChangeOf, MayChange, IsPastFull, TakesStaged};
ghost use Rattle.sigtext.specs.Counts.{CountsErrors};
ghost use Rattle.sqlite.specs.State.{HasCleanDisk};
ghost use Rattle.sqlite.specs.Held.{state};
ghost use Rattle.boxes.specs.Keeping.{KeepsGroup, LeavesAlone};
ghost use Rattle.sqltables.specs.Means.{IsBare, AddsOnly};
ghost use Rattle.sqltables.specs.Schema.{v2, s0};
ghost use Rattle.sqltables.specs.Tables.{NoneStaged};
ghost use Rattle.sqltables.specs.Kept.{KeepsState, MayLeave, LeavesStates};
ghost use Rattle.sqlaudit.specs.Opened.{HasOurs, AreFirstNamed, AreNamed, OnlyLooks, LeavesUntouched, IsFound, IsEither};
ghost use Rattle.sqltables.specs.Staging.{held};
ghost use Rattle.sqlkeeper.specs.Emptying.{EmptiesStaged, HasNoneStaged};
ghost use Rattle.sqlkeeper.specs.Grouping.{IsGrouped, IsOpenIn, LeavesIn, LeavesOneIn, LeavesOnlyIn, LeavesStatesIn, MeansIn};
ghost use Rattle.sqlkeeper.specs.InGroup.{leaves_alone, loses, loses_whole, one_in, states_alone};
ghost use Rattle.sqlkeeper.specs.OneText.{one_text};
ghost use Rattle.sqlkeeper.specs.Sparing.{Spares};
ghost use Rattle.sqlkeeper.specs.Versions.{IsOfficeFile, IsRefusedFile};

mod rolling;

use crate::applying::{apply_change, apply_in_group};
use crate::asking::{Question, ask_in};
use crate::creating::create;
use crate::emptying::empty_file;
use crate::grouping::{Group, begin, commit};
use crate::questions::{
    BoxOf, Clerks, FileOf, HasBytes, HasLimit, KeyOf, MayUse, NextNumber, ReceiptOf, Receipts,
    Settings, TotalsOf,
};
use crate::upgrading::upgrade_file;
use boxes::{
    BoxRow, Change, FileRow, KeepFault, Keeper, KeyRow, OfficeRow, ReceiptRow, Totals,
    law_of_changes,
};
use shelf::has_room;
use sqlaudit::opening::{Finding, Found, find, find_either};
use sqlite::{Alter, Connection, ErrorCode};
use sqlite_schema::schema::Schema;
use sqltables::staging::Pieces;
use std::alloc::Global;
use std::{mem, str};
use thiserror::Error;

/// Keeps an office in a file, through a connection to it. It counts the calls that fail.
#[derive(Drop)]
pub struct SqlKeeper<S: Alter> {
    conn: Connection<S>,
    // The staged bytes. They are in no table.
    staged: Pieces,
    faults: u64,
    group: Group,
    alloc: Global,
}

// Why a call of the file failed.
fn fault_of(error: sqlite::Error) -> KeepFault
    ensures { result ≢ KeepFault.Full }
{
    match error {
        sqlite::Error::SqliteFailure(ErrorCode::OutOfMemory) => KeepFault::Memory,
        _ => KeepFault::Store,
    }
}

/// Why an office file could not be made or opened.
#[derive(Clone, Copy, Debug, PartialEq, Eq, Error)]
pub enum OpenFault {
    /// A table, an index or a view exists already.
    #[error("the office file exists already")]
    Exists,
    /// An allocation was refused.
    #[error("out of memory")]
    Memory,
    /// The tables are not those of an office, or the office breaks a rule.
    #[error("the office file is damaged")]
    Shape,
    /// The store refused.
    #[error("the store refused")]
    Store,
    /// The office has another version.
    #[error("the office file has another version")]
    Version,
}

// Why an office file could not be made or read.
fn open_fault_of(error: sqlite::Error) -> OpenFault
    ensures made { result ≢ OpenFault.Exists }
    ensures version { result ≢ OpenFault.Version }
    ensures shape { result ≢ OpenFault.Shape }
{
    match fault_of(error) {
        KeepFault::Memory => OpenFault::Memory,
        _ => OpenFault::Store,
    }
}

// Whether the database is empty.
fn is_empty(schema: &Schema) -> bool
    ensures { IsTrue result ↔ schema.now ≡ s0 }
{
    schema.tables.is_empty() && schema.indexes.is_empty() && schema.views.is_empty()
}

// The file's answer. An error is counted.
fn counted<T>(faults: &mut u64, answer: Result<T, sqlite::Error>) -> Result<T, KeepFault>
    ensures value { IfOk result (λ value. answer ≡ Ok value) }
    ensures fault { IfErr result (λ f. IsErr answer) }
    ensures count { CountsErrors faults.old faults.new result }
    ensures room { IfErr result (λ f. f ≢ KeepFault.Full) }
{
    match answer {
        Ok(value) => Ok(value),
        Err(error) => {
            *faults = faults.saturating_add(1);
            Err(fault_of(error))
        }
    }
}

// Whether the change adds a receipt for which there is no room.
fn is_past_full(change: &Change<'_>) -> bool
    ensures { (s after : State) → MayChange s change.now after
        → (IsTrue result ↔ IsPastFull s change.now) }
{
    match change {
        Change::SetFile(file) => !has_room(file.number),
        Change::Desk(_) => false,
    }
}

// After a change that sets a file nothing is staged, whether or not the change was made.
fn unstage(staged: &mut Pieces, alloc: Global, change: &Change<'_>)
    ensures empty { TakesStaged change.now → held staged.new ≡ [] }
    ensures kept { (TakesStaged change.now → ⊥) → staged.new ≡ staged.old }
{
    match change {
        Change::SetFile(_) => *staged = Pieces::new(alloc),
        Change::Desk(_) => {}
    }
}

impl<S: Alter> SqlKeeper<S> {
    /// Makes an office file in an empty database: a new office with one clerk's key, which has this id and secret. This is
    /// done in one transaction.
    ///
    /// # Errors
    ///
    /// The fault, with the connection as it is then. `Exists` is returned exactly if a table, an index or a view exists; then
    /// nothing was attempted. After any other fault, a database that was empty is still empty.
    pub fn create(
        alloc: Global,
        mut conn: Connection<S>,
        office: OfficeRow,
        id: &[u8],
        secret: &[u8],
    ) -> Result<SqlKeeper<S>, (OpenFault, Connection<S>)>
        ensures made { neg_ℤ (pos 840) ≤ℤ office.east → office.east ≤ℤ pos 840 → IsKeyId id.now
            → IsSecret secret.now
            → IfOk result (λ k. ⟦<SqlKeeper<S> as Keeper>⟧.means k
            (first_state office.east office.allowance id.now secret.now)) }
        ensures honest { IfOk result (λ k. HasCleanDisk (state S.Store k.conn)
            → ⟦<SqlKeeper<S> as Keeper>⟧.is_honest k) }
        ensures early { IfOk result (λ k. HasCleanDisk (state S.Store k.conn)
            → HasCleanDisk (state S.Store conn)) }
        ensures bare { IfOk result (λ k. (state S.Store conn).now.schema ≡ s0) }
        ensures opened { IfOk result (λ k. ⟦<SqlKeeper<S> as Keeper>⟧.is_honest k
            → ⟦<SqlKeeper<S> as Keeper>⟧.is_open k) }
        ensures emptied { IfOk result (λ k. ⟦<SqlKeeper<S> as Keeper>⟧.is_honest k
            → NoneStaged (state S.Store k.conn).now.trees) }
        ensures staged { IfOk result (λ k. ⟦<SqlKeeper<S> as Keeper>⟧.stages k []) }
        ensures none { IfOk result (λ k. ⟦<SqlKeeper<S> as Keeper>⟧.faults k ≡ 0) }
        ensures alone { IfOk result (λ k. ⟦<SqlKeeper<S> as Keeper>⟧.is_alone k) }
        ensures durable { neg_ℤ (pos 840) ≤ℤ office.east → office.east ≤ℤ pos 840 → IsKeyId id.now
            → IsSecret secret.now
            → IfOk result (λ k. ⟦<SqlKeeper<S> as Keeper>⟧.is_honest k
            → LeavesAlone ⟦<SqlKeeper<S> as Keeper>⟧.leaves ⟦<SqlKeeper<S> as Keeper>⟧.leaves_whole
            k (first_state office.east office.allowance id.now secret.now)) }
        ensures crash { IfErr result (λ e. AddsOnly v2 (state S.Store conn) (state S.Store e.1)
            (first_state office.east office.allowance id.now secret.now)) }
        ensures exists { (state S.Store conn).now.schema ≢ s0
            → IfErr result (λ e. e.0 ≡ OpenFault.Exists) × IsErr result }
        ensures told { IfErr result (λ e. e.0 ≡ OpenFault.Exists
            → (state S.Store conn).now.schema ≢ s0) }
        ensures untouched { IfErr result (λ e. e.0 ≡ OpenFault.Exists → e.1 ≡ conn) }
        ensures kept { IsBare (state S.Store conn)
            → IfErr result (λ e. IsBare (state S.Store e.1)) }
        ensures spares { neg_ℤ (pos 840) ≤ℤ office.east → office.east ≤ℤ pos 840 → IsKeyId id.now
            → IsSecret secret.now
            → IfErr result (λ e. Spares (state S.Store conn) (state S.Store e.1)
            (λ t. ((state S.Store conn).now.schema ≡ s0)
            × (t ≡ first_state office.east office.allowance id.now secret.now))) }
    {
        if !is_empty(conn.schema()) {
            return Err((OpenFault::Exists, conn));
        }
        if !conn.is_autocommit() {
            return Err((OpenFault::Store, conn));
        }
        // An allowance is within its range; this call establishes it.
        let _ = office.allowance.seconds();
        let Ok(id) = str::from_utf8(id) else {
            return Err((OpenFault::Store, conn));
        };
        match create(&mut conn, office.east, office.allowance, id, secret) {
            Ok(()) => Ok(SqlKeeper {
                conn,
                staged: Pieces::new(alloc),
                faults: 0,
                group: Group::Alone,
                alloc,
            }),
            Err(error) => Err((open_fault_of(error), conn)),
        }
    }

    /// Opens an office file if its tables are those of an office that obeys every rule. The keeper then means the state of that
    /// office. An opened file has exactly the tables of an office, by their names and the number of their columns.
    /// What another program left staged is deleted, in one transaction. Nothing else is written: a file that has nothing
    /// staged is unchanged, and so is a refused file.
    ///
    /// # Errors
    ///
    /// The fault, with the connection as it is then. `Version` is returned if the row of the office says another version,
    /// whatever else is broken; `Shape` if the tables are not those of an office that obeys every rule. Then nothing was
    /// attempted. After any other fault, too, the office is unchanged.
    pub fn open(
        alloc: Global,
        mut conn: Connection<S>,
    ) -> Result<SqlKeeper<S>, (OpenFault, Connection<S>)>
        ensures accepts { HasOurs (state S.Store conn)
            → IfOk result (λ k. ⟦<SqlKeeper<S> as Keeper>⟧.is_honest k
            → (s : State) × KeepsState (state S.Store conn) s
            × ⟦<SqlKeeper<S> as Keeper>⟧.means k s) }
        ensures means { (s : State) → KeepsState (state S.Store conn) s
            → IfOk result (λ k. ⟦<SqlKeeper<S> as Keeper>⟧.means k s) }
        ensures named { IfOk result (λ k. AreNamed (state S.Store conn).now.schema) }
        ensures same { HasOurs (state S.Store conn)
            → IfOk result (λ k. EmptiesStaged (state S.Store conn) (state S.Store k.conn)) }
        ensures spared { HasOurs (state S.Store conn) → HasNoneStaged (state S.Store conn)
            → IfOk result (λ k. LeavesUntouched (state S.Store conn) (state S.Store k.conn)) }
        ensures emptied { HasOurs (state S.Store conn)
            → IfOk result (λ k. ⟦<SqlKeeper<S> as Keeper>⟧.is_honest k
            → NoneStaged (state S.Store k.conn).now.trees) }
        ensures honest { IfOk result (λ k. HasCleanDisk (state S.Store k.conn)
            → ⟦<SqlKeeper<S> as Keeper>⟧.is_honest k) }
        ensures opened { IfOk result (λ k. ⟦<SqlKeeper<S> as Keeper>⟧.is_honest k
            → ⟦<SqlKeeper<S> as Keeper>⟧.is_open k) }
        ensures staged { IfOk result (λ k. ⟦<SqlKeeper<S> as Keeper>⟧.stages k []) }
        ensures none { IfOk result (λ k. ⟦<SqlKeeper<S> as Keeper>⟧.faults k ≡ 0) }
        ensures alone { IfOk result (λ k. ⟦<SqlKeeper<S> as Keeper>⟧.is_alone k) }
        ensures durable { IfOk result (λ k. ⟦<SqlKeeper<S> as Keeper>⟧.is_honest k → (s : State)
            → ⟦<SqlKeeper<S> as Keeper>⟧.means k s
            → LeavesAlone ⟦<SqlKeeper<S> as Keeper>⟧.leaves ⟦<SqlKeeper<S> as Keeper>⟧.leaves_whole
            k s) }
        ensures crash { HasOurs (state S.Store conn) → IfOk result (λ k. (s : State)
            → ⟦<SqlKeeper<S> as Keeper>⟧.means k s
            → AddsOnly v2 (state S.Store conn) (state S.Store k.conn) s) }
        ensures version { HasOurs (state S.Store conn) → IfErr result (λ e. e.0 ≡ OpenFault.Version
            → HasCleanDisk (state S.Store e.1) → IsTrue (state S.Store conn).is_open
            → IsFound v2 Finding.OtherVersion (state S.Store conn).now) }
        ensures shape { HasOurs (state S.Store conn) → IfErr result (λ e. e.0 ≡ OpenFault.Shape
            → HasCleanDisk (state S.Store e.1) → IsTrue (state S.Store conn).is_open
            → IsFound v2 Finding.Damaged (state S.Store conn).now) }
        ensures told { IfErr result (λ e. e.0 ≢ OpenFault.Exists) }
        ensures kept { IfErr result (λ e. OnlyLooks (state S.Store conn) (state S.Store e.1)) }
        ensures failed { (s : State) → KeepsState (state S.Store conn) s
            → IfErr result (λ e. AddsOnly v2 (state S.Store conn) (state S.Store e.1) s) }
        ensures untouched { (AreNamed (state S.Store conn).now.schema → ⊥)
            → IfErr result (λ e. LeavesUntouched (state S.Store conn) (state S.Store e.1)) }
        ensures others { HasOurs (state S.Store conn)
            → ((s : State) → KeepsState (state S.Store conn) s → ⊥)
            → IfErr result (λ e. LeavesUntouched (state S.Store conn) (state S.Store e.1)) }
        ensures unharmed { IfErr result (λ e. IsRefusedFile e.0
            → LeavesUntouched (state S.Store conn) (state S.Store e.1)) }
        ensures idle { HasOurs (state S.Store conn) → HasNoneStaged (state S.Store conn)
            → IfErr result (λ e. LeavesUntouched (state S.Store conn) (state S.Store e.1)) }
        ensures spares { HasOurs (state S.Store conn)
            → IfErr result (λ e. Spares (state S.Store conn) (state S.Store e.1)
            (KeepsState (state S.Store conn))) }
    {
        match find(&mut conn, alloc) {
            Ok(Finding::Sound) => match empty_file(&mut conn) {
                Ok(()) => Ok(SqlKeeper {
                    conn,
                    staged: Pieces::new(alloc),
                    faults: 0,
                    group: Group::Alone,
                    alloc,
                }),
                Err(error) => Err((open_fault_of(error), conn)),
            },
            Ok(Finding::OtherVersion) => Err((OpenFault::Version, conn)),
            Ok(Finding::Damaged) => Err((OpenFault::Shape, conn)),
            Err(error) => Err((open_fault_of(error), conn)),
        }
    }

    /// Upgrades an office file from version 1 to version 2, in one transaction. The state is the same, with no allowance and
    /// no limits. A file of version 2 is opened as by `open`.
    ///
    /// # Errors
    ///
    /// The fault, with the connection as it is then. `Version` is returned if the row of the office says a version that is
    /// neither 1 nor 2, and `Shape` if the tables are not those of an office that obeys every rule; then nothing was
    /// attempted. After any other fault, too, the office is unchanged.
    pub fn migrate(
        alloc: Global,
        mut conn: Connection<S>,
    ) -> Result<SqlKeeper<S>, (OpenFault, Connection<S>)>
        ensures means { (s : State) → IsOfficeFile (state S.Store conn) s
            → IfOk result (λ k. ⟦<SqlKeeper<S> as Keeper>⟧.means k s) }
        ensures accepts { HasOurs (state S.Store conn)
            → IfOk result (λ k. ⟦<SqlKeeper<S> as Keeper>⟧.is_honest k
            → (s : State) × IsOfficeFile (state S.Store conn) s
            × ⟦<SqlKeeper<S> as Keeper>⟧.means k s) }
        ensures early { IfOk result (λ k. HasCleanDisk (state S.Store k.conn)
            → HasCleanDisk (state S.Store conn)) }
        ensures named { IfOk result (λ k. ⟦<SqlKeeper<S> as Keeper>⟧.is_honest k
            → AreFirstNamed (state S.Store conn).now.schema
            ⊎ AreNamed (state S.Store conn).now.schema) }
        ensures same { HasOurs (state S.Store conn)
            → (AreFirstNamed (state S.Store conn).now.schema → ⊥)
            → IfOk result (λ k. EmptiesStaged (state S.Store conn) (state S.Store k.conn)) }
        ensures spared { HasOurs (state S.Store conn) → HasNoneStaged (state S.Store conn)
            → (AreFirstNamed (state S.Store conn).now.schema → ⊥)
            → IfOk result (λ k. LeavesUntouched (state S.Store conn) (state S.Store k.conn)) }
        ensures emptied { HasOurs (state S.Store conn)
            → IfOk result (λ k. ⟦<SqlKeeper<S> as Keeper>⟧.is_honest k
            → NoneStaged (state S.Store k.conn).now.trees) }
        ensures honest { IfOk result (λ k. HasCleanDisk (state S.Store k.conn)
            → ⟦<SqlKeeper<S> as Keeper>⟧.is_honest k) }
        ensures opened { IfOk result (λ k. ⟦<SqlKeeper<S> as Keeper>⟧.is_honest k
            → ⟦<SqlKeeper<S> as Keeper>⟧.is_open k) }
        ensures staged { IfOk result (λ k. ⟦<SqlKeeper<S> as Keeper>⟧.stages k []) }
        ensures none { IfOk result (λ k. ⟦<SqlKeeper<S> as Keeper>⟧.faults k ≡ 0) }
        ensures alone { IfOk result (λ k. ⟦<SqlKeeper<S> as Keeper>⟧.is_alone k) }
        ensures durable { IfOk result (λ k. ⟦<SqlKeeper<S> as Keeper>⟧.is_honest k → (s : State)
            → ⟦<SqlKeeper<S> as Keeper>⟧.means k s
            → LeavesAlone ⟦<SqlKeeper<S> as Keeper>⟧.leaves ⟦<SqlKeeper<S> as Keeper>⟧.leaves_whole
            k s) }
        ensures version { HasOurs (state S.Store conn) → IfErr result (λ e. e.0 ≡ OpenFault.Version
            → HasCleanDisk (state S.Store e.1) → IsTrue (state S.Store conn).is_open
            → IsEither Found.OtherVersion (state S.Store conn).now) }
        ensures shape { HasOurs (state S.Store conn) → IfErr result (λ e. e.0 ≡ OpenFault.Shape
            → HasCleanDisk (state S.Store e.1) → IsTrue (state S.Store conn).is_open
            → IsEither Found.Damaged (state S.Store conn).now) }
        ensures told { IfErr result (λ e. e.0 ≢ OpenFault.Exists) }
        ensures kept { IfErr result (λ e. OnlyLooks (state S.Store conn) (state S.Store e.1)) }
        ensures crash { (s : State) → IsOfficeFile (state S.Store conn) s
            → IfErr result (λ e. AddsOnly v2 (state S.Store conn) (state S.Store e.1) s) }
        ensures untouched { (AreFirstNamed (state S.Store conn).now.schema → ⊥)
            → (AreNamed (state S.Store conn).now.schema → ⊥)
            → IfErr result (λ e. LeavesUntouched (state S.Store conn) (state S.Store e.1)) }
        ensures others { HasOurs (state S.Store conn)
            → ((s : State) → IsOfficeFile (state S.Store conn) s → ⊥)
            → IfErr result (λ e. LeavesUntouched (state S.Store conn) (state S.Store e.1)) }
        ensures unharmed { IfErr result (λ e. IsRefusedFile e.0
            → LeavesUntouched (state S.Store conn) (state S.Store e.1)) }
        ensures idle { HasOurs (state S.Store conn) → HasNoneStaged (state S.Store conn)
            → (AreFirstNamed (state S.Store conn).now.schema → ⊥)
            → IfErr result (λ e. LeavesUntouched (state S.Store conn) (state S.Store e.1)) }
        ensures spares { HasOurs (state S.Store conn)
            → IfErr result (λ e. Spares (state S.Store conn) (state S.Store e.1)
            (IsOfficeFile (state S.Store conn))) }
    {
        match find_either(&mut conn, alloc) {
            Ok(Found::Second) => match empty_file(&mut conn) {
                Ok(()) => Ok(SqlKeeper {
                    conn,
                    staged: Pieces::new(alloc),
                    faults: 0,
                    group: Group::Alone,
                    alloc,
                }),
                Err(error) => Err((open_fault_of(error), conn)),
            },
            Ok(Found::First) => match upgrade_file(&mut conn) {
                Ok(()) => Ok(SqlKeeper {
                    conn,
                    staged: Pieces::new(alloc),
                    faults: 0,
                    group: Group::Alone,
                    alloc,
                }),
                Err(error) => Err((open_fault_of(error), conn)),
            },
            Ok(Found::OtherVersion) => Err((OpenFault::Version, conn)),
            Ok(Found::Damaged) => Err((OpenFault::Shape, conn)),
            Err(error) => Err((open_fault_of(error), conn)),
        }
    }

    /// Returns the connection as it is. Outside a group the keeper and the connection mean the same state, and a crash leaves the
    /// same for both.
    pub fn close(self) -> Connection<S>
        ensures same { result ≡ self.conn }
        ensures honest { ⟦<SqlKeeper<S> as Keeper>⟧.is_honest self
            ↔ HasCleanDisk (state S.Store result) }
        ensures opened { ⟦<SqlKeeper<S> as Keeper>⟧.is_alone self
            → (⟦<SqlKeeper<S> as Keeper>⟧.is_open self ↔ IsTrue (state S.Store result).is_open) }
        ensures means { ⟦<SqlKeeper<S> as Keeper>⟧.is_alone self → (s : State)
            → (⟦<SqlKeeper<S> as Keeper>⟧.means self s ↔ KeepsState (state S.Store result) s) }
        ensures leaves { ⟦<SqlKeeper<S> as Keeper>⟧.is_alone self → (s : State)
            → (⟦<SqlKeeper<S> as Keeper>⟧.leaves self s ↔ MayLeave (state S.Store result) s) }
        ensures whole { ⟦<SqlKeeper<S> as Keeper>⟧.is_alone self
            → (⟦<SqlKeeper<S> as Keeper>⟧.leaves_whole self ↔ LeavesStates (state S.Store result)) }
        ensures rests { (s : State) → (⟦<SqlKeeper<S> as Keeper>⟧.rests self s
            ↔ MayLeave (state S.Store result) s) }
        ensures rests_whole { ⟦<SqlKeeper<S> as Keeper>⟧.rests_whole self
            ↔ LeavesStates (state S.Store result) }
    {
        let SqlKeeper {
            conn,
            staged: _,
            faults: _,
            group: _,
            alloc: _,
        } = self;
        conn
    }
}

impl<S: Alter> SqlKeeper<S> {
    ghost use Rattle.boxes.specs.Bound.{StaysBy};
    ghost use Rattle.boxes.specs.Keeping.{Answers};

    // The file's answer to this question. An error is counted.
    fn answer<Q: Question>(&mut self, question: &Q) -> Result<Q::Answer, KeepFault>
        ensures value { Answers ⟦<SqlKeeper<S> as Keeper>⟧.means ⟦<SqlKeeper<S> as Keeper>⟧.is_honest
            self.old self.new result (Q.says question.now) }
        ensures rest { StaysBy ⟦<SqlKeeper<S> as Keeper>⟧ self.old self.new result }
        ensures staged { self.new.staged ≡ self.old.staged }
    {
        let answer = ask_in(&mut self.conn, self.group, question);
        counted(&mut self.faults, answer)
    }

    // Makes the change in a transaction of its own, or in that of the group.
    fn make(&mut self, change: &Change<'_>) -> Result<(), sqlite::Error>
        ensures made { (s after : State) → MeansIn self.old.group (state S.Store self.old.conn) s → IsSound s
            → IsChangeOf (λ bytes. held self.old.staged ≡ bytes) s change.now after → IsSound after
            → OnOk result (MeansIn self.new.group (state S.Store self.new.conn) after) }
        ensures same { (s : State) → MeansIn self.old.group (state S.Store self.old.conn) s
            → OnErr result (MeansIn self.new.group (state S.Store self.new.conn) s) }
        ensures honest { HasCleanDisk (state S.Store self.new.conn) → HasCleanDisk (state S.Store self.old.conn) }
        ensures opened { HasCleanDisk (state S.Store self.new.conn)
            → OnOk result (IsOpenIn self.new.group (state S.Store self.new.conn)) }
        ensures durable { (s after : State) → MeansIn self.old.group (state S.Store self.old.conn) s → IsSound s
            → IsChangeOf (λ bytes. held self.old.staged ≡ bytes) s change.now after → IsSound after
            → HasCleanDisk (state S.Store self.new.conn)
            → OnOk result (LeavesOnlyIn self.new.group (state S.Store self.new.conn) after) }
        ensures crash { (s after : State) → MeansIn self.old.group (state S.Store self.old.conn) s → IsSound s
            → IsChangeOf (λ bytes. held self.old.staged ≡ bytes) s change.now after → IsSound after
            → HasCleanDisk (state S.Store self.new.conn)
            → OnErr result (LeavesOneIn self.old.group (state S.Store self.old.conn)
            self.new.group (state S.Store self.new.conn) s after) }
        ensures group { KeepsGroup ⟦<SqlKeeper<S> as Keeper>⟧.is_alone ⟦<SqlKeeper<S> as Keeper>⟧.gathers
            self.old self.new }
        ensures rest { (self.new.staged ≡ self.old.staged) × (self.new.faults ≡ self.old.faults)
            × (self.new.alloc ≡ self.old.alloc) }
    {
        match self.group {
            Group::Alone => apply_change(&mut self.conn, change, &self.staged),
            Group::Begun => apply_in_group(&mut self.conn, change, &self.staged),
            Group::Idle => {
                begin(&mut self.conn)?;
                self.group = Group::Begun;
                apply_in_group(&mut self.conn, change, &self.staged)
            }
        }
    }
}

impl<S: Alter> Keeper for SqlKeeper<S> {
    ghost use Rattle.sqlkeeper.specs.declared.grouping.Group.TheVariants.{Alone};

    ghost means = { λ k. MeansIn k.group (state S.Store k.conn) };

    ghost stages = { λ k b. held k.staged ≡ b };

    ghost is_honest = { λ k. HasCleanDisk (state S.Store k.conn) };

    ghost is_open = { λ k. IsOpenIn k.group (state S.Store k.conn) };

    ghost faults = { λ k. k.faults };

    ghost leaves = { λ k. LeavesIn k.group (state S.Store k.conn) };

    ghost leaves_whole = { λ k. LeavesStatesIn k.group (state S.Store k.conn) };

    ghost rests = { λ k. MayLeave (state S.Store k.conn) };

    ghost rests_whole = { λ k. LeavesStates (state S.Store k.conn) };

    ghost is_alone = { λ k. k.group ≡ Alone };

    ghost gathers = { λ first k. (first.group ≡ Alone) × (k.group ≢ Alone)
        × IsGrouped (state S.Store first.conn) k.group (state S.Store k.conn) };

    ghost has_store = { ⊤ };

    fn settings(&mut self) -> Result<OfficeRow, KeepFault> {
        self.answer(&Settings)
    }

    fn key(&mut self, id: &[u8]) -> Result<Option<KeyRow>, KeepFault> {
        let Ok(id) = str::from_utf8(id) else {
            return Ok(None);
        };
        self.answer(&KeyOf { id })
    }

    fn may_use(&mut self, id: &[u8], in_box: &[u8]) -> Result<bool, KeepFault> {
        let Ok(id) = str::from_utf8(id) else {
            return Ok(true);
        };
        self.answer(&MayUse { id, in_box })
    }

    fn has_limit(&mut self, id: &[u8], in_box: &[u8]) -> Result<bool, KeepFault> {
        let Ok(id) = str::from_utf8(id) else {
            return Ok(false);
        };
        self.answer(&HasLimit { id, in_box })
    }

    fn box_row(&mut self, name: &[u8]) -> Result<Option<BoxRow>, KeepFault> {
        let Ok(name) = str::from_utf8(name) else {
            return Ok(None);
        };
        self.answer(&BoxOf { name })
    }

    fn file(&mut self, in_box: &[u8], name: &[u8]) -> Result<Option<FileRow>, KeepFault> {
        let Ok(in_box) = str::from_utf8(in_box) else {
            return Ok(None);
        };
        let Ok(name) = str::from_utf8(name) else {
            return Ok(None);
        };
        let alloc = self.alloc;
        self.answer(&FileOf {
            alloc,
            in_box,
            name,
        })
    }

    fn file_receipt(
        &mut self,
        in_box: &[u8],
        name: &[u8],
    ) -> Result<Option<ReceiptRow>, KeepFault> {
        let Ok(in_box) = str::from_utf8(in_box) else {
            return Ok(None);
        };
        let Ok(name) = str::from_utf8(name) else {
            return Ok(None);
        };
        self.answer(&ReceiptOf { in_box, name })
    }

    fn sizes(&mut self, in_box: &[u8]) -> Result<Totals, KeepFault> {
        let Ok(name) = str::from_utf8(in_box) else {
            return Ok(Totals { used: 0, count: 0 });
        };
        self.answer(&TotalsOf { name })
    }

    fn clerks(&mut self) -> Result<u64, KeepFault> {
        let alloc = self.alloc;
        self.answer(&Clerks { alloc })
    }

    fn next_number(&mut self) -> Result<u64, KeepFault> {
        self.answer(&NextNumber)
    }

    fn receipts(&mut self, from: u64, most: usize) -> Result<Vec<ReceiptRow>, KeepFault> {
        let alloc = self.alloc;
        self.answer(&Receipts { alloc, from, most })
    }

    fn stage_begin(&mut self) -> Result<(), KeepFault> {
        self.staged = Pieces::new(self.alloc);
        Ok(())
    }

    fn stage(&mut self, bytes: &[u8]) -> Result<(), KeepFault> {
        if self.staged.push(bytes).is_err() {
            self.faults = self.faults.saturating_add(1);
            return Err(KeepFault::Memory);
        }
        Ok(())
    }

    fn staged_equals(&mut self, in_box: &[u8], name: &[u8]) -> Result<bool, KeepFault> {
        let Ok(in_box) = str::from_utf8(in_box) else {
            return Ok(false);
        };
        let Ok(name) = str::from_utf8(name) else {
            return Ok(false);
        };
        let question = HasBytes {
            in_box,
            name,
            bytes: &self.staged,
        };
        let answer = ask_in(&mut self.conn, self.group, &question);
        counted(&mut self.faults, answer)
    }

    fn stage_take(&mut self) -> Vec<u8> {
        mem::replace(&mut self.staged, Pieces::new(self.alloc)).into_bytes()
    }

    fn stage_put(&mut self, bytes: Vec<u8>) {
        self.staged = Pieces::of(bytes);
    }

    fn stage_drop(&mut self) -> Result<(), KeepFault> {
        self.staged = Pieces::new(self.alloc);
        Ok(())
    }

    fn apply(&mut self, change: &Change<'_>) -> Result<(), KeepFault> {
        if is_past_full(change) {
            self.staged = Pieces::new(self.alloc);
            self.faults = self.faults.saturating_add(1);
            return Err(KeepFault::Full);
        }
        law_of_changes();
        let made = self.make(change);
        let answer = counted(&mut self.faults, made);
        unstage(&mut self.staged, self.alloc, change);
        answer
    }

    fn gather(&mut self) {
        if matches!(self.group, Group::Alone) {
            self.group = Group::Idle;
        }
    }

    fn settle(&mut self) -> Result<(), KeepFault> {
        match mem::replace(&mut self.group, Group::Alone) {
            Group::Alone | Group::Idle => Ok(()),
            Group::Begun => counted(&mut self.faults, commit(&mut self.conn)),
        }
    }

    ghost one = { λ k s t honest opened a b. one_in k.group _ s t honest opened a b };

    ghost one_staged = { λ k a b honest opened x y. one_text (held k.staged) a b x y };

    ghost always = { λ none k. absurd (none tt) };

    ghost settled = { λ k alone. record { same = λ t. leaves_alone k.group _ t alone; whole = states_alone k.group _ alone } };

    ghost lost = { λ store first k s in_group honest meant. record {
      either = loses first.group _ k.group _ s in_group.0 in_group.2 honest meant;
      whole = loses_whole first.group _ k.group _ s in_group.0 in_group.2 honest meant;
    } };
}
