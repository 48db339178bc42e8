//! Office files on disks in memory: a day over them, and requests with one refused call.
use crate::days::a_day;
use boxes::Keeper;
use office::Office;
use shelf::Shelf;
use sqlite::{Alter, Connection, FileStore, Files, Options};
use sqlite_disk::{Disk, Memory};
use sqlkeeper::SqlKeeper;
use std::alloc::Global;
use std::test::Fail;
use trials::boxed::office_row;
use trials::errands::{ERRANDS, Errand, begin, set_file};
use trials::published::{ID, SECRET};
use trials::telling::{holds, told};

// A trial of a new office file. It does not name the keeper, and only `try_in_memory` names the type of its disks. To check a
// function that names a store takes twenty times as long as to check a generic one.
trait OfficeTrial {
    // Runs the trial. Whether it came to its end.
    fn run<K: Keeper + Drop>(self, office: Office<K>) -> Result<bool, Fail>;
}

// The value of a result, or its error without what it leaves.
fn value_or_fail<T: Drop, E: Into<Fail> + Drop, L: Drop>(
    tried: Result<T, (E, L)>,
) -> Result<T, Fail> {
    match tried {
        Ok(value) => Ok(value),
        Err((error, _)) => Err(error.into()),
    }
}

// Connects to empty files.
fn connect<D: Disk + Drop>(
    alloc: Global,
    files: Files<D>,
) -> Result<Connection<FileStore<D>>, Fail> {
    if !files.may_be_used() {
        return Err("no disk".into());
    }
    value_or_fail(Connection::open_files(alloc, files, Options::new(7)))
}

// A new office with only the clerk's key.
fn begun<S: Alter + Drop>(
    alloc: Global,
    conn: Connection<S>,
) -> Result<Office<SqlKeeper<S>>, Fail> {
    let keeper = value_or_fail(SqlKeeper::create(alloc, conn, office_row(0), ID, SECRET))?;
    Ok(Office::new(alloc, keeper))
}

// Runs a trial of a new office over this connection.
fn try_over<S: Alter + Drop, T: OfficeTrial + Drop>(
    alloc: Global,
    conn: Connection<S>,
    trial: T,
) -> Result<bool, Fail> {
    trial.run(begun(alloc, conn)?)
}

// Runs a trial of a new office in these files.
fn try_in<D: Disk + Drop, T: OfficeTrial + Drop>(
    alloc: Global,
    files: Files<D>,
    trial: T,
) -> Result<bool, Fail> {
    try_over(alloc, connect(alloc, files)?, trial)
}

// Runs a trial of a new office file in memory.
fn try_in_memory<T: OfficeTrial + Drop>(alloc: Global, trial: T) -> Result<bool, Fail> {
    let files = Files {
        log: Memory::new(alloc),
        db: Memory::new(alloc),
    };
    try_in(alloc, files, trial)
}

// A day with each of two keepers, which then answer the same.
fn spend_a_day<K: Keeper, L: Keeper>(
    alloc: Global,
    one: &mut K,
    other: &mut L,
) -> Result<(), Fail> {
    a_day(one)?;
    a_day(other)?;
    let same = told(alloc, one)? == told(alloc, other)?;
    holds(same, "another day")
}

// A day in an office, which then answers as the keeper in memory.
#[derive(Drop)]
struct DayTrial;

impl OfficeTrial for DayTrial {
    fn run<K: Keeper + Drop>(self, mut office: Office<K>) -> Result<bool, Fail> {
        let alloc = office.alloc;
        let mut shelf = Shelf::new(alloc, office_row(0), ID, SECRET)?;
        spend_a_day(alloc, &mut shelf, &mut office.keeper)?;
        Ok(true)
    }
}

// Sets two files, in a group where this is asked. Each change sees the one before.
fn set_two<K: Keeper>(keeper: &mut K, in_group: bool) -> Result<(), Fail> {
    if in_group {
        keeper.gather();
    }
    let first = set_file(keeper, b"a", b"one")?;
    let second = set_file(keeper, b"b", b"two")?;
    holds(second == first.saturating_add(1), "another number")?;
    keeper.settle()?;
    Ok(())
}

// Two files that are set in a group, and a group without a change. Then the office answers as the keeper in memory, which set
// them one by one.
#[derive(Drop)]
struct GroupTrial;

impl OfficeTrial for GroupTrial {
    fn run<K: Keeper + Drop>(self, mut office: Office<K>) -> Result<bool, Fail> {
        let alloc = office.alloc;
        let mut shelf = Shelf::new(alloc, office_row(0), ID, SECRET)?;
        begin(&mut shelf)?;
        begin(&mut office.keeper)?;
        set_two(&mut shelf, false)?;
        set_two(&mut office.keeper, true)?;
        office.keeper.gather();
        office.keeper.settle()?;
        let same = told(alloc, &mut shelf)? == told(alloc, &mut office.keeper)?;
        holds(same, "another office after a group")?;
        Ok(true)
    }
}

// A request with one refused call. It came to its end if it makes fewer calls.
#[derive(Drop)]
struct CallTrial {
    errand: Errand,
    call: u64,
}

impl OfficeTrial for CallTrial {
    fn run<K: Keeper + Drop>(self, office: Office<K>) -> Result<bool, Fail> {
        let Office { keeper, alloc, .. } = office;
        Ok(!self.errand.is_refused_at(alloc, keeper, self.call)?)
    }
}

#[test]
fn a_day_is_the_same_in_both_keepers(rt: HostRuntime) -> Result<(), Fail> {
    try_in_memory(rt.alloc(), DayTrial)?;
    Ok(())
}

#[test]
fn a_group_is_kept_as_single_changes_are(rt: HostRuntime) -> Result<(), Fail> {
    try_in_memory(rt.alloc(), GroupTrial)?;
    Ok(())
}

// Refuses each call of an errand in turn. Returns the number of calls.
fn calls_of(alloc: Global, errand: Errand) -> Result<u64, Fail> {
    for call in 1..20u64 {
        if try_in_memory(alloc, CallTrial { errand, call })? {
            return Ok(call - 1);
        }
    }
    Err("calls without end".into())
}

#[test]
fn each_call_is_refused_in_turn(rt: HostRuntime) -> Result<(), Fail> {
    let mut refused = 0u64;
    for errand in ERRANDS {
        let calls = calls_of(rt.alloc(), errand)?;
        // At least the query for the key, and the change.
        assert!(rt; calls >= 2, "{errand:?}");
        refused = refused.saturating_add(calls);
    }
    println!(rt; "{refused} refused")?;
    Ok(())
}
