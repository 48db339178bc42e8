//! The office file of a command: its connection, and the end of the command's work.
ghost use Rattle.std.specs.Prelude.{◌≡◌, ◌≢◌, ◌⊎◌, IfErr, IfOk, IsOk};
ghost use Rattle.sqlite.specs.State.{HasCleanDisk};
ghost use Rattle.sqlite.specs.Files.{file_state, IsOpened};
ghost use Rattle.sqlite.specs.Start.{FindsIn};
ghost use Rattle.sqlite.specs.WalFiles.{image_at};
ghost use Rattle.boxes.specs.State.{State};
ghost use Rattle.sqltables.specs.Kept.{KeepsState, LeavesStates};
ghost use Rattle.dropoffice.specs.Leaving.{IsCleanLeft, IsClosed, IsLeftOf, IsLooked, IsSpared, LeavesOffice, MayCrashTo};
ghost use Rattle.dropoffice.specs.Performing.{MayRun};
ghost use Rattle.dropoffice.specs.Holding.{HoldsOurs};

use crate::file_work::{Opened, work_in};
use crate::files::{Purpose, require_file};
use crate::left::{FileLeft, Left, Worked, ended_with};
use commands::{Fault, OfficeWork};
use sqlite::{Connection, Error, ErrorCode, FileFrom, FileStore, Files, Leftover, Options, Start};
use sqlite_disk::Disk;
use sqlite_std_file::OpenError;
use sqlkeeper::OpenFault;
use std::hash::{BuildHasher, RandomState};
use std::io::ErrorKind;

/// The size of the page cache while an office is served, in pages of 4096 bytes: 128 MB. For any other page the engine reads the
/// bytes again and computes their checksum.
const SERVED_PAGES: usize = 32_768;

/// While an office is served, the log is copied into the file once it has this many pages, each with 24 bytes before it: 16 MB.
/// Pages that are written often, like the totals of a box, are then copied once per hundreds of uploads. No other request is
/// answered meanwhile, so the log is not longer.
const SERVED_FRAMES: usize = 4096;

/// While an office is served, a transaction that has written this many pages (2 MB) writes further pages to the log at once,
/// not only at its commit. An upload of 8 MiB then takes less memory, and is as fast.
const SERVED_SPILL: usize = 512;

// The store of an office file. `S` stands for what the file and its log held.
pub(crate) type Store<S> = FileStore<FileFrom<S>>;

// Why a database could not be opened. What is left of its files says how far the engine came: files that it did not open are no
// database; behind that, a page, the schema or a row is wrong.
fn unopened<D: Disk>(error: Error, left: &Leftover<D>) -> Fault {
    match (error, left) {
        (Error::SqliteFailure(ErrorCode::OutOfMemory), _) => Fault::OutOfMemory,
        (Error::SqliteFailure(ErrorCode::DatabaseBusy), _) => Fault::Held,
        (Error::SqliteFailure(ErrorCode::DatabaseCorrupt), _) => Fault::Damaged,
        (
            Error::SqliteFailure(ErrorCode::NotADatabase),
            Leftover::Unopened(_) | Leftover::Store(_),
        ) => Fault::Damaged,
        _ => Fault::CannotOpen,
    }
}

// Why the files of a database could not be opened.
fn unopened_files(error: OpenError) -> Fault {
    match error {
        OpenError::OutOfMemory => Fault::OutOfMemory,
        OpenError::Busy => Fault::Held,
        OpenError::Io(error) if error.kind() == ErrorKind::OutOfMemory => Fault::OutOfMemory,
        _ => Fault::CannotOpen,
    }
}

// The options for opening a database.
fn options(rt: &HostRuntime, purpose: Purpose) -> Result<Options, Fault> {
    let Ok(random) = RandomState::new(rt) else {
        return Err(Fault::CannotOpen);
    };
    let mut options = Options::new(random.hash_one(&0u8));
    if purpose == Purpose::Serve {
        options.cache_pages = SERVED_PAGES;
        options.checkpoint_frames = SERVED_FRAMES;
        options.spill_pages = SERVED_SPILL;
    }
    Ok(options)
}

/// Connects to the database in an existing file. An empty file is a database without tables.
///
/// # Errors
///
/// The fault, and what is left of the files.
pub(crate) fn connect<S: Start + Drop>(
    rt: &HostRuntime,
    file: &str,
    purpose: Purpose,
    start: S,
) -> Result<Connection<Store<S>>, (Fault, Left<S, FileFrom<S>>)>
    ensures opened { IfOk result (λ c. HasCleanDisk (file_state c) → IsOpened c) }
    ensures found { IfOk result (λ c. HasCleanDisk (file_state c)
        → FindsIn (image_at S.Start) (file_state c)) }
    ensures spared { IfErr result (λ e. IsCleanLeft e.1
        → IsSpared (image_at S.Start) start (λ conn. ⊥) e.1) }
{
    // SQLite does not read these as file names.
    if file == ":memory:" || file.starts_with("file:") {
        return Err((Fault::CannotOpen, Left::Unopened(start)));
    }
    let options = match options(rt, purpose) {
        Ok(options) => options,
        Err(fault) => return Err((fault, Left::Unopened(start))),
    };
    let files = match sqlite_std_file::open(rt, file, start) {
        Ok(files) => files,
        Err(error) => return Err((unopened_files(error), Left::Lost)),
    };
    match Connection::open_files(rt.alloc(), files, options) {
        Ok(conn) => Ok(conn),
        Err((error, left)) => Err((unopened(error, &left), Left::Refused(left))),
    }
}

/// Why an office could not be made or migrated.
pub(crate) fn unfit(fault: OpenFault) -> Fault {
    match fault {
        OpenFault::Exists => Fault::Exists,
        OpenFault::Memory => Fault::OutOfMemory,
        OpenFault::Shape => Fault::Damaged,
        OpenFault::Store => Fault::Store,
        OpenFault::Version => Fault::OtherVersion,
    }
}

/// Ends the work on an office file. The error means that it could not be closed.
pub(crate) fn end_work<S, D: Disk + Drop>(
    conn: Connection<FileStore<D>>,
    purpose: Purpose,
) -> (Result<(), Error>, Left<S, D>)
    ensures closed { IsOk result.0 → purpose ≢ Purpose.Look → IsClosed result.1 }
    ensures looked { purpose ≡ Purpose.Look → IsLooked result.1 }
    ensures clean { IsCleanLeft result.1 → HasCleanDisk (file_state conn) }
    ensures leaves { IsCleanLeft result.1 → (s : State) → KeepsState (file_state conn) s
        → LeavesOffice result.1 s }
    ensures crash { IsCleanLeft result.1 → (s : State) → KeepsState (file_state conn) s
        → LeavesStates (file_state conn) → MayCrashTo result.1 (IsLeftOf (file_state conn) s) }
{
    match purpose {
        Purpose::Look => (Ok(()), Left::Looked(conn)),
        _ => close_work(conn),
    }
}

// Closes the files. The error means that they could not be closed.
fn close_work<S, D: Disk + Drop>(conn: Connection<FileStore<D>>) -> (Result<(), Error>, Left<S, D>)
    ensures closed { IsOk result.0 → IsClosed result.1 }
    ensures clean { IsCleanLeft result.1 → HasCleanDisk (file_state conn) }
    ensures leaves { IsCleanLeft result.1 → (s : State) → KeepsState (file_state conn) s
        → LeavesOffice result.1 s }
    ensures crash { IsCleanLeft result.1 → (s : State) → KeepsState (file_state conn) s
        → LeavesStates (file_state conn) → MayCrashTo result.1 (IsLeftOf (file_state conn) s) }
{
    match conn.close_files() {
        Ok(files) => (Ok(()), Left::Closed(files)),
        Err((error, store)) => (Err(error), Left::Unclosed(store)),
    }
}

/// Does the work on the office of an existing file.
pub(crate) fn work_over<S: Start + Drop, W: OfficeWork + Drop>(
    rt: &HostRuntime,
    file: &str,
    purpose: Purpose,
    work: W,
    start: S,
) -> Worked<W::Gain, FileLeft<S>>
    ensures looked { W.idle work result.gain ⊎ (purpose ≡ Purpose.Look → IsLooked result.left) }
    ensures closed { W.idle work result.gain
        ⊎ (IsOk result.closed → purpose ≢ Purpose.Look → IsClosed result.left) }
    ensures ran { HoldsOurs (image_at S.Start) → IsCleanLeft result.left
        → MayRun (image_at S.Start) start result.left (W.idle work result.gain)
        (W.step work result.gain) }
{
    if let Err(fault) = require_file(rt, file) {
        return ended_with(work.refuse(fault), Left::Unopened(start));
    }
    match connect(rt, file, purpose, start) {
        Ok(conn) => work_in(rt, conn, purpose, Opened { work }),
        Err((fault, left)) => ended_with(work.refuse(fault), left),
    }
}
