//! The program: does what its arguments ask for, on the given streams.
ghost use Rattle.std.specs.Prelude.{◌≡◌, ◌≢◌, ◌⊎◌, IsOk, map};
ghost use Rattle.clap.specs.Words.{kind_of};
ghost use Rattle.sqlite.specs.WalFiles.{image_at};
ghost use Rattle.dropoffice.specs.Holding.{HoldsOurs};
ghost use Rattle.dropoffice.specs.Leaving.{IsCleanLeft};
ghost use Rattle.dropoffice.specs.Performing.{AsksForText, IsServe, NamesNone, NamesTask, Performs, Succeeds};

use crate::ending::end_task;
use crate::left::Left;
use clap::Error as WordsError;
use clap::error::ErrorKind;
use commands::{Ending, Fault, Outside};
use sockets::Listener;
use sqlite::{FileFrom, Start};
use sqlite_disk::Disk;
use std::io::{Read, Write};
use tasks::Task;
use wire::{Gathered, Outbox};

/// The exit status of a task that was done, even if it refused requests.
const DONE: u8 = 0;

/// The exit status after a fault, which has a line on standard error.
const FAULT: u8 = 1;

/// The exit status for arguments that name no task.
const WORDS: u8 = 2;

/// What the program did, and what it leaves.
#[derive(Drop)]
pub struct Performed<W, N, L, E, C, S, D: Disk> {
    /// The exit status.
    pub status: u8,
    /// The output, unless a server had it, or memory was refused for its buffer.
    pub out: Option<W>,
    /// How a server ended. Any other task hands `outside` back.
    pub ending: Ending<N, L, E, C>,
    /// What is left of the office file. It is closed when this is dropped.
    pub left: Left<S, D>,
}

impl<W: Drop, N: Drop, L: Drop, E: Drop, C: Drop, S: Drop, D: Disk + Drop> Performed<
    W,
    N,
    L,
    E,
    C,
    S,
    D,
> {
    /// Drops what is left, which closes the file, and returns the exit status.
    pub fn into_status(self) -> u8
        ensures { result ≡ self.status }
    {
        let status = self.status;
        // A call drops it, so that the proof does not drop each of its fields.
        drop(self);
        status
    }
}

/// Runs the program with these arguments, whose first is the program's name. Returns the exit status: 0 if the task was done,
/// even if it refused requests; 1 after a fault, with a line `drop: <fault>` on `err`; 2 if the arguments name no task, with
/// clap's text on `err`. `out` gets the help, the version, `done` for a desk command or a migration, links, a manifest, a comparison,
/// lists, a replay's answers, and the address of a server. `input` gives lists of requested links, manifests to compare, and a desk
/// command that is not an argument. An export makes its own folder.
///
/// `start` stands for what the office file and its log hold, and `outside` for the listener and the clock of a server. The
/// clauses hold for each of them: what the command did between the state that the file held and the state that what is left
/// means, what a crash now leaves, and what was written; and where it failed before its work began, what is left of the files
/// then. They say nothing of paths, of other files, of the fault's line, or of files that the system did not open.
pub fn perform<
    S: Start + Drop,
    N: Outside + Drop,
    R: Read + Drop,
    W: Write + Drop,
    E: Write + Drop,
>(
    rt: &HostRuntime,
    words: &[&str],
    input: R,
    mut out: W,
    mut err: E,
    start: S,
    outside: N,
) -> Performed<W, N, N::Listener, <N::Listener as Listener>::End, N::Clock, S, FileFrom<S>>
    ensures office { HoldsOurs (image_at S.Start) → IsCleanLeft result.left
        → ((task : Task) × NamesTask (map (λ w. w.now) words.entry.now) task
        × Performs N.listens N.begins N.Clock.now_gives N.Listener.told N.Listener.are_ends
        ⟦<Gathered<<N::Listener as Listener>::End> as Read>⟧.remaining
        ⟦<Outbox<<N::Listener as Listener>::End> as Write>⟧.contents W.contents (R.remaining input)
        task (image_at S.Start) start result.left (result.status ≡ 0) out result.out
        outside result.ending)
        ⊎ NamesNone (map (λ w. w.now) words.entry.now) start result.left outside result.ending }
    ensures done { result.status ≡ 0
        → ((task : Task) × NamesTask (map (λ w. w.now) words.entry.now) task
        × Succeeds W.contents task result.left out result.out)
        ⊎ AsksForText (map (λ w. w.now) words.entry.now) }
    ensures heard { (result.ending ≡ Ending.Idle outside)
        ⊎ ((task : Task) × NamesTask (map (λ w. w.now) words.entry.now) task × IsServe task) }
{
    match Task::read(rt.alloc(), words) {
        Ok(task) => {
            let ended = end_task(rt, &task, input, out, &mut err, start, outside);
            Performed {
                status: status_of(ended.result, &mut err),
                out: ended.out,
                ending: ended.ending,
                left: ended.left,
            }
        }
        Err(error) => Performed {
            status: explain(&error, &mut out, &mut err),
            out: Some(out),
            ending: Ending::Idle(outside),
            left: Left::Unopened(start),
        },
    }
}

// Writes a fault's line, and returns the status. If that write fails too, only the status tells.
fn status_of<E: Write>(done: Result<(), Fault>, err: &mut E) -> u8
    ensures { result ≡ 0 → IsOk done }
{
    match done {
        Ok(()) => DONE,
        // This fault was reported when it came.
        Err(Fault::CannotPublish) => FAULT,
        Err(fault) => {
            let _ = writeln!(err, "drop: {fault}");
            FAULT
        }
    }
}

// Writes clap's text about the arguments to the right stream, and returns the status.
fn explain<W: Write, E: Write>(error: &WordsError, out: &mut W, err: &mut E) -> u8
    ensures { result ≡ 0 → (kind_of error.now ≡ ErrorKind.DisplayHelp) ⊎ (kind_of error.now ≡ ErrorKind.DisplayVersion) }
{
    if error.kind() == ErrorKind::OutOfMemory {
        return status_of(Err(Fault::OutOfMemory), err);
    }
    if error.use_stderr() {
        let _ = write!(err, "{error}");
        return WORDS;
    }
    status_of(write!(out, "{error}").map_err(|_| Fault::CannotWrite), err)
}
