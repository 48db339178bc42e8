//! Does a task on the given streams, and says how it ended.
ghost use Rattle.std.specs.Prelude.{◌≡◌, ◌⊎◌, IsOk, Some};
ghost use Rattle.sqlite.specs.WalFiles.{image_at};
ghost use Rattle.dropoffice.specs.Holding.{HoldsOurs};
ghost use Rattle.dropoffice.specs.Leaving.{IsCleanLeft};
ghost use Rattle.dropoffice.specs.Performing.{IsServe, Performs, Succeeds};

use crate::init::do_init;
use crate::left::{FileLeft, Worked};
use crate::migrating::do_migrate;
use crate::works::{
    do_compare, do_desk, do_export, do_link, do_links, do_list, do_manifest, do_replay, do_serve,
};
use commands::{Done, Ending, Fault, Outside, Session};
use sockets::Listener;
use sqlite::{Error, ErrorCode, Start};
use std::io::{Read, Write};
use tasks::Task;
use wire::{Gathered, Outbox};

/// How a task ended, and what it leaves.
#[derive(Drop)]
pub(crate) struct Ended<W, N, L, E, C, F> {
    /// Whether it was done. Its fault is not told yet.
    pub result: Result<(), Fault>,
    /// The output, unless a server had it, or memory was refused for its buffer.
    pub out: Option<W>,
    /// How a server ended. Any other task hands `outside` back.
    pub ending: Ending<N, L, E, C>,
    /// What is left of the office file. It is closed when this is dropped.
    pub left: F,
}

// The end of a task that only has a result.
fn plain<W, N, L, E, C, F>(
    worked: Worked<Result<(), Fault>, F>,
    out: W,
    outside: N,
) -> Ended<W, N, L, E, C, F>
    ensures done { IsOk result.result → IsOk worked.gain × IsOk worked.closed }
    ensures out { result.out ≡ Some out }
    ensures ending { result.ending ≡ Ending.Idle outside }
    ensures left { result.left ≡ worked.left }
{
    let Worked { gain, closed, left } = worked;
    Ended {
        result: unless_unclosed(gain, closed),
        out: Some(out),
        ending: Ending::Idle(outside),
        left,
    }
}

// The end of a task that has an output.
fn spoken<W: Drop, N, L, E, C, F>(worked: Worked<Done<W>, F>, outside: N) -> Ended<W, N, L, E, C, F>
    ensures done { IsOk result.result → IsOk worked.gain.result × IsOk worked.closed }
    ensures out { result.out ≡ worked.gain.out }
    ensures ending { result.ending ≡ Ending.Idle outside }
    ensures left { result.left ≡ worked.left }
{
    let Worked { gain, closed, left } = worked;
    let Done { result, out } = gain;
    Ended {
        result: unless_unclosed(result, closed),
        out,
        ending: Ending::Idle(outside),
        left,
    }
}

// The end of a service.
fn served<W, N: Drop, L: Drop, E: Drop, C: Drop, F>(
    worked: Worked<Session<N, L, E, C>, F>,
) -> Ended<W, N, L, E, C, F>
    ensures done { IsOk result.result → IsOk worked.gain.result × IsOk worked.closed }
    ensures ending { result.ending ≡ worked.gain.ending }
    ensures left { result.left ≡ worked.left }
{
    let Worked { gain, closed, left } = worked;
    let Session { result, ending } = gain;
    Ended {
        result: unless_unclosed(result, closed),
        out: None,
        ending,
        left,
    }
}

/// Why a database could not be closed.
pub(crate) fn unclosed(error: Error) -> Fault {
    match error {
        Error::SqliteFailure(ErrorCode::OutOfMemory) => Fault::OutOfMemory,
        _ => Fault::Store,
    }
}

// The same result. It is a fault if the file could not be closed.
fn unless_unclosed(done: Result<(), Fault>, closed: Result<(), Error>) -> Result<(), Fault>
    ensures { IsOk result → IsOk done × IsOk closed }
{
    match (done, closed) {
        (Ok(()), Ok(())) => Ok(()),
        (Ok(()), Err(error)) => Err(unclosed(error)),
        (Err(fault), _) => Err(fault),
    }
}

/// Does the task. `start` stands for what the office file and its log hold, and `outside` for
/// the listener and the clock of a server.
///
/// # Errors
///
/// The result is a fault. If the task failed before its work began, the files were spared.
pub(crate) fn end_task<
    S: Start + Drop,
    N: Outside + Drop,
    R: Read + Drop,
    W: Write + Drop,
    E: Write,
>(
    rt: &HostRuntime,
    task: &Task<'_>,
    input: R,
    out: W,
    err: &mut E,
    start: S,
    outside: N,
) -> Ended<W, N, N::Listener, <N::Listener as Listener>::End, N::Clock, FileLeft<S>>
    ensures office { HoldsOurs (image_at S.Start) → IsCleanLeft result.left
        → Performs N.listens N.begins N.Clock.now_gives N.Listener.told N.Listener.are_ends
        ⟦<Gathered<<N::Listener as Listener>::End> as Read>⟧.remaining
        ⟦<Outbox<<N::Listener as Listener>::End> as Write>⟧.contents W.contents (R.remaining input)
        task.now (image_at S.Start) start result.left (IsOk result.result) out result.out
        outside result.ending }
    ensures done { IsOk result.result → Succeeds W.contents task.now result.left out result.out }
    ensures heard { (result.ending ≡ Ending.Idle outside) ⊎ IsServe task.now }
{
    match task {
        Task::Init(words) => plain(do_init(rt, words, start), out, outside),
        Task::Desk(words) => spoken(do_desk(rt, words, input, out, start), outside),
        Task::Link(words) => spoken(do_link(rt, words, out, start), outside),
        Task::Links(words) => spoken(do_links(rt, words, input, out, start), outside),
        Task::Manifest(words) => spoken(do_manifest(rt, words, out, start), outside),
        Task::Compare(words) => spoken(do_compare(rt, words, input, out, start), outside),
        Task::List(words) => spoken(do_list(rt, words, out, start), outside),
        Task::Export(words) => plain(do_export(rt, words, start), out, outside),
        Task::Replay(words) => spoken(do_replay(rt, words, out, start), outside),
        Task::Serve(words) => served(do_serve(rt, words, out, &mut *err, start, outside)),
        Task::Migrate(words) => spoken(do_migrate(rt, words, out, start), outside),
    }
}
