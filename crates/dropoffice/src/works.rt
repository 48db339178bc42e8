//! The commands that work on an office, each over the file that its words name.
ghost use Rattle.std.specs.Prelude.{IsOk};
ghost use Rattle.sqlite.specs.WalFiles.{image_at};
ghost use Rattle.commands.specs.Listing.{Compares, IsManifest, Looks, Writes};
ghost use Rattle.dropoffice.specs.Holding.{HoldsOurs};
ghost use Rattle.commands.specs.Replaying.{ReplaysNew};
ghost use Rattle.commands.specs.Saying.{HandsBack};
ghost use Rattle.commands.specs.Serving.{NeverListens};
ghost use Rattle.commands.specs.Wording.{IsServiceOf};
ghost use Rattle.dropoffice.specs.Leaving.{IsCleanLeft, IsClosed, IsLooked};
ghost use Rattle.dropoffice.specs.Performing.{Answers, Commands, IsKeyFile, IsMemoryFile, Lists, MayRun, OpensNone, Serves, Unless};

use crate::files::{Purpose, require_file};
use crate::left::{FileLeft, Left, Worked, ended_with};
use crate::opening::work_over;
use commands::{
    Argument, CompareWork, DeskWork, Done, Ending, ExportWork, Fault, KeyWork, LinkWork, LinksWork,
    ListWork, ManifestWork, OfficeKey, Outside, PublishWork, ReplayWork, ServeWork, Service,
    Session, Stock, check_place, read_command, read_order, read_service, replay_memory,
    sign_by_file, unserved,
};
use links::read_moment;
use sockets::Listener;
use sqlite::Start;
use std::io::{Read, Write};
use tasks::{Desk, Export, Link, Links, Listing, OfficeFile, Replay, Serve};
use wire::{Gathered, Outbox};

/// The command failed before it wrote anything.
pub(crate) fn failed<W: Drop>(fault: Fault, out: W) -> Done<W>
    ensures { HandsBack (IsOk result.result) out result.out }
{
    Done {
        result: Err(fault),
        out: Some(out),
    }
}

/// Does a desk command. A command in `input` is read after the check that the file exists, and before the file is opened. So
/// nobody waits for the office while the command is typed.
pub(crate) fn do_desk<S: Start + Drop, R: Read + Drop, W: Write + Drop>(
    rt: &HostRuntime,
    words: &Desk<'_>,
    input: R,
    out: W,
    start: S,
) -> Worked<Done<W>, FileLeft<S>>
    ensures ran { HoldsOurs (image_at S.Start) → IsCleanLeft result.left
        → MayRun (image_at S.Start) start result.left (HandsBack (IsOk result.gain.result) out result.gain.out)
        (Commands (R.remaining input) words.now W.contents (IsOk result.gain.result) out result.gain.out) }
    ensures opened { IsOk result.gain.result → IsOk result.closed → IsClosed result.left }
{
    if let Err(fault) = require_file(rt, words.file) {
        return ended_with(failed(fault, out), Left::Unopened(start));
    }
    let command = match read_command(rt.alloc(), words.line, input) {
        Ok(command) => command,
        Err(fault) => return ended_with(failed(fault, out), Left::Unopened(start)),
    };
    let work = DeskWork { command, out };
    work_over(rt, words.file, Purpose::Change, work, start)
}

/// Writes the manifest of the office's receipts.
pub(crate) fn do_manifest<S: Start + Drop, W: Write + Drop>(
    rt: &HostRuntime,
    words: &OfficeFile<'_>,
    out: W,
    start: S,
) -> Worked<Done<W>, FileLeft<S>>
    ensures ran { HoldsOurs (image_at S.Start) → IsCleanLeft result.left
        → MayRun (image_at S.Start) start result.left (HandsBack (IsOk result.gain.result) out result.gain.out)
        (Writes W.contents IsManifest (IsOk result.gain.result) out result.gain.out) }
    ensures opened { IsOk result.gain.result → IsLooked result.left }
{
    work_over(rt, words.file, Purpose::Look, ManifestWork { out }, start)
}

/// Reads a manifest, and writes its comparison with the office.
pub(crate) fn do_compare<S: Start + Drop, R: Read + Drop, W: Write + Drop>(
    rt: &HostRuntime,
    words: &OfficeFile<'_>,
    input: R,
    out: W,
    start: S,
) -> Worked<Done<W>, FileLeft<S>>
    ensures ran { HoldsOurs (image_at S.Start) → IsCleanLeft result.left
        → MayRun (image_at S.Start) start result.left (HandsBack (IsOk result.gain.result) out result.gain.out)
        (Compares W.contents (R.remaining input) (IsOk result.gain.result) out result.gain.out) }
    ensures opened { IsOk result.gain.result → IsLooked result.left }
{
    let work = CompareWork { input, out };
    work_over(rt, words.file, Purpose::Look, work, start)
}

/// Lists the keys, the boxes or the files of the office.
pub(crate) fn do_list<S: Start + Drop, W: Write + Drop>(
    rt: &HostRuntime,
    words: &Listing<'_>,
    out: W,
    start: S,
) -> Worked<Done<W>, FileLeft<S>>
    ensures ran { HoldsOurs (image_at S.Start) → IsCleanLeft result.left
        → MayRun (image_at S.Start) start result.left (HandsBack (IsOk result.gain.result) out result.gain.out)
        (Lists words.now W.contents (IsOk result.gain.result) out result.gain.out) }
    ensures opened { IsOk result.gain.result → IsLooked result.left }
{
    let Some(stock) = Stock::named(words.what) else {
        return ended_with(
            failed(Fault::MalformedValue(Argument::What), out),
            Left::Unopened(start),
        );
    };
    work_over(
        rt,
        words.file,
        Purpose::Look,
        ListWork { stock, out },
        start,
    )
}

/// Makes the folder that the arguments name, and exports the files of the office to it, or only those of the named box.
pub(crate) fn do_export<S: Start + Drop>(
    rt: &HostRuntime,
    words: &Export<'_>,
    start: S,
) -> Worked<Result<(), Fault>, FileLeft<S>>
    ensures ran { HoldsOurs (image_at S.Start) → IsCleanLeft result.left
        → MayRun (image_at S.Start) start result.left (IsOk result.gain → ⊥) Looks }
    ensures opened { IsOk result.gain → IsLooked result.left }
{
    let work = ExportWork { words: *words };
    work_over(rt, words.file, Purpose::Look, work, start)
}

/// Writes a link, signed with the named key.
pub(crate) fn do_link<S: Start + Drop, W: Write + Drop>(
    rt: &HostRuntime,
    words: &Link<'_>,
    out: W,
    start: S,
) -> Worked<Done<W>, FileLeft<S>>
    ensures ran { HoldsOurs (image_at S.Start) → IsCleanLeft result.left
        → Unless (IsKeyFile words.now.file.now) (OpensNone start result.left)
        (MayRun (image_at S.Start) start result.left (IsOk result.gain.result → ⊥) Looks) }
    ensures opened { IsOk result.gain.result → (IsKeyFile words.now.file.now → ⊥) → IsLooked result.left }
{
    let order = match read_order(rt.alloc(), words) {
        Ok(order) => order,
        Err(fault) => return ended_with(failed(fault, out), Left::Unopened(start)),
    };
    let words = *words;
    let work = LinkWork { order, words, out };
    sign_by(rt, words.file, words.key, work, start)
}

/// Reads a list of requested links, and writes it with the links, signed with the named key.
pub(crate) fn do_links<S: Start + Drop, R: Read + Drop, W: Write + Drop>(
    rt: &HostRuntime,
    words: &Links<'_>,
    input: R,
    out: W,
    start: S,
) -> Worked<Done<W>, FileLeft<S>>
    ensures ran { HoldsOurs (image_at S.Start) → IsCleanLeft result.left
        → Unless (IsKeyFile words.now.file.now) (OpensNone start result.left)
        (MayRun (image_at S.Start) start result.left (IsOk result.gain.result → ⊥) Looks) }
    ensures opened { IsOk result.gain.result → (IsKeyFile words.now.file.now → ⊥) → IsLooked result.left }
{
    if let Err(fault) = check_place(words.host.as_bytes(), words.region.as_bytes()) {
        return ended_with(failed(fault, out), Left::Unopened(start));
    }
    let words = *words;
    let work = LinksWork { words, input, out };
    sign_by(rt, words.file, words.key, work, start)
}

// Does the work with the key of this id. Its secret comes from the office in the file. For `key:SECRETFILE` it is the line of
// that file, and no office is opened.
fn sign_by<S: Start + Drop, W: KeyWork + Drop>(
    rt: &HostRuntime,
    file: &str,
    id: &str,
    work: W,
    start: S,
) -> Worked<Done<W::Out>, FileLeft<S>>
    ensures ran { HoldsOurs (image_at S.Start) → IsCleanLeft result.left
        → Unless (IsKeyFile file.now) (OpensNone start result.left)
        (MayRun (image_at S.Start) start result.left (IsOk result.gain.result → ⊥) Looks) }
    ensures opened { IsOk result.gain.result → (IsKeyFile file.now → ⊥) → IsLooked result.left }
{
    if let Some(name) = file.strip_prefix("key:") {
        return ended_with(sign_by_file(rt, name, id, work), Left::Unopened(start));
    }
    let id = id.as_bytes();
    work_over(rt, file, Purpose::Look, OfficeKey { id, work }, start)
}

/// Answers the streams over the named office, in memory or in a file.
pub(crate) fn do_replay<S: Start + Drop, W: Write + Drop>(
    rt: &HostRuntime,
    words: &Replay<'_>,
    out: W,
    start: S,
) -> Worked<Done<W>, FileLeft<S>>
    ensures ran { HoldsOurs (image_at S.Start) → IsCleanLeft result.left
        → Unless (IsMemoryFile words.now.file.now) (OpensNone start result.left)
        (MayRun (image_at S.Start) start result.left (HandsBack (IsOk result.gain.result) out result.gain.out)
        (Answers words.now W.contents (IsOk result.gain.result) out result.gain.out)) }
    ensures opened { IsOk result.gain.result → (IsMemoryFile words.now.file.now → ⊥)
        → IsOk result.closed → IsClosed result.left }
    ensures memory { IsOk result.gain.result → IsMemoryFile words.now.file.now
        → ReplaysNew W.contents words.now out result.gain.out }
{
    if words.file.starts_with("memory:") {
        return ended_with(replay_memory(rt, words, out), Left::Unopened(start));
    }
    let Some(moment) = read_moment(words.at.as_bytes()) else {
        return ended_with(
            failed(Fault::MalformedValue(Argument::At), out),
            Left::Unopened(start),
        );
    };
    let streams = words.streams.as_slice();
    let work = ReplayWork {
        streams,
        moment,
        out,
    };
    work_over(rt, words.file, Purpose::Change, work, start)
}

/// Serves the office of an existing file. With a name for its manifest, publishes the manifest in that file.
pub(crate) fn do_serve<S: Start + Drop, N: Outside + Drop, W: Write + Drop, E: Write + Drop>(
    rt: &HostRuntime,
    words: &Serve<'_>,
    out: W,
    err: E,
    start: S,
    outside: N,
) -> Worked<Session<N, N::Listener, <N::Listener as Listener>::End, N::Clock>, FileLeft<S>>
    ensures ran { HoldsOurs (image_at S.Start) → IsCleanLeft result.left
        → MayRun (image_at S.Start) start result.left
        (NeverListens (IsOk result.gain.result) outside result.gain.ending)
        (Serves N.listens N.begins N.Clock.now_gives N.Listener.told N.Listener.are_ends
        ⟦<Gathered<<N::Listener as Listener>::End> as Read>⟧.remaining
        ⟦<Outbox<<N::Listener as Listener>::End> as Write>⟧.contents words.now
        (IsOk result.gain.result) outside result.gain.ending) }
    ensures opened { IsOk result.gain.result → IsOk result.closed → IsClosed result.left }
{
    match read_service(rt, words) {
        Ok(service) => serve_by(rt, words, service, out, err, start, outside),
        Err(fault) => ended_with(
            unserved(fault, Ending::Idle(outside)),
            Left::Unopened(start),
        ),
    }
}

// Serves by the words, which were read.
fn serve_by<S: Start + Drop, N: Outside + Drop, W: Write + Drop, E: Write + Drop>(
    rt: &HostRuntime,
    words: &Serve<'_>,
    service: Service<'_>,
    out: W,
    err: E,
    start: S,
    outside: N,
) -> Worked<Session<N, N::Listener, <N::Listener as Listener>::End, N::Clock>, FileLeft<S>>
    ensures ran { IsServiceOf words.now service.entry.address service.entry.limits → HoldsOurs (image_at S.Start)
        → IsCleanLeft result.left
        → MayRun (image_at S.Start) start result.left
        (NeverListens (IsOk result.gain.result) outside result.gain.ending)
        (Serves N.listens N.begins N.Clock.now_gives N.Listener.told N.Listener.are_ends
        ⟦<Gathered<<N::Listener as Listener>::End> as Read>⟧.remaining
        ⟦<Outbox<<N::Listener as Listener>::End> as Write>⟧.contents words.now
        (IsOk result.gain.result) outside result.gain.ending) }
    ensures opened { IsOk result.gain.result → IsOk result.closed → IsClosed result.left }
{
    match words.manifest {
        Some(manifest) => {
            let work = PublishWork {
                service,
                manifest,
                out,
                err,
                outside,
            };
            work_over(rt, words.file, Purpose::Serve, work, start)
        }
        None => {
            let work = ServeWork {
                service,
                out,
                outside,
            };
            work_over(rt, words.file, Purpose::Serve, work, start)
        }
    }
}
