//! `drop serve --manifest`: publishes the manifest in a file while the office is served.
ghost use Rattle.std.specs.Prelude.{◌≡◌, None, IsOk, IsTrue};
ghost use Rattle.boxes.specs.State.{State};
ghost use Rattle.commands.specs.Serving.{MayServe};
ghost use Rattle.commands.specs.Working.{Passes};

use crate::faults::Fault;
use crate::outside::Outside;
use crate::serving::{Ending, Service, Session, serve_at, unserved};
use crate::work::OfficeWork;
use boxes::{Keeper, Rolls};
use lists::{Publisher, Sheet};
use office::Office;
use shelf::CachedKeeper;
use sockets::Listener;
use std::io::{Read, Write};
use std::{fs, io};
use wire::{Gathered, Outbox};

// The file of a published manifest. Each addition is flushed at once.
#[derive(Drop)]
struct ManifestFile<F: Drop> {
    file: F,
}

impl<F: Write + Drop> Sheet for ManifestFile<F> {
    ghost text = { λ _. None };

    fn add(&mut self, bytes: &[u8]) -> io::Result<()> {
        self.file.write_all(bytes)?;
        self.file.flush()
    }
}

/// A service whose manifest is published in the file of this name, the output, which gets the address, the output for faults,
/// and what the service takes from outside.
#[derive(Drop)]
pub struct PublishWork<'w, W: Drop, E: Drop, N: Drop> {
    /// The service.
    pub service: Service<'w>,
    /// The name of the manifest's file.
    pub manifest: &'w str,
    /// The output.
    pub out: W,
    /// The output for faults.
    pub err: E,
    /// Where the service listens, and its clock.
    pub outside: N,
}

impl<W: Write + Drop, E: Write + Drop, N: Outside + Drop> OfficeWork for PublishWork<'_, W, E, N> {
    ghost use Rattle.std.specs.Prelude.{IsOk};
    ghost use Rattle.commands.specs.Serving.{MayServe, NeverListens};

    type Gain = Session<N, N::Listener, <N::Listener as Listener>::End, N::Clock>;

    ghost step = { λ work gain. MayServe N.listens N.begins N.Clock.now_gives N.Listener.told
        N.Listener.are_ends ⟦<Gathered<<N::Listener as Listener>::End> as Read>⟧.remaining
        ⟦<Outbox<<N::Listener as Listener>::End> as Write>⟧.contents work.service.address
        work.service.limits (IsOk gain.result) work.outside gain.ending };

    ghost idle = { λ work gain. NeverListens (IsOk gain.result) work.outside gain.ending };

    fn run<K: Rolls>(
        self,
        rt: &HostRuntime,
        keeper: K,
    ) -> (
        Session<N, N::Listener, <N::Listener as Listener>::End, N::Clock>,
        K,
    ) {
        let keeper = CachedKeeper::new(rt.alloc(), keeper);
        let (session, keeper) = serve_published(rt, keeper, self);
        (session, keeper.into_inner())
    }

    fn refuse(
        self,
        fault: Fault,
    ) -> Session<N, N::Listener, <N::Listener as Listener>::End, N::Clock> {
        unserved(fault, Ending::Idle(self.outside))
    }
}

// Serves the office, and publishes its manifest in the file of this name. The manifest is first written to another file and
// then renamed, so nobody reads a part of it. Each receipt is added as soon as it is given. If the manifest can't be written,
// one line on `err` says so, and the office is served without it.
fn serve_published<K: Keeper, W: Write + Drop, E: Write + Drop, N: Outside + Drop>(
    rt: &HostRuntime,
    keeper: K,
    work: PublishWork<'_, W, E, N>,
) -> (
    Session<N, N::Listener, <N::Listener as Listener>::End, N::Clock>,
    K,
)
    ensures { Passes K.Keeper keeper result.1
        (MayServe N.listens N.begins N.Clock.now_gives N.Listener.told
        N.Listener.are_ends ⟦<Gathered<<N::Listener as Listener>::End> as Read>⟧.remaining
        ⟦<Outbox<<N::Listener as Listener>::End> as Write>⟧.contents work.entry.service.address
        work.entry.service.limits (IsOk result.0.result) work.entry.outside result.0.ending) }
{
    let PublishWork {
        service,
        manifest,
        mut out,
        mut err,
        outside,
    } = work;
    let Ok(part) = format!(in rt.alloc(); "{}.part", manifest) else {
        return (unserved(Fault::OutOfMemory, Ending::Idle(outside)), keeper);
    };
    let Ok(file) = fs::create(rt, part.as_str()) else {
        let _ = writeln!(err, "drop: {}", Fault::CannotPublish);
        let mut office = Office::new(rt.alloc(), keeper);
        let session = serve_at(rt, &mut office, &service, outside, &mut out);
        return (published(session, false), office.keeper);
    };
    let publisher = Publisher::begin(rt.alloc(), keeper, ManifestFile { file }, err);
    let is_placed = publisher.is_whole() && fs::rename(rt, part.as_str(), manifest).is_ok();
    let mut office = Office::new(rt.alloc(), unless_placed(publisher, is_placed));
    let session = serve_at(rt, &mut office, &service, outside, &mut out);
    let is_whole = office.keeper.is_whole();
    (published(session, is_whole), office.keeper.into_inner())
}

// Gives the manifest up if it is whole and was not placed.
fn unless_placed<K: Keeper, S: Sheet + Drop, E: Write + Drop>(
    mut publisher: Publisher<K, S, E>,
    is_placed: bool,
) -> Publisher<K, S, E>
    ensures keeper { result.keeper ≡ publisher.keeper }
    ensures means { (s : State) → ⟦<Publisher<K, S, E> as Keeper>⟧.means publisher s
        → ⟦<Publisher<K, S, E> as Keeper>⟧.means result s }
    ensures alone { ⟦<Publisher<K, S, E> as Keeper>⟧.is_alone publisher
        → ⟦<Publisher<K, S, E> as Keeper>⟧.is_alone result }
{
    if publisher.is_whole() && !is_placed {
        publisher.give_up();
    }
    publisher
}

// The same session. It fails if the manifest is not whole.
fn published<N, L, E, C>(session: Session<N, L, E, C>, is_whole: bool) -> Session<N, L, E, C>
    ensures done { IsOk result.result → IsOk session.result }
    ensures whole { IsOk result.result → IsTrue is_whole }
    ensures ending { result.ending ≡ session.ending }
{
    Session {
        result: unless_lacking(session.result, is_whole),
        ending: session.ending,
    }
}

// The same result. It is a fault if the manifest is not whole.
fn unless_lacking(served: Result<(), Fault>, is_whole: bool) -> Result<(), Fault>
    ensures done { IsOk result → IsOk served }
    ensures whole { IsOk result → IsTrue is_whole }
{
    match served {
        Ok(()) if is_whole => Ok(()),
        Ok(()) => Err(Fault::CannotPublish),
        Err(fault) => Err(fault),
    }
}
