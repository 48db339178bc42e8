//! `drop serve`: serves an office at an address.
ghost use Rattle.std.specs.Prelude.{◌≡◌, ◌≤◌, IfErr, IfOk, IfSome, IsOk, IsOkAnd, Some};
ghost use Rattle.std.specs.Net.Grammar.{IsSocketV4Text};
ghost use Rattle.commands.specs.Serving.{IsFine, MayServe, NothingCame};
ghost use Rattle.commands.specs.Wording.{IsPatience, IsRoom, IsServiceOf};
ghost use Rattle.commands.specs.Working.{Passes};

use crate::arguments::Argument;
use crate::faults::Fault;
use crate::memory::memory_bound;
use crate::outside::Outside;
use crate::rounds::{Outcome, Served, serve};
use crate::work::OfficeWork;
use boxes::{Keeper, Rolls};
use mio::Poll;
use office::Office;
use shelf::CachedKeeper;
use sockets::{Limits, Listener};
use std::fs::Files;
use std::io;
use std::io::{Read, Write};
use std::net::SocketAddrV4;
use std::time::Duration;
use tasks::Serve;
use wire::{Gathered, Outbox};

/// The bytes of 1 MB.
const MEGABYTE: usize = 1_000_000;

/// The least memory for bodies that come, in bytes.
const LEAST_ROOM: usize = 64 * MEGABYTE;

/// The parsed arguments of a service.
#[derive(Clone, Copy)]
pub struct Service<'a> {
    /// The office file.
    pub file: &'a str,
    /// The address, as it was given.
    pub listen: &'a str,
    /// The address.
    pub address: SocketAddrV4,
    /// The limits on connections.
    pub limits: Limits,
}

/// How a service ended, and what is left of what it took from outside.
#[derive(Drop)]
pub enum Ending<N, L, E, C> {
    /// It never listened, and this would have listened.
    Idle(N),
    /// It listened, and ended before it took a connection.
    Listening(L),
    /// It served: the listener, the connections that are left and the outcome, and the clock.
    Served(Served<L, E>, C),
}

/// What a service gives: its result, and how it ended.
#[derive(Drop)]
pub struct Session<N, L, E, C> {
    /// The result.
    pub result: Result<(), Fault>,
    /// How it ended.
    pub ending: Ending<N, L, E, C>,
}

/// A service, the output, which gets the address, and what the service takes from outside.
#[derive(Drop)]
pub struct ServeWork<'w, W: Drop, N: Drop> {
    /// The service.
    pub service: Service<'w>,
    /// The output.
    pub out: W,
    /// Where it listens, and its clock.
    pub outside: N,
}

impl<W: Write + Drop, N: Outside + Drop> OfficeWork for ServeWork<'_, W, N> {
    ghost use Rattle.std.specs.Prelude.{IsOk};
    ghost use Rattle.commands.specs.Serving.{MayServe, NeverListens};

    type Gain = Session<N, N::Listener, <N::Listener as Listener>::End, N::Clock>;

    ghost step = { λ work gain. MayServe N.listens N.begins N.Clock.now_gives N.Listener.told
        N.Listener.are_ends ⟦<Gathered<<N::Listener as Listener>::End> as Read>⟧.remaining
        ⟦<Outbox<<N::Listener as Listener>::End> as Write>⟧.contents work.service.address
        work.service.limits (IsOk gain.result) work.outside gain.ending };

    ghost idle = { λ work gain. NeverListens (IsOk gain.result) work.outside gain.ending };

    fn run<K: Rolls>(
        self,
        rt: &HostRuntime,
        keeper: K,
    ) -> (
        Session<N, N::Listener, <N::Listener as Listener>::End, N::Clock>,
        K,
    ) {
        let ServeWork {
            service,
            mut out,
            outside,
        } = self;
        let mut office = Office::new(rt.alloc(), CachedKeeper::new(rt.alloc(), keeper));
        let session = serve_at(rt, &mut office, &service, outside, &mut out);
        (session, office.keeper.into_inner())
    }

    fn refuse(
        self,
        fault: Fault,
    ) -> Session<N, N::Listener, <N::Listener as Listener>::End, N::Clock> {
        unserved(fault, Ending::Idle(self.outside))
    }
}

/// Reads the arguments. Fails if one is malformed. Without a bound for bodies, they may take a quarter of the
/// memory that the program may have, but at least 64 MB.
pub fn read_service<'a, R: Files + AllocGlobal>(
    rt: &R,
    words: &Serve<'a>,
) -> Result<Service<'a>, Fault>
    ensures { IfOk result (λ service. IsServiceOf words.now service.address service.limits) }
{
    let address = read_address(words.listen).ok_or(Fault::MalformedValue(Argument::Listen))?;
    let Ok(connections) = words.connections.parse::<u64>() else {
        return Err(Fault::MalformedValue(Argument::Connections));
    };
    let Ok(seconds) = words.patience.parse::<u64>() else {
        return Err(Fault::MalformedValue(Argument::Patience));
    };
    let Ok(open) = words.open.parse::<usize>() else {
        return Err(Fault::MalformedValue(Argument::Open));
    };
    let room = match words.room {
        Some(text) => read_room(text)?,
        None => quarter_of(memory_bound(rt)),
    };
    Ok(Service {
        file: words.file,
        listen: words.listen,
        address,
        limits: Limits {
            connections,
            patience: patience_of(seconds),
            open,
            room,
        },
    })
}

// Reads a bound for bodies in megabytes. Returns it in bytes.
fn read_room(text: &str) -> Result<usize, Fault>
    ensures { IfOk result (IsRoom (Some text.now)) }
{
    match text.parse::<u32>() {
        Ok(megabytes) => Ok(megabytes as usize * MEGABYTE),
        Err(_) => Err(Fault::MalformedValue(Argument::Room)),
    }
}

// A quarter of the memory, but at least `LEAST_ROOM`.
fn quarter_of(memory: Option<u64>) -> usize
    ensures { 64000000 ≤ result }
{
    match memory {
        Some(memory) => (memory as usize / 4).max(LEAST_ROOM),
        None => LEAST_ROOM,
    }
}

// How long a connection may be silent. After 0 seconds none is too long.
fn patience_of(seconds: u64) -> Option<Duration>
    ensures { IsPatience seconds result }
{
    match seconds {
        0 => None,
        _ => Some(Duration::from_secs(seconds)),
    }
}

// An address `a.b.c.d:port`, without leading zeros in any number.
fn read_address(text: &str) -> Option<SocketAddrV4>
    ensures { IfSome result (IsSocketV4Text text.now) }
{
    let (_, port) = text.split_once(':')?;
    if port.len() > 1 && port.starts_with('0') {
        return None;
    }
    SocketAddrV4::parse_ascii(text.as_bytes()).ok()
}

/// What a service gives that took no connection.
pub fn unserved<N, L, E, C>(fault: Fault, ending: Ending<N, L, E, C>) -> Session<N, L, E, C>
    ensures fault { IsOk result.result → ⊥ }
    ensures ending { result.ending ≡ ending }
{
    Session {
        result: Err(fault),
        ending,
    }
}

/// Listens at the address, says so on `out`, and serves the connections. Warns on standard error if the office file is too
/// large for the memory.
pub(crate) fn serve_at<K: Keeper, N: Outside + Drop, W: Write>(
    rt: &HostRuntime,
    office: &mut Office<K>,
    service: &Service<'_>,
    outside: N,
    out: &mut W,
) -> Session<N, N::Listener, <N::Listener as Listener>::End, N::Clock>
    ensures { Passes K.Keeper office.old.keeper office.new.keeper
        (MayServe N.listens N.begins N.Clock.now_gives N.Listener.told
        N.Listener.are_ends ⟦<Gathered<<N::Listener as Listener>::End> as Read>⟧.remaining
        ⟦<Outbox<<N::Listener as Listener>::End> as Write>⟧.contents service.now.address
        service.now.limits (IsOk result.result) outside result.ending) }
{
    match begin(rt, service, outside, out) {
        Ok(begun) => {
            let Begun {
                poll,
                mut clock,
                listener,
            } = begun;
            let served = serve(rt, poll, office, listener, service.limits, &mut clock);
            Session {
                result: result_of(&served.outcome),
                ending: Ending::Served(served, clock),
            }
        }
        Err(session) => session,
    }
}

// A service that listens.
#[derive(Drop)]
struct Begun<L, C> {
    poll: Poll,
    clock: C,
    listener: L,
}

// Listens at the address, and says so on `out`. The error is how a service ends that took no connection.
fn begin<N: Outside + Drop, W: Write>(
    rt: &HostRuntime,
    service: &Service<'_>,
    outside: N,
    out: &mut W,
) -> Result<
    Begun<N::Listener, N::Clock>,
    Session<N, N::Listener, <N::Listener as Listener>::End, N::Clock>,
>
    ensures listens { IfOk result (λ begun. N.listens service.now.address begun.listener) }
    ensures begins { IfOk result (λ begun. N.begins begun.clock) }
    ensures failed { IfErr result (λ session. IsOk session.result → ⊥) }
    ensures idle { IfErr result (λ session. NothingCame N.listens N.begins N.Clock.now_gives N.Listener.told
        N.Listener.are_ends ⟦<Gathered<<N::Listener as Listener>::End> as Read>⟧.remaining
        ⟦<Outbox<<N::Listener as Listener>::End> as Write>⟧.contents service.now.address
        service.now.limits outside session.ending) }
{
    let Ok(poll) = Poll::new(rt) else {
        return Err(unserved(Fault::CannotListen, Ending::Idle(outside)));
    };
    let Ok(clock) = outside.clock(service.file) else {
        return Err(unserved(Fault::OutOfMemory, Ending::Idle(outside)));
    };
    let listener = match outside.listen(service.address) {
        Ok(listener) => listener,
        Err(outside) => return Err(unserved(Fault::CannotListen, Ending::Idle(outside))),
    };
    if writeln!(out, "listening on {}", service.listen).is_err() || out.flush().is_err() {
        return Err(unserved(Fault::CannotWrite, Ending::Listening(listener)));
    }
    Ok(Begun {
        poll,
        clock,
        listener,
    })
}

// The result of a service.
fn result_of(outcome: &io::Result<Outcome>) -> Result<(), Fault>
    ensures { IsOk result → IsOkAnd outcome.now IsFine }
{
    let Ok(outcome) = outcome else {
        return Err(Fault::CannotListen);
    };
    if outcome.is_whole && outcome.refused == 0 && outcome.faulty == 0 {
        Ok(())
    } else {
        Err(Fault::ConnectionFailed)
    }
}
