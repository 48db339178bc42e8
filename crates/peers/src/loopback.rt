//! Peers over loopback. They send everything before they are served.
use crate::counting::serve_counted;
use boxes::Keeper;
use commands::{Outcome, serve};
use mio::Poll;
use office::{FixedClock, Office};
use sigv4::Moment;
use sockets::{End, Limits, Listener, TcpEnd};
use std::alloc::Global;
use std::io::{ErrorKind, Read, Write};
use std::net::{Shutdown, TcpListener, TcpStream};
use std::process::Abort;
use std::test::Fail;
use std::time::Duration;
use trials::published::{DATE, NO_BOX, REQUEST, make_office};
use wire::{Gathered, Outbox, Seat};

// Limits of `connections` connections, at most `open` open at a time, and a timeout of one second.
fn limits(connections: u64, open: usize) -> Limits {
    Limits {
        connections,
        patience: Some(Duration::from_secs(1)),
        open,
        room: 64 << 20,
    }
}

// Serves `connections` connections, at most `open` at a time.
fn served(
    rt: &HostRuntime,
    listener: TcpListener,
    connections: u64,
    open: usize,
) -> Result<Outcome, Fail> {
    let mut office = make_office(rt.alloc())?;
    served_by(rt, &mut office, listener, connections, open)
}

// The same by any office.
pub(crate) fn served_by<K: Keeper>(
    rt: &HostRuntime,
    office: &mut Office<K>,
    listener: TcpListener,
    connections: u64,
    open: usize,
) -> Result<Outcome, Fail> {
    let moment = Moment::read(DATE).ok_or("no moment")?;
    let mut clock = FixedClock::new(moment);
    let poll = Poll::new(rt)?;
    let limits = limits(connections, open);
    Ok(serve(rt, poll, office, listener, limits, &mut clock).outcome?)
}

// An outcome, and what a counting listener counted.
#[derive(Clone, Copy)]
struct Counts {
    outcome: Outcome,
    opened: u64,
    closed: u64,
}

// The same with a counting listener.
fn counted_by<K: Keeper>(
    rt: &HostRuntime,
    office: &mut Office<K>,
    listener: TcpListener,
    connections: u64,
    open: usize,
) -> Result<Counts, Fail> {
    let moment = Moment::read(DATE).ok_or("no moment")?;
    let mut clock = FixedClock::new(moment);
    let poll = Poll::new(rt)?;
    let limits = limits(connections, open);
    let served = serve_counted(rt, poll, office, listener, limits, &mut clock);
    Ok(Counts {
        outcome: served.outcome?,
        opened: served.listener.opened,
        closed: served.listener.closed,
    })
}

// The same by a new office.
fn counted(
    rt: &HostRuntime,
    listener: TcpListener,
    connections: u64,
    open: usize,
) -> Result<Counts, Fail> {
    let mut office = make_office(rt.alloc())?;
    counted_by(rt, &mut office, listener, connections, open)
}

// The outcome if all of these connections came, and so many of them were faulty.
fn whole(came: u64, faulty: u64) -> Outcome {
    Outcome {
        came,
        refused: 0,
        faulty,
        unsent: 0,
        is_whole: true,
    }
}

// A listener at a free port.
pub(crate) fn bound(rt: &HostRuntime) -> Result<TcpListener, Fail> {
    Ok(TcpListener::bind(rt, "127.0.0.1:0")?)
}

// A peer that has sent nothing yet.
pub(crate) fn peer_of(rt: &HostRuntime, listener: &TcpListener) -> Result<TcpStream, Fail> {
    Ok(TcpStream::connect(rt, listener.local_addr()?)?)
}

// A peer that sent this many requests, and sends no more.
pub(crate) fn asking(
    rt: &HostRuntime,
    listener: &TcpListener,
    requests: u64,
) -> Result<TcpStream, Fail> {
    let mut peer = peer_of(rt, listener)?;
    for _ in 0..requests {
        peer.write_all(REQUEST)?;
    }
    peer.shutdown(Shutdown::Write)?;
    Ok(peer)
}

// The reading and the writing end of a waiting connection.
fn opened(rt: &HostRuntime, listener: &mut TcpListener) -> Result<(TcpEnd, TcpEnd), Fail> {
    let stream = Listener::accept(listener)?.ok_or("no connection")?;
    let ends = Listener::open(listener, rt.alloc(), stream).map_err(|unready| unready.error)?;
    Ok(ends)
}

// Everything that is sent to the peer.
pub(crate) fn taken(alloc: Global, peer: &mut TcpStream) -> Result<Vec<u8>, Fail> {
    let mut answers = Vec::new(alloc);
    peer.read_to_end(&mut answers)?;
    Ok(answers)
}

// Expects that exactly this text is sent to the peer.
fn gets(rt: &impl Abort, alloc: Global, peer: &mut TcpStream, text: &[u8]) -> Result<(), Fail> {
    assert_eq!(rt; taken(alloc, peer)?.as_slice(), text);
    Ok(())
}

// Expects that nothing is sent to the peer.
fn gets_nothing(rt: &impl Abort, alloc: Global, peer: &mut TcpStream) -> Result<(), Fail> {
    assert_eq!(rt; taken(alloc, peer)?.len(), 0);
    Ok(())
}

// Expects that the answer is sent to the peer twice.
fn gets_both(rt: &impl Abort, alloc: Global, peer: &mut TcpStream) -> Result<(), Fail> {
    let answers = taken(alloc, peer)?;
    assert_eq!(rt; answers.len(), NO_BOX.len().saturating_mul(2));
    assert!(rt; answers.starts_with(NO_BOX));
    assert!(rt; answers.ends_with(NO_BOX));
    Ok(())
}

#[test]
fn two_requests_in_one_piece(rt: HostRuntime) -> Result<(), Fail> {
    let listener = bound(&rt)?;
    let mut peer = asking(&rt, &listener, 2)?;
    assert_eq!(rt; served(&rt, listener, 1, 8)?, whole(1, 0));
    gets_both(&rt, rt.alloc(), &mut peer)
}

#[test]
fn one_that_says_nothing_holds_nobody(rt: HostRuntime) -> Result<(), Fail> {
    let listener = bound(&rt)?;
    let mut silent = peer_of(&rt, &listener)?;
    let mut peer = asking(&rt, &listener, 1)?;
    assert_eq!(rt; served(&rt, listener, 2, 8)?, whole(2, 1));
    gets(&rt, rt.alloc(), &mut peer, NO_BOX)?;
    gets_nothing(&rt, rt.alloc(), &mut silent)
}

#[test]
fn at_the_bound_the_silent_one_goes(rt: HostRuntime) -> Result<(), Fail> {
    let listener = bound(&rt)?;
    let mut silent = peer_of(&rt, &listener)?;
    let mut peer = asking(&rt, &listener, 1)?;
    assert_eq!(rt; served(&rt, listener, 2, 1)?, whole(2, 0));
    gets(&rt, rt.alloc(), &mut peer, NO_BOX)?;
    gets_nothing(&rt, rt.alloc(), &mut silent)
}

#[test]
fn nobody_comes(rt: HostRuntime) -> Result<(), Fail> {
    let listener = bound(&rt)?;
    assert_eq!(rt; served(&rt, listener, 0, 8)?, whole(0, 0));
    Ok(())
}

// Expects that both ends are one socket, which has nothing to read yet.
fn is_one_socket(rt: &impl Abort, reader: &mut TcpEnd, writer: &TcpEnd) {
    assert_eq!(rt; reader.raw_fd(), writer.raw_fd());
    let mut buf = [0; 8];
    let nothing = reader.read(&mut buf).map_err(|error| error.kind());
    assert_eq!(rt; nothing, Err(ErrorKind::WouldBlock));
}

// Reads what the peer sent.
fn reads_asked(rt: &impl Abort, reader: &mut TcpEnd) -> Result<(), Fail> {
    let mut buf = [0; 8];
    assert_eq!(rt; reader.read(&mut buf)?, 5);
    assert!(rt; buf.starts_with(b"asked"));
    Ok(())
}

#[test]
fn both_ends_are_one_socket(rt: HostRuntime) -> Result<(), Fail> {
    let mut listener = bound(&rt)?;
    let mut peer = peer_of(&rt, &listener)?;
    let (mut reader, mut writer) = opened(&rt, &mut listener)?;
    is_one_socket(&rt, &mut reader, &writer);
    peer.write_all(b"asked")?;
    reads_asked(&rt, &mut reader)?;
    assert_eq!(rt; writer.write(b"told")?, 4);
    writer.end_writes()?;
    gets(&rt, rt.alloc(), &mut peer, b"told")
}

#[test]
fn an_end_stays_the_end(rt: HostRuntime) -> Result<(), Fail> {
    let mut listener = bound(&rt)?;
    let mut peer = peer_of(&rt, &listener)?;
    let (mut reader, _) = opened(&rt, &mut listener)?;
    peer.write_all(b"asked")?;
    peer.shutdown(Shutdown::Write)?;
    let mut buf = [0; 8];
    assert_eq!(rt; reader.read(&mut [])?, 0);
    assert_eq!(rt; reader.read(&mut buf)?, 5);
    assert_eq!(rt; reader.read(&mut buf)?, 0);
    assert_eq!(rt; reader.read(&mut buf)?, 0);
    Ok(())
}

// Gives these ends back to the listener.
fn give_back(alloc: Global, listener: &mut TcpListener, reader: TcpEnd, writer: TcpEnd) {
    let reader = Gathered::new(alloc, reader);
    let writer = Outbox::new(alloc, writer);
    Listener::close(listener, Seat::new(alloc, reader, writer));
}

#[test]
fn one_that_is_given_back_is_closed(rt: HostRuntime) -> Result<(), Fail> {
    let mut listener = bound(&rt)?;
    let mut peer = peer_of(&rt, &listener)?;
    let (reader, mut writer) = opened(&rt, &mut listener)?;
    assert_eq!(rt; writer.write(b"told")?, 4);
    give_back(rt.alloc(), &mut listener, reader, writer);
    gets(&rt, rt.alloc(), &mut peer, b"told")
}

// Expects that this many connections came, and each was opened and closed.
fn are_all(rt: &impl Abort, counts: Counts, came: u64) {
    assert_eq!(rt; counts.outcome.came, came);
    assert!(rt; counts.outcome.is_whole);
    assert_eq!(rt; counts.opened, came);
    assert_eq!(rt; counts.closed, came);
}

#[test]
fn each_that_came_was_opened_and_given_back(rt: HostRuntime) -> Result<(), Fail> {
    let listener = bound(&rt)?;
    let _silent = peer_of(&rt, &listener)?;
    let _peer = asking(&rt, &listener, 1)?;
    are_all(&rt, counted(&rt, listener, 2, 1)?, 2);
    Ok(())
}

#[test]
fn nobody_is_counted(rt: HostRuntime) -> Result<(), Fail> {
    are_all(&rt, counted(&rt, bound(&rt)?, 0, 8)?, 0);
    Ok(())
}
