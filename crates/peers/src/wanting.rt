//! A listener while the system has no descriptor left.
use crate::loopback::{asking, bound, peer_of};
use boxes::Keeper;
use commands::{Outcome, serve};
use mio::Poll;
use office::{FixedClock, Office};
use sigv4::Moment;
use sockets::{Limits, Listener, TcpEnd, Unready};
use std::alloc::Global;
use std::io;
use std::net::{TcpListener, TcpStream};
use std::os::fd::{AsRawFd, RawFd};
use std::test::Fail;
use std::time::Duration;
use trials::published::{DATE, make_office};
use wire::{Gathered, Outbox, Seat};

/// The system's error number for "no descriptor left" (ENFILE).
const NO_DESCRIPTOR: i32 = 23;

// A listener that accepts `before` connections, and then fails `fails` times.
#[derive(Drop)]
struct Wanting {
    inner: TcpListener,
    before: u64,
    fails: u64,
    // Connections closed while it fails.
    gone: u64,
}

impl Wanting {
    // Whether accepting fails now.
    fn is_wanting(&self) -> bool {
        self.before == 0 && self.fails > 0
    }
}

impl AsRawFd for Wanting {
    fn as_raw_fd(&self) -> RawFd {
        self.inner.as_raw_fd()
    }
}

impl Listener for Wanting {
    type Stream = TcpStream;

    type End = TcpEnd;

    ghost use Rattle.std.specs.Prelude.{List, ⊤};
    ghost use Rattle.sockets.specs.Listening.{Event};

    ghost told = { λ _ _. ⊤ };

    ghost are_ends = { λ _ _ _. ⊤ };

    fn set_nonblocking(&self, nonblocking: bool) -> io::Result<()> {
        self.inner.set_nonblocking(nonblocking)
    }

    fn accept(&mut self) -> io::Result<Option<TcpStream>> {
        if self.is_wanting() {
            self.fails = self.fails.saturating_sub(1);
            return Err(io::Error::from_raw_os_error(NO_DESCRIPTOR));
        }
        let found = Listener::accept(&mut self.inner)?;
        if found.is_some() {
            self.before = self.before.saturating_sub(1);
        }
        Ok(found)
    }

    fn open(
        &mut self,
        alloc: Global,
        stream: TcpStream,
    ) -> Result<(TcpEnd, TcpEnd), Unready<TcpStream>> {
        Listener::open(&mut self.inner, alloc, stream)
    }

    fn close(&mut self, seat: Seat<Gathered<TcpEnd>, Outbox<TcpEnd>>)
        ensures closed { (log : List (Event TcpStream TcpEnd)) → ⊤ → ⊤ }
    {
        if self.is_wanting() {
            self.gone = self.gone.saturating_add(1);
        }
        Listener::close(&mut self.inner, seat);
    }
}

// Eight peers that have sent nothing yet.
fn silent_peers(rt: &HostRuntime, listener: &TcpListener) -> Result<Vec<TcpStream>, Fail> {
    let mut silent = Vec::new(rt.alloc());
    for _ in 0..8 {
        silent.push(peer_of(rt, listener)?)?;
    }
    Ok(silent)
}

// Serves nine connections. Returns the outcome, and how many were closed while accepting failed.
fn served_in_want<K: Keeper>(
    rt: &HostRuntime,
    office: &mut Office<K>,
    wanting: Wanting,
) -> Result<(Outcome, u64), Fail> {
    let moment = Moment::read(DATE).ok_or("no moment")?;
    let limits = Limits {
        connections: 9,
        patience: Some(Duration::from_secs(2)),
        open: 16,
        room: 64 << 20,
    };
    let mut clock = FixedClock::new(moment);
    let served = serve(rt, Poll::new(rt)?, office, wanting, limits, &mut clock);
    Ok((served.outcome?, served.listener.gone))
}

// One of eight idle connections is closed to free a descriptor. That does not help. So the next ones are closed a tenth of a
// second apart, at most one per two calls, and not all at once.
#[test]
fn where_it_does_not_help_the_others_stay(rt: HostRuntime) -> Result<(), Fail> {
    let inner = bound(&rt)?;
    let _silent = silent_peers(&rt, &inner)?;
    let _peer = asking(&rt, &inner, 1)?;
    let mut office = make_office(rt.alloc())?;
    let wanting = Wanting {
        inner,
        before: 8,
        fails: 6,
        gone: 0,
    };
    let (outcome, gone) = served_in_want(&rt, &mut office, wanting)?;
    assert_eq!(rt; outcome.came, 9);
    assert_eq!(rt; outcome.refused, 0);
    assert!(rt; outcome.is_whole);
    assert!(rt; gone >= 1);
    assert!(rt; gone <= 3);
    Ok(())
}
