//! A listener that counts the connections it opens and closes.
ghost use Rattle.std.specs.Prelude.{◌≡◌, ◌++◌, ◌∷◌, [], IfOk, List, true};
ghost use Rattle.peers.specs.Counts.{Counts};
ghost use Rattle.sockets.specs.Listening.{Event, closed};

use boxes::Keeper;
use commands::{Served, serve};
use mio::Poll;
use office::{Clock, Office};
use sockets::{Limits, Listener, TcpEnd, Unready};
use std::alloc::Global;
use std::net::TcpListener;
use std::os::fd::{AsRawFd, RawFd};
use std::{io, time};
use wire::{Gathered, Outbox, Seat};

/// A listener that counts the connections it opens and closes. A count stops at 2^64 - 1.
#[derive(Drop)]
pub struct Counting<L> {
    inner: L,
    /// Connections opened.
    pub opened: u64,
    /// Connections closed.
    pub closed: u64,
}

impl<L> Counting<L> {
    /// Starts both counts at 0.
    pub fn new(inner: L) -> Counting<L>
        ensures inner { result.inner ≡ inner }
        ensures none { (result.opened ≡ 0) × (result.closed ≡ 0) }
    {
        Counting {
            inner,
            opened: 0,
            closed: 0,
        }
    }
}

impl<L: AsRawFd> AsRawFd for Counting<L> {
    fn as_raw_fd(&self) -> RawFd {
        self.inner.as_raw_fd()
    }
}

impl<L: Listener> Listener for Counting<L> {
    type Stream = L::Stream;

    type End = L::End;

    ghost told = { λ listener log. Counts L.told listener.inner listener.opened listener.closed log };

    ghost are_ends = { L.are_ends };

    fn set_nonblocking(&self, nonblocking: bool) -> io::Result<()> {
        self.inner.set_nonblocking(nonblocking)
    }

    fn accept(&mut self) -> io::Result<Option<L::Stream>> {
        self.inner.accept()
    }

    fn open(
        &mut self,
        alloc: Global,
        stream: L::Stream,
    ) -> Result<(L::End, L::End), Unready<L::Stream>> {
        match self.inner.open(alloc, stream) {
            Ok(ends) => {
                self.opened = self.opened.saturating_add(1);
                Ok(ends)
            }
            Err(unready) => Err(unready),
        }
    }

    fn close(&mut self, seat: Seat<Gathered<L::End>, Outbox<L::End>>)
        ensures closed { (log : List (Event L.Stream L.End))
            → Counts L.told self.old.inner self.old.opened self.old.closed log
            → Counts L.told self.new.inner self.new.opened self.new.closed (log ++ closed seat ∷ []) }
    {
        self.inner.close(seat);
        self.closed = self.closed.saturating_add(1);
    }
}

/// Serves the connections of a listener, and returns it with its counts. It has opened every connection that came. It has
/// closed as many if all connections are gone.
pub fn serve_counted<K: Keeper, C: Clock, R: time::Clock>(
    rt: &R,
    poll: Poll,
    office: &mut Office<K>,
    listener: TcpListener,
    limits: Limits,
    clock: &mut C,
) -> Served<Counting<TcpListener>, TcpEnd>
    ensures opened { IfOk result.outcome (λ outcome. result.listener.opened ≡ outcome.came) }
    ensures closed { IfOk result.outcome (λ outcome. outcome.is_whole ≡ true → result.listener.closed ≡ outcome.came) }
{
    serve(rt, poll, office, Counting::new(listener), limits, clock)
}
