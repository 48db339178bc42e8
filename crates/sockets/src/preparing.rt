//! What a run of the loop begins with.
ghost use Rattle.std.specs.Prelude.{◌≡◌, ℕ, length, IfOk, None};
ghost use Rattle.wire.specs.Crowds.{slot_at};

use crate::book::{Book, LISTENER, Lists, Turns};
use crate::held::Held;
use crate::socket::Listener;
use mio::unix::SourceFd;
use mio::{Interest, Poll};
use std::alloc::{AllocError, Global};
use std::time::{Duration, Instant};
use std::{io, time};

/// The limits on connections.
#[derive(Clone, Copy, PartialEq, Eq)]
pub struct Limits {
    /// The most connections that are accepted in all, including those that fail.
    pub connections: u64,
    /// How long a peer may keep a connection waiting. Without it there is no timeout.
    pub patience: Option<Duration>,
    /// How many connections may be open at a time, at least 1. Each takes a descriptor.
    pub open: usize,
    /// How many bytes of bodies may be kept while the rest of them comes. One body is kept even if it is
    /// larger.
    pub room: usize,
}

/// The state of the loop, and free slots.
///
/// # Errors
///
/// Memory was refused, or the poll does not take the listener, or the system can't tell the time.
pub fn prepare<'a, L: Listener, R: time::Clock>(
    rt: &'a R,
    poll: Poll,
    alloc: Global,
    listener: &L,
    limits: Limits,
) -> io::Result<(Book<'a, R, L>, Vec<Option<Held<L::End>>>)>
    ensures free { IfOk result (λ prepared. (p : ℕ) → slot_at prepared.1.items p ≡ None) }
    ensures room { IfOk result (λ prepared. length prepared.1.items ≡ limits.«open») }
{
    watch_listener(&poll, listener)?;
    let now = Instant::now(rt)?;
    let turns = Turns::new(alloc, limits.open, limits.room)?;
    let lists = Lists::new(alloc, limits.open, now)?;
    let slots = free_slots(alloc, limits.open)?;
    let book = Book::new(rt, alloc, limits, now, poll, lists, turns);
    Ok((book, slots))
}

// The poll tells when connections may be accepted, and no call of the listener waits for one.
fn watch_listener<L: Listener>(poll: &Poll, listener: &L) -> io::Result<()> {
    listener.set_nonblocking(true)?;
    let fd = listener.as_raw_fd();
    poll.registry()
        .register(&mut SourceFd(&fd), LISTENER, Interest::READABLE)
}

// This many free slots.
fn free_slots<S: Drop>(alloc: Global, n: usize) -> Result<Vec<Option<Held<S>>>, AllocError>
    ensures free { IfOk result (λ slots. (p : ℕ) → slot_at slots.items p ≡ None) }
    ensures room { IfOk result (λ slots. length slots.items ≡ n) }
{
    let mut slots = Vec::with_capacity(alloc, n)?;
    'slots: for _index in 0..n {
        slots.push(None)?;
    }
    Ok(slots)
}
