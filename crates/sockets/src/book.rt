//! What the loop stores besides the slots: the phase of each peer, the turns that are due, and what the
//! sockets told.
use crate::actions::Action;
use crate::door::Door;
use crate::held::{Held, seat_at};
use crate::peer::{Peer, Phase};
use crate::preparing::Limits;
use crate::rooms::{Rooms, Share};
use crate::rounds::Rounds;
use crate::socket::Listener;
use crate::stages::Stage;
use mio::event::Event;
use mio::{Events, Poll, Token};
use std::alloc::{AllocError, Global};
use std::io::ErrorKind;
use std::marker::PhantomData;
use std::time::{Duration, Instant};
use std::{mem, time};
use wire::Spare;

/// The token of the listener. Every other token is the index of a slot.
pub(crate) const LISTENER: Token = Token(usize::MAX);

/// The most bytes that one read takes.
pub(crate) const MOST_READ: usize = 65_536;

/// What is stored besides the slots.
#[derive(Drop)]
pub struct Book<'a, R, L: Listener> {
    pub(crate) rt: &'a R,
    pub(crate) alloc: Global,
    pub(crate) patience: Option<Duration>,
    pub(crate) poll: Poll,
    pub(crate) events: Events,
    /// The events of the last poll.
    pub(crate) ready: Vec<Event>,
    /// The buffer for what is discarded.
    pub(crate) buf: Vec<u8>,
    pub(crate) peers: Vec<Peer>,
    /// How many slots hold a connection.
    pub(crate) taken: usize,
    pub(crate) rounds: Rounds,
    pub(crate) rooms: Rooms,
    pub(crate) door: Door,
    pub(crate) stage: Stage,
    /// What the next turn takes, as far as it is there.
    pub(crate) spare: Spare,
    /// The slot that had the last turn, until it is processed.
    pub(crate) turned: Option<usize>,
    pub(crate) now: Instant,
    /// When the timeouts were last checked.
    pub(crate) looked: Instant,
    /// How many more times the connection may be read before others are.
    pub(crate) reads: usize,
    /// Whether a connection was left that can be read at once.
    pub(crate) is_behind: bool,
    /// Whether a body waits for room.
    pub(crate) is_waiting: bool,
    /// Whether more answers wait than before.
    pub(crate) is_laden: bool,
    // The listener of the connections in the slots.
    of: PhantomData<L>,
}

/// The lists of a book, empty.
#[derive(Drop)]
pub(crate) struct Lists {
    events: Events,
    ready: Vec<Event>,
    buf: Vec<u8>,
    peers: Vec<Peer>,
}

impl Lists {
    /// For so many slots.
    pub(crate) fn new(alloc: Global, slots: usize, now: Instant) -> Result<Lists, AllocError> {
        let sources = slots.saturating_add(1);
        Ok(Lists {
            events: Events::with_capacity(alloc, sources)?,
            ready: Vec::with_capacity(alloc, sources)?,
            buf: vec![in alloc; 0; MOST_READ]?,
            peers: vec![in alloc; Peer::free(now); slots]?,
        })
    }
}

/// What the turns of a book take.
#[derive(Drop)]
pub(crate) struct Turns {
    rounds: Rounds,
    rooms: Rooms,
    spare: Spare,
}

impl Turns {
    /// For so many slots. Their bodies share this much room, in bytes.
    pub(crate) fn new(alloc: Global, slots: usize, room: usize) -> Result<Turns, AllocError> {
        let mut spare = Spare::none();
        spare.fill(alloc)?;
        Ok(Turns {
            rounds: Rounds::with_capacity(alloc, slots)?,
            rooms: Rooms::new(alloc, room, slots)?,
            spare,
        })
    }
}

impl<'a, R: time::Clock, L: Listener> Book<'a, R, L> {
    /// A book without connections, whose poll has the listener.
    pub(crate) fn new(
        rt: &'a R,
        alloc: Global,
        limits: Limits,
        now: Instant,
        poll: Poll,
        lists: Lists,
        turns: Turns,
    ) -> Book<'a, R, L> {
        let Lists {
            events,
            ready,
            buf,
            peers,
        } = lists;
        let Turns {
            rounds,
            rooms,
            spare,
        } = turns;
        Book {
            rt,
            alloc,
            patience: limits.patience,
            poll,
            events,
            ready,
            buf,
            peers,
            taken: 0,
            rounds,
            rooms,
            door: Door::new(limits.connections),
            stage: Stage::Turns,
            spare,
            turned: None,
            now,
            looked: now,
            reads: 0,
            is_behind: false,
            is_waiting: false,
            is_laden: false,
            of: PhantomData,
        }
    }
}

impl<R: time::Clock, L: Listener> Book<'_, R, L> {
    /// The phase of the peer in the slot.
    pub(crate) fn phase(&self, index: usize) -> Phase {
        match self.peers.get(index) {
            Some(peer) => peer.phase,
            None => Phase::Free,
        }
    }

    /// Starts a phase of the peer.
    pub(crate) fn enter(&mut self, index: usize, phase: Phase) {
        if let Some(peer) = self.peers.get_mut(index) {
            peer.phase = phase;
            peer.since = self.now;
            peer.heard = self.now;
        }
    }

    /// Makes a turn due.
    pub(crate) fn make_due(&mut self, index: usize) -> Option<Action> {
        if matches!(self.phase(index), Phase::Due) {
            return None;
        }
        match self.push(index) {
            Ok(()) => self.enter(index, Phase::Due),
            Err(_) => self.is_behind = true,
        }
        None
    }

    // Gives the slot a turn in the next round, for which there is memory, or a later one if it ends a large body.
    // A connection that was just accepted has its first turn in this round, if there is memory for that.
    fn push(&mut self, index: usize) -> Result<(), AllocError> {
        let (is_first, is_long) = match self.peers.get_mut(index) {
            Some(peer) => (mem::take(&mut peer.is_new), peer.ends_large_body()),
            None => (false, false),
        };
        if is_long {
            return self.rounds.push_long(index);
        }
        let is_now = is_first && matches!(self.stage, Stage::Accept(_));
        if is_now && self.rounds.push_now(index).is_ok() {
            return Ok(());
        }
        self.rounds.push(index)
    }

    /// Makes the connection fail. Its turn tells the failure; if its session has ended, the connection is
    /// closed.
    pub(crate) fn give_up(
        &mut self,
        slots: &[Option<Held<L::End>>],
        index: usize,
        kind: ErrorKind,
    ) -> Option<Action> {
        match seat_at(slots, index) {
            Some(seat) if seat.end().is_none() => Some(Action::Fail { index, kind }),
            _ => self.release(index),
        }
    }

    /// Closes the connection, if there is one.
    pub(crate) fn release(&self, index: usize) -> Option<Action> {
        if matches!(self.phase(index), Phase::Free) {
            return None;
        }
        Some(Action::Free { index })
    }

    /// The slot was freed. What its body took of the shared memory is returned.
    pub(crate) fn freed(&mut self, index: usize) {
        self.set_share(index, Share::NONE);
        self.enter(index, Phase::Free);
        self.taken = self.taken.saturating_sub(1);
        self.door.end_pause();
    }

    /// Sets what the peer's body takes of the shared memory.
    pub(crate) fn set_share(&mut self, index: usize, share: Share) {
        if let Some(peer) = self.peers.get_mut(index) {
            self.rooms.set(peer, share);
        }
    }
}
