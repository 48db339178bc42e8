//! Accepting connections.
use crate::actions::{Action, Outcome};
use crate::book::Book;
use crate::held::Held;
use crate::peer::{Peer, Phase};
use crate::socket::Listener;
use crate::stages::Stage;
use std::time;

impl<R: time::Clock, L: Listener> Book<'_, R, L> {
    /// The next step to take in a connection, if one may come: a waiting connection is let in, or the
    /// listener is asked. If no slot is free, the connection that has been idle longest is closed. `None` if
    /// no connection can come now.
    pub(crate) fn next_to_come(&mut self) -> Option<Action> {
        if self.door.has_guest() {
            if self.has_free_slot() {
                return Some(Action::LetIn);
            }
            return self.make_way();
        }
        if self.door.is_open() {
            return Some(Action::Accept);
        }
        None
    }

    /// Whether a slot is free.
    pub(crate) fn has_free_slot(&self) -> bool {
        self.taken < self.peers.len()
    }

    /// Whether a connection may be accepted, or let in, at once.
    pub(crate) fn may_accept(&self) -> bool {
        if self.door.has_guest() {
            return self.has_free_slot() || self.most_silent().is_some();
        }
        self.door.is_open()
    }

    // Closes the connection that has been idle longest. If none is idle, no more connections come in this
    // round.
    fn make_way(&mut self) -> Option<Action> {
        let way = self.way();
        if way.is_none() {
            self.stage = Stage::Cuts;
        }
        way
    }

    // The task that closes the connection that has been idle longest, if one is idle.
    fn way(&self) -> Option<Action> {
        let index = self.most_silent()?;
        self.release(index)
    }

    // Memory or descriptors are short: accepts none for a while, and closes an idle connection, unless
    // closing the last one did not help.
    fn want(&mut self) -> Option<Action> {
        self.door.pause(self.now);
        if self.door.is_relieved(self.now) {
            self.stage = Stage::Cuts;
            return None;
        }
        let way = self.make_way();
        if way.is_some() {
            self.door.relieve(self.now);
        }
        way
    }

    /// The listener was asked for a connection, or a connection was to be let in.
    pub(crate) fn at_door(
        &mut self,
        slots: &[Option<Held<L::End>>],
        outcome: Outcome,
    ) -> Option<Action> {
        match outcome {
            Outcome::Came => {
                self.door.welcome();
                self.next_to_come()
            }
            Outcome::Refused => {
                self.door.refuse();
                None
            }
            Outcome::NoneCame => {
                self.door.rest();
                self.stage = Stage::Cuts;
                None
            }
            Outcome::Entered { index } => self.opened(slots, index),
            Outcome::Away => {
                self.door.clear();
                None
            }
            Outcome::Wanting => self.want(),
            _ => None,
        }
    }

    // A connection came into this slot. Reads it at once, because only a connection with nothing to read
    // counts as idle.
    fn opened(&mut self, slots: &[Option<Held<L::End>>], index: usize) -> Option<Action> {
        self.door.enter();
        self.taken = self.taken.saturating_add(1);
        if let Some(peer) = self.peers.get_mut(index) {
            *peer = Peer::free(self.now);
            peer.phase = Phase::Silent;
            peer.is_ready = true;
        }
        self.read(slots, index)
    }
}
