//! Leaving a connection. If a socket is closed while unread bytes are there, the connection is reset and the
//! peer may lose the last answer. So the peer is told that no more comes, and what it still sends is read for
//! a while.
use crate::actions::Action;
use crate::book::Book;
use crate::held::{Held, seat_at};
use crate::peer::Phase;
use crate::socket::{End, Listener};
use std::io::ErrorKind;
use std::{io, time};

/// The most bytes that are discarded.
const LAST_BYTES: usize = 262_144;

/// The most reads in a row that discard them.
const LAST_READS: usize = 64;

impl<R: time::Clock, L: Listener> Book<'_, R, L> {
    /// Starts to leave a connection whose session has ended and for which no bytes wait.
    pub(crate) fn leave(&mut self, slots: &[Option<Held<L::End>>], index: usize) -> Option<Action> {
        let stream = &seat_at(slots, index)?.reader.inner.inner;
        if stream.end_writes().is_err() {
            return self.release(index);
        }
        self.enter(index, Phase::Leaving { taken: 0 });
        self.throw_away(slots, index)
    }

    /// Discards what the peer of such a connection still sends. The connection is closed at the end of the
    /// stream.
    pub(crate) fn throw_away(
        &mut self,
        slots: &[Option<Held<L::End>>],
        index: usize,
    ) -> Option<Action> {
        'reads: for _ in 0..LAST_READS {
            match self.read_last(slots, index) {
                Ok(n) if n > 0 && self.count_last(index, n) => {}
                Err(error) if error.kind() == ErrorKind::WouldBlock => {
                    return self.listen_to(slots, index);
                }
                Ok(_) | Err(_) => return self.release(index),
            }
        }
        self.release(index)
    }

    // Reads once and discards the bytes.
    fn read_last(&mut self, slots: &[Option<Held<L::End>>], index: usize) -> io::Result<usize> {
        match seat_at(slots, index) {
            Some(seat) if seat.end().is_some() => L::End::throw_away(seat, &mut self.buf),
            _ => Ok(0),
        }
    }

    // Counts discarded bytes. Returns whether more may be discarded.
    fn count_last(&mut self, index: usize, n: usize) -> bool {
        let Some(peer) = self.peers.get_mut(index) else {
            return false;
        };
        let Phase::Leaving { taken } = peer.phase else {
            return false;
        };
        let taken = taken.saturating_add(n);
        peer.phase = Phase::Leaving { taken };
        taken < LAST_BYTES
    }
}
