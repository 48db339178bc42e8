//! The timeouts, and which connection makes way for a new one.
use crate::actions::Action;
use crate::book::Book;
use crate::held::{Held, waiting_len};
use crate::peer::Phase;
use crate::socket::Listener;
use std::io::ErrorKind;
use std::time;
use std::time::{Duration, Instant};

/// How many seconds the next bytes of a body may take while another body waits for room.
const SHORT_SECONDS: u64 = 3;

/// How many bytes of answers may wait in total before a connection is cut off.
const MOST_WAITING: usize = 268_435_456;

impl<R: time::Clock, L: Listener> Book<'_, R, L> {
    /// The action on the connection in the slot, if it is over its timeout.
    pub(crate) fn end_of_patience(
        &mut self,
        slots: &[Option<Held<L::End>>],
        index: usize,
    ) -> Option<Action> {
        let Some(peer) = self.peers.get(index) else {
            return None;
        };
        if !peer.is_late(self.patience, self.now) {
            return None;
        }
        match peer.phase {
            Phase::Answer { .. } => self.cut(slots, index),
            Phase::Leaving { .. } => self.release(index),
            _ => self.give_up(slots, index, ErrorKind::TimedOut),
        }
    }

    /// The connection that has been idle longest between two messages, if one is idle. A connection that came
    /// since the last poll does not count yet, because bytes from it may be there without an event.
    pub(crate) fn most_silent(&self) -> Option<usize> {
        let mut oldest: Option<Lasting> = None;
        'slots: for (index, peer) in self.peers.iter().enumerate() {
            if matches!(peer.phase, Phase::Silent) && !peer.is_ready && peer.since < self.now {
                oldest = Some(older(oldest, index, peer.since));
            }
        }
        Some(oldest?.index)
    }

    /// The body with room whose next bytes take longest, if that is too long while another waits for room.
    pub(crate) fn slowest_body(&self) -> Option<usize> {
        let mut oldest: Option<Lasting> = None;
        'slots: for (index, peer) in self.peers.iter().enumerate() {
            if matches!(peer.phase, Phase::Body { .. }) && peer.has_room {
                oldest = Some(older(oldest, index, peer.since));
            }
        }
        let slowest = oldest?;
        if self.now.duration_since(slowest.since) < Duration::from_secs(SHORT_SECONDS) {
            return None;
        }
        Some(slowest.index)
    }

    /// If more bytes of answers wait than allowed: the connection whose peer has accepted nothing for the
    /// longest time.
    pub(crate) fn too_slow(&self, slots: &[Option<Held<L::End>>]) -> Option<usize> {
        let mut waiting: usize = 0;
        let mut oldest: Option<Lasting> = None;
        'slots: for (index, peer) in self.peers.iter().enumerate() {
            if let Phase::Answer { .. } = peer.phase {
                waiting = waiting.saturating_add(waiting_len(slots, index));
                oldest = Some(older(oldest, index, peer.since));
            }
        }
        if waiting <= MOST_WAITING {
            return None;
        }
        Some(oldest?.index)
    }
}

// A slot, and since when the phase of its peer counts.
#[derive(Clone, Copy)]
struct Lasting {
    index: usize,
    since: Instant,
}

// The one that has lasted longer: the one found so far, or this slot.
fn older(found: Option<Lasting>, index: usize, since: Instant) -> Lasting {
    match found {
        Some(other) if other.since <= since => other,
        _ => Lasting { index, since },
    }
}
