//! What is known of a peer between two turns.
use crate::rooms::Share;
use std::time::{Duration, Instant};

/// For how many seconds the next bytes of a body may fail to make its turn due.
const BODY_SECONDS: u64 = 10;

/// How many bytes of a body make its turn due, if that many are to come. A peer sends them within
/// `BODY_SECONDS`.
pub(crate) const BODY_STEP: usize = 65_536;

/// The least bytes that are kept of a large body: the turn that ends it takes long.
const LARGE_BODY: usize = 262_144;

/// For how many seconds a connection is kept after its peer was told that no more comes.
const LAST_SECONDS: u64 = 1;

/// The phase of a connection.
#[derive(Clone, Copy)]
pub(crate) enum Phase {
    /// There is no connection.
    Free,
    /// The connection is idle between two messages, and nothing is ahead.
    Silent,
    /// Part of a head is ahead.
    Head,
    /// A body is being read.
    Body {
        /// How many bytes are ahead when its turn is due.
        goal: usize,
    },
    /// A body waits for room. Nothing is read.
    Waits,
    /// A turn is due: enough bytes are ahead, or the reader ended or failed.
    Due,
    /// An answer waits for the peer to accept it.
    Answer {
        /// How many of its bytes waited when the time began to count.
        mark: usize,
    },
    /// The session has ended. Bytes that the peer still sends are discarded.
    Leaving {
        /// How many bytes were discarded.
        taken: usize,
    },
}

impl Phase {
    /// The timeout of the phase, if it has one.
    pub(crate) fn bound(self, patience: Option<Duration>) -> Option<Duration> {
        match self {
            Phase::Free | Phase::Waits | Phase::Due => None,
            Phase::Silent | Phase::Head | Phase::Answer { .. } => patience,
            Phase::Body { .. } => patience.map(|_| Duration::from_secs(BODY_SECONDS)),
            Phase::Leaving { .. } => Some(Duration::from_secs(LAST_SECONDS)),
        }
    }
}

/// The state of a connection that is stored besides its slot.
#[derive(Clone, Copy)]
pub(crate) struct Peer {
    /// The phase.
    pub(crate) phase: Phase,
    /// When the time of the phase began to count.
    pub(crate) since: Instant,
    /// When bytes last came in the phase, or when it began.
    pub(crate) heard: Instant,
    /// Whether bytes, an end or a fault may be there to read.
    pub(crate) is_ready: bool,
    /// Whether the peer sends no more, or has failed. What it sent is followed by an end, and no further
    /// event tells that end.
    pub(crate) is_closing: bool,
    /// Whether a read found the end, or failed.
    pub(crate) is_over: bool,
    /// Whether its socket is registered with the poll.
    pub(crate) is_watched: bool,
    /// Whether no turn of it was due yet.
    pub(crate) is_new: bool,
    /// What its body takes of the memory that bodies share.
    pub(crate) share: Share,
    /// Its number: bodies are numbered as they begin.
    pub(crate) number: u64,
    /// Whether its body goes on although not all bodies fit.
    pub(crate) has_room: bool,
}

impl Peer {
    /// A slot without a connection.
    pub(crate) fn free(now: Instant) -> Peer {
        Peer {
            phase: Phase::Free,
            since: now,
            heard: now,
            is_ready: false,
            is_closing: false,
            is_over: false,
            is_watched: false,
            is_new: true,
            share: Share::NONE,
            number: 0,
            has_room: false,
        }
    }

    /// Whether its next turn ends a large body that is kept.
    pub(crate) fn ends_large_body(&self) -> bool {
        self.share.held >= LARGE_BODY && self.share.rest <= BODY_STEP
    }

    /// Notes an event of its socket: whether the peer sends no more, and whether bytes may be there.
    pub(crate) fn note(&mut self, is_closing: bool, is_readable: bool) {
        self.is_ready |= is_closing | is_readable;
        self.is_closing |= is_closing;
    }

    /// Whether the phase has lasted too long, or no byte of a body came within the timeout.
    pub(crate) fn is_late(&self, patience: Option<Duration>, now: Instant) -> bool {
        let is_body = matches!(self.phase, Phase::Body { .. });
        has_passed(self.phase.bound(patience), self.since, now)
            || is_body && has_passed(patience, self.heard, now)
    }
}

// Whether this much time has passed, if there is a bound.
fn has_passed(bound: Option<Duration>, since: Instant, now: Instant) -> bool {
    match bound {
        Some(bound) => now.duration_since(since) >= bound,
        None => false,
    }
}
