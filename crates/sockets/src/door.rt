//! Whether the listener may be asked for connections now.
use std::time::{Duration, Instant};

/// For how many milliseconds no connection is accepted after memory or descriptors were short, unless a
/// connection is closed earlier.
const PAUSE_MILLIS: u64 = 100;

/// Whether the listener may be asked for connections, and whether a waiting connection may be let in.
#[derive(Drop)]
pub(crate) struct Door {
    // An accepted connection waits to be let in.
    guest: bool,
    // How many connections are still to be accepted, including those that fail.
    to_come: u64,
    // Whether connections may be there. An event comes once, and holds until an `accept` would wait.
    is_ready: bool,
    // Since when no connection is accepted because memory or descriptors are short.
    paused: Option<Instant>,
    // When a connection was closed because of a shortage that has not ended yet.
    relieved: Option<Instant>,
}

impl Door {
    /// A door at which this many connections are to come.
    pub(crate) fn new(connections: u64) -> Door {
        Door {
            guest: false,
            to_come: connections,
            is_ready: true,
            paused: None,
            relieved: None,
        }
    }

    /// A connection was accepted, and waits to be let in.
    pub(crate) fn welcome(&mut self) {
        self.to_come = self.to_come.saturating_sub(1);
        self.guest = true;
    }

    /// A connection could not be accepted.
    pub(crate) fn refuse(&mut self) {
        self.to_come = self.to_come.saturating_sub(1);
    }

    /// No connection waits to be let in any more.
    pub(crate) fn clear(&mut self) {
        self.guest = false;
    }

    /// Notes that connections may be there.
    pub(crate) fn knock(&mut self) {
        self.is_ready = true;
    }

    /// Notes that no connection is there.
    pub(crate) fn rest(&mut self) {
        self.is_ready = false;
    }

    /// Whether no more connections are to come.
    pub(crate) fn is_shut(&self) -> bool {
        self.to_come == 0 && !self.guest
    }

    /// Whether no connection may come now because memory or descriptors are short.
    pub(crate) fn is_paused(&self) -> bool {
        self.paused.is_some()
    }

    /// Whether the listener can be asked for a connection at once.
    pub(crate) fn is_open(&self) -> bool {
        self.to_come > 0 && self.is_ready && !self.guest && self.paused.is_none()
    }

    /// Whether an accepted connection waits and may be let in.
    pub(crate) fn has_guest(&self) -> bool {
        self.guest && self.paused.is_none()
    }

    /// Stops accepting for a while, because memory or descriptors are short.
    pub(crate) fn pause(&mut self, now: Instant) {
        self.paused = Some(now);
    }

    /// Notes that a connection is closed because of a shortage.
    pub(crate) fn relieve(&mut self, now: Instant) {
        self.relieved = Some(now);
    }

    /// Whether a connection was just closed because of a shortage that has not ended yet.
    pub(crate) fn is_relieved(&self, now: Instant) -> bool {
        lasts(self.relieved, now)
    }

    /// Notes that the waiting connection came in, so a shortage has ended.
    pub(crate) fn enter(&mut self) {
        self.guest = false;
        self.relieved = None;
    }

    /// Ends a pause, because a descriptor was closed.
    pub(crate) fn end_pause(&mut self) {
        self.paused = None;
    }

    /// Ends a pause that has lasted long enough.
    pub(crate) fn look(&mut self, now: Instant) {
        if !lasts(self.paused, now) {
            self.paused = None;
        }
    }
}

// Whether the pause since then, if there is one, is not over yet.
fn lasts(since: Option<Instant>, now: Instant) -> bool {
    match since {
        Some(since) => now.duration_since(since) < Duration::from_millis(PAUSE_MILLIS),
        None => false,
    }
}
