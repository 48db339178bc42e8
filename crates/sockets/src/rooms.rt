//! The memory that the bodies of uploads share while they come.
use crate::peer::Peer;
use std::alloc::{AllocError, Global};

/// What a body takes of the shared memory.
#[derive(Clone, Copy)]
pub(crate) struct Share {
    /// How many of its bytes are kept.
    pub(crate) held: usize,
    /// How many are still to come.
    pub(crate) rest: usize,
}

impl Share {
    /// Nothing: no body is kept.
    pub(crate) const NONE: Share = Share { held: 0, rest: 0 };

    /// Whether no body is kept.
    pub(crate) fn is_none(self) -> bool {
        self.held == 0 && self.rest == 0
    }
}

// A body that has not come whole.
#[derive(Clone, Copy)]
struct Coming {
    // Its slot.
    index: usize,
    // How many bytes are still to come.
    rest: usize,
    // Its number: bodies are numbered as they begin.
    number: u64,
}

/// The memory for bodies that are kept as they come. While all of them fit into the bound, all go on. Otherwise
/// the one that began first goes on, and then those with the least to come: as many as fit beside what is held,
/// and at least one. The others are not read until there is room.
#[derive(Drop)]
pub(crate) struct Rooms {
    // The bound, in bytes.
    most: usize,
    // How many bytes of bodies are kept.
    held: usize,
    // How many bytes of these bodies are still to come.
    rest: usize,
    // How many bodies have begun.
    begun: u64,
    // Whether one has ended since the last choice.
    is_freed: bool,
    // The bodies that have not come whole: the one that began first, then those with the least to come.
    coming: Vec<Coming>,
}

impl Rooms {
    /// Room for this many bytes, for the bodies of this many connections.
    pub(crate) fn new(alloc: Global, most: usize, connections: usize) -> Result<Rooms, AllocError> {
        Ok(Rooms {
            most,
            held: 0,
            rest: 0,
            begun: 0,
            is_freed: false,
            coming: Vec::with_capacity(alloc, connections)?,
        })
    }

    /// Sets the share of a connection. A body that begins gets the next number, and one that ended has no room.
    pub(crate) fn set(&mut self, peer: &mut Peer, share: Share) {
        let old = peer.share;
        self.held = self
            .held
            .saturating_sub(old.held)
            .saturating_add(share.held);
        self.rest = self
            .rest
            .saturating_sub(old.rest)
            .saturating_add(share.rest);
        if old.is_none() {
            self.begun = self.begun.saturating_add(1);
            peer.number = self.begun;
        }
        if share.is_none() {
            peer.has_room = false;
            self.is_freed |= !old.is_none();
        }
        peer.share = share;
    }

    /// Whether a body has ended since the last choice, so that others may go on.
    pub(crate) fn is_freed(&self) -> bool {
        self.is_freed
    }

    /// Whether not all bodies fit.
    pub(crate) fn is_short(&self) -> bool {
        self.held.saturating_add(self.rest) > self.most
    }

    /// Chooses the bodies that go on.
    pub(crate) fn choose(&mut self, peers: &mut [Peer]) {
        self.is_freed = false;
        self.list(peers);
        let first = self.first_begun();
        self.coming
            .sort_unstable_by_key(|one| if one.number == first { 0 } else { one.rest });
        'bodies: for at in 0..self.fitting() {
            self.admit(peers, at);
        }
    }

    // Lists the bodies that have not come whole. None of them has room yet.
    fn list(&mut self, peers: &mut [Peer]) {
        self.coming.clear();
        'peers: for index in 0..peers.len() {
            peers[index].has_room = false;
            let Peer { share, number, .. } = peers[index];
            if share.rest > 0 {
                let rest = share.rest;
                let _ = self.coming.push(Coming {
                    index,
                    rest,
                    number,
                });
            }
        }
    }

    // The number of the listed body that began first.
    fn first_begun(&self) -> u64 {
        let mut first = u64::MAX;
        'bodies: for one in self.coming.iter() {
            first = first.min(one.number);
        }
        first
    }

    // How many of the listed bodies fit, or 1 if the first does not.
    fn fitting(&self) -> usize {
        let mut total = self.held;
        'bodies: for (at, one) in self.coming.iter().enumerate() {
            total = total.saturating_add(one.rest);
            if at > 0 && total > self.most {
                return at;
            }
        }
        self.coming.len()
    }

    // Gives room to the listed body at this place.
    fn admit(&self, peers: &mut [Peer], at: usize) {
        let Some(one) = self.coming.get(at) else {
            return;
        };
        if let Some(peer) = peers.get_mut(one.index) {
            peer.has_room = true;
        }
    }
}
