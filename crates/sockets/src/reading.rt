//! Reading ahead. A turn is due once a short message or a head is whole, and for each piece of a long body.
use crate::actions::Action;
use crate::book::{Book, MOST_READ};
use crate::held::{Held, ahead_len, seat_at};
use crate::peer::{BODY_STEP, Phase};
use crate::socket::Listener;
use std::alloc::AllocError;
use std::io::{ErrorKind, Read};
use std::time;
use wire::{Gathered, Gathering, message_len};

/// The most bytes that one read of a head takes. Bytes after the head are kept for the next messages.
const HEAD_READ: usize = 4096;

/// A message of at most this many bytes is read whole before its turn. Of a longer one only the head is.
const SHORT_MESSAGE: usize = 16_384;

// What is ahead where a message may begin.
#[derive(Clone, Copy)]
enum Ahead {
    // Nothing.
    Nothing,
    // Part of a head.
    Head,
    // The head of a short message of this many bytes, but not the whole message.
    Part(usize),
    // A short message, or the head of a long one. Or the reader has failed; the next turn tells it.
    Due,
}

// What the reader has ahead.
fn ahead_of<S: Read>(reader: &Gathered<S>) -> Ahead {
    if reader.has_failed() {
        return Ahead::Due;
    }
    let ahead = reader.ahead();
    if ahead.is_empty() {
        return Ahead::Nothing;
    }
    match message_len(ahead) {
        Some(len) if len > ahead.len() && len <= SHORT_MESSAGE => Ahead::Part(len),
        Some(_) => Ahead::Due,
        None => Ahead::Head,
    }
}

impl<R: time::Clock, L: Listener> Book<'_, R, L> {
    /// Reads ahead, if bytes may be there and the message may be read on. Otherwise waits for the socket to
    /// become readable.
    pub(crate) fn read(&mut self, slots: &[Option<Held<L::End>>], index: usize) -> Option<Action> {
        let Some(most) = self.read_size(slots, index) else {
            return self.listen_to(slots, index);
        };
        if self.reads == 0 {
            self.is_behind = true;
            return None;
        }
        self.reads -= 1;
        Some(Action::Gather { index, most })
    }

    // The most bytes that the next read may take, if there may be a read.
    fn read_size(&self, slots: &[Option<Held<L::End>>], index: usize) -> Option<usize> {
        let peer = self.peers.get(index)?;
        if !peer.is_ready {
            return None;
        }
        match peer.phase {
            Phase::Silent | Phase::Head => Some(HEAD_READ),
            Phase::Body { goal } => {
                Some(goal.saturating_sub(ahead_len(slots, index)).min(MOST_READ))
            }
            _ => None,
        }
    }

    /// A read ahead had this result. `is_full` tells whether as many bytes came as could.
    pub(crate) fn gathered(
        &mut self,
        slots: &[Option<Held<L::End>>],
        index: usize,
        gathering: Result<Gathering, AllocError>,
        is_full: bool,
    ) -> Option<Action> {
        match gathering {
            Ok(Gathering::Came) => {
                self.note_bytes(index, is_full);
                self.advance(slots, index)
            }
            Ok(Gathering::Waits) => self.note_wait(index),
            Ok(Gathering::Ended) | Ok(Gathering::Failed) => self.end(index),
            Err(_) => self.give_up(slots, index, ErrorKind::OutOfMemory),
        }
    }

    // Bytes came. If the read was not full, no more bytes are there, except an end that was told already.
    fn note_bytes(&mut self, index: usize, is_full: bool) {
        if let Some(peer) = self.peers.get_mut(index) {
            peer.heard = self.now;
            peer.is_ready = is_full || peer.is_closing;
        }
    }

    // Nothing is there. If nothing is ahead, the memory is freed.
    fn note_wait(&mut self, index: usize) -> Option<Action> {
        if let Some(peer) = self.peers.get_mut(index) {
            peer.is_ready = false;
        }
        Some(Action::Settle { index })
    }

    // The reader ended or failed. The next turn tells it.
    pub(crate) fn end(&mut self, index: usize) -> Option<Action> {
        if let Some(peer) = self.peers.get_mut(index) {
            peer.is_over = true;
        }
        self.make_due(index)
    }

    // Goes on after bytes came.
    fn advance(&mut self, slots: &[Option<Held<L::End>>], index: usize) -> Option<Action> {
        match self.phase(index) {
            Phase::Body { goal } if ahead_len(slots, index) >= goal => self.make_due(index),
            Phase::Silent | Phase::Head => self.judge(slots, index),
            _ => self.read(slots, index),
        }
    }

    /// Judges what is ahead between two turns. Reads on if more is to come.
    pub(crate) fn judge(&mut self, slots: &[Option<Held<L::End>>], index: usize) -> Option<Action> {
        let seat = seat_at(slots, index)?;
        if let Some(rest) = seat.to_come() {
            return self.judge_body(slots, index, rest);
        }
        match ahead_of(&seat.reader.inner) {
            Ahead::Due => return self.make_due(index),
            Ahead::Part(goal) => self.enter(index, Phase::Body { goal }),
            Ahead::Head if matches!(self.phase(index), Phase::Head) => {}
            Ahead::Head => self.enter(index, Phase::Head),
            Ahead::Nothing => self.enter(index, Phase::Silent),
        }
        self.read(slots, index)
    }

    // Judges what is ahead of a body of which this many bytes are to come. It waits if it is kept and there is no
    // room for it.
    fn judge_body(
        &mut self,
        slots: &[Option<Held<L::End>>],
        index: usize,
        rest: usize,
    ) -> Option<Action> {
        let goal = rest.min(BODY_STEP);
        let has_failed = seat_at(slots, index)?.reader.inner.has_failed();
        if has_failed || ahead_len(slots, index) >= goal {
            return self.make_due(index);
        }
        if !self.has_room(index) {
            self.is_waiting = true;
            self.enter(index, Phase::Waits);
            return None;
        }
        self.enter(index, Phase::Body { goal });
        self.read(slots, index)
    }

    // Whether the peer's body may be read on: it is not kept, or all fit, or it was chosen.
    fn has_room(&self, index: usize) -> bool {
        match self.peers.get(index) {
            Some(peer) if self.rooms.is_short() => peer.share.rest == 0 || peer.has_room,
            _ => true,
        }
    }
}
