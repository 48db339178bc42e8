//! Answers that wait until their peers accept them.
use crate::actions::Action;
use crate::book::Book;
use crate::held::{Held, seat_at, share_at, waiting_len};
use crate::peer::Phase;
use crate::socket::{End, Listener};
use mio::unix::SourceFd;
use mio::{Interest, Poll, Token};
use std::io::ErrorKind;
use std::os::fd::RawFd;
use std::{mem, time};
use wire::{Buffer, Sending, SessionEnd};

impl<R: time::Clock, L: Listener> Book<'_, R, L> {
    /// The feed returned this buffer, if it had one of its own. After a turn the waiting bytes are sent.
    pub(crate) fn settled(
        &mut self,
        slots: &[Option<Held<L::End>>],
        index: usize,
        buffer: Option<Buffer>,
    ) -> Option<Action> {
        self.spare.take_back(buffer);
        let Phase::Due = self.phase(index) else {
            return self.listen_to(slots, index);
        };
        self.set_share(index, share_at(slots, index));
        self.enter(index, Phase::Silent);
        if waiting_len(slots, index) == 0 {
            return self.go_on(slots, index);
        }
        Some(Action::Send { index })
    }

    /// A send had this result. Once all bytes are sent, the connection goes on.
    pub(crate) fn sent(
        &mut self,
        slots: &[Option<Held<L::End>>],
        index: usize,
        sending: Sending,
    ) -> Option<Action> {
        match sending {
            Sending::Sent => self.go_on(slots, index),
            Sending::Waits => self.hold(slots, index),
            Sending::Failed => self.give_up(slots, index, ErrorKind::BrokenPipe),
        }
    }

    // An answer waits. More of it is sent when the peer has accepted some.
    fn hold(&mut self, slots: &[Option<Held<L::End>>], index: usize) -> Option<Action> {
        let waiting = waiting_len(slots, index);
        match self.phase(index) {
            Phase::Answer { mark } if waiting >= mark => return None,
            Phase::Answer { .. } => {
                self.enter(index, Phase::Answer { mark: waiting });
                return None;
            }
            _ => {}
        }
        self.enter(index, Phase::Answer { mark: waiting });
        self.is_laden = true;
        if !self.watch(slots, index, true) {
            return self.cut(slots, index);
        }
        None
    }

    // No answer waits any more: reads the next message, or leaves the connection.
    fn go_on(&mut self, slots: &[Option<Held<L::End>>], index: usize) -> Option<Action> {
        if matches!(self.phase(index), Phase::Answer { .. }) {
            if !self.watch(slots, index, false) {
                return self.give_up(slots, index, ErrorKind::Other);
            }
            self.enter(index, Phase::Silent);
        }
        match seat_at(slots, index)?.end() {
            None => self.judge(slots, index),
            Some(end) if may_close(end) => self.release(index),
            Some(_) => self.leave(slots, index),
        }
    }

    /// Registers the socket for reads, if it is not registered yet.
    pub(crate) fn listen_to(
        &mut self,
        slots: &[Option<Held<L::End>>],
        index: usize,
    ) -> Option<Action> {
        let Some(peer) = self.peers.get(index) else {
            return None;
        };
        if peer.is_watched || self.watch(slots, index, false) {
            return None;
        }
        self.give_up(slots, index, ErrorKind::Other)
    }

    // Registers the socket for reads and, if answers wait, also for writes. Returns whether the poll took it.
    fn watch(&mut self, slots: &[Option<Held<L::End>>], index: usize, is_waiting: bool) -> bool {
        let (Some(seat), Some(peer)) = (seat_at(slots, index), self.peers.get_mut(index)) else {
            return true;
        };
        let fd = seat.reader.inner.inner.raw_fd();
        let was_watched = mem::replace(&mut peer.is_watched, true);
        register(&self.poll, fd, index, interests(is_waiting), was_watched)
    }

    /// Cuts off a connection whose peer accepts no answer. Its writes fail from now on.
    pub(crate) fn cut(&mut self, slots: &[Option<Held<L::End>>], index: usize) -> Option<Action> {
        let stream = &seat_at(slots, index)?.reader.inner.inner;
        let _ = stream.end_writes();
        Some(Action::Send { index })
    }
}

// What a socket is watched for: reads and, if answers wait, also writes.
fn interests(is_waiting: bool) -> Interest {
    if is_waiting {
        Interest::READABLE | Interest::WRITABLE
    } else {
        Interest::READABLE
    }
}

// Registers the socket of a slot, anew or again. Returns whether the poll took it.
fn register(poll: &Poll, fd: RawFd, index: usize, interests: Interest, is_again: bool) -> bool {
    let mut source = SourceFd(&fd);
    let registered = if is_again {
        poll.registry()
            .reregister(&mut source, Token(index), interests)
    } else {
        poll.registry()
            .register(&mut source, Token(index), interests)
    };
    registered.is_ok()
}

// Whether a connection that ended like this may be closed at once: it failed, or everything from the peer was
// read, so that a close throws nothing away.
fn may_close(end: SessionEnd) -> bool {
    end.is_fault() || matches!(end, SessionEnd::Ended | SessionEnd::Truncated)
}
