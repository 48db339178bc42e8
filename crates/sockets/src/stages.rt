//! The loop, step by step. A round has these stages: turns; events of the sockets; reads that were left;
//! timeouts; new connections; connections that wait for room.
use crate::actions::{Action, Outcome};
use crate::book::{Book, LISTENER};
use crate::held::{Held, ahead_len, may_turn_at, seat_at};
use crate::peer::Phase;
use crate::socket::Listener;
use mio::Token;
use mio::event::Event;
use std::io::ErrorKind;
use std::time;
use std::time::{Duration, Instant};
use wire::{Due, Spare};

/// How many connections are accepted per round.
const MOST_ACCEPTS: usize = 64;

/// How many times a connection is read before others are.
const MOST_READS: usize = 64;

/// How many milliseconds pass between two checks of the timeouts.
const LOOK_MILLIS: u64 = 100;

/// The stage of the round.
#[derive(Clone, Copy)]
pub(crate) enum Stage {
    /// Gives the turns of this round.
    Turns,
    /// Handles the events of the poll, from this one on.
    Events(usize),
    /// Reads connections that were left, from this slot on.
    Behind(usize),
    /// Checks the timeouts, from this slot on.
    Look(usize),
    /// Accepts connections, at most this many more.
    Accept(usize),
    /// Cuts off connections in favour of others.
    Cuts,
    /// Reads bodies that waited for room, from this slot on.
    Rooms(usize),
}

impl<R: time::Clock, L: Listener> Book<'_, R, L> {
    /// The next action after this outcome.
    pub(crate) fn next(&mut self, slots: &[Option<Held<L::End>>], outcome: Outcome) -> Action {
        if let Some(action) = self.follow(slots, outcome) {
            return action;
        }
        self.reads = MOST_READS;
        match self.stage {
            Stage::Turns => self.step_turns(slots),
            Stage::Events(at) => self.step_events(slots, at),
            Stage::Behind(at) => self.step_behind(slots, at),
            Stage::Look(at) => self.step_look(slots, at),
            Stage::Accept(left) => self.step_accept(slots, left),
            Stage::Cuts => self.step_cuts(slots),
            Stage::Rooms(at) => self.step_rooms(slots, at),
        }
    }

    // What the outcome makes necessary.
    fn follow(&mut self, slots: &[Option<Held<L::End>>], outcome: Outcome) -> Option<Action> {
        match outcome {
            Outcome::Passed => None,
            Outcome::Stayed { index } => self.look_again(slots, index),
            Outcome::Gathered {
                index,
                gathering,
                is_full,
            } => self.gathered(slots, index, gathering, is_full),
            Outcome::Settled { index, buffer } => self.settled(slots, index, buffer),
            Outcome::Failing { index } => self.end(index),
            Outcome::Sent { index, sending } => self.sent(slots, index, sending),
            Outcome::Freed { index } => {
                self.freed(index);
                None
            }
            Outcome::Turned(spare) => self.turned(spare),
            outcome => self.at_door(slots, outcome),
        }
    }

    // The last turn, if there was one, left this of what it was given.
    fn turned(&mut self, spare: Spare) -> Option<Action> {
        self.spare.take_over(spare);
        let index = self.turned.take()?;
        Some(Action::Settle { index })
    }

    // The next turn of the round. After the last turn, polls the sockets.
    fn step_turns(&mut self, slots: &[Option<Held<L::End>>]) -> Action {
        if let Some(index) = self.rounds.pop() {
            return self.turn(slots, index);
        }
        if self.taken == 0 && self.door.is_shut() {
            return Action::Over;
        }
        self.wait();
        self.step_events(slots, 0)
    }

    // The turn of a slot, if it is still due. What waits for its peer is sent before.
    fn turn(&mut self, slots: &[Option<Held<L::End>>], index: usize) -> Action {
        let Phase::Due = self.phase(index) else {
            return Action::Pass;
        };
        if !may_turn_at(slots, index) {
            self.enter(index, Phase::Silent);
            return Action::Send { index };
        }
        match self.due(slots, index) {
            Some(due) => {
                self.turned = Some(index);
                Action::Turn(due)
            }
            None => self.put_off(index),
        }
    }

    // A turn of the slot, if there is memory for it. It reads what is ahead. If the reader has ended or failed,
    // it reads that, too.
    fn due(&mut self, slots: &[Option<Held<L::End>>], index: usize) -> Option<Due> {
        self.spare.fill(self.alloc).ok()?;
        let most = match self.peers.get(index) {
            Some(peer) if peer.is_over => None,
            _ => Some(ahead_len(slots, index)),
        };
        Some(Due {
            index,
            buffer: self.spare.buffer.take()?,
            text: self.spare.text.take()?,
            most,
        })
    }

    // Moves the turn to a later round, because there is no memory for it now.
    fn put_off(&mut self, index: usize) -> Action {
        self.enter(index, Phase::Silent);
        self.make_due(index);
        Action::Pass
    }

    // Handles one event of the last poll.
    fn step_events(&mut self, slots: &[Option<Held<L::End>>], at: usize) -> Action {
        let Some(event) = self.told(at) else {
            self.stage = self.behind_or_not();
            return Action::Pass;
        };
        self.stage = Stage::Events(at.saturating_add(1));
        let Token(index) = event.token();
        if index == LISTENER.0 {
            self.door.knock();
            return Action::Pass;
        }
        or_pass(self.take_up(slots, index, event))
    }

    // The event at this index.
    fn told(&self, at: usize) -> Option<Event> {
        Some(*self.ready.get(at)?)
    }

    // Handles an event of the socket of a slot.
    fn take_up(
        &mut self,
        slots: &[Option<Held<L::End>>],
        index: usize,
        event: Event,
    ) -> Option<Action> {
        let is_closing = is_closing(event);
        if let Some(peer) = self.peers.get_mut(index) {
            peer.note(is_closing, event.is_readable());
        }
        match self.phase(index) {
            Phase::Free | Phase::Waits | Phase::Due => None,
            Phase::Silent | Phase::Head | Phase::Body { .. } => self.read(slots, index),
            Phase::Answer { .. } if is_closing | event.is_writable() => {
                Some(Action::Send { index })
            }
            Phase::Answer { .. } => None,
            Phase::Leaving { .. } => self.throw_away(slots, index),
        }
    }

    // The stage after the events: reads the connections that were left, if there are any.
    fn behind_or_not(&mut self) -> Stage {
        if self.is_behind {
            return Stage::Behind(0);
        }
        self.look_or_not()
    }

    // Reads a connection that may have been left.
    fn step_behind(&mut self, slots: &[Option<Held<L::End>>], at: usize) -> Action {
        if at >= self.peers.len() {
            self.stage = self.look_or_not();
            return Action::Pass;
        }
        if at == 0 {
            self.is_behind = false;
        }
        self.stage = Stage::Behind(at.saturating_add(1));
        or_pass(self.read(slots, at))
    }

    // The stage after reading: checks the timeouts, if the last check was some time ago.
    fn look_or_not(&mut self) -> Stage {
        self.door.look(self.now);
        if self.now.duration_since(self.looked) < Duration::from_millis(LOOK_MILLIS) {
            return self.accept_or_not();
        }
        self.looked = self.now;
        Stage::Look(0)
    }

    // The stage after the timeouts: accepts connections, if any may come.
    fn accept_or_not(&self) -> Stage {
        if self.may_accept() {
            return Stage::Accept(MOST_ACCEPTS);
        }
        Stage::Cuts
    }

    // Checks the timeout of a connection.
    fn step_look(&mut self, slots: &[Option<Held<L::End>>], at: usize) -> Action {
        if at >= self.peers.len() {
            self.stage = self.accept_or_not();
            return Action::Pass;
        }
        self.stage = Stage::Look(at.saturating_add(1));
        or_pass(self.end_of_patience(slots, at))
    }

    // Takes in a connection, if one may come. A connection that just came and whose turn is due has it first.
    fn step_accept(&mut self, slots: &[Option<Held<L::End>>], left: usize) -> Action {
        if let Some(index) = self.rounds.pop() {
            return self.turn(slots, index);
        }
        self.stage = match left.checked_sub(1) {
            Some(left) => Stage::Accept(left),
            None => Stage::Cuts,
        };
        match self.next_to_come() {
            Some(action) => action,
            None => self.step_cuts(slots),
        }
    }

    // Cuts off the connection whose answers wait longest, while too many wait. Then chooses the bodies that go
    // on, if not all do.
    fn step_cuts(&mut self, slots: &[Option<Held<L::End>>]) -> Action {
        self.stage = Stage::Cuts;
        if self.is_laden {
            self.is_laden = false;
            if let Some(index) = self.too_slow(slots) {
                self.is_laden = true;
                return or_pass(self.cut(slots, index));
            }
        }
        if !self.is_waiting {
            return self.begin_round(slots);
        }
        self.is_waiting = false;
        self.rooms.choose(&mut self.peers);
        self.stage = Stage::Rooms(0);
        or_pass(self.make_room(slots))
    }

    // While a body waits for room, one that is too slow gives up its own.
    fn make_room(&mut self, slots: &[Option<Held<L::End>>]) -> Option<Action> {
        if !self.rooms.is_short() {
            return None;
        }
        let index = self.slowest_body()?;
        self.give_up(slots, index, ErrorKind::TimedOut)
    }

    // Judges a body that waited for room again. The next round begins after the last one.
    fn step_rooms(&mut self, slots: &[Option<Held<L::End>>], at: usize) -> Action {
        if at >= self.peers.len() {
            return self.begin_round(slots);
        }
        self.stage = Stage::Rooms(at.saturating_add(1));
        match self.phase(at) {
            Phase::Waits => or_pass(self.judge(slots, at)),
            _ => Action::Pass,
        }
    }

    // Begins the next round.
    fn begin_round(&mut self, slots: &[Option<Held<L::End>>]) -> Action {
        self.rounds.begin();
        self.stage = Stage::Turns;
        self.step_turns(slots)
    }

    // The timeout of the next poll.
    fn patience_of_wait(&self) -> Option<Duration> {
        let has_room = self.is_waiting && self.rooms.is_freed();
        if has_room || !self.rounds.is_idle() || self.is_behind || self.may_accept() {
            return Some(Duration::ZERO);
        }
        if self.taken > 0 || self.door.is_paused() {
            return Some(Duration::from_millis(LOOK_MILLIS));
        }
        None
    }

    // Polls the sockets and stores the events.
    fn wait(&mut self) {
        let timeout = self.patience_of_wait();
        let _ = self.poll.poll(&mut self.events, timeout);
        self.ready.clear();
        'events: for event in &self.events {
            let _ = self.ready.push(*event);
        }
        if let Ok(now) = Instant::now(self.rt) {
            self.now = now;
        }
    }

    // A connection that was to be closed is not through. If it is open, it is judged again.
    fn look_again(&mut self, slots: &[Option<Held<L::End>>], index: usize) -> Option<Action> {
        let seat = seat_at(slots, index)?;
        if seat.end().is_some() {
            return None;
        }
        if !seat.ahead().is_empty() {
            return self.make_due(index);
        }
        self.judge(slots, index)
    }
}

// Whether the peer sends no more, or has failed.
fn is_closing(event: Event) -> bool {
    event.is_read_closed() || event.is_error()
}

// The action, or none.
fn or_pass(action: Option<Action>) -> Action {
    match action {
        Some(action) => action,
        None => Action::Pass,
    }
}
