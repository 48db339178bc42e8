//! The sockets of a listener's peers, as the crowd around an office.
ghost use Rattle.std.specs.Prelude.{◌≡◌, ◌<◌, true};
ghost use Rattle.wire.specs.Crowds.{IsOpenAt};
ghost use Rattle.sockets.specs.Accepting.{MayTurnAt};

use crate::actions::{Action, Outcome};
use crate::book::Book;
use crate::gate::Gate;
use crate::held::{Held, may_turn};
use crate::socket::Listener;
use crate::start::Start;
use std::io::{Read, Write};
use std::marker::PhantomData;
use std::time;
use wire::{Crowd, Due, Gathered, Outbox, Spare};

/// The sockets of a listener's peers.
#[derive(Drop)]
pub struct Sockets<'a, R, L: Listener, S> {
    book: Book<'a, R, L>,
    gate: Gate<L, L::Stream>,
    // How many more turns it may give.
    turns: u64,
    start: PhantomData<S>,
    ghost few: { turns < 18446744073709551616 },
}

impl<'a, R: time::Clock, L: Listener, S: Start<L::Stream, L::End>> Sockets<'a, R, L, S> {
    /// The sockets behind a gate.
    pub fn new(book: Book<'a, R, L>, gate: Gate<L, L::Stream>) -> Sockets<'a, R, L, S>
        ensures gate { result.gate ≡ gate }
        ensures turns { result.turns ≡ 18446744073709551615 }
    {
        Sockets {
            book,
            gate,
            turns: u64::MAX,
            start: PhantomData,
        }
    }

    /// The gate.
    pub fn into_gate(self) -> Gate<L, L::Stream>
        ensures { result ≡ self.entry.gate }
    {
        self.gate
    }
}

// Whether the slot holds an open connection to which a turn may be given.
fn may_turn_in<S: Read + Write>(slots: &[Option<Held<S>>], index: usize) -> bool
    ensures is_open { result ≡ true → IsOpenAt slots.now index }
    ensures settled { result ≡ true → MayTurnAt slots.now index }
{
    if index >= slots.len() {
        return false;
    }
    match &slots[index] {
        Some(seat) => seat.end().is_none() && may_turn(seat),
        None => false,
    }
}

impl<R: time::Clock, L: Listener, S: Start<L::Stream, L::End>> Crowd<
    Gathered<L::End>,
    Outbox<L::End>,
> for Sockets<'_, R, L, S> {
    ghost use Rattle.std.specs.Prelude.{⊤};
    ghost use Rattle.sockets.specs.Accepting.{HasGiven, MayTurn};
    ghost use Rattle.sockets.specs.Moving.{HasPassed};

    ghost met = { λ s came gone. HasPassed S.told S.connections S.most L.told L.are_ends s.gate came gone };

    ghost gave = { λ s _ given. HasGiven s.gate.came s.turns given };

    ghost settled = { λ seat. MayTurn seat };

    ghost over = { λ _. ⊤ };

    ghost turns = { λ s. s.turns };

    ghost few = { λ s. s.few };

    fn next(&mut self, slots: &mut [Option<Held<L::End>>], spare: Spare) -> Option<Due> {
        let mut outcome = Outcome::Turned(spare);
        'actions: for _ in 0..u64::MAX {
            let action = match self.book.next(slots, outcome) {
                Action::Turn(due) if self.turns > 0 && may_turn_in(slots, due.index) => {
                    self.turns -= 1;
                    return Some(due);
                }
                Action::Turn(due) if self.turns > 0 => Action::Send { index: due.index },
                Action::Turn(due) => {
                    drop(due);
                    return None;
                }
                Action::Over => return None,
                action => action,
            };
            outcome = self.gate.act(slots, action, self.book.alloc);
        }
        None
    }
}
