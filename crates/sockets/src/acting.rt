//! The actions of the loop on the gate and on the connections in their slots.
ghost use Rattle.std.specs.Prelude.{◌≡◌, ◌<◌, ◌≤◌, ◌↔◌, ℕ, [], length, true, IfSome, IsFalse, IsTrue};
ghost use Rattle.wire.specs.Crowds.{Changes, slot_at};
ghost use Rattle.sockets.specs.Accepting.{IsThrough};
ghost use Rattle.sockets.specs.Doing.{ActsOnSlot, IsBusyAt};

use crate::actions::{Action, Outcome};
use crate::gate::Gate;
use crate::held::{Held, ahead_len, is_through};
use crate::socket::Listener;
use std::alloc::Global;
use std::io;
use std::io::{ErrorKind, Read, Write};
use wire::{Gathered, Outbox, Sending, fail_slot, gather_slot, send_slot, settle_slot};

impl<L: Listener> Gate<L, L::Stream> {
    ghost use Rattle.sockets.specs.Doing.{Acts};
    ghost use Rattle.sockets.specs.Moving.{Moves};
    ghost use Rattle.sockets.specs.Telling.{Stays};

    /// Takes this action. Nothing is done for `Pass`, `Turn` and `Over`.
    pub(crate) fn act(
        &mut self,
        slots: &mut [Option<Held<L::End>>],
        action: Action,
        alloc: Global,
    ) -> Outcome
        ensures moves { Moves L.told L.are_ends ⟦<Gathered<L::End> as Read>⟧.remaining
            ⟦<Outbox<L::End> as Write>⟧.contents self.old self.new slots.old slots.new }
        ensures acts { Acts L.told ⟦<L::End as Read>⟧.remaining ⟦<L::End as Write>⟧.contents
            ⟦<Gathered<L::End> as Read>⟧.remaining ⟦<Outbox<L::End> as Write>⟧.contents
            action result self.old self.new slots.old slots.new }
    {
        match action {
            Action::Pass => Outcome::Passed,
            Action::Turn(due) => {
                drop(due);
                Outcome::Passed
            }
            Action::Over => Outcome::Passed,
            Action::Gather { index, most } => gather(slots, index, most),
            Action::Settle { index } => settle(slots, index),
            Action::Fail { index, kind } => fail(slots, index, kind),
            Action::Send { index } => send(slots, index),
            Action::Free { index } => self.let_go(slots, index),
            Action::Accept => self.accept(),
            Action::LetIn => self.let_in(slots, alloc),
        }
    }

    // If the connection is through, sends what waits. If no bytes wait then, or a write failed, frees the
    // slot.
    fn let_go(&mut self, slots: &mut [Option<Held<L::End>>], index: usize) -> Outcome
        ensures moves { Moves L.told L.are_ends ⟦<Gathered<L::End> as Read>⟧.remaining
            ⟦<Outbox<L::End> as Write>⟧.contents self.old self.new slots.old slots.new }
        ensures acts { ActsOnSlot ⟦<L::End as Read>⟧.remaining ⟦<L::End as Write>⟧.contents
            ⟦<Gathered<L::End> as Read>⟧.remaining ⟦<Outbox<L::End> as Write>⟧.contents
            self.old.gone (Action.Free index) result slots.old slots.new }
        ensures stays { Stays self.old self.new }
    {
        if index >= slots.len() {
            return Outcome::Stayed { index };
        }
        if !self.may_go() || !is_through_at(slots, index) {
            return Outcome::Stayed { index };
        }
        match send_slot(slots, index) {
            Sending::Waits => Outcome::Sent {
                index,
                sending: Sending::Waits,
            },
            Sending::Sent | Sending::Failed => {
                self.free(slots, index);
                Outcome::Freed { index }
            }
        }
    }
}

// Whether the connection in the slot is through, if there is one.
fn is_through_at<S: Read + Write>(slots: &[Option<Held<S>>], index: usize) -> bool
    requires { index < length slots.now }
    ensures told { IsTrue result → IfSome (slot_at slots.now index) (λ seat. IsThrough seat) }
    ensures busy { IsFalse result → IsBusyAt slots.now index }
{
    match &slots[index] {
        Some(seat) => is_through(seat),
        None => true,
    }
}

// Reads ahead once, at most so many bytes, for the connection in the slot.
fn gather<S: Read + Write>(slots: &mut [Option<Held<S>>], index: usize, most: usize) -> Outcome
    ensures changes { Changes ⟦<Gathered<S> as Read>⟧.remaining ⟦<Outbox<S> as Write>⟧.contents slots.old slots.new [] [] }
    ensures acts { (gone : ℕ) → ActsOnSlot S.remaining S.contents ⟦<Gathered<S> as Read>⟧.remaining
        ⟦<Outbox<S> as Write>⟧.contents gone (Action.Gather index most) result slots.old slots.new }
{
    if index >= slots.len() {
        return Outcome::Stayed { index };
    }
    let before = ahead_len(slots, index);
    let gathering = gather_slot(slots, index, most);
    let came = ahead_len(slots, index).saturating_sub(before);
    Outcome::Gathered {
        index,
        gathering,
        is_full: is_as_much(came, most),
    }
}

// Returns what the feed of the connection in the slot did not take to the bytes that are ahead.
fn settle<S: Read + Write>(slots: &mut [Option<Held<S>>], index: usize) -> Outcome
    ensures changes { Changes ⟦<Gathered<S> as Read>⟧.remaining ⟦<Outbox<S> as Write>⟧.contents slots.old slots.new [] [] }
    ensures acts { (gone : ℕ) → ActsOnSlot S.remaining S.contents ⟦<Gathered<S> as Read>⟧.remaining
        ⟦<Outbox<S> as Write>⟧.contents gone (Action.Settle index) result slots.old slots.new }
{
    if index >= slots.len() {
        return Outcome::Stayed { index };
    }
    Outcome::Settled {
        index,
        buffer: settle_slot(slots, index),
    }
}

// Makes the reads of the connection in the slot fail, once the bytes that are ahead are given.
fn fail<S: Read + Write>(slots: &mut [Option<Held<S>>], index: usize, kind: ErrorKind) -> Outcome
    ensures changes { Changes ⟦<Gathered<S> as Read>⟧.remaining ⟦<Outbox<S> as Write>⟧.contents slots.old slots.new [] [] }
    ensures acts { (gone : ℕ) → ActsOnSlot S.remaining S.contents ⟦<Gathered<S> as Read>⟧.remaining
        ⟦<Outbox<S> as Write>⟧.contents gone (Action.Fail index kind) result slots.old slots.new }
{
    if index >= slots.len() {
        return Outcome::Stayed { index };
    }
    fail_slot(slots, index, io::Error::from(kind));
    Outcome::Failing { index }
}

// Sends the bytes that wait for the peer of the connection in the slot.
fn send<S: Read + Write>(slots: &mut [Option<Held<S>>], index: usize) -> Outcome
    ensures changes { Changes ⟦<Gathered<S> as Read>⟧.remaining ⟦<Outbox<S> as Write>⟧.contents slots.old slots.new [] [] }
    ensures acts { (gone : ℕ) → ActsOnSlot S.remaining S.contents ⟦<Gathered<S> as Read>⟧.remaining
        ⟦<Outbox<S> as Write>⟧.contents gone (Action.Send index) result slots.old slots.new }
{
    if index >= slots.len() {
        return Outcome::Stayed { index };
    }
    Outcome::Sent {
        index,
        sending: send_slot(slots, index),
    }
}

// Whether as many bytes came as possible.
fn is_as_much(came: usize, most: usize) -> bool
    ensures { result ≡ true ↔ (most ≤ came) }
{
    came >= most
}
