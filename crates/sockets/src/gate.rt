//! The gate: which connections are accepted, which come into a slot, and which leave one.
ghost use Rattle.std.specs.Prelude.{◌≡◌, ◌<◌, ◌≤◌, ◌⊎◌, ◌↔◌, ◌∷◌, ◌+◌, ◌-◌, ℕ, [], is_some, length, slice_set, false, true, IfSome, None, Some};
ghost use Rattle.wire.specs.Crowds.{Changes, slot_at};
ghost use Rattle.wire.specs.Seats.{IsNew};
ghost use Rattle.sockets.specs.Accepting.{MayGo};
ghost use Rattle.sockets.specs.Listening.{IsWant};

use crate::actions::Outcome;
use crate::held::{Held, lacking, new_seat};
use crate::socket::{Listener, Unready};
use std::alloc::Global;
use std::io;
use std::io::{ErrorKind, Read, Write};
use wire::{Gathered, Outbox, first_free, free_slot, open_slot};

/// The listener, an accepted connection that has no slot yet, and how many came and went.
#[derive(Drop)]
pub struct Gate<L, S> {
    listener: L,
    guest: Option<S>,
    // How many are still to be accepted, including those that fail.
    to_come: u64,
    // How many may be open at a time.
    most: usize,
    /// How many came into a slot.
    pub came: u64,
    /// How many left a slot.
    pub gone: u64,
    /// How many of those lack answers.
    pub unsent: u64,
    ghost lacking: { unsent ≤ gone },
}

impl<L: Listener> Gate<L, L::Stream> {
    ghost use Rattle.sockets.specs.Moving.{Moves, Passes};
    ghost use Rattle.sockets.specs.Telling.{Calls, Enters, Stays};

    /// A gate for this many connections, of which at most `most` are open at a time.
    pub fn new(listener: L, connections: u64, most: usize) -> Gate<L, L::Stream>
        ensures listener { result.listener ≡ listener }
        ensures guest { result.guest ≡ None }
        ensures to_come { result.to_come ≡ connections }
        ensures most { result.most ≡ most }
        ensures came { result.came ≡ 0 }
        ensures gone { result.gone ≡ 0 }
        ensures unsent { result.unsent ≡ 0 }
    {
        Gate {
            listener,
            guest: None,
            to_come: connections,
            most,
            came: 0,
            gone: 0,
            unsent: 0,
        }
    }

    /// Returns the listener, how many connections are still to be accepted, and whether one waits.
    pub fn close(self) -> (L, u64, bool)
        ensures listener { result.0 ≡ self.listener }
        ensures to_come { result.1 ≡ self.to_come }
        ensures waits { result.2 ≡ is_some self.guest }
    {
        let waits = self.guest.is_some();
        (self.listener, self.to_come, waits)
    }

    /// Asks the listener for a connection, if none waits and one is to come.
    pub(crate) fn accept(&mut self) -> Outcome
        ensures passes { Passes L.told L.are_ends self.old self.new [] [] }
        ensures told { Calls L.told result self.old self.new }
    {
        if self.guest.is_some() || self.to_come == 0 {
            return Outcome::NoneCame;
        }
        match self.listener.accept() {
            Ok(Some(stream)) => {
                self.to_come -= 1;
                self.guest = Some(stream);
                Outcome::Came
            }
            Ok(None) => Outcome::NoneCame,
            Err(error) if is_want(error) => Outcome::Wanting,
            Err(_) => {
                self.to_come -= 1;
                Outcome::Refused
            }
        }
    }

    /// Lets the waiting connection into a free slot. It keeps waiting if no slot is free, or memory or
    /// descriptors are short. It is turned away if its ends can't be made.
    pub(crate) fn let_in(&mut self, slots: &mut [Option<Held<L::End>>], alloc: Global) -> Outcome
        ensures moves { Moves L.told L.are_ends ⟦<Gathered<L::End> as Read>⟧.remaining
            ⟦<Outbox<L::End> as Write>⟧.contents self.old self.new slots.old slots.new }
        ensures told { Enters L.told result self.old self.new slots.old slots.new }
    {
        let Some(came) = self.came.checked_add(1) else {
            return Outcome::Wanting;
        };
        if !self.may_open() || first_free(slots).is_none() {
            return Outcome::Wanting;
        }
        let Some(stream) = self.guest.take() else {
            return Outcome::Away;
        };
        match self.listener.open(alloc, stream) {
            Ok((reader, writer)) => {
                let index = seat_in(slots, new_seat(alloc, reader, writer));
                self.came = came;
                Outcome::Entered { index }
            }
            Err(Unready { stream, error }) => self.put_off(stream, error),
        }
    }

    // The ends of the waiting connection can't be made, with this error. It keeps waiting if it still exists
    // and the shortage may end.
    fn put_off(&mut self, stream: Option<L::Stream>, error: io::Error) -> Outcome
        ensures told { ((result ≡ Outcome.Wanting) × (same : L.Stream) × (stream ≡ Some same) × IsWant error × (self.new.guest ≡ Some same))
            ⊎ ((result ≡ Outcome.Away) × ((stream ≡ None) ⊎ (IsWant error → ⊥)) × (self.new.guest ≡ self.old.guest)) }
        ensures others { (self.new.listener ≡ self.old.listener) × (self.new.to_come ≡ self.old.to_come)
            × (self.new.most ≡ self.old.most) × (self.new.came ≡ self.old.came) × (self.new.gone ≡ self.old.gone)
            × (self.new.unsent ≡ self.old.unsent) }
    {
        let Some(stream) = stream else {
            return Outcome::Away;
        };
        if !is_want(error) {
            return Outcome::Away;
        }
        self.guest = Some(stream);
        Outcome::Wanting
    }

    // Whether fewer connections are open than allowed.
    fn may_open(&self) -> bool
        ensures few { result ≡ true → self.now.came < self.now.gone + self.now.most }
        ensures all { result ≡ false → self.now.most ≤ self.now.came - self.now.gone }
    {
        self.came.saturating_sub(self.gone) < self.most as u64
    }

    /// Whether one more closed connection can be counted.
    pub(crate) fn may_go(&self) -> bool
        ensures { result ≡ true ↔ (self.now.gone < 18446744073709551615) }
    {
        self.gone < u64::MAX
    }

    /// Frees the slot. Its connection goes back to the listener, which closes it.
    pub(crate) fn free(&mut self, slots: &mut [Option<Held<L::End>>], index: usize)
        requires within { index < length slots.old }
        requires counted { self.old.gone < 18446744073709551615 }
        requires may { IfSome (slot_at slots.old index) (λ seat. MayGo seat) }
        ensures moves { Moves L.told L.are_ends ⟦<Gathered<L::End> as Read>⟧.remaining
            ⟦<Outbox<L::End> as Write>⟧.contents self.old self.new slots.old slots.new }
        ensures freed { slots.new ≡ slice_set slots.old index None }
        ensures stays { Stays self.old self.new }
    {
        if let Some(seat) = free_slot(slots, index) {
            self.gone += 1;
            self.unsent += lacking(&seat);
            self.listener.close(seat);
        }
    }
}

// Puts a new connection into a free slot; there is one. Returns its index.
fn seat_in<S: Read + Write + Drop>(slots: &mut [Option<Held<S>>], seat: Held<S>) -> usize
    requires new { IsNew seat }
    requires free { (p : ℕ) × (p < length slots.old) × (slot_at slots.old p ≡ None) }
    ensures within { result < length slots.old }
    ensures free { slot_at slots.old result ≡ None }
    ensures seated { slots.new ≡ slice_set slots.old result (Some seat) }
    ensures changes { Changes ⟦<Gathered<S> as Read>⟧.remaining ⟦<Outbox<S> as Write>⟧.contents
        slots.old slots.new (seat ∷ []) [] }
{
    match open_slot(slots, seat) {
        Ok(index) => index,
        Err(_) => unreachable!(),
    }
}

// Whether the error means a shortage that may end: of memory (12, or no number), of descriptors in the system
// (23) or in this process (24), or of buffers (105).
fn is_want(error: io::Error) -> bool
    ensures told { result ≡ true → IsWant error }
    ensures all { IsWant error → result ≡ true }
{
    match error.raw_os_error() {
        Some(12 | 23 | 24 | 105) => true,
        Some(_) => false,
        None => error.kind() == ErrorKind::OutOfMemory,
    }
}
