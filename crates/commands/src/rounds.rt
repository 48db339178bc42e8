//! Serving a listener's connections in turns by an office.
ghost use Rattle.std.specs.Prelude.{◌≡◌, ◌≤◌, ◌+◌, ℕ, List, cond, length, IfErr, IfOk, None, true};
ghost use Rattle.wire.specs.Crowds.{slot_at};
ghost use Rattle.office.specs.Premise.{StaysUnstaged};
ghost use Rattle.sockets.specs.Listening.{Event};
ghost use Rattle.commands.specs.Rounds.{ServesMany, at_least_one};

use boxes::Keeper;
use mio::Poll;
use office::{Clock, Office};
use sockets::{Book, Gate, Held, Limits, Listener, Sockets, Start, prepare};
use std::io::{Read, Write};
use std::marker::Brand;
use std::{io, time};
use wire::{Gathered, Outbox, Seat};

/// The outcome of a service.
#[derive(Clone, Copy, Debug, PartialEq, Eq)]
pub struct Outcome {
    /// How many connections came.
    pub came: u64,
    /// How many connections could not be accepted, or their ends could not be made.
    pub refused: u64,
    /// How many of those that came ended by a failed read or write. This includes those that the loop made
    /// fail, because the peer was too slow or memory was short.
    pub faulty: u64,
    /// How many closed connections lack answers: a write failed, so that an answer was not sent in full. The
    /// session may have ended well before. Bytes that the system took but the peer never got are not counted.
    pub unsent: u64,
    /// Whether all connections that were to come have come or were refused, and have gone. The loop is built
    /// so that this is true, unless it took 2^64 - 1 steps or turns.
    pub is_whole: bool,
}

/// The listener after a service, the connections that are left, and the outcome. E: one end of a connection.
#[derive(Drop)]
pub struct Served<L, E> {
    /// The listener.
    pub listener: L,
    /// The slots, with the connections that have not gone. There are none unless the service broke off.
    pub slots: Vec<Option<Seat<Gathered<E>, Outbox<E>>>>,
    /// The outcome. The error means that memory was refused, or that the system can't tell which sockets are
    /// ready or what time it is. The office, the clock and the listener are then as they were at that point.
    pub outcome: io::Result<Outcome>,
}

/// Accepts `limits.connections` connections of a listener and serves them in turns, in one loop that waits for
/// none of them. A turn answers at most one message. The poll tells which sockets are ready; it must be new. The loop
/// ends once all connections have come or were refused, and have gone.
///
/// There is one order of all messages in which the machine leads from the state before to the state after.
/// Each connection's answers and its end are those of its own messages. Over all connections an upload acts
/// once.
///
/// The listener tells what it did. Each connection that it accepted came, once and in order, or was refused,
/// or was still waiting when the loop broke off. Each connection that went was given back to the listener as
/// it was then, after everything written to it was sent or a write failed.
pub fn serve<K: Keeper, C: Clock, L: Listener, R: time::Clock>(
    rt: &R,
    poll: Poll,
    office: &mut Office<K>,
    listener: L,
    limits: Limits,
    clock: &mut C,
) -> Served<L, L::End>
    ensures serves { IfOk result.outcome (λ outcome. ServesMany C.now_gives
        (L.told listener) (L.told result.listener) L.are_ends
        ⟦<Gathered<L::End> as Read>⟧.remaining
        ⟦<Outbox<L::End> as Write>⟧.contents clock.old clock.new
        K.Keeper office.old.keeper office.new.keeper limits.connections
        (at_least_one limits.«open») result.slots.items outcome) }
    ensures nothing { IfErr result.outcome (λ e. (result.listener ≡ listener)
        × (office.new ≡ office.old) × (clock.new ≡ clock.old)) }
    ensures honest { K.is_honest office.new.keeper → K.is_honest office.old.keeper }
    ensures alone { K.is_alone office.old.keeper → K.is_alone office.new.keeper }
    ensures unstaged { StaysUnstaged K.Keeper office.old.keeper office.new.keeper }
    ensures never_less { K.faults office.old.keeper ≤ K.faults office.new.keeper }
{
    let connections = limits.connections;
    let open = at_least_one(limits.open);
    let limits = Limits { open, ..limits };
    let (book, mut slots) = match prepare(rt, poll, office.alloc, &listener, limits) {
        Ok(prepared) => prepared,
        Err(error) => {
            return Served {
                listener,
                slots: Vec::new(office.alloc),
                outcome: Err(error),
            };
        }
    };
    let (listener, outcome) = serve_through::<K, C, L, R, Brand>(
        office,
        book,
        listener,
        slots.as_mut_slice(),
        connections,
        open,
        clock,
    );
    Served {
        listener,
        slots,
        outcome: Ok(outcome),
    }
}

// Serves this many connections that the listener accepts. Returns the listener.
fn serve_through<K: Keeper, C: Clock, L: Listener, R: time::Clock, S: Start<L::Stream, L::End>>(
    office: &mut Office<K>,
    book: Book<'_, R, L>,
    listener: L,
    slots: &mut [Option<Held<L::End>>],
    connections: u64,
    most: usize,
    clock: &mut C,
) -> (L, Outcome)
    requires free { (p : ℕ) → slot_at slots.old p ≡ None }
    requires room { length slots.old ≡ most }
    requires told { (log : List (Event L.Stream L.End)) → S.told log → L.told listener log }
    requires connections { connections ≡ S.connections }
    requires most { most ≡ S.most }
    ensures serves { ServesMany C.now_gives S.told (L.told result.0) L.are_ends
        ⟦<Gathered<L::End> as Read>⟧.remaining
        ⟦<Outbox<L::End> as Write>⟧.contents clock.old clock.new
        K.Keeper office.old.keeper office.new.keeper connections most slots.new result.1 }
    ensures honest { K.is_honest office.new.keeper → K.is_honest office.old.keeper }
    ensures alone { K.is_alone office.old.keeper → K.is_alone office.new.keeper }
    ensures unstaged { StaysUnstaged K.Keeper office.old.keeper office.new.keeper }
    ensures never_less { K.faults office.old.keeper ≤ K.faults office.new.keeper }
{
    let mut sockets: Sockets<'_, R, L, S> = Sockets::new(
        book,
        Gate::new(listener, connections, most),
    );
    let faulty = office.serve_crowd(&mut sockets, slots, clock);
    let gate = sockets.into_gate();
    let came = gate.came;
    let gone = gate.gone;
    let unsent = gate.unsent;
    let (listener, to_come, waits) = gate.close();
    let refused = refused_of(connections, to_come, came, waits);
    let have_all_come = have_come(came, refused, connections);
    let have_all_gone = are_as_many(came, gone);
    let outcome = Outcome {
        came,
        refused,
        faulty,
        unsent,
        is_whole: are_all(have_all_come, have_all_gone, are_free(slots)),
    };
    (listener, outcome)
}

// How many may be open at a time if this many are asked for: at least one.
fn at_least_one(n: usize) -> usize
    ensures { result ≡ at_least_one n }
{
    if n == 0 { 1 } else { n }
}

// How many of all were refused, if `to_come` are still to come, `came` came, and one may wait.
fn refused_of(all: u64, to_come: u64, came: u64, waits: bool) -> u64
    ensures { (refused : ℕ) → all ≡ to_come + cond waits 1 0 + came + refused → result ≡ refused }
{
    let rest = all.saturating_sub(to_come).saturating_sub(came);
    if waits { rest.saturating_sub(1) } else { rest }
}

// Whether all three hold.
fn are_all(one: bool, two: bool, three: bool) -> bool
    ensures each { result ≡ true → (one ≡ true) × (two ≡ true) × (three ≡ true) }
    ensures all { one ≡ true → two ≡ true → three ≡ true → result ≡ true }
{
    one && two && three
}

// Whether all connections came or could not be accepted.
fn have_come(came: u64, refused: u64, connections: u64) -> bool
    ensures told { result ≡ true → came + refused ≡ connections }
    ensures all { came + refused ≡ connections → result ≡ true }
{
    match came.checked_add(refused) {
        Some(all) => all == connections,
        None => false,
    }
}

// Whether as many went as came.
fn are_as_many(came: u64, gone: u64) -> bool
    ensures told { result ≡ true → came ≡ gone }
    ensures all { came ≡ gone → result ≡ true }
{
    came == gone
}

// Whether all slots are free.
fn are_free<S>(slots: &[Option<Held<S>>]) -> bool
    ensures told { result ≡ true → (p : ℕ) → slot_at slots.now p ≡ None }
    ensures all { ((p : ℕ) → slot_at slots.now p ≡ None) → result ≡ true }
{
    'slots: for index in 0..slots.len() {
        match &slots[index] {
            Some(_) => return false,
            None => {}
        }
    }
    true
}
