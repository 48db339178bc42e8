//! The connections in their slots, as the loop sees them.
ghost use Rattle.std.specs.Prelude.{◌≡◌, ◌≤◌, ◌↔◌, ◌∷◌, [], length, IfSome, IsSomeAnd, IsTrue};
ghost use Rattle.std.specs.List.{count_by};
ghost use Rattle.wire.specs.Crowds.{slot_at};
ghost use Rattle.wire.specs.Seats.{IsNew};
ghost use Rattle.wire.specs.Gathering.{ahead_in};
ghost use Rattle.sockets.specs.Accepting.{IsIdle, IsSettled, IsThrough, IsUntouched, MayTurn, is_write_fault, lacks_answers};

use crate::rooms::Share;
use std::alloc::Global;
use std::io::{Read, Write};
use wire::{Gathered, Outbox, Seat, SessionEnd};

/// A connection in its slot.
pub type Held<S> = Seat<Gathered<S>, Outbox<S>>;

/// The connection in the slot, if there is one.
pub(crate) fn seat_at<S>(slots: &[Option<Held<S>>], index: usize) -> Option<&Held<S>>
    ensures { IfSome (slot_at slots.now index) (λ seat. IsSomeAnd result (λ found. found.now ≡ seat)) }
{
    match slots.get(index) {
        Some(Some(seat)) => Some(seat),
        _ => None,
    }
}

/// The number of bytes that were read ahead for the connection in the slot.
pub(crate) fn ahead_len<S: Read>(slots: &[Option<Held<S>>], index: usize) -> usize
    ensures { IfSome (slot_at slots.now index) (λ seat. result ≡ length (ahead_in seat.reader.inner)) }
{
    match seat_at(slots, index) {
        Some(seat) => seat.reader.inner.ahead().len(),
        None => 0,
    }
}

/// Whether a turn may be given to the connection in the slot.
pub(crate) fn may_turn_at<S: Read + Write>(slots: &[Option<Held<S>>], index: usize) -> bool {
    match seat_at(slots, index) {
        Some(seat) => may_turn(seat),
        None => true,
    }
}

/// The number of bytes that wait for the peer.
pub(crate) fn waiting_len<S: Write>(slots: &[Option<Held<S>>], index: usize) -> usize {
    match seat_at(slots, index) {
        Some(seat) => seat.writer.inner.waiting().len(),
        None => 0,
    }
}

/// What the body of the connection in the slot takes of the shared memory.
pub(crate) fn share_at<S: Read>(slots: &[Option<Held<S>>], index: usize) -> Share {
    let Some(seat) = seat_at(slots, index) else {
        return Share::NONE;
    };
    match (seat.kept(), seat.to_come()) {
        (Some(kept), Some(rest)) => Share {
            held: kept.len(),
            rest,
        },
        _ => Share::NONE,
    }
}

/// Whether everything written to the connection was sent, or a write failed.
pub(crate) fn is_settled<S: Read + Write>(seat: &Held<S>) -> bool
    ensures { IsTrue result → IsSettled seat.now }
{
    let writer = &seat.writer.inner;
    writer.has_failed() || writer.waiting().is_empty()
}

/// Whether a turn may be given to the connection: everything written to it was sent, or each read of it fails at
/// once.
pub(crate) fn may_turn<S: Read + Write>(seat: &Held<S>) -> bool
    ensures { IsTrue result → MayTurn seat.now }
{
    let writer = &seat.writer.inner;
    let is_sent = writer.waiting().is_empty() && !writer.has_failed();
    is_sent || seat.reader.inner.is_cut()
}

// Whether the connection is between two messages: none is under way, no bytes are ahead or waiting, and no read
// has failed.
fn is_idle<S: Read + Write>(seat: &Held<S>) -> bool
    ensures { IsTrue result ↔ IsIdle seat.now }
{
    let reader = &seat.reader.inner;
    let is_read = seat.ahead().is_empty() && reader.ahead().is_empty() && !reader.has_failed();
    seat.underway.is_none() && is_read && seat.writer.inner.waiting().is_empty()
}

/// Whether the connection is through: it is idle or has ended and, if it ended by a failed read, its reader
/// has failed.
pub(crate) fn is_through<S: Read + Write>(seat: &Held<S>) -> bool
    ensures { IsTrue result ↔ IsThrough seat.now }
{
    match seat.end() {
        None => is_idle(seat),
        Some(SessionEnd::ReadFault) => seat.reader.inner.has_failed(),
        Some(_) => true,
    }
}

// Whether the connection ended by a failed write.
fn is_write_fault(end: Option<SessionEnd>) -> bool
    ensures { result ≡ is_write_fault end }
{
    matches!(end, Some(SessionEnd::WriteFault))
}

// Whether a write failed, so that an answer was not sent in full.
fn lacks_answers<S: Read + Write>(seat: &Held<S>) -> bool
    ensures { result ≡ lacks_answers seat.now }
{
    seat.writer.inner.has_failed() || is_write_fault(seat.end())
}

/// 1 if the connection lacks answers, otherwise 0.
pub(crate) fn lacking<S: Read + Write>(seat: &Held<S>) -> u64
    ensures count { result ≡ count_by lacks_answers (seat.now ∷ []) }
    ensures most { result ≤ 1 }
{
    if lacks_answers(seat) { 1 } else { 0 }
}

/// A connection with these ends. Nothing was read from it or written to it.
pub(crate) fn new_seat<S: Read + Write>(alloc: Global, reader: S, writer: S) -> Held<S>
    ensures new { IsNew result }
    ensures reader { result.reader.inner.inner ≡ reader }
    ensures writer { result.writer.inner.inner ≡ writer }
    ensures untouched { IsUntouched result }
{
    let reader = Gathered::new(alloc, reader);
    let writer = Outbox::new(alloc, writer);
    Seat::new(alloc, reader, writer)
}
