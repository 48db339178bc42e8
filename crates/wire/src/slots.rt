//! The slots of connections that come and go, and what may be done to them between two turns.
ghost use Rattle.std.specs.Prelude.{◌≡◌, ◌<◌, ◌∷◌, [], length, slice_set, IfErr, IfNone, IfOk, IfSome, IsNone, IsOk, None, Ok, Some, ⊤};
ghost use Rattle.wire.specs.Crowds.{Changes, DoneAt, NoneIsFree, SentAt, slot_at, those_of};
ghost use Rattle.wire.specs.Slots.{Fails, PutsBack, ReadsAhead, SendsOn};
ghost use Rattle.wire.specs.Seats.{IsNew};

use crate::seat::Seat;
use crate::standing::Buffer;
use crate::{Gathered, Gathering, Outbox, Sending};
use std::alloc::AllocError;
use std::io;
use std::io::{Read, Write};

/// The index of the first free slot.
pub fn first_free<R, W>(slots: &[Option<Seat<R, W>>]) -> Option<usize>
    ensures some { IfSome result (λ index. (index < length slots.now)
        × (slot_at slots.now index ≡ None)) }
    ensures none { IfNone result (NoneIsFree slots.now (length slots.now)) }
{
    'slots: for index in 0..slots.len() {
        if slots[index].is_none() {
            return Some(index);
        }
    }
    None
}

/// Puts a new connection into the first free slot and returns its index. Returns the connection if no slot is
/// free.
pub fn open_slot<R: Read + Drop, W: Write + Drop>(
    slots: &mut [Option<Seat<R, W>>],
    seat: Seat<R, W>,
) -> Result<usize, Seat<R, W>>
    requires { IsNew seat }
    ensures opened { IfOk result (λ index. (index < length slots.old)
        × (slot_at slots.old index ≡ None) × (slots.new ≡ slice_set slots.old index (Some seat))
        × Changes R.remaining W.contents slots.old slots.new (seat ∷ []) []) }
    ensures full { IfErr result (λ back. (back ≡ seat) × (slots.new ≡ slots.old)
        × NoneIsFree slots.old (length slots.old)) }
{
    match first_free(slots) {
        Some(index) => {
            slots[index] = Some(seat);
            Ok(index)
        }
        None => Err(seat),
    }
}

/// Frees the slot. Returns its connection, if there was one.
pub fn free_slot<R: Read, W: Write>(
    slots: &mut [Option<Seat<R, W>>],
    index: usize,
) -> Option<Seat<R, W>>
    requires { index < length slots.old }
    ensures given { result ≡ slot_at slots.old index }
    ensures free { slots.new ≡ slice_set slots.old index None }
    ensures changes { Changes R.remaining W.contents slots.old slots.new [] (those_of result) }
{
    slots[index].take()
}

/// Reads ahead once, at most so many bytes, for the connection in the slot, without waiting. If there is none,
/// or it has ended, nothing is read and the result is `Ended`. The error means that memory was refused; nothing
/// was read then.
pub fn gather_slot<S: Read, W: Write>(
    slots: &mut [Option<Seat<Gathered<S>, W>>],
    index: usize,
    most: usize,
) -> Result<Gathering, AllocError>
    requires { index < length slots.old }
    ensures changes { Changes ⟦<Gathered<S> as Read>⟧.remaining W.contents slots.old slots.new [] [] }
    ensures done { DoneAt ⟦<Gathered<S> as Read>⟧.remaining (λ a b. ReadsAhead S.remaining most a b result)
        (result ≡ Ok Gathering.Ended) slots.old slots.new index }
{
    match &mut slots[index] {
        Some(seat) if seat.end().is_none() => seat.gather(most),
        _ => Ok(Gathering::Ended),
    }
}

/// Returns the bytes that the connection's feed read and did not take to those that were read ahead. Frees
/// the memory if no bytes are ahead then. Returns the feed's buffer, if it had one of its own. If there is no
/// connection, or it has ended, nothing is done and no buffer is returned.
pub fn settle_slot<S: Read, W: Write>(
    slots: &mut [Option<Seat<Gathered<S>, W>>],
    index: usize,
) -> Option<Buffer>
    requires { index < length slots.old }
    ensures changes { Changes ⟦<Gathered<S> as Read>⟧.remaining W.contents slots.old slots.new [] [] }
    ensures done { DoneAt ⟦<Gathered<S> as Read>⟧.remaining (λ a b. PutsBack a b result)
        (IsNone result) slots.old slots.new index }
{
    match &mut slots[index] {
        Some(seat) if seat.end().is_none() => seat.give_back(),
        _ => None,
    }
}

/// Makes each read of the connection in the slot fail at once, with this error or an earlier one. Nothing
/// changes if the connection has ended.
pub fn fail_slot<S: Read, W: Write>(
    slots: &mut [Option<Seat<Gathered<S>, W>>],
    index: usize,
    error: io::Error,
)
    requires { index < length slots.old }
    ensures changes { Changes ⟦<Gathered<S> as Read>⟧.remaining W.contents slots.old slots.new [] [] }
    ensures done { DoneAt ⟦<Gathered<S> as Read>⟧.remaining (λ a b. Fails a b) ⊤ slots.old slots.new index }
{
    let Some(seat) = &mut slots[index] else {
        return;
    };
    if seat.end().is_none() {
        seat.fail(error);
    }
}

/// Sends waiting bytes of the connection in the slot once, without waiting for its peer, even if it has
/// ended. If there is no connection the result is `Sent`.
pub fn send_slot<R: Read, S: Write>(
    slots: &mut [Option<Seat<R, Outbox<S>>>],
    index: usize,
) -> Sending
    requires { index < length slots.old }
    ensures changes { Changes R.remaining ⟦<Outbox<S> as Write>⟧.contents slots.old slots.new [] [] }
    ensures done { SentAt ⟦<Outbox<S> as Write>⟧.contents (λ a b. SendsOn S.contents a b result)
        (result ≡ Sending.Sent) slots.old slots.new index }
{
    match &mut slots[index] {
        Some(seat) => seat.send(),
        None => Sending::Sent,
    }
}
