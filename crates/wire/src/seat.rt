//! A connection among others. Its feed is set aside between its turns.
ghost use Rattle.std.specs.Prelude.{◌≡◌, ◌≤◌, ◌-◌, [], IfSome, IsTrue, None, length, option_map};
ghost use Rattle.std.specs.Option.{ForSome};
ghost use Rattle.wire.specs.Feeds.{given_before, stood_at};
ghost use Rattle.wire.specs.declared.feed.Place.TheVariants as stands;
ghost use Rattle.wire.specs.Begins.{may_begin};
ghost use Rattle.wire.specs.Underways.{IsUnderway};

use crate::feed::Place;
use crate::session::SessionEnd;
use crate::standing::Buffer;
use crate::underway::Underway;
use crate::{Counted, Gathered, Gathering, Outbox, Sending, Standing};
use http_server::Log;
use std::alloc::{AllocError, Global};
use std::io;
use std::io::{Read, Write};

/// A connection among others, between two of its turns.
#[derive(Drop)]
pub struct Seat<R, W> {
    /// Its reader.
    pub reader: Counted<R>,
    /// Its writer.
    pub writer: Counted<W>,
    /// Its feed, set aside.
    pub standing: Standing,
    /// The message whose body has not come whole, if there is one.
    pub underway: Option<Underway>,
    /// A mark for each turn in which no message was answered and the connection went on.
    pub waited: Log<u64, u64>,
    /// The number of its messages that were served, at most 1000.
    pub served: u64,
    /// How it ended, if it did.
    pub end: Option<SessionEnd>,
    ghost few: { served ≤ 1000 },
    ghost begins: { end ≡ None → underway ≡ None → IsTrue (may_begin (stood_at standing)) },
    ghost forgot: { end ≡ None → underway ≡ None → given_before standing ≡ [] },
    ghost goes_on: { ForSome underway (λ u. IsUnderway u standing) },
    ghost fresh: { end ≡ None → stood_at standing ≡ stands.Fresh → served ≡ 0 },
}

impl<R, W> Seat<R, W> {
    ghost use Rattle.wire.specs.Feeds.{ahead_of};
    ghost use Rattle.wire.specs.Seats.{IsNew};

    /// A connection from which nothing was read. It takes no memory.
    pub fn new(alloc: Global, reader: R, writer: W) -> Seat<R, W>
        ensures new { IsNew result }
        ensures place { stood_at result.standing ≡ stands.Fresh }
        ensures ahead { ahead_of result.standing ≡ [] }
        ensures reader { result.reader.inner ≡ reader }
        ensures writer { result.writer.inner ≡ writer }
    {
        Seat {
            reader: Counted::new(reader),
            writer: Counted::new(writer),
            standing: Standing::new(alloc),
            underway: None,
            waited: Log::new(),
            served: 0,
            end: None,
        }
    }

    /// How the connection ended, if it did.
    pub fn end(&self) -> Option<SessionEnd>
        ensures { result ≡ self.now.end }
    {
        self.end
    }

    /// The number of its messages that were served.
    pub fn served(&self) -> u64
        ensures { result ≡ self.now.served }
    {
        self.served
    }

    /// How many bytes of the body of the message under way are still to come, if one is.
    pub fn to_come(&self) -> Option<usize>
        ensures { result ≡ option_map (λ u. u.size - length (given_before self.now.standing)) self.now.underway }
    {
        let Some(_) = &self.underway else {
            return None;
        };
        match self.standing.place() {
            Place::Body(left) => Some(left),
            _ => unreachable!(),
        }
    }

    /// The bytes of the body of the message under way that are kept, if it is one to be kept.
    pub fn kept(&self) -> Option<&[u8]>
        ensures bytes { IfSome result (λ bytes. bytes.now ≡ given_before self.now.standing) }
        ensures none { result ≡ None → ForSome self.now.underway (λ u. u.kept ≡ None) }
    {
        let Some(underway) = &self.underway else {
            return None;
        };
        match &underway.kept {
            Some(kept) => Some(&kept.bytes),
            None => None,
        }
    }

    /// The bytes that the feed read and did not take, while they wait in a buffer of its own.
    pub fn ahead(&self) -> &[u8]
        ensures { result.now ≡ ahead_of self.now.standing }
    {
        self.standing.ahead()
    }
}

impl<S: Read, W> Seat<Gathered<S>, W> {
    ghost use Rattle.std.specs.Prelude.{◌+◌, ◌++◌, IsOk, IsSome};
    ghost use Rattle.wire.specs.Gathering.{Gathers as ReadsAhead, HasFailed, HasRoomFor, IsCut, KeepsError, KeepsHealth, ahead_in};
    ghost use Rattle.wire.specs.Feeds.{ahead_of};
    ghost use Rattle.wire.specs.Seats.{Gathers};

    /// Reads ahead once, at most so many bytes, without waiting. The error means that memory was refused; nothing
    /// was read then.
    pub fn gather(&mut self, most: usize) -> Result<Gathering, AllocError>
        ensures gathers { Gathers ⟦<Gathered<S> as Read>⟧.remaining self.old self.new }
        ensures standing { self.new.standing ≡ self.old.standing }
        ensures told { ReadsAhead S.remaining self.old.reader.inner self.new.reader.inner result }
        ensures most { length (ahead_in self.new.reader.inner)
            ≤ length (ahead_in self.old.reader.inner) + most }
        ensures room { HasRoomFor most self.old.reader.inner → IsOk result }
    {
        self.reader.inner.gather(most)
    }

    /// Makes each read fail at once, with this error or an earlier one: the bytes that were read ahead are given
    /// no more.
    pub fn fail(&mut self, error: io::Error)
        ensures gathers { Gathers ⟦<Gathered<S> as Read>⟧.remaining self.old self.new }
        ensures standing { self.new.standing ≡ self.old.standing }
        ensures ahead { ahead_in self.new.reader.inner ≡ ahead_in self.old.reader.inner }
        ensures failed { IsCut self.new.reader.inner }
        ensures first { HasFailed self.old.reader.inner
            → KeepsError self.old.reader.inner self.new.reader.inner }
    {
        self.reader.inner.fail(error);
    }

    /// Returns the bytes that the feed read and did not take to those that were read ahead, if they came from
    /// there, and returns the buffer. Frees the memory if no bytes are ahead then.
    pub fn give_back(&mut self) -> Option<Buffer>
        ensures gathers { Gathers ⟦<Gathered<S> as Read>⟧.remaining self.old self.new }
        ensures kept { ahead_of self.new.standing ++ ahead_in self.new.reader.inner
            ≡ ahead_of self.old.standing ++ ahead_in self.old.reader.inner }
        ensures back { IsSome result → ahead_of self.new.standing ≡ [] }
        ensures health { KeepsHealth self.old.reader.inner self.new.reader.inner }
    {
        let room = self.standing.give_back(&mut self.reader.inner);
        self.reader.inner.let_go();
        room
    }
}

impl<R, S: Write> Seat<R, Outbox<S>> {
    ghost use Rattle.std.specs.Prelude.{◌↔◌, ◌++◌, ℕ, List};
    ghost use Rattle.std.specs.Io.KnownBytes.{Appends};
    ghost use Rattle.wire.specs.Outgoing.{NoneFailed, WriteFailed, waits_out};
    ghost use Rattle.wire.specs.Seats.{Sends};

    /// Sends waiting bytes once, without waiting for the peer.
    pub fn send(&mut self) -> Sending
        ensures sends { Sends ⟦<Outbox<S> as Write>⟧.contents self.old self.new }
        ensures sent { result ≡ Sending.Sent
            ↔ ((waits_out self.new.writer.inner ≡ []) × NoneFailed self.new.writer.inner) }
        ensures failed { result ≡ Sending.Failed ↔ WriteFailed self.new.writer.inner }
        ensures takes { (bytes : List ℕ)
            × (waits_out self.old.writer.inner ≡ bytes ++ waits_out self.new.writer.inner)
            × Appends (S.contents self.old.writer.inner.inner) (S.contents self.new.writer.inner.inner) bytes }
    {
        self.writer.inner.send()
    }
}
