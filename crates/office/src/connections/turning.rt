//! Connections that are served in turns. A turn answers one message, or reads on in it.
use super::responding::{Response, respond};
use super::stepping::{Begun, Stepped};
use crate::clocks::Clock;
use crate::office::Office;
use boxes::Keeper;
use std::io::{Read, Write};
use std::mem;
use wire::{Counted, Due, Feed, Seat, SessionEnd, Spare, Standing, Underway};

/// The greatest number of messages on one connection.
const MOST_MESSAGES: u64 = 1000;

/// What a turn came to.
#[derive(Drop)]
pub(crate) enum Turn {
    /// A message was heard, or the connection ends.
    Done(Response),
    /// No message was heard, and the connection goes on.
    ReadOn,
}

/// What a turn returns besides the connection's reader.
#[derive(Drop)]
pub(crate) struct Aside {
    standing: Standing,
    underway: Option<Underway>,
    spare: Spare,
    turn: Turn,
}

impl<K: Keeper> Office<K> {
    ghost use Rattle.std.specs.Prelude.{◌≡◌, ◌≢◌, [], IsSomeAnd, None, Option, Some};
    ghost use Rattle.std.specs.Option.{ForSome};
    ghost use Rattle.boxes.specs.State.{State};
    ghost use Rattle.wire.specs.Feeds.{given_before, stood_at};
    ghost use Rattle.wire.specs.Underways.{IsUnderway};
    ghost use Rattle.wire.specs.Waiting.{TakesAll};
    ghost use Rattle.wire.specs.Whole.{MayBegin};
    ghost use Rattle.office.specs.Connections.{MayGiveUp};
    ghost use Rattle.office.specs.Premise.{HoldsUnless, IsLeft, StaysUnstaged, WasKept};
    ghost use Rattle.office.specs.Seats.{LacksRest, TakesTurn, TellsTurn};
    ghost use Rattle.office.specs.Turning.{TurnsAside};

    // Begins with the next message of a connection.
    fn begin<R: Read, C: Clock>(
        &mut self,
        standing: Standing,
        due: Due,
        reader: &mut Counted<R>,
        clock: &mut C,
    ) -> Aside
        requires begins { MayBegin (stood_at standing) }
        requires none { given_before standing ≡ [] }
        ensures { TurnsAside C.now_gives R.remaining None standing due.most reader.old reader.new
            clock.old clock.new K.Keeper self.old.keeper self.new.keeper result }
    {
        let Due {
            buffer,
            text,
            most,
            ..
        } = due;
        let mut text = text;
        let mut feed = Feed::resume(standing, buffer, most, reader);
        let stepped = self.step(&mut feed, &mut text, clock);
        let (standing, buffer) = feed.set_aside();
        feed.into_reader();
        match stepped {
            Stepped::Done(response) => Aside {
                standing,
                underway: None,
                spare: Spare {
                    buffer,
                    text: Some(text),
                },
                turn: Turn::Done(response),
            },
            Stepped::Waits(None) => Aside {
                standing,
                underway: None,
                spare: Spare {
                    buffer,
                    text: Some(text),
                },
                turn: Turn::ReadOn,
            },
            Stepped::Waits(Some(Begun { len, size, kept })) => Aside {
                standing,
                underway: Some(Underway {
                    text,
                    len,
                    size,
                    kept,
                }),
                spare: Spare { buffer, text: None },
                turn: Turn::ReadOn,
            },
        }
    }

    // Goes on with the message of a connection whose body has not come whole.
    fn go_on<R: Read, C: Clock>(
        &mut self,
        standing: Standing,
        underway: Underway,
        due: Due,
        reader: &mut Counted<R>,
        clock: &mut C,
    ) -> Aside
        requires { IsUnderway underway standing }
        ensures { TurnsAside C.now_gives R.remaining (Some underway) standing due.most reader.old reader.new
            clock.old clock.new K.Keeper self.old.keeper self.new.keeper result }
    {
        let Due {
            buffer,
            text,
            most,
            ..
        } = due;
        let mut feed = Feed::resume(standing, buffer, most, reader);
        let resumed = self.resume(&mut feed, underway, clock);
        let (standing, buffer) = feed.set_aside();
        feed.into_reader();
        let spare = Spare {
            buffer,
            text: Some(text),
        };
        match resumed {
            Stepped::Done(response) => Aside {
                standing,
                underway: None,
                spare,
                turn: Turn::Done(response),
            },
            Stepped::Waits(underway) => Aside {
                standing,
                underway: Some(underway),
                spare,
                turn: Turn::ReadOn,
            },
        }
    }

    // A turn of a connection whose feed was set aside. Nothing is written.
    fn turn_aside<R: Read, C: Clock>(
        &mut self,
        standing: Standing,
        underway: Option<Underway>,
        due: Due,
        reader: &mut Counted<R>,
        clock: &mut C,
    ) -> Aside
        requires begins { underway ≡ None → MayBegin (stood_at standing) }
        requires none { underway ≡ None → given_before standing ≡ [] }
        requires goes_on { ForSome underway (λ u. IsUnderway u standing) }
        ensures { TurnsAside C.now_gives R.remaining underway standing due.most reader.old reader.new
            clock.old clock.new K.Keeper self.old.keeper self.new.keeper result }
    {
        match underway {
            None => self.begin(standing, due, reader, clock),
            Some(underway) => self.go_on(standing, underway, due, reader, clock),
        }
    }

    /// Gives the connection a turn, through the buffer: reads its next message and answers it, or reads on in
    /// it if no more bytes may be read. What the connection does not need is returned. A connection that has
    /// ended stays as it is; bytes that were read and not taken are discarded when it ends. The bytes read, the
    /// moment, the bytes written, the end and the state after are those of the next message of its session,
    /// whatever was done for other connections in between. A turn that only reads on tells no moment and writes
    /// nothing. It has read all the bytes that it may, and those that came are no whole message, so there is none if
    /// bytes may be read without end. All that came of a body is then taken. The connection is given up only within a
    /// message that has begun.
    pub fn take_turn<R: Read, W: Write, C: Clock>(
        &mut self,
        seat: &mut Seat<R, W>,
        due: Due,
        clock: &mut C,
    ) -> Spare
        ensures turns { (s : State) → WasKept K.Keeper self.old.keeper self.new.keeper s
            → (after : State) × IsLeft (K.means self.new.keeper) after
            × TakesTurn C.now_gives R.remaining W.contents seat.old seat.new clock.old clock.new
            K.Keeper self.old.keeper self.new.keeper s after }
        ensures faults { TellsTurn seat.old seat.new }
        ensures unstaged { StaysUnstaged K.Keeper self.old.keeper self.new.keeper }
        ensures rest { HoldsUnless K.Keeper self.old.keeper self.new.keeper
            (IsSomeAnd seat.new.end (MayGiveUp K.Keeper self.old.keeper self.new.keeper)) }
        ensures free { due.most ≡ None → seat.new.waited ≡ seat.old.waited }
        ensures all { (seat.new.waited ≢ seat.old.waited)
            → TakesAll due.most (R.remaining seat.old.reader.inner) (R.remaining seat.new.reader.inner) }
        ensures awaits { (seat.new.waited ≢ seat.old.waited) → LacksRest seat.new.underway seat.new.standing }
    {
        if seat.end().is_some() {
            return due.spare();
        }
        if seat.served >= MOST_MESSAGES {
            let mut spare = due.spare();
            seat.end = Some(SessionEnd::Limit);
            spare.take_back(seat.standing.let_go());
            return spare;
        }
        let standing = mem::replace(&mut seat.standing, Standing::new(self.alloc));
        let underway = seat.underway.take();
        let aside = self.turn_aside(standing, underway, due, &mut seat.reader, clock);
        seat.standing = aside.standing;
        seat.underway = aside.underway;
        let mut spare = aside.spare;
        let Turn::Done(response) = aside.turn else {
            seat.waited = seat.waited.and(&seat.served, &seat.served);
            return spare;
        };
        seat.end = respond(&response, &mut seat.writer);
        if seat.end.is_none() {
            seat.served += 1;
            return spare;
        }
        spare.take_back(seat.standing.let_go());
        spare
    }
}
