//! One connection: its messages are read and answered in order.
use super::responding::respond;
use super::stepping::Stepped;
use crate::clocks::Clock;
use crate::office::Office;
use boxes::Keeper;
use std::io::{Read, Write};
use wire::{Counted, Feed, MOST_HEAD, SessionEnd};

/// The greatest number of messages on one connection.
const MOST_MESSAGES: usize = 1000;

impl<K: Keeper> Office<K> {
    ghost use Rattle.boxes.specs.State.{State};
    ghost use Rattle.wire.specs.Feeds.{SameReader, left, place_of, reader_of};
    ghost use Rattle.wire.specs.Waiting.{IsFree};
    ghost use Rattle.wire.specs.Whole.{MayBegin};
    ghost use Rattle.office.specs.Connections.{MayGiveUp, Serves, TellsFaults};
    ghost use Rattle.office.specs.Premise.{HoldsUnless, IsLeft, StaysUnstaged, WasKept};
    ghost use Rattle.office.specs.Sessions.{most_messages};

    // Serves the messages of a feed, at most 1000.
    fn serve_feed<R: Read, W: Write, C: Clock>(
        &mut self,
        feed: &mut Feed<'_, R>,
        writer: &mut Counted<W>,
        clock: &mut C,
    ) -> SessionEnd
        requires begins { MayBegin (place_of feed.old) }
        requires free { IsFree feed.old.backlog }
        ensures same { SameReader feed.old feed.new }
        ensures serves { (s : State) → WasKept K.Keeper self.old.keeper self.new.keeper s
            → (after : State) × IsLeft (K.means self.new.keeper) after
            × Serves most_messages C.now_gives
            (left R.remaining feed.old) (R.remaining (reader_of feed.new).inner)
            (W.contents writer.old.inner) (W.contents writer.new.inner) clock.old clock.new
            K.Keeper self.old.keeper self.new.keeper s after result }
        ensures faults { TellsFaults result
            (reader_of feed.old) (reader_of feed.new) writer.old writer.new }
        ensures unstaged { StaysUnstaged K.Keeper self.old.keeper self.new.keeper }
        ensures rest { HoldsUnless K.Keeper self.old.keeper self.new.keeper (MayGiveUp K.Keeper self.old.keeper self.new.keeper result) }
    {
        let mut block = [0; MOST_HEAD];
        'messages: for _ in 0..MOST_MESSAGES {
            match self.step(feed, &mut block, clock) {
                Stepped::Done(response) => {
                    if let Some(end) = respond(&response, writer) {
                        return end;
                    }
                }
                Stepped::Waits(_) => unreachable!(),
            }
        }
        SessionEnd::Limit
    }

    /// Serves a connection: reads its messages, at most 1000, and answers them in order. The bytes read, the
    /// moments, the bytes written, the end, the keeper's count and the state after are those of a session of
    /// the machine. If a fault of the reader or the writer was counted, the end tells it.
    ///
    /// A keeper that was open stays open, unless the session gave up. A body goes to the keeper in pieces and
    /// is stored whole or not at all: if nothing was staged before, nothing is staged after, unless the
    /// keeper counted a fault.
    ///
    /// Changes survive a crash. A crash afterwards leaves the state after or, if a message was given up,
    /// possibly that state with the request of this message done at its moment.
    pub fn session<R: Read, W: Write, C: Clock>(
        &mut self,
        reader: &mut Counted<R>,
        writer: &mut Counted<W>,
        clock: &mut C,
    ) -> SessionEnd
        ensures serves { (s : State) → WasKept K.Keeper self.old.keeper self.new.keeper s
            → (after : State) × IsLeft (K.means self.new.keeper) after
            × Serves most_messages C.now_gives
            (R.remaining reader.old.inner) (R.remaining reader.new.inner)
            (W.contents writer.old.inner) (W.contents writer.new.inner) clock.old clock.new
            K.Keeper self.old.keeper self.new.keeper s after result }
        ensures faults { TellsFaults result reader.old reader.new writer.old writer.new }
        ensures unstaged { StaysUnstaged K.Keeper self.old.keeper self.new.keeper }
        ensures rest { HoldsUnless K.Keeper self.old.keeper self.new.keeper (MayGiveUp K.Keeper self.old.keeper self.new.keeper result) }
    {
        let mut feed = Feed::new(self.alloc, reader);
        let end = self.serve_feed(&mut feed, writer, clock);
        feed.into_reader();
        end
    }
}
