//! Connections that come and go while others are served.
ghost use Rattle.std.specs.Prelude.{◌≡◌, ◌<◌, ◌+◌, ℕ, cond, is_some, IfNone, IfSome, List, length};
ghost use Rattle.wire.specs.Crowds.{ChangesBy, IsOpenAt, slot_at};

use crate::seat::Seat;
use crate::standing::{Buffer, HeadBlock, Spare};
use std::io::{Read, Write};

/// A turn that is due.
#[derive(Drop)]
pub struct Due {
    /// The index of the connection's slot.
    pub index: usize,
    /// The buffer to use.
    pub buffer: Buffer,
    /// The block for the text of a head.
    pub text: HeadBlock,
    /// How many bytes may be read; without end if `None`. If they are not enough for a whole message, the
    /// connection goes on in a later turn.
    pub most: Option<usize>,
}

impl Due {
    /// The buffer and the block.
    pub fn spare(self) -> Spare {
        Spare {
            buffer: Some(self.buffer),
            text: Some(self.text),
        }
    }
}

/// What happens around an office between two turns. A new connection gets a free slot. Bytes of open
/// connections may be read ahead or sent. A slot may be freed, whether its connection has ended or not.
pub trait Crowd<R: Read, W: Write> {
    ghost use Rattle.wire.specs.Crowds.{GivenTurn};
    ghost use Rattle.wire.specs.declared.seat.Seat.{Seat};

    /// The connections that came so far, as they came, and those that went, as they were then.
    ghost met: { Self → List (Seat R W) → List (Seat R W) → Type 0 };

    /// The turns given so far, in order, each with the number of its connection and how many bytes may be read
    /// in it, and for each slot the number of the last connection that came into it. A connection's number is
    /// the count of connections before it. A crowd may rely on it that the connections in the slots are among
    /// those that came.
    ghost gave: { Self → (ℕ → ℕ) → List GivenTurn → Type 0 };

    /// What holds of a connection whose turn is due.
    ghost settled: { Seat R W → Type 0 };

    /// No more turns are due.
    ghost over: { Self → Type 0 };

    /// How many more turns the crowd may give.
    ghost turns: { Self → ℕ };

    /// They are fewer than 2^64.
    ghost few: { (crowd : Self) → turns crowd < 18446744073709551616 };

    /// Waits for what comes next. Returns the turn that is due, of an open connection, or `None` if no more
    /// turns are due. `spare` is what the last turn left.
    fn next(&mut self, slots: &mut [Option<Seat<R, W>>], spare: Spare) -> Option<Due>
        ensures changes { ChangesBy R.remaining W.contents met gave
            self.old self.new slots.old slots.new result }
        ensures within { IfSome result (λ turn. turn.index < length slots.new) }
        ensures due { IfSome result (λ turn. IsOpenAt slots.new turn.index) }
        ensures settled { IfSome result (λ turn. IfSome (slot_at slots.new turn.index) settled) }
        ensures over { IfNone result (over self.new) }
        ensures counts { turns self.old ≡ turns self.new + cond (is_some result) 1 0 };
}
