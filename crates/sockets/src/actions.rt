//! What the loop does next, and what came of it.
use std::alloc::AllocError;
use std::io::ErrorKind;
use wire::{Buffer, Due, Gathering, Sending, Spare};

/// What is done next. An index is that of a slot: the action is done to its connection.
#[derive(Drop)]
pub(crate) enum Action {
    /// Nothing. The loop goes on.
    Pass,
    /// Reads at most this many bytes ahead.
    Gather { index: usize, most: usize },
    /// Returns what the feed did not take to the bytes that are ahead.
    Settle { index: usize },
    /// Makes its reads fail like this, once the bytes that are ahead are given.
    Fail { index: usize, kind: ErrorKind },
    /// Sends the bytes that wait for the peer.
    Send { index: usize },
    /// Closes the connection, once all bytes that wait for the peer are sent.
    Free { index: usize },
    /// Asks the listener for a connection.
    Accept,
    /// Lets the connection that was accepted into a slot.
    LetIn,
    /// Gives a turn.
    Turn(Due),
    /// Ends the loop: all connections have come and gone.
    Over,
}

/// What came of an action.
#[derive(Drop)]
pub(crate) enum Outcome {
    /// Nothing was to be done.
    Passed,
    /// Nothing was done to the connection in this slot: there is no such slot, or it was to be closed and is not
    /// through, or no more closed ones can be counted.
    Stayed {
        index: usize,
    },
    /// The result of reading ahead, and whether as many bytes came as could.
    Gathered {
        index: usize,
        gathering: Result<Gathering, AllocError>,
        is_full: bool,
    },
    /// The feed returned this buffer, if it had one.
    Settled {
        index: usize,
        buffer: Option<Buffer>,
    },
    /// Its reads fail.
    Failing {
        index: usize,
    },
    /// How far the bytes that wait for the peer are sent.
    Sent {
        index: usize,
        sending: Sending,
    },
    /// The slot is free.
    Freed {
        index: usize,
    },
    /// A connection was accepted and waits to be let in.
    Came,
    /// A connection could not be accepted.
    Refused,
    /// No connection is there, or one waits already, or no more are to come.
    NoneCame,
    /// The connection that waited came into this slot.
    Entered {
        index: usize,
    },
    /// It was turned away, or none waited.
    Away,
    /// No connection can be accepted or let in now, because memory, descriptors or slots are short.
    Wanting,
    /// A turn was taken. This is left of what it was given.
    Turned(Spare),
}
