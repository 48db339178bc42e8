//! Heads that are copied out of a feed, and bodies that are skipped.
ghost use Rattle.std.specs.Prelude.{◌≡◌, ℕ, List, [], IfErr, IfOk, Ok};
ghost use Rattle.wire.specs.Feeding.{AwaitsHead, CountsReads};
ghost use Rattle.wire.specs.Feeds.{SameReader, SpendsIn, given_of, left, place_of, reader_of, waits_in};
ghost use Rattle.wire.specs.Waiting.{StaysFree};
ghost use Rattle.wire.specs.Whole.{BreaksOff, BreaksOffBody, Brings, LacksBody, MayBegin, StandsIn, TakesBody};

use crate::backlog::MOST_HEAD;
use crate::fault::WireFault;
use crate::feed::{Feed, Opening, Piece, Place, Step};
use crate::head::MOST_FIELDS;
use sigtext::{Field, Refusal};
use std::io::Read;

/// What came where a message may begin.
#[derive(Clone, Copy)]
pub enum Came<'a> {
    /// A head. Its body follows.
    Head(Opening<'a>),
    /// The stream breaks a rule of framing, 1 to 5.
    Refused(Refusal),
    /// The stream ended.
    End,
    /// The stream ended within a head.
    Truncated,
}

/// How a body ended.
#[derive(Clone, Copy)]
pub enum Ending {
    /// The whole body came.
    Whole,
    /// The stream ended within the body.
    Lacking,
}

/// Reads the head of a message. Its text goes to the front of `text`, and its fields to the front of
/// `fields`. If a read failed or no more bytes may be read now, more bytes were needed to tell what comes. If
/// memory was refused, it was for the feed's buffer, and nothing had been read.
pub fn read_opening<'t, R: Read>(
    feed: &mut Feed<'_, R>,
    text: &'t mut [u8; MOST_HEAD],
    fields: &mut [Field<'t>; MOST_FIELDS],
) -> Result<Came<'t>, WireFault>
    requires { MayBegin (place_of feed.old) }
    ensures same { SameReader feed.old feed.new }
    ensures brings { IfOk result
        (λ came. Brings came fields.new (left R.remaining feed.old)
        (left R.remaining feed.new)
        (R.remaining (reader_of feed.new).inner) (place_of feed.new)) }
    ensures fault { IfErr result
        (λ f. BreaksOff f (place_of feed.old) (left R.remaining feed.old)
        (left R.remaining feed.new) (R.remaining (reader_of feed.new).inner) (place_of feed.new)) }
    ensures waits { IfErr result (λ f. f ≡ WireFault.Waits → AwaitsHead (waits_in feed.new)) }
    ensures count { CountsReads result (reader_of feed.old).faults (reader_of feed.new).faults }
    ensures given { given_of feed.new ≡ [] }
    ensures free { StaysFree feed.old.backlog feed.new.backlog result }
    ensures spends { SpendsIn R.remaining feed.old feed.new result }
{
    match feed.next(text, fields) {
        Ok(Step::Head(opening)) => Ok(Came::Head(opening)),
        Ok(Step::Refused(refusal)) => Ok(Came::Refused(refusal)),
        Ok(Step::End) => Ok(Came::End),
        Ok(Step::Truncated) => Ok(Came::Truncated),
        Err(fault) => Err(fault),
    }
}

/// Reads and discards the open body of `size` bytes, of which some may have been given. If a read failed, some
/// of them had not come. If no more bytes may be read now, the body is still open, and a later call goes on.
/// Takes no memory.
pub fn skip_body<R: Read>(feed: &mut Feed<'_, R>, size: usize) -> Result<Ending, WireFault>
    requires { StandsIn size feed.old }
    ensures same { SameReader feed.old feed.new }
    ensures whole { result ≡ Ok Ending.Whole
        → (body : List ℕ) × TakesBody R.remaining size feed.old feed.new body }
    ensures lacking { result ≡ Ok Ending.Lacking → LacksBody R.remaining size feed.old feed.new }
    ensures fault { IfErr result (λ f. BreaksOffBody R.remaining size feed.old feed.new f) }
    ensures count { CountsReads result (reader_of feed.old).faults (reader_of feed.new).faults }
    ensures free { StaysFree feed.old.backlog feed.new.backlog result }
    ensures spends { SpendsIn R.remaining feed.old feed.new result }
{
    'pieces: loop {
        match feed.piece() {
            Ok(Piece::Bytes(_)) => {}
            Ok(Piece::Done) => return Ok(Ending::Whole),
            Ok(Piece::Refused(_)) => return Ok(Ending::Lacking),
            Err(fault) => return Err(fault),
        }
    }
}
