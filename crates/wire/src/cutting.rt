//! Cutting heads and pieces from the bytes that were read ahead.
ghost use Rattle.std.specs.Prelude.{◌≡◌, ◌≤◌, ◌<◌, [], ◌++◌, length, vec_len, IfErr, IfOk};
ghost use Rattle.std.specs.Io.KnownBytes.{Consumes, IsAtEnd, Keeps, prepend_known};
ghost use Rattle.wire.specs.Waiting.{IsOfReading, SpendsFrom, StaysFree, taken, waiting};
ghost use Rattle.wire.specs.Feeding.{CountsReads, Finds, told};
ghost use Rattle.wire.specs.Openings.{OpensWith};

use crate::announce::read_announcement;
use crate::backlog::{Backlog, MOST_HEAD, ROOM};
use crate::counted::Counted;
use crate::fault::WireFault;
use crate::feed::{Opening, Step};
use crate::head::MOST_FIELDS;
use sigtext::Field;
use std::io::Read;

/// The greatest length of a piece, in bytes.
pub const MOST_PIECE: usize = 65_536;

/// Finds what comes next on the stream. The text of a head goes to the front of `text`, and its fields to the
/// front of `fields`.
pub fn find<'t, R: Read>(
    backlog: &mut Backlog,
    reader: &mut Counted<R>,
    text: &'t mut [u8; MOST_HEAD],
    fields: &mut [Field<'t>; MOST_FIELDS],
) -> Result<Step<Opening<'t>>, WireFault>
    requires { vec_len backlog.old.bytes ≡ ROOM }
    ensures finds { Finds (prepend_known (waiting backlog.old) (R.remaining reader.old.inner))
        (told result) (waiting backlog.new) (R.remaining reader.new.inner) }
    ensures parts { OpensWith fields.new result }
    ensures room { vec_len backlog.new.bytes ≡ ROOM }
    ensures count { CountsReads result reader.old.faults reader.new.faults }
    ensures free { StaysFree backlog.old backlog.new result }
    ensures spends { SpendsFrom R.remaining backlog.old backlog.new reader.old reader.new result }
{
    match backlog.read_head(reader) {
        Ok(Step::Head(size)) => {
            backlog.take(size);
            text[..size].copy_from_slice(backlog.taken(size));
            match read_announcement(&text[..size], fields) {
                Ok(opening) => Ok(Step::Head(opening)),
                Err(refusal) => Ok(Step::Refused(refusal)),
            }
        }
        Ok(Step::Refused(refusal)) => Ok(Step::Refused(refusal)),
        Ok(Step::End) => Ok(Step::End),
        Ok(Step::Truncated) => Ok(Step::Truncated),
        Err(fault) => Err(fault),
    }
}

/// Takes the next bytes of a body with `to_come` bytes left. Returns how many; 0 only if the stream has
/// ended.
pub fn cut_piece<R: Read>(
    backlog: &mut Backlog,
    reader: &mut Counted<R>,
    to_come: usize,
) -> Result<usize, WireFault>
    requires some { 0 < to_come }
    requires room { vec_len backlog.old.bytes ≡ ROOM }
    ensures taken { IfOk result
        (λ size. Consumes (prepend_known (waiting backlog.old) (R.remaining reader.old.inner))
        (prepend_known (waiting backlog.new) (R.remaining reader.new.inner))
        (taken backlog.new size)) }
    ensures size { IfOk result
        (λ size. (size ≤ to_come) × (size ≤ MOST_PIECE) × (size ≤ backlog.new.start)
        × (length (taken backlog.new size) ≡ size)) }
    ensures end { IfOk result
        (λ size. size ≡ 0
        → IsAtEnd (prepend_known (waiting backlog.old) (R.remaining reader.old.inner))) }
    ensures fault { IfErr result
        (λ f. IsOfReading f × (waiting backlog.new ≡ [])
        × Keeps (prepend_known (waiting backlog.old) (R.remaining reader.old.inner))
        (prepend_known (waiting backlog.new) (R.remaining reader.new.inner))) }
    ensures room { vec_len backlog.new.bytes ≡ ROOM }
    ensures count { CountsReads result reader.old.faults reader.new.faults }
    ensures free { StaysFree backlog.old backlog.new result }
    ensures spends { SpendsFrom R.remaining backlog.old backlog.new reader.old reader.new result }
{
    if !backlog.waiting().is_empty() {
        return Ok(take_some(backlog, to_come));
    }
    backlog.read_more(reader)?;
    Ok(take_some(backlog, to_come))
}

// Takes waiting bytes: at most `most`, and at most the size of a piece. Returns how many.
fn take_some(backlog: &mut Backlog, most: usize) -> usize
    ensures taken { waiting backlog.old ≡ taken backlog.new result ++ waiting backlog.new }
    ensures size { length (taken backlog.new result) ≡ result }
    ensures within { result ≤ backlog.new.start }
    ensures most { result ≤ most }
    ensures piece { result ≤ MOST_PIECE }
    ensures none { 0 < most → result ≡ 0 → waiting backlog.old ≡ [] }
    ensures room { vec_len backlog.new.bytes ≡ vec_len backlog.old.bytes }
    ensures kept { backlog.new.most ≡ backlog.old.most }
{
    let size = backlog.waiting().len().min(most).min(MOST_PIECE);
    backlog.take(size);
    size
}
