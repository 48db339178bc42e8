//! Connections at one fixed moment: one over an office in memory, or a list over any office.
ghost use Rattle.std.specs.Prelude.{◌≡◌, pos, IfOk, OnErr};
ghost use Rattle.sigv4.specs.Credential.{IsKeyId, IsSecret};
ghost use Rattle.boxes.specs.FirstState.{first_state};
ghost use Rattle.boxes.specs.Keeping.{KeepsGroup};
ghost use Rattle.boxes.specs.State.{State};
ghost use Rattle.office.specs.Connections.{TellsFaults};
ghost use Rattle.office.specs.Premise.{IsLeft, WasKept};
ghost use Rattle.office.specs.Replays.{InTurn, InTurnOver, IsReplay, Replays, TakesTurns};

use crate::{FixedClock, Office};
use boxes::{Keeper, OfficeRow};
use shelf::Shelf;
use sigv4::{Allowance, Moment};
use std::alloc::{AllocError, Global};
use std::fs;
use std::fs::Files;
use std::io::{Read, Write};
use wire::{Counted, SessionEnd};

// The settings of an office in memory.
fn new_office() -> OfficeRow
    ensures east { result.east ≡ pos 0 }
    ensures allowance { result.allowance ≡ 0 }
{
    OfficeRow {
        east: 0,
        allowance: Allowance::none(),
    }
}

/// Serves one connection over a new office in memory, with offset 0, allowance 0, this clerk's key and no
/// boxes. Every message is handled at `moment`. The error means that memory was refused for the office;
/// nothing was read then.
pub fn replay<R: Read, W: Write>(
    alloc: Global,
    id: &[u8],
    secret: &[u8],
    moment: Moment,
    reader: &mut Counted<R>,
    writer: &mut Counted<W>,
) -> Result<SessionEnd, AllocError>
    requires id { IsKeyId id.now }
    requires secret { IsSecret secret.now }
    ensures session { IfOk result (Replays
        (R.remaining reader.old.inner) (R.remaining reader.new.inner)
        (W.contents writer.old.inner) (W.contents writer.new.inner)
        (first_state (pos 0) 0 id.now secret.now) moment) }
    ensures tells { IfOk result (λ end.
        TellsFaults end reader.old reader.new writer.old writer.new) }
    ensures err { OnErr result ((reader.new ≡ reader.old) × (writer.new ≡ writer.old)) }
{
    let Ok(keeper) = Shelf::new(alloc, new_office(), id, secret) else {
        return Err(AllocError);
    };
    let mut office = Office::new(alloc, keeper);
    Ok(office.session(reader, writer, &mut FixedClock::new(moment)))
}

/// The answers to a connection, and how it ended.
#[derive(Drop)]
pub struct Replayed {
    /// All bytes that were written.
    pub answers: Vec<u8>,
    /// How the connection ended.
    pub end: SessionEnd,
}

/// Like `replay`, for the bytes of a whole connection. The error means that memory was refused for the
/// office.
pub fn replay_bytes(
    alloc: Global,
    id: &[u8],
    secret: &[u8],
    moment: Moment,
    bytes: &[u8],
) -> Result<Replayed, AllocError>
    requires id { IsKeyId id.now }
    requires secret { IsSecret secret.now }
    ensures { IfOk result (λ r.
        IsReplay bytes.now (first_state (pos 0) 0 id.now secret.now) moment r.answers.items r.end) }
{
    let mut reader = Counted::new(bytes);
    let mut writer = Counted::new(Vec::new(alloc));
    let end = replay(alloc, id, secret, moment, &mut reader, &mut writer)?;
    Ok(Replayed {
        answers: writer.inner,
        end,
    })
}

/// Serves connections over an office, one after another, with one writer and every message at `moment`.
/// Returns how many sessions ended by a failed read or write. The streams are names of files; each file is
/// opened when its turn comes. The bytes written and the state after are those of sessions of the machine in
/// order. If the keeper was open and no session gave up, no other state is kept. A crash afterwards leaves the
/// state after; if a message was given up, possibly that state with its request done at its moment. The error
/// is the first name whose file could not be opened: the connections before it were served, and none after it.
pub fn replay_over<'a, F: Files, K: Keeper, W: Write>(
    files: &F,
    office: &mut Office<K>,
    streams: &[&'a str],
    moment: Moment,
    writer: &mut Counted<W>,
) -> Result<u64, &'a str>
    ensures turns { (s : State) → WasKept K.Keeper office.old.keeper office.new.keeper s
        → (after : State) × IsLeft (K.means office.new.keeper) after
        × TakesTurns (InTurnOver K.Keeper office.old.keeper office.new.keeper
        (W.contents writer.old.inner) (W.contents writer.new.inner) s after moment) streams.now result }
    ensures honest { K.is_honest office.new.keeper → K.is_honest office.old.keeper }
    ensures group { KeepsGroup K.is_alone K.gathers office.old.keeper office.new.keeper }
{
    let mut faulty = 0;
    'streams: for name in streams {
        let Ok(stream) = fs::open(files, *name) else {
            return Err(*name);
        };
        let mut reader = Counted::new(stream);
        let mut clock = FixedClock::new(moment);
        let end = office.session(&mut reader, writer, &mut clock);
        if end.is_fault() {
            faulty += 1;
        }
    }
    Ok(faulty)
}

/// Like `replay_over`, over a new office in memory, with offset 0, allowance 0, this clerk's key and no
/// boxes. The error means that memory was refused for the office; nothing was served then.
pub fn replay_in_memory<'a, F: Files, W: Write>(
    alloc: Global,
    files: &F,
    id: &[u8],
    secret: &[u8],
    streams: &[&'a str],
    moment: Moment,
    writer: &mut Counted<W>,
) -> Result<Result<u64, &'a str>, AllocError>
    requires id { IsKeyId id.now }
    requires secret { IsSecret secret.now }
    ensures turns { IfOk result (λ served. (after : State)
        × TakesTurns (InTurn (W.contents writer.old.inner) (W.contents writer.new.inner)
        (first_state (pos 0) 0 id.now secret.now) after moment) streams.now served) }
    ensures err { OnErr result (writer.new ≡ writer.old) }
{
    let first = new_office();
    let Ok(keeper) = Shelf::new(alloc, first, id, secret) else {
        return Err(AllocError);
    };
    let mut office = Office::new(alloc, keeper);
    Ok(replay_over(files, &mut office, streams, moment, writer))
}
