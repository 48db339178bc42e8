//! `drop replay`: answers recorded connections, one after another.
ghost use Rattle.std.specs.Prelude.{◌≡◌, IfOk, IfSome, IsOk, Ok, Some};
ghost use Rattle.std.specs.Io.KnownBytes.{Keeps};
ghost use Rattle.commands.specs.Replaying.{IsMemory, ReplaysNew};
ghost use Rattle.sigv4.specs.Dates.{WritesMoment};

use crate::arguments::Argument;
use crate::faults::Fault;
use crate::work::{Done, OfficeWork};
use boxes::Rolls;
use links::read_moment;
use office::{Office, replay_in_memory, replay_over};
use shelf::CachedKeeper;
use sigv4::{Moment, is_key_id, is_secret};
use std::alloc::{AllocError, Global};
use std::fs::Files;
use std::io::Write;
use tasks::Replay;
use wire::Counted;

/// Answers the streams over a new office in memory, whose clerk's key is in the words, with every message at their moment.
pub fn replay_memory<R: Files + AllocGlobal, W: Write + Drop>(
    rt: &R,
    words: &Replay<'_>,
    out: W,
) -> Done<W>
    ensures { IsOk result.result → ReplaysNew W.contents words.now out result.out }
{
    let (key, moment) = match read_words(words) {
        Ok(read) => read,
        Err(fault) => {
            return Done {
                result: Err(fault),
                out: Some(out),
            };
        }
    };
    let mut writer = Counted::new(out);
    let streams = words.streams.as_slice();
    match replay_in_memory(rt.alloc(), rt, key.0, key.1, streams, moment, &mut writer) {
        Ok(served) => told(rt.alloc(), served, writer),
        Err(AllocError) => Done {
            result: Err(Fault::OutOfMemory),
            out: Some(writer.inner),
        },
    }
}

// The clerk's key and the moment in the words.
fn read_words<'a>(words: &Replay<'a>) -> Result<((&'a [u8], &'a [u8]), Moment), Fault>
    ensures key { IfOk result (λ read. IsMemory words.now.file.now read.0.0.now read.0.1.now) }
    ensures moment { IfOk result (λ read. WritesMoment words.now.at.now read.1) }
{
    let Some(key) = read_key(words.file) else {
        return Err(Fault::MalformedValue(Argument::File));
    };
    let moment = read_moment(words.at.as_bytes()).ok_or(Fault::MalformedValue(Argument::At))?;
    Ok((key, moment))
}

/// The streams to answer over an office, the moment at which they are answered, and the output, which gets the answers.
#[derive(Drop)]
pub struct ReplayWork<'w, W: Drop> {
    /// The names of the files that hold the bytes of the connections.
    pub streams: &'w [&'w str],
    /// The moment.
    pub moment: Moment,
    /// The output.
    pub out: W,
}

impl<W: Write + Drop> OfficeWork for ReplayWork<'_, W> {
    ghost use Rattle.std.specs.Prelude.{IsOk, length};
    ghost use Rattle.commands.specs.Replaying.{ReplaysAll};
    ghost use Rattle.commands.specs.Saying.{HandsBack};

    type Gain = Done<W>;

    ghost step = { λ work gain. ReplaysAll W.contents (length work.streams.now) work.moment
        (IsOk gain.result) work.out gain.out };

    ghost idle = { λ work gain. HandsBack (IsOk gain.result) work.out gain.out };

    fn run<K: Rolls>(self, rt: &HostRuntime, keeper: K) -> (Done<W>, K) {
        let ReplayWork {
            streams,
            moment,
            out,
        } = self;
        let mut writer = Counted::new(out);
        let mut office = Office::new(rt.alloc(), CachedKeeper::new(rt.alloc(), keeper));
        let served = replay_over(rt, &mut office, streams, moment, &mut writer);
        (told(rt.alloc(), served, writer), office.keeper.into_inner())
    }

    fn refuse(self, fault: Fault) -> Done<W> {
        Done {
            result: Err(fault),
            out: Some(self.out),
        }
    }
}

// The clerk's key from `memory:ID/SECRET`.
fn read_key(file: &str) -> Option<(&[u8], &[u8])>
    ensures { IfSome result (λ key. IsMemory file.now key.0.now key.1.now) }
{
    let (id, secret) = file.strip_prefix("memory:")?.split_once('/')?;
    if is_key_id(id.as_bytes()) && is_secret(secret.as_bytes()) {
        Some((id.as_bytes(), secret.as_bytes()))
    } else {
        None
    }
}

// What a replay gives. Flushes the output.
fn told<W: Write + Drop>(
    alloc: Global,
    served: Result<u64, &str>,
    mut writer: Counted<W>,
) -> Done<W>
    ensures back { (out : W) × (result.out ≡ Some out) × Keeps (W.contents writer.inner) (W.contents out) }
    ensures whole { IsOk result.result → served.entry ≡ Ok 0 }
{
    let went_out = writer.flush().is_ok();
    let result = match served {
        Err(name) => Err(unread(alloc, name)),
        Ok(0) if went_out => Ok(()),
        Ok(_) => Err(Fault::ConnectionFailed),
    };
    Done {
        result,
        out: Some(writer.inner),
    }
}

// The fault of a file that could not be opened.
fn unread(alloc: Global, name: &str) -> Fault {
    match format!(in alloc; "{}", name) {
        Ok(name) => Fault::CannotRead(name),
        Err(AllocError) => Fault::OutOfMemory,
    }
}
