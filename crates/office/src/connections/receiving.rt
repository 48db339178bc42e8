//! The body of a message. The body of an upload is staged in the keeper, any other is discarded.
ghost use Rattle.std.specs.Prelude.{◌≡◌, ℕ, List};
ghost use Rattle.wire.specs.Feeds.{SameReader, TakesAllIn, reader_of};
ghost use Rattle.wire.specs.Whole.{StandsIn};
ghost use Rattle.office.specs.Receiving.{CountsReceived, NeverWaits, Passes};

use crate::office::Office;
use boxes::{KeepFault, Keeper};
use sigv4::Sha;
use std::io::Read;
use std::mem;
use wire::{Ending, Feed, Kept, Piece, WireFault, skip_body};

/// How reading a body ended.
#[derive(Clone, Copy)]
pub(crate) enum Received {
    /// The whole body came. For a staged body this is its SHA-256 digest.
    Whole([u8; 32]),
    /// The stream ended within the body.
    Lacking,
    /// A read failed within the body.
    Broken,
    /// The keeper refused a piece. The rest was not read.
    GaveUp,
    /// No more bytes may be read now. The body is still open.
    Waits,
}

// Reads on in the open body of `size` bytes, and discards it.
fn pass_over<R: Read>(feed: &mut Feed<'_, R>, size: usize) -> Received
    requires { StandsIn size feed.old }
    ensures same { SameReader feed.old feed.new }
    ensures passes { Passes R.remaining size feed.old feed.new result }
    ensures counted { CountsReceived result (reader_of feed.old).faults (reader_of feed.new).faults }
    ensures free { NeverWaits feed.old.backlog feed.new.backlog result }
    ensures all { result ≡ Received.Waits → TakesAllIn R.remaining feed.old feed.new }
{
    match skip_body(feed, size) {
        Ok(Ending::Whole) => Received::Whole([0; 32]),
        Ok(Ending::Lacking) => Received::Lacking,
        Err(WireFault::Waits) => Received::Waits,
        Err(_) => Received::Broken,
    }
}

impl<K: Keeper> Office<K> {
    ghost use Rattle.std.specs.Prelude.{◌≡◌, ◌↔◌, ◌≤◌, ℕ, List, [], ◌++◌, length, IsTrue, IsFalse, IsSome, OnErr, OnOk};
    ghost use Rattle.std.specs.Option.{ForSome};
    ghost use Rattle.sigtext.specs.Counts.{Rose};
    ghost use Rattle.boxes.specs.Bound.{StaysBy};
    ghost use Rattle.sigtext.specs.Bytes.{AreBytes};
    ghost use Rattle.sigv4.specs.Hashers.{ShaHolds};
    ghost use Rattle.wire.specs.Feeds.{SameReader, TakesAllIn, reader_of};
    ghost use Rattle.wire.specs.Whole.{StandsIn};
    ghost use Rattle.office.specs.Frames.{Quiet};
    ghost use Rattle.office.specs.Premise.{EndsUnstaged, IsFault, StaysUnstaged};
    ghost use Rattle.office.specs.Receiving.{CountsReceived, HoldsPart, NeverWaits, Passes, Stages};

    // Stages a piece of a body and feeds it to the hasher.
    fn stage_piece(&mut self, bytes: &[u8], sha: &mut Sha) -> Result<(), KeepFault>
        requires some { 1 ≤ length bytes.now }
        requires short { length bytes.now ≤ 65536 }
        ensures added { (staged : List ℕ) → K.stages self.old.keeper staged
            → OnOk result (K.stages self.new.keeper (staged ++ bytes.now)) }
        ensures hashed { (fed : List ℕ) → ShaHolds sha.old fed
            → OnOk result (ShaHolds sha.new (fed ++ bytes.now)) }
        ensures octets { AreBytes bytes.now }
        ensures rest { StaysBy K.Keeper self.old.keeper self.new.keeper result }
    {
        self.keeper.stage(bytes)?;
        sha.update(bytes);
        Ok(())
    }

    // Begins to stage the body of an upload; does nothing for any other message.
    pub(crate) fn begin_staging(&mut self, is_upload: bool) -> Result<(), KeepFault>
        ensures staged { IsTrue is_upload → OnOk result (K.stages self.new.keeper []) }
        ensures passed { IsFalse is_upload → K.stages self.old.keeper [] → K.stages self.new.keeper [] }
        ensures asked { OnErr result (IsTrue is_upload) }
        ensures counts { OnErr result (Rose (K.faults self.old.keeper) (K.faults self.new.keeper)) }
        ensures quiet { Quiet K.Keeper self.old.keeper self.new.keeper (IsFault result) }
    {
        if is_upload {
            self.keeper.stage_begin()
        } else {
            Ok(())
        }
    }

    // Reads on in the open body of `size` bytes, stages it piece by piece, and feeds it to the hasher. Reading
    // ends at the first piece that the keeper refuses.
    fn stage_body<R: Read>(
        &mut self,
        feed: &mut Feed<'_, R>,
        size: usize,
        sha: &mut Sha,
    ) -> Received
        requires { StandsIn size feed.old }
        ensures same { SameReader feed.old feed.new }
        ensures stages { HoldsPart K.Keeper feed.old self.old.keeper sha.old
            → Stages R.remaining size feed.old feed.new K.Keeper self.new.keeper sha.new result }
        ensures counted { CountsReceived result (reader_of feed.old).faults (reader_of feed.new).faults }
        ensures counts { result ≡ Received.GaveUp
            → Rose (K.faults self.old.keeper) (K.faults self.new.keeper) }
        ensures quiet { Quiet K.Keeper self.old.keeper self.new.keeper
            (result ≡ Received.GaveUp) }
        ensures free { NeverWaits feed.old.backlog feed.new.backlog result }
        ensures all { result ≡ Received.Waits → TakesAllIn R.remaining feed.old feed.new }
    {
        'pieces: loop {
            match feed.piece() {
                Ok(Piece::Bytes(bytes)) => {
                    if self.stage_piece(bytes, sha).is_err() {
                        return Received::GaveUp;
                    }
                }
                Ok(Piece::Done) => {
                    return Received::Whole(mem::replace(sha, Sha::new()).finish());
                }
                Ok(Piece::Refused(_)) => return Received::Lacking,
                Err(WireFault::Waits) => return Received::Waits,
                Err(_) => return Received::Broken,
            }
        }
    }

    // Reads on in the open body of `size` bytes. That of an upload, which is staged as far as it was given, is
    // staged; any other is discarded.
    pub(crate) fn receive<R: Read>(
        &mut self,
        feed: &mut Feed<'_, R>,
        size: usize,
        is_upload: bool,
        sha: &mut Sha,
    ) -> Received
        requires { StandsIn size feed.old }
        ensures same { SameReader feed.old feed.new }
        ensures passes { IsFalse is_upload → Passes R.remaining size feed.old feed.new result }
        ensures stages { IsTrue is_upload → HoldsPart K.Keeper feed.old self.old.keeper sha.old
            → Stages R.remaining size feed.old feed.new K.Keeper self.new.keeper sha.new result }
        ensures counted { CountsReceived result (reader_of feed.old).faults (reader_of feed.new).faults }
        ensures counts { result ≡ Received.GaveUp
            → IsTrue is_upload × Rose (K.faults self.old.keeper) (K.faults self.new.keeper) }
        ensures unstaged { IsFalse is_upload → K.stages self.old.keeper [] → K.stages self.new.keeper [] }
        ensures quiet { Quiet K.Keeper self.old.keeper self.new.keeper
            (result ≡ Received.GaveUp) }
        ensures free { NeverWaits feed.old.backlog feed.new.backlog result }
        ensures all { result ≡ Received.Waits → TakesAllIn R.remaining feed.old feed.new }
    {
        if is_upload {
            self.stage_body(feed, size, sha)
        } else {
            pass_over(feed, size)
        }
    }

    // Moves what is staged of an upload out, until its connection goes on. The hasher was fed with it.
    pub(crate) fn keep(&mut self, is_upload: bool, sha: Sha) -> Option<Kept>
        ensures kept { ForSome result (λ kept. (given : List ℕ) → K.stages self.old.keeper given
            → (kept.bytes.items ≡ given) × (kept.sha ≡ sha)) }
        ensures some { IsTrue is_upload ↔ IsSome result }
        ensures empty { IsTrue is_upload → K.stages self.new.keeper [] }
        ensures passed { IsFalse is_upload → K.stages self.old.keeper [] → K.stages self.new.keeper [] }
        ensures quiet { Quiet K.Keeper self.old.keeper self.new.keeper ⊥ }
    {
        if is_upload {
            let bytes = self.keeper.stage_take();
            Some(Kept { bytes, sha })
        } else {
            None
        }
    }

    // Drops what is staged of an upload.
    pub(crate) fn drop_staged(&mut self, is_upload: bool) -> Result<(), KeepFault>
        ensures ends { IsTrue is_upload → EndsUnstaged K.Keeper self.old.keeper self.new.keeper }
        ensures stays { StaysUnstaged K.Keeper self.old.keeper self.new.keeper }
        ensures counts { OnErr result (Rose (K.faults self.old.keeper) (K.faults self.new.keeper)) }
        ensures asked { OnErr result (IsTrue is_upload) }
        ensures quiet { Quiet K.Keeper self.old.keeper self.new.keeper (IsFault result) }
    {
        if is_upload {
            self.keeper.stage_drop()
        } else {
            Ok(())
        }
    }
}
