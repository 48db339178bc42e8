//! One step of a session: it reads a message and decides what answers it, or how the session ends.
ghost use Rattle.std.specs.Prelude.{◌≡◌};

use super::receiving::Received;
use super::responding::Response;
use crate::clocks::Clock;
use crate::office::Office;
use crate::requests::announced::announce_head;
use crate::requests::answering::asks_head;
use crate::requests::foreseeing::{Body, Prospect, is_given_up, is_upload};
use boxes::Keeper;
use sigtext::{Field, Refusal};
use sigv4::Sha;
use std::io::Read;
use wire::{
    Answer, Came, Feed, Kept, MOST_FIELDS, MOST_HEAD, NO_FIELD, Opening, WireFault, read_opening,
};

/// A message whose head was read, and whose body has not come whole.
#[derive(Drop)]
pub(crate) struct Begun {
    /// The length of the head in bytes.
    pub(crate) len: usize,
    /// The length of the body in bytes.
    pub(crate) size: usize,
    /// What came of the body, if it is kept.
    pub(crate) kept: Option<Kept>,
}

/// What a step came to.
#[derive(Drop)]
pub(crate) enum Stepped<T> {
    /// The step is done.
    Done(Response),
    /// No more bytes may be read now. The step goes on with this.
    Waits(T),
}

impl<K: Keeper> Office<K> {
    ghost use Rattle.std.specs.Prelude.{◌≡◌, ◌≢◌, ◌⊎◌, ◌≤◌, ℕ, Bool, List, [], length, Err, IsTrue, Option};
    ghost use Rattle.sigtext.specs.Readable.{IsReadable};
    ghost use Rattle.sigtext.specs.Request.{Request};
    ghost use Rattle.boxes.specs.State.{State};
    ghost use Rattle.wire.specs.Feeding.{Opens};
    ghost use Rattle.wire.specs.Feeds.{SameReader, TakesAllIn, given_of, left, place_of, reader_of};
    ghost use Rattle.wire.specs.Framing.{request_of};
    ghost use Rattle.wire.specs.Openings.{ArePartsOf};
    ghost use Rattle.wire.specs.Whole.{IsOpening, MayBegin};
    ghost use Rattle.wire.specs.declared.feed.Place.{Place};
    ghost use Rattle.wire.specs.declared.feed.Place.TheVariants as stands;
    ghost use Rattle.office.specs.Answering.{is_head};
    ghost use Rattle.office.specs.Foreseeing.{AreStaged, Foresees, IsUpload};
    ghost use Rattle.office.specs.Frames.{Quiet};
    ghost use Rattle.office.specs.Offices.{IsTryAgain};
    ghost use Rattle.office.specs.Premise.{EndsUnstaged, HoldsUnless, StaysUnstaged, WasKept};
    ghost use Rattle.office.specs.Stepping.{GoesOn, HandlesBy, HasGivenUp, HasHeadOf, IfWaits, IsExpected, LeavesOff, NeverStandsBy, ReadsOn, StepsTo, TellsRead, WaitsBehind};

    // Answers a message whose body came, at its moment.
    pub(crate) fn answer_now<C: Clock>(
        &mut self,
        foreseen: Result<Prospect<'_>, Refusal>,
        body: &Body,
        to_head: bool,
        clock: &mut C,
    ) -> Answer
        ensures handled { (s : State) (r : Request)
            → WasKept K.Keeper self.old.keeper self.new.keeper s
            → Foresees s r foreseen.entry → (foreseen.entry ≢ Err Refusal.TryAgain) → to_head ≡ is_head r
            → (IsUpload foreseen.entry → AreStaged K.Keeper self.old.keeper r.body body.now)
            → HandlesBy C.now_gives clock.old clock.new
            K.Keeper self.old.keeper self.new.keeper s r result }
        ensures unstaged { IsUpload foreseen.entry ⊎ K.stages self.old.keeper []
            → EndsUnstaged K.Keeper self.old.keeper self.new.keeper }
        ensures rest { HoldsUnless K.Keeper self.old.keeper self.new.keeper (IsTryAgain result) }
    {
        let now = clock.now();
        self.answer_whole(foreseen, body, to_head, now)
    }

    // The refusal of a message whose body ended early: refusal 6 once nothing of it is staged, or refusal 40.
    fn refuse_lacking(&mut self, is_upload: bool) -> Refusal
        ensures left_off { LeavesOff K.Keeper self.old.keeper self.new.keeper is_upload result }
        ensures ends { IsTrue is_upload → EndsUnstaged K.Keeper self.old.keeper self.new.keeper }
        ensures stays { StaysUnstaged K.Keeper self.old.keeper self.new.keeper }
        ensures quiet { Quiet K.Keeper self.old.keeper self.new.keeper (result ≡ Refusal.TryAgain) }
    {
        match self.drop_staged(is_upload) {
            Ok(()) => Refusal::BodyIncomplete,
            Err(_) => Refusal::TryAgain,
        }
    }

    // Reads the body of a message and answers the message, using what was foreseen of it. Or tells how the
    // session ends. The head has `len` bytes.
    fn serve_body<R: Read, C: Clock>(
        &mut self,
        feed: &mut Feed<'_, R>,
        foreseen: Result<Prospect<'_>, Refusal>,
        to_head: bool,
        len: usize,
        size: usize,
        clock: &mut C,
    ) -> Stepped<Option<Begun>>
        requires open { place_of feed.old ≡ stands.Body size }
        requires none { given_of feed.old ≡ [] }
        ensures same { SameReader feed.old feed.new }
        ensures goes_on { GoesOn result feed.new }
        ensures steps { (s : State) (p : Place) (known : Option (List ℕ)) (head : List ℕ)
            → WasKept K.Keeper self.old.keeper self.new.keeper s
            → IsExpected s size known (left R.remaining feed.old) foreseen.entry to_head head
            → len ≡ length head
            → StepsTo C.now_gives p known R.remaining feed.new clock.old clock.new
            K.Keeper self.old.keeper self.new.keeper s (ReadsOn R.remaining known feed.new head) result }
        ensures faults { TellsRead result (reader_of feed.old) (reader_of feed.new) }
        ensures unstaged { StaysUnstaged K.Keeper self.old.keeper self.new.keeper }
        ensures rest { HoldsUnless K.Keeper self.old.keeper self.new.keeper
            (HasGivenUp K.Keeper self.old.keeper self.new.keeper result) }
        ensures free { NeverStandsBy feed.old.backlog feed.new.backlog result }
        ensures all { IfWaits (λ begun. TakesAllIn R.remaining feed.old feed.new) result }
        ensures long { IfWaits (HasHeadOf len) result }
        ensures stands { (head : List ℕ) (has_length : Bool) (o : Opens head has_length size)
            → (IsUpload foreseen.entry → IsReadable (request_of o.head has_length []))
            → len ≡ length head → IfWaits (WaitsBehind feed.new head) result }
    {
        let upload = is_upload(&foreseen);
        let mut sha = Sha::new();
        if self.begin_staging(upload).is_err() {
            drop(foreseen);
            let _ = self.drop_staged(upload);
            return Stepped::Done(Response::Close(Refusal::TryAgain));
        }
        match self.receive(feed, size, upload, &mut sha) {
            Received::Whole(digest) => {
                let body = Body {
                    length: size as u64,
                    digest,
                };
                let answer = self.answer_now(foreseen, &body, to_head, clock);
                Stepped::Done(Response::Answer(answer))
            }
            Received::Lacking => {
                drop(foreseen);
                Stepped::Done(Response::Close(self.refuse_lacking(upload)))
            }
            Received::Broken => {
                drop(foreseen);
                let _ = self.drop_staged(upload);
                Stepped::Done(Response::ReadFault)
            }
            Received::GaveUp => {
                drop(foreseen);
                let _ = self.drop_staged(upload);
                Stepped::Done(Response::Close(Refusal::TryAgain))
            }
            Received::Waits => {
                drop(foreseen);
                let kept = self.keep(upload, sha);
                Stepped::Waits(Some(Begun { len, size, kept }))
            }
        }
    }

    // Serves the message whose head was read. The head goes to the front of the block.
    fn serve_head<R: Read, C: Clock>(
        &mut self,
        feed: &mut Feed<'_, R>,
        opening: &Opening<'_>,
        fields: &[Field<'_>; MOST_FIELDS],
        block: &mut [u8; MOST_HEAD],
        clock: &mut C,
    ) -> Stepped<Option<Begun>>
        requires open { place_of feed.old ≡ stands.Body opening.now.length }
        requires none { given_of feed.old ≡ [] }
        requires short { length opening.now.text.now ≤ MOST_HEAD }
        requires parts { ArePartsOf opening.now.text.now opening.now.head fields.now }
        ensures same { SameReader feed.old feed.new }
        ensures goes_on { GoesOn result feed.new }
        ensures steps { (s : State) (p : Place) (known : Option (List ℕ))
            → WasKept K.Keeper self.old.keeper self.new.keeper s
            → IsOpening opening.now.text.now opening.now.has_length opening.now.length
            known (left R.remaining feed.old)
            → StepsTo C.now_gives p known R.remaining feed.new clock.old clock.new
            K.Keeper self.old.keeper self.new.keeper s (ReadsOn R.remaining known feed.new block.new) result }
        ensures faults { TellsRead result (reader_of feed.old) (reader_of feed.new) }
        ensures unstaged { StaysUnstaged K.Keeper self.old.keeper self.new.keeper }
        ensures rest { HoldsUnless K.Keeper self.old.keeper self.new.keeper
            (HasGivenUp K.Keeper self.old.keeper self.new.keeper result) }
        ensures free { NeverStandsBy feed.old.backlog feed.new.backlog result }
        ensures all { IfWaits (λ begun. TakesAllIn R.remaining feed.old feed.new) result }
        ensures stands { Opens opening.now.text.now opening.now.has_length opening.now.length
            → IfWaits (WaitsBehind feed.new block.new) result }
    {
        let message = announce_head(opening, fields);
        let foreseen = self.foresee(&message);
        if is_given_up(&foreseen) {
            drop(foreseen);
            return Stepped::Done(Response::Close(Refusal::TryAgain));
        }
        let to_head = asks_head(&message);
        let len = opening.text.len();
        block[..len].copy_from_slice(opening.text);
        self.serve_body(feed, foreseen, to_head, len, opening.length, clock)
    }

    // Reads the next message of a feed and decides what answers it. Or tells how the session ends. The head goes
    // to the front of the block.
    pub(crate) fn step<R: Read, C: Clock>(
        &mut self,
        feed: &mut Feed<'_, R>,
        block: &mut [u8; MOST_HEAD],
        clock: &mut C,
    ) -> Stepped<Option<Begun>>
        requires { MayBegin (place_of feed.old) }
        ensures same { SameReader feed.old feed.new }
        ensures goes_on { GoesOn result feed.new }
        ensures steps { (s : State) → WasKept K.Keeper self.old.keeper self.new.keeper s
            → StepsTo C.now_gives (place_of feed.old) (left R.remaining feed.old) R.remaining feed.new clock.old clock.new
            K.Keeper self.old.keeper self.new.keeper s
            (ReadsOn R.remaining (left R.remaining feed.old) feed.new block.new) result }
        ensures faults { TellsRead result (reader_of feed.old) (reader_of feed.new) }
        ensures unstaged { StaysUnstaged K.Keeper self.old.keeper self.new.keeper }
        ensures rest { HoldsUnless K.Keeper self.old.keeper self.new.keeper
            (HasGivenUp K.Keeper self.old.keeper self.new.keeper result) }
        ensures free { NeverStandsBy feed.old.backlog feed.new.backlog result }
        ensures all { IfWaits (λ begun. TakesAllIn R.remaining feed.old feed.new) result }
        ensures stands { IfWaits (WaitsBehind feed.new block.new) result }
    {
        let mut text = [0; MOST_HEAD];
        let mut fields = [NO_FIELD; MOST_FIELDS];
        match read_opening(feed, &mut text, &mut fields) {
            Ok(Came::Head(opening)) => self.serve_head(feed, &opening, &fields, block, clock),
            Ok(Came::Refused(refusal)) => Stepped::Done(Response::Close(refusal)),
            Ok(Came::End) => Stepped::Done(Response::Ended),
            Ok(Came::Truncated) => Stepped::Done(Response::Truncated),
            Err(WireFault::Waits) => Stepped::Waits(None),
            Err(WireFault::Read) => Stepped::Done(Response::ReadFault),
            Err(WireFault::Memory) => Stepped::Done(Response::Close(Refusal::TryAgain)),
            Err(WireFault::Write) => unreachable!(),
        }
    }
}
