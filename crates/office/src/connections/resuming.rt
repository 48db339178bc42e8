//! Messages whose bodies come over several turns.
ghost use Rattle.std.specs.Prelude.{◌≡◌, ◌≤◌, ◌⊎◌, ℕ, Bool, List, IsFalse, IsTrue};
ghost use Rattle.sigtext.specs.Bytes.{AreBytes};
ghost use Rattle.sigtext.specs.Limits.{most_fields};
ghost use Rattle.wire.specs.Feeding.{Opens};
ghost use Rattle.wire.specs.Underways.{IsWholeHead};
ghost use Rattle.office.specs.Announcing.{request_opened, request_with};
ghost use Rattle.office.specs.Foreseeing.{IsUpload};
ghost use Rattle.office.specs.Premise.{IsGivenUp};

use super::receiving::Received;
use super::responding::Response;
use super::stepping::Stepped;
use crate::clocks::Clock;
use crate::office::Office;
use crate::requests::announced::{Announced, announce_head};
use crate::requests::answering::asks_head;
use crate::requests::foreseeing::{Body, Prospect, is_given_up, is_upload};
use boxes::Keeper;
use links::is_readable;
use sigtext::{Field, Refusal};
use sigv4::Sha;
use std::io::Read;
use wire::{Feed, Kept, MOST_FIELDS, NO_FIELD, Opening, Underway, reread};

// The items of a slice of bytes are bytes. A fact about what was kept, for the proof.
fn are_bytes(bytes: &[u8])
    ensures { AreBytes bytes.now }
{
    let _ = bytes;
}

// Reads the head of a message under way again, so that a proof has its parts: that it is whole is a mere fact.
fn look_again(head: &[u8], size: usize)
    requires { IsWholeHead head.now size }
    ensures { (has_length : Bool) × Opens head.now has_length size }
{
    let mut fields = [NO_FIELD; MOST_FIELDS];
    reread(head, size, &mut fields);
}

// What a head that was read again announces.
fn announce_again<'a>(opening: &Opening<'a>, fields: &'a [Field<'a>; MOST_FIELDS]) -> Announced<'a>
    requires { opening.now.head.count ≤ most_fields }
    ensures request { (body : List ℕ) → request_with result body ≡ request_opened opening.now fields.now body }
    ensures length { result.length ≡ opening.now.length }
{
    announce_head(opening, fields)
}

// Whether a message whose body came is given up: memory was refused, or its body is needed now and was not
// kept.
fn is_lost(foreseen: &Result<Prospect<'_>, Refusal>, is_kept: bool) -> bool
    ensures lost { IsTrue result → IsGivenUp foreseen.now ⊎ IsUpload foreseen.now }
    ensures told { IsFalse result → IsGivenUp foreseen.now → ⊥ }
    ensures kept { IsFalse result → IsUpload foreseen.now → IsTrue is_kept }
{
    is_given_up(foreseen) || (is_upload(foreseen) && !is_kept)
}

impl<K: Keeper> Office<K> {
    ghost use Rattle.std.specs.Prelude.{◌≡◌, ◌≢◌, ◌⊎◌, ◌++◌, ℕ, Bool, List, [], length, IsFalse, IsTrue, None, Option, ⊤};
    ghost use Rattle.std.specs.Io.KnownBytes.{Keeps, prepend_known};
    ghost use Rattle.std.specs.Option.{ForSome};
    ghost use Rattle.sigtext.specs.Bytes.{AreBytes};
    ghost use Rattle.sigtext.specs.Readable.{IsReadable};
    ghost use Rattle.boxes.specs.Keeping.{KeepsStaged};
    ghost use Rattle.boxes.specs.State.{State};
    ghost use Rattle.wire.specs.Feeding.{Opens};
    ghost use Rattle.wire.specs.Feeds.{SameReader, TakesAllIn, given_of, place_of, reader_of, whole_left};
    ghost use Rattle.wire.specs.Framing.{request_of};
    ghost use Rattle.wire.specs.Underways.{IsBegun, IsKept, IsWholeHead, head_of};
    ghost use Rattle.wire.specs.declared.feed.Place.{Place};
    ghost use Rattle.office.specs.Foreseeing.{AreStaged};
    ghost use Rattle.office.specs.Frames.{Quiet};
    ghost use Rattle.office.specs.Premise.{EndsUnstaged, HoldsUnless, StaysUnstaged, WasKept};
    ghost use Rattle.office.specs.Responding.{GivesUp};
    ghost use Rattle.office.specs.Resuming.{EndsWhole};
    ghost use Rattle.office.specs.Sessions.{HasBegunMessage};
    ghost use Rattle.office.specs.Stepping.{GoesOn, HasGivenUp, IfWaits, NeverStandsBy, ReadsOnIn, StepsTo, TellsRead, WaitsIn};

    // Moves what was kept of a body into the keeper. Returns its hasher.
    fn put_back(&mut self, kept: Option<Kept>) -> Sha
        ensures staged { ForSome kept (λ x. K.stages self.new.keeper x.bytes.items) }
        ensures octets { ForSome kept (λ x. AreBytes x.bytes.items) }
        ensures hashed { ForSome kept (λ x. result ≡ x.sha) }
        ensures passed { kept ≡ None → K.stages self.old.keeper [] → K.stages self.new.keeper [] }
        ensures quiet { Quiet K.Keeper self.old.keeper self.new.keeper ⊥ }
    {
        match kept {
            Some(kept) => {
                are_bytes(&kept.bytes);
                self.keeper.stage_put(kept.bytes);
                kept.sha
            }
            None => Sha::new(),
        }
    }

    // Lets go what is kept of a body, unless it is needed.
    fn let_go_kept(&mut self, is_kept: bool, is_needed: bool)
        ensures unstaged { IsFalse is_needed → IsTrue is_kept ⊎ K.stages self.old.keeper []
            → K.stages self.new.keeper [] }
        ensures still { IsTrue is_needed → KeepsStaged K.stages self.old.keeper self.new.keeper }
        ensures quiet { Quiet K.Keeper self.old.keeper self.new.keeper ⊥ }
    {
        if is_kept && !is_needed {
            let _ = self.keeper.stage_take();
        }
    }

    // Answers a message whose body came, with this head. What it asks for is looked up anew, since the state
    // may have changed. If its body is needed now and was not kept, it is given up.
    fn serve_whole<C: Clock>(
        &mut self,
        head: &[u8],
        is_kept: bool,
        size: usize,
        body: &Body,
        clock: &mut C,
    ) -> Response
        requires { IsWholeHead head.now size }
        ensures ends { (s : State) (bytes : List ℕ) → WasKept K.Keeper self.old.keeper self.new.keeper s
            → length bytes ≡ size → (IsTrue is_kept → AreStaged K.Keeper self.old.keeper bytes body.now)
            → (has_length : Bool) × (o : Opens head.now has_length size)
            × EndsWhole C.now_gives clock.old clock.new
            K.Keeper self.old.keeper self.new.keeper s (request_of o.head has_length bytes) result }
        ensures read { result ≢ Response.ReadFault }
        ensures unstaged { IsTrue is_kept ⊎ K.stages self.old.keeper []
            → EndsUnstaged K.Keeper self.old.keeper self.new.keeper }
        ensures rest { HoldsUnless K.Keeper self.old.keeper self.new.keeper
            (GivesUp K.Keeper self.old.keeper self.new.keeper result) }
    {
        let mut fields = [NO_FIELD; MOST_FIELDS];
        let opening = reread(head, size, &mut fields);
        let message = announce_again(&opening, &fields);
        let foreseen = self.foresee(&message);
        if is_lost(&foreseen, is_kept) {
            drop(foreseen);
            self.let_go_kept(is_kept, false);
            return Response::Close(Refusal::TryAgain);
        }
        let upload = is_upload(&foreseen);
        self.let_go_kept(is_kept, upload);
        let to_head = asks_head(&message);
        Response::Answer(self.answer_now(foreseen, body, to_head, clock))
    }

    // Gives up a message with this head, which was found readable before. That is a mere fact, so it is asked
    // again.
    fn give_up_kept(&mut self, head: &[u8], size: usize)
        requires whole { IsWholeHead head.now size }
        requires readable { (has_length : Bool) (n : ℕ) (o : Opens head.now has_length n)
            → ∥ IsReadable (request_of o.head has_length []) ∥₁ }
        ensures begun { (given : List ℕ) → HasBegunMessage (head.now ++ given) }
        ensures unstaged { EndsUnstaged K.Keeper self.old.keeper self.new.keeper }
        ensures quiet { Quiet K.Keeper self.old.keeper self.new.keeper ⊤ }
    {
        let mut fields = [NO_FIELD; MOST_FIELDS];
        let opening = reread(head, size, &mut fields);
        if !is_readable(opening.head.method, opening.head.target) {
            unreachable!();
        }
        let _ = self.drop_staged(true);
    }

    // Goes on with a message whose body has not come whole: reads on, and decides what answers it if the body is
    // whole. Or tells how the session ends.
    pub(crate) fn resume<R: Read, C: Clock>(
        &mut self,
        feed: &mut Feed<'_, R>,
        underway: Underway,
        clock: &mut C,
    ) -> Stepped<Underway>
        requires { IsBegun (head_of underway) underway.size underway.kept (place_of feed.old) (given_of feed.old) }
        ensures same { SameReader feed.old feed.new }
        ensures goes_on { GoesOn result feed.new }
        ensures stands { IfWaits (λ u. WaitsIn feed.new (head_of u) u.size u.kept) result }
        ensures steps { (s : State) (p : Place) (known : Option (List ℕ))
            → WasKept K.Keeper self.old.keeper self.new.keeper s
            → Keeps known (prepend_known (head_of underway) (whole_left R.remaining feed.old))
            → StepsTo C.now_gives p known R.remaining feed.new clock.old clock.new
            K.Keeper self.old.keeper self.new.keeper s
            (λ u. ReadsOnIn R.remaining known feed.new (head_of u) u.size u.kept) result }
        ensures faults { TellsRead result (reader_of feed.old) (reader_of feed.new) }
        ensures unstaged { StaysUnstaged K.Keeper self.old.keeper self.new.keeper }
        ensures rest { HoldsUnless K.Keeper self.old.keeper self.new.keeper
            (HasGivenUp K.Keeper self.old.keeper self.new.keeper result) }
        ensures free { NeverStandsBy feed.old.backlog feed.new.backlog result }
        ensures all { IfWaits (λ u. TakesAllIn R.remaining feed.old feed.new) result }
    {
        let Underway {
            text,
            len,
            size,
            kept,
        } = underway;
        let is_kept = kept.is_some();
        let mut sha = self.put_back(kept);
        match self.receive(feed, size, is_kept, &mut sha) {
            Received::Whole(digest) => {
                let body = Body {
                    length: size as u64,
                    digest,
                };
                let response = self.serve_whole(&text[..len], is_kept, size, &body, clock);
                drop(text);
                Stepped::Done(response)
            }
            Received::Lacking => {
                look_again(&text[..len], size);
                drop(text);
                self.let_go_kept(is_kept, false);
                Stepped::Done(Response::Close(Refusal::BodyIncomplete))
            }
            Received::Broken => {
                look_again(&text[..len], size);
                drop(text);
                self.let_go_kept(is_kept, false);
                Stepped::Done(Response::ReadFault)
            }
            Received::GaveUp => {
                self.give_up_kept(&text[..len], size);
                drop(text);
                Stepped::Done(Response::Close(Refusal::TryAgain))
            }
            Received::Waits => {
                let kept = self.keep(is_kept, sha);
                Stepped::Waits(Underway {
                    text,
                    len,
                    size,
                    kept,
                })
            }
        }
    }
}
