//! The office's answer to one message: what its head and the state decide before its body comes, then what
//! its moment and its body decide.
ghost use Rattle.std.specs.Prelude.{◌≡◌};
ghost use Rattle.sigtext.specs.Bytes.{same_bytes};
ghost use Rattle.std.specs.Prelude.{codes};

use super::announced::{Announced, announce};
use super::foreseeing::{Body, Errand, Prospect, is_putting, is_upload};
use crate::office::Office;
use boxes::{KeepFault, Keeper};
use links::Method;
use sigtext::Refusal;
use sigv4::{Moment, Sha};
use wire::{Answer, Message, Reply};

/// The most bytes of a whole body that are staged at once.
const MOST_PIECE: usize = 65536;

/// Whether the method is HEAD.
pub(crate) fn asks_head(message: &Announced<'_>) -> bool
    ensures { result ≡ same_bytes message.now.method.now (codes "HEAD") }
{
    message.method == Method::Head.text()
}

impl<K: Keeper> Office<K> {
    ghost use Rattle.std.specs.Prelude.{◌≡◌, ◌≢◌, ◌⊎◌, [], length, Err, IfErr, IsFalse, IsTrue, OnErr, OnOk};
    ghost use Rattle.sigtext.specs.Bytes.{AreBytes};
    ghost use Rattle.sigtext.specs.Counts.{Rose};
    ghost use Rattle.sigtext.specs.Request.{Request};
    ghost use Rattle.boxes.specs.State.{State};
    ghost use Rattle.boxes.specs.Keeping.{KeepsStaged};
    ghost use Rattle.wire.specs.Messages.{request_in};
    ghost use Rattle.office.specs.Admitted.{IsAdmitted};
    ghost use Rattle.office.specs.Alike.{AreAlike};
    ghost use Rattle.office.specs.Answering.{is_head};
    ghost use Rattle.office.specs.Crashes.{AddsAsked, Endures, IsAsked};
    ghost use Rattle.office.specs.Foreseeing.{AreStaged, Foresees, IsForeseen, IsPutting, IsReadOf, IsUpload};
    ghost use Rattle.office.specs.Frames.{Quiet, Replies};
    ghost use Rattle.office.specs.Offices.{IsTryAgain, IsAnswered, IsTheAnswer};
    ghost use Rattle.office.specs.Premise.{EndsUnstaged, HoldsUnless, IsFault, IsGivenUp, StaysUnstaged, WasKept};
    ghost use Rattle.sigtext.specs.Readable.{IsReadable};

    // Does the errand of a message whose body came and whose link is admitted.
    fn run_errand(
        &mut self,
        prospect: Prospect<'_>,
        body: &Body,
        now: Moment,
    ) -> Result<Reply, Refusal>
        ensures replies { Replies K.Keeper self.old.keeper self.new.keeper now result
            (λ s r. (f : IsForeseen s r prospect.entry) × IsAdmitted s r now f.parts f.key
            × (IsPutting prospect.entry.errand → AreStaged K.Keeper self.old.keeper r.body body.now)) }
        ensures unstaged { IsPutting prospect.entry.errand ⊎ K.stages self.old.keeper []
            → EndsUnstaged K.Keeper self.old.keeper self.new.keeper }
    {
        let Prospect { link, errand } = prospect;
        match errand {
            Ok(Errand::Put { path, in_box }) => self.put(&link, &path, in_box, body, now),
            Ok(Errand::Fetch) => self.fetch(&link),
            Ok(Errand::Post) => self.post(&link),
            Err(refusal) => Err(refusal),
        }
    }

    // Refuses a message whose body came, once nothing of an upload is staged any more.
    fn refuse(&mut self, upload: bool, refusal: Refusal) -> Result<Reply, Refusal>
        ensures gives { (result ≢ Err Refusal.TryAgain) → result ≡ Err refusal }
        ensures unstaged { IsTrue upload ⊎ K.stages self.old.keeper []
            → EndsUnstaged K.Keeper self.old.keeper self.new.keeper }
        ensures quiet { Quiet K.Keeper self.old.keeper self.new.keeper (IsGivenUp result) }
    {
        if upload {
            self.let_go(Err(refusal))
        } else {
            Err(refusal)
        }
    }

    // The reply, at its moment, to a message whose body came.
    fn finish(&mut self, prospect: Prospect<'_>, body: &Body, now: Moment) -> Result<Reply, Refusal>
        ensures replies { Replies K.Keeper self.old.keeper self.new.keeper now result
            (λ s r. IsForeseen s r prospect.entry
            × (IsPutting prospect.entry.errand → AreStaged K.Keeper self.old.keeper r.body body.now)) }
        ensures unstaged { IsPutting prospect.entry.errand ⊎ K.stages self.old.keeper []
            → EndsUnstaged K.Keeper self.old.keeper self.new.keeper }
    {
        match self.check_moment(&prospect.link, now) {
            Ok(()) => self.run_errand(prospect, body, now),
            Err(refusal) => {
                let upload = is_putting(&prospect.errand);
                drop(prospect);
                self.refuse(upload, refusal)
            }
        }
    }

    // The reply, at its moment, to a message whose body came, from what was foreseen of it.
    fn reply_to(
        &mut self,
        foreseen: Result<Prospect<'_>, Refusal>,
        body: &Body,
        now: Moment,
    ) -> Result<Reply, Refusal>
        ensures replies { Replies K.Keeper self.old.keeper self.new.keeper now result
            (λ s r. Foresees s r foreseen.entry
            × (IsUpload foreseen.entry → AreStaged K.Keeper self.old.keeper r.body body.now)) }
        ensures readable { IfErr result (λ q. q ≡ Refusal.TryAgain → (r : Request)
            → IsReadOf r foreseen.entry → IsReadable r) }
        ensures unstaged { IsUpload foreseen.entry ⊎ K.stages self.old.keeper []
            → EndsUnstaged K.Keeper self.old.keeper self.new.keeper }
        ensures given_up { foreseen.entry ≡ Err Refusal.TryAgain → IsGivenUp result }
    {
        match foreseen {
            Ok(prospect) => self.finish(prospect, body, now),
            Err(refusal) => Err(refusal),
        }
    }

    // The answer, at its moment, to a message whose body came. The bytes of an upload are staged.
    pub(crate) fn answer_whole(
        &mut self,
        foreseen: Result<Prospect<'_>, Refusal>,
        body: &Body,
        to_head: bool,
        now: Moment,
    ) -> Answer
        ensures answers { (s : State) (r : Request)
            → WasKept K.Keeper self.old.keeper self.new.keeper s
            → Foresees s r foreseen.entry → to_head ≡ is_head r
            → (IsUpload foreseen.entry → AreStaged K.Keeper self.old.keeper r.body body.now)
            → IsAnswered (Endures K.Keeper self.old.keeper self.new.keeper s) s r now result }
        ensures again { IsTryAgain result → (s : State) → K.means self.old.keeper s
            → K.means self.new.keeper s }
        ensures readable { IsTryAgain result → (r : Request) → IsReadOf r foreseen.entry → IsReadable r }
        ensures crash { (s : State) (r : Request)
            → WasKept K.Keeper self.old.keeper self.new.keeper s
            → Foresees s r foreseen.entry
            → (IsUpload foreseen.entry → AreStaged K.Keeper self.old.keeper r.body body.now)
            → IsTryAgain result
            → AddsAsked K.Keeper self.old.keeper self.new.keeper s (IsAsked s r now) }
        ensures unstaged { IsUpload foreseen.entry ⊎ K.stages self.old.keeper []
            → EndsUnstaged K.Keeper self.old.keeper self.new.keeper }
        ensures given_up { foreseen.entry ≡ Err Refusal.TryAgain → IsTryAgain result }
        ensures rest { HoldsUnless K.Keeper self.old.keeper self.new.keeper (IsTryAgain result) }
    {
        match self.reply_to(foreseen, body, now) {
            Ok(reply) => Answer {
                reply,
                is_head: to_head,
            },
            Err(refusal) => Answer::refused(refusal, to_head),
        }
    }

    // Stages a whole body in pieces.
    fn stage_whole(&mut self, body: &[u8]) -> Result<(), KeepFault>
        ensures staged { OnOk result (K.stages self.new.keeper body.now) }
        ensures fault { OnErr result (Rose (K.faults self.old.keeper) (K.faults self.new.keeper)) }
        ensures quiet { Quiet K.Keeper self.old.keeper self.new.keeper (IsFault result) }
    {
        self.keeper.stage_begin()?;
        let mut rest = body;
        'pieces: while !rest.is_empty() {
            let (piece, more) = rest.split_at(rest.len().min(MOST_PIECE));
            self.keeper.stage(piece)?;
            rest = more;
        }
        Ok(())
    }

    // Stages the body of an upload; nothing for any other message. If the keeper did not take it all, what is
    // staged is dropped.
    fn stage_upload(&mut self, is_upload: bool, body: &[u8]) -> Result<(), KeepFault>
        ensures staged { IsTrue is_upload → OnOk result (K.stages self.new.keeper body.now) }
        ensures passed { IsFalse is_upload → KeepsStaged K.stages self.old.keeper self.new.keeper }
        ensures asked { OnErr result (IsTrue is_upload) }
        ensures octets { AreBytes body.now }
        ensures fault { OnErr result (Rose (K.faults self.old.keeper) (K.faults self.new.keeper)) }
        ensures quiet { Quiet K.Keeper self.old.keeper self.new.keeper (IsFault result) }
    {
        if !is_upload {
            return Ok(());
        }
        let staged = self.stage_whole(body);
        if staged.is_err() {
            let _ = self.keeper.stage_drop();
        }
        staged
    }

    /// Answers a message at a moment. The answer and the state after it follow the rules. Or the answer is
    /// refusal 40, because memory was refused or the keeper counted a fault, and the state is unchanged. All
    /// memory for an answer is taken before anything changes, so an upload or a command that took effect is
    /// never answered with 40. An unknown method and a malformed target are refused without memory, and never
    /// with 40.
    ///
    /// Any answer but refusal 40 is also the only answer to each request that says the same: rules 7 to 18
    /// hold for both, their signed text, signature and body are the same, and for a PUT also whether a length
    /// was given. However such a request is spelled, in the same state at the same moment it gets the same
    /// answer and leaves the same state.
    ///
    /// Changes survive a crash: a crash afterwards leaves exactly the state after. If nothing was changed, it
    /// can newly leave only the current state. After a 40 it may also leave the state with this request done
    /// in full.
    ///
    /// A keeper that was open stays open at any answer but refusal 40, so exactly the state after is kept.
    /// The body of an upload is staged in the keeper. If nothing was staged before, nothing is staged after,
    /// unless the keeper counted a fault.
    pub fn answer(&mut self, message: &Message<'_>, now: Moment) -> Answer
        ensures answers { (s : State) → WasKept K.Keeper self.old.keeper self.new.keeper s
            → IsAnswered (Endures K.Keeper self.old.keeper self.new.keeper s) s
            (request_in message.now) now result }
        ensures alike { (s : State) (other : Request)
            → WasKept K.Keeper self.old.keeper self.new.keeper s
            → AreAlike (request_in message.now) other
            → IsTheAnswer (Endures K.Keeper self.old.keeper self.new.keeper s) s other now result }
        ensures again { IsTryAgain result → (s : State) → K.means self.old.keeper s
            → K.means self.new.keeper s }
        ensures readable { IsTryAgain result → IsReadable (request_in message.now) }
        ensures unstaged { StaysUnstaged K.Keeper self.old.keeper self.new.keeper }
        ensures rest { HoldsUnless K.Keeper self.old.keeper self.new.keeper (IsTryAgain result) }
        ensures crash { (s : State) → WasKept K.Keeper self.old.keeper self.new.keeper s
            → IsTryAgain result
            → AddsAsked K.Keeper self.old.keeper self.new.keeper s
            (IsAsked s (request_in message.now) now) }
    {
        let head = announce(message);
        let foreseen = self.foresee(&head);
        let to_head = asks_head(&head);
        let upload = is_upload(&foreseen);
        if self.stage_upload(upload, message.body).is_err() {
            drop(foreseen);
            return Answer::refused(Refusal::TryAgain, to_head);
        }
        let body = Body {
            length: message.body.len() as u64,
            digest: Sha::digest(message.body),
        };
        self.answer_whole(foreseen, &body, to_head, now)
    }
}
