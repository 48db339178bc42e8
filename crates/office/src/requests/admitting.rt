//! Which links are admitted, first by the key that signed them, then by the moment.
use crate::office::Office;
use boxes::{KeepFault, Keeper, Role};
use links::{LinkParts, check_signature, check_window};
use sigtext::Refusal;
use sigv4::{Allowance, Moment};

impl<K: Keeper> Office<K> {
    ghost use Rattle.std.specs.Prelude.{◌≡◌, ◌≢◌, ◌↔◌, Err, IfOk, MatchResult};
    ghost use Rattle.sigtext.specs.Request.{Request};
    ghost use Rattle.sigtext.specs.Rules.{IsFirstToFail};
    ghost use Rattle.boxes.specs.State.{Key, State};
    ghost use Rattle.boxes.specs.Bound.{StaysBy};
    ghost use Rattle.boxes.specs.Keeping.{KeepsStaged};
    ghost use Rattle.links.specs.LinkReadings.{IsLinkOf};
    ghost use Rattle.links.specs.Moments.{HasBegun, moment_with};
    ghost use Rattle.links.specs.WellFormed.{LinkValues};
    ghost use Rattle.office.specs.Admitted.{IsAdmitted};
    ghost use Rattle.office.specs.Foreseeing.{IsSigned, IsAlwaysRefused};
    ghost use Rattle.office.specs.Frames.{Looks};
    ghost use Rattle.office.specs.Premise.{IsGivenUp, WasKept};
    ghost use Rattle.office.specs.Rules.{Rule, judged_at};

    // The role of the key that signed a link, or the refusal of the first of rules 19 to 21 that fails, or
    // refusal 40 if the keeper counted a fault.
    pub(crate) fn identify(&mut self, link: &LinkParts<'_>) -> Result<Role, Refusal>
        ensures identifies { (s : State) (r : Request) (p : LinkValues)
            → WasKept K.Keeper self.old.keeper self.new.keeper s
            → IsLinkOf link.now r p
            → MatchResult result (λ role. (k : Key) × IsSigned s r p k × (k.role ≡ role))
            (IsAlwaysRefused s r) }
        ensures looks { Looks K.Keeper self.old.keeper self.new.keeper (IsGivenUp result) }
    {
        match self.keeper.key(link.key_id()) {
            Ok(None) => Err(Refusal::KeyUnknown),
            Ok(Some(key)) => {
                if key.revoked {
                    return Err(Refusal::KeyRevoked);
                }
                match check_signature(link, &key.secret, &mut self.last_key) {
                    Ok(()) => Ok(key.role),
                    Err(refusal) => Err(refusal),
                }
            }
            Err(_) => Err(Refusal::TryAgain),
        }
    }

    // How much earlier than its start the link may be used. For a link that has begun it makes no difference,
    // and nothing is asked.
    fn allowance_of(&mut self, link: &LinkParts<'_>, now: Moment) -> Result<Allowance, KeepFault>
        ensures begun { (s : State) (r : Request) (p : LinkValues)
            → WasKept K.Keeper self.old.keeper self.new.keeper s
            → IsLinkOf link.now r p
            → IfOk result (λ allowance. HasBegun (moment_with allowance now) p.start
            ↔ HasBegun (judged_at s now) p.start) }
        ensures staged { KeepsStaged K.stages self.old.keeper self.new.keeper }
        ensures rest { StaysBy K.Keeper self.old.keeper self.new.keeper result }
    {
        if link.has_begun(now) {
            return Ok(Allowance::none());
        }
        Ok(self.keeper.settings()?.allowance)
    }

    // Checks that a signed link is admitted at the moment. Otherwise it is refused by rule 22 or 23, or by 40
    // if the keeper counted a fault.
    pub(crate) fn check_moment(&mut self, link: &LinkParts<'_>, now: Moment) -> Result<(), Refusal>
        ensures admits { (s : State) (r : Request) (p : LinkValues) (k : Key)
            → WasKept K.Keeper self.old.keeper self.new.keeper s
            → IsLinkOf link.now r p → IsSigned s r p k
            → MatchResult result (λ done. IsAdmitted s r now p k)
            (λ q. (q ≢ Refusal.TryAgain) → IsFirstToFail (Rule s r now) q) }
        ensures looks { Looks K.Keeper self.old.keeper self.new.keeper (IsGivenUp result) }
    {
        let Ok(allowance) = self.allowance_of(link, now) else {
            return Err(Refusal::TryAgain);
        };
        check_window(link, allowance, now)
    }
}
