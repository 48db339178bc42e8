//! What the key of a link may send: rule 24.
ghost use Rattle.std.specs.Prelude.{◌≡◌, ◌↔◌, IsTrue};

use super::places::{decoded_path, read_place};
use crate::office::Office;
use boxes::{Keeper, Role};
use links::{LinkParts, Method};
use sigtext::Refusal;

fn is_post(method: Method) -> bool
    ensures { IsTrue result ↔ (method ≡ Method.Post) }
{
    matches!(method, Method::Post)
}

impl<K: Keeper> Office<K> {
    ghost use Rattle.std.specs.Prelude.{◌≡◌, ◌≢◌, ℕ, Err, MatchResult};
    ghost use Rattle.sigtext.specs.Request.{Request};
    ghost use Rattle.sigtext.specs.Rules.{IsFirstToFail};
    ghost use Rattle.boxes.specs.State.{Key, State};
    ghost use Rattle.links.specs.LinkReadings.{IsLinkOf};
    ghost use Rattle.links.specs.Methods.{method_text};
    ghost use Rattle.links.specs.WellFormed.{LinkValues};
    ghost use Rattle.office.specs.Admitted.{IsAdmitted};
    ghost use Rattle.office.specs.Frames.{Looks};
    ghost use Rattle.office.specs.Premise.{IsGivenUp, WasKept};
    ghost use Rattle.office.specs.Rules.{MaySend, Rule};

    // Checks whether the key of an admitted link, with this role, may send this. A clerk's key may send
    // anything. Any other key may send nothing to the desk and, if it is limited, only to the boxes of its
    // set. Otherwise the message is refused by rule 24, or by 40 if memory was refused or the keeper counted
    // a fault.
    pub(crate) fn check_reach(
        &mut self,
        link: &LinkParts<'_>,
        method: Method,
        role: Role,
    ) -> Result<(), Refusal>
        ensures reaches { (s : State) (r : Request) (now : ℕ) (p : LinkValues) (k : Key)
            → WasKept K.Keeper self.old.keeper self.new.keeper s
            → IsLinkOf link.now r p → r.method ≡ method_text method
            → IsAdmitted s r now p k → k.role ≡ role
            → MatchResult result (λ done. MaySend s r p)
            (λ q. (q ≢ Refusal.TryAgain) → IsFirstToFail (Rule s r now) q) }
        ensures looks { Looks K.Keeper self.old.keeper self.new.keeper (IsGivenUp result) }
    {
        match role {
            Role::Clerk => return Ok(()),
            Role::Link => {}
        }
        if is_post(method) {
            return Err(Refusal::RoleNotAllowed);
        }
        let Ok(path) = decoded_path(self.alloc, link) else {
            return Err(Refusal::TryAgain);
        };
        let place = read_place(&path);
        match self.keeper.may_use(link.key_id(), place.in_box) {
            Ok(true) => Ok(()),
            Ok(false) => Err(Refusal::RoleNotAllowed),
            Err(_) => Err(Refusal::TryAgain),
        }
    }
}
