//! The rules on bodies: 25 and 26.
ghost use Rattle.std.specs.Prelude.{◌≡◌, ◌↔◌, ℕ, List, length, IsTrue, MatchResult};
ghost use Rattle.sigtext.specs.Rules.{IsFirstToFail};
ghost use Rattle.sigtext.specs.declared.refusal.Refusal as refusal;
ghost use Rattle.boxes.specs.State.{Key, State};
ghost use Rattle.links.specs.Methods.{method_text};
ghost use Rattle.links.specs.WellFormed.{LinkValues};
ghost use Rattle.office.specs.Admitted.{IsAdmitted};
ghost use Rattle.office.specs.Announcing.{request_with};
ghost use Rattle.office.specs.Rules.{FormRule, MaySend, Rule};

use super::announced::Announced;
use links::Method;
use sigtext::Refusal;

fn is_put(method: Method) -> bool
    ensures { IsTrue result ↔ (method ≡ Method.Put) }
{
    matches!(method, Method::Put)
}

/// Checks rules 25 and 26 for a message whose link is admitted and whose key may send it. The error is the
/// refusal of the first rule that fails. Takes no memory.
pub(crate) fn check_form(method: Method, message: &Announced<'_>) -> Result<(), Refusal>
    requires { message.now.method.now ≡ method_text method }
    ensures { (s : State) (body : List ℕ) (now : ℕ) (p : LinkValues) (k : Key)
        → length body ≡ message.now.length
        → IsAdmitted s (request_with message.now body) now p k
        → MaySend s (request_with message.now body) p
        → MatchResult result
        (λ done. (q : refusal.Refusal) → FormRule q s (request_with message.now body) p)
        (λ q. IsFirstToFail (Rule s (request_with message.now body) now) q) }
{
    if is_put(method) && !message.has_length {
        return Err(Refusal::LengthMissing);
    }
    if !is_put(method) && message.length > 0 {
        return Err(Refusal::BodyNotTaken);
    }
    Ok(())
}
