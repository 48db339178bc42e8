//! Reading the link of a message.
ghost use Rattle.std.specs.Prelude.{◌≡◌, ◌≢◌, ℕ, List, IfOk, IfErr};
ghost use Rattle.sigtext.specs.Rules.{IsFirstToFail};
ghost use Rattle.links.specs.Methods.{method_text};
ghost use Rattle.links.specs.WellFormed.{LinkValues, HeadRule};
ghost use Rattle.links.specs.LinkReadings.{IsLinkOf};
ghost use Rattle.office.specs.Announcing.{request_with};
ghost use Rattle.sigtext.specs.Readable.{IsReadable};

use super::announced::Announced;
use links::{LinkParts, Method, inspect};
use sigtext::{Refusal, Target};
use std::alloc::Global;

/// Reads the link of a message with this method. Returns its parts, or the refusal of the first of rules 8 to
/// 18 that fails, or refusal 40 if memory was refused.
pub(crate) fn read_link<'a>(
    alloc: Global,
    method: Method,
    message: &Announced<'a>,
) -> Result<LinkParts<'a>, Refusal>
    requires { message.now.method.now ≡ method_text method }
    ensures ok { IfOk result (λ l. (body : List ℕ) → (p : LinkValues)
        × IsLinkOf l (request_with message.now body) p) }
    ensures err { IfErr result (λ q. (q ≢ Refusal.TryAgain) → (body : List ℕ)
        → IsFirstToFail (λ x p. HeadRule x (request_with message.now body) p) q) }
    ensures readable { IfErr result (λ q. q ≡ Refusal.TryAgain → (body : List ℕ)
        → IsReadable (request_with message.now body)) }
{
    match Target::read(message.target) {
        Ok(target) => inspect(alloc, method, &target, message.fields),
        Err(fault) => Err(fault.refusal()),
    }
}
