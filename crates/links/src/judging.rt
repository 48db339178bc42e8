//! The signature of a link, and its window.
ghost use Rattle.std.specs.Prelude.{◌≡◌, ◌↔◌, ℕ, List, IsTrue};
ghost use Rattle.sigtext.specs.CanonicalRequest.{Signed, IsCanonicalRequest, IsTheOnly};
ghost use Rattle.sigtext.specs.Signing.{AreOf};
ghost use Rattle.sigtext.specs.Request.{Request};
ghost use Rattle.sigv4.specs.Dates.{WritesMoment};
ghost use Rattle.sigv4.specs.Scopes.{scope_of};
ghost use Rattle.sigv4.specs.Signature.{signature_of};
ghost use Rattle.links.specs.WellFormed.{LinkValues};
ghost use Rattle.links.specs.SixValues.{texts_of};
ghost use Rattle.links.specs.LinkReadings.{IsLinkOf};
ghost use Rattle.links.specs.Judging.{Judges, LiesIn, Verifies};
ghost use Rattle.links.specs.Moments.{moment_with};

use crate::link_parts::LinkParts;
use sigtext::Refusal;
use sigv4::{Allowance, LastKey, Moment, Scope, sign};

// Whether the link's signature is the signature of its canonical request under the secret.
fn is_signed_by(link: &LinkParts<'_>, scope: &Scope<'_>, secret: &[u8], last: &mut LastKey) -> bool
    ensures { (signed : Signed) → AreOf link.now.parts signed
        → (text : List ℕ) × IsTheOnly (IsCanonicalRequest signed) text
        × ((date : List ℕ) → WritesMoment date link.now.start
        → (IsTrue result ↔ ((texts_of link.now.six).signature
        ≡ signature_of secret.now date (scope_of scope.now) text))) }
{
    let digits = sign(last.hasher(secret, scope), scope, &link.start, &link.parts);
    link.six.signature() == digits.as_slice()
}

/// Checks the signature of a link that was read, under its key's secret. Refusal 21 if it is not the signature of the canonical
/// request. If the last signing key is another one, the signing key is derived and becomes the last. The answer does not depend
/// on memory.
pub fn check_signature(
    link: &LinkParts<'_>,
    secret: &[u8],
    last: &mut LastKey,
) -> Result<(), Refusal>
    ensures { (r : Request) (p : LinkValues) → IsLinkOf link.now r p
        → Verifies secret.now r p result }
{
    if !is_signed_by(link, &link.scope(), secret, last) {
        return Err(Refusal::SignatureMismatch);
    }
    Ok(())
}

/// Checks the window of a link that was read, at a moment. Refusal 22 before the window, and 23 at its end or after it. The
/// allowance makes the window begin earlier, but does not make it end later. Allocates no memory.
pub fn check_window(link: &LinkParts<'_>, allowance: Allowance, now: Moment) -> Result<(), Refusal>
    ensures { (r : Request) (p : LinkValues) → IsLinkOf link.now r p
        → LiesIn (moment_with allowance now) p result }
{
    let moment = now.seconds();
    let start = link.start.seconds();
    if moment + allowance.seconds() < start {
        return Err(Refusal::NotYetValid);
    }
    if moment >= start.saturating_add(link.expires) {
        return Err(Refusal::Expired);
    }
    Ok(())
}

/// Judges a link that was read, under its key's secret and at a moment. Refusal 21 if the signature is not that of the
/// canonical request, 22 before the window, and 23 at its end or after it. The allowance makes the window begin earlier, but
/// does not make it end later. The answer does not depend on memory.
pub fn judge(
    link: &LinkParts<'_>,
    secret: &[u8],
    last: &mut LastKey,
    allowance: Allowance,
    now: Moment,
) -> Result<(), Refusal>
    ensures { (r : Request) (p : LinkValues) → IsLinkOf link.now r p
        → Judges secret.now r (moment_with allowance now) p result }
{
    match check_signature(link, secret, last) {
        Ok(()) => check_window(link, allowance, now),
        Err(refusal) => Err(refusal),
    }
}
