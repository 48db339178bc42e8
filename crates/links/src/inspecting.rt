//! Reading a link: what its target and the request's fields say (Amazon S3 API Reference, "Authenticating
//! Requests: Using Query Parameters").
ghost use Rattle.std.specs.Prelude.{◌≡◌, ◌≢◌, ℕ, List, map, IfOk, IfErr, IfSome, IfNone, length};
ghost use Rattle.sigtext.specs.Fields.{header_of};
ghost use Rattle.sigtext.specs.Request.{Request};
ghost use Rattle.sigtext.specs.Rules.{IsFirstToFail};
ghost use Rattle.sigv4.specs.Dates.{WritesMoment};
ghost use Rattle.links.specs.WellFormed.{LinkValues, HeadRule};
ghost use Rattle.links.specs.SixValues.{SixParts, SixRule, HoldBeforeNames, texts_of};
ghost use Rattle.sigtext.specs.Readable.{HaveNames};
ghost use Rattle.sigtext.specs.Target.{Param, IsTargetOf};
ghost use Rattle.links.specs.LinkReadings.{IsAskedBy, IsLinkOf};

use crate::forms::{is_hex_digest, read_expiry};
use crate::link_parts::LinkParts;
use crate::methods::Method;
use crate::six::read_six;
use crate::six_values::SixValues;
use sigtext::{Field, Parts, Refusal, SignedNames, Target, signed_values};
use sigv4::{Moment, Scope};
use std::alloc::Global;

/// When a link begins, for how many seconds it is valid, and how long the key id of its credential is.
#[derive(Clone, Copy)]
struct Window {
    key_id_length: usize,
    start: Moment,
    expires: u64,
}

/// Reads a moment as a link writes it: `20130524T000000Z` (ISO 8601, basic format, in UTC).
pub fn read_moment(date: &[u8]) -> Option<Moment>
    ensures some { IfSome result (WritesMoment date.now) }
    ensures none { IfNone result ((m : ℕ) → WritesMoment date.now m → ⊥) }
{
    let Ok(text) = <&[u8; 16]>::try_from(date) else {
        return None;
    };
    Moment::read(text)
}

// The window of a link, if its algorithm, credential, date and expiry have their forms. Otherwise the lowest refusal that
// applies, from 11 to 14.
fn read_window(six: &SixValues) -> Result<Window, Refusal>
    ensures ok { IfOk result (λ w. (p : SixParts) × (length p.key_id ≡ w.key_id_length)
        × (p.start ≡ w.start) × (p.expires ≡ w.expires) × HoldBeforeNames (texts_of six.now) p) }
    ensures err { IfErr result (IsFirstToFail (SixRule (texts_of six.now))) }
{
    if six.algorithm() != b"AWS4-HMAC-SHA256".as_slice() {
        return Err(Refusal::Algorithm);
    }
    let scope = Scope::read(six.credential(), six.date())?;
    let Some(start) = read_moment(six.date()) else {
        return Err(Refusal::Date);
    };
    let Some(expires) = read_expiry(six.expires()) else {
        return Err(Refusal::Expiry);
    };
    Ok(Window {
        key_id_length: scope.key_id.len(),
        start,
        expires,
    })
}

/// Reads the link of a request whose target was read. Returns its parts if no rule from 9 to 18 fails, otherwise the refusal of
/// the lowest rule that fails. Returns refusal 40 if memory was refused. It needs no memory to check that one of the six signing
/// parameters is present and that no other name begins with `X-Amz-`. It requests memory at most three times.
pub fn inspect<'a>(
    alloc: Global,
    method: Method,
    target: &Target<'a>,
    fields: &'a [Field<'a>],
) -> Result<LinkParts<'a>, Refusal>
    ensures ok { IfOk result
        (λ l. (r : Request) → IsAskedBy method target.now (map header_of fields.now) r
        → (p : LinkValues) × IsLinkOf l r p) }
    ensures err { IfErr result (λ q. (q ≢ Refusal.TryAgain)
        → (r : Request) → IsAskedBy method target.now (map header_of fields.now) r
        → IsFirstToFail (λ x p. HeadRule x r p) q) }
    ensures named { IfErr result (λ q. q ≡ Refusal.TryAgain
        → (r : Request) → IsAskedBy method target.now (map header_of fields.now) r
        → (path : List ℕ) (params : List Param) → IsTargetOf r.target path params
        → HaveNames params) }
{
    let (params, six) = read_six(alloc, target)?;
    let window = read_window(&six)?;
    let names = SignedNames::read(six.names())?;
    if !is_hex_digest(six.signature()) {
        return Err(Refusal::SignatureText);
    }
    let values = signed_values(alloc, fields, &names)?;
    Ok(LinkParts {
        parts: Parts {
            method: method.text(),
            target: *target,
            params,
            values,
        },
        six,
        key_id_length: window.key_id_length,
        start: window.start,
        expires: window.expires,
    })
}
