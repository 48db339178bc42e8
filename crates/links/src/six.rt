//! The six signing parameters of a target.
ghost use Rattle.std.specs.Prelude.{◌≡◌, ◌≢◌, ℕ, List, codes, IfOk, IfErr, IfSome, IfNone, IsFalse, IsTrue};
ghost use Rattle.std.specs.List.{list_any};
ghost use Rattle.percent_encoding.specs.Percent as escapes;
ghost use Rattle.sigtext.specs.Bytes.{begins_with};
ghost use Rattle.sigtext.specs.Target.{Param};
ghost use Rattle.sigtext.specs.Targets.{SpellsReading};
ghost use Rattle.sigtext.specs.Signing.{HoldsParams};
ghost use Rattle.links.specs.WellFormed.{AreThere};
ghost use Rattle.sigtext.specs.Readable.{HaveNames, is_signing_name, is_other_amz_name};
ghost use Rattle.links.specs.SixValues.{AreRawSix, AreRightParams, AreWrongParams, texts_of};

use crate::six_values::SixValues;
use percent_encoding::percent_decode;
use sigtext::{Params, Refusal, Target, decodes_to};
use std::alloc::Global;

/// The raw values of the six signing parameters.
#[derive(Clone, Copy)]
pub(crate) struct RawSix<'a> {
    pub(crate) algorithm: &'a [u8],
    pub(crate) credential: &'a [u8],
    pub(crate) date: &'a [u8],
    pub(crate) expires: &'a [u8],
    pub(crate) names: &'a [u8],
    pub(crate) signature: &'a [u8],
}

impl RawSix<'_> {
    /// The total length of all six, or the greatest `usize` if the total is greater.
    pub(crate) fn len(&self) -> usize {
        self.algorithm
            .len()
            .saturating_add(self.credential.len())
            .saturating_add(self.date.len())
            .saturating_add(self.expires.len())
            .saturating_add(self.names.len())
            .saturating_add(self.signature.len())
    }
}

// The names of the signing parameters begin with this.
const PREFIX: &[u8] = b"X-Amz-";

// Whether the raw name, decoded, is one of the six.
fn is_signing(name: &[u8]) -> bool
    ensures { result ≡ is_signing_name (escapes.percent_decode name.now) }
{
    decodes_to(name, b"X-Amz-Algorithm")
        || decodes_to(name, b"X-Amz-Credential")
        || decodes_to(name, b"X-Amz-Date")
        || decodes_to(name, b"X-Amz-Expires")
        || decodes_to(name, b"X-Amz-SignedHeaders")
        || decodes_to(name, b"X-Amz-Signature")
}

// Whether the raw name, decoded, begins with `X-Amz-`.
fn has_prefix(name: &[u8]) -> bool
    ensures { result ≡ begins_with (escapes.percent_decode name.now) (codes "X-Amz-") }
{
    PREFIX
        .iter()
        .copied()
        .eq(percent_decode(name).take(PREFIX.len()))
}

// Which kinds of names that begin with `X-Amz-` a target has.
#[derive(Clone, Copy)]
struct AmzNames {
    // A name that is one of the six.
    signing: bool,
    // A name that is none of the six.
    other: bool,
}

// Finds the names that begin with `X-Amz-`, in one pass over the target.
fn amz_names(target: &Target<'_>) -> AmzNames
    ensures signing { (path : List ℕ) (params : List Param) → SpellsReading target.now path params
        → result.signing ≡ list_any (λ p. is_signing_name p.name) params }
    ensures other { (path : List ℕ) (params : List Param) → SpellsReading target.now path params
        → result.other ≡ list_any (λ p. is_other_amz_name p.name) params }
{
    let mut signing = false;
    let mut other = false;
    for raw in target.pairs() {
        if is_signing(raw.name) {
            signing = true;
        } else if has_prefix(raw.name) {
            other = true;
        }
    }
    AmzNames { signing, other }
}

/// Whether one of the six is present, and no other name begins with `X-Amz-`.
pub(crate) fn has_names(target: &Target<'_>) -> bool
    ensures told { (path : List ℕ) (params : List Param) → SpellsReading target.now path params
        → IsTrue result → HaveNames params }
    ensures denied { (path : List ℕ) (params : List Param) → SpellsReading target.now path params
        → IsFalse result → HaveNames params → ⊥ }
{
    let names = amz_names(target);
    names.signing && !names.other
}

// The raw values of the six, if all are present.
fn raw_six<'a>(params: &Params<'a>) -> Option<RawSix<'a>>
    ensures some { IfSome result
        (λ six. (ps : List Param) → HoldsParams params.now ps → AreRawSix six ps) }
    ensures none { IfNone result ((ps : List Param) → HoldsParams params.now ps → AreThere ps → ⊥) }
{
    let (
        Some(algorithm),
        Some(credential),
        Some(date),
        Some(expires),
        Some(names),
        Some(signature),
    ) = (
        params.get(b"X-Amz-Algorithm"),
        params.get(b"X-Amz-Credential"),
        params.get(b"X-Amz-Date"),
        params.get(b"X-Amz-Expires"),
        params.get(b"X-Amz-SignedHeaders"),
        params.get(b"X-Amz-Signature"),
    ) else {
        return None;
    };
    Some(RawSix {
        algorithm,
        credential,
        date,
        expires,
        names,
        signature,
    })
}

/// Reads the parameters of a target, in sorted order, and the values of the six among them. Refusal 9 if none of the six is
/// present. Refusal 10 if one is missing, a name occurs twice, or another name begins with `X-Amz-`. Refusal 40 if memory was
/// refused.
pub(crate) fn read_six<'a>(
    alloc: Global,
    target: &Target<'a>,
) -> Result<(Params<'a>, SixValues), Refusal>
    ensures ok { IfOk result
        (λ found. (path : List ℕ) (params : List Param) → SpellsReading target.now path params
        → AreRightParams found.0 (texts_of found.1) params) }
    ensures err { IfErr result
        (λ q. (q ≢ Refusal.TryAgain) → (path : List ℕ) (params : List Param)
        → SpellsReading target.now path params
        → AreWrongParams q params) }
    ensures named { IfErr result
        (λ q. q ≡ Refusal.TryAgain → (path : List ℕ) (params : List Param)
        → SpellsReading target.now path params
        → HaveNames params) }
{
    let names = amz_names(target);
    if !names.signing {
        return Err(Refusal::NotSigned);
    }
    if names.other {
        return Err(Refusal::Parameters);
    }
    let params = Params::read(alloc, target)?;
    let Some(raw) = raw_six(&params) else {
        return Err(Refusal::Parameters);
    };
    match SixValues::decode(alloc, raw) {
        Ok(six) => Ok((params, six)),
        Err(_) => Err(Refusal::TryAgain),
    }
}
