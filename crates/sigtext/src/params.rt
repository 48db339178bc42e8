//! The parameters of a target in canonical order.
ghost use Rattle.std.specs.Prelude.{◌≡◌, ◌≢◌, ◌∷◌, [], ℕ, List, IfOk, IfErr, IfSome, IfNone, IsTrue, map};
ghost use Rattle.percent_encoding.specs.Percent as percent;
ghost use Rattle.sigtext.specs.declared.encode.Slash.TheVariants as slash;
ghost use Rattle.sigtext.specs.Spelling.{Spells};
ghost use Rattle.sigtext.specs.Target.{Param};
ghost use Rattle.sigtext.specs.Targets.{SpellsReading};
ghost use Rattle.sigtext.specs.Params.{params_named, StandOnce};
ghost use Rattle.sigtext.specs.Signing.{HoldsParams, SpellRawParams};
ghost use Rattle.sigtext.specs.Bytes.{bytes_cmp};
ghost use Rattle.sigtext.specs.UriEncode.{is_unreserved, uri_encoded};
ghost use Rattle.sigtext.specs.CanonicalQuery.{ascends};

use crate::encode::{Slash, escaped};
use crate::escapes::decodes_to;
use crate::refusal::Refusal;
use crate::target::{RawParam, Target};
use percent_encoding::percent_decode;
use std::alloc::{AllocError, Global};
use std::cmp::Ordering;

/// The parameters of a target, in ascending order of their encoded names. No name occurs twice.
#[derive(Drop)]
pub struct Params<'a> {
    pub(crate) items: Vec<RawParam<'a>>,
}

impl<'a> Params<'a> {
    /// Sorts the parameters of a target by their encoded names. Refusal 10 if two have the same decoded name; refusal
    /// 40 if there is no memory. It compares names O(n log n) times.
    pub fn read(alloc: Global, target: &Target<'a>) -> Result<Params<'a>, Refusal>
        ensures ok { IfOk result
            (λ sorted. (path : List ℕ) (params : List Param) → SpellsReading target.now path params
            → HoldsParams sorted params) }
        ensures err { IfErr result (λ q. (q ≢ Refusal.TryAgain) → (q ≡ Refusal.Parameters)
            × ((path : List ℕ) (params : List Param) → SpellsReading target.now path params
            → StandOnce params → ⊥)) }
    {
        let Ok(mut items) = collect(alloc, target) else {
            return Err(Refusal::TryAgain);
        };
        items.sort_unstable_by(|a, b| compare_names(a.name, b.name));
        if names_ascend(items.as_slice()) {
            Ok(Params { items })
        } else {
            Err(Refusal::Parameters)
        }
    }

    /// The raw value of the parameter with this decoded name.
    pub fn get(&self, name: &[u8]) -> Option<&'a [u8]>
        ensures some { IfSome result (λ raw. (params : List Param) → HoldsParams self.now params
            → (value : List ℕ) × Spells (38 ∷ []) raw.now value
            × (params_named name.now params ≡ record { name = name.now; value = value } ∷ [])) }
        ensures none { IfNone result
            ((params : List Param) → HoldsParams self.now params
            → params_named name.now params ≡ []) }
    {
        for raw in &self.items {
            if decodes_to(raw.name, name) {
                return Some(raw.value);
            }
        }
        None
    }
}

fn collect<'a>(alloc: Global, target: &Target<'a>) -> Result<Vec<RawParam<'a>>, AllocError>
    ensures { IfOk result
        (λ items. (path : List ℕ) (params : List Param) → SpellsReading target.now path params
        → SpellRawParams items.items params) }
{
    let mut items = Vec::with_capacity(alloc, target.pairs().count())?;
    items.extend(target.pairs())?;
    Ok(items)
}

// The rank of a byte: whether encoding keeps it, and the byte. An escape begins with `%`, which is less than each byte
// that is kept, and escapes are in the order of their bytes. So encoded texts compare as the ranks of their bytes do.
fn encoded_rank(byte: u8) -> (bool, u8)
    ensures { result ≡ (is_unreserved byte, byte) }
{
    let is_escaped = escaped(Slash::Encoded).should_percent_encode(byte);
    (!is_escaped, byte)
}

// Whether neither decoding nor encoding changes the text.
fn is_plain(text: &[u8]) -> bool
    ensures { IsTrue result → uri_encoded slash.Encoded (percent.percent_decode text.now) ≡ text.now }
{
    let set = escaped(Slash::Encoded);
    for byte in text {
        if set.should_percent_encode(*byte) {
            return false;
        }
    }
    true
}

// The order of the two raw names after they are decoded and encoded.
fn compare_names(a: &[u8], b: &[u8]) -> Ordering
    ensures { result ≡ bytes_cmp (uri_encoded slash.Encoded (percent.percent_decode a.now))
        (uri_encoded slash.Encoded (percent.percent_decode b.now)) }
{
    if is_plain(a) && is_plain(b) {
        return a.cmp(b);
    }
    percent_decode(a)
        .map(encoded_rank)
        .cmp(percent_decode(b).map(encoded_rank))
}

// Whether each encoded name is less than the next.
fn names_ascend(items: &[RawParam]) -> bool
    ensures { result ≡ ascends
        (map (λ raw. uri_encoded slash.Encoded (percent.percent_decode raw.name.now)) items.now) }
{
    items.is_sorted_by(|a, b| compare_names(a.name, b.name).is_lt())
}
