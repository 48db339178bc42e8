//! What a well-formed link says.
ghost use Rattle.std.specs.Prelude.{◌≤◌, ◌+◌, length};
ghost use Rattle.links.specs.SixValues.{texts_of};

use crate::six_values::SixValues;
use percent_encoding::percent_decode;
use sigtext::Parts;
use sigv4::{Moment, Scope};
use std::alloc::{AllocError, Global};

/// What a well-formed link says. It owns the decoded values of the six signing parameters, and the lists of parameters and
/// signed headers. It borrows the rest from the target and the fields.
#[derive(Drop)]
pub struct LinkParts<'a> {
    // What the signature covers.
    pub(crate) parts: Parts<'a>,
    // Each value has its form.
    pub(crate) six: SixValues,
    // The length of the key id, which is at the start of the credential.
    pub(crate) key_id_length: usize,
    pub(crate) start: Moment,
    // In seconds.
    pub(crate) expires: u64,
    // A slash, the day, a slash, the region and the fixed end follow the key id: 26 bytes plus the region.
    ghost scope_fits: { key_id_length + 26 ≤ length (texts_of six).credential },
}

// The length of a day, `yyyyMMdd`.
const DAY: usize = 8;

// The end of every credential.
const FIXED_END: &[u8] = b"/s3/aws4_request";

impl LinkParts<'_> {
    ghost use Rattle.std.specs.Prelude.{◌≡◌, ◌↔◌, ◌<◌, ◌++◌, ℕ, List, vec_len, vec_capacity, IfErr, IfOk, IsTrue, MatchOption, OnErr, OnOk};
    ghost use Rattle.sigtext.specs.Request.{Request};
    ghost use Rattle.sigv4.specs.Scopes.{scope_of};
    ghost use Rattle.links.specs.WellFormed.{LinkValues, HasValue};
    ghost use Rattle.links.specs.LinkReadings.{IsLinkOf};
    ghost use Rattle.links.specs.Moments.{HasBegun, moment_with};

    /// The key id of the link's credential: 1 to 64 bytes of `A-Z a-z 0-9 - _`.
    pub fn key_id(&self) -> &[u8]
        ensures { (r : Request) (p : LinkValues) → IsLinkOf self.now r p → result.now ≡ p.key_id }
    {
        self.scope().key_id
    }

    // The link's credential, cut at its slashes: the key id, the day and the region, without the fixed end.
    pub(crate) fn scope(&self) -> Scope<'_>
        ensures { (r : Request) (p : LinkValues) → IsLinkOf self.now r p
            → (result.key_id.now ≡ p.key_id) × (scope_of result ≡ p.scope) }
    {
        let (key_id, rest) = self.six.credential().split_at(self.key_id_length);
        Scope {
            key_id,
            date: &rest[1..DAY + 1],
            region: &rest[DAY + 2..rest.len() - FIXED_END.len()],
        }
    }

    /// Whether the link's window has begun at this moment.
    pub fn has_begun(&self, now: Moment) -> bool
        ensures { (r : Request) (p : LinkValues) → IsLinkOf self.now r p
            → (IsTrue result ↔ HasBegun (moment_with 0 now) p.start) }
    {
        self.start.seconds() <= now.seconds()
    }

    /// Appends the decoded path. The only error is that memory was refused when the vector had no room for the path. It leaves
    /// the vector unchanged.
    pub fn path_into(&self, out: &mut Vec<u8>) -> Result<(), AllocError>
        ensures ok { OnOk result
            ((r : Request) (p : LinkValues) → IsLinkOf self.now r p
            → out.new.items ≡ out.old.items ++ p.path) }
        ensures err { OnErr result (out.new.items ≡ out.old.items) }
        ensures full { OnErr result ((r : Request) (p : LinkValues) → IsLinkOf self.now r p
            → vec_capacity out.old < vec_len out.old + length p.path) }
    {
        self.parts.target.path_into(out)
    }
    /// The decoded value of the parameter with this decoded name, if there is one.
    ///
    /// # Errors
    ///
    /// Memory was refused. Memory is requested only if the parameter exists.
    pub fn param(&self, alloc: Global, name: &[u8]) -> Result<Option<Vec<u8>>, AllocError>
        ensures found { IfOk result (λ found. (r : Request) (p : LinkValues) → IsLinkOf self.now r p
            → MatchOption found ((value : List ℕ) → HasValue p.params name.now value → ⊥)
            (λ value. HasValue p.params name.now value.items)) }
        ensures memory { IfErr result
            (λ e. (r : Request) (p : LinkValues) → IsLinkOf self.now r p
            → (value : List ℕ) × HasValue p.params name.now value) }
    {
        let Some(raw) = self.parts.params.get(name) else {
            return Ok(None);
        };
        let mut value = Vec::with_capacity(alloc, raw.len())?;
        percent_decode(raw).append_to(&mut value)?;
        Ok(Some(value))
    }
}
