//! The hasher for the signing key that was derived last.
ghost use Rattle.std.specs.Prelude.{◌≡◌, [], IsTrue, IfSome};
ghost use Rattle.sigv4.specs.Hashers.{HmacHolds};
ghost use Rattle.sigv4.specs.declared.hash.Hmac.{Hmac as Hasher};
ghost use Rattle.sigv4.specs.Signature.{signing_key};
ghost use Rattle.sigv4.specs.Scopes.{scope_of};

use crate::hash::Hmac;
use crate::scope::Scope;
use crate::signing::derive;
use arrayvec::ArrayVec;
use std::marker::Model;

/// The most bytes of a secret, a day and a region whose signing key is kept. These are the limits of their forms.
const MOST_SECRET: usize = 128;

const DAY: usize = 8;

const MOST_REGION: usize = 32;

// A copy of the text, if it has at most `ROOM` bytes.
fn copy_of<const ROOM: usize>(text: &[u8]) -> Option<ArrayVec<u8, ROOM>>
    ensures { IfSome result (λ copy. copy.items ≡ text.now) }
{
    let mut copy = ArrayVec::new();
    copy.try_extend_from_slice(text).ok()?;
    Some(copy)
}

// A second hasher that was fed the same. Copying never fails.
fn copy_of_hasher(hasher: &Hmac) -> Hmac
    ensures { result ≡ hasher.now }
{
    match hasher.clone() {
        Ok(copy) => copy,
        Err(_) => unreachable!(),
    }
}

// A hasher for a signing key, with the secret, the day and the region that the key was derived from. It was fed nothing yet.
#[derive(Drop)]
struct Derived {
    secret: ArrayVec<u8, MOST_SECRET>,
    date: ArrayVec<u8, DAY>,
    region: ArrayVec<u8, MOST_REGION>,
    hasher: Hmac,
}

impl Model for Derived {
    ghost Value = { Hasher };

    ghost view = { λ d. d.hasher };

    ghost invariant = { λ d. HmacHolds d.hasher (signing_key d.secret.items
        (record { date = d.date.items; region = d.region.items })) [] };
}

impl Derived {
    // Keeps the hasher with copies of the secret, the day and the region. `None` if one of them is longer than its form allows.
    fn new(secret: &[u8], scope: &Scope<'_>, hasher: Hmac) -> Option<Derived>
        requires { HmacHolds hasher (signing_key secret.now (scope_of scope.now)) [] }
    {
        Some(Derived {
            secret: copy_of(secret)?,
            date: copy_of(scope.date)?,
            region: copy_of(scope.region)?,
            hasher,
        })
    }

    // Whether the key was derived from this secret and scope.
    fn is_of(&self, secret: &[u8], scope: &Scope<'_>) -> bool
        ensures { IsTrue result
            → HmacHolds self.now (signing_key secret.now (scope_of scope.now)) [] }
    {
        self.secret.as_slice() == secret
            && self.date.as_slice() == scope.date
            && self.region.as_slice() == scope.region
    }

    // A second hasher that was fed the same. Copying never fails.
    fn copy(&self) -> Hmac
        ensures { result ≡ self.now }
    {
        copy_of_hasher(&self.hasher)
    }
}

/// A hasher for the signing key that was derived last. Successive requests of one key, day and region derive the signing key,
/// and mask it for HMAC, only once. The hasher lies in the value itself, with copies of the secret, the day and the region. It
/// has no allocator.
#[derive(Drop)]
pub struct LastKey {
    last: Option<Derived>,
}

impl LastKey {
    /// No key was derived yet.
    pub fn new() -> LastKey {
        LastKey { last: None }
    }

    /// A hasher for the signing key that [`derive`] gives for the secret and the scope. It was fed nothing yet.
    pub fn hasher(&mut self, secret: &[u8], scope: &Scope<'_>) -> Hmac
        ensures { HmacHolds result (signing_key secret.now (scope_of scope.now)) [] }
    {
        if let Some(last) = &self.last {
            if last.is_of(secret, scope) {
                return last.copy();
            }
        }
        let hasher = Hmac::new(&derive(secret, scope));
        self.last = Derived::new(secret, scope, copy_of_hasher(&hasher));
        hasher
    }
}
